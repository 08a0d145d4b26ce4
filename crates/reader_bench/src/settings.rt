//! The settings before a text.

use clf_base::{List, NoMemory};
use clf_tree::{Given, GivenScope};
use std::alloc::Global;

/// What holds where nothing is given.
pub fn nothing_given(alloc: Global) -> Given {
    Given {
        scopes: List::new(alloc),
        default: 3,
        low: -2048,
        high: 2047,
    }
}

/// Adds the scope of `PATH=N`.
fn add_scope(alloc: Global, given: &mut Given, scope: &str) -> Result<(), NoMemory> {
    let Some((path, most)) = scope.split_once("=") else {
        return Ok(());
    };
    let path = List::from_slice(alloc, path.as_bytes())?;
    let most = most.parse::<u64>().unwrap_or(0);
    given.scopes.push(GivenScope { path, most })
}

/// Adds a setting. One that is none changes nothing.
fn add(alloc: Global, given: &mut Given, setting: &str) -> Result<(), NoMemory> {
    let Some((name, value)) = setting.split_once(" ") else {
        return Ok(());
    };
    match name {
        "scope" => return add_scope(alloc, given, value),
        "default" => given.default = value.parse::<u64>().unwrap_or(3),
        "low" => given.low = value.parse::<i64>().unwrap_or(-2048),
        "high" => given.high = value.parse::<i64>().unwrap_or(2047),
        _ => {}
    }
    Ok(())
}

/// The settings, with `, ` between two.
pub fn settings(alloc: Global, words: &str) -> Result<Given, NoMemory> {
    let mut given = nothing_given(alloc);
    for setting in words.split(", ") {
        add(alloc, &mut given, setting)?;
    }
    Ok(given)
}
