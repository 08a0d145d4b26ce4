//! The settings that have a value.

ghost use Rattle.std.specs.Prelude.{◌≡◌, ◌≤◌, length, reverse, take, IfOk};
ghost use Rattle.std.specs.List.{prefix_len};
ghost use Rattle.std.specs.Char.{is_ascii_digit};
ghost use Rattle.command_words.specs.Words as spec;

use crate::numbers::number;
use clf_base::{List, NoMemory};
use clf_tree::GivenScope;
use std::alloc::Global;

/// A setting that has a value.
#[derive(Clone, Copy, Debug)]
pub enum Setting {
    /// The greatest number of instances of a clafer: its path, `=` and the number.
    Scope,
    /// The number for clafers without an upper bound.
    DefaultScope,
    /// The least integer that a clafer may refer to.
    IntLow,
    /// The greatest one.
    IntHigh,
    /// The most clauses that the search may learn, 1 to a thousand million.
    Budget,
    /// What the guide is given.
    Seed,
    /// The number of a generated model, 1 to 80, which is then answered in place of the text.
    Generate,
}

/// The setting of a name.
#[tactic(auto, unfolding(crate::specs::Words::setting_named))]
pub(crate) fn setting_named(name: &[u8]) -> Option<Setting>
    ensures { result ≡ spec.setting_named name.now }
{
    if name == b"--scope".as_slice() {
        Some(Setting::Scope)
    } else if name == b"--default-scope".as_slice() {
        Some(Setting::DefaultScope)
    } else if name == b"--int-low".as_slice() {
        Some(Setting::IntLow)
    } else if name == b"--int-high".as_slice() {
        Some(Setting::IntHigh)
    } else if name == b"--budget".as_slice() {
        Some(Setting::Budget)
    } else if name == b"--seed".as_slice() {
        Some(Setting::Seed)
    } else if name == b"--generate".as_slice() {
        Some(Setting::Generate)
    } else {
        None
    }
}

/// How many digits a text ends with.
fn digits_behind(text: &[u8]) -> usize
    ensures digits { result ≡ spec.digits_behind text.now }
    ensures within { result ≤ length text.now }
{
    text.iter()
        .rev()
        .take_while(|byte| byte.is_ascii_digit())
        .count()
}

/// Whether a path and `=` stand here.
fn ends_in_sign(text: &[u8]) -> bool
    ensures { result ≡ spec.ends_in_sign text.now }
{
    text.len() > 1 && text[text.len() - 1] == b'='
}

/// A scope: a path of one byte or more, `=`, and digits.
#[tactic(auto, unfolding(crate::specs::Words::given_scope))]
pub(crate) fn given_scope(alloc: Global, text: &[u8]) -> Result<Option<GivenScope>, NoMemory>
    ensures { IfOk result (λ scope. scope ≡ spec.given_scope text.now) }
{
    let before = text.len() - digits_behind(text);
    if !ends_in_sign(&text[..before]) {
        return Ok(None);
    }
    let Some(most) = number(&text[before..]) else {
        return Ok(None);
    };
    Ok(Some(GivenScope {
        path: List::from_slice(alloc, &text[..before - 1])?,
        most,
    }))
}
