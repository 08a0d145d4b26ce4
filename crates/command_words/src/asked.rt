//! What the words have asked for so far.

ghost use Rattle.std.specs.Prelude.{◌≡◌, ◌≤◌, length, IfOk, IfSome};
ghost use Rattle.command_words.specs.Words as spec;

use crate::numbers::{begins_with_dash, budget, generated_model, integer, number};
use crate::settings::{Setting, given_scope, setting_named};
use crate::wanted::Wanted;
use clf_base::{List, NoMemory};
use clf_tree::GivenScope;
use std::alloc::Global;

/// What the words have asked for so far.
#[derive(Debug, Drop)]
pub struct Asked {
    /// `one` or `front` was there.
    pub wanted: Option<Wanted>,
    /// `--json` was there.
    pub json: bool,
    /// `--` was there, so no setting comes any more.
    pub ended: bool,
    /// A setting whose value is the next word.
    pub awaited: Option<Setting>,
    pub scopes: List<GivenScope>,
    pub default: Option<u64>,
    pub low: Option<i64>,
    pub high: Option<i64>,
    /// The most clauses that the search may learn, 1 to a thousand million.
    pub budget: Option<u64>,
    /// What the guide is given.
    pub seed: Option<u64>,
    /// The number of a generated model, 1 to 80.
    pub generate: Option<u32>,
}

impl Asked {
    /// Nothing, which takes no memory.
    pub fn nothing(alloc: Global) -> Asked
        ensures is { result ≡ spec.nothing_asked }
        ensures bounded { spec.IsBounded result }
    {
        Asked {
            wanted: None,
            json: false,
            ended: false,
            awaited: None,
            scopes: List::new(alloc),
            default: None,
            low: None,
            high: None,
            budget: None,
            seed: None,
            generate: None,
        }
    }
}

fn with_scope(asked: Asked, scope: Option<GivenScope>) -> Result<Option<Asked>, NoMemory>
    requires { spec.IsBounded asked }
    ensures is { IfOk result (λ more. more ≡ spec.with_scope asked scope) }
    ensures bounded { IfOk result (λ more. IfSome more spec.IsBounded) }
{
    let Some(scope) = scope else {
        return Ok(None);
    };
    let mut scopes = asked.scopes;
    scopes.push(scope)?;
    Ok(Some(Asked {
        scopes,
        awaited: None,
        ..asked
    }))
}

fn with_default(asked: Asked, most: Option<u64>) -> Option<Asked>
    requires { spec.IsBounded asked }
    ensures is { result ≡ spec.with_default asked most }
    ensures bounded { IfSome result spec.IsBounded }
{
    if asked.default.is_some() {
        return None;
    }
    let most = most?;
    Some(Asked {
        default: Some(most),
        awaited: None,
        ..asked
    })
}

fn with_low(asked: Asked, low: Option<i64>) -> Option<Asked>
    requires { spec.IsBounded asked }
    ensures is { result ≡ spec.with_low asked low }
    ensures bounded { IfSome result spec.IsBounded }
{
    if asked.low.is_some() {
        return None;
    }
    let low = low?;
    Some(Asked {
        low: Some(low),
        awaited: None,
        ..asked
    })
}

fn with_high(asked: Asked, high: Option<i64>) -> Option<Asked>
    requires { spec.IsBounded asked }
    ensures is { result ≡ spec.with_high asked high }
    ensures bounded { IfSome result spec.IsBounded }
{
    if asked.high.is_some() {
        return None;
    }
    let high = high?;
    Some(Asked {
        high: Some(high),
        awaited: None,
        ..asked
    })
}

fn with_budget(asked: Asked, budget: Option<u64>) -> Option<Asked>
    requires asked { spec.IsBounded asked }
    requires budget { IfSome budget spec.IsBudget }
    ensures is { result ≡ spec.with_budget asked budget }
    ensures bounded { IfSome result spec.IsBounded }
{
    if asked.budget.is_some() {
        return None;
    }
    let budget = budget?;
    Some(Asked {
        budget: Some(budget),
        awaited: None,
        ..asked
    })
}

fn with_seed(asked: Asked, seed: Option<u64>) -> Option<Asked>
    requires { spec.IsBounded asked }
    ensures is { result ≡ spec.with_seed asked seed }
    ensures bounded { IfSome result spec.IsBounded }
{
    if asked.seed.is_some() {
        return None;
    }
    let seed = seed?;
    Some(Asked {
        seed: Some(seed),
        awaited: None,
        ..asked
    })
}

fn with_generate(asked: Asked, model: Option<u32>) -> Option<Asked>
    requires asked { spec.IsBounded asked }
    requires model { IfSome model spec.IsModel }
    ensures is { result ≡ spec.with_generate asked model }
    ensures bounded { IfSome result spec.IsBounded }
{
    if asked.generate.is_some() {
        return None;
    }
    let model = model?;
    Some(Asked {
        generate: Some(model),
        awaited: None,
        ..asked
    })
}

/// With the value of a setting; None where it is no value of it, or the setting was given before.
#[tactic(auto, unfolding(crate::specs::Words::with_value))]
fn with_value(
    alloc: Global,
    setting: Setting,
    value: &[u8],
    asked: Asked,
) -> Result<Option<Asked>, NoMemory>
    requires { spec.IsBounded asked }
    ensures is { IfOk result (λ more. more ≡ spec.with_value setting value.now asked) }
    ensures bounded { IfOk result (λ more. IfSome more spec.IsBounded) }
{
    match setting {
        Setting::Scope => {
            let scope = given_scope(alloc, value)?;
            with_scope(asked, scope)
        }
        Setting::DefaultScope => Ok(with_default(asked, number(value))),
        Setting::IntLow => Ok(with_low(asked, integer(value))),
        Setting::IntHigh => Ok(with_high(asked, integer(value))),
        Setting::Budget => Ok(with_budget(asked, budget(value))),
        Setting::Seed => Ok(with_seed(asked, number(value))),
        Setting::Generate => Ok(with_generate(asked, generated_model(value))),
    }
}

/// How many bytes of a word stand before its first `=`.
fn name_length(word: &[u8]) -> usize
    ensures name { result ≡ spec.name_length word.now }
    ensures within { result ≤ length word.now }
{
    word.iter().take_while(|byte| **byte != b'=').count()
}

/// With a setting, whose value stands behind the first `=` of its word, or is the next word.
#[tactic(auto, unfolding(crate::specs::Words::with_setting))]
fn with_setting(
    alloc: Global,
    word: &[u8],
    asked: Asked,
    setting: Setting,
) -> Result<Option<Asked>, NoMemory>
    requires { spec.IsBounded asked }
    ensures is { IfOk result (λ more. more ≡ spec.with_setting word.now asked setting) }
    ensures bounded { IfOk result (λ more. IfSome more spec.IsBounded) }
{
    let name = name_length(word);
    if name < word.len() {
        return with_value(alloc, setting, &word[name + 1..], asked);
    }
    Ok(Some(Asked {
        awaited: Some(setting),
        ..asked
    }))
}

/// With what is asked for; None where that was said before.
fn with_wanted(asked: Asked, word: Wanted) -> Option<Asked>
    requires { spec.IsBounded asked }
    ensures is { result ≡ spec.with_wanted asked word }
    ensures bounded { IfSome result spec.IsBounded }
{
    if asked.wanted.is_some() {
        return None;
    }
    Some(Asked {
        wanted: Some(word),
        ..asked
    })
}

/// With the word for JSON; None where it was there before.
fn with_json(asked: Asked) -> Option<Asked>
    requires { spec.IsBounded asked }
    ensures is { result ≡ spec.with_json asked }
    ensures bounded { IfSome result spec.IsBounded }
{
    if asked.json {
        return None;
    }
    Some(Asked {
        json: true,
        ..asked
    })
}

/// With a word that isn't the value of the setting before it.
#[tactic(auto, unfolding(crate::specs::Words::with_free_word))]
fn with_free_word(alloc: Global, word: &[u8], asked: Asked) -> Result<Option<Asked>, NoMemory>
    requires { spec.IsBounded asked }
    ensures is { IfOk result (λ more. more ≡ spec.with_free_word word.now asked) }
    ensures bounded { IfOk result (λ more. IfSome more spec.IsBounded) }
{
    if word == b"one".as_slice() {
        return Ok(with_wanted(asked, Wanted::One));
    }
    if word == b"front".as_slice() {
        return Ok(with_wanted(asked, Wanted::Front));
    }
    if asked.ended {
        return Ok(None);
    }
    if word == b"--".as_slice() {
        return Ok(Some(Asked {
            ended: true,
            ..asked
        }));
    }
    if word == b"--json".as_slice() {
        return Ok(with_json(asked));
    }
    match setting_named(&word[..name_length(word)]) {
        Some(setting) => with_setting(alloc, word, asked, setting),
        None => Ok(None),
    }
}

/// With one more word; None where it can't stand there.
#[tactic(auto, unfolding(crate::specs::Words::with_word))]
pub(crate) fn with_word(alloc: Global, word: &[u8], asked: Asked) -> Result<Option<Asked>, NoMemory>
    requires { spec.IsBounded asked }
    ensures is { IfOk result (λ more. more ≡ spec.with_word word.now asked) }
    ensures bounded { IfOk result (λ more. IfSome more spec.IsBounded) }
{
    match asked.awaited {
        Some(setting) => {
            if begins_with_dash(word) {
                return Ok(None);
            }
            with_value(alloc, setting, word, asked)
        }
        None => with_free_word(alloc, word, asked),
    }
}
