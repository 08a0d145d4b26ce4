//! The reading of the words.

ghost use Rattle.std.specs.Prelude.{◌≡◌, false, map, string_bytes, IfOk, IfSome};
ghost use Rattle.std.specs.Option.{option_map_or};
ghost use Rattle.command_words.specs.Words as spec;

use crate::asked::{Asked, with_word};
use crate::wanted::Wanted;
use clf_base::NoMemory;
use clf_tree::Given;
use std::alloc::Global;

/// What the words ask for: one instance of the model or its front, with what is given for its scopes and integers, the most clauses
/// that the search may learn for a question, and what its guide is given.
#[derive(Debug, Drop)]
pub struct Request {
    pub wanted: Wanted,
    pub given: Given,
    /// The most clauses that the search may learn for a question, 1 to a thousand million.
    pub budget: u64,
    /// What the guide is given.
    pub seed: u64,
    /// The report is to be JSON.
    pub json: bool,
    /// The number of a generated model, 1 to 80, which is answered in place of the text.
    pub generate: Option<u32>,
}

/// Whether one instance is asked for.
fn is_one(wanted: Option<Wanted>) -> bool
    ensures { result ≡ option_map_or spec.is_one wanted false }
{
    match wanted {
        Some(Wanted::One) => true,
        Some(Wanted::Front) => false,
        None => false,
    }
}

/// Whether no setting waits for its value, and a generated model goes neither with `one` nor with `--json`.
fn is_whole(asked: &Asked) -> bool
    ensures { result ≡ spec.is_whole asked.now }
{
    if asked.awaited.is_some() {
        return false;
    }
    if asked.generate.is_none() {
        return true;
    }
    if is_one(asked.wanted) {
        return false;
    }
    !asked.json
}

/// What is asked for in all; None where a setting has no value, or a generated model is asked for with `one` or `--json`.
#[tactic(auto, unfolding(crate::specs::Words::request_of))]
fn request_of(asked: Asked) -> Option<Request>
    requires { spec.IsBounded asked }
    ensures is { result ≡ spec.request_of asked }
    ensures budget { IfSome result (λ request. spec.IsBudget request.budget) }
    ensures model { IfSome result (λ request. IfSome request.generate spec.IsModel) }
{
    if !is_whole(&asked) {
        return None;
    }
    Some(Request {
        wanted: asked.wanted.unwrap_or(Wanted::Front),
        given: Given {
            scopes: asked.scopes,
            default: asked.default.unwrap_or(3),
            low: asked.low.unwrap_or(-2048),
            high: asked.high.unwrap_or(2047),
        },
        budget: asked.budget.unwrap_or(1_000_000_000),
        seed: asked.seed.unwrap_or(0),
        json: asked.json,
        generate: asked.generate,
    })
}

/// The reading of the words; None exactly where they have none.
///
/// Among the words `one` or `front` stands at most once, and `--json` at most once; where neither stands there it is `front`. A setting
/// `--default-scope`, `--int-low`, `--int-high`, `--budget`, `--seed` or `--generate` stands at most once, `--scope` any number of
/// times, each with its value as the next word, which doesn't begin with `-` then, or behind `=` in the same word. `--generate` goes
/// neither with `one` nor with `--json`. Behind `--` no setting stands.
#[tactic(auto, unfolding(crate::specs::Words::reading))]
pub fn words_of(alloc: Global, words: &[String]) -> Result<Option<Request>, NoMemory>
    ensures is { IfOk result (λ request. request ≡ spec.reading (map string_bytes words.now)) }
    // A budget is from 1 to a thousand million.
    ensures budget { IfOk result (λ request. IfSome request (λ found. spec.IsBudget found.budget)) }
    // The number of a generated model is from 1 to 80.
    ensures model { IfOk result (λ request. IfSome request (λ found. IfSome found.generate spec.IsModel)) }
{
    let mut asked = Asked::nothing(alloc);
    for word in words {
        match with_word(alloc, word.as_bytes(), asked)? {
            Some(more) => asked = more,
            None => return Ok(None),
        }
    }
    Ok(request_of(asked))
}
