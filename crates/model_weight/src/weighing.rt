//! Whether a model is light enough.

ghost use Rattle.std.specs.Prelude.{◌≡◌, ◌≤◌, ◌<◌, ◌^◌, None, length, IfOk, OnOk, IfErr, IsTrue};
ghost use Rattle.std.specs.Option.{option_or};
ghost use Rattle.int_widths.specs.Narrow.{is_narrow_model};
ghost use Rattle.int_widths.specs.Weight.{model_weight};
ghost use Rattle.model_weight.specs.Refusals.{refusal, goals_refusal, weight_refusal, Explains};

use crate::model::{Known, model_known};
use clf_base::{Fault, NoMemory, Refusal, Span};
use clf_tree::{Model, Scopes, Typed};
use refusal_order::{finds_first, refused};
use std::alloc::Global;

const HEAVIEST: u64 = 8_000_000;

fn goals_refusal(model: &Model) -> Option<Refusal>
    ensures { result ≡ goals_refusal model.now }
{
    match model.goals.as_slice().get(4) {
        Some(goal) => Some(refused(92, goal.at, model.goals.len() as u64)),
        None => None,
    }
}

fn weight_refusal(weight: u64) -> Option<Refusal>
    ensures { result ≡ weight_refusal weight }
{
    let nowhere = Span { line: 0, column: 0 };
    if weight > HEAVIEST {
        return Some(refused(91, nowhere, weight));
    }
    None
}

/// The weight of a model, and what is refused of it.
#[derive(Drop)]
struct Judgement {
    weight: u64,
    refusal: Option<Refusal>,
}

fn refusal_of(model: &Model, known: &Known) -> Option<Refusal>
    ensures { result ≡ option_or (option_or (goals_refusal model.now) known.now.wide) (weight_refusal known.now.weight) }
{
    match goals_refusal(model) {
        Some(refusal) => Some(refusal),
        None => match known.wide {
            Some(refusal) => Some(refusal),
            None => weight_refusal(known.weight),
        },
    }
}

fn judged(alloc: Global, model: &Typed, scopes: &Scopes) -> Result<Judgement, NoMemory>
    requires few { length model.now.clafers < 2 ^ 32 }
    ensures weight { IfOk result (λ r. r.weight ≡ model_weight scopes.now model.now) }
    ensures refusal { IfOk result (λ r. r.refusal ≡ refusal scopes.now model.now) }
{
    let plan = model.model();
    let known = model_known(alloc, plan, scopes)?;
    let refusal = refusal_of(plan, &known);
    Ok(Judgement {
        weight: known.weight,
        refusal,
    })
}

/// The weight of a model: an upper bound of the circuit that stands for it, at most 8,000,000.
///
/// A model with more than four goals is refused at the fifth (92, with their number). Else it is refused by the earliest of its
/// integers that needs more than 62 bits (90, with the number of bits), the outer one of two at one place. Else it is refused
/// where its weight is above 8,000,000 (91, at no place, with the weight, which is counted no further than to 10^18).
///
/// Tables of the clafers are made first, for which each clafer goes to those above it; then each part of the model is visited once.
/// A part of an expression costs a walk over the clafers only where it asks for parents, for what two kinds share, or for the nodes
/// of several clafers.
#[tactic(auto, using(crate::proofs::Verdicts::light_where, crate::proofs::Verdicts::narrow_where))]
pub fn weigh(alloc: Global, model: &Typed, scopes: &Scopes) -> Result<u64, Fault>
    requires few { length model.now.clafers < 2 ^ 32 }
    ensures weight { IfOk result (λ weight. weight ≡ model_weight scopes.now model.now) }
    ensures light { IfOk result (λ weight. weight ≤ 8000000) }
    ensures accepted { OnOk result (refusal scopes.now model.now ≡ None) }
    ensures narrow { OnOk result (IsTrue (is_narrow_model scopes.now model.now)) }
    ensures cause { IfErr result (λ fault. Explains scopes.now model.now fault) }
{
    finds_first();
    let judged = judged(alloc, model, scopes)?;
    match judged.refusal {
        Some(refusal) => Err(Fault::Refused(refusal)),
        None => Ok(judged.weight),
    }
}
