//! The report as text.

ghost use Rattle.std.specs.Prelude.{◌≡◌, ◌++◌, codes, IfOk, OnOk};
ghost use Rattle.front_report.specs.declared.outcome.Outcome.TheVariants as told;
ghost use Rattle.front_report.specs.Points as points;
ghost use Rattle.front_report.specs.Texts as spec;

use crate::heads::head;
use crate::outcome::Outcome;
use crate::points::{push_claims, push_front};
use clf_base::{List, NoMemory};
use clf_tree::{Instance, Model, Scopes};
use instance_text::show;
use std::alloc::Global;

fn push_instance(
    alloc: Global,
    text: &mut List<u8>,
    model: &Model,
    instance: &Instance,
) -> Result<(), NoMemory>
    ensures { OnOk result (text.new ≡ text.old ++ spec.body model.now (told.One instance.now)) }
{
    let trees = show(alloc, model, instance)?;
    text.extend(b"instance\n")?;
    text.extend(trees.as_slice())?;
    Ok(())
}

fn push_no_instance(text: &mut List<u8>) -> Result<(), NoMemory>
    ensures { OnOk result (text.new ≡ text.old ++ (codes "no instance\n" ++ points.claims_line 1)) }
{
    text.extend(b"no instance\n")?;
    push_claims(text, 1)?;
    Ok(())
}

fn push_spent(text: &mut List<u8>) -> Result<(), NoMemory>
    ensures { OnOk result (text.new ≡ text.old ++ (codes "unfinished E100 0\n" ++ points.claims_line 0)) }
{
    text.extend(b"unfinished E100 0\n")?;
    push_claims(text, 0)?;
    Ok(())
}

fn push_body(
    alloc: Global,
    text: &mut List<u8>,
    model: &Model,
    outcome: &Outcome,
) -> Result<(), NoMemory>
    ensures { OnOk result (text.new ≡ text.old ++ spec.body model.now outcome.now) }
{
    match outcome {
        Outcome::One(instance) => push_instance(alloc, text, model, instance),
        Outcome::NoInstance => push_no_instance(text),
        Outcome::OneSpent => push_spent(text),
        Outcome::Front(front) => push_front(alloc, text, model, front),
    }
}

/// The report as text: the table of scopes and the range of integers, then what was found.
///
/// Besides the text itself it takes memory for the trees of one point at a time.
#[tactic(auto, unfolding(crate::specs::Texts::text_report))]
pub fn text(
    alloc: Global,
    model: &Model,
    scopes: &Scopes,
    outcome: &Outcome,
) -> Result<List<u8>, NoMemory>
    ensures { IfOk result (λ text. text ≡ spec.text_report model.now scopes.now outcome.now) }
{
    let mut text = head(alloc, model.clafers.as_slice(), scopes)?;
    push_body(alloc, &mut text, model, outcome)?;
    Ok(text)
}
