//! From the texts of a model and an instance to the values of the goals.

ghost use Rattle.std.specs.Prelude.{◌≤◌, length};

use clf_base::{Fault, List, NoMemory};
use clf_tree::{Given, Instance};
use instance_text::read;
use model_evaluator::{holds, vector};
use model_reader::{LIMIT, Read, read_model};
use std::alloc::Global;

/// What an instance is to a model.
#[derive(Debug, Drop)]
pub(crate) enum Evaluation {
    /// The text is that of no instance.
    NoInstance,
    /// The instance doesn't satisfy the model.
    Fails,
    /// It does, and these are the values of the goals.
    Meets(List<i128>),
}

/// What an instance is to a model.
pub(crate) fn evaluate(
    alloc: Global,
    found: &Read,
    instance: &Instance,
) -> Result<Evaluation, NoMemory> {
    if !holds(alloc, &found.model, &found.scopes, instance)? {
        return Ok(Evaluation::Fails);
    }
    let values = vector(alloc, &found.model, &found.scopes, instance)?;
    Ok(Evaluation::Meets(values.values))
}

/// What the instance of a text is to the model of another, or the first refusal of the model.
pub(crate) fn evaluate_texts(
    alloc: Global,
    model: &[u8],
    given: &Given,
    instance: &[u8],
) -> Result<Evaluation, Fault>
    requires { length model.now ≤ LIMIT }
{
    let found = read_model(alloc, model, given)?;
    let Some(instance) = read(alloc, found.model.model(), instance)? else {
        return Ok(Evaluation::NoInstance);
    };
    let evaluation = evaluate(alloc, &found, &instance)?;
    Ok(evaluation)
}
