//! The answer to a model text.

ghost use Rattle.std.specs.Prelude.{◌≤◌, length, IfOk};
ghost use Rattle.clf_base.specs.Status.{number_of};
ghost use Rattle.command_words.specs.Words.{IsBudget, IsModel};
ghost use Rattle.model_generator.specs.Generated.{generated};
ghost use Rattle.clafer_run.specs.Model.{IsTold, ModelOutcome, ReadOutcome};
ghost use Rattle.clafer_run.specs.Outcome.{TextOutcome, too_long};

use crate::fronts::front_answer;
use crate::instances::one_answer;
use crate::reply::{Reply, told};
use crate::{LIMIT, Request};
use clf_base::{Fault, NoMemory};
use command_words::Wanted;
use front_report::nowhere;
use model_generator::generate;
use model_reader::{Read, read_model};
use search_guide::Guide;
use std::alloc::Global;

/// The answer to the generated model of a number.
pub(crate) fn answer_to_generated(
    alloc: Global,
    request: &Request,
    number: u32,
    guide: &Guide,
) -> Result<Reply, NoMemory>
    requires budget { IsBudget request.now.budget }
    requires model { IsModel number }
    ensures outcome { IfOk result (λ reply. TextOutcome request.now (generated number) reply.output reply.ending) }
    ensures in_range { IfOk result (λ reply. number_of reply.ending.status ≤ 4) }
{
    let text = generate(alloc, number)?;
    if text.len() > LIMIT {
        let reply = told_too_long(alloc)?;
        return Ok(reply);
    }
    let reply = answer_to(alloc, request, text.as_slice(), guide)?;
    Ok(reply)
}

/// The answer to a text past the limit.
pub(crate) fn told_too_long(alloc: Global) -> Result<Reply, NoMemory>
    ensures told { IfOk result (λ reply. IsTold too_long reply.output reply.ending) }
    ensures in_range { IfOk result (λ reply. number_of reply.ending.status ≤ 4) }
{
    let reply = told(alloc, nowhere(10, 1_048_577))?;
    Ok(reply)
}

/// The answer to a text within the limit.
#[tactic(auto, unfolding(crate::specs::Model::ModelOutcome))]
pub(crate) fn answer_to(
    alloc: Global,
    request: &Request,
    text: &[u8],
    guide: &Guide,
) -> Result<Reply, NoMemory>
    requires short { length text.now ≤ LIMIT }
    requires budget { IsBudget request.now.budget }
    ensures outcome { IfOk result (λ reply. ModelOutcome request.now text.now reply.output reply.ending) }
    ensures in_range { IfOk result (λ reply. number_of reply.ending.status ≤ 4) }
{
    match read_model(alloc, text, &request.given) {
        Ok(read) => {
            let reply = answer_of_read(alloc, request, &read, guide)?;
            Ok(reply)
        }
        Err(Fault::Refused(refusal)) => {
            let reply = told(alloc, refusal)?;
            Ok(reply)
        }
        Err(Fault::NoMemory) => Err(NoMemory),
    }
}

/// The answer to a model that was read: one instance of it, or its front.
fn answer_of_read(
    alloc: Global,
    request: &Request,
    read: &Read,
    guide: &Guide,
) -> Result<Reply, NoMemory>
    requires { IsBudget request.now.budget }
    ensures outcome { IfOk result (λ reply. ReadOutcome request.now read.now reply.output reply.ending) }
    ensures in_range { IfOk result (λ reply. number_of reply.ending.status ≤ 4) }
{
    match request.wanted {
        Wanted::One => {
            let reply = one_answer(alloc, request, read, guide)?;
            Ok(reply)
        }
        Wanted::Front => {
            let reply = front_answer(alloc, request, read, guide)?;
            Ok(reply)
        }
    }
}
