//! The answer for one instance of a model that was read.

ghost use Rattle.std.specs.Prelude.{◌≤◌, IfOk};
ghost use Rattle.clf_base.specs.Status.{number_of};
ghost use Rattle.command_words.specs.Words.{IsBudget};
ghost use Rattle.any_instance.specs.Settled.{IsInstance, IsRefuted, IsSpentOn};
ghost use Rattle.clafer_run.specs.Model.{OneAnswer};

use crate::Request;
use crate::ending::Ending;
use crate::reply::{Reply, no_instance};
use crate::reports::report;
use any_instance::{Known, ask};
use clf_base::{NoMemory, Status};
use clf_tree::Instance;
use front_report::Outcome;
use model_reader::Read;
use question_space::Spending;
use search_guide::Guide;
use std::alloc::Global;

/// The answer to a model that was read.
pub(crate) fn one_answer(
    alloc: Global,
    request: &Request,
    read: &Read,
    guide: &Guide,
) -> Result<Reply, NoMemory>
    requires { IsBudget request.now.budget }
    ensures outcome { IfOk result (λ reply. OneAnswer request.now read.now reply.output reply.ending) }
    ensures in_range { IfOk result (λ reply. number_of reply.ending.status ≤ 4) }
{
    match ask(alloc, read, request.budget, guide, request.seed)? {
        Known::Instance(instance) => {
            let reply = found(alloc, request, read, instance)?;
            Ok(reply)
        }
        Known::Closed(left) => {
            let reply = closed(alloc, request, read, left)?;
            Ok(reply)
        }
        Known::Spent(left) => {
            let reply = spent(alloc, request, read, left)?;
            Ok(reply)
        }
    }
}

/// The answer with an instance.
fn found(
    alloc: Global,
    request: &Request,
    read: &Read,
    instance: Instance,
) -> Result<Reply, NoMemory>
    requires { IsInstance read.now.model read.now.scopes instance.entries }
    ensures outcome { IfOk result (λ reply. OneAnswer request.now read.now reply.output reply.ending) }
    ensures in_range { IfOk result (λ reply. number_of reply.ending.status ≤ 4) }
{
    let outcome = Outcome::One(instance);
    let output = report(alloc, request, read, &outcome)?;
    Ok(Reply {
        ending: Ending::bare(Status::Done),
        output,
    })
}

/// The answer that there is no instance.
fn closed(alloc: Global, request: &Request, read: &Read, left: Spending) -> Result<Reply, NoMemory>
    requires { IsRefuted read.now left }
    ensures outcome { IfOk result (λ reply. OneAnswer request.now read.now reply.output reply.ending) }
    ensures in_range { IfOk result (λ reply. number_of reply.ending.status ≤ 4) }
{
    let reply = no_instance(alloc, request, read, left)?;
    Ok(reply)
}

/// The answer that the budget is spent.
fn spent(alloc: Global, request: &Request, read: &Read, left: Spending) -> Result<Reply, NoMemory>
    requires { IsSpentOn read.now request.now.budget left }
    ensures outcome { IfOk result (λ reply. OneAnswer request.now read.now reply.output reply.ending) }
    ensures in_range { IfOk result (λ reply. number_of reply.ending.status ≤ 4) }
{
    let output = report(alloc, request, read, &Outcome::OneSpent)?;
    Ok(Reply {
        ending: Ending::spent(left),
        output,
    })
}
