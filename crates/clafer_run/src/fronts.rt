//! The answer with the front of a model that was read.

ghost use Rattle.std.specs.Prelude.{◌≡◌, ◌≢◌, ◌≤◌, [], IfOk};
ghost use Rattle.clf_base.specs.Status.{number_of};
ghost use Rattle.command_words.specs.Words.{IsBudget};
ghost use Rattle.any_instance.specs.Settled.{IsRefuted};
ghost use Rattle.pareto_loop.specs.Searched.{IsSearched};
ghost use Rattle.clafer_run.specs.Fronts.{IsHalted, IsWhole, IsPart, IsTooLong, most_points};
ghost use Rattle.clafer_run.specs.Model.{FrontAnswer};

use crate::Request;
use crate::ending::Ending;
use crate::reply::{Reply, no_instance};
use crate::reports::front_report;
use clause_store::refuted_is_unsatisfiable;
use clf_base::{NoMemory, Status};
use clf_tree::{Front, FrontEnd};
use model_reader::Read;
use pareto_loop::{Halt, Searched, front};
use question_space::{Space, Spending};
use search_guide::Guide;
use std::alloc::Global;

/// The most points that a front is told with.
const MOST_POINTS: u32 = 1024;

/// The answer to a model that was read: its front.
pub(crate) fn front_answer(
    alloc: Global,
    request: &Request,
    read: &Read,
    guide: &Guide,
) -> Result<Reply, NoMemory>
    requires { IsBudget request.now.budget }
    ensures outcome { IfOk result (λ reply. FrontAnswer request.now read.now reply.output reply.ending) }
    ensures in_range { IfOk result (λ reply. number_of reply.ending.status ≤ 4) }
{
    let mut space = Space::build(alloc, read)?;
    let searched = front(
        alloc,
        &mut space,
        MOST_POINTS,
        request.budget,
        guide,
        request.seed,
    )?;
    let reply = searched_answer(alloc, request, read, space, searched)?;
    Ok(reply)
}

/// The answer by what the search gave.
fn searched_answer(
    alloc: Global,
    request: &Request,
    read: &Read,
    space: Space<'_>,
    searched: Searched,
) -> Result<Reply, NoMemory>
    requires { IsSearched read.now most_points request.now.budget space.clauses space.parts searched }
    ensures outcome { IfOk result (λ reply. FrontAnswer request.now read.now reply.output reply.ending) }
    ensures in_range { IfOk result (λ reply. number_of reply.ending.status ≤ 4) }
{
    refuted_is_unsatisfiable();
    let Searched {
        front: found,
        halt,
        ..
    } = searched;
    match halt {
        Some(Halt { question, claim }) => {
            let left = space.into_spending(question, claim);
            let reply = halted(alloc, request, read, found, left)?;
            Ok(reply)
        }
        None => {
            let reply = too_long(alloc, request, read, found)?;
            Ok(reply)
        }
    }
}

/// The answer by what a closed or a spent question leaves.
fn halted(
    alloc: Global,
    request: &Request,
    read: &Read,
    found: Front,
    left: Spending,
) -> Result<Reply, NoMemory>
    requires { IsHalted read.now request.now.budget left found found.ended }
    ensures outcome { IfOk result (λ reply. FrontAnswer request.now read.now reply.output reply.ending) }
    ensures in_range { IfOk result (λ reply. number_of reply.ending.status ≤ 4) }
{
    match &found.ended {
        FrontEnd::Finished => {
            let reply = finished(alloc, request, read, found, left)?;
            Ok(reply)
        }
        FrontEnd::Spent => {
            let reply = spent(alloc, request, read, found, left)?;
            Ok(reply)
        }
        FrontEnd::Full(_) => unreachable!(),
    }
}

/// The answer by a closed question: there is no instance, or the front is whole.
fn finished(
    alloc: Global,
    request: &Request,
    read: &Read,
    found: Front,
    left: Spending,
) -> Result<Reply, NoMemory>
    requires none { found.points ≡ [] → IsRefuted read.now left }
    requires whole { found.points ≢ [] → IsWhole read.now left found }
    ensures outcome { IfOk result (λ reply. FrontAnswer request.now read.now reply.output reply.ending) }
    ensures in_range { IfOk result (λ reply. number_of reply.ending.status ≤ 4) }
{
    if found.points.is_empty() {
        let reply = no_instance(alloc, request, read, left)?;
        return Ok(reply);
    }
    let reply = whole(alloc, request, read, found, left)?;
    Ok(reply)
}

/// The answer with the whole front.
fn whole(
    alloc: Global,
    request: &Request,
    read: &Read,
    found: Front,
    left: Spending,
) -> Result<Reply, NoMemory>
    requires { IsWhole read.now left found }
    ensures outcome { IfOk result (λ reply. FrontAnswer request.now read.now reply.output reply.ending) }
    ensures in_range { IfOk result (λ reply. number_of reply.ending.status ≤ 4) }
{
    let output = front_report(alloc, request, read, found)?;
    Ok(Reply {
        ending: Ending::closed(Status::Done, left),
        output,
    })
}

/// The answer with the points that were found before the budget was spent.
fn spent(
    alloc: Global,
    request: &Request,
    read: &Read,
    found: Front,
    left: Spending,
) -> Result<Reply, NoMemory>
    requires { IsPart read.now request.now.budget left found }
    ensures outcome { IfOk result (λ reply. FrontAnswer request.now read.now reply.output reply.ending) }
    ensures in_range { IfOk result (λ reply. number_of reply.ending.status ≤ 4) }
{
    let output = front_report(alloc, request, read, found)?;
    Ok(Reply {
        ending: Ending::spent(left),
        output,
    })
}

/// The answer with as many points as are told of a front that has more.
fn too_long(alloc: Global, request: &Request, read: &Read, found: Front) -> Result<Reply, NoMemory>
    requires { IsTooLong read.now found }
    ensures outcome { IfOk result (λ reply. FrontAnswer request.now read.now reply.output reply.ending) }
    ensures in_range { IfOk result (λ reply. number_of reply.ending.status ≤ 4) }
{
    let output = front_report(alloc, request, read, found)?;
    Ok(Reply {
        ending: Ending::bare(Status::Unfinished),
        output,
    })
}
