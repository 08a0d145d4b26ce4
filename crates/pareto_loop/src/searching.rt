//! The search for the front.

ghost use Rattle.std.specs.Prelude.{◌≡◌, ◌+◌, ◌<◌, ◌≤◌, length, None, Some, IfOk};
ghost use Rattle.clf_tree.specs.declared.vector.FrontEnd.TheVariants as ended;
ghost use Rattle.goal_vectors.specs.Points.{ArePoints};
ghost use Rattle.pareto_loop.specs.Searched.{IsSearched};
ghost use Rattle.pareto_loop.specs.Searching.{full_of, next_of, IsBeyond, IsNext};

use crate::asking::{Told, ask_beyond};
use crate::improving::{Improved, improve_from};
use crate::points::add_in_order;
use crate::searched::{Halt, Searched};
use crate::task::Task;
use clf_base::{List, NoMemory};
use clf_tree::{Front, FrontEnd, Instance, Point};
use question_space::Space;
use search_guide::Guide;
use std::alloc::Global;

/// What one turn of the search gave: a further point, that there is none, a spent budget, or the instance of a point beyond enough ones.
#[derive(Drop)]
pub(crate) enum Next {
    Another(Point),
    Finished(Halt),
    Spent(Halt),
    Full(Instance),
}

/// The end of a way as a turn of the search.
fn as_next(improved: Improved) -> Next
    ensures { result ≡ next_of improved }
{
    match improved {
        Improved::Best(point) => Next::Another(point),
        Improved::Spent(halt) => Next::Spent(halt),
    }
}

/// The end of a way as the end of the search, where there are enough points.
fn as_full(improved: Improved) -> Next
    ensures { result ≡ full_of improved }
{
    match improved {
        Improved::Best(point) => Next::Full(point.witness),
        Improved::Spent(halt) => Next::Spent(halt),
    }
}

/// One turn of the search.
fn next_point(
    alloc: Global,
    space: &mut Space<'_>,
    task: &Task<'_>,
    points: &[Point],
    most: u32,
    questions: &mut u64,
) -> Result<Next, NoMemory>
    requires same { space.old.read.now ≡ task.now.read.now }
    requires points { ArePoints task.now.read.now.model task.now.read.now.scopes points.now }
    requires few { length points.now ≤ most }
    requires most { most ≤ 1024 }
    ensures same { space.new.read.now ≡ task.now.read.now }
    ensures next { IfOk result (IsNext task.now.read.now most task.now.budget points.now space.new.clauses space.new.parts) }
{
    match ask_beyond(alloc, space, task, points, None, questions)? {
        Told::Empty(halt) => Ok(Next::Finished(halt)),
        Told::Spent(halt) => Ok(Next::Spent(halt)),
        Told::Found(instance) => {
            let improved = improve_from(alloc, space, task, points, instance, questions)?;
            if points.len() >= most as usize {
                return Ok(as_full(improved));
            }
            Ok(as_next(improved))
        }
    }
}

/// All points are found: a claim for each, and the last one.
fn finished(points: Vec<Point>, halt: Halt, questions: u64) -> Searched
    ensures { result ≡ record {
      front = record { points = points.items; ended = ended.Finished; claims = length points.items + 1 };
      halt = Some halt;
      questions = questions;
    } }
{
    let claims = points.len() as u64 + 1;
    Searched {
        front: Front {
            points: List::from_vec(points),
            ended: FrontEnd::Finished,
            claims,
        },
        halt: Some(halt),
        questions,
    }
}

/// The budget of a question is spent: a claim for each point.
fn spent(points: Vec<Point>, halt: Halt, questions: u64) -> Searched
    ensures { result ≡ record {
      front = record { points = points.items; ended = ended.Spent; claims = length points.items };
      halt = Some halt;
      questions = questions;
    } }
{
    let claims = points.len() as u64;
    Searched {
        front: Front {
            points: List::from_vec(points),
            ended: FrontEnd::Spent,
            claims,
        },
        halt: Some(halt),
        questions,
    }
}

/// There is a further member beside the points: a claim for each point.
fn full(points: Vec<Point>, further: Instance, questions: u64) -> Searched
    ensures { result ≡ record {
      front = record { points = points.items; ended = ended.Full further; claims = length points.items };
      halt = None;
      questions = questions;
    } }
{
    let claims = points.len() as u64;
    Searched {
        front: Front {
            points: List::from_vec(points),
            ended: FrontEnd::Full(further),
            claims,
        },
        halt: None,
        questions,
    }
}

/// The front of the model of a space, up to `most` points, with at most `budget` learned clauses for each question.
///
/// However it ends, the points are members of the front, in order, none twice, each with an instance that has its vector. `Finished`: they
/// are the whole front, and the last question closes it. `Spent`: the budget was spent on the last question, whose found vectors are those
/// of the points. `Full`: there are `most` points, and the vector of the instance is a further member of the front. Nothing of this depends
/// on the guide and the seed, but which instance stands beside a vector; and where a budget may be spent, how far the search comes.
///
/// A point takes at least two questions; usually all but one of them, which shows that nothing dominates it, find an instance. Each
/// question copies the vectors of the points. The only error is want of memory.
pub fn front(
    alloc: Global,
    space: &mut Space<'_>,
    most: u32,
    budget: u64,
    guide: &Guide,
    seed: u64,
) -> Result<Searched, NoMemory>
    requires some { 0 < most }
    requires most { most ≤ 1024 }
    requires some_budget { 0 < budget }
    requires few { budget ≤ 1000000000 }
    ensures read { space.new.read.now ≡ space.old.read.now }
    ensures searched { IfOk result (IsSearched space.old.read.now most budget space.new.clauses space.new.parts) }
{
    let task = Task::new(alloc, space.read(), budget, guide, seed)?;
    let mut questions = 0;
    let mut points: Vec<Point> = Vec::new(alloc);
    loop {
        match next_point(alloc, space, &task, points.as_slice(), most, &mut questions)? {
            Next::Another(point) => add_in_order(&task, &mut points, point)?,
            Next::Finished(halt) => return Ok(finished(points, halt, questions)),
            Next::Spent(halt) => return Ok(spent(points, halt, questions)),
            Next::Full(instance) => return Ok(full(points, instance, questions)),
        }
    }
}
