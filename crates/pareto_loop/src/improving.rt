//! From an instance beyond the points to one that no instance dominates.

ghost use Rattle.std.specs.Prelude.{◌≡◌, ◌≤◌, length, None, IfOk};
ghost use Rattle.goal_vectors.specs.Points.{ArePoints};
ghost use Rattle.pareto_loop.specs.Searching.{settled_from, IsBeyond, IsImproved, IsOnTheWay, IsTurn};

use crate::aims::{Stride, aim_of, next_stride};
use crate::asking::{Told, ask_beyond};
use crate::points::point_of;
use crate::searched::Halt;
use crate::task::{Task, dominance_ends};
use clf_base::NoMemory;
use clf_tree::{Instance, Point, Ways};
use question_space::Space;
use std::alloc::Global;

/// An instance on the way to a point, with its vector: the next question asks for one that is better by the stride, where there is one.
#[derive(Drop)]
pub(crate) struct Climb {
    pub best: Point,
    pub stride: Option<Stride>,
    pub steps: u32,
}

/// What one question on the way gave: a way to go on, a point that nothing dominates, or a spent budget.
#[derive(Drop)]
pub(crate) enum Turn {
    On(Climb),
    Top(Point),
    Spent(Halt),
}

/// The end of the way: a point that nothing dominates, or a spent budget.
#[derive(Drop)]
pub(crate) enum Improved {
    Best(Point),
    Spent(Halt),
}

/// The way from a better point on.
fn higher(climb: Climb, point: Point, ways: &Ways) -> Climb
    ensures { result.best ≡ point }
{
    let steps = climb.steps.saturating_add(1);
    let stride = next_stride(steps, climb.stride, &climb.best.vector, &point.vector, ways);
    Climb {
        best: point,
        stride,
        steps,
    }
}

/// Where nothing dominates the vector that was aimed at: the best one is the point, or is asked about itself.
fn settled(climb: Climb) -> Turn
    ensures { result ≡ settled_from climb.best climb.stride climb.steps }
{
    match climb.stride {
        None => Turn::Top(climb.best),
        Some(_) => Turn::On(Climb {
            best: climb.best,
            stride: None,
            steps: climb.steps,
        }),
    }
}

/// One question on the way.
fn next_turn(
    alloc: Global,
    space: &mut Space<'_>,
    task: &Task<'_>,
    points: &[Point],
    climb: Climb,
    questions: &mut u64,
) -> Result<Turn, NoMemory>
    requires same { space.old.read.now ≡ task.now.read.now }
    requires few { length points.now ≤ 1024 }
    requires points { ArePoints task.now.read.now.model task.now.read.now.scopes points.now }
    requires way { IsOnTheWay task.now.read.now points.now climb.best }
    ensures same { space.new.read.now ≡ task.now.read.now }
    ensures turn { IfOk result (IsTurn task.now.read.now task.now.budget points.now space.new.clauses space.new.parts climb) }
{
    dominance_ends(task.read);
    let aim = aim_of(alloc, &climb.best.vector, &task.ways, climb.stride)?;
    match ask_beyond(alloc, space, task, points, Some(aim), questions)? {
        Told::Found(instance) => {
            let point = point_of(alloc, task.read, instance)?;
            let next = higher(climb, point, &task.ways);
            Ok(Turn::On(next))
        }
        Told::Empty(_) => Ok(settled(climb)),
        Told::Spent(halt) => Ok(Turn::Spent(halt)),
    }
}

/// Goes on from an instance beyond the points to one that no instance dominates, each vector on the way dominating the one before.
///
/// There are as many questions as vectors on the way, one more, and one for each stride that was too long.
pub(crate) fn improve_from(
    alloc: Global,
    space: &mut Space<'_>,
    task: &Task<'_>,
    points: &[Point],
    start: Instance,
    questions: &mut u64,
) -> Result<Improved, NoMemory>
    requires same { space.old.read.now ≡ task.now.read.now }
    requires few { length points.now ≤ 1024 }
    requires points { ArePoints task.now.read.now.model task.now.read.now.scopes points.now }
    requires start { IsBeyond task.now.read.now points.now None start }
    ensures same { space.new.read.now ≡ task.now.read.now }
    ensures improved { IfOk result (IsImproved task.now.read.now task.now.budget points.now space.new.clauses space.new.parts) }
{
    let best = point_of(alloc, task.read, start)?;
    let mut climb = Climb {
        best,
        stride: None,
        steps: 0,
    };
    loop {
        match next_turn(alloc, space, task, points, climb, questions)? {
            Turn::On(next) => climb = next,
            Turn::Top(point) => return Ok(Improved::Best(point)),
            Turn::Spent(halt) => return Ok(Improved::Spent(halt)),
        }
    }
}
