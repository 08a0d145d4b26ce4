//! Points of a front, and their order.

ghost use Rattle.std.specs.Prelude.{◌≡◌, ◌+◌, length, IfOk, OnOk, IsTrue};
ghost use Rattle.std.specs.List.{prefix_len};
ghost use Rattle.clf_tree.specs.Front.{before};
ghost use Rattle.clf_tree.specs.Satisfies.{satisfies};
ghost use Rattle.goal_vectors.specs.Points.{ArePoints, IsWitnessed};
ghost use Rattle.pareto_loop.specs.Searching.{IsFurther};

use crate::task::Task;
use clf_base::NoMemory;
use clf_tree::{Instance, Point, Vector, Ways};
use goal_vectors::before;
use model_evaluator::vector;
use model_reader::Read;
use std::alloc::Global;

/// The point of an instance: its vector by the model as it is declared.
pub(crate) fn point_of(alloc: Global, read: &Read, witness: Instance) -> Result<Point, NoMemory>
    requires { IsTrue (satisfies read.now.model read.now.scopes witness.entries) }
    ensures witnessed { IfOk result (IsWitnessed read.now.model read.now.scopes) }
    ensures witness { IfOk result (λ p. p.witness ≡ witness) }
{
    let vector = vector(alloc, &read.model, &read.scopes, &witness)?;
    Ok(Point { vector, witness })
}

/// How many of the first points are before a vector.
fn place_of(points: &[Point], vector: &Vector, ways: &Ways) -> usize
    ensures { result ≡ prefix_len (λ p. before ways.now.least p.vector.values vector.now.values) points.now }
{
    for (place, point) in points.iter().enumerate() {
        if !before(&point.vector, vector, ways) {
            return place;
        }
    }
    points.len()
}

/// Puts a further point in its place. Where memory is wanting the points are dropped with it by the caller.
pub(crate) fn add_in_order(
    task: &Task<'_>,
    points: &mut Vec<Point>,
    point: Point,
) -> Result<(), NoMemory>
    requires points { ArePoints task.now.read.now.model task.now.read.now.scopes points.old.items }
    requires further { IsFurther task.now.read.now points.old.items point }
    ensures points { OnOk result (ArePoints task.now.read.now.model task.now.read.now.scopes points.new.items) }
    ensures count { OnOk result (length points.new.items ≡ length points.old.items + 1) }
{
    let place = place_of(points.as_slice(), &point.vector, &task.ways);
    points.insert(place, point)?;
    Ok(())
}
