//! The summary of a front.

ghost use Rattle.std.specs.Prelude.{◌≡◌, ◌++◌, ◌<◌, ◌≤◌, ℕ, length, map, IfOk, OnOk, slice_get, FitsSigned};
ghost use Rattle.std.specs.Int.{int_wrap, w128};
ghost use Rattle.std.specs.List.{flat_map};
ghost use Rattle.front_report.specs.Summary as spec;

use crate::points::{push_claims, push_counted, push_ended, push_values};
use clf_base::{List, NoMemory};
use clf_tree::{Front, FrontEnd, Point};
use std::alloc::Global;

/// The value of a goal, 0 where the vector has none.
fn value_at(point: &Point, goal: usize) -> i128
    ensures { result ≡ spec.value_at goal point.now }
{
    match point.vector.values.as_slice().get(goal) {
        Some(value) => *value,
        None => 0,
    }
}

/// The sum of the values of a goal, as far as 128 bits go.
fn wrapped_sum(points: &[Point], goal: usize) -> i128
    ensures { result ≡ int_wrap w128 (spec.sum_at points.now goal) }
{
    let mut sum: i128 = 0;
    for point in points {
        sum = sum.wrapping_add(value_at(point, goal));
    }
    sum
}

/// The sum of the values of a goal. What is added on the way may pass 128 bits and come back.
fn sum_at(points: &[Point], goal: usize) -> i128
    requires { FitsSigned w128 (spec.sum_at points.now goal) }
    ensures { result ≡ spec.sum_at points.now goal }
{
    wrapped_sum(points, goal)
}

fn values_of(points: &[Point], at: usize) -> &[i128]
    ensures { result.now ≡ spec.values_of points.now at }
{
    match points.get(at) {
        Some(point) => point.vector.values.as_slice(),
        None => &[],
    }
}

/// The sum of each goal of the first vector.
fn sums(alloc: Global, points: &[Point]) -> Result<List<i128>, NoMemory>
    requires { spec.HasSums points.now }
    ensures { IfOk result (λ values. values ≡ spec.sums points.now) }
{
    let mut values = List::new(alloc);
    for goal in 0..values_of(points, 0).len() {
        values.push(sum_at(points, goal))?;
    }
    Ok(values)
}

/// Writes the first and the last vector, and the sums.
fn push_extremes(alloc: Global, text: &mut List<u8>, points: &[Point]) -> Result<(), NoMemory>
    requires some { 1 ≤ length points.now }
    requires sums { spec.HasSums points.now }
    ensures { OnOk result (text.new ≡ text.old ++ spec.extremes points.now) }
{
    let sums = sums(alloc, points)?;
    push_values(text, b"first", values_of(points, 0))?;
    push_values(text, b"last", values_of(points, points.len() - 1))?;
    push_values(text, b"sum", sums.as_slice())?;
    Ok(())
}

fn push_told_extremes(alloc: Global, text: &mut List<u8>, front: &Front) -> Result<(), NoMemory>
    requires { spec.HasSums front.now.points }
    ensures { OnOk result (text.new ≡ text.old ++ spec.told_extremes front.now.ended front.now.points) }
{
    if front.points.is_empty() {
        return Ok(());
    }
    match &front.ended {
        FrontEnd::Finished => push_extremes(alloc, text, front.points.as_slice()),
        FrontEnd::Spent => Ok(()),
        FrontEnd::Full(_) => Ok(()),
    }
}

/// The summary of the front of a generated model: the model's number, how the search ended, the first and the last vector and the sums
/// of the goals where the whole front was found, and the claims.
#[tactic(auto, unfolding(crate::specs::Summary::summary))]
pub fn summary(alloc: Global, number: u32, front: &Front) -> Result<List<u8>, NoMemory>
    requires { spec.HasSums front.now.points }
    ensures { IfOk result (λ text. text ≡ spec.summary number front.now) }
{
    let mut text = List::new(alloc);
    push_counted(&mut text, b"generated ", number as u64)?;
    push_ended(&mut text, front)?;
    push_told_extremes(alloc, &mut text, front)?;
    push_claims(&mut text, front.claims)?;
    Ok(text)
}
