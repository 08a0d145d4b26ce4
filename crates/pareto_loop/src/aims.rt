//! Which vector the next question asks to be improved.
//!
//! No contract rests on strides: they save questions where a goal gets better by little in each answer, and a vector that is aimed at is
//! looked at before it is asked about.

ghost use Rattle.std.specs.Prelude.{◌≡◌, false, length, None, IfOk, IsTrue};
ghost use Rattle.clf_tree.specs.Front.{is_better_somewhere};

use clf_base::{List, NoMemory};
use clf_tree::{Vector, Ways};
use goal_vectors::is_better_somewhere;
use std::alloc::Global;

/// By how much a goal is to get better at once.
#[derive(Clone, Copy)]
pub(crate) struct Stride {
    pub goal: usize,
    pub length: i128,
}

/// How many improvements of one point go without a stride.
const PLAIN_STEPS: u32 = 8;

/// By how much a goal got better.
fn gain(least: bool, old: i128, new: i128) -> i128 {
    if least {
        old.saturating_sub(new)
    } else {
        new.saturating_sub(old)
    }
}

/// The goal that got better by most, with its gain.
fn greatest_gain(old: &List<i128>, new: &List<i128>, ways: &List<bool>) -> Stride {
    let mut best = Stride { goal: 0, length: 0 };
    for goal in 0..ways.len().min(old.len().min(new.len())) {
        let length = gain(*ways.get(goal), *old.get(goal), *new.get(goal));
        if length > best.length {
            best = Stride { goal, length };
        }
    }
    best
}

/// The stride after an improvement: none in the first steps of a point; then the greatest gain, or twice the last stride where that is
/// longer.
pub(crate) fn next_stride(
    steps: u32,
    last: Option<Stride>,
    old: &Vector,
    new: &Vector,
    ways: &Ways,
) -> Option<Stride> {
    if steps < PLAIN_STEPS {
        return None;
    }
    let gained = greatest_gain(&old.values, &new.values, &ways.least);
    match last {
        Some(stride) => Some(longer(gained, stride)),
        None => Some(gained),
    }
}

/// A gain, or twice a stride where that is longer.
fn longer(gained: Stride, last: Stride) -> Stride {
    let twice = last.length.saturating_add(last.length);
    Stride {
        goal: gained.goal,
        length: gained.length.max(twice),
    }
}

/// A value that is better by the length of a stride.
fn moved(ways: &List<bool>, value: i128, stride: Stride) -> i128 {
    match ways.as_slice().get(stride.goal) {
        Some(true) => value.saturating_sub(stride.length),
        _ => value.saturating_add(stride.length),
    }
}

/// The vector with the goal of a stride better by its length.
fn raised(
    alloc: Global,
    best: &List<i128>,
    ways: &Ways,
    stride: Stride,
) -> Result<List<i128>, NoMemory> {
    let mut values = List::new(alloc);
    for goal in 0..best.len() {
        let value = *best.get(goal);
        if goal == stride.goal {
            values.push(moved(&ways.least, value, stride))?;
        } else {
            values.push(value)?;
        }
    }
    Ok(values)
}

/// A vector than which the best one is nowhere better: the best one itself, or where there is a stride one that is better by it.
pub(crate) fn aim_of(
    alloc: Global,
    best: &Vector,
    ways: &Ways,
    stride: Option<Stride>,
) -> Result<Vector, NoMemory>
    ensures length { IfOk result (λ aim. length aim.values ≡ length best.now.values) }
    ensures no_worse { IfOk result (λ aim. is_better_somewhere ways.now.least best.now.values aim.values ≡ false) }
    ensures plain { stride ≡ None → IfOk result (λ aim. aim.values ≡ best.now.values) }
{
    if let Some(stride) = stride {
        let values = raised(alloc, &best.values, ways, stride)?;
        let aim = Vector { values };
        if is_no_worse(best, &aim, ways) {
            return Ok(aim);
        }
    }
    let values = best.values.copy(alloc)?;
    Ok(Vector { values })
}

/// Whether a vector has as many values as the best one, which is nowhere better.
fn is_no_worse(best: &Vector, aim: &Vector, ways: &Ways) -> bool
    ensures length { IsTrue result → length aim.now.values ≡ length best.now.values }
    ensures no_worse { IsTrue result → is_better_somewhere ways.now.least best.now.values aim.now.values ≡ false }
{
    if aim.values.len() != best.values.len() {
        return false;
    }
    !is_better_somewhere(ways, best, aim)
}
