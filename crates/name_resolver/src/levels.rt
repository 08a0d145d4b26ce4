//! The children of clafers.

ghost use Rattle.std.specs.Prelude.{◌≡◌, ◌<◌, ◌^◌, ℕ, List as Seq, length, IfOk, IsTrue};
ghost use Rattle.clf_tree.specs.Hierarchy.{is_closed};
ghost use Rattle.name_resolver.specs.Marks.{MarksAbove};
ghost use Rattle.name_resolver.specs.Levels.{is_child_of, step_down};

use crate::marks::marks_above;
use clf_base::{List, NoMemory};
use clf_tree::Clafer;
use std::alloc::Global;

// Whether it is declared directly under a marked clafer.
fn is_under_marked(clafers: &List<Clafer>, marks: &[bool], child: u32) -> bool
    requires child_in { child < length clafers.now }
    requires closed { IsTrue (is_closed clafers.now) }
    requires sized { length marks.now ≡ length clafers.now }
    ensures { (ms : Seq ℕ) → MarksAbove clafers.now ms marks.now → result ≡ is_child_of clafers.now ms child }
{
    match clafers.get(child as usize).parent {
        Some(parent) => marks[parent as usize],
        None => false,
    }
}

/// The children of the clafers of a level, in the order of the model. It goes up from each clafer of the level, and over all
/// clafers once. A clafer that is not there has no child.
pub fn step_down(
    alloc: Global,
    clafers: &List<Clafer>,
    level: &List<u32>,
) -> Result<List<u32>, NoMemory>
    requires closed { IsTrue (is_closed clafers.now) }
    requires few { length clafers.now < 2 ^ 32 }
    ensures { IfOk result (λ next. next ≡ step_down clafers.now level.now) }
{
    let marks = marks_above(alloc, clafers, level)?;
    let mut next = List::new(alloc);
    for child in 0..clafers.len() {
        if is_under_marked(clafers, marks.as_slice(), child as u32) {
            next.push(child as u32)?;
        }
    }
    Ok(next)
}
