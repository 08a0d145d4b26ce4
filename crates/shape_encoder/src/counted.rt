//! Which nodes a multiplicity or a group counts.

ghost use Rattle.std.specs.Prelude.{◌≡◌, ◌<◌, ◌^◌, length, map, IfOk, IsTrue};
ghost use Rattle.clf_tree.specs.Hierarchy.{is_closed, parent_of};
ghost use Rattle.clf_tree.specs.Lists.{numbers_below};
ghost use Rattle.shown_instance.specs.Bounds.{is_declared_under};
ghost use Rattle.shape_encoder.specs.Counting.{counts, is_marked};

use clf_base::{List, NoMemory};
use clf_tree::{Clafer, is_a};
use std::alloc::Global;

/// The instances of a clafer, or those of the clafers that are declared directly under it.
#[derive(Clone, Copy)]
pub(crate) enum Counted {
    Instances(u32),
    DeclaredUnder(u32),
}

fn is_declared_under(clafers: &List<Clafer>, clafer: u32, parent: u32) -> bool
    requires { clafer < length clafers.now }
    ensures { result ≡ is_declared_under clafers.now parent clafer }
{
    clafers.get(clafer as usize).parent == Some(parent)
}

// Whether the nodes of a clafer are counted.
fn counts(clafers: &List<Clafer>, counted: Counted, clafer: u32) -> bool
    requires known { clafer < length clafers.now }
    requires closed { IsTrue (is_closed clafers.now) }
    ensures { result ≡ counts counted clafers.now clafer }
{
    match counted {
        Counted::Instances(of) => is_a(clafers, clafer, of),
        Counted::DeclaredUnder(parent) => is_declared_under(clafers, clafer, parent),
    }
}

/// Whether the nodes of each clafer, by its number, are counted.
#[tactic(auto, using(crate::proofs::Marking::marks_more))]
pub(crate) fn marks_of(
    alloc: Global,
    clafers: &List<Clafer>,
    counted: Counted,
) -> Result<Vec<bool>, NoMemory>
    requires closed { IsTrue (is_closed clafers.now) }
    requires few { length clafers.now < 2 ^ 32 }
    ensures { IfOk result (λ marks. marks.items ≡ map (counts counted clafers.now) (numbers_below (length clafers.now))) }
{
    let mut marks = Vec::new(alloc);
    for clafer in 0..clafers.len() {
        let is_counted = counts(clafers, counted, clafer as u32);
        marks.push(is_counted)?;
    }
    Ok(marks)
}

/// Whether a clafer is marked.
pub(crate) fn is_marked(marks: &Vec<bool>, clafer: u32) -> bool
    ensures { result ≡ is_marked marks.now.items clafer }
{
    match marks.get(clafer as usize) {
        Some(mark) => *mark,
        None => false,
    }
}
