//! Marks on the clafers above given ones.

ghost use Rattle.std.specs.Prelude.{◌≡◌, ◌<◌, ◌^◌, ◌||◌, ◌++◌, [], ◌∷◌, ℕ, false, List as Seq, length, vec_len, get_or, IfOk, IsTrue};
ghost use Rattle.clf_tree.specs.Hierarchy.{is_closed, is_a};
ghost use Rattle.name_resolver.specs.Marks.{MarksAbove};

use clf_base::{List, NoMemory};
use clf_tree::Clafer;
use std::alloc::Global;

// Marks a clafer and all above it.
fn mark_way_up(clafers: &List<Clafer>, from: u32, marks: &mut Vec<bool>)
    requires from_in { from < length clafers.now }
    requires closed { IsTrue (is_closed clafers.now) }
    requires sized { vec_len marks.old ≡ length clafers.now }
    ensures sized { vec_len marks.new ≡ length clafers.now }
    ensures marked { (p : ℕ) → p < length clafers.now → get_or marks.new.items p false ≡ (get_or marks.old.items p false || is_a clafers.now from p) }
{
    let mut current = from;
    for _step in 0..clafers.len() {
        marks[current as usize] = true;
        match clafers.get(current as usize).above {
            Some(above) => current = above,
            None => return,
        }
    }
    marks[current as usize] = true;
}

// Above a clafer that is not there is none that is.
#[tactic(auto, using(crate::proofs::Marking::marking_steps))]
fn mark_above(clafers: &List<Clafer>, clafer: u32, marks: &mut Vec<bool>)
    requires closed { IsTrue (is_closed clafers.now) }
    requires sized { vec_len marks.old ≡ length clafers.now }
    ensures sized { vec_len marks.new ≡ length clafers.now }
    ensures marked { (ms : Seq ℕ) → MarksAbove clafers.now ms marks.old.items → MarksAbove clafers.now (ms ++ clafer ∷ []) marks.new.items }
{
    if clafer as usize >= clafers.len() {
        return;
    }
    mark_way_up(clafers, clafer, marks);
}

/// Marks on the clafers that one of the given ones is-a. It goes up from each of these.
pub fn marks_above(
    alloc: Global,
    clafers: &List<Clafer>,
    ms: &List<u32>,
) -> Result<Vec<bool>, NoMemory>
    requires closed { IsTrue (is_closed clafers.now) }
    requires few { length clafers.now < 2 ^ 32 }
    ensures sized { IfOk result (λ marks. vec_len marks ≡ length clafers.now) }
    ensures marked { IfOk result (λ marks. MarksAbove clafers.now ms.now marks.items) }
{
    let mut marks = vec![in alloc; false; clafers.len()]?;
    for clafer in ms.as_slice() {
        mark_above(clafers, *clafer, &mut marks);
    }
    Ok(marks)
}
