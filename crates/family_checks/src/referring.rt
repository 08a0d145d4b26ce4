//! Marks on all clafers that have a reference, of their own or inherited.

ghost use Rattle.std.specs.Prelude.{◌≡◌, ◌<◌, ◌^◌, ℕ, Some, true, length, is_some, IfOk, IsTrue};
ghost use Rattle.clf_tree.specs.Hierarchy.{super_of, own_reference};
ghost use Rattle.family_checks.specs.Marks.{is_marked, GoDownAt, GoDown};

use crate::certificate::super_of;
use clf_base::{List, NoMemory};
use clf_tree::Clafer;
use std::alloc::Global;

/// Whether a clafer is marked.
pub fn is_marked(marks: &[bool], clafer: u32) -> bool
    ensures { result ≡ is_marked marks.now clafer }
{
    match marks.get(clafer as usize) {
        Some(mark) => *mark,
        None => true,
    }
}

fn refers(clafers: &List<Clafer>, clafer: u32) -> bool
    ensures { result ≡ is_some (own_reference clafers.now clafer) }
{
    match clafers.as_slice().get(clafer as usize) {
        Some(here) => here.reference.is_some(),
        None => false,
    }
}

fn marks_own(clafers: &List<Clafer>, marks: &[bool], clafer: u32) -> bool
    ensures { IsTrue result → is_some (own_reference clafers.now clafer) ≡ true → is_marked marks.now clafer ≡ true }
{
    if !refers(clafers, clafer) {
        return true;
    }
    is_marked(marks, clafer)
}

fn marks_inherited(clafers: &List<Clafer>, marks: &[bool], clafer: u32) -> bool
    ensures { IsTrue result → (s : ℕ) → super_of clafers.now clafer ≡ Some s → is_marked marks.now s ≡ true → is_marked marks.now clafer ≡ true }
{
    match super_of(clafers, clafer) {
        None => true,
        Some(above) => {
            if !is_marked(marks, above) {
                return true;
            }
            is_marked(marks, clafer)
        }
    }
}

fn go_down_at(clafers: &List<Clafer>, marks: &[bool], clafer: u32) -> bool
    ensures { IsTrue result → GoDownAt clafers.now marks.now clafer }
{
    if !marks_own(clafers, marks, clafer) {
        return false;
    }
    marks_inherited(clafers, marks, clafer)
}

fn all_go_down(clafers: &List<Clafer>, marks: &[bool]) -> bool
    requires few { length clafers.now < 2 ^ 32 }
    ensures { IsTrue result → GoDown clafers.now marks.now }
{
    for number in 0..clafers.len() {
        if !go_down_at(clafers, marks, number as u32) {
            return false;
        }
    }
    true
}

// Goes up while the clafers are new, and takes down their numbers.
fn go_up(
    clafers: &List<Clafer>,
    seen: &mut [bool],
    way: &mut List<u32>,
    from: u32,
) -> Result<(), NoMemory> {
    let mut current = Some(from);
    for _step in 0..seen.len() {
        match current {
            Some(clafer) if (clafer as usize) < seen.len() && !seen[clafer as usize] => {
                seen[clafer as usize] = true;
                way.push(clafer)?;
                current = super_of(clafers, clafer);
            }
            _ => break,
        }
    }
    Ok(())
}

// Marks the clafers of a way from the top down, and leaves the way empty.
fn mark_way(clafers: &List<Clafer>, marks: &mut [bool], way: &mut List<u32>) {
    for _step in 0..way.len() {
        if let Some(clafer) = way.pop() {
            let inherited = match super_of(clafers, clafer) {
                Some(above) => is_marked(marks, above),
                None => false,
            };
            if (clafer as usize) < marks.len() {
                marks[clafer as usize] = inherited || refers(clafers, clafer);
            }
        }
    }
}

// A proposal, of which nothing is known. Each clafer is seen once.
fn proposed(alloc: Global, clafers: &List<Clafer>) -> Result<Vec<bool>, NoMemory>
    requires few { length clafers.now < 2 ^ 32 }
{
    let mut seen = vec![in alloc; false; clafers.len()]?;
    let mut marks = vec![in alloc; false; clafers.len()]?;
    let mut way = List::new(alloc);
    for number in 0..clafers.len() {
        go_up(clafers, &mut seen, &mut way, number as u32)?;
        mark_way(clafers, &mut marks, &mut way);
    }
    Ok(marks)
}

/// Marks on at least all clafers that have a reference or inherit one, in time linear in the clafers.
#[tactic(auto, using(crate::proofs::Marking::no_marks))]
pub fn reference_marks(alloc: Global, clafers: &List<Clafer>) -> Result<Vec<bool>, NoMemory>
    requires few { length clafers.now < 2 ^ 32 }
    ensures { IfOk result (λ marks. GoDown clafers.now marks.items) }
{
    let marks = proposed(alloc, clafers)?;
    if all_go_down(clafers, &marks) {
        return Ok(marks);
    }
    let none = Vec::new(alloc);
    Ok(none)
}
