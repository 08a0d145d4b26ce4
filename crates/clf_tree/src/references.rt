//! What clafers refer to, and what stands above them.

ghost use Rattle.std.specs.Prelude.{◌≡◌, ◌&&◌, ◌<◌, ◌^◌, ◌++◌, [], ◌∷◌, ℕ, List as Seq, Some, length, vec_len, IfOk, IsTrue};
ghost use Rattle.clf_tree.specs.declared.model.Clafer.{Clafer as AClafer};
ghost use Rattle.clf_tree.specs.declared.model.Reference.{Reference as AReference};
ghost use Rattle.clf_tree.specs.Hierarchy.{is_closed, own_reference, super_of, reference_of, refers_to_int, target_of, refer_to_int, targets_of, is_one_of, share, is_a};
ghost use Rattle.clf_tree.specs.IntervalsHold.{refers_once};
ghost use Rattle.clf_tree.specs.Lists.{numbers_below};
ghost use Rattle.clf_tree.specs.Kinds.{parents_of};
ghost use Rattle.clf_tree.specs.Marks.{MarksParents};

use crate::hierarchy::is_a;
use crate::model::{Clafer, Reference};
use clf_base::{List, NoMemory};
use std::alloc::Global;

fn own_reference(clafers: &List<Clafer>, clafer: u32) -> Option<Reference>
    ensures { result ≡ own_reference clafers.now clafer }
{
    match clafers.as_slice().get(clafer as usize) {
        Some(here) => here.reference,
        None => None,
    }
}

fn super_of(clafers: &List<Clafer>, clafer: u32) -> Option<u32>
    ensures { result ≡ super_of clafers.now clafer }
{
    match clafers.as_slice().get(clafer as usize) {
        Some(here) => here.above,
        None => None,
    }
}

/// The reference that a clafer declares or inherits.
pub fn reference_of(clafers: &List<Clafer>, clafer: u32) -> Option<Reference>
    ensures { result ≡ reference_of clafers.now clafer }
{
    let mut current = clafer;
    for _step in 0..clafers.len() {
        if let Some(own) = own_reference(clafers, current) {
            return Some(own);
        }
        match super_of(clafers, current) {
            Some(above) => current = above,
            None => return None,
        }
    }
    own_reference(clafers, current)
}

fn refers_to_int(clafers: &List<Clafer>, clafer: u32) -> bool
    ensures { result ≡ refers_to_int clafers.now clafer }
{
    match reference_of(clafers, clafer) {
        Some(reference) => reference.to.is_none(),
        None => false,
    }
}

fn target_of(clafers: &List<Clafer>, clafer: u32) -> Option<u32>
    ensures { result ≡ target_of clafers.now clafer }
{
    match reference_of(clafers, clafer) {
        Some(reference) => reference.to,
        None => None,
    }
}

/// Whether each of the clafers refers to integers.
pub fn refer_to_int(clafers: &List<Clafer>, ks: &List<u32>) -> bool
    ensures { result ≡ refer_to_int clafers.now ks.now }
{
    ks.as_slice().iter().all(|k| refers_to_int(clafers, *k))
}

/// The clafers that the given ones refer to, if each of them refers to one.
pub fn targets_of(
    alloc: Global,
    clafers: &List<Clafer>,
    ks: &List<u32>,
) -> Result<Option<List<u32>>, NoMemory>
    ensures { IfOk result (λ ts. ts ≡ targets_of clafers.now ks.now) }
{
    let mut targets = List::new(alloc);
    for k in ks.as_slice() {
        match target_of(clafers, *k) {
            Some(target) => targets.push(target)?,
            None => return Ok(None),
        }
    }
    Ok(Some(targets))
}

/// Whether a clafer is-a one of the listed ones.
pub fn is_one_of(clafers: &List<Clafer>, ks: &List<u32>, clafer: u32) -> bool
    requires within { clafer < length clafers.now }
    requires closed { IsTrue (is_closed clafers.now) }
    ensures { result ≡ is_one_of clafers.now ks.now clafer }
{
    ks.as_slice().iter().any(|k| is_a(clafers, clafer, *k))
}

/// Marks the clafer under which `c` is declared, where `c` is-a one of the given ones.
#[tactic(auto, using(crate::proofs::Marks::mark_steps))]
fn mark_parent(clafers: &List<Clafer>, ks: &List<u32>, c: u32, marks: &mut Vec<bool>)
    requires within { c < length clafers.now }
    requires closed { IsTrue (is_closed clafers.now) }
    requires sized { vec_len marks.old ≡ length clafers.now }
    ensures sized { vec_len marks.new ≡ length clafers.now }
    ensures marked { (cs : Seq ℕ) → MarksParents clafers.now ks.now cs marks.old.items → MarksParents clafers.now ks.now (cs ++ c ∷ []) marks.new.items }
{
    if is_one_of(clafers, ks, c) {
        if let Some(parent) = clafers.get(c as usize).parent {
            marks[parent as usize] = true;
        }
    }
}

fn parent_marks(
    alloc: Global,
    clafers: &List<Clafer>,
    ks: &List<u32>,
) -> Result<Vec<bool>, NoMemory>
    requires closed { IsTrue (is_closed clafers.now) }
    requires few { length clafers.now < 2 ^ 32 }
    ensures { IfOk result (λ marks. (vec_len marks ≡ length clafers.now) × MarksParents clafers.now ks.now (numbers_below (length clafers.now)) marks.items) }
{
    let mut marks = vec![in alloc; false; clafers.len()]?;
    for c in 0..clafers.len() {
        mark_parent(clafers, ks, c as u32, &mut marks);
    }
    Ok(marks)
}

/// The declaring parents of the nested clafers that are-a one of the given ones, in the order of the model. It goes over the
/// clafers twice.
#[tactic(auto, using(crate::proofs::Numbers::child_steps))]
pub fn parents_of(
    alloc: Global,
    clafers: &List<Clafer>,
    ks: &List<u32>,
) -> Result<List<u32>, NoMemory>
    requires closed { IsTrue (is_closed clafers.now) }
    requires few { length clafers.now < 2 ^ 32 }
    ensures { IfOk result (λ ps. ps ≡ parents_of clafers.now ks.now) }
{
    let marks = parent_marks(alloc, clafers, ks)?;
    let mut parents = List::new(alloc);
    for p in 0..clafers.len() {
        if marks[p] {
            parents.push(p as u32)?;
        }
    }
    Ok(parents)
}

fn is_common(clafers: &List<Clafer>, ks: &List<u32>, ls: &List<u32>, clafer: u32) -> bool
    requires within { clafer < length clafers.now }
    requires closed { IsTrue (is_closed clafers.now) }
    ensures { result ≡ (is_one_of clafers.now ks.now clafer && is_one_of clafers.now ls.now clafer) }
{
    is_one_of(clafers, ks, clafer) && is_one_of(clafers, ls, clafer)
}

/// Whether some clafer is-a both one of `ks` and one of `ls`.
#[tactic(auto, using(crate::proofs::Numbers::child_steps))]
pub fn share(clafers: &List<Clafer>, ks: &List<u32>, ls: &List<u32>) -> bool
    requires closed { IsTrue (is_closed clafers.now) }
    requires few { length clafers.now < 2 ^ 32 }
    ensures { result ≡ share clafers.now ks.now ls.now }
{
    for c in 0..clafers.len() {
        if is_common(clafers, ks, ls, c as u32) {
            return true;
        }
    }
    false
}

/// A clafer refers to what a clafer above it refers to, where no clafer that has a reference of its own inherits one.
pub fn references_are_inherited()
    ensures { (clafers : Seq AClafer) (low high : ℕ) (own above : AReference) → IsTrue (is_closed clafers) → IsTrue (refers_once clafers) → IsTrue (is_a clafers low high) → reference_of clafers low ≡ Some own → reference_of clafers high ≡ Some above → own ≡ above }
{}
