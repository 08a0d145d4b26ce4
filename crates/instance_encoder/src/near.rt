//! The slots to which those of a clafer can be tied.

ghost use Rattle.std.specs.Prelude.{◌≡◌, ◌<◌, ◌^◌, ◌&&◌, length, map, vec_len, nat_lt, Some, IfOk, IfSome, OnOk, IsTrue};
ghost use Rattle.std.specs.List.{list_all};
ghost use Rattle.clf_tree.specs.Lists.{numbers_below};
ghost use Rattle.clf_tree.specs.Hierarchy.{is_closed, is_concrete, is_a, parent_of, target_of};
ghost use Rattle.instance_encoder.specs.Wiring.{near_slots, slots_below, declared_end};

use clf_base::{List, NoMemory};
use clf_tree::{Clafer, Node, is_a, reference_of};
use std::alloc::Global;

/// What ties a node to another one.
#[derive(Clone, Copy)]
pub(crate) enum Tie {
    Parent,
    Target,
}

fn parent_of(clafers: &List<Clafer>, clafer: u32) -> Option<u32>
    ensures { result ≡ parent_of clafers.now clafer }
{
    match clafers.as_slice().get(clafer as usize) {
        Some(here) => here.parent,
        None => None,
    }
}

fn target_of(clafers: &List<Clafer>, clafer: u32) -> Option<u32>
    ensures { result ≡ target_of clafers.now clafer }
{
    match reference_of(clafers, clafer) {
        Some(reference) => reference.to,
        None => None,
    }
}

// The clafer of which the other node is an instance.
fn declared_end(clafers: &List<Clafer>, tie: Tie, clafer: u32) -> Option<u32>
    ensures { result ≡ declared_end tie clafers.now clafer }
{
    match tie {
        Tie::Parent => parent_of(clafers, clafer),
        Tie::Target => target_of(clafers, clafer),
    }
}

fn is_instance(clafers: &List<Clafer>, low: u32, high: u32) -> bool
    requires low_in { low < length clafers.now }
    requires closed { IsTrue (is_closed clafers.now) }
    ensures { result ≡ (is_concrete clafers.now low && is_a clafers.now low high) }
{
    !clafers.get(low as usize).is_abstract && is_a(clafers, low, high)
}

// Whether instances of a clafer, by its number, are instances of the given one.
#[tactic(auto, using(crate::proofs::Below::marks_more))]
fn marks_below(alloc: Global, clafers: &List<Clafer>, high: u32) -> Result<Vec<bool>, NoMemory>
    requires closed { IsTrue (is_closed clafers.now) }
    requires few { length clafers.now < 2 ^ 32 }
    ensures len { IfOk result (λ marks. vec_len marks ≡ length clafers.now) }
    ensures marks { IfOk result (λ marks. marks.items ≡ map (λ d. is_concrete clafers.now d && is_a clafers.now d high) (numbers_below (length clafers.now))) }
{
    let mut marks = Vec::new(alloc);
    for low in 0..clafers.len() {
        let is_below = is_instance(clafers, low as u32, high);
        marks.push(is_below)?;
    }
    Ok(marks)
}

// The slots of the instances of a clafer.
fn slots_below(
    alloc: Global,
    clafers: &List<Clafer>,
    slots: &List<Node>,
    high: u32,
) -> Result<List<u32>, NoMemory>
    requires closed { IsTrue (is_closed clafers.now) }
    requires few_clafers { length clafers.now < 2 ^ 32 }
    requires known { IsTrue (list_all (λ n. nat_lt n.clafer (length clafers.now)) slots.now) }
    requires few { length slots.now < 2 ^ 32 }
    ensures { IfOk result (λ found. found ≡ slots_below clafers.now slots.now high) }
{
    let marks = marks_below(alloc, clafers, high)?;
    let mut found = List::new(alloc);
    for slot in 0..slots.len() {
        if marks[slots.get(slot).clafer as usize] {
            found.push(slot as u32)?;
        }
    }
    Ok(found)
}

// The slots to which a slot of the clafer can be tied, in one pass over the clafers and one over the slots.
fn near_slots(
    alloc: Global,
    clafers: &List<Clafer>,
    slots: &List<Node>,
    tie: Tie,
    clafer: u32,
) -> Result<List<u32>, NoMemory>
    requires closed { IsTrue (is_closed clafers.now) }
    requires few_clafers { length clafers.now < 2 ^ 32 }
    requires known { IsTrue (list_all (λ n. nat_lt n.clafer (length clafers.now)) slots.now) }
    requires few { length slots.now < 2 ^ 32 }
    ensures { IfOk result (λ near. near ≡ near_slots tie clafers.now slots.now clafer) }
{
    match declared_end(clafers, tie, clafer) {
        Some(high) => {
            let found = slots_below(alloc, clafers, slots, high)?;
            Ok(found)
        }
        None => Ok(List::new(alloc)),
    }
}

/// The slots to which those of one clafer can be tied, kept while the clafer stays the same.
#[derive(Drop)]
pub(crate) struct Near {
    pub(crate) clafer: Option<u32>,
    pub(crate) slots: List<u32>,
}

/// Turns to another clafer, if it isn't the one for which the slots are kept.
pub(crate) fn turn_to(
    alloc: Global,
    near: &mut Near,
    clafers: &List<Clafer>,
    slots: &List<Node>,
    tie: Tie,
    clafer: u32,
) -> Result<(), NoMemory>
    requires closed { IsTrue (is_closed clafers.now) }
    requires few_clafers { length clafers.now < 2 ^ 32 }
    requires known { IsTrue (list_all (λ n. nat_lt n.clafer (length clafers.now)) slots.now) }
    requires few { length slots.now < 2 ^ 32 }
    requires kept { IfSome near.old.clafer (λ c. near.old.slots ≡ near_slots tie clafers.now slots.now c) }
    ensures clafer { OnOk result (near.new.clafer ≡ Some clafer) }
    ensures slots { OnOk result (near.new.slots ≡ near_slots tie clafers.now slots.now clafer) }
{
    if near.clafer == Some(clafer) {
        return Ok(());
    }
    let found = near_slots(alloc, clafers, slots, tie, clafer)?;
    near.clafer = Some(clafer);
    near.slots = found;
    Ok(())
}
