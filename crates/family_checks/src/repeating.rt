//! Marks on the children that may have the name of an inherited one, for all clafers at once.

ghost use Rattle.std.specs.Prelude.{◌≡◌, ◌<◌, ◌≤◌, ◌^◌, ℕ, Some, false, length, slice_get, bytes_eq, is_some, IfOk, IsTrue};
ghost use Rattle.std.specs.Option.{option_map_or};
ghost use Rattle.std.specs.HashMap.{get_by};
ghost use Rattle.clf_tree.specs.Hierarchy.{super_of};
ghost use Rattle.family_checks.specs.Marks.{is_marked, MarkRepeats};
ghost use Rattle.family_checks.specs.Tours.{turn_of, NestsAt, Nest, MetAt, Met, IsTour, kept_turn, Visited, AllApart};

use crate::certificate::super_of;
use crate::touring::{Tour, walk_supers};
use clf_base::{List, NoMemory};
use clf_tree::Clafer;
use std::alloc::Global;
use std::collections::HashMap;

fn turn_of(turns: &[u32], clafer: u32) -> u32
    ensures { result ≡ turn_of turns.now clafer }
{
    match turns.get(clafer as usize) {
        Some(turn) => *turn,
        None => 0,
    }
}

fn ends(enter: &[u32], leave: &[u32], clafer: u32) -> bool
    ensures { IsTrue result → turn_of enter.now clafer ≤ turn_of leave.now clafer }
{
    turn_of(enter, clafer) <= turn_of(leave, clafer)
}

fn is_later(clafers: &List<Clafer>, enter: &[u32], clafer: u32) -> bool
    ensures { IsTrue result → (s : ℕ) → super_of clafers.now clafer ≡ Some s → turn_of enter.now s < turn_of enter.now clafer }
{
    match super_of(clafers, clafer) {
        None => true,
        Some(above) => turn_of(enter, above) < turn_of(enter, clafer),
    }
}

fn is_inside(clafers: &List<Clafer>, leave: &[u32], clafer: u32) -> bool
    ensures { IsTrue result → (s : ℕ) → super_of clafers.now clafer ≡ Some s → turn_of leave.now clafer ≤ turn_of leave.now s }
{
    match super_of(clafers, clafer) {
        None => true,
        Some(above) => turn_of(leave, clafer) <= turn_of(leave, above),
    }
}

fn nests_at(clafers: &List<Clafer>, enter: &[u32], leave: &[u32], clafer: u32) -> bool
    ensures { IsTrue result → NestsAt clafers.now enter.now leave.now clafer }
{
    if !ends(enter, leave, clafer) {
        return false;
    }
    if !is_later(clafers, enter, clafer) {
        return false;
    }
    is_inside(clafers, leave, clafer)
}

fn all_nest(clafers: &List<Clafer>, enter: &[u32], leave: &[u32]) -> bool
    requires few { length clafers.now < 2 ^ 32 }
    requires sized { length enter.now ≤ length clafers.now }
    ensures { IsTrue result → Nest clafers.now enter.now leave.now }
{
    for number in 0..clafers.len() {
        if !nests_at(clafers, enter, leave, number as u32) {
            return false;
        }
    }
    true
}

fn is_nested(clafers: &List<Clafer>, clafer: u32) -> bool
    ensures { result ≡ option_map_or (λ k. is_some k.parent) (slice_get clafers.now clafer) false }
{
    match clafers.as_slice().get(clafer as usize) {
        Some(here) => here.parent.is_some(),
        None => false,
    }
}

#[tactic(auto, using(crate::proofs::Parting::met_facts))]
fn is_met(clafers: &List<Clafer>, order: &List<u32>, place: &[u32], clafer: u32) -> bool
    ensures { IsTrue result → MetAt clafers.now order.now clafer }
{
    if !is_nested(clafers, clafer) {
        return true;
    }
    let at = turn_of(place, clafer) as usize;
    if at >= order.len() {
        return false;
    }
    *order.get(at) == clafer
}

fn all_met(clafers: &List<Clafer>, order: &List<u32>, place: &[u32]) -> bool
    requires few { length clafers.now < 2 ^ 32 }
    ensures { IsTrue result → Met clafers.now order.now }
{
    for number in 0..clafers.len() {
        if !is_met(clafers, order, place, number as u32) {
            return false;
        }
    }
    true
}

fn is_tour(clafers: &List<Clafer>, tour: &Tour) -> bool
    requires few { length clafers.now < 2 ^ 32 }
    ensures { IsTrue result → IsTour clafers.now tour.now.enter.items tour.now.leave.items tour.now.order }
{
    if tour.enter.len() > clafers.len() {
        return false;
    }
    if !all_nest(clafers, &tour.enter, &tour.leave) {
        return false;
    }
    all_met(clafers, &tour.order, &tour.place)
}

fn kept_turn(last: &HashMap<&[u8], u32>, name: &[u8]) -> u32
    ensures { result ≡ kept_turn (get_by (λ k. bytes_eq name.now k.now) last.now) }
{
    match last.get(&name).copied() {
        None => 0,
        Some(turn) => turn,
    }
}

#[tactic(auto, using(crate::proofs::Parting::mark_facts))]
fn mark_if(marks: &mut Vec<bool>, clafer: u32, met: bool)
    ensures marked { is_marked marks.new.items clafer ≡ false → met ≡ false }
    ensures stay { (d : ℕ) → is_marked marks.new.items d ≡ false → is_marked marks.old.items d ≡ false }
{
    if met && (clafer as usize) < marks.len() {
        marks[clafer as usize] = true;
    }
}

// Visits a nested clafer, and gives the turn at which its parent is entered; nothing where that is before `turn`.
fn visit<'a>(
    clafers: &'a List<Clafer>,
    tour: &Tour,
    last: &mut HashMap<&'a [u8], u32>,
    marks: &mut Vec<bool>,
    turn: u32,
    clafer: u32,
) -> Result<Option<u32>, NoMemory>
    ensures { IfOk result (λ r. (next : ℕ) → r ≡ Some next → Visited clafers.now tour.now.enter.items tour.now.leave.items clafer turn next (λ n. kept_turn (get_by (λ k. bytes_eq n k.now) last.old)) (λ n. kept_turn (get_by (λ k. bytes_eq n k.now) last.new)) marks.old.items marks.new.items) }
{
    if clafer as usize >= clafers.len() {
        return Ok(None);
    }
    let here = clafers.get(clafer as usize);
    let Some(parent) = here.parent else {
        return Ok(None);
    };
    let next = turn_of(&tour.enter, parent);
    if next < turn {
        return Ok(None);
    }
    let name = here.title.name.as_slice();
    let left = kept_turn(last, name);
    mark_if(marks, clafer, next <= left);
    last.insert(name, u32::max(left, turn_of(&tour.leave, parent)))?;
    Ok(Some(next))
}

// Visits all in the order; no marks where the order isn't that of the turns.
fn marks_of(alloc: Global, clafers: &List<Clafer>, tour: &Tour) -> Result<Vec<bool>, NoMemory>
    ensures { IfOk result (λ marks. AllApart clafers.now tour.now.enter.items tour.now.leave.items tour.now.order marks.items) }
{
    let mut marks = vec![in alloc; false; clafers.len()]?;
    let mut last = HashMap::new(alloc);
    let mut turn = 0;
    for index in 0..tour.order.len() {
        let clafer = *tour.order.get(index);
        match visit(clafers, tour, &mut last, &mut marks, turn, clafer)? {
            Some(next) => turn = next,
            None => {
                let none = Vec::new(alloc);
                return Ok(none);
            }
        }
    }
    Ok(marks)
}

#[tactic(auto, using(crate::proofs::Parting::no_marks))]
/// Marks on at least all children that have the name of an inherited one. It is linear in the clafers and near linear in the length
/// of their names.
pub fn repeat_marks(alloc: Global, clafers: &List<Clafer>) -> Result<Vec<bool>, NoMemory>
    requires few { length clafers.now < 2 ^ 32 }
    ensures { IfOk result (λ marks. MarkRepeats clafers.now marks.items) }
{
    let tour = walk_supers(alloc, clafers)?;
    if !is_tour(clafers, &tour) {
        let none = Vec::new(alloc);
        return Ok(none);
    }
    let marks = marks_of(alloc, clafers, &tour)?;
    Ok(marks)
}
