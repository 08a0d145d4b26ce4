//! The tables by slot.

ghost use Rattle.std.specs.Prelude.{◌≡◌, ◌++◌, [], ◌∷◌, List as Seq, IfOk, OnOk, replicate, vec_len};
ghost use Rattle.clf_tree.specs.declared.instance.Entry.{Entry};
ghost use Rattle.instance_tables.specs.Tables.{HoldsEntries, HoldsChildren};

use crate::slots::Slots;
use clf_base::{List, NoMemory};
use clf_tree::{Entry, Node};
use std::alloc::Global;

/// Writes an entry at its slot, where none stands yet.
#[tactic(auto, using(crate::proofs::Placing::place_steps))]
fn place(slots: &Slots, places: &mut Vec<Option<Entry>>, entry: Entry)
    requires { vec_len places.old ≡ slots.now.count }
    ensures len { vec_len places.new ≡ slots.now.count }
    ensures placed { (entries : Seq Entry) → HoldsEntries slots.now.scopes entries places.old.items → HoldsEntries slots.now.scopes (entries ++ entry ∷ []) places.new.items }
{
    if let Some(slot) = slots.of(entry.node) {
        if places[slot].is_none() {
            places[slot] = Some(entry);
        }
    }
}

/// The entry of each node, at the node's slot.
pub(crate) fn entry_places(
    alloc: Global,
    slots: &Slots,
    entries: &List<Entry>,
) -> Result<Vec<Option<Entry>>, NoMemory>
    ensures { IfOk result (λ places. (vec_len places ≡ slots.now.count) × HoldsEntries slots.now.scopes entries.now places.items) }
{
    let mut places = vec![in alloc; None; slots.count as usize]?;
    for entry in entries.as_slice() {
        place(slots, &mut places, *entry);
    }
    Ok(places)
}

/// Adds an entry's node to the children of its parent.
#[tactic(auto, using(crate::proofs::Placing::child_steps))]
fn add_child(slots: &Slots, below: &mut Vec<List<Node>>, entry: Entry) -> Result<(), NoMemory>
    requires { vec_len below.old ≡ slots.now.count }
    ensures len { vec_len below.new ≡ slots.now.count }
    ensures added { OnOk result ((entries : Seq Entry) → HoldsChildren slots.now.scopes entries below.old.items → HoldsChildren slots.now.scopes (entries ++ entry ∷ []) below.new.items) }
{
    if let Some(parent) = entry.parent {
        if let Some(slot) = slots.of(parent) {
            below[slot].push(entry.node)?;
        }
    }
    Ok(())
}

fn empty_lists(alloc: Global, count: u32) -> Result<Vec<List<Node>>, NoMemory>
    ensures { IfOk result (λ lists. lists.items ≡ replicate count []) }
{
    let mut lists = Vec::new(alloc);
    for _made in 0..count {
        lists.push(List::new(alloc))?;
    }
    Ok(lists)
}

/// The children of each node, at the node's slot.
pub(crate) fn child_places(
    alloc: Global,
    slots: &Slots,
    entries: &List<Entry>,
) -> Result<Vec<List<Node>>, NoMemory>
    ensures { IfOk result (λ below. (vec_len below ≡ slots.now.count) × HoldsChildren slots.now.scopes entries.now below.items) }
{
    let mut below = empty_lists(alloc, slots.count)?;
    for entry in entries.as_slice() {
        add_child(slots, &mut below, *entry)?;
    }
    Ok(below)
}
