//! The slots of each clafer.

ghost use Rattle.std.specs.Prelude.{◌≡◌, ◌<◌, ◌++◌, ◌∷◌, [], ℕ, length, replicate, IfOk, OnOk, if◌then◌else◌, nat_eq, slice_index_or, List as Items};
ghost use Rattle.shape_encoder.specs.Comparing.{HoldsKin};

use clf_base::{List, NoMemory};
use set_bits::Layout;
use std::alloc::Global;

// As many empty lists.
fn empty_lists(alloc: Global, count: usize) -> Result<Vec<List<usize>>, NoMemory>
    ensures { IfOk result (λ lists. lists.items ≡ replicate count []) }
{
    let mut lists = Vec::new(alloc);
    for _made in 0..count {
        lists.push(List::new(alloc))?;
    }
    Ok(lists)
}

// Adds a slot to those of a clafer.
#[tactic(auto, using(crate::proofs::Grouped::adding))]
fn add_slot(table: &mut Vec<List<usize>>, clafer: usize, slot: usize) -> Result<(), NoMemory>
    ensures len { OnOk result (length table.new.items ≡ length table.old.items) }
    ensures at { OnOk result ((c : ℕ) → c < length table.old.items → slice_index_or table.new.items c [] ≡ slice_index_or table.old.items c [] ++ (if nat_eq clafer c then slot ∷ [] else [])) }
{
    if clafer < table.len() {
        table[clafer].push(slot)?;
    }
    Ok(())
}

/// The slots of each of the first clafers, in order.
pub(crate) fn slots_of_clafers(
    alloc: Global,
    layout: &Layout,
    count: usize,
) -> Result<Vec<List<usize>>, NoMemory>
    ensures { IfOk result (λ table. HoldsKin layout.now (length layout.now.slots) count table.items) }
{
    let mut table = empty_lists(alloc, count)?;
    for slot in 0..layout.slots.len() {
        let clafer = layout.slots.get(slot).clafer;
        add_slot(&mut table, clafer as usize, slot)?;
    }
    Ok(table)
}
