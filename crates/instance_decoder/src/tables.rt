//! What the true bits say of each slot, in one pass over the edges and one over the integers.

ghost use Rattle.std.specs.Prelude.{◌≡◌, ◌++◌, [], ◌∷◌, ◌≤◌, List as Seq, All, IfOk, length, vec_len};
ghost use Rattle.set_bits.specs.declared.layout.Edge.{Edge as AnEdge};
ghost use Rattle.set_bits.specs.declared.layout.SlotBits.{SlotBits as SomeBits};
ghost use Rattle.set_bits.specs.Showing.{value_bits};
ghost use Rattle.instance_decoder.specs.Tables.{HoldsEnds, HoldsIntegers};

use crate::integers::{bit, integer_of};
use clf_base::{List, NoMemory};
use set_bits::{Edge, SlotBits};
use std::alloc::Global;

// Writes the end of a taken edge, where none stands yet.
#[tactic(auto, using(crate::proofs::Noting::end_outside, crate::proofs::Noting::end_kept, crate::proofs::Noting::end_false, crate::proofs::Noting::end_new))]
fn note_end(bits: &[bool], table: &mut Vec<Option<u32>>, edge: Edge)
    ensures len { vec_len table.new ≡ vec_len table.old }
    ensures noted { (edges : Seq AnEdge) → HoldsEnds bits.now edges table.old.items → HoldsEnds bits.now (edges ++ edge ∷ []) table.new.items }
{
    let from = edge.from as usize;
    if from >= table.len() {
        return;
    }
    if table[from].is_some() {
        return;
    }
    if bit(bits, edge.here) {
        table[from] = Some(edge.to);
    }
}

/// The slot to which the first taken edge of each slot leads.
#[tactic(auto, using(crate::proofs::Noting::no_ends))]
pub(crate) fn ends(
    alloc: Global,
    bits: &[bool],
    edges: &List<Edge>,
    count: usize,
) -> Result<Vec<Option<u32>>, NoMemory>
    ensures { IfOk result (λ table. (vec_len table ≡ count) × HoldsEnds bits.now edges.now table.items) }
{
    let mut table = vec![in alloc; None; count]?;
    for edge in edges.as_slice() {
        note_end(bits, &mut table, *edge);
    }
    Ok(table)
}

// Writes the integer of a slot, where none stands yet.
#[tactic(auto, using(crate::proofs::Noting::integer_outside, crate::proofs::Noting::integer_kept, crate::proofs::Noting::integer_new))]
fn note_integer(bits: &[bool], table: &mut Vec<Option<i64>>, value: &SlotBits)
    requires { length value.now.bits ≤ 64 }
    ensures len { vec_len table.new ≡ vec_len table.old }
    ensures noted { (values : Seq SomeBits) → HoldsIntegers bits.now values table.old.items → HoldsIntegers bits.now (values ++ value.now ∷ []) table.new.items }
{
    let slot = value.slot as usize;
    if slot >= table.len() {
        return;
    }
    if table[slot].is_none() {
        table[slot] = Some(integer_of(bits, value.bits.as_slice()));
    }
}

/// The integer of each slot that has value bits.
#[tactic(auto, using(crate::proofs::Noting::no_integers))]
pub(crate) fn integers(
    alloc: Global,
    bits: &[bool],
    values: &List<SlotBits>,
    count: usize,
) -> Result<Vec<Option<i64>>, NoMemory>
    requires { All (λ v. length v.bits ≤ 64) values.now }
    ensures { IfOk result (λ table. (vec_len table ≡ count) × HoldsIntegers bits.now values.now table.items) }
{
    let mut table = vec![in alloc; None; count]?;
    for at in 0..values.len() {
        note_integer(bits, &mut table, values.get(at));
    }
    Ok(table)
}
