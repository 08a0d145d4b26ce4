//! The inputs for the integers to which nodes refer.

ghost use Rattle.std.specs.Prelude.{◌≡◌, ◌+◌, ◌*◌, ◌<◌, ◌≤◌, ◌^◌, length, IfOk, OnOk};
ghost use Rattle.clf_tree.specs.Hierarchy.{refers_to_int};
ghost use Rattle.set_bits.specs.Fitting.{IsRead};
ghost use Rattle.instance_encoder.specs.Wiring.{IsValuedSoFar};
ghost use Rattle.bool_circuit.specs.declared.circuit.TheConstants.{MOST_WIRES};

use crate::inputs::inputs;
use bool_circuit::{Circuit, MOST_WIRES};
use clf_base::{List, NoMemory};
use clf_tree::{Clafer, Node, reference_of};
use set_bits::SlotBits;
use std::alloc::Global;

fn refers_to_int(clafers: &List<Clafer>, clafer: u32) -> bool
    ensures { result ≡ refers_to_int clafers.now clafer }
{
    match reference_of(clafers, clafer) {
        Some(reference) => reference.to.is_none(),
        None => false,
    }
}

/// So many inputs for each slot whose clafer refers to integers, slot by slot.
pub(crate) fn values(
    alloc: Global,
    circuit: &mut Circuit,
    clafers: &List<Clafer>,
    slots: &List<Node>,
    bits: u32,
) -> Result<List<SlotBits>, NoMemory>
    requires few { length slots.now ≤ 2048 }
    requires read { IsRead circuit.old (length circuit.old) }
    requires room { length circuit.old + length slots.now * bits ≤ MOST_WIRES }
    ensures valued { IfOk result (IsValuedSoFar clafers.now slots.now (length circuit.old) bits (length slots.now) circuit.new) }
    ensures few { length circuit.new ≤ length circuit.old + length slots.now * bits }
{
    let mut values = List::new(alloc);
    for slot in 0..slots.len() {
        if refers_to_int(clafers, slots.get(slot).clafer) {
            let wires = inputs(alloc, circuit, bits as usize)?;
            values.push(SlotBits {
                slot: slot as u32,
                bits: wires,
            })?;
        }
    }
    Ok(values)
}
