//! The sets of a bound node and of all nodes of some clafers.

ghost use Rattle.std.specs.Prelude.{◌≡◌, ◌+◌, ◌≤◌, ℕ, Bool, false, ◌&&◌, IfOk};
ghost use Rattle.std.specs.Prelude.{OnOk, ◌++◌, IsTrue, length, nat_eq, nat_lt, slice_get, List as Items};
ghost use Rattle.std.specs.List.{flat_map};
ghost use Rattle.std.specs.Option.{option_map_or};
ghost use Rattle.bool_circuit.specs.declared.gate.Gate.{Gate};
ghost use Rattle.bool_circuit.specs.declared.circuit.TheConstants.{MOST_WIRES};
ghost use Rattle.bool_circuit.specs.Circuit.{Extends};
ghost use Rattle.clf_tree.specs.Lists.{each_two};
ghost use Rattle.set_bits.specs.Sets.{is_in, IsSetOf};
ghost use Rattle.shown_instance.specs.Shown.{is_live};
ghost use Rattle.shape_encoder.specs.Reading.{IsLaid};
ghost use Rattle.told_constraints.specs.Told.{is_listed};
ghost use Rattle.node_encoder.specs.Listing.{AreListed};
ghost use Rattle.node_encoder.specs.Leaves.{own_members, members_of, IsOneSlot};

use crate::ground::Ground;
use crate::listing::is_listed;
use bool_circuit::{Circuit, MOST_WIRES, Wire};
use clf_base::{List, NoMemory};
use set_bits::{Layout, Member};
use std::alloc::Global;

// One slot, on the constant true.
fn one_slot(alloc: Global, circuit: &mut Circuit, slot: u32) -> Result<List<Member>, NoMemory>
    requires room { length circuit.old + 1 ≤ MOST_WIRES }
    ensures one { IfOk result (IsOneSlot circuit.new slot) }
    ensures extends { Extends circuit.old circuit.new 1 }
{
    let here = circuit.constant(true)?;
    let mut set = List::new(alloc);
    set.push(Member { slot, here })?;
    Ok(set)
}

/// The slot of a bound node, if it is of the clafers: one member on the constant true, so that what is made of it takes few gates.
pub fn bound_node(
    alloc: Global,
    circuit: &mut Circuit,
    ground: &Ground<'_>,
    ks: &[u32],
    slot: Option<u32>,
) -> Result<List<Member>, NoMemory>
    requires room { length circuit.old + 1 ≤ MOST_WIRES }
    ensures set { IfOk result (IsSetOf circuit.new) }
    ensures listed { IfOk result (AreListed ground.now.layout.now ks.now) }
    ensures value { IfOk result (λ r. (bits : Items Bool) (s : ℕ) →
        is_in circuit.new r s bits ≡ (is_listed ground.now.layout.now ks.now s && option_map_or (nat_eq s) slot false)) }
    ensures extends { Extends circuit.old circuit.new 1 }
{
    match slot {
        Some(slot) if is_listed(ground.layout, ks, slot) => one_slot(alloc, circuit, slot),
        _ => Ok(List::new(alloc)),
    }
}

// The wire of a slot.
fn own_wire(layout: &Layout, slot: u32) -> Option<Wire>
    ensures { result ≡ slice_get layout.now.live slot }
{
    match layout.live.as_slice().get(slot as usize) {
        Some(here) => Some(*here),
        None => None,
    }
}

// Adds a slot on its own wire.
fn push_slot(layout: &Layout, slot: u32, set: &mut List<Member>) -> Result<(), NoMemory>
    ensures { OnOk result (set.new ≡ set.old ++ own_members layout.now slot) }
{
    match own_wire(layout, slot) {
        Some(here) => {
            set.push(Member { slot, here })?;
            Ok(())
        }
        None => Ok(()),
    }
}

// Adds slots on their own wires.
fn push_slots(layout: &Layout, slots: &List<u32>, set: &mut List<Member>) -> Result<(), NoMemory>
    ensures { OnOk result (set.new ≡ set.old ++ flat_map (own_members layout.now) slots.now) }
{
    for at in 0..slots.len() {
        let slot = *slots.get(at);
        push_slot(layout, slot, set)?;
    }
    Ok(())
}

// Adds the slots of a clafer on their own wires.
fn push_clafer(ground: &Ground<'_>, clafer: u32, set: &mut List<Member>) -> Result<(), NoMemory>
    ensures { OnOk result (set.new ≡ set.old ++ members_of ground.now.layout.now clafer) }
{
    match ground.instances.get(clafer as usize) {
        Some(slots) => push_slots(ground.layout, slots, set),
        None => Ok(()),
    }
}

// The slots of some clafers on their own wires.
fn members_of(alloc: Global, ground: &Ground<'_>, ks: &[u32]) -> Result<List<Member>, NoMemory>
    ensures { IfOk result (λ r. r ≡ flat_map (members_of ground.now.layout.now) ks.now) }
{
    let mut set = List::new(alloc);
    for at in 0..ks.len() {
        push_clafer(ground, ks[at], &mut set)?;
    }
    Ok(set)
}

/// All nodes of the clafers, which ascend: their slots on their own wires, so that no wire is added. The time grows with the number of
/// slots of those clafers.
pub fn every(alloc: Global, ground: &Ground<'_>, ks: &[u32]) -> Result<List<Member>, NoMemory>
    requires { IsTrue (each_two nat_lt ks.now) }
    ensures set { IfOk result (λ r. (gates : Items Gate) → IsLaid gates ground.now.layout.now → IsSetOf gates r) }
    ensures listed { IfOk result (AreListed ground.now.layout.now ks.now) }
    ensures value { IfOk result (λ r. (gates : Items Gate) → IsLaid gates ground.now.layout.now → (bits : Items Bool) (s : ℕ) →
        is_in gates r s bits ≡ (is_listed ground.now.layout.now ks.now s && is_live ground.now.layout.now bits s)) }
{
    let set = members_of(alloc, ground, ks)?;
    Ok(set)
}
