//! Whether the live slots are those of a canonical instance.

ghost use Rattle.std.specs.Prelude.{◌≡◌, ◌+◌, ◌*◌, ◌<◌, ◌≤◌, ◌&&◌, Bool, not, length, IfOk, IsTrue, List as Items};
ghost use Rattle.bool_circuit.specs.Circuit.{wire_value, IsWireOf, Extends};
ghost use Rattle.bool_circuit.specs.declared.circuit.TheConstants.{MOST_WIRES};
ghost use Rattle.clf_tree.specs.declared.instance.Entry.{Entry};
ghost use Rattle.clf_tree.specs.Named.{each, contains_itself};
ghost use Rattle.clf_tree.specs.Nodes.{is_tree};
ghost use Rattle.clf_tree.specs.Shape.{has_shape};
ghost use Rattle.set_bits.specs.Showing.{Shows};
ghost use Rattle.shape_encoder.specs.Reading.{IsLaid};
ghost use Rattle.canonical_instances.specs.Canonical.{is_canonical};
ghost use Rattle.canonical_encoder.specs.Slots.{begins_no_later, edges_of, follows_slot, are_canonical, canonical_cost};

use crate::laws::canonical_slots_show_canonical_instances;
use crate::parents::{and_implied, and_no_later};
use bool_circuit::{Circuit, MOST_WIRES, Wire};
use clf_base::NoMemory;
use node_encoder::Ground;

// True where `all` is and the parent of a slot is no later than that of the slot behind it.
fn and_parents(
    circuit: &mut Circuit,
    ground: &Ground<'_>,
    slot: usize,
    all: Wire,
) -> Result<Wire, NoMemory>
    requires laid { IsLaid circuit.old ground.now.layout.now }
    requires slot_in { slot + 1 < length ground.now.layout.now.slots }
    requires all_in { IsWireOf circuit.old all }
    requires room { length circuit.old + 5 * length (edges_of ground.now.layout.now slot) ≤ MOST_WIRES }
    ensures wire { IfOk result (IsWireOf circuit.new) }
    ensures value { IfOk result (λ w. (bits : Items Bool) → wire_value circuit.new w bits
        ≡ (wire_value circuit.old all bits
        && begins_no_later (edges_of ground.now.layout.now slot) (edges_of ground.now.layout.now (slot + 1)) bits)) }
    ensures extends { Extends circuit.old circuit.new (5 * length (edges_of ground.now.layout.now slot)) }
{
    let behind = slot + 1;
    // the table may end before the last slots, which have no edges then
    if behind >= ground.parents.len() {
        return Ok(all);
    }
    let earlier = &ground.parents[slot];
    let later = &ground.parents[behind];
    let right = and_no_later(circuit, earlier, later, all)?;
    Ok(right)
}

// True where `all` is and the slot behind a slot is as it has to be.
fn and_follows(
    circuit: &mut Circuit,
    ground: &Ground<'_>,
    slot: usize,
    all: Wire,
) -> Result<Wire, NoMemory>
    requires acyclic { IsTrue (each ground.now.core.now.clafers (λ c. not (contains_itself ground.now.core.now.clafers c))) }
    requires laid { IsLaid circuit.old ground.now.layout.now }
    requires slot_in { slot + 1 < length ground.now.layout.now.slots }
    requires all_in { IsWireOf circuit.old all }
    requires room { length circuit.old + (5 * length (edges_of ground.now.layout.now slot) + 3) ≤ MOST_WIRES }
    ensures wire { IfOk result (IsWireOf circuit.new) }
    ensures value { IfOk result (λ w. (bits : Items Bool) → wire_value circuit.new w bits
        ≡ (wire_value circuit.old all bits && follows_slot ground.now.core.now.clafers ground.now.layout.now bits slot)) }
    ensures extends { Extends circuit.old circuit.new (5 * length (edges_of ground.now.layout.now slot) + 3) }
{
    let layout = ground.layout;
    let behind = slot + 1;
    if layout.slots.get(slot).clafer != layout.slots.get(behind).clafer {
        return Ok(all);
    }
    let here = *layout.live.get(slot);
    let next = *layout.live.get(behind);
    let live = and_implied(circuit, all, next, here)?;
    let right = and_parents(circuit, ground, slot, live)?;
    Ok(right)
}

/// A wire that is true exactly where `structure` is and the live slots are those of a canonical instance; so where `structure` says that
/// bits show a tree of the right shape, exactly where this is canonical.
///
/// The time and the wires grow with the edges to parents and with the slots: five wires an edge and three a slot at most.
pub fn canonical(
    circuit: &mut Circuit,
    ground: &Ground<'_>,
    structure: Wire,
) -> Result<Wire, NoMemory>
    requires acyclic { IsTrue (each ground.now.core.now.clafers (λ c. not (contains_itself ground.now.core.now.clafers c))) }
    requires laid { IsLaid circuit.old ground.now.layout.now }
    requires structure_in { IsWireOf circuit.old structure }
    requires room { length circuit.old + canonical_cost ground.now.layout.now ≤ MOST_WIRES }
    ensures wire { IfOk result (IsWireOf circuit.new) }
    ensures value { IfOk result (λ w. (bits : Items Bool) → wire_value circuit.new w bits
        ≡ (wire_value circuit.old structure bits && are_canonical ground.now.core.now.clafers ground.now.layout.now bits)) }
    ensures canonical { IfOk result (λ w. (bits : Items Bool) (entries : Items Entry)
        → Shows ground.now.core.now.clafers ground.now.scopes.now ground.now.layout.now bits entries
        → IsTrue (is_tree ground.now.core.now.clafers entries)
        → IsTrue (has_shape ground.now.core.now.clafers ground.now.scopes.now entries)
        → wire_value circuit.new w bits ≡ (wire_value circuit.old structure bits && is_canonical ground.now.core.now.clafers entries)) }
    ensures extends { Extends circuit.old circuit.new (canonical_cost ground.now.layout.now) }
{
    canonical_slots_show_canonical_instances();
    let mut all = structure;
    for slot in 0..ground.layout.slots.len().saturating_sub(1) {
        all = and_follows(circuit, ground, slot, all)?;
    }
    Ok(all)
}
