//! Sets and numbers as parts with integers.

ghost use Rattle.std.specs.Prelude.{◌≡◌, [], ◌∷◌, ◌++◌, ◌+◌, ◌<◌, ◌≤◌, Bool, length, map, IfOk, OnOk, List as Items};
ghost use Rattle.std.specs.Option.{option_map};
ghost use Rattle.std.specs.List.{find, flat_map};
ghost use Rattle.bool_circuit.specs.Circuit.{IsWireOf, AreWiresOf, Extends};
ghost use Rattle.bool_circuit.specs.declared.circuit.TheConstants.{MOST_WIRES};
ghost use Rattle.integer_bits.specs.Numbers.{integer_at};
ghost use Rattle.integer_bits.specs.Totals.{ArePartsOf};
ghost use Rattle.clf_tree.specs.CoreWeights.{range_width};
ghost use Rattle.set_bits.specs.Sets.{is_in, IsSetOf};
ghost use Rattle.shown_instance.specs.Shown.{is_at};
ghost use Rattle.shape_encoder.specs.Reading.{IsLaid};
ghost use Rattle.told_constraints.specs.Told.{members, slot_integer};
ghost use Rattle.node_encoder.specs.Listing.{AreBelow};
ghost use Rattle.number_encoder.specs.Values.{present_values, widest, part_for, summand_for};

use bool_circuit::{Circuit, MOST_WIRES, Wire};
use clf_base::{List, NoMemory};
use integer_bits::Part;
use node_encoder::Ground;
use set_bits::Member;
use std::alloc::Global;

/// The members of a set, each with the wires of its slot's integer; the integer of a slot that has none is 0.
///
/// It adds one wire at most, and takes time and memory for the wires of all the integers.
pub fn parts_of(
    alloc: Global,
    circuit: &mut Circuit,
    ground: &Ground<'_>,
    set: &List<Member>,
) -> Result<List<Part>, NoMemory>
    requires set { IsSetOf circuit.old set.now }
    requires laid { IsLaid circuit.old ground.now.layout.now }
    requires room { length circuit.old + 1 ≤ MOST_WIRES }
    ensures parts { IfOk result (ArePartsOf circuit.new) }
    ensures narrow { IfOk result (λ r. widest r ≤ range_width ground.now.scopes.now) }
    ensures few { IfOk result (λ r. length r ≡ length set.now) }
    ensures values { let layout = ground.now.layout.now in
        IfOk result (λ r. (bits : Items Bool) → AreBelow (length layout.slots) set.now
        → present_values circuit.new r bits ≡ map (slot_integer layout bits) (members layout (λ s. is_in circuit.old set.now s bits))) }
    ensures extends { Extends circuit.old circuit.new 1 }
{
    let none = circuit.constant(false)?;
    let parts = parts_with(alloc, ground, none, set)?;
    Ok(parts)
}

/// A number as one part that is there at all bits. It adds one wire at most.
pub fn part_of(
    alloc: Global,
    circuit: &mut Circuit,
    number: List<Wire>,
) -> Result<List<Part>, NoMemory>
    requires number_in { AreWiresOf circuit.old number }
    requires number_some { 0 < length number }
    requires room { length circuit.old + 1 ≤ MOST_WIRES }
    ensures parts { IfOk result (ArePartsOf circuit.new) }
    ensures narrow { IfOk result (λ r. widest r ≤ length number) }
    ensures few { IfOk result (λ r. length r ≡ 1) }
    ensures values { IfOk result (λ r. (bits : Items Bool) → present_values circuit.new r bits ≡ integer_at circuit.old number bits ∷ []) }
    ensures extends { Extends circuit.old circuit.new 1 }
{
    let here = circuit.constant(true)?;
    let mut parts = List::new(alloc);
    parts.push(Part { here, bits: number })?;
    Ok(parts)
}

// The members with the wires of their slots' integers, or with the wire `none` where there are none.
fn parts_with(
    alloc: Global,
    ground: &Ground<'_>,
    none: Wire,
    set: &List<Member>,
) -> Result<List<Part>, NoMemory>
    ensures { IfOk result (λ r. r ≡ map (part_for ground.now.layout.now none) set.now) }
{
    let mut parts = List::new(alloc);
    for at in 0..set.len() {
        let member = *set.get(at);
        let part = part_at(alloc, ground, none, member)?;
        parts.push(part)?;
    }
    Ok(parts)
}

// A member with the wires of its slot's integer, or with the wire `none` alone.
fn part_at(alloc: Global, ground: &Ground<'_>, none: Wire, member: Member) -> Result<Part, NoMemory>
    ensures { IfOk result (λ p. p ≡ part_for ground.now.layout.now none member) }
{
    match integer_wires(alloc, ground, member.slot)? {
        Some(bits) => Ok(Part {
            here: member.here,
            bits,
        }),
        None => {
            let mut bits = List::new(alloc);
            bits.push(none)?;
            Ok(Part {
                here: member.here,
                bits,
            })
        }
    }
}

// The members of a set whose slots have integers, each with the wires of its own. It makes no wire.
pub(crate) fn summands_of(
    alloc: Global,
    ground: &Ground<'_>,
    set: &List<Member>,
) -> Result<List<Part>, NoMemory>
    ensures { IfOk result (λ r. r ≡ flat_map (summand_for ground.now.layout.now) set.now) }
{
    let mut parts = List::new(alloc);
    for at in 0..set.len() {
        let member = *set.get(at);
        push_summand(alloc, ground, member, &mut parts)?;
    }
    Ok(parts)
}

// Adds a member with the wires of its slot's integer, if it has one.
fn push_summand(
    alloc: Global,
    ground: &Ground<'_>,
    member: Member,
    parts: &mut List<Part>,
) -> Result<(), NoMemory>
    ensures { OnOk result (parts.new ≡ parts.old ++ summand_for ground.now.layout.now member) }
{
    match integer_wires(alloc, ground, member.slot)? {
        Some(bits) => {
            parts.push(Part {
                here: member.here,
                bits,
            })?;
            Ok(())
        }
        None => Ok(()),
    }
}

// The wires of a slot's integer, if it has one.
fn integer_wires(
    alloc: Global,
    ground: &Ground<'_>,
    slot: u32,
) -> Result<Option<List<Wire>>, NoMemory>
    ensures { IfOk result (λ o. o ≡ option_map (λ v. v.bits) (find (is_at slot) ground.now.layout.now.values)) }
{
    let Some(Some(place)) = ground.integers.as_slice().get(slot as usize) else {
        return Ok(None);
    };
    let Some(value) = ground.layout.values.as_slice().get(*place) else {
        return Ok(None);
    };
    let bits = value.bits.copy(alloc)?;
    Ok(Some(bits))
}
