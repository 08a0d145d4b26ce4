//! The tuples of a set's members, each with a wire that is true where all its slots are in the set.
ghost use Rattle.std.specs.Prelude.{◌≡◌, ◌+◌, ◌*◌, ◌^◌, ◌<◌, ◌≤◌, ◌++◌, ◌∷◌, [], ◌&&◌};
ghost use Rattle.std.specs.Prelude.{Bool, List as Items, All, length, map, slice_get, Some, IfOk, OnOk};
ghost use Rattle.std.specs.List.{flat_map};
ghost use Rattle.bool_circuit.specs.Circuit.{wire_value, IsWireOf, Extends};
ghost use Rattle.bool_circuit.specs.declared.circuit.TheConstants.{MOST_WIRES};
ghost use Rattle.set_bits.specs.declared.sets.Member.{Member as AMember};
ghost use Rattle.set_bits.specs.Sets.{IsSetOf};
ghost use Rattle.quantifier_encoder.specs.Tuples.{AreTuples, IsGuarded, slots_of, slots_each, longer_tuples, may_follow};

use bool_circuit::{Circuit, MOST_WIRES, Wire};
use clf_base::{List, NoMemory};
use set_bits::Member;
use std::alloc::Global;

/// A tuple of slots, and a wire that is true where each of them is in the set.
#[derive(Debug, Drop)]
pub struct Tuple {
    pub slots: List<u32>,
    pub present: Wire,
}

/// The tuples of so many members, in order; with `disj` those of different slots. A wire for each tuple of up to that length at most, and a
/// constant: a tuple begins as one that is one slot shorter, and shares its wire. The time grows with the number of these tuples and with
/// their length.
pub fn tuples_of(
    alloc: Global,
    circuit: &mut Circuit,
    set: &List<Member>,
    disj: bool,
    names: usize,
) -> Result<List<Tuple>, NoMemory>
    requires set { IsSetOf circuit.old set.now }
    requires room { length circuit.old + (names * length set.now ^ names + 1) ≤ MOST_WIRES }
    ensures tuples { IfOk result (AreTuples circuit.new circuit.old set.now disj names) }
    ensures few { IfOk result (λ r. length r ≤ length set.now ^ names) }
    ensures extends { Extends circuit.old circuit.new (names * length set.now ^ names + 1) }
{
    let mut tuples = empty_tuple(alloc, circuit)?;
    for _round in 0..names {
        let longer = longer_by_one(alloc, circuit, &tuples, set, disj)?;
        tuples = longer;
    }
    Ok(tuples)
}

// The tuple of no slot, which is always there.
fn empty_tuple(alloc: Global, circuit: &mut Circuit) -> Result<List<Tuple>, NoMemory>
    requires { length circuit.old + 1 ≤ MOST_WIRES }
    ensures slots { IfOk result (λ r. slots_each r ≡ [] ∷ []) }
    ensures guarded { IfOk result (λ r. (set : Items AMember) → All (IsGuarded circuit.new set) r) }
    ensures extends { Extends circuit.old circuit.new 1 }
{
    let present = circuit.constant(true)?;
    let mut tuples = List::new(alloc);
    tuples.push(Tuple {
        slots: List::new(alloc),
        present,
    })?;
    Ok(tuples)
}

// Each tuple with each member behind it that may come there.
fn longer_by_one(
    alloc: Global,
    circuit: &mut Circuit,
    tuples: &List<Tuple>,
    set: &List<Member>,
    disj: bool,
) -> Result<List<Tuple>, NoMemory>
    requires set { IsSetOf circuit.old set.now }
    requires tuples_in { All (IsGuarded circuit.old set.now) tuples.now }
    requires room { length circuit.old + length tuples.now * length set.now ≤ MOST_WIRES }
    ensures guarded { IfOk result (All (IsGuarded circuit.new set.now)) }
    ensures slots { IfOk result (λ r. slots_each r ≡ flat_map (longer_tuples disj (slots_of set.now)) (slots_each tuples.now)) }
    ensures extends { Extends circuit.old circuit.new (length tuples.now * length set.now) }
{
    let mut longer = List::new(alloc);
    for at in 0..tuples.len() {
        push_longer(alloc, circuit, tuples.get(at), set, disj, &mut longer)?;
    }
    Ok(longer)
}

// Puts the tuple with each member behind it that may come there at the end of the longer tuples.
fn push_longer(
    alloc: Global,
    circuit: &mut Circuit,
    tuple: &Tuple,
    set: &List<Member>,
    disj: bool,
    longer: &mut List<Tuple>,
) -> Result<(), NoMemory>
    requires set { IsSetOf circuit.old set.now }
    requires tuple_in { IsGuarded circuit.old set.now tuple.now }
    requires longer_in { All (IsGuarded circuit.old set.now) longer.old }
    requires room { length circuit.old + length set.now ≤ MOST_WIRES }
    ensures guarded { OnOk result (All (IsGuarded circuit.new set.now) longer.new) }
    ensures slots { OnOk result (slots_each longer.new ≡ slots_each longer.old ++ longer_tuples disj (slots_of set.now) tuple.now.slots) }
    ensures extends { Extends circuit.old circuit.new (length set.now) }
{
    for at in 0..set.len() {
        push_with(alloc, circuit, tuple, set, at, disj, longer)?;
    }
    Ok(())
}

// Puts the tuple with one member behind it, if that may come there, at the end of the longer tuples.
fn push_with(
    alloc: Global,
    circuit: &mut Circuit,
    tuple: &Tuple,
    set: &List<Member>,
    at: usize,
    disj: bool,
    longer: &mut List<Tuple>,
) -> Result<(), NoMemory>
    requires set { IsSetOf circuit.old set.now }
    requires at { at < length set.now }
    requires tuple_in { IsGuarded circuit.old set.now tuple.now }
    requires longer_in { All (IsGuarded circuit.old set.now) longer.old }
    requires room { length circuit.old + 1 ≤ MOST_WIRES }
    ensures guarded { OnOk result (All (IsGuarded circuit.new set.now) longer.new) }
    ensures slots { OnOk result ((m : AMember) →
        slice_get set.now at ≡ Some m → slots_each longer.new ≡ slots_each longer.old ++ longer_tuples disj (m.slot ∷ []) tuple.now.slots) }
    ensures extends { Extends circuit.old circuit.new 1 }
{
    let member = *set.get(at);
    if !may_follow(tuple, member.slot, disj) {
        return Ok(());
    }
    let next = with_member(alloc, circuit, tuple, member)?;
    longer.push(next)?;
    Ok(())
}

// Whether a slot may come behind a tuple: with `disj` only one that it doesn't have.
fn may_follow(tuple: &Tuple, slot: u32, disj: bool) -> bool
    ensures { result ≡ may_follow disj tuple.now.slots slot }
{
    if !disj {
        return true;
    }
    let has = tuple.slots.as_slice().contains(&slot);
    !has
}

// The tuple with a member's slot behind it, which is there where both are.
fn with_member(
    alloc: Global,
    circuit: &mut Circuit,
    tuple: &Tuple,
    member: Member,
) -> Result<Tuple, NoMemory>
    requires tuple_in { IsWireOf circuit.old tuple.now.present }
    requires member_in { IsWireOf circuit.old member.here }
    requires room { length circuit.old + 1 ≤ MOST_WIRES }
    ensures slots { IfOk result (λ r. r.slots ≡ tuple.now.slots ++ member.slot ∷ []) }
    ensures wire { IfOk result (λ r. IsWireOf circuit.new r.present) }
    ensures value { IfOk result (λ r. (bits : Items Bool) →
        wire_value circuit.new r.present bits
        ≡ (wire_value circuit.old tuple.now.present bits && wire_value circuit.old member.here bits)) }
    ensures extends { Extends circuit.old circuit.new 1 }
{
    let mut slots = tuple.slots.copy(alloc)?;
    slots.push(member.slot)?;
    let present = circuit.and(tuple.present, member.here)?;
    Ok(Tuple { slots, present })
}
