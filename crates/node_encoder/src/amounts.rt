//! How many slots a set has, against 0 or 1.

ghost use Rattle.std.specs.Prelude.{◌≡◌, ◌+◌, ◌*◌, ◌≤◌, ℕ, Bool, IfOk, length, map, ◌<◌, ◌==◌, nat_le, List as Items};
ghost use Rattle.std.specs.List.{filter};
ghost use Rattle.bool_circuit.specs.declared.circuit.TheConstants.{MOST_WIRES};
ghost use Rattle.bool_circuit.specs.Circuit.{wire_value, IsWireOf, Extends};
ghost use Rattle.set_bits.specs.Sets.{is_in, IsSetOf};
ghost use Rattle.clf_tree.specs.Lists.{numbers_below};
ghost use Rattle.node_encoder.specs.Listing.{AreBelow};

use bool_circuit::{Circuit, MOST_WIRES, Wire};
use clf_base::{List, NoMemory};
use set_bits::Member;
use std::alloc::Global;

/// The wires of the members.
pub(crate) fn wires_of(alloc: Global, set: &List<Member>) -> Result<List<Wire>, NoMemory>
    ensures { IfOk result (λ r. r ≡ map (λ m. m.here) set.now) }
{
    let mut wires = List::new(alloc);
    for at in 0..set.len() {
        let member = *set.get(at);
        wires.push(member.here)?;
    }
    Ok(wires)
}

/// True exactly where the set has at least `k` slots.
pub fn at_least(
    alloc: Global,
    circuit: &mut Circuit,
    set: &List<Member>,
    k: u32,
) -> Result<Wire, NoMemory>
    requires set { IsSetOf circuit.old set.now }
    requires few { k < 2 }
    requires room { length circuit.old + (4 * length set.now + 3) ≤ MOST_WIRES }
    ensures wire { IfOk result (IsWireOf circuit.new) }
    ensures value { IfOk result (λ w. (bits : Items Bool) (n : ℕ) → AreBelow n set.now →
        wire_value circuit.new w bits ≡ nat_le k (length (filter (λ s. is_in circuit.old set.now s bits) (numbers_below n)))) }
    ensures extends { Extends circuit.old circuit.new (4 * length set.now + 3) }
{
    let wires = wires_of(alloc, set)?;
    let wire = set_bits::at_least(alloc, circuit, &wires, k)?;
    Ok(wire)
}

/// True exactly where the set has at most `k` slots.
pub fn at_most(
    alloc: Global,
    circuit: &mut Circuit,
    set: &List<Member>,
    k: u32,
) -> Result<Wire, NoMemory>
    requires set { IsSetOf circuit.old set.now }
    requires few { k < 2 }
    requires room { length circuit.old + (4 * length set.now + 3) ≤ MOST_WIRES }
    ensures wire { IfOk result (IsWireOf circuit.new) }
    ensures value { IfOk result (λ w. (bits : Items Bool) (n : ℕ) → AreBelow n set.now →
        wire_value circuit.new w bits ≡ nat_le (length (filter (λ s. is_in circuit.old set.now s bits) (numbers_below n))) k) }
    ensures extends { Extends circuit.old circuit.new (4 * length set.now + 3) }
{
    let wires = wires_of(alloc, set)?;
    let wire = set_bits::at_most(alloc, circuit, &wires, k)?;
    Ok(wire)
}

/// True exactly where the set has exactly `k` slots.
pub fn exactly(
    alloc: Global,
    circuit: &mut Circuit,
    set: &List<Member>,
    k: u32,
) -> Result<Wire, NoMemory>
    requires set { IsSetOf circuit.old set.now }
    requires few { k < 2 }
    requires room { length circuit.old + (8 * length set.now + 7) ≤ MOST_WIRES }
    ensures wire { IfOk result (IsWireOf circuit.new) }
    ensures value { IfOk result (λ w. (bits : Items Bool) (n : ℕ) → AreBelow n set.now →
        wire_value circuit.new w bits ≡ (length (filter (λ s. is_in circuit.old set.now s bits) (numbers_below n)) == k)) }
    ensures extends { Extends circuit.old circuit.new (8 * length set.now + 7) }
{
    let enough = at_least(alloc, circuit, set, k)?;
    let few = at_most(alloc, circuit, set, k)?;
    let wire = circuit.and(enough, few)?;
    Ok(wire)
}
