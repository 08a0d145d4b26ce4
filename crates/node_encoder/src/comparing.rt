//! Tests of two sets.

ghost use Rattle.std.specs.Prelude.{◌≡◌, ◌+◌, ◌*◌, ◌≤◌, ℕ, Bool, ◌&&◌, IfOk, length, not, List as Items};
ghost use Rattle.std.specs.List.{list_all};
ghost use Rattle.bool_circuit.specs.declared.circuit.TheConstants.{MOST_WIRES};
ghost use Rattle.bool_circuit.specs.Circuit.{wire_value, bool_xor, IsWireOf, Extends};
ghost use Rattle.set_bits.specs.Sets.{is_in, IsSetOf};
ghost use Rattle.clf_tree.specs.Lists.{numbers_below};
ghost use Rattle.node_encoder.specs.Listing.{AreBelow};

use crate::amounts::wires_of;
use bool_circuit::{Circuit, MOST_WIRES, Wire};
use clf_base::{List, NoMemory};
use set_bits::{Member, at_most, differ, minus};
use std::alloc::Global;

// Whether a set has no slot.
fn is_empty(alloc: Global, circuit: &mut Circuit, set: &List<Member>) -> Result<Wire, NoMemory>
    requires set { IsSetOf circuit.old set.now }
    requires room { length circuit.old + (2 * length set.now + 3) ≤ MOST_WIRES }
    ensures wire { IfOk result (IsWireOf circuit.new) }
    ensures value { IfOk result (λ w. (bits : Items Bool) (n : ℕ) → AreBelow n set.now →
        wire_value circuit.new w bits ≡ list_all (λ s. not (is_in circuit.old set.now s bits)) (numbers_below n)) }
    ensures extends { Extends circuit.old circuit.new (2 * length set.now + 3) }
{
    let wires = wires_of(alloc, set)?;
    let wire = at_most(alloc, circuit, &wires, 0)?;
    Ok(wire)
}

/// True exactly where two sets have the same slots.
pub fn same_nodes(
    alloc: Global,
    circuit: &mut Circuit,
    a: &List<Member>,
    b: &List<Member>,
) -> Result<Wire, NoMemory>
    requires a_set { IsSetOf circuit.old a.now }
    requires b_set { IsSetOf circuit.old b.now }
    requires room { length circuit.old + (6 * (length a.now + length b.now) + 3) ≤ MOST_WIRES }
    ensures wire { IfOk result (IsWireOf circuit.new) }
    ensures value { IfOk result (λ w. (bits : Items Bool) (n : ℕ) → AreBelow n a.now → AreBelow n b.now →
        wire_value circuit.new w bits ≡
        list_all (λ s. not (bool_xor (is_in circuit.old a.now s bits) (is_in circuit.old b.now s bits))) (numbers_below n)) }
    ensures extends { Extends circuit.old circuit.new (6 * (length a.now + length b.now) + 3) }
{
    let other = differ(alloc, circuit, a, b)?;
    let wire = is_empty(alloc, circuit, &other)?;
    Ok(wire)
}

/// True exactly where each slot of the first set is in the second.
pub fn within_nodes(
    alloc: Global,
    circuit: &mut Circuit,
    a: &List<Member>,
    b: &List<Member>,
) -> Result<Wire, NoMemory>
    requires a_set { IsSetOf circuit.old a.now }
    requires b_set { IsSetOf circuit.old b.now }
    requires room { length circuit.old + (6 * (length a.now + length b.now) + 3) ≤ MOST_WIRES }
    ensures wire { IfOk result (IsWireOf circuit.new) }
    ensures value { IfOk result (λ w. (bits : Items Bool) (n : ℕ) → AreBelow n a.now → AreBelow n b.now →
        wire_value circuit.new w bits ≡
        list_all (λ s. not (is_in circuit.old a.now s bits && not (is_in circuit.old b.now s bits))) (numbers_below n)) }
    ensures extends { Extends circuit.old circuit.new (6 * (length a.now + length b.now) + 3) }
{
    let other = minus(alloc, circuit, a, b)?;
    let wire = is_empty(alloc, circuit, &other)?;
    Ok(wire)
}
