//! Comparisons.
ghost use Rattle.std.specs.Prelude.{◌≡◌, [], ◌∷◌, ◌++◌, ◌+◌, ◌*◌, ◌<◌, ◌≤◌, ◌^◌, ℕ, Bool, not, ◌||◌, ◌&&◌, if◌then◌else◌, length, max, IfOk, List as Items, IsTrue, ◌↔◌, int_lt};
ghost use Rattle.bool_circuit.specs.Circuit.{bool_xor, wire_value, wire_values, IsWireOf, AreWiresOf, Extends};
ghost use Rattle.bool_circuit.specs.declared.circuit.TheConstants.{MOST_WIRES};
ghost use Rattle.integer_bits.specs.Numbers.{integer_at};
ghost use Rattle.integer_bits.specs.Steps.{IsTestSoFar, is_below, differs};

use crate::widths::{needed, resize};
use bool_circuit::{Circuit, Wire};
use clf_base::{List, NoMemory};
use std::alloc::Global;

// The higher bit where the two differ, and else what was told.
fn below_bit(circuit: &mut Circuit, a: Wire, b: Wire, told: Wire) -> Result<Wire, NoMemory>
    requires a_in { IsWireOf circuit.old a }
    requires b_in { IsWireOf circuit.old b }
    requires told_in { IsWireOf circuit.old told }
    requires room { length circuit.old + 4 ≤ MOST_WIRES }
    ensures wire { IfOk result (IsWireOf circuit.new) }
    ensures value { IfOk result (λ w. (bits : Items Bool) → wire_value circuit.new w bits ≡ (if bool_xor (wire_value circuit.old a bits) (wire_value circuit.old b bits) then wire_value circuit.old b bits else wire_value circuit.old told bits)) }
    ensures extends { Extends circuit.old circuit.new 4 }
{
    let differ = circuit.xor(a, b)?;
    circuit.choose(differ, b, told)
}

// Whether the two differ, or what was told holds.
fn other_bit(circuit: &mut Circuit, a: Wire, b: Wire, told: Wire) -> Result<Wire, NoMemory>
    requires a_in { IsWireOf circuit.old a }
    requires b_in { IsWireOf circuit.old b }
    requires told_in { IsWireOf circuit.old told }
    requires room { length circuit.old + 4 ≤ MOST_WIRES }
    ensures wire { IfOk result (IsWireOf circuit.new) }
    ensures value { IfOk result (λ w. (bits : Items Bool) → wire_value circuit.new w bits ≡ (wire_value circuit.old told bits || bool_xor (wire_value circuit.old a bits) (wire_value circuit.old b bits))) }
    ensures extends { Extends circuit.old circuit.new 4 }
{
    let differ = circuit.xor(a, b)?;
    circuit.or(told, differ)
}

// Whether the first bits of a spell a smaller natural number than those of b.
fn is_first_below(
    circuit: &mut Circuit,
    a: &List<Wire>,
    b: &List<Wire>,
    most: usize,
) -> Result<Wire, NoMemory>
    requires a_len { most ≤ length a.now }
    requires b_len { most ≤ length b.now }
    requires a_in { AreWiresOf circuit.old a.now }
    requires b_in { AreWiresOf circuit.old b.now }
    requires room { length circuit.old + (4 * most + 1) ≤ MOST_WIRES }
    ensures test { IfOk result (IsTestSoFar is_below circuit.old a.now b.now most circuit.new) }
    ensures extends { Extends circuit.old circuit.new (4 * most + 1) }
{
    let mut told = circuit.constant(false)?;
    for at in 0..most {
        let x = *a.get(at);
        let y = *b.get(at);
        let next = below_bit(circuit, x, y, told)?;
        told = next;
    }
    Ok(told)
}

// Whether the first bits of a and b differ.
fn differ_first(
    circuit: &mut Circuit,
    a: &List<Wire>,
    b: &List<Wire>,
    most: usize,
) -> Result<Wire, NoMemory>
    requires a_len { most ≤ length a.now }
    requires b_len { most ≤ length b.now }
    requires a_in { AreWiresOf circuit.old a.now }
    requires b_in { AreWiresOf circuit.old b.now }
    requires room { length circuit.old + (4 * most + 1) ≤ MOST_WIRES }
    ensures test { IfOk result (IsTestSoFar differs circuit.old a.now b.now most circuit.new) }
    ensures extends { Extends circuit.old circuit.new (4 * most + 1) }
{
    let mut told = circuit.constant(false)?;
    for at in 0..most {
        let x = *a.get(at);
        let y = *b.get(at);
        let next = other_bit(circuit, x, y, told)?;
        told = next;
    }
    Ok(told)
}

/// A wire that is true where `a` is below `b`, at all bits.
///
/// From the lowest bit on, the higher bit decides where the two differ; the last bit counts the other way round. A bit takes two wires, on
/// as many wires as the wider number needs.
pub fn less(
    alloc: Global,
    circuit: &mut Circuit,
    a: &List<Wire>,
    b: &List<Wire>,
) -> Result<Wire, NoMemory>
    requires a_in { AreWiresOf circuit.old a.now }
    requires b_in { AreWiresOf circuit.old b.now }
    requires a_some { 0 < length a.now }
    requires b_some { 0 < length b.now }
    requires room { length circuit.old + 8 * (max (length a.now) (length b.now) + 1) ≤ MOST_WIRES }
    ensures wire { IfOk result (IsWireOf circuit.new) }
    ensures value { IfOk result (λ w. (bits : Items Bool) → wire_value circuit.new w bits ≡ int_lt (integer_at circuit.old a.now bits) (integer_at circuit.old b.now bits)) }
    ensures extends { Extends circuit.old circuit.new (8 * (max (length a.now) (length b.now) + 1)) }
{
    let last = needed(a).max(needed(b)) - 1;
    let long_a = resize(alloc, a, last + 1)?;
    let long_b = resize(alloc, b, last + 1)?;
    let told = is_first_below(circuit, &long_a, &long_b, last)?;
    let x = *long_a.get(last);
    let y = *long_b.get(last);
    let more = below_bit(circuit, y, x, told)?;
    Ok(more)
}

/// A wire that is true where the two numbers are equal, at all bits. A bit takes two wires, on as many wires as the wider number needs.
pub fn equal(
    alloc: Global,
    circuit: &mut Circuit,
    a: &List<Wire>,
    b: &List<Wire>,
) -> Result<Wire, NoMemory>
    requires a_in { AreWiresOf circuit.old a.now }
    requires b_in { AreWiresOf circuit.old b.now }
    requires a_some { 0 < length a.now }
    requires b_some { 0 < length b.now }
    requires room { length circuit.old + 4 * (max (length a.now) (length b.now) + 1) ≤ MOST_WIRES }
    ensures wire { IfOk result (IsWireOf circuit.new) }
    ensures value { IfOk result (λ w. (bits : Items Bool) → IsTrue (wire_value circuit.new w bits) ↔ (integer_at circuit.old a.now bits ≡ integer_at circuit.old b.now bits)) }
    ensures extends { Extends circuit.old circuit.new (4 * (max (length a.now) (length b.now) + 1)) }
{
    let width = needed(a).max(needed(b));
    let long_a = resize(alloc, a, width)?;
    let long_b = resize(alloc, b, width)?;
    let differ = differ_first(circuit, &long_a, &long_b, width)?;
    let same = circuit.not(differ)?;
    Ok(same)
}
