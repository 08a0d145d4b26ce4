//! Sums of two numbers.
ghost use Rattle.std.specs.Prelude.{◌≡◌, ◌+◌, ◌*◌, ◌<◌, ◌≤◌, Bool, length, IfOk, List as Items, ◌+ℤ◌, pos, Option, None};
ghost use Rattle.bool_circuit.specs.Circuit.{wire_value, wire_values, IsWireOf, AreWiresOf, Extends};
ghost use Rattle.bool_circuit.specs.declared.circuit.TheConstants.{MOST_WIRES};
ghost use Rattle.integer_bits.specs.Numbers.{bit, cut, integer_at, FitsBits, IsNumber, StandsFor};
ghost use Rattle.integer_bits.specs.Steps.{carry_at, IsCarryOf, IsSumSoFar};

use crate::widths::{narrow, resize};
use bool_circuit::{Circuit, MOST_WIRES, Wire};
use clf_base::{List, NoMemory};
use std::alloc::Global;

/// The sum of two numbers, on `width` wires: exact at all bits at which it fits on them.
///
/// A bit of the sum takes three wires, two for itself and one for the carry. It takes none where a bit is false and none is carried. The
/// adder is one wire longer than the wider operand needs, or as long as the width, and its last wire is repeated from there on.
pub fn add(
    alloc: Global,
    circuit: &mut Circuit,
    a: &List<Wire>,
    b: &List<Wire>,
    width: u32,
) -> Result<List<Wire>, NoMemory>
    requires a_in { AreWiresOf circuit.old a.now }
    requires b_in { AreWiresOf circuit.old b.now }
    requires a_some { 0 < length a.now }
    requires b_some { 0 < length b.now }
    requires some { 0 < width }
    requires room { length circuit.old + 16 * (width + 1) ≤ MOST_WIRES }
    ensures wires { IfOk result (AreWiresOf circuit.new) }
    ensures width { IfOk result (λ r. length r ≡ width) }
    ensures value { IfOk result (λ r. (bits : Items Bool) → FitsBits width (integer_at circuit.old a.now bits +ℤ integer_at circuit.old b.now bits) → integer_at circuit.new r bits ≡ integer_at circuit.old a.now bits +ℤ integer_at circuit.old b.now bits) }
    ensures cut { IfOk result (λ r. (bits : Items Bool) → integer_at circuit.new r bits ≡ cut width (integer_at circuit.old a.now bits +ℤ integer_at circuit.old b.now bits)) }
    ensures extends { Extends circuit.old circuit.new (16 * (width + 1)) }
{
    let most = width as usize;
    let a = narrow(alloc, a, most)?;
    let b = narrow(alloc, b, most)?;
    let sum = add_within(alloc, circuit, &a, &b, None, most)?;
    let wires = resize(alloc, &sum, most)?;
    Ok(wires)
}

// The sum of two numbers and a carry, on as few wires as hold it, and on no more than the width.
pub(crate) fn add_within(
    alloc: Global,
    circuit: &mut Circuit,
    a: &List<Wire>,
    b: &List<Wire>,
    carry: Option<Wire>,
    width: usize,
) -> Result<List<Wire>, NoMemory>
    requires a_in { IsNumber width circuit.old a.now }
    requires b_in { IsNumber width circuit.old b.now }
    requires carry_in { IsCarryOf circuit.old carry }
    requires room { length circuit.old + 5 * width ≤ MOST_WIRES }
    ensures sum { IfOk result (StandsFor width circuit.new (λ bits. (integer_at circuit.old a.now bits +ℤ integer_at circuit.old b.now bits) +ℤ pos (carry_at circuit.old carry bits))) }
    ensures extends { Extends circuit.old circuit.new (5 * width) }
{
    let needs = a.len().max(b.len()).min(width - 1) + 1;
    let long_a = resize(alloc, a, needs)?;
    let long_b = resize(alloc, b, needs)?;
    let (sum, _) = ripple(alloc, circuit, &long_a, &long_b, carry)?;
    let few = narrow(alloc, &sum, width)?;
    Ok(few)
}

// The sum of two numbers of as many bits and of a carry, and what is carried last.
fn ripple(
    alloc: Global,
    circuit: &mut Circuit,
    a: &List<Wire>,
    b: &List<Wire>,
    first: Option<Wire>,
) -> Result<(List<Wire>, Option<Wire>), NoMemory>
    requires same_len { length b.now ≡ length a.now }
    requires a_in { AreWiresOf circuit.old a.now }
    requires b_in { AreWiresOf circuit.old b.now }
    requires first_in { IsCarryOf circuit.old first }
    requires room { length circuit.old + 5 * length a.now ≤ MOST_WIRES }
    ensures sum { IfOk result (λ r. IsSumSoFar circuit.old a.now b.now first (length a.now) circuit.new r.0 r.1) }
    ensures extends { Extends circuit.old circuit.new (5 * length a.now) }
{
    let mut sum = List::new(alloc);
    let mut carry = first;
    for at in 0..a.len() {
        let x = *a.get(at);
        let y = *b.get(at);
        let (low, next) = add_bits(circuit, x, y, carry)?;
        sum.push(low)?;
        carry = Some(next);
    }
    Ok((sum, carry))
}

// The two bits of the sum of two bits and a carry, the lower one first.
fn add_bits(
    circuit: &mut Circuit,
    a: Wire,
    b: Wire,
    carry: Option<Wire>,
) -> Result<(Wire, Wire), NoMemory>
    requires a_in { IsWireOf circuit.old a }
    requires b_in { IsWireOf circuit.old b }
    requires carry_in { IsCarryOf circuit.old carry }
    requires room { length circuit.old + 5 ≤ MOST_WIRES }
    ensures sum_wire { IfOk result (λ r. IsWireOf circuit.new r.0) }
    ensures carry_wire { IfOk result (λ r. IsWireOf circuit.new r.1) }
    ensures value { IfOk result (λ r. (bits : Items Bool) → bit (wire_value circuit.new r.0 bits) + 2 * bit (wire_value circuit.new r.1 bits) ≡ bit (wire_value circuit.old a bits) + bit (wire_value circuit.old b bits) + carry_at circuit.old carry bits) }
    ensures extends { Extends circuit.old circuit.new 5 }
{
    match carry {
        None => half_adder(circuit, a, b),
        Some(carry) => full_adder(circuit, a, b, carry),
    }
}

// The two bits of the sum of two bits, the lower one first.
#[tactic(auto, using(crate::proofs::Ripple::half_sum))]
fn half_adder(circuit: &mut Circuit, a: Wire, b: Wire) -> Result<(Wire, Wire), NoMemory>
    requires a_in { IsWireOf circuit.old a }
    requires b_in { IsWireOf circuit.old b }
    requires room { length circuit.old + 5 ≤ MOST_WIRES }
    ensures sum_wire { IfOk result (λ r. IsWireOf circuit.new r.0) }
    ensures carry_wire { IfOk result (λ r. IsWireOf circuit.new r.1) }
    ensures value { IfOk result (λ r. (bits : Items Bool) → bit (wire_value circuit.new r.0 bits) + 2 * bit (wire_value circuit.new r.1 bits) ≡ bit (wire_value circuit.old a bits) + bit (wire_value circuit.old b bits)) }
    ensures extends { Extends circuit.old circuit.new 5 }
{
    let sum = circuit.xor(a, b)?;
    let next = circuit.and(a, b)?;
    Ok((sum, next))
}

// The two bits of the sum of three bits, the lower one first. Where the first two differ the third is carried, and else either of them.
#[tactic(auto, using(crate::proofs::Ripple::full_sum))]
fn full_adder(
    circuit: &mut Circuit,
    a: Wire,
    b: Wire,
    carry: Wire,
) -> Result<(Wire, Wire), NoMemory>
    requires a_in { IsWireOf circuit.old a }
    requires b_in { IsWireOf circuit.old b }
    requires carry_in { IsWireOf circuit.old carry }
    requires room { length circuit.old + 5 ≤ MOST_WIRES }
    ensures sum_wire { IfOk result (λ r. IsWireOf circuit.new r.0) }
    ensures carry_wire { IfOk result (λ r. IsWireOf circuit.new r.1) }
    ensures value { IfOk result (λ r. (bits : Items Bool) → bit (wire_value circuit.new r.0 bits) + 2 * bit (wire_value circuit.new r.1 bits) ≡ bit (wire_value circuit.old a bits) + bit (wire_value circuit.old b bits) + bit (wire_value circuit.old carry bits)) }
    ensures extends { Extends circuit.old circuit.new 5 }
{
    let differ = circuit.xor(a, b)?;
    let sum = circuit.xor(differ, carry)?;
    let next = circuit.choose(differ, carry, a)?;
    Ok((sum, next))
}
