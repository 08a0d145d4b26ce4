//! Negatives.
ghost use Rattle.std.specs.Prelude.{◌≡◌, ◌+◌, ◌*◌, ◌<◌, ◌≤◌, Bool, length, IfOk, List as Items, neg_ℤ};
ghost use Rattle.bool_circuit.specs.Circuit.{wire_value, IsWireOf, AreWiresOf, Extends};
ghost use Rattle.bool_circuit.specs.declared.circuit.TheConstants.{MOST_WIRES};
ghost use Rattle.integer_bits.specs.Numbers.{cut, integer_at, FitsBits, IsNumber, StandsFor};
ghost use Rattle.integer_bits.specs.Steps.{IsNegativeSoFar};

use crate::widths::{narrow, resize};
use bool_circuit::{Circuit, MOST_WIRES, Wire};
use clf_base::{List, NoMemory};
use std::alloc::Global;

/// The negative of a number, on `width` wires: exact at all bits at which it fits on them.
///
/// All bits up to the lowest true one stay, and those above it are turned round, so a bit takes two wires and no carry.
pub fn negate(
    alloc: Global,
    circuit: &mut Circuit,
    a: &List<Wire>,
    width: u32,
) -> Result<List<Wire>, NoMemory>
    requires a_in { AreWiresOf circuit.old a.now }
    requires a_some { 0 < length a.now }
    requires some { 0 < width }
    requires room { length circuit.old + 16 * (width + 1) ≤ MOST_WIRES }
    ensures wires { IfOk result (AreWiresOf circuit.new) }
    ensures width { IfOk result (λ r. length r ≡ width) }
    ensures value { IfOk result (λ r. (bits : Items Bool) → FitsBits width (neg_ℤ (integer_at circuit.old a.now bits)) → integer_at circuit.new r bits ≡ neg_ℤ (integer_at circuit.old a.now bits)) }
    ensures cut { IfOk result (λ r. (bits : Items Bool) → integer_at circuit.new r bits ≡ cut width (neg_ℤ (integer_at circuit.old a.now bits))) }
    ensures extends { Extends circuit.old circuit.new (16 * (width + 1)) }
{
    let most = width as usize;
    let a = narrow(alloc, a, most)?;
    let negative = negate_within(alloc, circuit, &a, most)?;
    let wires = resize(alloc, &negative, most)?;
    Ok(wires)
}

// The negative of a number, on as few wires as hold it, and on no more than the width.
pub(crate) fn negate_within(
    alloc: Global,
    circuit: &mut Circuit,
    a: &List<Wire>,
    width: usize,
) -> Result<List<Wire>, NoMemory>
    requires a_in { IsNumber width circuit.old a.now }
    requires room { length circuit.old + (2 * width + 1) ≤ MOST_WIRES }
    ensures negative { IfOk result (StandsFor width circuit.new (λ bits. neg_ℤ (integer_at circuit.old a.now bits))) }
    ensures extends { Extends circuit.old circuit.new (2 * width + 1) }
{
    let needs = a.len().min(width - 1) + 1;
    let long = resize(alloc, a, needs)?;
    let (negative, _) = turn_round(alloc, circuit, &long)?;
    let few = narrow(alloc, &negative, width)?;
    Ok(few)
}

// The bits with those above the lowest true one turned round, and whether one is true.
fn turn_round(
    alloc: Global,
    circuit: &mut Circuit,
    a: &List<Wire>,
) -> Result<(List<Wire>, Wire), NoMemory>
    requires a_in { AreWiresOf circuit.old a.now }
    requires room { length circuit.old + (2 * length a.now + 1) ≤ MOST_WIRES }
    ensures negative { IfOk result (λ r. IsNegativeSoFar circuit.old a.now (length a.now) circuit.new r.0 r.1) }
    ensures extends { Extends circuit.old circuit.new (2 * length a.now + 1) }
{
    let mut seen = circuit.constant(false)?;
    let mut negative = List::new(alloc);
    for at in 0..a.len() {
        let wire = *a.get(at);
        let turned = circuit.xor(wire, seen)?;
        let more = circuit.or(wire, seen)?;
        negative.push(turned)?;
        seen = more;
    }
    Ok((negative, seen))
}
