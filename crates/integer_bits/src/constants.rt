//! Constants.
ghost use Rattle.std.specs.Prelude.{◌≡◌, ◌+◌, ◌*◌, ◌<◌, ◌≤◌, ◌^◌, ℕ, Bool, length, if◌then◌else◌, IfOk, List as Items, ◌+ℤ◌, ◌*ℤ◌, pos};
ghost use Rattle.bool_circuit.specs.Circuit.{wire_value, wire_values, IsWireOf, AreWiresOf, Extends};
ghost use Rattle.bool_circuit.specs.declared.circuit.TheConstants.{MOST_WIRES};
ghost use Rattle.integer_bits.specs.Numbers.{bit, integer_at, FitsBits};
ghost use Rattle.integer_bits.specs.Steps.{IsSpelledSoFar};

use bool_circuit::{Circuit, Wire};
use clf_base::{List, NoMemory};
use std::alloc::Global;

// The lowest bit of a number, and the number without it.
fn halve(value: i128) -> (bool, i128)
    ensures { value ≡ pos (bit result.0) +ℤ pos 2 *ℤ result.1 }
{
    let half = value.div_euclid(2);
    let odd = value.rem_euclid(2) == 1;
    (odd, half)
}

// The wire of a bit.
fn pick(odd: bool, on: Wire, off: Wire) -> Wire
    ensures { result ≡ (if odd then on else off) }
{
    if odd { on } else { off }
}

/// A number that is the same at all bits, on `width` wires, of which there are only two.
pub fn constant(
    alloc: Global,
    circuit: &mut Circuit,
    value: i128,
    width: u32,
) -> Result<List<Wire>, NoMemory>
    requires some { 0 < width }
    requires fits { FitsBits width value }
    requires room { length circuit.old + 2 ≤ MOST_WIRES }
    ensures wires { IfOk result (AreWiresOf circuit.new) }
    ensures width { IfOk result (λ r. length r ≡ width) }
    ensures value { IfOk result (λ r. (bits : Items Bool) → integer_at circuit.new r bits ≡ value) }
    ensures extends { Extends circuit.old circuit.new 2 }
{
    let off = circuit.constant(false)?;
    let on = circuit.constant(true)?;
    let mut wires = List::new(alloc);
    let mut rest = value;
    for at in 0..width {
        let (odd, half) = halve(rest);
        wires.push(pick(odd, on, off))?;
        rest = half;
    }
    Ok(wires)
}
