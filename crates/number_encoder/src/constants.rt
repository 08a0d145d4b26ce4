//! Constants.

ghost use Rattle.std.specs.Prelude.{◌≡◌, ◌+◌, ◌<◌, ◌≤◌, ◌^◌, ◌-◌, Bool, length, if◌then◌else◌, pos, IfOk, List as Items};
ghost use Rattle.bool_circuit.specs.Circuit.{AreWiresOf, Extends};
ghost use Rattle.bool_circuit.specs.declared.circuit.TheConstants.{MOST_WIRES};
ghost use Rattle.integer_bits.specs.Numbers.{integer_at};
ghost use Rattle.clf_tree.specs.CoreSoundness.{holds_integer};

use bool_circuit::{Circuit, MOST_WIRES, Wire};
use clf_base::{List, NoMemory};
use std::alloc::Global;

/// An integer on `width` wires, or 0 where it doesn't fit on them. It adds two wires at most, which all constants share.
pub fn constant(
    alloc: Global,
    circuit: &mut Circuit,
    width: u32,
    value: i64,
) -> Result<List<Wire>, NoMemory>
    requires some { 0 < width }
    requires narrow { width ≤ 64 }
    requires room { length circuit.old + 2 ≤ MOST_WIRES }
    ensures wires { IfOk result (AreWiresOf circuit.new) }
    ensures some { IfOk result (λ r. 0 < length r) }
    ensures few { IfOk result (λ r. length r ≤ width) }
    ensures value { IfOk result (λ r. (bits : Items Bool)
        → integer_at circuit.new r bits ≡ (if holds_integer width value then value else pos 0)) }
    ensures extends { Extends circuit.old circuit.new 2 }
{
    let kept = if is_held(width, value) { value } else { 0 };
    let wires = integer_bits::constant(alloc, circuit, kept as i128, width)?;
    Ok(wires)
}

// Whether an integer fits on so many bits.
fn is_held(width: u32, value: i64) -> bool
    requires some { 0 < width }
    requires narrow { width ≤ 64 }
    ensures { result ≡ holds_integer width value }
{
    let half = power(width - 1);
    let wide = value as i128;
    -half <= wide && wide < half
}

// A power of two.
fn power(exponent: u32) -> i128
    requires { exponent ≤ 126 }
    ensures { result ≡ pos (2 ^ exponent) }
{
    1 << exponent
}
