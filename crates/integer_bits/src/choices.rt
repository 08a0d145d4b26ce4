//! Choices between two numbers.
ghost use Rattle.std.specs.Prelude.{◌≡◌, ◌+◌, ◌*◌, ◌<◌, ◌≤◌, Bool, length, if◌then◌else◌, IfOk, List as Items};
ghost use Rattle.bool_circuit.specs.Circuit.{wire_value, IsWireOf, AreWiresOf, Extends};
ghost use Rattle.bool_circuit.specs.declared.circuit.TheConstants.{MOST_WIRES};
ghost use Rattle.integer_bits.specs.Numbers.{cut, integer_at};
ghost use Rattle.integer_bits.specs.Steps.{IsChosenSoFar};

use crate::widths::resize;
use bool_circuit::{Circuit, MOST_WIRES, Wire};
use clf_base::{List, NoMemory};
use std::alloc::Global;

/// The first number where `pick` is true, and the second elsewhere, on `width` wires: at all bits what so many bits keep of it.
///
/// A bit takes one choice, and none where the two numbers have the same wire.
pub fn choose(
    alloc: Global,
    circuit: &mut Circuit,
    pick: Wire,
    a: &List<Wire>,
    b: &List<Wire>,
    width: u32,
) -> Result<List<Wire>, NoMemory>
    requires pick_in { IsWireOf circuit.old pick }
    requires a_in { AreWiresOf circuit.old a.now }
    requires b_in { AreWiresOf circuit.old b.now }
    requires a_some { 0 < length a.now }
    requires b_some { 0 < length b.now }
    requires some { 0 < width }
    requires room { length circuit.old + 3 * width ≤ MOST_WIRES }
    ensures wires { IfOk result (AreWiresOf circuit.new) }
    ensures width { IfOk result (λ r. length r ≡ width) }
    ensures value { IfOk result (λ r. (bits : Items Bool) → integer_at circuit.new r bits ≡ cut width (if wire_value circuit.old pick bits then integer_at circuit.old a.now bits else integer_at circuit.old b.now bits)) }
    ensures extends { Extends circuit.old circuit.new (3 * width) }
{
    let most = width as usize;
    let long_a = resize(alloc, a, most)?;
    let long_b = resize(alloc, b, most)?;
    let chosen = choose_bits(alloc, circuit, pick, &long_a, &long_b)?;
    Ok(chosen)
}

// The bits of the first number where `pick` is true, and those of the second elsewhere, which are as many.
fn choose_bits(
    alloc: Global,
    circuit: &mut Circuit,
    pick: Wire,
    a: &List<Wire>,
    b: &List<Wire>,
) -> Result<List<Wire>, NoMemory>
    requires same_len { length b.now ≡ length a.now }
    requires pick_in { IsWireOf circuit.old pick }
    requires a_in { AreWiresOf circuit.old a.now }
    requires b_in { AreWiresOf circuit.old b.now }
    requires room { length circuit.old + 3 * length a.now ≤ MOST_WIRES }
    ensures chosen { IfOk result (IsChosenSoFar circuit.old pick a.now b.now (length a.now) circuit.new) }
    ensures extends { Extends circuit.old circuit.new (3 * length a.now) }
{
    let mut chosen = List::new(alloc);
    for at in 0..a.len() {
        let x = *a.get(at);
        let y = *b.get(at);
        let wire = circuit.choose(pick, x, y)?;
        chosen.push(wire)?;
    }
    Ok(chosen)
}
