//! Whether the integers to which nodes refer are in the range.

ghost use Rattle.std.specs.Prelude.{◌≡◌, ℕ, ◌+◌, ◌*◌, ◌<◌, ◌≤◌, Bool, not, ◌&&◌, length, max, ℤ, int_le, if◌then◌else◌, IfOk, All, List as Items};
ghost use Rattle.std.specs.List.{list_all};
ghost use Rattle.bool_circuit.specs.Circuit.{wire_value, wire_values, entry, IsWireOf, AreWiresOf, Extends};
ghost use Rattle.bool_circuit.specs.declared.circuit.TheConstants.{MOST_WIRES};
ghost use Rattle.integer_bits.specs.Numbers.{integer_at, FitsBits};
ghost use Rattle.shown_instance.specs.Consistent.{are_integers, is_integer};
ghost use Rattle.shape_encoder.specs.Reading.{IsBit, IsSlotOf, range_cost, integer_cost, integers_cost};
ghost use Rattle.shape_encoder.specs.Taking.{IsEnd};

use bool_circuit::{Circuit, MOST_WIRES, Wire};
use clf_base::{List, NoMemory};
use clf_tree::{Bounds, Scopes};
use int_widths::width;
use integer_bits::{constant, less};
use set_bits::{Layout, SlotBits};
use std::alloc::Global;

// The wires of the ends of the range.
#[derive(Drop)]
struct Ends {
    low: List<Wire>,
    high: List<Wire>,
}

// The wires of an integer, as many as it needs.
fn number(alloc: Global, circuit: &mut Circuit, value: i64) -> Result<List<Wire>, NoMemory>
    requires room { length circuit.old + 2 ≤ MOST_WIRES }
    ensures number { IfOk result (IsEnd circuit.new value) }
    ensures extends { Extends circuit.old circuit.new 2 }
{
    let needed = width(Bounds {
        low: value as i128,
        high: value as i128,
    });
    let wires = constant(alloc, circuit, value as i128, needed)?;
    Ok(wires)
}

// The ends of the range.
fn ends_of(alloc: Global, circuit: &mut Circuit, scopes: &Scopes) -> Result<Ends, NoMemory>
    requires room { length circuit.old + 4 ≤ MOST_WIRES }
    ensures low { IfOk result (λ r. IsEnd circuit.new scopes.now.low r.low) }
    ensures high { IfOk result (λ r. IsEnd circuit.new scopes.now.high r.high) }
    ensures extends { Extends circuit.old circuit.new 4 }
{
    let low = number(alloc, circuit, scopes.low)?;
    let high = number(alloc, circuit, scopes.high)?;
    Ok(Ends { low, high })
}

/// Whether a number lies between two others.
pub(crate) fn is_between(
    alloc: Global,
    circuit: &mut Circuit,
    number: &List<Wire>,
    low: &List<Wire>,
    high: &List<Wire>,
) -> Result<Wire, NoMemory>
    requires number_in { AreWiresOf circuit.old number.now }
    requires low_in { AreWiresOf circuit.old low.now }
    requires high_in { AreWiresOf circuit.old high.now }
    requires number_some { 0 < length number.now }
    requires low_some { 0 < length low.now }
    requires high_some { 0 < length high.now }
    requires room { length circuit.old + range_cost (length low.now) (length high.now) (length number.now) ≤ MOST_WIRES }
    ensures wire { IfOk result (IsWireOf circuit.new) }
    ensures value { IfOk result (λ w. (bits : Items Bool) → wire_value circuit.new w bits ≡ (int_le (integer_at circuit.old low.now bits) (integer_at circuit.old number.now bits) && int_le (integer_at circuit.old number.now bits) (integer_at circuit.old high.now bits))) }
    ensures extends { Extends circuit.old circuit.new (range_cost (length low.now) (length high.now) (length number.now)) }
{
    let below = less(alloc, circuit, number, low)?;
    let above = less(alloc, circuit, high, number)?;
    let outside = circuit.or(below, above)?;
    let inside = circuit.not(outside)?;
    Ok(inside)
}

// Whether all wires are false.
fn are_false(circuit: &mut Circuit, wires: &List<Wire>) -> Result<Wire, NoMemory>
    requires wires_in { AreWiresOf circuit.old wires.now }
    requires room { length circuit.old + (length wires.now + 2) ≤ MOST_WIRES }
    ensures wire { IfOk result (IsWireOf circuit.new) }
    ensures value { IfOk result (λ w. (bits : Items Bool) → wire_value circuit.new w bits ≡ list_all not (wire_values circuit.old wires.now bits)) }
    ensures extends { Extends circuit.old circuit.new (length wires.now + 2) }
{
    let mut some = circuit.constant(false)?;
    for at in 0..wires.len() {
        let wire = *wires.get(at);
        some = circuit.or(some, wire)?;
    }
    let none = circuit.not(some)?;
    Ok(none)
}

// Whether the bits of a slot's integer are as they have to be: in the range where the slot is live, and else all false.
fn integer(
    alloc: Global,
    circuit: &mut Circuit,
    live: Wire,
    value: &SlotBits,
    low: &List<Wire>,
    high: &List<Wire>,
) -> Result<Wire, NoMemory>
    requires live_in { IsWireOf circuit.old live }
    requires value_in { AreWiresOf circuit.old value.now.bits }
    requires low_in { AreWiresOf circuit.old low.now }
    requires high_in { AreWiresOf circuit.old high.now }
    requires value_some { 0 < length value.now.bits }
    requires low_some { 0 < length low.now }
    requires high_some { 0 < length high.now }
    requires room { length circuit.old + integer_cost (length low.now) (length high.now) (length value.now.bits) ≤ MOST_WIRES }
    ensures wire { IfOk result (IsWireOf circuit.new) }
    ensures value { IfOk result (λ w. (bits : Items Bool) → wire_value circuit.new w bits ≡ (if wire_value circuit.old live bits then (int_le (integer_at circuit.old low.now bits) (integer_at circuit.old value.now.bits bits) && int_le (integer_at circuit.old value.now.bits bits) (integer_at circuit.old high.now bits)) else list_all not (wire_values circuit.old value.now.bits bits))) }
    ensures extends { Extends circuit.old circuit.new (integer_cost (length low.now) (length high.now) (length value.now.bits)) }
{
    let inside = is_between(alloc, circuit, &value.bits, low, high)?;
    let none = are_false(circuit, &value.bits)?;
    let right = circuit.choose(live, inside, none)?;
    Ok(right)
}

/// Whether the integer of each live slot is in the range, and the bits of the others are all false.
pub(crate) fn integers(
    alloc: Global,
    circuit: &mut Circuit,
    scopes: &Scopes,
    layout: &Layout,
) -> Result<Wire, NoMemory>
    requires live_bits { All (IsBit circuit.old) layout.now.live }
    requires value_bits { All (IsSlotOf circuit.old (length layout.now.live)) layout.now.values }
    requires room { length circuit.old + integers_cost scopes.now layout.now ≤ MOST_WIRES }
    ensures wire { IfOk result (IsWireOf circuit.new) }
    ensures value { IfOk result (λ w. (bits : Items Bool) → wire_value circuit.new w bits ≡ are_integers scopes.now layout.now bits) }
    ensures extends { Extends circuit.old circuit.new (integers_cost scopes.now layout.now) }
{
    let ends = ends_of(alloc, circuit, scopes)?;
    let mut all = circuit.constant(true)?;
    for at in 0..layout.values.len() {
        let value = layout.values.get(at);
        let live = *layout.live.get(value.slot as usize);
        let right = integer(alloc, circuit, live, value, &ends.low, &ends.high)?;
        all = circuit.and(all, right)?;
    }
    Ok(all)
}
