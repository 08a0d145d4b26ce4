//! Whether as many wires are true as an interval allows.

ghost use Rattle.std.specs.Prelude.{◌≡◌, ◌+◌, ◌*◌, ◌<◌, ◌≤◌, Bool, ◌&&◌, length, min, nat_le, Some, None, IfOk, IfSome, IsTrue, List as Items};
ghost use Rattle.bool_circuit.specs.Circuit.{wire_value, wire_values, IsWireOf, AreWiresOf, Extends};
ghost use Rattle.bool_circuit.specs.declared.circuit.TheConstants.{MOST_WIRES};
ghost use Rattle.integer_bits.specs.Totals.{count_true};
ghost use Rattle.int_widths.specs.Weight.{is_any};
ghost use Rattle.clf_tree.specs.Shape.{allows};
ghost use Rattle.shape_encoder.specs.Counting.{counted_cost, most_counted, clipped, sum_cost};
ghost use Rattle.shape_encoder.specs.Demanding.{tells, IsAnswerIn, demand_cost};
ghost use Rattle.shape_encoder.specs.declared.amounts.TheConstants.{MOST_SUMMED};

use crate::ranges::is_between;
use bool_circuit::{Circuit, MOST_WIRES, Wire};
use clf_base::{List, NoMemory};
use clf_tree::Interval;
use integer_bits::{constant, count};
use set_bits::{at_least, at_most};
use std::alloc::Global;

/// Whether a number of true wires is allowed: at all bits, at none, or where a wire is true.
#[derive(Clone, Copy)]
pub(crate) enum Allowed {
    Always,
    Never,
    Where(Wire),
}

/// Whether an interval allows any number.
pub(crate) fn is_any(interval: Interval) -> bool
    ensures { result ≡ is_any interval }
{
    interval.low == 0 && interval.high.is_none()
}

// The upper bound, if so many wires can pass it.
fn clipped(high: Option<u32>, len: usize) -> Option<u32>
    ensures { result ≡ clipped high len }
{
    match high {
        Some(bound) => {
            if (bound as usize) < len {
                return Some(bound);
            }
            None
        }
        None => None,
    }
}

// So many wires, and no more, have a sum that fits on so many bits.
const MOST_SUMMED: usize = 1023;

const SUM_BITS: u32 = 11;

// Whether marks up to a bound would be many: it is large, and so is what is left above it.
fn is_large(len: usize, bound: u32) -> bool
    ensures { IsTrue result → (64 ≤ bound) × (bound ≤ len) × (len ≤ MOST_SUMMED) }
{
    bound >= 64 && (bound as usize) + 16 <= len && len <= MOST_SUMMED
}

// Whether marks would be many for one of two bounds.
fn are_large(len: usize, low: u32, high: u32) -> bool
    requires ordered { low ≤ high }
    ensures { IsTrue result → (64 ≤ high) × (len ≤ MOST_SUMMED) }
{
    is_large(len, low) || is_large(len, high)
}

// Whether the number of true wires lies between two bounds, by adders that sum it up.
fn sum_is_between(
    alloc: Global,
    circuit: &mut Circuit,
    wires: &List<Wire>,
    low: u32,
    high: u32,
) -> Result<Wire, NoMemory>
    requires wires_in { AreWiresOf circuit.old wires.now }
    requires few { length wires.now ≤ MOST_SUMMED }
    requires low_few { low ≤ MOST_SUMMED }
    requires high_few { high ≤ MOST_SUMMED }
    requires room { length circuit.old + sum_cost (length wires.now) ≤ MOST_WIRES }
    ensures wire { IfOk result (IsWireOf circuit.new) }
    ensures value { IfOk result (λ w. (bits : Items Bool) → wire_value circuit.new w bits ≡ (nat_le low (count_true (wire_values circuit.old wires.now bits)) && nat_le (count_true (wire_values circuit.old wires.now bits)) high)) }
    ensures extends { Extends circuit.old circuit.new (sum_cost (length wires.now)) }
{
    let total = count(alloc, circuit, wires, SUM_BITS)?;
    let least = constant(alloc, circuit, low as i128, SUM_BITS)?;
    let most = constant(alloc, circuit, high as i128, SUM_BITS)?;
    let right = is_between(alloc, circuit, &total, &least, &most)?;
    Ok(right)
}

// Whether at least so many of the wires are true.
fn are_enough(
    alloc: Global,
    circuit: &mut Circuit,
    wires: &List<Wire>,
    low: u32,
) -> Result<Wire, NoMemory>
    requires wires_in { AreWiresOf circuit.old wires.now }
    requires some { 0 < low }
    requires within { low ≤ length wires.now }
    requires room { length circuit.old + counted_cost (length wires.now) low ≤ MOST_WIRES }
    ensures wire { IfOk result (IsWireOf circuit.new) }
    ensures value { IfOk result (λ w. (bits : Items Bool) → wire_value circuit.new w bits ≡ nat_le low (count_true (wire_values circuit.old wires.now bits))) }
    ensures few { length circuit.new + 3 ≤ length circuit.old + counted_cost (length wires.now) low }
    ensures extends { Extends circuit.old circuit.new (counted_cost (length wires.now) low) }
{
    if is_large(wires.len(), low) {
        let most = wires.len() as u32;
        let right = sum_is_between(alloc, circuit, wires, low, most)?;
        return Ok(right);
    }
    let enough = at_least(alloc, circuit, wires, low)?;
    Ok(enough)
}

// Whether at most so many of the wires are true.
fn are_few(
    alloc: Global,
    circuit: &mut Circuit,
    wires: &List<Wire>,
    high: u32,
) -> Result<Wire, NoMemory>
    requires wires_in { AreWiresOf circuit.old wires.now }
    requires clipped { high < length wires.now }
    requires room { length circuit.old + counted_cost (length wires.now) high ≤ MOST_WIRES }
    ensures wire { IfOk result (IsWireOf circuit.new) }
    ensures value { IfOk result (λ w. (bits : Items Bool) → wire_value circuit.new w bits ≡ nat_le (count_true (wire_values circuit.old wires.now bits)) high) }
    ensures few { length circuit.new + 3 ≤ length circuit.old + counted_cost (length wires.now) high }
    ensures extends { Extends circuit.old circuit.new (counted_cost (length wires.now) high) }
{
    if is_large(wires.len(), high) {
        let right = sum_is_between(alloc, circuit, wires, 0, high)?;
        return Ok(right);
    }
    let few = at_most(alloc, circuit, wires, high)?;
    Ok(few)
}

// Whether the number of true wires lies between two bounds. Both counts go over the same wires, so they share the marks that both have.
fn are_between(
    alloc: Global,
    circuit: &mut Circuit,
    wires: &List<Wire>,
    low: u32,
    high: u32,
) -> Result<Wire, NoMemory>
    requires wires_in { AreWiresOf circuit.old wires.now }
    requires some { 0 < low }
    requires ordered { low ≤ high }
    requires clipped { high < length wires.now }
    requires room { length circuit.old + counted_cost (length wires.now) high ≤ MOST_WIRES }
    ensures wire { IfOk result (IsWireOf circuit.new) }
    ensures value { IfOk result (λ w. (bits : Items Bool) → wire_value circuit.new w bits ≡ (nat_le low (count_true (wire_values circuit.old wires.now bits)) && nat_le (count_true (wire_values circuit.old wires.now bits)) high)) }
    ensures few { length circuit.new + 3 ≤ length circuit.old + counted_cost (length wires.now) high }
    ensures extends { Extends circuit.old circuit.new (counted_cost (length wires.now) high) }
{
    if are_large(wires.len(), low, high) {
        let summed = sum_is_between(alloc, circuit, wires, low, high)?;
        return Ok(summed);
    }
    let enough = at_least(alloc, circuit, wires, low)?;
    let few = at_most(alloc, circuit, wires, high)?;
    let right = circuit.and(enough, few)?;
    Ok(right)
}

// Whether a number that no upper bound limits is allowed.
fn is_enough(
    alloc: Global,
    circuit: &mut Circuit,
    wires: &List<Wire>,
    low: u32,
) -> Result<Allowed, NoMemory>
    requires wires_in { AreWiresOf circuit.old wires.now }
    requires room { length circuit.old + counted_cost (length wires.now) (min (length wires.now) low) ≤ MOST_WIRES }
    ensures wire { IfOk result (IsAnswerIn circuit.new) }
    ensures value { IfOk result (λ a. (bits : Items Bool) → tells circuit.new a bits ≡ nat_le low (count_true (wire_values circuit.old wires.now bits))) }
    ensures few { IfOk result (λ a. length circuit.new + demand_cost a ≤ length circuit.old + counted_cost (length wires.now) (min (length wires.now) low)) }
    ensures extends { Extends circuit.old circuit.new (counted_cost (length wires.now) (min (length wires.now) low)) }
{
    if low == 0 {
        return Ok(Allowed::Always);
    }
    if (low as usize) > wires.len() {
        return Ok(Allowed::Never);
    }
    let enough = are_enough(alloc, circuit, wires, low)?;
    Ok(Allowed::Where(enough))
}

// Whether a number that an upper bound limits is allowed.
fn is_within(
    alloc: Global,
    circuit: &mut Circuit,
    wires: &List<Wire>,
    low: u32,
    high: u32,
) -> Result<Allowed, NoMemory>
    requires wires_in { AreWiresOf circuit.old wires.now }
    requires clipped { high < length wires.now }
    requires room { length circuit.old + counted_cost (length wires.now) high ≤ MOST_WIRES }
    ensures wire { IfOk result (IsAnswerIn circuit.new) }
    ensures value { IfOk result (λ a. (bits : Items Bool) → tells circuit.new a bits ≡ (nat_le low (count_true (wire_values circuit.old wires.now bits)) && nat_le (count_true (wire_values circuit.old wires.now bits)) high)) }
    ensures few { IfOk result (λ a. length circuit.new + demand_cost a ≤ length circuit.old + counted_cost (length wires.now) high) }
    ensures extends { Extends circuit.old circuit.new (counted_cost (length wires.now) high) }
{
    if low > high {
        return Ok(Allowed::Never);
    }
    if low == 0 {
        let few = are_few(alloc, circuit, wires, high)?;
        return Ok(Allowed::Where(few));
    }
    let between = are_between(alloc, circuit, wires, low, high)?;
    Ok(Allowed::Where(between))
}

/// Whether the number of true wires is allowed.
///
/// A bound that no number of these wires can miss takes no wire, and neither does one that none can meet. Others are counted by marks, which
/// a search learns from, as long as these are few; a large count of up to 1,023 wires goes by adders, at some three wires each.
pub(crate) fn is_allowed(
    alloc: Global,
    circuit: &mut Circuit,
    wires: &List<Wire>,
    interval: Interval,
) -> Result<Allowed, NoMemory>
    requires wires_in { AreWiresOf circuit.old wires.now }
    requires room { length circuit.old + counted_cost (length wires.now) (most_counted interval (length wires.now)) ≤ MOST_WIRES }
    ensures wire { IfOk result (IsAnswerIn circuit.new) }
    ensures value { IfOk result (λ a. (bits : Items Bool) → tells circuit.new a bits ≡ allows interval (count_true (wire_values circuit.old wires.now bits))) }
    ensures few { IfOk result (λ a. length circuit.new + demand_cost a ≤ length circuit.old + counted_cost (length wires.now) (most_counted interval (length wires.now))) }
    ensures extends { Extends circuit.old circuit.new (counted_cost (length wires.now) (most_counted interval (length wires.now))) }
{
    match clipped(interval.high, wires.len()) {
        Some(high) => {
            let right = is_within(alloc, circuit, wires, interval.low, high)?;
            Ok(right)
        }
        None => {
            let enough = is_enough(alloc, circuit, wires, interval.low)?;
            Ok(enough)
        }
    }
}
