//! Sums of many numbers, and counts.
//!
//! Both go by a balanced tree of adders, whose widths grow from the leaves to the root.
ghost use Rattle.std.specs.Prelude.{◌≡◌, ◌+◌, ◌*◌, ◌<◌, ◌≤◌, ◌&&◌, Bool, length, map, IfOk, List as Items, ◌+ℤ◌, pos};
ghost use Rattle.bool_circuit.specs.Circuit.{wire_value, wire_values, IsWireOf, AreWiresOf, Extends};
ghost use Rattle.bool_circuit.specs.declared.circuit.TheConstants.{MOST_WIRES};
ghost use Rattle.integer_bits.specs.Numbers.{cut, integer_at, FitsBits, IsNumber, StandsFor};
ghost use Rattle.integer_bits.specs.Steps.{IsMasked};
ghost use Rattle.integer_bits.specs.Totals.{ArePartsOf, IsPartOf, count_true, sum_of_parts, where_true, tree_cost};

use crate::sums::add_within;
use crate::widths::{narrow, resize};
use bool_circuit::{Circuit, MOST_WIRES, Wire};
use clf_base::{List, NoMemory};
use std::alloc::Global;

/// A number that counts where a wire is true.
#[derive(Debug, Drop)]
pub struct Part {
    pub here: Wire,
    /// Two's complement, the lowest bit first.
    pub bits: List<Wire>,
}

/// The sum of the parts whose `here` is true, on `width` wires: exact at all bits at which it fits on them, however large the sums of
/// fewer parts may be.
///
/// The adders of the lowest layer are as wide as the parts, and one wire wider from layer to layer, so n parts of m wires take some
/// 3·n·(m + 1) wires beside the n·m that leave a part out.
#[tactic(auto, using(crate::proofs::Trees::tree_within))]
pub fn sum_if(
    alloc: Global,
    circuit: &mut Circuit,
    parts: &List<Part>,
    width: u32,
) -> Result<List<Wire>, NoMemory>
    requires parts_in { ArePartsOf circuit.old parts.now }
    requires some { 0 < width }
    requires room { length circuit.old + 32 * ((length parts.now + 1) * (width + 1)) ≤ MOST_WIRES }
    ensures wires { IfOk result (AreWiresOf circuit.new) }
    ensures width { IfOk result (λ r. length r ≡ width) }
    ensures value { IfOk result (λ r. (bits : Items Bool) → FitsBits width (sum_of_parts circuit.old parts.now bits) → integer_at circuit.new r bits ≡ sum_of_parts circuit.old parts.now bits) }
    ensures cut { IfOk result (λ r. (bits : Items Bool) → integer_at circuit.new r bits ≡ cut width (sum_of_parts circuit.old parts.now bits)) }
    ensures extends { Extends circuit.old circuit.new (32 * ((length parts.now + 1) * (width + 1))) }
{
    let most = width as usize;
    let sum = sum_within(alloc, circuit, parts.as_slice(), most)?;
    let wires = resize(alloc, &sum, most)?;
    Ok(wires)
}

/// The number of true wires, on `width` wires: exact at all bits at which it fits on them.
///
/// Each adder takes a wire as its carry, so a layer counts twice the wires of the layer below and one more, and n wires take some 3·n.
#[tactic(auto, using(crate::proofs::Trees::count_fits))]
pub fn count(
    alloc: Global,
    circuit: &mut Circuit,
    wires: &List<Wire>,
    width: u32,
) -> Result<List<Wire>, NoMemory>
    requires wires_in { AreWiresOf circuit.old wires.now }
    requires some { 0 < width }
    requires room { length circuit.old + 32 * ((length wires.now + 1) * (width + 1)) ≤ MOST_WIRES }
    ensures wires { IfOk result (AreWiresOf circuit.new) }
    ensures width { IfOk result (λ r. length r ≡ width) }
    ensures value { IfOk result (λ r. (bits : Items Bool) → FitsBits width (pos (count_true (wire_values circuit.old wires.now bits))) → integer_at circuit.new r bits ≡ pos (count_true (wire_values circuit.old wires.now bits))) }
    ensures cut { IfOk result (λ r. (bits : Items Bool) → integer_at circuit.new r bits ≡ cut width (pos (count_true (wire_values circuit.old wires.now bits)))) }
    ensures extends { Extends circuit.old circuit.new (32 * ((length wires.now + 1) * (width + 1))) }
{
    let most = width as usize;
    let sum = count_within(alloc, circuit, wires.as_slice(), most)?;
    let all = resize(alloc, &sum, most)?;
    Ok(all)
}

// The sum of the parts whose `here` is true, but for a multiple of 2 ^ width.
fn sum_within(
    alloc: Global,
    circuit: &mut Circuit,
    parts: &[Part],
    width: usize,
) -> Result<List<Wire>, NoMemory>
    requires parts_in { ArePartsOf circuit.old parts.now }
    requires some { 0 < width }
    requires room { length circuit.old + (1 + tree_cost width (5 * width) (length parts.now)) ≤ MOST_WIRES }
    ensures sum { IfOk result (StandsFor width circuit.new (sum_of_parts circuit.old parts.now)) }
    ensures extends { Extends circuit.old circuit.new (1 + tree_cost width (5 * width) (length parts.now)) }
{
    if parts.is_empty() {
        return nothing(alloc, circuit, width);
    }
    sum_of_some(alloc, circuit, parts, width)
}

// The sum of at least one part.
fn sum_of_some(
    alloc: Global,
    circuit: &mut Circuit,
    parts: &[Part],
    width: usize,
) -> Result<List<Wire>, NoMemory>
    requires parts_in { ArePartsOf circuit.old parts.now }
    requires parts_some { 0 < length parts.now }
    requires some { 0 < width }
    requires room { length circuit.old + tree_cost width (5 * width) (length parts.now) ≤ MOST_WIRES }
    ensures sum { IfOk result (StandsFor width circuit.new (sum_of_parts circuit.old parts.now)) }
    ensures extends { Extends circuit.old circuit.new (tree_cost width (5 * width) (length parts.now)) }
{
    if parts.len() == 1 {
        let part = &parts[0];
        let only = where_here(alloc, circuit, &part.bits, part.here, width)?;
        return Ok(only);
    }
    let (front, back) = parts.split_at(parts.len() / 2);
    let first = sum_of_some(alloc, circuit, front, width)?;
    let rest = sum_of_some(alloc, circuit, back, width)?;
    let sum = add_within(alloc, circuit, &first, &rest, None, width)?;
    Ok(sum)
}

// The number of true wires, but for a multiple of 2 ^ width.
fn count_within(
    alloc: Global,
    circuit: &mut Circuit,
    wires: &[Wire],
    width: usize,
) -> Result<List<Wire>, NoMemory>
    requires wires_in { AreWiresOf circuit.old wires.now }
    requires some { 0 < width }
    requires room { length circuit.old + (1 + length wires.now * (5 * width + 2)) ≤ MOST_WIRES }
    ensures sum { IfOk result (StandsFor width circuit.new (λ bits. pos (count_true (wire_values circuit.old wires.now bits)))) }
    ensures extends { Extends circuit.old circuit.new (1 + length wires.now * (5 * width + 2)) }
{
    if wires.is_empty() {
        return nothing(alloc, circuit, width);
    }
    let carry = wires[0];
    let (front, back) = wires[1..].split_at(wires.len() / 2);
    let first = count_within(alloc, circuit, front, width)?;
    let rest = count_within(alloc, circuit, back, width)?;
    let sum = add_within(alloc, circuit, &first, &rest, Some(carry), width)?;
    Ok(sum)
}

// Zero.
fn nothing(alloc: Global, circuit: &mut Circuit, width: usize) -> Result<List<Wire>, NoMemory>
    requires some { 0 < width }
    requires room { length circuit.old + 1 ≤ MOST_WIRES }
    ensures zero { IfOk result (StandsFor width circuit.new (λ bits. pos 0)) }
    ensures extends { Extends circuit.old circuit.new 1 }
{
    let none = circuit.constant(false)?;
    let mut wires = List::new(alloc);
    wires.push(none)?;
    Ok(wires)
}

// The number where `here` is true, and zero elsewhere, on no more wires than the width.
pub(crate) fn where_here(
    alloc: Global,
    circuit: &mut Circuit,
    a: &List<Wire>,
    here: Wire,
    width: usize,
) -> Result<List<Wire>, NoMemory>
    requires a_in { AreWiresOf circuit.old a.now }
    requires a_some { 0 < length a.now }
    requires here_in { IsWireOf circuit.old here }
    requires some { 0 < width }
    requires room { length circuit.old + width ≤ MOST_WIRES }
    ensures number { IfOk result (StandsFor width circuit.new (λ bits. where_true (wire_value circuit.old here bits) (integer_at circuit.old a.now bits))) }
    ensures extends { Extends circuit.old circuit.new width }
{
    let few = narrow(alloc, a, width)?;
    let masked = mask(alloc, circuit, &few, here)?;
    Ok(masked)
}

// The wires that are true where `here` and those of a are.
fn mask(
    alloc: Global,
    circuit: &mut Circuit,
    a: &List<Wire>,
    here: Wire,
) -> Result<List<Wire>, NoMemory>
    requires a_in { AreWiresOf circuit.old a.now }
    requires here_in { IsWireOf circuit.old here }
    requires room { length circuit.old + length a.now ≤ MOST_WIRES }
    ensures masked { IfOk result (IsMasked circuit.old here a.now circuit.new) }
    ensures extends { Extends circuit.old circuit.new (length a.now) }
{
    let mut masked = List::new(alloc);
    for at in 0..a.len() {
        let wire = *a.get(at);
        let both = circuit.and(here, wire)?;
        masked.push(both)?;
    }
    Ok(masked)
}
