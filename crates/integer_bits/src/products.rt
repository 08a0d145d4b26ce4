//! Products.
ghost use Rattle.std.specs.Prelude.{◌≡◌, ◌+◌, ◌*◌, ◌<◌, ◌≤◌, ◌++◌, ◌∷◌, [], Bool, length, IfOk, List as Items, ◌*ℤ◌, ◌+ℤ◌, pos, ◌^◌};
ghost use Rattle.std.specs.List.{list_all};
ghost use Rattle.bool_circuit.specs.Circuit.{wire_value, wire_values, IsWireOf, AreWiresOf, Extends};
ghost use Rattle.bool_circuit.specs.declared.circuit.TheConstants.{MOST_WIRES};
ghost use Rattle.integer_bits.specs.Numbers.{cut, integer_at, FitsBits, IsNumber, StandsFor};
ghost use Rattle.integer_bits.specs.Totals.{is_constant_of, copies, number_of, tree_cost};

use crate::negation::negate_within;
use crate::sums::add_within;
use crate::totals::where_here;
use crate::widths::{narrow, resize};
use bool_circuit::{Circuit, Gate, MOST_WIRES, Wire};
use clf_base::{List, NoMemory};
use std::alloc::Global;

/// The product of two numbers, on `width` wires: exact at all bits at which it fits on them.
///
/// It is the sum of one number's shifts, one for each bit of the other, where that bit is true; the last bit counts against the others. The
/// shifts go by a balanced tree, so numbers of m and n wires take some 4·m·n. Where one number is constant, its bits choose the shifts, so
/// only those of its ones are added.
pub fn multiply(
    alloc: Global,
    circuit: &mut Circuit,
    a: &List<Wire>,
    b: &List<Wire>,
    width: u32,
) -> Result<List<Wire>, NoMemory>
    requires a_in { AreWiresOf circuit.old a.now }
    requires b_in { AreWiresOf circuit.old b.now }
    requires a_some { 0 < length a.now }
    requires b_some { 0 < length b.now }
    requires some { 0 < width }
    requires room { length circuit.old + 16 * ((width + 1) * (width + 1)) ≤ MOST_WIRES }
    ensures wires { IfOk result (AreWiresOf circuit.new) }
    ensures width { IfOk result (λ r. length r ≡ width) }
    ensures value { IfOk result (λ r. (bits : Items Bool) → FitsBits width (integer_at circuit.old a.now bits *ℤ integer_at circuit.old b.now bits) → integer_at circuit.new r bits ≡ integer_at circuit.old a.now bits *ℤ integer_at circuit.old b.now bits) }
    ensures cut { IfOk result (λ r. (bits : Items Bool) → integer_at circuit.new r bits ≡ cut width (integer_at circuit.old a.now bits *ℤ integer_at circuit.old b.now bits)) }
    ensures extends { Extends circuit.old circuit.new (16 * ((width + 1) * (width + 1))) }
{
    if is_constant(circuit, a) {
        let turned = times_number(alloc, circuit, b, a, width)?;
        return Ok(turned);
    }
    times_number(alloc, circuit, a, b, width)
}

// Whether all wires are constants.
fn is_constant(circuit: &Circuit, a: &List<Wire>) -> bool
    requires { AreWiresOf circuit.now a.now }
    ensures { result ≡ list_all (is_constant_of circuit.now) a.now }
{
    for at in 0..a.len() {
        let wire = *a.get(at);
        if !is_fixed(circuit, wire) {
            return false;
        }
    }
    true
}

// Whether a wire is a constant.
fn is_fixed(circuit: &Circuit, wire: Wire) -> bool
    requires { IsWireOf circuit.now wire }
    ensures { result ≡ is_constant_of circuit.now wire }
{
    match circuit.gates()[wire.number as usize] {
        Gate::Constant(_) => true,
        _ => false,
    }
}

// The product of a number and another, whose bits choose the shifts.
fn times_number(
    alloc: Global,
    circuit: &mut Circuit,
    a: &List<Wire>,
    b: &List<Wire>,
    width: u32,
) -> Result<List<Wire>, NoMemory>
    requires a_in { AreWiresOf circuit.old a.now }
    requires b_in { AreWiresOf circuit.old b.now }
    requires a_some { 0 < length a.now }
    requires b_some { 0 < length b.now }
    requires some { 0 < width }
    requires room { length circuit.old + 16 * ((width + 1) * (width + 1)) ≤ MOST_WIRES }
    ensures wires { IfOk result (AreWiresOf circuit.new) }
    ensures width { IfOk result (λ r. length r ≡ width) }
    ensures value { IfOk result (λ r. (bits : Items Bool) → FitsBits width (integer_at circuit.old a.now bits *ℤ integer_at circuit.old b.now bits) → integer_at circuit.new r bits ≡ integer_at circuit.old a.now bits *ℤ integer_at circuit.old b.now bits) }
    ensures cut { IfOk result (λ r. (bits : Items Bool) → integer_at circuit.new r bits ≡ cut width (integer_at circuit.old a.now bits *ℤ integer_at circuit.old b.now bits)) }
    ensures extends { Extends circuit.old circuit.new (16 * ((width + 1) * (width + 1))) }
{
    let most = width as usize;
    let by = narrow(alloc, b, most)?;
    let product = times(alloc, circuit, a, by.as_slice(), true, most)?;
    let wires = resize(alloc, &product, most)?;
    Ok(wires)
}

// The product of a number and some bits, whose last one counts against the others where they are signed, but for a multiple of 2 ^ width.
fn times(
    alloc: Global,
    circuit: &mut Circuit,
    a: &List<Wire>,
    by: &[Wire],
    signed: bool,
    width: usize,
) -> Result<List<Wire>, NoMemory>
    requires a_in { AreWiresOf circuit.old a.now }
    requires a_some { 0 < length a.now }
    requires by_in { AreWiresOf circuit.old by.now }
    requires by_some { 0 < length by.now }
    requires some { 0 < width }
    requires room { length circuit.old + tree_cost (3 * width + 1) (5 * width + 1) (length by.now) ≤ MOST_WIRES }
    ensures product { IfOk result (StandsFor width circuit.new (λ bits. integer_at circuit.old a.now bits *ℤ number_of signed (wire_values circuit.old by.now bits))) }
    ensures extends { Extends circuit.old circuit.new (tree_cost (3 * width + 1) (5 * width + 1) (length by.now)) }
{
    if by.len() == 1 {
        return times_bit(alloc, circuit, a, by[0], signed, width);
    }
    let (low, high) = by.split_at(by.len() / 2);
    let first = times(alloc, circuit, a, low, false, width)?;
    let rest = times(alloc, circuit, a, high, signed, width)?;
    let sum = add_shifted(alloc, circuit, &first, &rest, low.len(), width)?;
    Ok(sum)
}

// The product of a number and a bit, which counts as -1 where it is signed.
fn times_bit(
    alloc: Global,
    circuit: &mut Circuit,
    a: &List<Wire>,
    by: Wire,
    signed: bool,
    width: usize,
) -> Result<List<Wire>, NoMemory>
    requires a_in { AreWiresOf circuit.old a.now }
    requires a_some { 0 < length a.now }
    requires by_in { IsWireOf circuit.old by }
    requires some { 0 < width }
    requires room { length circuit.old + (3 * width + 1) ≤ MOST_WIRES }
    ensures product { IfOk result (StandsFor width circuit.new (λ bits. integer_at circuit.old a.now bits *ℤ number_of signed (wire_value circuit.old by bits ∷ []))) }
    ensures extends { Extends circuit.old circuit.new (3 * width + 1) }
{
    let part = where_here(alloc, circuit, a, by, width)?;
    if signed {
        let negative = negate_within(alloc, circuit, &part, width)?;
        return Ok(negative);
    }
    Ok(part)
}

// The sum of a number and 2 ^ by times another.
fn add_shifted(
    alloc: Global,
    circuit: &mut Circuit,
    a: &List<Wire>,
    b: &List<Wire>,
    by: usize,
    width: usize,
) -> Result<List<Wire>, NoMemory>
    requires a_in { IsNumber width circuit.old a.now }
    requires b_in { IsNumber width circuit.old b.now }
    requires room { length circuit.old + (5 * width + 1) ≤ MOST_WIRES }
    ensures sum { IfOk result (StandsFor width circuit.new (λ bits. integer_at circuit.old a.now bits +ℤ pos (2 ^ by) *ℤ integer_at circuit.old b.now bits)) }
    ensures extends { Extends circuit.old circuit.new (5 * width + 1) }
{
    let off = circuit.constant(false)?;
    let shifted = shift(alloc, b, off, by)?;
    let few = narrow(alloc, &shifted, width)?;
    let sum = add_within(alloc, circuit, a, &few, None, width)?;
    Ok(sum)
}

// The wires behind as many others.
fn shift(alloc: Global, a: &List<Wire>, off: Wire, by: usize) -> Result<List<Wire>, NoMemory>
    ensures { IfOk result (λ r. r ≡ copies by off ++ a.now) }
{
    let mut wires = List::new(alloc);
    for _at in 0..by {
        wires.push(off)?;
    }
    wires.extend(a.as_slice())?;
    Ok(wires)
}
