//! Whether at least, or at most, so many wires are true.
//!
//! Counting n goes by a row of n marks, one for each number: a wire that is true moves the row up by one. A mark that can't be reached yet is
//! a constant, so its gates fold, and calls on the same wires share the marks that both have. Where fewer wires may be false than must be
//! true, the false ones are counted. So a count takes some 2·m wires a wire, m being the smaller number: marks rather than adders, since a
//! search learns from each of them.
ghost use Rattle.std.specs.Prelude.{◌≡◌, [], ◌∷◌, ◌++◌, ◌+◌, ◌*◌, ◌<◌, ◌≤◌, ℕ, Bool, true, not, ◌||◌, ◌&&◌, length, nat_le, All, IfOk, List as Items};
ghost use Rattle.bool_circuit.specs.Circuit.{wire_value, wire_values, IsWireOf, AreWiresOf, Extends};
ghost use Rattle.bool_circuit.specs.declared.circuit.TheConstants.{MOST_WIRES};
ghost use Rattle.set_bits.specs.Counts.{next_marks, IsMarkedSoFar, IsCountedSoFar, IsNegated};
ghost use Rattle.integer_bits.specs.Totals.{count_true};

use bool_circuit::{Circuit, MOST_WIRES, Wire};
use clf_base::{List, NoMemory};
use std::alloc::Global;

// True where x is, or both others are.
fn next_mark(circuit: &mut Circuit, x: Wire, below: Wire, wire: Wire) -> Result<Wire, NoMemory>
    requires x_in { IsWireOf circuit.old x }
    requires below_in { IsWireOf circuit.old below }
    requires wire_in { IsWireOf circuit.old wire }
    requires room { length circuit.old + 2 ≤ MOST_WIRES }
    ensures wire { IfOk result (IsWireOf circuit.new) }
    ensures value { IfOk result (λ w. (bits : Items Bool) → wire_value circuit.new w bits ≡ (wire_value circuit.old x bits || (wire_value circuit.old below bits && wire_value circuit.old wire bits))) }
    ensures extends { Extends circuit.old circuit.new 2 }
{
    let more = circuit.and(below, wire)?;
    circuit.or(x, more)
}

// The marks of a count, with one wire more counted.
fn count_one(
    alloc: Global,
    circuit: &mut Circuit,
    marks: &List<Wire>,
    first: Wire,
    wire: Wire,
) -> Result<List<Wire>, NoMemory>
    requires marks_in { AreWiresOf circuit.old marks.now }
    requires first_in { IsWireOf circuit.old first }
    requires wire_in { IsWireOf circuit.old wire }
    requires room { length circuit.old + 2 * length marks.now ≤ MOST_WIRES }
    ensures marked { IfOk result (λ r. (last : Wire) × IsMarkedSoFar circuit.old marks.now first wire (length marks.now) circuit.new r last) }
    ensures extends { Extends circuit.old circuit.new (2 * length marks.now) }
{
    let mut next = List::new(alloc);
    let mut below = first;
    for at in 0..marks.len() {
        let x = *marks.get(at);
        let mark = next_mark(circuit, x, below, wire)?;
        next.push(mark)?;
        below = x;
    }
    Ok(next)
}

// As many times the wire.
fn repeat(alloc: Global, wire: Wire, len: usize) -> Result<List<Wire>, NoMemory>
    ensures len { IfOk result (λ r. length r ≡ len) }
    ensures same { IfOk result (All (λ w. w ≡ wire)) }
{
    let mut wires = List::new(alloc);
    for _at in 0..len {
        wires.push(wire)?;
    }
    Ok(wires)
}

// Whether at least n of no fewer wires are true, for n above 0.
fn count_up(
    alloc: Global,
    circuit: &mut Circuit,
    wires: &List<Wire>,
    n: usize,
) -> Result<Wire, NoMemory>
    requires wires_in { AreWiresOf circuit.old wires.now }
    requires some { 0 < n }
    requires few { n ≤ length wires.now }
    requires room { length circuit.old + (2 * n * length wires.now + 2) ≤ MOST_WIRES }
    ensures wire { IfOk result (IsWireOf circuit.new) }
    ensures value { IfOk result (λ w. (bits : Items Bool) → wire_value circuit.new w bits ≡ nat_le n (count_true (wire_values circuit.old wires.now bits))) }
    ensures extends { Extends circuit.old circuit.new (2 * n * length wires.now + 2) }
{
    let on = circuit.constant(true)?;
    let off = circuit.constant(false)?;
    let mut marks = repeat(alloc, off, n)?;
    for at in 0..wires.len() {
        let wire = *wires.get(at);
        let next = count_one(alloc, circuit, &marks, on, wire)?;
        marks = next;
    }
    let last = *marks.get(n - 1);
    Ok(last)
}

/// A wire that is true where at least `n` of the wires are, at all bits.
pub fn at_least(
    alloc: Global,
    circuit: &mut Circuit,
    wires: &List<Wire>,
    n: u32,
) -> Result<Wire, NoMemory>
    requires wires_in { AreWiresOf circuit.old wires.now }
    requires room { length circuit.old + (2 * length wires.now * (n + 1) + 3) ≤ MOST_WIRES }
    ensures wire { IfOk result (IsWireOf circuit.new) }
    ensures value { IfOk result (λ w. (bits : Items Bool) → wire_value circuit.new w bits ≡ nat_le n (count_true (wire_values circuit.old wires.now bits))) }
    ensures extends { Extends circuit.old circuit.new (2 * length wires.now * (n + 1) + 3) }
{
    let least = n as usize;
    if least == 0 {
        let wire = circuit.constant(true)?;
        return Ok(wire);
    }
    if least > wires.len() {
        let wire = circuit.constant(false)?;
        return Ok(wire);
    }
    if wires.len() - least + 1 < least {
        let wire = few_false(alloc, circuit, wires, wires.len() - least)?;
        return Ok(wire);
    }
    let wire = count_up(alloc, circuit, wires, least)?;
    Ok(wire)
}

/// A wire that is true where at most `n` of the wires are, at all bits.
pub fn at_most(
    alloc: Global,
    circuit: &mut Circuit,
    wires: &List<Wire>,
    n: u32,
) -> Result<Wire, NoMemory>
    requires wires_in { AreWiresOf circuit.old wires.now }
    requires room { length circuit.old + (2 * length wires.now * (n + 1) + 3) ≤ MOST_WIRES }
    ensures wire { IfOk result (IsWireOf circuit.new) }
    ensures value { IfOk result (λ w. (bits : Items Bool) → wire_value circuit.new w bits ≡ nat_le (count_true (wire_values circuit.old wires.now bits)) n) }
    ensures extends { Extends circuit.old circuit.new (2 * length wires.now * (n + 1) + 3) }
{
    let most = n as usize;
    if most >= wires.len() {
        let wire = circuit.constant(true)?;
        return Ok(wire);
    }
    if wires.len() - most < most + 1 {
        let wire = many_false(alloc, circuit, wires, wires.len() - most)?;
        return Ok(wire);
    }
    let more = count_up(alloc, circuit, wires, most + 1)?;
    let wire = circuit.not(more)?;
    Ok(wire)
}

// Whether at most so many wires are false, fewer than there are.
fn few_false(
    alloc: Global,
    circuit: &mut Circuit,
    wires: &List<Wire>,
    most: usize,
) -> Result<Wire, NoMemory>
    requires wires_in { AreWiresOf circuit.old wires.now }
    requires few { most < length wires.now }
    requires room { length circuit.old + (length wires.now + (2 * (most + 1) * length wires.now + 3)) ≤ MOST_WIRES }
    ensures wire { IfOk result (IsWireOf circuit.new) }
    ensures value { IfOk result (λ w. (bits : Items Bool) → wire_value circuit.new w bits ≡ not (nat_le (count_true (wire_values circuit.old wires.now bits) + (most + 1)) (length wires.now))) }
    ensures extends { Extends circuit.old circuit.new (length wires.now + (2 * (most + 1) * length wires.now + 3)) }
{
    let more = many_false(alloc, circuit, wires, most + 1)?;
    let wire = circuit.not(more)?;
    Ok(wire)
}

// Whether at least so many wires are false, and no more than there are.
fn many_false(
    alloc: Global,
    circuit: &mut Circuit,
    wires: &List<Wire>,
    least: usize,
) -> Result<Wire, NoMemory>
    requires wires_in { AreWiresOf circuit.old wires.now }
    requires some { 0 < least }
    requires few { least ≤ length wires.now }
    requires room { length circuit.old + (length wires.now + (2 * least * length wires.now + 2)) ≤ MOST_WIRES }
    ensures wire { IfOk result (IsWireOf circuit.new) }
    ensures value { IfOk result (λ w. (bits : Items Bool) → wire_value circuit.new w bits ≡ nat_le (count_true (wire_values circuit.old wires.now bits) + least) (length wires.now)) }
    ensures extends { Extends circuit.old circuit.new (length wires.now + (2 * least * length wires.now + 2)) }
{
    let negated = negate_all(alloc, circuit, wires)?;
    let wire = count_up(alloc, circuit, &negated, least)?;
    Ok(wire)
}

// The negations of wires.
fn negate_all(
    alloc: Global,
    circuit: &mut Circuit,
    wires: &List<Wire>,
) -> Result<List<Wire>, NoMemory>
    requires wires_in { AreWiresOf circuit.old wires.now }
    requires room { length circuit.old + length wires.now ≤ MOST_WIRES }
    ensures negated { IfOk result (IsNegated circuit.old wires.now circuit.new) }
    ensures len { IfOk result (λ r. length r ≡ length wires.now) }
    ensures extends { Extends circuit.old circuit.new (length wires.now) }
{
    let mut negated = List::new(alloc);
    for at in 0..wires.len() {
        let wire = *wires.get(at);
        let other = circuit.not(wire)?;
        negated.push(other)?;
    }
    Ok(negated)
}
