//! Sets of integers compared.
//!
//! Each integer of one list is compared once with each of the other, and the answer serves both of them.

ghost use Rattle.std.specs.Prelude.{◌≡◌, ◌+◌, ◌*◌, ◌≤◌, Bool, true, false, not, ◌||◌, ◌&&◌, length, max, replicate, IfOk, List as Items};
ghost use Rattle.std.specs.Ordering.{int_eq};
ghost use Rattle.bool_circuit.specs.Circuit.{wire_value, wire_values, IsWireOf, AreWiresOf, Extends};
ghost use Rattle.bool_circuit.specs.declared.circuit.TheConstants.{MOST_WIRES};
ghost use Rattle.integer_bits.specs.Numbers.{integer_at};
ghost use Rattle.integer_bits.specs.Totals.{ArePartsOf, IsPartOf};
ghost use Rattle.clf_tree.specs.Meaning.{all_in, same_set};
ghost use Rattle.number_encoder.specs.Values.{present_values, part_width, both_width, pairs_cost, rows_cost};
ghost use Rattle.number_encoder.specs.Costs.{values_cost};
ghost use Rattle.number_encoder.specs.Comparing.{IsFoundSoFar, IsRowSoFar, IsSeenSoFar, AreFoundSoFar, AreRowsSoFar};

use bool_circuit::{Circuit, MOST_WIRES, Wire};
use clf_base::{List, NoMemory};
use integer_bits::{Part, equal};
use std::alloc::Global;

/// A wire that is true where the parts that are there have the same integers, at all bits.
///
/// Each two integers are compared once, so n and m parts of w bits take some 2·n·m·(w + 2) wires.
pub fn same_values(
    alloc: Global,
    circuit: &mut Circuit,
    a: &List<Part>,
    b: &List<Part>,
) -> Result<Wire, NoMemory>
    requires a_in { ArePartsOf circuit.old a.now }
    requires b_in { ArePartsOf circuit.old b.now }
    requires room { length circuit.old + values_cost (length a.now) (length b.now) (both_width a.now b.now) ≤ MOST_WIRES }
    ensures wire { IfOk result (IsWireOf circuit.new) }
    ensures value { IfOk result (λ w. (bits : Items Bool)
        → wire_value circuit.new w bits
        ≡ same_set int_eq (present_values circuit.old a.now bits) (present_values circuit.old b.now bits)) }
    ensures extends { Extends circuit.old circuit.new (values_cost (length a.now) (length b.now) (both_width a.now b.now)) }
{
    let none = circuit.constant(false)?;
    let first = circuit.constant(true)?;
    let (all, seen) = compare_rows(alloc, circuit, a, b, none, first)?;
    let wire = all_seen(circuit, b, &seen, all)?;
    Ok(wire)
}

/// A wire that is true where the integer of each part of `a` that is there is that of some part of `b` that is there, at all bits.
pub fn within_values(
    alloc: Global,
    circuit: &mut Circuit,
    a: &List<Part>,
    b: &List<Part>,
) -> Result<Wire, NoMemory>
    requires a_in { ArePartsOf circuit.old a.now }
    requires b_in { ArePartsOf circuit.old b.now }
    requires room { length circuit.old + values_cost (length a.now) (length b.now) (both_width a.now b.now) ≤ MOST_WIRES }
    ensures wire { IfOk result (IsWireOf circuit.new) }
    ensures value { IfOk result (λ w. (bits : Items Bool)
        → wire_value circuit.new w bits
        ≡ all_in int_eq (present_values circuit.old a.now bits) (present_values circuit.old b.now bits)) }
    ensures extends { Extends circuit.old circuit.new (values_cost (length a.now) (length b.now) (both_width a.now b.now)) }
{
    let none = circuit.constant(false)?;
    let first = circuit.constant(true)?;
    let wire = all_found(alloc, circuit, a, b, none, first)?;
    Ok(wire)
}

// Whether the integers of the parts that are there are all among those of the others that are. `none` is false and `first` is true.
fn all_found(
    alloc: Global,
    circuit: &mut Circuit,
    parts: &List<Part>,
    others: &List<Part>,
    none: Wire,
    first: Wire,
) -> Result<Wire, NoMemory>
    requires parts_in { ArePartsOf circuit.old parts.now }
    requires others_in { ArePartsOf circuit.old others.now }
    requires none_in { IsWireOf circuit.old none }
    requires first_in { IsWireOf circuit.old first }
    requires none_false { (bits : Items Bool) → wire_value circuit.old none bits ≡ false }
    requires first_true { (bits : Items Bool) → wire_value circuit.old first bits ≡ true }
    requires room { length circuit.old + rows_cost parts.now others.now ≤ MOST_WIRES }
    ensures found { let width = both_width parts.now others.now in
        IfOk result (AreFoundSoFar circuit.old parts.now others.now width (length parts.now) circuit.new) }
    ensures extends { Extends circuit.old circuit.new (rows_cost parts.now others.now) }
{
    let mut all = first;
    for at in 0..parts.len() {
        let part = parts.get(at);
        let found = find_among(alloc, circuit, part, others, none)?;
        let more = and_if(circuit, all, part.here, found)?;
        all = more;
    }
    Ok(all)
}

// Whether the integers of the parts that are there are all among those of the others that are, and for each of the others whether its own
// is among those of the parts. `none` is false and `first` is true.
fn compare_rows(
    alloc: Global,
    circuit: &mut Circuit,
    parts: &List<Part>,
    others: &List<Part>,
    none: Wire,
    first: Wire,
) -> Result<(Wire, List<Wire>), NoMemory>
    requires parts_in { ArePartsOf circuit.old parts.now }
    requires others_in { ArePartsOf circuit.old others.now }
    requires none_in { IsWireOf circuit.old none }
    requires first_in { IsWireOf circuit.old first }
    requires none_false { (bits : Items Bool) → wire_value circuit.old none bits ≡ false }
    requires first_true { (bits : Items Bool) → wire_value circuit.old first bits ≡ true }
    requires room { length circuit.old + rows_cost parts.now others.now ≤ MOST_WIRES }
    ensures rows { let width = both_width parts.now others.now in
        IfOk result (λ r. AreRowsSoFar circuit.old parts.now others.now width (length parts.now) circuit.new r.0 r.1) }
    ensures extends { Extends circuit.old circuit.new (rows_cost parts.now others.now) }
{
    let mut all = first;
    let mut seen = repeated(alloc, none, others.len())?;
    for at in 0..parts.len() {
        let part = parts.get(at);
        let (found, next) = compare_row(alloc, circuit, part, others, none, &seen)?;
        let more = and_if(circuit, all, part.here, found)?;
        all = more;
        seen = next;
    }
    Ok((all, seen))
}

// Whether the integer of a part is among those of the others that are there, and what was seen of the others once the part is seen too, if
// it is there.
fn compare_row(
    alloc: Global,
    circuit: &mut Circuit,
    part: &Part,
    others: &List<Part>,
    none: Wire,
    seen: &List<Wire>,
) -> Result<(Wire, List<Wire>), NoMemory>
    requires part_in { IsPartOf circuit.old part.now }
    requires others_in { ArePartsOf circuit.old others.now }
    requires none_in { IsWireOf circuit.old none }
    requires none_false { (bits : Items Bool) → wire_value circuit.old none bits ≡ false }
    requires seen_in { AreWiresOf circuit.old seen.now }
    requires seen_len { length seen.now ≡ length others.now }
    requires room { length circuit.old + pairs_cost part.now others.now ≤ MOST_WIRES }
    ensures row { let width = part_width part.now others.now in
        IfOk result (λ r. IsRowSoFar circuit.old part.now others.now seen.now width (length others.now) circuit.new r.0 r.1) }
    ensures extends { Extends circuit.old circuit.new (pairs_cost part.now others.now) }
{
    let mut found = none;
    let mut next = List::new(alloc);
    for at in 0..others.len() {
        let other = others.get(at);
        let mark = *seen.get(at);
        let same = equal_parts(alloc, circuit, part, other)?;
        let more = or_both(circuit, found, other.here, same)?;
        let marked = or_both(circuit, mark, part.here, same)?;
        next.push(marked)?;
        found = more;
    }
    Ok((found, next))
}

// Whether the integer of a part is among those of the others that are there. `none` is false.
fn find_among(
    alloc: Global,
    circuit: &mut Circuit,
    part: &Part,
    others: &List<Part>,
    none: Wire,
) -> Result<Wire, NoMemory>
    requires part_in { IsPartOf circuit.old part.now }
    requires others_in { ArePartsOf circuit.old others.now }
    requires none_in { IsWireOf circuit.old none }
    requires none_false { (bits : Items Bool) → wire_value circuit.old none bits ≡ false }
    requires room { length circuit.old + pairs_cost part.now others.now ≤ MOST_WIRES }
    ensures found { let width = part_width part.now others.now in
        IfOk result (IsFoundSoFar circuit.old part.now others.now width (length others.now) circuit.new) }
    ensures extends { Extends circuit.old circuit.new (pairs_cost part.now others.now) }
{
    let mut found = none;
    for at in 0..others.len() {
        let other = others.get(at);
        let same = equal_parts(alloc, circuit, part, other)?;
        let more = or_both(circuit, found, other.here, same)?;
        found = more;
    }
    Ok(found)
}

// Whether `first` is true, and each part that is there has been seen.
fn all_seen(
    circuit: &mut Circuit,
    parts: &List<Part>,
    seen: &List<Wire>,
    first: Wire,
) -> Result<Wire, NoMemory>
    requires parts_in { ArePartsOf circuit.old parts.now }
    requires seen_in { AreWiresOf circuit.old seen.now }
    requires seen_len { length seen.now ≡ length parts.now }
    requires first_in { IsWireOf circuit.old first }
    requires room { length circuit.old + 3 * length parts.now ≤ MOST_WIRES }
    ensures seen { IfOk result (IsSeenSoFar circuit.old parts.now seen.now first (length parts.now) circuit.new) }
    ensures extends { Extends circuit.old circuit.new (3 * length parts.now) }
{
    let mut all = first;
    for at in 0..parts.len() {
        let here = parts.get(at).here;
        let mark = *seen.get(at);
        let more = and_if(circuit, all, here, mark)?;
        all = more;
    }
    Ok(all)
}

// Whether two parts have the same integer.
fn equal_parts(alloc: Global, circuit: &mut Circuit, a: &Part, b: &Part) -> Result<Wire, NoMemory>
    requires a_in { IsPartOf circuit.old a.now }
    requires b_in { IsPartOf circuit.old b.now }
    requires room { length circuit.old + 4 * (max (length a.now.bits) (length b.now.bits) + 1) ≤ MOST_WIRES }
    ensures wire { IfOk result (IsWireOf circuit.new) }
    ensures value { IfOk result (λ w. (bits : Items Bool)
        → wire_value circuit.new w bits ≡ int_eq (integer_at circuit.old a.now.bits bits) (integer_at circuit.old b.now.bits bits)) }
    ensures extends { Extends circuit.old circuit.new (4 * (max (length a.now.bits) (length b.now.bits) + 1)) }
{
    let wire = equal(alloc, circuit, &a.bits, &b.bits)?;
    Ok(wire)
}

// True where `first` is, or both others are.
fn or_both(circuit: &mut Circuit, first: Wire, a: Wire, b: Wire) -> Result<Wire, NoMemory>
    requires first_in { IsWireOf circuit.old first }
    requires a_in { IsWireOf circuit.old a }
    requires b_in { IsWireOf circuit.old b }
    requires room { length circuit.old + 2 ≤ MOST_WIRES }
    ensures wire { IfOk result (IsWireOf circuit.new) }
    ensures value { IfOk result (λ w. (bits : Items Bool)
        → wire_value circuit.new w bits
        ≡ (wire_value circuit.old first bits || (wire_value circuit.old a bits && wire_value circuit.old b bits))) }
    ensures extends { Extends circuit.old circuit.new 2 }
{
    let both = circuit.and(a, b)?;
    let wire = circuit.or(first, both)?;
    Ok(wire)
}

// True where `first` is, and `then` is if `test` is.
fn and_if(circuit: &mut Circuit, first: Wire, test: Wire, then: Wire) -> Result<Wire, NoMemory>
    requires first_in { IsWireOf circuit.old first }
    requires test_in { IsWireOf circuit.old test }
    requires then_in { IsWireOf circuit.old then }
    requires room { length circuit.old + 3 ≤ MOST_WIRES }
    ensures wire { IfOk result (IsWireOf circuit.new) }
    ensures value { IfOk result (λ w. (bits : Items Bool)
        → wire_value circuit.new w bits
        ≡ (wire_value circuit.old first bits && (not (wire_value circuit.old test bits) || wire_value circuit.old then bits))) }
    ensures extends { Extends circuit.old circuit.new 3 }
{
    let absent = circuit.not(test)?;
    let right = circuit.or(absent, then)?;
    let wire = circuit.and(first, right)?;
    Ok(wire)
}

// As many times the wire.
fn repeated(alloc: Global, wire: Wire, len: usize) -> Result<List<Wire>, NoMemory>
    ensures { IfOk result (λ r. r ≡ replicate len wire) }
{
    let mut wires = List::new(alloc);
    for _step in 0..len {
        wires.push(wire)?;
    }
    Ok(wires)
}
