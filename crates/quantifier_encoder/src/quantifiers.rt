//! Whether as many of the tuples that are there pass as a quantifier asks for.
ghost use Rattle.std.specs.Prelude.{◌≡◌, ◌+◌, ◌*◌, ◌≤◌, ◌==◌, not, ◌&&◌, ◌||◌, Bool, List as Items, length, map, nat_le, All, IfOk};
ghost use Rattle.bool_circuit.specs.Circuit.{wire_value, wire_values, IsWireOf, AreWiresOf, Extends};
ghost use Rattle.bool_circuit.specs.declared.circuit.TheConstants.{MOST_WIRES};
ghost use Rattle.integer_bits.specs.Totals.{count_true};
ghost use Rattle.quantifier_encoder.specs.Tuples.{guards};
ghost use Rattle.quantifier_encoder.specs.Passing.{passes_present, all_pass, some_passes, passing, many_cost};

use crate::tuples::Tuple;
use bool_circuit::{Circuit, MOST_WIRES, Wire};
use clf_base::{List, NoMemory};
use clf_tree::Quantifier;
use set_bits::{at_least, at_most};
use std::alloc::Global;

/// A wire that is true where as many of the tuples that are there pass as the word asks for, with a wire for each tuple that says whether
/// it passes. At most three wires a tuple for `All` and `Some`, and nine for `One` and `Lone`.
pub fn as_many(
    alloc: Global,
    circuit: &mut Circuit,
    word: Quantifier,
    tuples: &List<Tuple>,
    tests: &List<Wire>,
) -> Result<Wire, NoMemory>
    requires tuples_in { All (λ t. IsWireOf circuit.old t.present) tuples.now }
    requires tests_in { AreWiresOf circuit.old tests.now }
    requires each { length tests.now ≡ length tuples.now }
    requires room { length circuit.old + many_cost word (length tuples.now) ≤ MOST_WIRES }
    ensures wire { IfOk result (IsWireOf circuit.new) }
    ensures value { IfOk result (λ w. (bits : Items Bool) →
        wire_value circuit.new w bits ≡ passes_present word (guards circuit.old tuples.now bits) (wire_values circuit.old tests.now bits)) }
    ensures extends { Extends circuit.old circuit.new (many_cost word (length tuples.now)) }
{
    match word {
        Quantifier::All => {
            let wire = each_passes(circuit, tuples, tests)?;
            Ok(wire)
        }
        Quantifier::Some => {
            let wire = one_passes(circuit, tuples, tests)?;
            Ok(wire)
        }
        Quantifier::One => {
            let passing = passing_tuples(alloc, circuit, tuples, tests)?;
            let wire = exactly_one(alloc, circuit, &passing)?;
            Ok(wire)
        }
        Quantifier::Lone => {
            let passing = passing_tuples(alloc, circuit, tuples, tests)?;
            let wire = at_most(alloc, circuit, &passing, 1)?;
            Ok(wire)
        }
    }
}

// Whether each tuple that is there passes.
fn each_passes(
    circuit: &mut Circuit,
    tuples: &List<Tuple>,
    tests: &List<Wire>,
) -> Result<Wire, NoMemory>
    requires tuples_in { All (λ t. IsWireOf circuit.old t.present) tuples.now }
    requires tests_in { AreWiresOf circuit.old tests.now }
    requires each { length tests.now ≡ length tuples.now }
    requires room { length circuit.old + (3 * length tuples.now + 1) ≤ MOST_WIRES }
    ensures wire { IfOk result (IsWireOf circuit.new) }
    ensures value { IfOk result (λ w. (bits : Items Bool) →
        wire_value circuit.new w bits ≡ all_pass (guards circuit.old tuples.now bits) (wire_values circuit.old tests.now bits)) }
    ensures extends { Extends circuit.old circuit.new (3 * length tuples.now + 1) }
{
    let mut all = circuit.constant(true)?;
    for at in 0..tuples.len() {
        let present = tuples.get(at).present;
        let test = *tests.get(at);
        let more = and_if_there(circuit, all, present, test)?;
        all = more;
    }
    Ok(all)
}

// A wire, and that a tuple passes if it is there.
fn and_if_there(
    circuit: &mut Circuit,
    wire: Wire,
    present: Wire,
    test: Wire,
) -> Result<Wire, NoMemory>
    requires wire_in { IsWireOf circuit.old wire }
    requires present_in { IsWireOf circuit.old present }
    requires test_in { IsWireOf circuit.old test }
    requires room { length circuit.old + 3 ≤ MOST_WIRES }
    ensures wire { IfOk result (IsWireOf circuit.new) }
    ensures value { IfOk result (λ w. (bits : Items Bool) →
        wire_value circuit.new w bits
        ≡ (wire_value circuit.old wire bits && (not (wire_value circuit.old present bits) || wire_value circuit.old test bits))) }
    ensures extends { Extends circuit.old circuit.new 3 }
{
    let absent = circuit.not(present)?;
    let passes = circuit.or(absent, test)?;
    let both = circuit.and(wire, passes)?;
    Ok(both)
}

// Whether one of the tuples that are there passes.
fn one_passes(
    circuit: &mut Circuit,
    tuples: &List<Tuple>,
    tests: &List<Wire>,
) -> Result<Wire, NoMemory>
    requires tuples_in { All (λ t. IsWireOf circuit.old t.present) tuples.now }
    requires tests_in { AreWiresOf circuit.old tests.now }
    requires each { length tests.now ≡ length tuples.now }
    requires room { length circuit.old + (2 * length tuples.now + 1) ≤ MOST_WIRES }
    ensures wire { IfOk result (IsWireOf circuit.new) }
    ensures value { IfOk result (λ w. (bits : Items Bool) →
        wire_value circuit.new w bits ≡ some_passes (guards circuit.old tuples.now bits) (wire_values circuit.old tests.now bits)) }
    ensures extends { Extends circuit.old circuit.new (2 * length tuples.now + 1) }
{
    let mut some = circuit.constant(false)?;
    for at in 0..tuples.len() {
        let present = tuples.get(at).present;
        let test = *tests.get(at);
        let more = or_there(circuit, some, present, test)?;
        some = more;
    }
    Ok(some)
}

// A wire, or that a tuple is there and passes.
fn or_there(circuit: &mut Circuit, wire: Wire, present: Wire, test: Wire) -> Result<Wire, NoMemory>
    requires wire_in { IsWireOf circuit.old wire }
    requires present_in { IsWireOf circuit.old present }
    requires test_in { IsWireOf circuit.old test }
    requires room { length circuit.old + 2 ≤ MOST_WIRES }
    ensures wire { IfOk result (IsWireOf circuit.new) }
    ensures value { IfOk result (λ w. (bits : Items Bool) →
        wire_value circuit.new w bits
        ≡ (wire_value circuit.old wire bits || (wire_value circuit.old present bits && wire_value circuit.old test bits))) }
    ensures extends { Extends circuit.old circuit.new 2 }
{
    let passes = circuit.and(present, test)?;
    let either = circuit.or(wire, passes)?;
    Ok(either)
}

// Of each tuple whether it is there and passes.
fn passing_tuples(
    alloc: Global,
    circuit: &mut Circuit,
    tuples: &List<Tuple>,
    tests: &List<Wire>,
) -> Result<List<Wire>, NoMemory>
    requires tuples_in { All (λ t. IsWireOf circuit.old t.present) tuples.now }
    requires tests_in { AreWiresOf circuit.old tests.now }
    requires each { length tests.now ≡ length tuples.now }
    requires room { length circuit.old + length tuples.now ≤ MOST_WIRES }
    ensures wires { IfOk result (AreWiresOf circuit.new) }
    ensures len { IfOk result (λ r. length r ≡ length tuples.now) }
    ensures values { IfOk result (λ r. (bits : Items Bool) →
        wire_values circuit.new r bits ≡ passing (guards circuit.old tuples.now bits) (wire_values circuit.old tests.now bits)) }
    ensures extends { Extends circuit.old circuit.new (length tuples.now) }
{
    let mut passing = List::new(alloc);
    for at in 0..tuples.len() {
        let present = tuples.get(at).present;
        let test = *tests.get(at);
        let passes = circuit.and(present, test)?;
        passing.push(passes)?;
    }
    Ok(passing)
}

// Whether one of the wires is true, and no other.
fn exactly_one(alloc: Global, circuit: &mut Circuit, wires: &List<Wire>) -> Result<Wire, NoMemory>
    requires wires_in { AreWiresOf circuit.old wires.now }
    requires room { length circuit.old + (8 * length wires.now + 7) ≤ MOST_WIRES }
    ensures wire { IfOk result (IsWireOf circuit.new) }
    ensures value { IfOk result (λ w. (bits : Items Bool) →
        wire_value circuit.new w bits ≡ (count_true (wire_values circuit.old wires.now bits) == 1)) }
    ensures extends { Extends circuit.old circuit.new (8 * length wires.now + 7) }
{
    let some = at_least(alloc, circuit, wires, 1)?;
    let few = at_most(alloc, circuit, wires, 1)?;
    let both = circuit.and(some, few)?;
    Ok(both)
}
