//! The numbers of goals compared with a vector.

ghost use Rattle.std.specs.Prelude.{◌≡◌, ◌+◌, ◌*◌, ◌≤◌, Bool, not, if◌then◌else◌, map, length, min, IfOk, List as Items};
ghost use Rattle.bool_circuit.specs.Circuit.{wire_value, AreWiresOf, IsWireOf, Extends};
ghost use Rattle.bool_circuit.specs.declared.circuit.TheConstants.{MOST_WIRES};
ghost use Rattle.clf_tree.specs.Front.{better, dominates};
ghost use Rattle.integer_bits.specs.Numbers.{integer_at, IsNumber};
ghost use Rattle.question_space.specs.Comparisons.{AreNumbers, IsCompared, goal_values, ways_in};
ghost use Rattle.question_space.specs.Vectors.{vector_cost};

use bool_circuit::{Circuit, MOST_WIRES, Wire};
use clf_base::{List, NoMemory};
use clf_tree::Goal;
use integer_bits::{constant, less};
use std::alloc::Global;

// A wire that is true where a number is better than a value, at all bits: below it, or above. All 128 bits of the value are compared.
fn beats(
    alloc: Global,
    circuit: &mut Circuit,
    least: bool,
    number: &List<Wire>,
    value: i128,
) -> Result<Wire, NoMemory>
    requires number { IsNumber 64 circuit.old number.now }
    requires room { length circuit.old + 1034 ≤ MOST_WIRES }
    ensures wire { IfOk result (IsWireOf circuit.new) }
    ensures value { IfOk result (λ w. (bits : Items Bool)
        → wire_value circuit.new w bits ≡ better least (integer_at circuit.old number.now bits) value) }
    ensures extends { Extends circuit.old circuit.new 1034 }
{
    let bound = constant(alloc, circuit, value, 128)?;
    if least {
        let below = less(alloc, circuit, number, &bound)?;
        return Ok(below);
    }
    let above = less(alloc, circuit, &bound, number)?;
    Ok(above)
}

// Whether the least is wanted; where the worse is asked for, the other way round.
fn turned(worse: bool, least: bool) -> bool
    ensures { result ≡ (if worse then not least else least) }
{
    if worse { !least } else { least }
}

// How many goals have a number and a value.
fn shared(goals: usize, numbers: usize, values: usize) -> usize
    ensures { result ≡ min goals (min numbers values) }
{
    goals.min(numbers.min(values))
}

/// A wire that is true where some goal is better than in a vector, or some goal is worse, at all bits. Vectors of other lengths than the
/// goals are compared as far as both go. A goal takes at most two wires a bit of the wider number.
pub(crate) fn compared(
    alloc: Global,
    circuit: &mut Circuit,
    worse: bool,
    goals: &[Goal],
    numbers: &[List<Wire>],
    vector: &[i128],
) -> Result<Wire, NoMemory>
    requires numbers { AreNumbers circuit.old numbers.now }
    requires room { length circuit.old + vector_cost (length goals.now) ≤ MOST_WIRES }
    ensures { IfOk result (IsCompared worse circuit.old goals.now numbers.now vector.now (length goals.now) circuit.new) }
{
    let mut told = circuit.constant(false)?;
    for at in 0..shared(goals.len(), numbers.len(), vector.len()) {
        let least = turned(worse, goals[at].least);
        let differs = beats(alloc, circuit, least, &numbers[at], vector[at])?;
        told = circuit.or(told, differs)?;
    }
    Ok(told)
}

/// A wire that is true where the goals dominate a vector, at all bits: none is worse, and some is better.
pub(crate) fn improves(
    alloc: Global,
    circuit: &mut Circuit,
    goals: &[Goal],
    numbers: &[List<Wire>],
    vector: &[i128],
) -> Result<Wire, NoMemory>
    requires numbers { AreNumbers circuit.old numbers.now }
    requires room { length circuit.old + (2 * vector_cost (length goals.now) + 2) ≤ MOST_WIRES }
    ensures wire { IfOk result (IsWireOf circuit.new) }
    ensures value { IfOk result (λ w. (bits : Items Bool)
        → wire_value circuit.new w bits ≡ dominates (ways_in goals.now) (goal_values circuit.old numbers.now bits) vector.now) }
    ensures extends { IfOk result (λ w. Extends circuit.old circuit.new (2 * vector_cost (length goals.now) + 2)) }
{
    let worse = compared(alloc, circuit, true, goals, numbers, vector)?;
    let better = compared(alloc, circuit, false, goals, numbers, vector)?;
    let no_worse = circuit.not(worse)?;
    let both = circuit.and(no_worse, better)?;
    Ok(both)
}
