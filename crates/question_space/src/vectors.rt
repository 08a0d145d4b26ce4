//! The vectors of a question on wires.

ghost use Rattle.std.specs.Prelude.{◌+◌, ◌*◌, ◌≤◌, length, IfOk};
ghost use Rattle.bool_circuit.specs.declared.circuit.TheConstants.{MOST_WIRES};
ghost use Rattle.question_space.specs.Comparisons.{AreBlocks, AreNumbers, AreTests, tests_cost};
ghost use Rattle.question_space.specs.Vectors.{vector_cost};

use crate::comparing::{compared, improves};
use bool_circuit::{Circuit, MOST_WIRES, Wire};
use clf_base::{List, NoMemory};
use clf_tree::{Goal, Question, Vector};
use std::alloc::Global;

// For each vector a wire that is true where some goal is better than in it, at all bits.
fn blocks(
    alloc: Global,
    circuit: &mut Circuit,
    goals: &[Goal],
    numbers: &[List<Wire>],
    found: &[Vector],
) -> Result<List<Wire>, NoMemory>
    requires numbers { AreNumbers circuit.old numbers.now }
    requires room { length circuit.old + length found.now * vector_cost (length goals.now) ≤ MOST_WIRES }
    ensures { IfOk result (AreBlocks circuit.old goals.now numbers.now found.now (length found.now) circuit.new) }
{
    let mut wires = List::new(alloc);
    for vector in found {
        let wire = compared(
            alloc,
            circuit,
            false,
            goals,
            numbers,
            vector.values.as_slice(),
        )?;
        wires.push(wire)?;
    }
    Ok(wires)
}

/// The wires of the vectors of a question: for each found one whether some goal is better than in it, and for the one to improve, if there
/// is one, whether the goals dominate it. They are exact at all bits.
pub(crate) fn tests(
    alloc: Global,
    circuit: &mut Circuit,
    goals: &[Goal],
    numbers: &[List<Wire>],
    question: &Question,
) -> Result<List<Wire>, NoMemory>
    requires numbers { AreNumbers circuit.old numbers.now }
    requires room { length circuit.old + tests_cost (length goals.now) question.now ≤ MOST_WIRES }
    ensures { IfOk result (AreTests circuit.old goals.now numbers.now question.now circuit.new) }
{
    let mut wires = blocks(alloc, circuit, goals, numbers, question.found.as_slice())?;
    match &question.improve {
        Some(vector) => {
            let wire = improves(alloc, circuit, goals, numbers, vector.values.as_slice())?;
            wires.push(wire)?;
            Ok(wires)
        }
        None => Ok(wires),
    }
}
