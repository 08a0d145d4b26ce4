//! The wires of goals.

ghost use Rattle.std.specs.Prelude.{◌+◌, ◌≤◌, length, IfOk, IsTrue};
ghost use Rattle.bool_circuit.specs.declared.circuit.TheConstants.{MOST_WIRES};
ghost use Rattle.set_bits.specs.Fitting.{Fits};
ghost use Rattle.shape_encoder.specs.Reading.{IsLaid};
ghost use Rattle.shown_instance.specs.Consistent.{abstract_are_empty};
ghost use Rattle.question_space.specs.Amounts.{AreGoals};
ghost use Rattle.question_space.specs.Wiring.{AreSoundGoals, truths_cost};

use bool_circuit::{Circuit, MOST_WIRES, Wire};
use clf_base::{List, NoMemory};
use clf_tree::{CoreExpr, CoreModel, Scopes};
use constraint_encoder::{Bound, number};
use node_encoder::Ground;
use set_bits::Layout;
use std::alloc::Global;

// The numbers of goals, in their order: at bits that show a tree of the right shape each is the value of its goal in the instance. They
// take at most as many wires as the goals weigh.
fn goal_numbers(
    alloc: Global,
    circuit: &mut Circuit,
    ground: &Ground<'_>,
    goals: &[CoreExpr],
) -> Result<List<List<Wire>>, NoMemory>
    requires sound { AreSoundGoals ground.now.core.now.clafers ground.now.scopes.now goals.now }
    requires empty { IsTrue (abstract_are_empty ground.now.core.now.clafers ground.now.scopes.now) }
    requires laid { IsLaid circuit.old ground.now.layout.now }
    requires room { length circuit.old + truths_cost ground.now.scopes.now goals.now ≤ MOST_WIRES }
    ensures { IfOk result (AreGoals ground.now.core.now.clafers ground.now.scopes.now ground.now.layout.now
        circuit.old goals.now (length goals.now) circuit.new) }
{
    let mut bound = Bound::new(alloc);
    let mut numbers = List::new(alloc);
    for expr in goals {
        let wires = number(alloc, circuit, ground, expr, &mut bound)?;
        numbers.push(wires)?;
    }
    Ok(numbers)
}

/// The numbers of the goals of a model.
pub(crate) fn goals(
    alloc: Global,
    circuit: &mut Circuit,
    core: &CoreModel,
    scopes: &Scopes,
    layout: &Layout,
) -> Result<List<List<Wire>>, NoMemory>
    requires fits { Fits core.now.clafers scopes.now layout.now }
    requires sound { AreSoundGoals core.now.clafers scopes.now core.now.goals }
    requires empty { IsTrue (abstract_are_empty core.now.clafers scopes.now) }
    requires laid { IsLaid circuit.old layout.now }
    requires room { length circuit.old + truths_cost scopes.now core.now.goals ≤ MOST_WIRES }
    ensures { IfOk result (AreGoals core.now.clafers scopes.now layout.now
        circuit.old core.now.goals (length core.now.goals) circuit.new) }
{
    let ground = Ground::new(alloc, core, scopes, layout)?;
    let numbers = goal_numbers(alloc, circuit, &ground, core.goals.as_slice())?;
    Ok(numbers)
}
