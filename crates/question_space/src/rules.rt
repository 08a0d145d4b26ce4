//! The wires of constraints.

ghost use Rattle.std.specs.Prelude.{◌+◌, ◌≤◌, length, IfOk, IsTrue};
ghost use Rattle.bool_circuit.specs.Circuit.{AreWiresOf, IsWireOf};
ghost use Rattle.bool_circuit.specs.declared.circuit.TheConstants.{MOST_WIRES};
ghost use Rattle.set_bits.specs.Fitting.{IsRead, size};
ghost use Rattle.shown_instance.specs.Consistent.{abstract_are_empty};
ghost use Rattle.question_space.specs.Wiring.{AreRules, AreSound, IsConjunctionSoFar, truths_cost};

use bool_circuit::{Circuit, MOST_WIRES, Wire};
use clf_base::{List, NoMemory};
use clf_tree::CoreExpr;
use constraint_encoder::{Bound, truth};
use node_encoder::Ground;
use set_bits::grown_circuits_keep_sets;
use shape_encoder::layouts_that_fit_are_laid;
use std::alloc::Global;

/// The wires of truths, in their order: at bits that show a tree of the right shape each tells whether its truth holds in the instance.
/// They take at most as many wires as the truths weigh.
pub(crate) fn rule_wires(
    alloc: Global,
    circuit: &mut Circuit,
    ground: &Ground<'_>,
    truths: &[CoreExpr],
) -> Result<List<Wire>, NoMemory>
    requires sound { AreSound ground.now.core.now.clafers ground.now.scopes.now truths.now }
    requires empty { IsTrue (abstract_are_empty ground.now.core.now.clafers ground.now.scopes.now) }
    requires read { IsRead circuit.old (size ground.now.layout.now) }
    requires room { length circuit.old + truths_cost ground.now.scopes.now truths.now ≤ MOST_WIRES }
    ensures { IfOk result (AreRules ground.now.core.now.clafers ground.now.scopes.now ground.now.layout.now
        circuit.old truths.now circuit.new) }
{
    layouts_that_fit_are_laid();
    grown_circuits_keep_sets();
    let mut bound = Bound::new(alloc);
    let mut rules = List::new(alloc);
    for expr in truths {
        let wire = truth(alloc, circuit, ground, expr, &mut bound)?;
        rules.push(wire)?;
    }
    Ok(rules)
}

/// A wire that is true where the first and all others are. It takes at most a wire for each of the others.
pub(crate) fn conjunction(
    circuit: &mut Circuit,
    first: Wire,
    others: &[Wire],
) -> Result<Wire, NoMemory>
    requires first_in { IsWireOf circuit.old first }
    requires others_in { AreWiresOf circuit.old others.now }
    requires room { length circuit.old + length others.now ≤ MOST_WIRES }
    ensures { IfOk result (IsConjunctionSoFar circuit.old first others.now (length others.now) circuit.new) }
{
    let mut all = first;
    for other in others {
        all = circuit.and(all, *other)?;
    }
    Ok(all)
}
