//! What the wires of an expression mean in the instance that bits show.

ghost use Rattle.std.specs.Prelude.{◌≡◌, ℕ, ◌+◌, ◌<◌, ◌≤◌, Bool, length, IfOk, IsTrue, List as Items};
ghost use Rattle.bool_circuit.specs.Circuit.{wire_value, AreWiresOf, IsWireOf, Extends};
ghost use Rattle.bool_circuit.specs.declared.circuit.TheConstants.{MOST_WIRES};
ghost use Rattle.integer_bits.specs.Numbers.{integer_at};
ghost use Rattle.clf_tree.specs.Core.{core};
ghost use Rattle.clf_tree.specs.CoreMeaning.{integer_in, meaning, truth_in};
ghost use Rattle.clf_tree.specs.CoreSoundness.{Sound, clafers_in, is_number, is_set, is_test, sort};
ghost use Rattle.clf_tree.specs.CoreWeights.{bits_of, core_weight, most_nodes};
ghost use Rattle.clf_tree.specs.Meaning.{nodes};
ghost use Rattle.clf_tree.specs.Nodes.{has_node};
ghost use Rattle.set_bits.specs.Fitting.{slot};
ghost use Rattle.set_bits.specs.Sets.{IsSetOf, is_in};
ghost use Rattle.shape_encoder.specs.Reading.{IsLaid};
ghost use Rattle.shown_instance.specs.Consistent.{abstract_are_empty};
ghost use Rattle.shown_instance.specs.Shown.{shown};
ghost use Rattle.told_constraints.specs.Standing.{Stands, clafers_at, nodes_at};
ghost use Rattle.node_encoder.specs.Listing.{AreListed};

use crate::bound::Bound;
use crate::expressions::{encode_nodes, encode_number, encode_truth};
use bool_circuit::{Circuit, MOST_WIRES, Wire};
use clf_base::{List, NoMemory};
use clf_tree::CoreExpr;
use node_encoder::Ground;
use set_bits::Member;
use std::alloc::Global;
use told_constraints::{bits_tell_the_meaning, sound_expressions_are_formed};

/// The wire of a truth: at all bits that show an instance that is a tree of the right shape and in which the bound nodes are entries it is
/// true exactly where the truth is. It adds at most as many wires as the expression weighs.
pub fn truth(
    alloc: Global,
    circuit: &mut Circuit,
    ground: &Ground<'_>,
    expr: &CoreExpr,
    bound: &mut Bound,
) -> Result<Wire, NoMemory>
    requires truth { IsTrue (is_test (sort (core expr.now))) }
    requires sound { Sound ground.now.core.now.clafers ground.now.scopes.now (core expr.now) (clafers_at ground.now.layout.now bound.old) }
    requires empty { IsTrue (abstract_are_empty ground.now.core.now.clafers ground.now.scopes.now) }
    requires laid { IsLaid circuit.old ground.now.layout.now }
    requires room { length circuit.old + core_weight ground.now.scopes.now (core expr.now) ≤ MOST_WIRES }
    ensures wire { IfOk result (IsWireOf circuit.new) }
    ensures value { IfOk result (λ w. (bits : Items Bool) →
        Stands ground.now.core.now.clafers ground.now.scopes.now ground.now.layout.now bits bound.old →
        wire_value circuit.new w bits
        ≡ truth_in (meaning (shown ground.now.layout.now bits) (core expr.now) (nodes_at ground.now.layout.now bound.old))) }
    ensures extends { Extends circuit.old circuit.new (core_weight ground.now.scopes.now (core expr.now)) }
    ensures bound { bound.new ≡ bound.old }
{
    sound_expressions_are_formed();
    bits_tell_the_meaning();
    let wire = encode_truth(alloc, circuit, ground, expr, bound)?;
    Ok(wire)
}

/// The set of a node form, of its own clafers: at all bits that show an instance that is a tree of the right shape and in which the bound
/// nodes are entries, a slot is in it exactly where its node is one that the form means. It has at most as many members as the form can
/// have nodes.
pub fn nodes(
    alloc: Global,
    circuit: &mut Circuit,
    ground: &Ground<'_>,
    expr: &CoreExpr,
    bound: &mut Bound,
) -> Result<List<Member>, NoMemory>
    requires set { IsTrue (is_set (sort (core expr.now))) }
    requires sound { Sound ground.now.core.now.clafers ground.now.scopes.now (core expr.now) (clafers_at ground.now.layout.now bound.old) }
    requires empty { IsTrue (abstract_are_empty ground.now.core.now.clafers ground.now.scopes.now) }
    requires laid { IsLaid circuit.old ground.now.layout.now }
    requires room { length circuit.old + core_weight ground.now.scopes.now (core expr.now) ≤ MOST_WIRES }
    ensures set { IfOk result (IsSetOf circuit.new) }
    ensures listed { IfOk result (AreListed ground.now.layout.now (clafers_in (sort (core expr.now)))) }
    ensures few { IfOk result (λ r. length r ≤ most_nodes ground.now.scopes.now (sort (core expr.now))) }
    ensures value { IfOk result (λ r. (bits : Items Bool) (s : ℕ) →
        Stands ground.now.core.now.clafers ground.now.scopes.now ground.now.layout.now bits bound.old →
        s < length ground.now.layout.now.slots →
        is_in circuit.new r s bits
        ≡ has_node (nodes (meaning (shown ground.now.layout.now bits) (core expr.now) (nodes_at ground.now.layout.now bound.old)))
        (slot ground.now.layout.now.slots s)) }
    ensures extends { Extends circuit.old circuit.new (core_weight ground.now.scopes.now (core expr.now)) }
    ensures bound { bound.new ≡ bound.old }
{
    sound_expressions_are_formed();
    bits_tell_the_meaning();
    let set = encode_nodes(alloc, circuit, ground, expr, bound)?;
    Ok(set)
}

/// The wires of a number, the lowest first, in two's complement and at most as many as it has bits: at all bits that show an instance that
/// is a tree of the right shape and in which the bound nodes are entries they are the integer that the expression means.
pub fn number(
    alloc: Global,
    circuit: &mut Circuit,
    ground: &Ground<'_>,
    expr: &CoreExpr,
    bound: &mut Bound,
) -> Result<List<Wire>, NoMemory>
    requires number { IsTrue (is_number (sort (core expr.now))) }
    requires sound { Sound ground.now.core.now.clafers ground.now.scopes.now (core expr.now) (clafers_at ground.now.layout.now bound.old) }
    requires empty { IsTrue (abstract_are_empty ground.now.core.now.clafers ground.now.scopes.now) }
    requires laid { IsLaid circuit.old ground.now.layout.now }
    requires room { length circuit.old + core_weight ground.now.scopes.now (core expr.now) ≤ MOST_WIRES }
    ensures wires { IfOk result (AreWiresOf circuit.new) }
    ensures some { IfOk result (λ r. 0 < length r) }
    ensures few { IfOk result (λ r. length r ≤ bits_of ground.now.scopes.now (sort (core expr.now))) }
    ensures value { IfOk result (λ r. (bits : Items Bool) →
        Stands ground.now.core.now.clafers ground.now.scopes.now ground.now.layout.now bits bound.old →
        integer_at circuit.new r bits
        ≡ integer_in (meaning (shown ground.now.layout.now bits) (core expr.now) (nodes_at ground.now.layout.now bound.old))) }
    ensures extends { Extends circuit.old circuit.new (core_weight ground.now.scopes.now (core expr.now)) }
    ensures bound { bound.new ≡ bound.old }
{
    sound_expressions_are_formed();
    bits_tell_the_meaning();
    let number = encode_number(alloc, circuit, ground, expr, bound)?;
    Ok(number)
}
