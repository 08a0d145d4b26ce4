//! What is known of the operands of a formed form. These calls do nothing: their contracts are what is known.

ghost use Rattle.std.specs.Prelude.{◌≡◌, ◌+◌, ◌*◌, ◌^◌, ◌≤◌, length, not, IsTrue};
ghost use Rattle.std.specs.List.{All};
ghost use Rattle.bool_circuit.specs.declared.circuit.TheConstants.{MOST_WIRES};
ghost use Rattle.clf_tree.specs.Core.{Quant, core};
ghost use Rattle.clf_tree.specs.CoreSoundness.{is_number, is_set, is_test, sort};
ghost use Rattle.clf_tree.specs.CoreWeights.{core_weight, most_nodes, quantified_weight, values_weight};
ghost use Rattle.shape_encoder.specs.Reading.{IsLaid};
ghost use Rattle.told_constraints.specs.Formed.{is_formed};
ghost use Rattle.constraint_encoder.specs.Operands.{has_two_numbers, has_two_sets, has_two_truths, left_of, right_of};
ghost use Rattle.constraint_encoder.specs.Operands.{is_choice, is_step, is_value_test, step_from, test_of};

use crate::bound::Bound;
use bool_circuit::{Circuit, MOST_WIRES};
use clf_base::List;
use clf_tree::{CoreExpr, Quantifier};
use node_encoder::Ground;
use quantifier_encoder::Tuple;

/// The two truths of a form that has two.
pub(crate) fn truths_are_formed(
    ground: &Ground<'_>,
    expr: &CoreExpr,
    left: &CoreExpr,
    right: &CoreExpr,
    bound: &Bound,
)
    requires form { IsTrue (has_two_truths (core expr.now)) }
    requires formed { IsTrue (is_formed (core expr.now) (length bound.now)) }
    requires left { core left.now ≡ left_of (core expr.now) }
    requires right { core right.now ≡ right_of (core expr.now) }
    ensures left { core left.now ≡ left_of (core expr.now) }
    ensures left_truth { IsTrue (is_test (sort (core left.now))) }
    ensures left_formed { IsTrue (is_formed (core left.now) (length bound.now)) }
    ensures left_weight { core_weight ground.now.scopes.now (core left.now)
        ≡ core_weight ground.now.scopes.now (left_of (core expr.now)) }
    ensures right { core right.now ≡ right_of (core expr.now) }
    ensures right_truth { IsTrue (is_test (sort (core right.now))) }
    ensures right_formed { IsTrue (is_formed (core right.now) (length bound.now)) }
    ensures right_weight { core_weight ground.now.scopes.now (core right.now)
        ≡ core_weight ground.now.scopes.now (right_of (core expr.now)) }
{}

/// The two sets of nodes of a form that has two.
pub(crate) fn sets_are_formed(
    ground: &Ground<'_>,
    expr: &CoreExpr,
    left: &CoreExpr,
    right: &CoreExpr,
    bound: &Bound,
)
    requires form { IsTrue (has_two_sets (core expr.now)) }
    requires formed { IsTrue (is_formed (core expr.now) (length bound.now)) }
    requires left { core left.now ≡ left_of (core expr.now) }
    requires right { core right.now ≡ right_of (core expr.now) }
    ensures left { core left.now ≡ left_of (core expr.now) }
    ensures left_set { IsTrue (is_set (sort (core left.now))) }
    ensures left_formed { IsTrue (is_formed (core left.now) (length bound.now)) }
    ensures left_weight { core_weight ground.now.scopes.now (core left.now)
        ≡ core_weight ground.now.scopes.now (left_of (core expr.now)) }
    ensures right { core right.now ≡ right_of (core expr.now) }
    ensures right_set { IsTrue (is_set (sort (core right.now))) }
    ensures right_formed { IsTrue (is_formed (core right.now) (length bound.now)) }
    ensures right_weight { core_weight ground.now.scopes.now (core right.now)
        ≡ core_weight ground.now.scopes.now (right_of (core expr.now)) }
{}

/// The two numbers of a form that has two.
pub(crate) fn numbers_are_formed(
    ground: &Ground<'_>,
    expr: &CoreExpr,
    left: &CoreExpr,
    right: &CoreExpr,
    bound: &Bound,
)
    requires form { IsTrue (has_two_numbers (core expr.now)) }
    requires formed { IsTrue (is_formed (core expr.now) (length bound.now)) }
    requires left { core left.now ≡ left_of (core expr.now) }
    requires right { core right.now ≡ right_of (core expr.now) }
    ensures left { core left.now ≡ left_of (core expr.now) }
    ensures left_number { IsTrue (is_number (sort (core left.now))) }
    ensures left_formed { IsTrue (is_formed (core left.now) (length bound.now)) }
    ensures left_weight { core_weight ground.now.scopes.now (core left.now)
        ≡ core_weight ground.now.scopes.now (left_of (core expr.now)) }
    ensures right { core right.now ≡ right_of (core expr.now) }
    ensures right_number { IsTrue (is_number (sort (core right.now))) }
    ensures right_formed { IsTrue (is_formed (core right.now) (length bound.now)) }
    ensures right_weight { core_weight ground.now.scopes.now (core right.now)
        ≡ core_weight ground.now.scopes.now (right_of (core expr.now)) }
{}

/// The two sides of a comparison of values.
pub(crate) fn sides_are_formed(
    ground: &Ground<'_>,
    expr: &CoreExpr,
    left: &CoreExpr,
    right: &CoreExpr,
    bound: &Bound,
)
    requires form { IsTrue (is_value_test (core expr.now)) }
    requires formed { IsTrue (is_formed (core expr.now) (length bound.now)) }
    requires left { core left.now ≡ left_of (core expr.now) }
    requires right { core right.now ≡ right_of (core expr.now) }
    ensures left_values { IsTrue (not (is_test (sort (core left.now)))) }
    ensures left_formed { IsTrue (is_formed (core left.now) (length bound.now)) }
    ensures right_values { IsTrue (not (is_test (sort (core right.now)))) }
    ensures right_formed { IsTrue (is_formed (core right.now) (length bound.now)) }
    ensures weight { core_weight ground.now.scopes.now (core expr.now)
        ≡ values_weight ground.now.scopes.now (sort (core left.now)) (sort (core right.now))
        + core_weight ground.now.scopes.now (core left.now) + core_weight ground.now.scopes.now (core right.now) }
{}

/// The set that a step goes from.
pub(crate) fn step_is_formed(ground: &Ground<'_>, expr: &CoreExpr, of: &CoreExpr, bound: &Bound)
    requires form { IsTrue (is_step (core expr.now)) }
    requires formed { IsTrue (is_formed (core expr.now) (length bound.now)) }
    requires of { core of.now ≡ step_from (core expr.now) }
    ensures set { IsTrue (is_set (sort (core of.now))) }
    ensures formed { IsTrue (is_formed (core of.now) (length bound.now)) }
    ensures light { core_weight ground.now.scopes.now (core of.now) ≤ core_weight ground.now.scopes.now (core expr.now) }
{}

/// The test of a choice.
pub(crate) fn choice_is_formed(ground: &Ground<'_>, expr: &CoreExpr, test: &CoreExpr, bound: &Bound)
    requires form { IsTrue (is_choice (core expr.now)) }
    requires formed { IsTrue (is_formed (core expr.now) (length bound.now)) }
    requires test { core test.now ≡ test_of (core expr.now) }
    ensures truth { IsTrue (is_test (sort (core test.now))) }
    ensures formed { IsTrue (is_formed (core test.now) (length bound.now)) }
    ensures light { core_weight ground.now.scopes.now (core test.now) ≤ core_weight ground.now.scopes.now (core expr.now) }
{}

/// The set that a quantifier goes over, and its body.
pub(crate) fn quantifier_is_formed(
    ground: &Ground<'_>,
    expr: &CoreExpr,
    word: Quantifier,
    disj: bool,
    names: usize,
    over: &CoreExpr,
    body: &CoreExpr,
    bound: &Bound,
)
    requires form { core expr.now ≡ Quant word disj names (core over.now) (core body.now) }
    requires formed { IsTrue (is_formed (core expr.now) (length bound.now)) }
    ensures form { core expr.now ≡ Quant word disj names (core over.now) (core body.now) }
    ensures set { IsTrue (is_set (sort (core over.now))) }
    ensures set_formed { IsTrue (is_formed (core over.now) (length bound.now)) }
    ensures truth { IsTrue (is_test (sort (core body.now))) }
    ensures truth_formed { IsTrue (is_formed (core body.now) (length bound.now + names)) }
    ensures weight { core_weight ground.now.scopes.now (core expr.now)
        ≡ quantified_weight word (most_nodes ground.now.scopes.now (sort (core over.now)) ^ names) names
        (core_weight ground.now.scopes.now (core body.now)) (core_weight ground.now.scopes.now (core over.now)) }
{}

/// The tests of a body at some tuples.
pub(crate) fn tests_have_room(
    ground: &Ground<'_>,
    circuit: &Circuit,
    body: &CoreExpr,
    bound: &Bound,
    names: usize,
    tuples: &List<Tuple>,
    each: &[Tuple],
)
    requires formed { IsTrue (is_formed (core body.now) (length bound.now + names)) }
    requires named { All (λ t. length t.slots ≡ names) tuples.now }
    requires each { each.now ≡ tuples.now }
    requires laid { IsLaid circuit.now ground.now.layout.now }
    requires room { length circuit.now + length tuples.now * core_weight ground.now.scopes.now (core body.now) ≤ MOST_WIRES }
    ensures formed { All (λ t. IsTrue (is_formed (core body.now) (length bound.now + length t.slots))) each.now }
    ensures laid { IsLaid circuit.now ground.now.layout.now }
    ensures room { length circuit.now + length each.now * core_weight ground.now.scopes.now (core body.now) ≤ MOST_WIRES }
{}
