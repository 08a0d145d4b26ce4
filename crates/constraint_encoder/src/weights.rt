//! What is made for a form takes no more wires than the form's own weight. These calls do nothing: their contracts are what is known.

ghost use Rattle.std.specs.Prelude.{◌+◌, ◌*◌, ◌^◌, ◌≤◌, length, max};
ghost use Rattle.clf_tree.specs.Core.{core};
ghost use Rattle.clf_tree.specs.CoreSoundness.{Nodes, sort};
ghost use Rattle.clf_tree.specs.CoreWeights.{bits_of, core_weight, count_weight, most_nodes, quantified_weight, range_width, values_weight};
ghost use Rattle.node_encoder.specs.Listing.{room};
ghost use Rattle.number_encoder.specs.Costs.{count_cost, total_cost, values_cost};
ghost use Rattle.number_encoder.specs.Values.{widest};
ghost use Rattle.quantifier_encoder.specs.Passing.{many_cost};

use bool_circuit::Wire;
use clf_base::List;
use clf_tree::{CoreExpr, Quantifier};
use integer_bits::Part;
use node_encoder::Ground;
use number_encoder::numbers_stay_within_weights;
use quantifier_encoder::{Tuple, quantifiers_are_within_their_weight};
use set_bits::Member;

/// A step from the set of a form.
pub(crate) fn steps_are_within(ground: &Ground<'_>, ks: &[u32], of: &CoreExpr, set: &List<Member>)
    requires { length set.now ≤ most_nodes ground.now.scopes.now (sort (core of.now)) }
    ensures { 4 * (length set.now * room ground.now.scopes.now ks.now)
        ≤ 4 * most_nodes ground.now.scopes.now (sort (core of.now)) * most_nodes ground.now.scopes.now (Nodes ks.now) }
{}

/// A count of the set of a form.
pub(crate) fn counts_are_within(ground: &Ground<'_>, width: u32, of: &CoreExpr, set: &List<Member>)
    requires { length set.now ≤ most_nodes ground.now.scopes.now (sort (core of.now)) }
    ensures { count_cost width (length set.now)
        ≤ count_weight ground.now.scopes.now (most_nodes ground.now.scopes.now (sort (core of.now))) }
{
    numbers_stay_within_weights();
}

/// A sum over the set of a form.
pub(crate) fn totals_are_within(ground: &Ground<'_>, width: u32, of: &CoreExpr, set: &List<Member>)
    requires { length set.now ≤ most_nodes ground.now.scopes.now (sort (core of.now)) }
    ensures { total_cost ground.now.scopes.now width (length set.now)
        ≤ count_weight ground.now.scopes.now (most_nodes ground.now.scopes.now (sort (core of.now))) }
{
    numbers_stay_within_weights();
}

/// A product.
pub(crate) fn products_are_within(width: u32)
    ensures { 16 * ((width + 1) * (width + 1)) ≤ 16 * (width + 1) * (width + 1) }
{
    numbers_stay_within_weights();
}

/// The comparison of the numbers of two forms.
pub(crate) fn orders_are_within(
    ground: &Ground<'_>,
    a: &CoreExpr,
    b: &CoreExpr,
    left: &List<Wire>,
    right: &List<Wire>,
)
    requires left { length left.now ≤ bits_of ground.now.scopes.now (sort (core a.now)) }
    requires right { length right.now ≤ bits_of ground.now.scopes.now (sort (core b.now)) }
    ensures { 8 * (max (length left.now) (length right.now) + 1)
        ≤ 8 * (max (bits_of ground.now.scopes.now (sort (core a.now))) (bits_of ground.now.scopes.now (sort (core b.now))) + 1) }
{
    numbers_stay_within_weights();
}

/// A wire for each of two sides of values.
pub(crate) fn sides_are_within(ground: &Ground<'_>, a: &CoreExpr, b: &CoreExpr)
    ensures { 2 ≤ values_weight ground.now.scopes.now (sort (core a.now)) (sort (core b.now)) }
{
    numbers_stay_within_weights();
}

/// The comparison of two sides of values, with a wire more for each of them.
pub(crate) fn values_are_within(
    ground: &Ground<'_>,
    a: &CoreExpr,
    b: &CoreExpr,
    left: &List<Part>,
    right: &List<Part>,
)
    requires left { length left.now ≤ most_nodes ground.now.scopes.now (sort (core a.now)) }
    requires left_narrow { widest left.now
        ≤ max (range_width ground.now.scopes.now) (bits_of ground.now.scopes.now (sort (core a.now))) }
    requires right { length right.now ≤ most_nodes ground.now.scopes.now (sort (core b.now)) }
    requires right_narrow { widest right.now
        ≤ max (range_width ground.now.scopes.now) (bits_of ground.now.scopes.now (sort (core b.now))) }
    ensures { values_cost (length left.now) (length right.now) (max (widest left.now) (widest right.now)) + 2
        ≤ values_weight ground.now.scopes.now (sort (core a.now)) (sort (core b.now)) }
{
    numbers_stay_within_weights();
}

/// The set that a quantifier goes over.
pub(crate) fn ranges_are_within(
    ground: &Ground<'_>,
    word: Quantifier,
    names: usize,
    over: &CoreExpr,
    body: &CoreExpr,
)
    ensures { core_weight ground.now.scopes.now (core over.now)
        ≤ quantified_weight word (most_nodes ground.now.scopes.now (sort (core over.now)) ^ names) names
        (core_weight ground.now.scopes.now (core body.now)) (core_weight ground.now.scopes.now (core over.now)) }
{
    quantifiers_are_within_their_weight();
}

/// The tuples of the set of a form.
pub(crate) fn tuples_are_within(
    ground: &Ground<'_>,
    word: Quantifier,
    names: usize,
    over: &CoreExpr,
    body: &CoreExpr,
    set: &List<Member>,
)
    requires { length set.now ≤ most_nodes ground.now.scopes.now (sort (core over.now)) }
    ensures { core_weight ground.now.scopes.now (core over.now) + (names * length set.now ^ names + 1)
        ≤ quantified_weight word (most_nodes ground.now.scopes.now (sort (core over.now)) ^ names) names
        (core_weight ground.now.scopes.now (core body.now)) (core_weight ground.now.scopes.now (core over.now)) }
{
    quantifiers_are_within_their_weight();
}

/// The tests of all tuples of the set of a form, and as many of them.
pub(crate) fn tests_are_within(
    ground: &Ground<'_>,
    word: Quantifier,
    names: usize,
    over: &CoreExpr,
    body: &CoreExpr,
    set: &List<Member>,
    tuples: &List<Tuple>,
)
    requires few { length set.now ≤ most_nodes ground.now.scopes.now (sort (core over.now)) }
    requires powers { length tuples.now ≤ length set.now ^ names }
    ensures { core_weight ground.now.scopes.now (core over.now) + (names * length set.now ^ names + 1)
        + length tuples.now * core_weight ground.now.scopes.now (core body.now) + many_cost word (length tuples.now)
        ≤ quantified_weight word (most_nodes ground.now.scopes.now (sort (core over.now)) ^ names) names
        (core_weight ground.now.scopes.now (core body.now)) (core_weight ground.now.scopes.now (core over.now)) }
{
    quantifiers_are_within_their_weight();
}
