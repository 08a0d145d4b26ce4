//! How many wires a model takes.

ghost use Rattle.std.specs.Prelude.{List as Items};
ghost use Rattle.clf_tree.specs.declared.core_expr.CoreExpr.{CoreExpr};
ghost use Rattle.clf_tree.specs.declared.model.Model.{Model};
ghost use Rattle.clf_tree.specs.declared.scopes.Scopes.{Scopes};
ghost use Rattle.set_bits.specs.declared.layout.Layout.{Layout};
ghost use Rattle.question_space.specs.Wiring.{AreGoalsWithinWeight, AreWithinWeight};

use canonical_encoder::canonical_shapes_are_within_the_weight;

/// The layout, the structure, all constraints and a conjunction of them take no more wires than the model weighs, where it weighs
/// 8,000,000 at most. Supers are abstract and stand at top level, abstract clafers have the scope 0, and the range of integers is not
/// empty.
pub fn questions_are_within_the_weight()
    ensures { (model : Model) (scopes : Scopes) (layout : Layout) (truths : Items CoreExpr) → AreWithinWeight model scopes layout truths }
{
    canonical_shapes_are_within_the_weight();
}

/// With the numbers of the goals of the model, they take no more wires than it weighs either.
pub fn goals_are_within_the_weight()
    ensures { (model : Model) (scopes : Scopes) (layout : Layout) (truths goals : Items CoreExpr)
        → AreGoalsWithinWeight model scopes layout truths goals }
{
    canonical_shapes_are_within_the_weight();
}
