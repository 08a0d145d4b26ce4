//! What holds of a model that is read, said of its kinds, of its integers and of its scopes.
#![tactic(auto)]

ghost use Rattle.std.specs.Prelude.{◌≡◌, ◌↔◌, ℕ, length, map, None, IsTrue};
ghost use Rattle.clf_tree.specs.declared.model.Model.{Model};
ghost use Rattle.clf_tree.specs.declared.scopes.Given.{Given};
ghost use Rattle.clf_tree.specs.declared.scopes.Scopes.{Scopes};
ghost use Rattle.clf_tree.specs.Lists.{numbers_below};
ghost use Rattle.clf_tree.specs.Named.{IsNamed};
ghost use Rattle.clf_tree.specs.Typed.{IsTyped};
ghost use Rattle.int_widths.specs.Narrow.{is_narrow_model};
ghost use Rattle.model_weight.specs.Refusals.{wide_refusal};
ghost use Rattle.scope_laws.specs.Equation.{Solves};
ghost use Rattle.scope_table.specs.Largest.{scope};
ghost use Rattle.scope_table.specs.Refusals.{AreScopes};
ghost use Rattle.type_checker.specs.Refusals.{model_refusal};

use refusal_order::finds_first;
use scope_laws::scopes_solve_their_equation;

/// A law: each operand of a model fits its position exactly where no refusal of kinds comes.
pub fn refused_where_untyped()
    ensures { (model : Model) → IsNamed model → IsTyped model ↔ model_refusal model ≡ None }
{}

/// A law: no integer of a model is refused as too wide exactly where each needs no more than 62 bits.
pub fn refused_where_wide()
    ensures { (scopes : Scopes) (model : Model) → wide_refusal scopes model ≡ None ↔ IsTrue (is_narrow_model scopes model) }
{
    finds_first();
}

/// A law: the scopes of a model are those that solve the equation of scopes, and no others solve it.
pub fn scopes_are_the_one_solution()
    ensures alone { (model : Model) → IsNamed model → (given : Given) (of : ℕ → ℕ)
        → Solves model.clafers given of ↔ ((c : ℕ) → of c ≡ scope model.clafers given c) }
    ensures told { (model : Model) → IsNamed model → (given : Given) (scopes : Scopes) → AreScopes model.clafers given scopes
        → (of : ℕ → ℕ) → Solves model.clafers given of → scopes.of ≡ map of (numbers_below (length model.clafers)) }
{
    scopes_solve_their_equation();
}
