//! What the scopes of clafers are: the one solution of the equation that gives each from those of its owners.
#![tactic(auto)]

ghost use Rattle.std.specs.Prelude.{◌≡◌, ℕ, not, List, IsTrue};
ghost use Rattle.clf_tree.specs.declared.model.Clafer.{Clafer};
ghost use Rattle.clf_tree.specs.declared.scopes.Given.{Given};
ghost use Rattle.clf_tree.specs.Named.{each, contains_itself};
ghost use Rattle.scope_table.specs.Largest.{scope};
ghost use Rattle.scope_laws.specs.Equation.{Solves};

/// A law: where no clafer contains itself, the scopes solve the equation, and nothing else does.
pub fn scopes_solve_their_equation()
    ensures solved { (clafers : List Clafer) (given : Given) → IsTrue (each clafers (λ c. not (contains_itself clafers c))) → Solves clafers given (scope clafers given) }
    ensures alone { (clafers : List Clafer) (given : Given) → IsTrue (each clafers (λ c. not (contains_itself clafers c)))
        → (of : ℕ → ℕ) → Solves clafers given of → (c : ℕ) → of c ≡ scope clafers given c }
{}
