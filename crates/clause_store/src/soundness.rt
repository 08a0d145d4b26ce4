ghost use Rattle.std.specs.Prelude.{ℕ, Bool, List, All};
ghost use Rattle.clause_store.specs.declared.clause.Literal.{Literal};
ghost use Rattle.clause_store.specs.declared.derivation.Chain.{Chain};
ghost use Rattle.clause_store.specs.Satisfaction.{Satisfies, SatisfiesAll, IsUnsatisfiable};
ghost use Rattle.clause_store.specs.Resolution.{IsLawful, Refutes};

/// Resolution is sound: no assignment satisfies clauses that a derivation refutes.
pub fn refuted_is_unsatisfiable()
    ensures { (given : List (List Literal)) (chains : List Chain) → Refutes given chains → IsUnsatisfiable given }
{}

/// What a lawful derivation gives follows: each result is satisfied wherever the given clauses are.
pub fn results_follow()
    ensures { (v : ℕ → Bool) (given : List (List Literal)) (chains : List Chain) → SatisfiesAll v given → IsLawful given chains → All (λ chain. Satisfies v chain.result) chains }
{}
