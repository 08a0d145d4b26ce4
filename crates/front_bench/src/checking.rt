//! What the last question of a search rests on.

ghost use Rattle.std.specs.Prelude.{◌≡◌, ◌≤◌, length, IfOk, IsTrue};
ghost use Rattle.clause_store.specs.Satisfaction.{IsUnsatisfiable};

use clause_store::{Clauses, Derivation};
use clf_base::NoMemory;
use proof_checker::Checker;
use question_space::Claim;
use std::alloc::Global;

/// Whether a new checker accepts that a derivation refutes clauses.
pub fn is_accepted(
    alloc: Global,
    clauses: &Clauses,
    derivation: &Derivation,
) -> Result<bool, NoMemory>
    ensures { IfOk result (λ accepted. IsTrue accepted → IsUnsatisfiable clauses.now.clauses) }
{
    let mut checker = Checker::open(alloc, clauses.variables())?;
    Ok(checker.accepts(clauses, derivation))
}

/// Whether a claim is over all clauses, and a new checker accepts its derivation.
pub fn is_refuted(alloc: Global, clauses: &Clauses, claim: &Claim) -> Result<bool, NoMemory>
    ensures given { IfOk result (λ refuted. IsTrue refuted → claim.now.given ≡ length clauses.now.clauses) }
    ensures refuted { IfOk result (λ refuted. IsTrue refuted → IsUnsatisfiable clauses.now.clauses) }
{
    if claim.given != clauses.len() {
        return Ok(false);
    }
    is_accepted(alloc, clauses, &claim.derivation)
}

/// Whether a claim has as many chains as the budget.
pub fn is_spent(claim: &Claim, budget: u64) -> bool
    ensures { IsTrue result → budget ≤ length claim.now.derivation.chains }
{
    claim.derivation.chains.len() as u64 >= budget
}
