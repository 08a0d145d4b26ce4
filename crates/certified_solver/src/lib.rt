//! Whether clauses can be satisfied, with an answer that shows itself: an assignment, or a derivation
//! that a checker has accepted.
#![tactic(auto)]

mod refutation;
#[cfg(test)]
mod tests;

ghost use Rattle.std.specs.Prelude.{ℕ, ◌≡◌, ◌+◌, ◌<◌, ◌≤◌, ◌^◌, All, length, IfOk};
ghost use Rattle.clause_store.specs.Literals.{HasVariablesBelow};
ghost use Rattle.clause_store.specs.Resolution.{Refutes};
ghost use Rattle.certified_solver.specs.Verdicts.{IsVerdict, IsDecided, IsRefutation, HasAllValues};

use cdcl_search::{Ended, Search};
use clause_store::{Clauses, Derivation};
use clf_base::{List, NoMemory};
pub use refutation::Refutation;
use search_guide::Guide;
use std::alloc::Global;

/// Whether clauses can be satisfied.
#[derive(Drop)]
pub enum Verdict {
    /// These values of the variables, one for each, satisfy the clauses.
    Yes(List<bool>),
    /// No values do: this refutes the clauses.
    No(Refutation),
    /// The budget is spent on the chains of this derivation, each with a new result.
    Spent(Derivation),
}

/// Decides whether clauses, live or retired, can be satisfied, learning fewer than `budget` clauses or
/// that many. A budget of 3 to the power of the number of variables is never spent.
pub fn decide(
    alloc: Global,
    clauses: &Clauses,
    budget: u64,
    guide: &Guide,
    seed: u64,
) -> Result<Verdict, NoMemory>
    requires some { 0 < budget }
    requires room { length clauses.now.clauses + budget < 2147483640 }
    requires few { All (HasVariablesBelow 2147483647) clauses.now.clauses }
    ensures verdict { IfOk result (λ verdict. IsVerdict clauses.now.clauses budget verdict) }
    ensures values { IfOk result (HasAllValues clauses.now.clauses) }
    ensures enough { IfOk result (λ verdict. (n : ℕ) → All (HasVariablesBelow n) clauses.now.clauses → 3 ^ n ≤ budget → IsDecided verdict) }
{
    let mut search = Search::open(alloc, clauses)?;
    match search.run(budget, guide, seed)? {
        Ended::Satisfied => {
            let values = search.assignment(alloc)?;
            Ok(Verdict::Yes(values))
        }
        Ended::Refuted => {
            let refutation = accepted(alloc, clauses, search.into_derivation())?;
            Ok(Verdict::No(refutation))
        }
        Ended::Spent => Ok(Verdict::Spent(search.into_derivation())),
    }
}

/// What the checker makes of a derivation that refutes the clauses: it has no other answer.
fn accepted(
    alloc: Global,
    clauses: &Clauses,
    derivation: Derivation,
) -> Result<Refutation, NoMemory>
    requires { Refutes clauses.now.clauses derivation.chains }
    ensures { IfOk result (λ refutation. IsRefutation clauses.now.clauses refutation) }
{
    match Refutation::check(alloc, clauses, derivation)? {
        Some(refutation) => Ok(refutation),
        None => unreachable!(),
    }
}
