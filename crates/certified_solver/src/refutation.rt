//! A derivation that a checker has accepted.
ghost use Rattle.std.specs.Prelude.{◌≡◌, IfOk};
ghost use Rattle.certified_solver.specs.Verdicts.{IsChecked};

use clause_store::{Clauses, Derivation};
use clf_base::NoMemory;
use proof_checker::Checker;
use std::alloc::Global;
use std::marker::Model;

/// A derivation that a checker has accepted as a refutation of clauses, which contracts see as its
/// chains. Only `check` makes one: who holds it knows that a checker was asked.
#[derive(Drop)]
pub struct Refutation {
    derivation: Derivation,
}

impl Model for Refutation {
    ghost use Rattle.std.specs.Prelude.{List};
    ghost use Rattle.clause_store.specs.declared.derivation.Chain.{Chain};

    ghost Value = { List Chain };

    ghost view = { λ r. r.derivation.chains };
}

impl Refutation {
    /// Asks a checker for the variables of the clauses. None exactly where the derivation, which is
    /// dropped then, doesn't refute the clauses. Linear in the literals that the chains meet.
    pub fn check(
        alloc: Global,
        clauses: &Clauses,
        derivation: Derivation,
    ) -> Result<Option<Refutation>, NoMemory>
        ensures { IfOk result (λ answer. IsChecked clauses.now.clauses derivation.chains answer) }
    {
        let mut checker = Checker::open(alloc, clauses.variables())?;
        if checker.accepts(clauses, &derivation) {
            return Ok(Some(Refutation { derivation }));
        }
        Ok(None)
    }

    /// The derivation that was accepted.
    pub fn derivation(&self) -> &Derivation
        ensures { result.now.chains ≡ self.now }
    {
        &self.derivation
    }

    /// The derivation that was accepted, without a copy. It takes no memory.
    pub fn into_derivation(self) -> Derivation
        ensures { result.chains ≡ self }
    {
        self.derivation
    }
}
