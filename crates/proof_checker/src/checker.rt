ghost use Rattle.std.specs.Prelude.{◌≡◌, ◌↔◌, IsTrue, IfOk};
ghost use Rattle.clause_store.specs.Satisfaction.{IsUnsatisfiable};
ghost use Rattle.clause_store.specs.Resolution.{Refutes};
ghost use Rattle.proof_checker.specs.Checking.{IsWithin};

use crate::chains::refutes;
use crate::ranges::is_within;
use clause_store::{Clauses, Derivation};
use clf_base::NoMemory;
use std::alloc::Global;
use std::marker::Model;

/// A checker of derivations, which contracts see as the number of its variables. It has a mark for
/// each literal of them.
#[derive(Drop)]
pub struct Checker {
    variables: u32,
    marks: Vec<bool>,
}

impl Model for Checker {
    ghost use Rattle.std.specs.Prelude.{ℕ};
    ghost use Rattle.proof_checker.specs.Marks.{IsReady};

    ghost Value = { ℕ };

    ghost view = { λ c. c.variables };

    ghost invariant = { λ c. IsReady c.variables c.marks.items };
}

impl Checker {
    /// A checker of derivations whose variables are below a number. Memory is taken here alone.
    pub fn open(alloc: Global, variables: u32) -> Result<Checker, NoMemory>
        ensures { IfOk result (λ checker. checker ≡ variables) }
    {
        match vec![in alloc; false; 2 * variables as usize] {
            Ok(marks) => Ok(Checker { variables, marks }),
            Err(_) => Err(NoMemory),
        }
    }

    /// Whether each variable is below the number of `open` and the derivation refutes the clauses.
    pub fn accepts(&mut self, clauses: &Clauses, derivation: &Derivation) -> bool
        ensures exact { IsTrue result ↔ (IsWithin self.old (clauses.now.clauses) derivation.now.chains × Refutes (clauses.now.clauses) derivation.now.chains) }
        ensures sound { IsTrue result → IsUnsatisfiable (clauses.now.clauses) }
        ensures unchanged { self.new ≡ self.old }
    {
        let chains = derivation.chains.as_slice();
        if !is_within(self.variables, clauses, chains) {
            return false;
        }
        let accepted = refutes(self.marks.as_mut_slice(), clauses, chains);
        if !accepted {
            self.marks.fill(false);
        }
        accepted
    }
}
