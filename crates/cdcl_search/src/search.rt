//! A search, as its callers see it.
ghost use Rattle.std.specs.Prelude.{◌≡◌, ◌+◌, ◌<◌, [], All, true, false, length, take, IfOk};
ghost use Rattle.clause_store.specs.Literals.{HasVariablesBelow};
ghost use Rattle.clause_store.specs.Satisfaction.{SatisfiesAll};
ghost use Rattle.clause_store.specs.Resolution.{IsLawful};
ghost use Rattle.cdcl_search.specs.Progress.{IsRunEnded, Continues, assignment_of};

use crate::engine::{Ended, Engine};
use crate::loading::load;
use crate::opening::open;
use crate::trail::TRUE;
use clause_store::{Chain, Clause, Clauses, Derivation};
use clf_base::{List, NoMemory};
use search_guide::Guide;
use std::alloc::Global;
use std::marker::Model;

/// A search over given clauses, which learns clauses and logs how each is derived. Contracts see the
/// given clauses, the chains so far, and whether the last run satisfied the clauses.
#[derive(Drop)]
pub struct Search {
    engine: Engine,
    is_satisfied: bool,
}

impl Model for Search {
    ghost use Rattle.cdcl_search.specs.Progress.{Progress};
    ghost use Rattle.cdcl_search.specs.Runs.{given_clauses, IsKept};

    ghost Value = { Progress };

    ghost view = { λ s. record { given = given_clauses s.engine; chains = s.engine.chains.items; is_satisfied = s.is_satisfied } };

    ghost invariant = { λ s. IsKept s.engine s.is_satisfied };
}

impl Search {
    /// A search over clauses, live or retired. Its variables are those below `clauses.variables()`.
    pub fn open(alloc: Global, clauses: &Clauses) -> Result<Search, NoMemory>
        requires { All (HasVariablesBelow 2147483647) clauses.now.clauses }
        ensures given { IfOk result (λ search. search.given ≡ clauses.now.clauses) }
        ensures chains { IfOk result (λ search. search.chains ≡ []) }
    {
        let arena = load(alloc, clauses)?;
        let engine = open(alloc, clauses.variables(), arena)?;
        Ok(Search {
            engine,
            is_satisfied: false,
        })
    }

    /// How many given clauses and chains there are. It takes no memory.
    pub fn used(&self) -> u32
        ensures { result ≡ length self.now.given + length self.now.chains }
    {
        self.engine.arena.len() as u32
    }

    /// Runs until the clauses are satisfied or refuted, or `budget` clauses are learned in this call. It always
    /// returns, and may be called again after each answer. After want of memory the given clauses are as before,
    /// and the chains are lawful.
    pub fn run(&mut self, budget: u64, guide: &Guide, seed: u64) -> Result<Ended, NoMemory>
        requires some { 0 < budget }
        requires room { length self.old.given + length self.old.chains + budget < 2147483640 }
        ensures ended { IfOk result (λ ended. IsRunEnded self.old self.new budget ended) }
        ensures continues { Continues self.old self.new }
        ensures given { self.new.given ≡ self.old.given }
        ensures lawful { IsLawful self.new.given self.new.chains }
    {
        self.is_satisfied = false;
        match self.engine.run(budget, guide, seed)? {
            Ended::Satisfied => {
                self.is_satisfied = true;
                Ok(Ended::Satisfied)
            }
            Ended::Refuted => Ok(Ended::Refuted),
            Ended::Spent => Ok(Ended::Spent),
        }
    }

    /// The values that the last run found, one for each variable of the search. They satisfy the given clauses.
    pub fn assignment(&self, alloc: Global) -> Result<List<bool>, NoMemory>
        requires { self.now.is_satisfied ≡ true }
        ensures satisfies { IfOk result (λ values. SatisfiesAll (assignment_of values) self.now.given) }
        ensures all { IfOk result (λ values. All (HasVariablesBelow (length values)) self.now.given) }
    {
        let variables = self.engine.trail.literals.len();
        let mut values = Vec::new(alloc);
        for variable in 0..variables {
            values.push(self.engine.trail.values[2 * variable] == TRUE)?;
        }
        Ok(List::from_vec(values))
    }

    /// A copy of the chains that were learned, in the order in which they were.
    pub fn derivation(&self, alloc: Global) -> Result<Derivation, NoMemory>
        ensures chains { IfOk result (λ derivation. derivation.chains ≡ self.now.chains) }
        ensures lawful { IsLawful self.now.given self.now.chains }
    {
        let mut chains = List::new(alloc);
        for chain in self.engine.chains.as_slice() {
            chains.push(copy(alloc, chain)?)?;
        }
        Ok(Derivation { chains })
    }

    /// The chains that were learned, without a copy. It takes no memory.
    pub fn into_derivation(self) -> Derivation
        ensures chains { result.chains ≡ self.chains }
        ensures lawful { IsLawful self.given self.chains }
    {
        Derivation {
            chains: List::from_vec(self.engine.chains),
        }
    }
}

/// An equal chain.
fn copy(alloc: Global, chain: &Chain) -> Result<Chain, NoMemory>
    ensures { IfOk result (λ copied. copied ≡ chain.now) }
{
    let steps = chain.steps.copy(alloc)?;
    let result = Clause::from_slice(alloc, chain.result.literals())?;
    Ok(Chain {
        start: chain.start,
        steps,
        result,
    })
}
