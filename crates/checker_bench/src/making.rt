use anyhow::{Result, ensure};
use clause_store::{Chain, Clause, Clauses, Derivation, Literal, Step, is_ascending};
use clf_base::List;
use std::alloc::Global;
use std::mem::size_of;

/// Clauses and a derivation over them, as they are made, and how much there is to check.
#[derive(Drop)]
pub struct Made {
    pub clauses: Clauses,
    pub derivation: Derivation,
    pub steps: u64,
    /// How many literals the start, the named clauses and the results have.
    pub literals: u64,
    /// How many bytes the results have that are kept outside their chains.
    outside: u64,
}

impl Made {
    pub fn new(alloc: Global) -> Made {
        Made {
            clauses: Clauses::new(alloc),
            derivation: Derivation {
                chains: List::new(alloc),
            },
            steps: 0,
            literals: 0,
            outside: 0,
        }
    }

    /// How many bytes the derivation has.
    pub fn bytes(&self) -> u64 {
        let chains = self.derivation.chains.len() as u64;
        let steps = self.steps.wrapping_mul(size_of::<Step>() as u64);
        chains
            .wrapping_mul(size_of::<Chain>() as u64)
            .wrapping_add(steps)
            .wrapping_add(self.outside)
    }

    /// Adds a given clause.
    pub fn give(&mut self, literals: List<Literal>) -> Result<()> {
        let clause = clause(literals)?;
        ensure!(self.clauses.len() < 2_147_483_647, "too many clauses");
        self.clauses.push(clause)?;
        Ok(())
    }

    /// The number that the next chain's result will have.
    pub fn next_number(&self) -> u32 {
        let chains = self.derivation.chains.len() as u64;
        u32::try_from(chains)
            .unwrap_or(0)
            .wrapping_add(self.clauses.len())
    }

    fn length_of(&self, number: u32) -> u64 {
        let given = self.clauses.len();
        if number < given {
            return self.clauses.get(number).literals().len() as u64;
        }
        let chains = self.derivation.chains.as_slice();
        match chains.get((number - given) as usize) {
            Some(chain) => chain.result.literals().len() as u64,
            None => 0,
        }
    }

    /// Adds a chain.
    pub fn derive(&mut self, start: u32, steps: List<Step>, literals: List<Literal>) -> Result<()> {
        let mut read = self.length_of(start).wrapping_add(literals.len() as u64);
        for step in steps.as_slice() {
            read = read.wrapping_add(self.length_of(step.clause));
        }
        self.literals = self.literals.wrapping_add(read);
        self.steps = self.steps.wrapping_add(steps.len() as u64);
        if literals.len() > 5 {
            let bytes = (literals.len() as u64).wrapping_mul(size_of::<Literal>() as u64);
            self.outside = self.outside.wrapping_add(bytes);
        }
        let chain = Chain {
            start,
            steps,
            result: clause(literals)?,
        };
        self.derivation.chains.push(chain)?;
        Ok(())
    }
}

fn clause(literals: List<Literal>) -> Result<Clause> {
    ensure!(is_ascending(literals.as_slice()), "literals descend");
    Ok(Clause::new(literals))
}

pub fn positive(variable: u32) -> Literal {
    Literal {
        code: variable.wrapping_mul(2),
    }
}

pub fn negated(variable: u32) -> Literal {
    Literal {
        code: variable.wrapping_mul(2).wrapping_add(1),
    }
}
