use anyhow::{Result, ensure};
use clause_store::{Clause, Clauses, Literal, is_ascending};
use std::alloc::Global;

pub fn positive(variable: u32) -> Literal {
    Literal {
        code: variable.wrapping_mul(2),
    }
}

pub fn negated(variable: u32) -> Literal {
    Literal {
        code: variable.wrapping_mul(2).wrapping_add(1),
    }
}

/// Adds the clause of literals, which ascend.
pub fn give(alloc: Global, clauses: &mut Clauses, literals: &[Literal]) -> Result<()> {
    ensure!(is_ascending(literals), "literals descend");
    ensure!(clauses.len() < 1_000_000, "too many clauses");
    clauses.push(Clause::from_slice(alloc, literals)?)?;
    Ok(())
}
