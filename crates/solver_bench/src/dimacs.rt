use anyhow::Result;
use clause_store::{Clauses, Literal};
use std::fmt::Write;

/// The number of a literal: that of its variable from 1 on, negative where it is negated.
fn number(literal: Literal) -> i64 {
    let variable = i64::from(literal.variable()) + 1;
    if literal.code % 2 == 1 {
        -variable
    } else {
        variable
    }
}

/// Prints clauses: a line that tells how many variables and clauses there are, and one for each clause, which ends with 0.
pub fn print_clauses(rt: &HostRuntime, clauses: &Clauses) -> Result<()> {
    println!(rt; "p cnf {} {}", clauses.variables(), clauses.len())?;
    for at in 0..clauses.len() {
        let mut line = String::new(rt.alloc());
        for literal in clauses.get(at).literals() {
            write!(&mut line, "{} ", number(*literal))?;
        }
        println!(rt; "{line}0")?;
    }
    Ok(())
}
