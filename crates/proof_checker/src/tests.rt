use crate::checker::Checker;
use clause_store::{Chain, Clause, Clauses, Derivation, Literal, Step, is_ascending};
use clf_base::List;
use std::alloc::Global;
use std::test::Fail;

const X: u32 = 0;

const Y: u32 = 1;

const NOT_X: u32 = 1;

const NOT_Y: u32 = 3;

fn clause(alloc: Global, codes: &[u32]) -> Result<Clause, Fail> {
    let mut literals = List::new(alloc);
    for code in codes {
        literals.push(Literal { code: *code })?;
    }
    let made = if is_ascending(literals.as_slice()) {
        Some(Clause::new(literals))
    } else {
        None
    };
    Ok(made.ok_or("literals descend")?)
}

fn add(clauses: &mut Clauses, clause: Clause) -> Result<(), Fail> {
    if clauses.len() < 1000 {
        clauses.push(clause)?;
    }
    Ok(())
}

fn chain(
    alloc: Global,
    start: u32,
    clause: u32,
    pivot: u32,
    outcome: Clause,
) -> Result<Chain, Fail> {
    let mut steps = List::new(alloc);
    steps.push(Step { clause, pivot })?;
    Ok(Chain {
        start,
        steps,
        result: outcome,
    })
}

fn one_chain(alloc: Global, pivot: u32) -> Result<Derivation, Fail> {
    let mut chains = List::new(alloc);
    let empty = clause(alloc, &[])?;
    chains.push(chain(alloc, 0, 1, pivot, empty)?)?;
    Ok(Derivation { chains })
}

fn two_chains(alloc: Global, start: u32) -> Result<Derivation, Fail> {
    let mut chains = List::new(alloc);
    let y = clause(alloc, &[2])?;
    chains.push(chain(alloc, 0, 1, X, y)?)?;
    let empty = clause(alloc, &[])?;
    chains.push(chain(alloc, start, 2, Y, empty)?)?;
    Ok(Derivation { chains })
}

#[test]
fn a_clause_and_its_negation(rt: HostRuntime) -> Result<(), Fail> {
    let alloc = rt.alloc();
    let mut clauses = Clauses::new(alloc);
    add(&mut clauses, clause(alloc, &[0])?)?;
    add(&mut clauses, clause(alloc, &[NOT_X])?)?;
    let right = one_chain(alloc, X)?;
    let wrong = one_chain(alloc, Y)?;
    let mut checker = Checker::open(alloc, 2)?;
    assert!(rt; checker.accepts(&clauses, &right));
    assert!(rt; !checker.accepts(&clauses, &wrong));
    assert!(rt; checker.accepts(&clauses, &right));
    let mut exact = Checker::open(alloc, 1)?;
    assert!(rt; exact.accepts(&clauses, &right));
    let mut small = Checker::open(alloc, 0)?;
    assert!(rt; !small.accepts(&clauses, &right));
    Ok(())
}

#[test]
fn a_chain_over_the_result_of_another(rt: HostRuntime) -> Result<(), Fail> {
    let alloc = rt.alloc();
    let mut clauses = Clauses::new(alloc);
    add(&mut clauses, clause(alloc, &[0, 2])?)?;
    add(&mut clauses, clause(alloc, &[NOT_X])?)?;
    add(&mut clauses, clause(alloc, &[NOT_Y])?)?;
    let mut checker = Checker::open(alloc, 2)?;
    assert!(rt; checker.accepts(&clauses, &two_chains(alloc, 3)?));
    assert!(rt; !checker.accepts(&clauses, &two_chains(alloc, 4)?));
    assert!(rt; checker.accepts(&clauses, &two_chains(alloc, 3)?));
    Ok(())
}
