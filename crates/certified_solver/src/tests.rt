use crate::{Refutation, Verdict, decide};
use cdcl_search::{Ended, Search};
use clause_store::{Clause, Clauses, Derivation, Literal, is_ascending};
use clf_base::List;
use search_guide::Guide;
use std::alloc::Global;
use std::test::Fail;

/// Three pigeons, each in one of two holes, and no two in one.
const PIGEONS: [&[u32]; 9] = [
    &[0, 2],
    &[4, 6],
    &[8, 10],
    &[1, 5],
    &[1, 9],
    &[5, 9],
    &[3, 7],
    &[3, 11],
    &[7, 11],
];

fn clause(alloc: Global, codes: &[u32]) -> Result<Clause, Fail> {
    let mut literals = List::new(alloc);
    for code in codes {
        literals.push(Literal { code: *code })?;
    }
    let made = if is_ascending(literals.as_slice()) {
        Some(Clause::new(literals))
    } else {
        None
    };
    Ok(made.ok_or("literals descend")?)
}

fn store(alloc: Global, rows: &[&[u32]]) -> Result<Clauses, Fail> {
    let mut clauses = Clauses::new(alloc);
    for row in rows {
        let made = clause(alloc, row)?;
        if clauses.len() < 1000 {
            clauses.push(made)?;
        }
    }
    Ok(clauses)
}

/// The verdict on few clauses with few variables.
fn verdict(alloc: Global, clauses: &Clauses, budget: u64, guide: &Guide) -> Result<Verdict, Fail> {
    if clauses.len() >= 1000 || clauses.variables() >= 1000 {
        return Err("too many clauses".into());
    }
    if budget == 0 || budget >= 1000 {
        return Err("no such budget".into());
    }
    Ok(decide(alloc, clauses, budget, guide, 7)?)
}

#[test]
fn small_stores(rt: HostRuntime) -> Result<(), Fail> {
    let alloc = rt.alloc();
    let guide = Guide::new(Box::new(alloc, |_seed: u64, _turn: u64, _n: u32| 0)?);
    match verdict(alloc, &store(alloc, &[&[0, 2], &[1]])?, 9, &guide)? {
        Verdict::Yes(values) => assert!(rt; values.as_slice() == [false, true].as_slice()),
        _ => assert!(rt; false),
    }
    let nothing = verdict(alloc, &store(alloc, &[])?, 1, &guide)?;
    assert!(rt; matches!(nothing, Verdict::Yes(_)));
    let false_at_once = verdict(alloc, &store(alloc, &[&[]])?, 1, &guide)?;
    assert!(rt; matches!(false_at_once, Verdict::No(_)));
    Ok(())
}

#[test]
fn only_a_derivation_that_refutes_is_a_refutation(rt: HostRuntime) -> Result<(), Fail> {
    let alloc = rt.alloc();
    let nothing = Derivation {
        chains: List::new(alloc),
    };
    let refutation = Refutation::check(alloc, &store(alloc, &[&[0], &[2]])?, nothing)?;
    assert!(rt; refutation.is_none());
    Ok(())
}

#[test]
fn three_pigeons_do_not_fit(rt: HostRuntime) -> Result<(), Fail> {
    let alloc = rt.alloc();
    let clauses = store(alloc, &PIGEONS)?;
    let first = Guide::new(Box::new(alloc, |_seed: u64, _turn: u64, _n: u32| 0)?);
    let last = Guide::new(Box::new(alloc, |_seed: u64, _turn: u64, n: u32| n.saturating_sub(1))?);
    for guide in [&first, &last] {
        let answer = verdict(alloc, &clauses, 729, guide)?;
        assert!(rt; matches!(answer, Verdict::No(_)));
        match verdict(alloc, &clauses, 1, guide)? {
            Verdict::Spent(derivation) => assert_eq!(rt; derivation.chains.len(), 1),
            Verdict::No(_) => {}
            Verdict::Yes(_) => assert!(rt; false),
        }
    }
    Ok(())
}

#[test]
fn a_search_goes_on_after_its_budget(rt: HostRuntime) -> Result<(), Fail> {
    let alloc = rt.alloc();
    let clauses = store(alloc, &PIGEONS)?;
    let guide = Guide::new(Box::new(alloc, |_seed: u64, _turn: u64, n: u32| n.saturating_sub(1))?);
    assert!(rt; clauses.variables() < 1000);
    let mut search = Search::open(alloc, &clauses)?;
    assert!(rt; search.used() < 1000);
    let early = search.run(1, &guide, 0)?;
    assert!(rt; matches!(early, Ended::Spent));
    assert!(rt; search.used() < 1000);
    let late = search.run(728, &guide, 0)?;
    assert!(rt; matches!(late, Ended::Refuted));
    let chains = search.derivation(alloc)?.chains.len();
    assert_eq!(rt; search.used() as usize, chains + 9);
    Ok(())
}
