use crate::clause::{Clause, Literal, is_ascending};
use crate::store::Clauses;
use clf_base::List;
use std::alloc::Global;
use std::test::Fail;

fn literals(alloc: Global, codes: &[u32]) -> Result<List<Literal>, Fail> {
    let mut made = List::new(alloc);
    for code in codes {
        made.push(Literal { code: *code })?;
    }
    Ok(made)
}

#[test]
fn keeps_clauses_with_their_flags(rt: HostRuntime) -> Result<(), Fail> {
    let alloc = rt.alloc();
    let mut clauses = Clauses::new(alloc);
    let short = literals(alloc, &[4, 7])?;
    let ascending = is_ascending(short.as_slice());
    assert!(rt; ascending);
    assert!(rt; clauses.len() == 0);
    assert_eq!(rt; clauses.variables(), 0);
    clauses.push(Clause::new(short))?;
    assert!(rt; clauses.len() == 1);
    assert_eq!(rt; clauses.variables(), 4);
    assert!(rt; clauses.live(0));
    clauses.retire(0);
    assert!(rt; !clauses.live(0));
    assert_eq!(rt; clauses.get(0).literals().len(), 2);
    clauses.revive(0);
    assert!(rt; clauses.live(0));
    let kept = clauses.get(0).literals();
    assert!(rt; kept.len() == 2);
    assert_eq!(rt; kept[1].variable(), 3);
    Ok(())
}

#[test]
fn keeps_clauses_of_any_length(rt: HostRuntime) -> Result<(), Fail> {
    let alloc = rt.alloc();
    let long = literals(alloc, &[0, 2, 4, 6, 8, 10, 12])?;
    let ascending = is_ascending(long.as_slice());
    assert!(rt; ascending);
    let copied = Clause::from_slice(alloc, long.as_slice())?;
    assert!(rt; copied.literals() == long.as_slice());
    let moved = Clause::new(long);
    assert!(rt; moved.literals() == copied.literals());
    let unit = [Literal::of(3, false)];
    let ascending = is_ascending(&unit);
    assert!(rt; ascending);
    let short = Clause::from_slice(alloc, &unit)?;
    assert!(rt; short.literals() == [Literal { code: 7 }].as_slice());
    let descends = [Literal { code: 2 }, Literal { code: 2 }];
    assert!(rt; !is_ascending(&descends));
    Ok(())
}
