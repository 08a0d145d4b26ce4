use crate::{LIMIT, read_model};
use clf_base::{Fault, List, NoMemory, Refusal, Span};
use clf_tree::{Given, GivenScope};
use std::alloc::Global;
use std::test::Fail;

fn nothing_given(alloc: Global) -> Given {
    Given {
        scopes: List::new(alloc),
        default: 3,
        low: -2048,
        high: 2047,
    }
}

/// One more given scope.
fn with_scope(alloc: Global, given: Given, path: &[u8], most: u64) -> Result<Given, NoMemory> {
    let mut scopes = given.scopes;
    let path = List::from_slice(alloc, path)?;
    scopes.push(GivenScope { path, most })?;
    Ok(Given {
        scopes,
        default: given.default,
        low: given.low,
        high: given.high,
    })
}

fn refused(code: u16, line: u32, column: u32, value: u64) -> Option<Refusal> {
    Some(Refusal {
        code,
        at: Span { line, column },
        value,
    })
}

/// The first refusal of a text.
fn refusal_with(alloc: Global, text: &[u8], given: &Given) -> Result<Option<Refusal>, NoMemory> {
    if text.len() > LIMIT {
        return Ok(None);
    }
    match read_model(alloc, text, given) {
        Ok(_) => Ok(None),
        Err(Fault::Refused(refusal)) => Ok(Some(refusal)),
        Err(Fault::NoMemory) => Err(NoMemory),
    }
}

fn refusal(alloc: Global, text: &[u8]) -> Result<Option<Refusal>, NoMemory> {
    refusal_with(alloc, text, &nothing_given(alloc))
}

/// The weight of an accepted text, else 0.
fn weight(alloc: Global, text: &[u8], given: &Given) -> Result<u64, NoMemory> {
    if text.len() > LIMIT {
        return Ok(0);
    }
    match read_model(alloc, text, given) {
        Ok(read) => Ok(read.weight),
        Err(Fault::Refused(_)) => Ok(0),
        Err(Fault::NoMemory) => Err(NoMemory),
    }
}

#[test]
fn the_first_stage_that_refuses_counts(rt: HostRuntime) -> Result<(), Fail> {
    let alloc = rt.alloc();
    assert_eq!(rt; refusal(alloc, b"a @\n    b\n  c")?, refused(20, 1, 3, 0));
    assert_eq!(rt; refusal(alloc, b"a b\n  b\n c")?, refused(30, 3, 2, 2));
    assert_eq!(rt; refusal(alloc, b"a : b\na")?, refused(51, 2, 1, 0));
    assert_eq!(rt; refusal(alloc, b"a : b\nb\n[ c ]")?, refused(60, 1, 1, 0));
    assert_eq!(rt; refusal(alloc, b"a\n[ a + 1 = 2 ]")?, refused(73, 2, 3, 0));
    assert_eq!(rt; refusal(alloc, b"b\na 257")?, refused(83, 2, 1, 257));
    Ok(())
}

#[test]
fn given_scopes_count(rt: HostRuntime) -> Result<(), Fail> {
    let alloc = rt.alloc();
    let given = with_scope(alloc, nothing_given(alloc), b"a", 5)?;
    assert_eq!(rt; weight(alloc, b"a *", &given)?, 369);
    assert_eq!(rt;
        refusal_with(alloc, b"[ 1 ]", &given)?,
        refused(70, 1, 3, 0)
    );
    let twice = with_scope(alloc, given, b"a", 2)?;
    assert_eq!(rt; refusal_with(alloc, b"a", &twice)?, refused(82, 0, 0, 2));
    Ok(())
}

#[test]
fn heavy_models_are_refused(rt: HostRuntime) -> Result<(), Fail> {
    let alloc = rt.alloc();
    let given = nothing_given(alloc);
    assert_eq!(rt; weight(alloc, b"", &given)?, 8);
    assert_eq!(rt; weight(alloc, b"a", &given)?, 89);
    assert_eq!(rt;
        refusal(alloc, b"t 256\n[ all p; q; r : t | p = q ]")?,
        refused(91, 0, 0, 153_713_396_002)
    );
    Ok(())
}
