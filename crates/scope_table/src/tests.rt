use crate::paths::named_by;
use crate::scopes;
use clf_base::{Fault, List, Refusal, Span};
use clf_tree::{Clafer, Given, GivenScope, Interval, Model, Named, Title, Typed};
use std::alloc::Global;
use std::test::Fail;

const NOWHERE: Span = Span { line: 0, column: 0 };

fn bytes(alloc: Global, text: &[u8]) -> Result<List<u8>, Fail> {
    let mut all = List::new(alloc);
    all.extend(text)?;
    Ok(all)
}

/// A clafer of any number of instances, below another or at top level.
fn clafer(alloc: Global, name: &[u8], parent: Option<u32>) -> Result<Clafer, Fail> {
    let any = Interval { low: 0, high: None };
    let name = bytes(alloc, name)?;
    Ok(Clafer {
        title: Title { name, at: NOWHERE },
        is_abstract: false,
        parent,
        above: None,
        group: any,
        times: any,
        reference: None,
    })
}

/// `a` with `b` below it, `b` at top level, and `c` below that.
fn family(alloc: Global) -> Result<List<Clafer>, Fail> {
    let mut clafers = List::new(alloc);
    clafers.push(clafer(alloc, b"a", None)?)?;
    clafers.push(clafer(alloc, b"b", Some(0))?)?;
    clafers.push(clafer(alloc, b"b", None)?)?;
    clafers.push(clafer(alloc, b"c", Some(2))?)?;
    Ok(clafers)
}

#[test]
fn a_path_names_the_clafer_of_its_last_name(rt: HostRuntime) -> Result<(), Fail> {
    let alloc = rt.alloc();
    let clafers = family(alloc)?;
    let clafers = clafers.as_slice();
    if clafers.len() >= 10 {
        return Err("too many clafers".into());
    }
    assert_eq!(rt; named_by(clafers, b"a"), Some(0));
    assert_eq!(rt; named_by(clafers, b"a.b"), Some(1));
    assert_eq!(rt; named_by(clafers, b"b"), Some(2));
    assert_eq!(rt; named_by(clafers, b"b.c"), Some(3));
    assert_eq!(rt; named_by(clafers, b"c"), None);
    assert_eq!(rt; named_by(clafers, b"a.b.c"), None);
    assert_eq!(rt; named_by(clafers, b".b"), None);
    assert_eq!(rt; named_by(clafers, b""), None);
    Ok(())
}

/// Of a model without clafers.
fn of_nothing(alloc: Global, given: &Given) -> Result<Result<usize, Fault>, Fail> {
    let named = Named::new(Model {
        clafers: List::new(alloc),
        rules: List::new(alloc),
        goals: List::new(alloc),
    });
    let typed = Typed::new(named);
    match scopes(alloc, &typed, given) {
        Ok(found) => Ok(Ok(found.of.len())),
        Err(fault) => Ok(Err(fault)),
    }
}

fn given(alloc: Global, low: i64, high: i64) -> Given {
    Given {
        scopes: List::new(alloc),
        default: 3,
        low,
        high,
    }
}

fn refused(code: u16, value: u64) -> Fault {
    Fault::Refused(Refusal {
        code,
        at: NOWHERE,
        value,
    })
}

#[test]
fn the_range_and_unknown_clafers_are_refused(rt: HostRuntime) -> Result<(), Fail> {
    let alloc = rt.alloc();
    assert_eq!(rt; of_nothing(alloc, &given(alloc, -32768, 32767))?, Ok(0));
    assert_eq!(rt;
        of_nothing(alloc, &given(alloc, 1, 0))?,
        Err(refused(85, 0))
    );
    assert_eq!(rt;
        of_nothing(alloc, &given(alloc, -32769, 0))?,
        Err(refused(85, 0))
    );
    assert_eq!(rt;
        of_nothing(alloc, &given(alloc, 0, 32768))?,
        Err(refused(85, 0))
    );
    let mut unknown = given(alloc, 0, 0);
    unknown.scopes.push(GivenScope {
        path: bytes(alloc, b"a")?,
        most: 1,
    })?;
    assert_eq!(rt; of_nothing(alloc, &unknown)?, Err(refused(80, 1)));
    Ok(())
}
