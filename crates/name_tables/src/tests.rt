ghost use Rattle.std.specs.Prelude.{◌≡◌, ◌<◌, ◌^◌, length, IsTrue};
ghost use Rattle.std.specs.Bool.{OnTrue};
ghost use Rattle.std.specs.Option.{option_and_then};
ghost use Rattle.clf_tree.specs.Hierarchy.{is_below, is_closed, names_below};
ghost use Rattle.clf_tree.specs.Named.{each, follows_parent};

use crate::{NameTable, children_named, meaning};
use clf_base::{List, Span};
use clf_tree::{Clafer, Interval, Reference, Title};
use name_resolver::{Found, Meant};
use std::alloc::Global;
use std::test::Fail;

fn clafer(
    alloc: Global,
    name: &[u8],
    parent: Option<u32>,
    above: Option<u32>,
) -> Result<Clafer, Fail> {
    Ok(Clafer {
        title: Title {
            name: List::from_slice(alloc, name)?,
            at: Span { line: 0, column: 0 },
        },
        is_abstract: false,
        parent,
        above,
        group: Interval { low: 0, high: None },
        times: Interval { low: 0, high: None },
        reference: None,
    })
}

// a, below it b and c, each with an x; d inherits from a
fn two_below(alloc: Global) -> Result<List<Clafer>, Fail> {
    let mut clafers = List::new(alloc);
    clafers.push(clafer(alloc, b"a", None, None)?)?;
    clafers.push(clafer(alloc, b"b", Some(0), None)?)?;
    clafers.push(clafer(alloc, b"x", Some(1), None)?)?;
    clafers.push(clafer(alloc, b"c", Some(0), None)?)?;
    clafers.push(clafer(alloc, b"x", Some(3), None)?)?;
    clafers.push(clafer(alloc, b"d", None, Some(0))?)?;
    Ok(clafers)
}

// a, below it x twice
fn twins(alloc: Global) -> Result<List<Clafer>, Fail> {
    let mut clafers = List::new(alloc);
    clafers.push(clafer(alloc, b"a", None, None)?)?;
    clafers.push(clafer(alloc, b"x", Some(0), None)?)?;
    clafers.push(clafer(alloc, b"x", Some(0), None)?)?;
    Ok(clafers)
}

fn is_below(n: usize, clafer: Option<u32>) -> bool
    ensures { result ≡ is_below n clafer }
{
    match clafer {
        Some(number) => (number as usize) < n,
        None => true,
    }
}

fn target(reference: Option<Reference>) -> Option<u32>
    ensures { result ≡ option_and_then (λ r. r.to) reference }
{
    match reference {
        Some(reference) => reference.to,
        None => None,
    }
}

fn names_below(n: usize, clafer: &Clafer) -> bool
    ensures { result ≡ names_below n clafer.now }
{
    is_below(n, clafer.parent) && is_below(n, clafer.above) && is_below(n, target(clafer.reference))
}

fn is_closed(clafers: &List<Clafer>) -> bool
    ensures { result ≡ is_closed clafers.now }
{
    clafers
        .as_slice()
        .iter()
        .all(|clafer| names_below(clafers.len(), clafer))
}

#[tactic(auto, using(name_resolver::proofs::Numbers::child_steps))]
fn parents_first(clafers: &List<Clafer>) -> bool
    requires { length clafers.now < 2 ^ 32 }
    ensures { OnTrue result (IsTrue (each clafers.now (follows_parent clafers.now))) }
{
    for clafer in 0..clafers.len() {
        if !is_below(clafer, clafers.get(clafer).parent) {
            return false;
        }
    }
    true
}

#[test]
fn names_are_looked_up_outwards(rt: HostRuntime) -> Result<(), Fail> {
    let alloc = rt.alloc();
    let clafers = two_below(alloc)?;
    assert!(rt; clafers.len() == 6 && is_closed(&clafers));
    assert!(rt; parents_first(&clafers));
    let table = NameTable::build(alloc, &clafers)?;
    let c = List::from_slice(alloc, b"c")?;
    let found = meaning(alloc, &clafers, &table, Some(2), &c)?;
    assert!(rt;
        matches!(&found, Found::Means(Meant::Below { out, way }) if *out == 2 && way.as_slice() == [3].as_slice())
    );
    let x = List::from_slice(alloc, b"x")?;
    assert!(rt;
        matches!(
            meaning(alloc, &clafers, &table, Some(5), &x)?,
            Found::Several
        )
    );
    assert!(rt; matches!(meaning(alloc, &clafers, &table, None, &x)?, Found::Nothing));
    Ok(())
}

#[test]
fn children_of_a_name_are_found(rt: HostRuntime) -> Result<(), Fail> {
    let alloc = rt.alloc();
    let clafers = two_below(alloc)?;
    assert!(rt; clafers.len() == 6 && is_closed(&clafers));
    let table = NameTable::build(alloc, &clafers)?;
    let x = List::from_slice(alloc, b"x")?;
    let parents = List::from_slice(alloc, &[1, 3])?;
    let two = children_named(alloc, &clafers, &table, &x, &parents)?;
    assert!(rt; two.as_slice() == [2, 4].as_slice());
    let heir = List::from_slice(alloc, &[5])?;
    assert!(rt; children_named(alloc, &clafers, &table, &x, &heir)?.is_empty());
    let c = List::from_slice(alloc, b"c")?;
    let inherited = children_named(alloc, &clafers, &table, &c, &heir)?;
    assert!(rt; inherited.as_slice() == [3].as_slice());
    Ok(())
}

#[test]
fn two_children_of_one_clafer_are_found(rt: HostRuntime) -> Result<(), Fail> {
    let alloc = rt.alloc();
    let clafers = twins(alloc)?;
    assert!(rt; clafers.len() == 3 && is_closed(&clafers));
    let table = NameTable::build(alloc, &clafers)?;
    let x = List::from_slice(alloc, b"x")?;
    let a = List::from_slice(alloc, &[0])?;
    let both = children_named(alloc, &clafers, &table, &x, &a)?;
    assert!(rt; both.as_slice() == [1, 2].as_slice());
    Ok(())
}
