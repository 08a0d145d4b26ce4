ghost use Rattle.std.specs.Prelude.{◌≡◌, ◌<◌, ◌^◌, length, IsTrue};
ghost use Rattle.std.specs.Bool.{OnTrue};
ghost use Rattle.clf_tree.specs.Hierarchy.{is_below};
ghost use Rattle.super_linker.specs.Supers.{parents_first};

use crate::link_supers;
use clf_base::{Fault, List, NoMemory, Refusal, Span};
use clf_tree::{Interval, PlainClafer, Title};
use std::alloc::Global;
use std::test::Fail;

fn at(line: u32, column: u32) -> Span {
    Span { line, column }
}

fn title(alloc: Global, name: &[u8], place: Span) -> Result<Title, NoMemory> {
    Ok(Title {
        name: List::from_slice(alloc, name)?,
        at: place,
    })
}

// A clafer of this name, which may name a super.
fn clafer(
    alloc: Global,
    is_abstract: bool,
    name: &[u8],
    place: Span,
    above: Option<Title>,
) -> Result<PlainClafer, NoMemory> {
    Ok(PlainClafer {
        at: place,
        title: title(alloc, name, place)?,
        is_abstract,
        parent: None,
        above,
        group: Interval { low: 0, high: None },
        times: Interval { low: 0, high: None },
        reference: None,
    })
}

fn is_below(n: usize, clafer: Option<u32>) -> bool
    ensures { result ≡ is_below n clafer }
{
    match clafer {
        Some(number) => (number as usize) < n,
        None => true,
    }
}

#[tactic(auto, using(crate::proofs::Names::parents_left))]
fn parents_first(clafers: &List<PlainClafer>) -> bool
    ensures { OnTrue result (IsTrue (parents_first 0 clafers.now)) }
{
    for number in 0..clafers.len() {
        if !is_below(number, clafers.get(number).parent) {
            return false;
        }
    }
    true
}

#[test]
fn a_super_is_a_number(rt: HostRuntime) -> Result<(), Fail> {
    let alloc = rt.alloc();
    let mut clafers = List::new(alloc);
    let above = Some(title(alloc, b"Tool", at(1, 5))?);
    clafers.push(clafer(alloc, false, b"a", at(1, 1), above)?)?;
    clafers.push(clafer(alloc, true, b"Tool", at(2, 10), None)?)?;
    assert!(rt; clafers.len() == 2 && parents_first(&clafers));
    let linked = link_supers(alloc, &clafers).ok().ok_or("refused")?;
    assert!(rt; linked.len() == 2);
    assert_eq!(rt; linked.get(0).above, Some(1));
    assert_eq!(rt; linked.get(1).above, None);
    Ok(())
}

#[test]
fn a_concrete_super_is_refused_at_the_title(rt: HostRuntime) -> Result<(), Fail> {
    let alloc = rt.alloc();
    let mut clafers = List::new(alloc);
    let above = Some(title(alloc, b"b", at(1, 5))?);
    clafers.push(clafer(alloc, false, b"a", at(1, 1), above)?)?;
    clafers.push(clafer(alloc, false, b"b", at(2, 1), None)?)?;
    assert!(rt; clafers.len() == 2 && parents_first(&clafers));
    let refusal = Refusal {
        code: 60,
        at: at(1, 1),
        value: 0,
    };
    assert_eq!(rt;
        link_supers(alloc, &clafers).err(),
        Some(Fault::Refused(refusal))
    );
    Ok(())
}

#[test]
fn two_that_inherit_from_each_other_are_refused(rt: HostRuntime) -> Result<(), Fail> {
    let alloc = rt.alloc();
    let mut clafers = List::new(alloc);
    let above = Some(title(alloc, b"B", at(1, 14))?);
    clafers.push(clafer(alloc, true, b"A", at(1, 10), above)?)?;
    let above = Some(title(alloc, b"A", at(2, 14))?);
    clafers.push(clafer(alloc, true, b"B", at(2, 10), above)?)?;
    assert!(rt; clafers.len() == 2 && parents_first(&clafers));
    let refusal = Refusal {
        code: 61,
        at: at(1, 10),
        value: 0,
    };
    assert_eq!(rt;
        link_supers(alloc, &clafers).err(),
        Some(Fault::Refused(refusal))
    );
    Ok(())
}
