ghost use Rattle.std.specs.Prelude.{◌≡◌, ◌<◌, ◌^◌, length, IsTrue};
ghost use Rattle.std.specs.Bool.{OnTrue};
ghost use Rattle.clf_tree.specs.Hierarchy.{is_below};
ghost use Rattle.super_linker.specs.Supers.{parents_first};

use crate::linked_families;
use clf_base::{Fault, List, NoMemory, Refusal, Span};
use clf_tree::{Interval, PlainClafer, Pointer, Title};
use std::alloc::Global;
use std::test::Fail;

fn at(line: u32, column: u32) -> Span {
    Span { line, column }
}

fn title(alloc: Global, name: &[u8], place: Span) -> Result<Title, NoMemory> {
    Ok(Title {
        name: List::from_slice(alloc, name)?,
        at: place,
    })
}

fn clafer(
    alloc: Global,
    is_abstract: bool,
    name: &[u8],
    place: Span,
    parent: Option<u32>,
) -> Result<PlainClafer, NoMemory> {
    Ok(PlainClafer {
        at: place,
        title: title(alloc, name, place)?,
        is_abstract,
        parent,
        above: None,
        group: Interval { low: 0, high: None },
        times: Interval { low: 0, high: None },
        reference: None,
    })
}

// With a super that is named so.
fn inheriting(
    alloc: Global,
    mut clafer: PlainClafer,
    above: &[u8],
) -> Result<PlainClafer, NoMemory> {
    let named = title(alloc, above, clafer.at)?;
    clafer.above = Some(named);
    Ok(clafer)
}

// With a reference to integers.
fn referring(mut clafer: PlainClafer, sign: Span) -> PlainClafer {
    clafer.reference = Some(Pointer {
        at: sign,
        bag: false,
        to: None,
    });
    clafer
}

fn is_below(n: usize, clafer: Option<u32>) -> bool
    ensures { result ≡ is_below n clafer }
{
    match clafer {
        Some(number) => (number as usize) < n,
        None => true,
    }
}

#[tactic(auto, using(crate::proofs::Parents::parents_left))]
fn parents_first(clafers: &List<PlainClafer>) -> bool
    ensures { OnTrue result (IsTrue (parents_first 0 clafers.now)) }
{
    for number in 0..clafers.len() {
        if !is_below(number, clafers.get(number).parent) {
            return false;
        }
    }
    true
}

fn refusal(code: u16, at: Span) -> Option<Fault> {
    Some(Fault::Refused(Refusal { code, at, value: 0 }))
}

#[test]
fn an_heir_below_what_it_inherits_contains_itself(rt: HostRuntime) -> Result<(), Fail> {
    let alloc = rt.alloc();
    let mut clafers = List::new(alloc);
    clafers.push(clafer(alloc, true, b"A", at(1, 10), None)?)?;
    clafers.push(inheriting(alloc, clafer(alloc, false, b"b", at(2, 5), Some(0))?, b"A")?)?;
    assert!(rt; clafers.len() == 2 && parents_first(&clafers));
    assert_eq!(rt;
        linked_families(alloc, &clafers).err(),
        refusal(64, at(2, 5))
    );
    Ok(())
}

#[test]
fn a_second_reference_is_refused_at_its_sign(rt: HostRuntime) -> Result<(), Fail> {
    let alloc = rt.alloc();
    let mut clafers = List::new(alloc);
    clafers.push(referring(clafer(alloc, true, b"A", at(1, 10), None)?, at(1, 12)))?;
    let heir = inheriting(alloc, clafer(alloc, false, b"b", at(2, 1), None)?, b"A")?;
    clafers.push(referring(heir, at(2, 7)))?;
    assert!(rt; clafers.len() == 2 && parents_first(&clafers));
    assert_eq!(rt;
        linked_families(alloc, &clafers).err(),
        refusal(65, at(2, 7))
    );
    Ok(())
}

#[test]
fn the_name_of_an_inherited_child_is_taken(rt: HostRuntime) -> Result<(), Fail> {
    let alloc = rt.alloc();
    let mut clafers = List::new(alloc);
    clafers.push(clafer(alloc, true, b"A", at(1, 10), None)?)?;
    clafers.push(clafer(alloc, false, b"x", at(2, 5), Some(0))?)?;
    clafers.push(inheriting(alloc, clafer(alloc, false, b"b", at(3, 1), None)?, b"A")?)?;
    clafers.push(clafer(alloc, false, b"x", at(4, 5), Some(2))?)?;
    assert!(rt; clafers.len() == 4 && parents_first(&clafers));
    assert_eq!(rt;
        linked_families(alloc, &clafers).err(),
        refusal(68, at(4, 5))
    );
    Ok(())
}

#[test]
fn what_is_refused_of_supers_comes_first(rt: HostRuntime) -> Result<(), Fail> {
    let alloc = rt.alloc();
    let mut clafers = List::new(alloc);
    clafers.push(clafer(alloc, true, b"A", at(1, 10), None)?)?;
    clafers.push(inheriting(alloc, clafer(alloc, false, b"b", at(2, 5), Some(0))?, b"A")?)?;
    clafers.push(inheriting(alloc, clafer(alloc, false, b"c", at(3, 1), None)?, b"D")?)?;
    assert!(rt; clafers.len() == 3 && parents_first(&clafers));
    assert_eq!(rt;
        linked_families(alloc, &clafers).err(),
        refusal(60, at(3, 1))
    );
    Ok(())
}

#[test]
fn families_are_linked(rt: HostRuntime) -> Result<(), Fail> {
    let alloc = rt.alloc();
    let mut clafers = List::new(alloc);
    clafers.push(clafer(alloc, false, b"a", at(1, 1), None)?)?;
    clafers.push(inheriting(alloc, clafer(alloc, false, b"a", at(2, 5), Some(0))?, b"A")?)?;
    clafers.push(referring(clafer(alloc, true, b"A", at(3, 10), None)?, at(3, 12)))?;
    assert!(rt; clafers.len() == 3 && parents_first(&clafers));
    let linked = linked_families(alloc, &clafers).ok().ok_or("refused")?;
    assert!(rt; linked.len() == 3);
    assert_eq!(rt; linked.get(1).above, Some(2));
    Ok(())
}
