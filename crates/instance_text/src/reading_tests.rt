ghost use Rattle.std.specs.Prelude.{◌≡◌, IsTrue};
ghost use Rattle.std.specs.Option.{option_and_then};
ghost use Rattle.clf_tree.specs.Hierarchy.{is_below, is_closed, names_below};

use crate::read;
use crate::reading::find;
use crate::tests::{clafer, model};
use clf_base::List;
use clf_tree::{Clafer, Entry, Model, Node, Reference, Target};
use std::alloc::Global;
use std::test::Fail;

fn is_below(n: usize, clafer: Option<u32>) -> bool
    ensures { result ≡ is_below n clafer }
{
    match clafer {
        Some(number) => (number as usize) < n,
        None => true,
    }
}

fn target(reference: Option<Reference>) -> Option<u32>
    ensures { result ≡ option_and_then (λ r. r.to) reference }
{
    match reference {
        Some(reference) => reference.to,
        None => None,
    }
}

fn names_below(n: usize, clafer: &Clafer) -> bool
    ensures { result ≡ names_below n clafer.now }
{
    is_below(n, clafer.parent) && is_below(n, clafer.above) && is_below(n, target(clafer.reference))
}

fn is_closed(clafers: &List<Clafer>) -> bool
    ensures { result ≡ is_closed clafers.now }
{
    clafers
        .as_slice()
        .iter()
        .all(|clafer| names_below(clafers.len(), clafer))
}

// red and green, and a car with paint
fn painted(alloc: Global) -> Result<Model, Fail> {
    let mut clafers = List::new(alloc);
    clafers.push(clafer(alloc, b"red", None)?)?;
    clafers.push(clafer(alloc, b"green", None)?)?;
    clafers.push(clafer(alloc, b"car", None)?)?;
    clafers.push(clafer(alloc, b"paint", Some(2))?)?;
    Ok(model(alloc, clafers))
}

// The last entry of the instance whose text this is.
fn last(alloc: Global, model: &Model, text: &[u8]) -> Result<Option<Entry>, Fail>
    requires closed { IsTrue (is_closed model.now.clafers) }
{
    match find(alloc, model, text)? {
        Some(instance) => match instance.entries.as_slice().last() {
            Some(entry) => Ok(Some(*entry)),
            None => Ok(None),
        },
        None => Ok(None),
    }
}

fn node(clafer: u32) -> Node {
    Node { clafer, number: 0 }
}

#[test]
fn a_tree_is_read_from_its_text(rt: HostRuntime) -> Result<(), Fail> {
    let alloc = rt.alloc();
    let model = painted(alloc)?;
    assert!(rt; is_closed(&model.clafers));
    let paint = Entry {
        node: node(3),
        parent: Some(node(2)),
        target: Some(Target::Node(node(0))),
    };
    let text = b"red$0\ngreen$0\ncar$0\n  paint$0 -> red$0\ncar$1 = -12\n";
    assert_eq!(rt; last(alloc, &model, text)?, Some(paint));
    Ok(())
}

#[test]
fn other_texts_are_of_no_instance(rt: HostRuntime) -> Result<(), Fail> {
    let alloc = rt.alloc();
    let model = painted(alloc)?;
    assert!(rt; is_closed(&model.clafers));
    assert!(rt; last(alloc, &model, b"car$0\n  paint$0\n")?.is_some());
    assert!(rt; last(alloc, &model, b"car$0\n paint$0\n")?.is_none());
    assert!(rt; last(alloc, &model, b"car$00\n")?.is_none());
    assert!(rt; last(alloc, &model, b"car$0\ncar$0\n")?.is_none());
    assert!(rt; last(alloc, &model, b"  paint$0\n")?.is_none());
    assert!(rt; last(alloc, &model, b"red$0\n  paint$0\n")?.is_none());
    assert!(rt; last(alloc, &model, b"car$1\ncar$0\n")?.is_none());
    Ok(())
}

#[test]
fn the_empty_instance_has_the_empty_text(rt: HostRuntime) -> Result<(), Fail> {
    let alloc = rt.alloc();
    let model = Model {
        clafers: List::new(alloc),
        rules: List::new(alloc),
        goals: List::new(alloc),
    };
    assert!(rt; read(alloc, &model, b"")?.is_some());
    Ok(())
}
