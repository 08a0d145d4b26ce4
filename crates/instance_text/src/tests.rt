ghost use Rattle.std.specs.Prelude.{◌≡◌};
ghost use Rattle.std.specs.List.{list_all};
ghost use Rattle.clf_tree.specs.Nodes.{is_before};

use crate::show;
use clf_base::{List, Span};
use clf_tree::{Clafer, Entry, Instance, Interval, Model, Node, Target, Title};
use std::alloc::Global;
use std::test::Fail;

const HERE: Span = Span { line: 0, column: 0 };

pub(crate) fn clafer(alloc: Global, name: &[u8], parent: Option<u32>) -> Result<Clafer, Fail> {
    Ok(Clafer {
        title: Title {
            name: List::from_slice(alloc, name)?,
            at: HERE,
        },
        is_abstract: false,
        parent,
        above: None,
        group: Interval { low: 0, high: None },
        times: Interval { low: 0, high: None },
        reference: None,
    })
}

pub(crate) fn model(alloc: Global, clafers: List<Clafer>) -> Model {
    Model {
        clafers,
        rules: List::new(alloc),
        goals: List::new(alloc),
    }
}

fn is_before(m: Node, n: Node) -> bool
    ensures { result ≡ is_before m n }
{
    m.clafer < n.clafer || (m.clafer == n.clafer && m.number < n.number)
}

fn comes_last(instance: &Instance, node: Node) -> bool
    ensures { result ≡ list_all (λ e. is_before e.node node) instance.now.entries }
{
    instance
        .entries
        .as_slice()
        .iter()
        .all(|entry| is_before(entry.node, node))
}

// The first node of a clafer, above those that are there, below the first node of another.
fn add(
    instance: &mut Instance,
    clafer: u32,
    parent: Option<u32>,
    target: Option<Target>,
) -> Result<(), Fail> {
    let parent = match parent {
        Some(parent) => Some(Node {
            clafer: parent,
            number: 0,
        }),
        None => None,
    };
    let node = Node { clafer, number: 0 };
    if comes_last(instance, node) {
        instance.add(Entry {
            node,
            parent,
            target,
        })?;
    }
    Ok(())
}

#[test]
fn a_tree_shows_children_and_targets(rt: HostRuntime) -> Result<(), Fail> {
    let alloc = rt.alloc();
    let mut clafers = List::new(alloc);
    clafers.push(clafer(alloc, b"red", None)?)?;
    clafers.push(clafer(alloc, b"green", None)?)?;
    clafers.push(clafer(alloc, b"car", None)?)?;
    clafers.push(clafer(alloc, b"paint", Some(2))?)?;
    let model = model(alloc, clafers);
    let red = Target::Node(Node {
        clafer: 0,
        number: 0,
    });
    let mut instance = Instance::new(alloc);
    add(&mut instance, 0, None, None)?;
    add(&mut instance, 1, None, None)?;
    add(&mut instance, 2, None, None)?;
    add(&mut instance, 3, Some(2), Some(red))?;
    let text = show(alloc, &model, &instance)?;
    assert_eq!(rt;
        text.as_slice(),
        b"red$0\ngreen$0\ncar$0\n  paint$0 -> red$0\n".as_slice()
    );
    Ok(())
}

#[test]
fn a_namesake_is_shown_by_its_path(rt: HostRuntime) -> Result<(), Fail> {
    let alloc = rt.alloc();
    let mut clafers = List::new(alloc);
    clafers.push(clafer(alloc, b"x", None)?)?;
    clafers.push(clafer(alloc, b"a", None)?)?;
    clafers.push(clafer(alloc, b"x", Some(1))?)?;
    let model = model(alloc, clafers);
    let mut instance = Instance::new(alloc);
    add(&mut instance, 1, None, Some(Target::Int(-32768)))?;
    add(&mut instance, 2, Some(1), None)?;
    let text = show(alloc, &model, &instance)?;
    assert_eq!(rt; text.as_slice(), b"a$0 = -32768\n  a.x$0\n".as_slice());
    Ok(())
}
