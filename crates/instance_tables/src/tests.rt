ghost use Rattle.std.specs.Prelude.{◌≡◌, ◌≤◌, ◌&&◌, nat_lt, sum, IsTrue};
ghost use Rattle.std.specs.List.{list_all};
ghost use Rattle.std.specs.Option.{option_to_list};
ghost use Rattle.clf_tree.specs.Hierarchy.{is_concrete};
ghost use Rattle.clf_tree.specs.Nodes.{is_before, is_within, named_by, scope_of};

use crate::Tables;
use clf_base::{List, Span};
use clf_tree::{Clafer, Entry, Instance, Interval, Model, Node, Scopes, Target, Title};
use std::alloc::Global;
use std::test::Fail;

const HERE: Span = Span { line: 0, column: 0 };

fn node(clafer: u32, number: u32) -> Node {
    Node { clafer, number }
}

fn clafer(alloc: Global, parent: Option<u32>) -> Clafer {
    Clafer {
        title: Title {
            name: List::new(alloc),
            at: HERE,
        },
        is_abstract: false,
        parent,
        above: None,
        group: Interval { low: 0, high: None },
        times: Interval { low: 0, high: None },
        reference: None,
    }
}

// a, under it b ? and c ?
fn options(alloc: Global) -> Result<Model, Fail> {
    let mut clafers = List::new(alloc);
    clafers.push(clafer(alloc, None))?;
    clafers.push(clafer(alloc, Some(0)))?;
    clafers.push(clafer(alloc, Some(0)))?;
    Ok(Model {
        clafers,
        rules: List::new(alloc),
        goals: List::new(alloc),
    })
}

fn is_inside(model: &Model, scopes: &Scopes, node: Node) -> bool
    ensures { result ≡ (is_concrete model.now.clafers node.clafer && nat_lt node.number (scope_of scopes.now node.clafer)) }
{
    let is_concrete = match model.clafers.as_slice().get(node.clafer as usize) {
        Some(found) => !found.is_abstract,
        None => false,
    };
    let scope = match scopes.of.as_slice().get(node.clafer as usize) {
        Some(scope) => *scope,
        None => 0,
    };
    is_concrete && node.number < scope
}

fn names_inside(model: &Model, scopes: &Scopes, entry: &Entry) -> bool
    ensures { result ≡ list_all (λ n. is_concrete model.now.clafers n.clafer && nat_lt n.number (scope_of scopes.now n.clafer)) (named_by entry.now) }
{
    let parent_inside = match entry.parent {
        Some(parent) => is_inside(model, scopes, parent),
        None => true,
    };
    let target_inside = match entry.target {
        Some(Target::Node(target)) => is_inside(model, scopes, target),
        _ => true,
    };
    is_inside(model, scopes, entry.node) && parent_inside && target_inside
}

fn is_within(model: &Model, scopes: &Scopes, instance: &Instance) -> bool
    ensures { result ≡ is_within model.now.clafers scopes.now instance.now.entries }
{
    instance
        .entries
        .as_slice()
        .iter()
        .all(|entry| names_inside(model, scopes, entry))
}

fn is_before(m: Node, n: Node) -> bool
    ensures { result ≡ is_before m n }
{
    m.clafer < n.clafer || (m.clafer == n.clafer && m.number < n.number)
}

fn comes_last(instance: &Instance, node: Node) -> bool
    ensures { result ≡ list_all (λ e. is_before e.node node) instance.now.entries }
{
    instance
        .entries
        .as_slice()
        .iter()
        .all(|entry| is_before(entry.node, node))
}

pub fn add_entry(instance: &mut Instance, entry: Entry) -> Result<(), Fail> {
    if comes_last(instance, entry.node) {
        instance.add(entry)?;
    }
    Ok(())
}

fn add(instance: &mut Instance, node: Node, parent: Option<Node>) -> Result<(), Fail> {
    add_entry(
        instance,
        Entry {
            node,
            parent,
            target: None,
        },
    )
}

#[test]
fn a_node_has_its_children_in_order(rt: HostRuntime) -> Result<(), Fail> {
    let alloc = rt.alloc();
    let model = options(alloc)?;
    let scopes = Scopes {
        of: List::from_slice(alloc, &[1, 1, 1])?,
        low: -2048,
        high: 2047,
    };
    let mut instance = Instance::new(alloc);
    add(&mut instance, node(0, 0), None)?;
    add(&mut instance, node(1, 0), Some(node(0, 0)))?;
    add(&mut instance, node(2, 0), Some(node(0, 0)))?;
    assert!(rt; is_within(&model, &scopes, &instance));
    let tables = Tables::build(alloc, &model, &scopes, &instance)?;
    let children = tables.children(alloc, node(0, 0))?;
    assert_eq!(rt; children.as_slice(), [node(1, 0), node(2, 0)].as_slice());
    assert!(rt; tables.is_live(node(2, 0)) && !tables.is_live(node(2, 1)));
    assert_eq!(rt; tables.parent_of(node(1, 0)), Some(node(0, 0)));
    assert_eq!(rt; tables.target_of(node(1, 0)), None);
    let set = tables.set(alloc, &[node(2, 0)])?;
    assert!(rt; set.has(node(2, 0)) && !set.has(node(1, 0)));
    Ok(())
}
