ghost use Rattle.std.specs.Prelude.{◌≡◌};
ghost use Rattle.std.specs.List.{list_all};
ghost use Rattle.std.specs.Option.{option_and_then};
ghost use Rattle.clf_tree.specs.Hierarchy.{is_below, is_closed, names_below};
ghost use Rattle.clf_tree.specs.Nodes.{is_before};

use crate::{has_shape, is_tree, is_within};
use clf_base::{List, Span};
use clf_tree::{Clafer, Entry, Instance, Interval, Model, Node, Reference, Scopes, Target, Title};
use instance_tables::Tables;
use std::alloc::Global;
use std::test::Fail;

const HERE: Span = Span { line: 0, column: 0 };

fn clafer(alloc: Global, parent: Option<u32>, times: Interval) -> Clafer {
    Clafer {
        title: Title {
            name: List::new(alloc),
            at: HERE,
        },
        is_abstract: false,
        parent,
        above: None,
        group: Interval { low: 0, high: None },
        times,
        reference: None,
    }
}

// a, and below it one or two c -> int
fn costs(alloc: Global) -> Result<Model, Fail> {
    let one = Interval {
        low: 1,
        high: Some(1),
    };
    let some = Interval {
        low: 1,
        high: Some(2),
    };
    let mut cost = clafer(alloc, Some(0), some);
    cost.reference = Some(Reference {
        at: HERE,
        bag: false,
        to: None,
    });
    let mut clafers = List::new(alloc);
    clafers.push(clafer(alloc, None, one))?;
    clafers.push(cost)?;
    Ok(Model {
        clafers,
        rules: List::new(alloc),
        goals: List::new(alloc),
    })
}

fn is_below(n: usize, clafer: Option<u32>) -> bool
    ensures { result ≡ is_below n clafer }
{
    match clafer {
        Some(number) => (number as usize) < n,
        None => true,
    }
}

fn target(reference: Option<Reference>) -> Option<u32>
    ensures { result ≡ option_and_then (λ r. r.to) reference }
{
    match reference {
        Some(reference) => reference.to,
        None => None,
    }
}

fn names_below(n: usize, clafer: &Clafer) -> bool
    ensures { result ≡ names_below n clafer.now }
{
    is_below(n, clafer.parent) && is_below(n, clafer.above) && is_below(n, target(clafer.reference))
}

fn is_closed(clafers: &List<Clafer>) -> bool
    ensures { result ≡ is_closed clafers.now }
{
    clafers
        .as_slice()
        .iter()
        .all(|clafer| names_below(clafers.len(), clafer))
}

fn is_before(m: Node, n: Node) -> bool
    ensures { result ≡ is_before m n }
{
    m.clafer < n.clafer || (m.clafer == n.clafer && m.number < n.number)
}

fn comes_last(instance: &Instance, node: Node) -> bool
    ensures { result ≡ list_all (λ e. is_before e.node node) instance.now.entries }
{
    instance
        .entries
        .as_slice()
        .iter()
        .all(|entry| is_before(entry.node, node))
}

fn add(
    instance: &mut Instance,
    clafer: u32,
    number: u32,
    parent: Option<Node>,
    target: Option<Target>,
) -> Result<(), Fail> {
    let node = Node { clafer, number };
    if comes_last(instance, node) {
        instance.add(Entry {
            node,
            parent,
            target,
        })?;
    }
    Ok(())
}

fn two_costs(alloc: Global, first: i64, second: i64) -> Result<Instance, Fail> {
    let above = Node {
        clafer: 0,
        number: 0,
    };
    let mut instance = Instance::new(alloc);
    add(&mut instance, 0, 0, None, None)?;
    add(&mut instance, 1, 0, Some(above), Some(Target::Int(first)))?;
    add(&mut instance, 1, 1, Some(above), Some(Target::Int(second)))?;
    Ok(instance)
}

fn is_shaped(alloc: Global, instance: &Instance) -> Result<Option<bool>, Fail> {
    let model = costs(alloc)?;
    let scopes = Scopes {
        of: List::from_slice(alloc, &[1, 2])?,
        low: 0,
        high: 9,
    };
    if is_closed(&model.clafers)
        && model.clafers.len() == 2
        && is_within(&model.clafers, &scopes, instance)
    {
        let tables = Tables::build(alloc, &model, &scopes, instance)?;
        let tree = is_tree(&model.clafers, &tables);
        return Ok(Some(tree && has_shape(&model.clafers, &scopes, &tables)));
    }
    Ok(None)
}

#[test]
fn the_targets_of_a_set_differ_and_are_in_the_range(rt: HostRuntime) -> Result<(), Fail> {
    let alloc = rt.alloc();
    assert_eq!(rt; is_shaped(alloc, &two_costs(alloc, 5, 6)?)?, Some(true));
    assert_eq!(rt; is_shaped(alloc, &two_costs(alloc, 5, 5)?)?, Some(false));
    assert_eq!(rt; is_shaped(alloc, &two_costs(alloc, 5, 10)?)?, Some(false));
    Ok(())
}
