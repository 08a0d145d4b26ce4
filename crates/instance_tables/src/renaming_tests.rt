ghost use Rattle.std.specs.Prelude.{◌≡◌, ◌&&◌, [], ◌∷◌, IfOk, nat_lt};
ghost use Rattle.std.specs.List.{list_all};
ghost use Rattle.clf_tree.specs.Nodes.{scope_of, named_by};
ghost use Rattle.instance_tables.specs.Below.{is_below_scope, are_below_scopes};

use crate::rename;
use crate::tests::add_entry;
use clf_base::{List, NoMemory};
use clf_tree::{Entry, Instance, Node, Scopes, Target};
use std::alloc::Global;
use std::test::Fail;

fn cost(number: u32, value: i64) -> Entry {
    Entry {
        node: Node { clafer: 0, number },
        parent: None,
        target: Some(Target::Int(value)),
    }
}

fn exchange(alloc: Global) -> Result<List<List<u32>>, NoMemory>
    ensures { IfOk result (λ numbers. numbers ≡ (1 ∷ 0 ∷ []) ∷ []) }
{
    let mut numbers = List::new(alloc);
    numbers.push(List::from_slice(alloc, &[1, 0])?)?;
    Ok(numbers)
}

fn is_below_scope(scopes: &Scopes, node: Node) -> bool
    ensures { result ≡ is_below_scope scopes.now node }
{
    match scopes.of.as_slice().get(node.clafer as usize) {
        Some(scope) => node.number < *scope,
        None => false,
    }
}

fn names_below(scopes: &Scopes, entry: &Entry) -> bool
    ensures { result ≡ list_all (is_below_scope scopes.now) (named_by entry.now) }
{
    let parent_below = match entry.parent {
        Some(parent) => is_below_scope(scopes, parent),
        None => true,
    };
    let target_below = match entry.target {
        Some(Target::Node(target)) => is_below_scope(scopes, target),
        _ => true,
    };
    is_below_scope(scopes, entry.node) && parent_below && target_below
}

fn are_below(scopes: &Scopes, instance: &Instance) -> bool
    ensures { result ≡ are_below_scopes scopes.now instance.now.entries }
{
    instance
        .entries
        .as_slice()
        .iter()
        .all(|entry| names_below(scopes, entry))
}

#[test]
fn two_costs_exchange_their_numbers(rt: HostRuntime) -> Result<(), Fail> {
    let alloc = rt.alloc();
    let scopes = Scopes {
        of: List::from_slice(alloc, &[2])?,
        low: -2048,
        high: 2047,
    };
    let mut instance = Instance::new(alloc);
    add_entry(&mut instance, cost(0, 15))?;
    add_entry(&mut instance, cost(1, 12))?;
    assert!(rt; are_below(&scopes, &instance));
    let renamed = rename(alloc, &scopes, &instance, &exchange(alloc)?)?;
    assert_eq!(rt;
        renamed.entries.as_slice(),
        [cost(0, 12), cost(1, 15)].as_slice()
    );
    Ok(())
}
