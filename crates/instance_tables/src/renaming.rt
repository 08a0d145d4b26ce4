//! Instances with other numbers.

ghost use Rattle.std.specs.Prelude.{◌≡◌, map, IsPermutation, IfOk, IsTrue};
ghost use Rattle.std.specs.List.Sorted.{IsSortedBy};
ghost use Rattle.clf_tree.specs.Nodes.{is_before};
ghost use Rattle.instance_tables.specs.Below.{are_below_scopes};
ghost use Rattle.clf_tree.specs.Renaming.{renamed_node, renamed_target, renamed, IsRenaming, IsIsomorphic};

use clf_base::{List, NoMemory};
use clf_tree::{Entry, Instance, Node, Scopes, Target};
use std::alloc::Global;

fn renamed_node(numbers: &List<List<u32>>, node: Node) -> Node
    ensures { result ≡ renamed_node numbers.now node }
{
    let number = match numbers.as_slice().get(node.clafer as usize) {
        Some(of_clafer) => match of_clafer.as_slice().get(node.number as usize) {
            Some(number) => *number,
            None => 0,
        },
        None => 0,
    };
    Node {
        clafer: node.clafer,
        number,
    }
}

fn renamed_target(numbers: &List<List<u32>>, target: Target) -> Target
    ensures { result ≡ renamed_target numbers.now target }
{
    match target {
        Target::Int(value) => Target::Int(value),
        Target::Node(node) => Target::Node(renamed_node(numbers, node)),
    }
}

fn renamed(numbers: &List<List<u32>>, entry: &Entry) -> Entry
    ensures { result ≡ renamed numbers.now entry.now }
{
    Entry {
        node: renamed_node(numbers, entry.node),
        parent: match entry.parent {
            Some(parent) => Some(renamed_node(numbers, parent)),
            None => None,
        },
        target: match entry.target {
            Some(target) => Some(renamed_target(numbers, target)),
            None => None,
        },
    }
}

fn all_renamed(
    alloc: Global,
    numbers: &List<List<u32>>,
    entries: &[Entry],
) -> Result<Vec<Entry>, NoMemory>
    ensures { IfOk result (λ new. new.items ≡ map (renamed numbers.now) entries.now) }
{
    let mut new = Vec::new(alloc);
    for entry in entries {
        new.push(renamed(numbers, entry))?;
    }
    Ok(new)
}

fn sorted(mut entries: Vec<Entry>) -> Vec<Entry>
    ensures same { IsPermutation entries.items result.items }
    ensures sorted { IsSortedBy (λ a b. is_before a.node b.node) result.items }
{
    entries.sort_unstable_by_key(|entry| (entry.node.clafer, entry.node.number));
    entries
}

/// The instance in which each node (c, k) has become (c, `numbers[c][k]`), as an entry, as a parent and as a target.
///
/// `numbers` has one list for each clafer, a permutation of the numbers below its scope, so the result is isomorphic to the
/// instance. The entries are sorted anew, which takes n log n steps.
pub fn rename(
    alloc: Global,
    scopes: &Scopes,
    instance: &Instance,
    numbers: &List<List<u32>>,
) -> Result<Instance, NoMemory>
    requires below { IsTrue (are_below_scopes scopes.now instance.now.entries) }
    requires renaming { IsRenaming scopes.now numbers.now }
    ensures exact { IfOk result (λ new. IsPermutation (map (renamed numbers.now) instance.now.entries) new.entries) }
    ensures isomorphic { IfOk result (λ new. IsIsomorphic scopes.now instance.now.entries new.entries) }
{
    let entries = sorted(all_renamed(alloc, numbers, instance.entries.as_slice())?);
    Ok(Instance {
        entries: List::from_vec(entries),
    })
}
