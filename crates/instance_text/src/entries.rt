//! The entries of lines.

ghost use Rattle.std.specs.Prelude.{◌≡◌, [], length, IfOk, IsTrue, IsPermutation, None};
ghost use Rattle.std.specs.Option.{option_map};
ghost use Rattle.std.specs.List.{list_all};
ghost use Rattle.std.specs.List.Sorted.{IsSortedBy};
ghost use Rattle.clf_tree.specs.Hierarchy.{is_closed, is_concrete};
ghost use Rattle.clf_tree.specs.Nodes.{is_before};
ghost use Rattle.instance_text.specs.Lines as depths;
ghost use Rattle.instance_text.specs.Placed as placed;
ghost use Rattle.instance_text.specs.Reading as spec;

use crate::lines::Line;
use clf_base::{List, NoMemory};
use clf_tree::{Clafer, Entry, Instance, Node, Target, is_a};
use std::alloc::Global;

/// The entries of lines: the parent of each is the node of the last line before it that stands one step less deep.
pub(crate) fn entries_of(alloc: Global, lines: &[Line]) -> Result<Option<Vec<Entry>>, NoMemory>
    ensures { IfOk result (λ found. option_map (λ es. es.items) found ≡ depths.entries_below [] lines.now) }
{
    let mut entries = Vec::new(alloc);
    let mut above: Vec<Node> = Vec::new(alloc);
    for line in lines {
        if line.depth > above.len() {
            return Ok(None);
        }
        above.truncate(line.depth);
        let parent = match above.last() {
            Some(node) => Some(*node),
            None => None,
        };
        entries.push(Entry {
            node: line.node,
            parent,
            target: line.target,
        })?;
        above.push(line.node)?;
    }
    Ok(Some(entries))
}

/// The same entries in the order of their nodes.
pub(crate) fn sorted(mut entries: Vec<Entry>) -> Vec<Entry>
    ensures same { IsPermutation entries.items result.items }
    ensures sorted { IsSortedBy (λ a b. is_before a.node b.node) result.items }
{
    entries.sort_unstable_by_key(|entry| (entry.node.clafer, entry.node.number));
    entries
}

fn is_before(m: Node, n: Node) -> bool
    ensures { result ≡ is_before m n }
{
    m.clafer < n.clafer || (m.clafer == n.clafer && m.number < n.number)
}

fn rises(last: Option<Node>, node: Node) -> bool
    ensures { result ≡ spec.rises last node }
{
    match last {
        None => true,
        Some(last) => is_before(last, node),
    }
}

/// The instance of the entries whose nodes are above the last one that was kept.
pub(crate) fn instance_of(alloc: Global, entries: &[Entry]) -> Result<Instance, NoMemory>
    ensures { IfOk result (λ instance. instance.entries ≡ spec.rising None entries.now) }
{
    let mut instance = Instance::new(alloc);
    let mut last = None;
    for entry in entries {
        if !rises(last, entry.node) {
            continue;
        }
        instance.add(*entry)?;
        last = Some(entry.node);
    }
    Ok(instance)
}

fn is_concrete(clafers: &List<Clafer>, node: Node) -> bool
    ensures { result ≡ is_concrete clafers.now node.clafer }
{
    match clafers.as_slice().get(node.clafer as usize) {
        Some(clafer) => !clafer.is_abstract,
        None => false,
    }
}

/// Whether a node belongs to an owner of a clafer that is declared under `parent`.
fn is_owner(clafers: &List<Clafer>, parent: u32, node: Node) -> bool
    requires closed { IsTrue (is_closed clafers.now) }
    ensures { result ≡ placed.is_owner clafers.now parent node }
{
    if !is_concrete(clafers, node) {
        return false;
    }
    is_a(clafers, node.clafer, parent)
}

/// Whether a nested clafer's node has a parent of an owner, and another one has none.
fn has_owner(clafers: &List<Clafer>, entry: &Entry) -> bool
    requires closed { IsTrue (is_closed clafers.now) }
    ensures { result ≡ placed.has_owner clafers.now entry.now }
{
    let declared = match clafers.as_slice().get(entry.node.clafer as usize) {
        Some(clafer) => clafer.parent,
        None => None,
    };
    match declared {
        None => entry.parent.is_none(),
        Some(under) => match entry.parent {
            None => false,
            Some(parent) => is_owner(clafers, under, parent),
        },
    }
}

/// Whether the nodes that an entry names are of concrete clafers.
fn names_concrete(clafers: &List<Clafer>, entry: &Entry) -> bool
    ensures { result ≡ placed.names_concrete clafers.now entry.now }
{
    if !is_concrete(clafers, entry.node) {
        return false;
    }
    if let Some(parent) = entry.parent {
        if !is_concrete(clafers, parent) {
            return false;
        }
    }
    match entry.target {
        Some(Target::Node(node)) => is_concrete(clafers, node),
        Some(Target::Int(_)) => true,
        None => true,
    }
}

/// Whether an entry can stand in a tree, whatever the others are.
fn is_placed(clafers: &List<Clafer>, entry: &Entry) -> bool
    requires closed { IsTrue (is_closed clafers.now) }
    ensures { result ≡ placed.is_placed clafers.now entry.now }
{
    if !names_concrete(clafers, entry) {
        return false;
    }
    has_owner(clafers, entry)
}

/// Whether each can.
pub(crate) fn are_placed(clafers: &List<Clafer>, entries: &[Entry]) -> bool
    requires closed { IsTrue (is_closed clafers.now) }
    ensures { result ≡ list_all (placed.is_placed clafers.now) entries.now }
{
    for entry in entries {
        if !is_placed(clafers, entry) {
            return false;
        }
    }
    true
}
