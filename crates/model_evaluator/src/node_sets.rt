//! Sets of nodes, in the order of the model.

ghost use Rattle.std.specs.Prelude.{◌≡◌, ◌∷◌, ◌++◌, ◌||◌, [], not, IfOk, OnOk, IsTrue, None, if◌then◌else◌};
ghost use Rattle.std.specs.List.{filter, list_all};
ghost use Rattle.std.specs.Option.{option_map_or, option_to_list};
ghost use Rattle.clf_tree.specs.Hierarchy.{is_a, is_closed, is_one_of};
ghost use Rattle.clf_tree.specs.Nodes.{has_node, has_some, nodes_of, same_node, target_node};
ghost use Rattle.clf_tree.specs.Meaning.{all_in, children, parents, targets, through};
ghost use Rattle.model_evaluator.specs.Sources.{reached};

use clf_base::{List, NoMemory};
use clf_tree::{Clafer, Entry, Node, Target};
use instance_shape::is_a;
use instance_tables::{NodeSet, Tables};
use std::alloc::Global;

/// The node, if there is one.
pub fn node_list(alloc: Global, node: Option<Node>) -> Result<List<Node>, NoMemory>
    ensures { IfOk result (λ ns. ns ≡ option_map_or (λ n. n ∷ []) node []) }
{
    match node {
        Some(node) => List::from_slice(alloc, &[node]),
        None => Ok(List::new(alloc)),
    }
}

/// The instances of a clafer. It goes over the entries.
pub fn instances_of(
    alloc: Global,
    clafers: &List<Clafer>,
    entries: &[Entry],
    clafer: u32,
) -> Result<List<Node>, NoMemory>
    requires closed { IsTrue (is_closed clafers.now) }
    ensures { IfOk result (λ ns. ns ≡ nodes_of (filter (λ x. is_a clafers.now x.node.clafer clafer) entries.now)) }
{
    let mut found = List::new(alloc);
    for entry in entries {
        if is_a(clafers, entry.node.clafer, clafer) {
            found.push(entry.node)?;
        }
    }
    Ok(found)
}

fn is_one(clafers: &List<Clafer>, ks: &List<u32>, clafer: u32) -> bool
    requires closed { IsTrue (is_closed clafers.now) }
    ensures { result ≡ is_one_of clafers.now ks.now clafer }
{
    ks.as_slice().iter().any(|k| is_a(clafers, clafer, *k))
}

/// The nodes of the listed clafers below a node.
#[tactic(auto, using(crate::proofs::Below::child_steps))]
fn children_of_one(
    alloc: Global,
    clafers: &List<Clafer>,
    tables: &Tables,
    into: &List<u32>,
    node: Node,
) -> Result<List<Node>, NoMemory>
    requires closed { IsTrue (is_closed clafers.now) }
    ensures { IfOk result (λ ns. ns ≡ children clafers.now tables.now.entries into.now (node ∷ [])) }
{
    let found = listed(alloc, clafers, into, tables.below(node))?;
    Ok(found)
}

fn listed(
    alloc: Global,
    clafers: &List<Clafer>,
    into: &List<u32>,
    nodes: &[Node],
) -> Result<List<Node>, NoMemory>
    requires closed { IsTrue (is_closed clafers.now) }
    ensures { IfOk result (λ ns. ns ≡ filter (λ n. is_one_of clafers.now into.now n.clafer) nodes.now) }
{
    let mut found = List::new(alloc);
    for node in nodes {
        if is_one(clafers, into, node.clafer) {
            found.push(*node)?;
        }
    }
    Ok(found)
}

/// Whether a node that may be missing is there and in the set.
fn has_some(set: &NodeSet, node: Option<Node>) -> bool
    ensures { result ≡ has_some set.now.nodes node }
{
    match node {
        Some(node) => set.has(node),
        None => false,
    }
}

fn children_of_all(
    alloc: Global,
    clafers: &List<Clafer>,
    entries: &[Entry],
    into: &List<u32>,
    set: &NodeSet,
) -> Result<List<Node>, NoMemory>
    requires closed { IsTrue (is_closed clafers.now) }
    ensures { IfOk result (λ ns. ns ≡ children clafers.now entries.now into.now set.now.nodes) }
{
    let mut found = List::new(alloc);
    for entry in entries {
        if has_some(set, entry.parent) && is_one(clafers, into, entry.node.clafer) {
            found.push(entry.node)?;
        }
    }
    Ok(found)
}

/// The nodes of the listed clafers below one of the given nodes. From one node it reads the node's children; from several it goes over
/// the entries.
#[tactic(auto, using(crate::proofs::Below::only_one))]
pub fn children(
    alloc: Global,
    clafers: &List<Clafer>,
    tables: &Tables,
    into: &List<u32>,
    nodes: &[Node],
) -> Result<List<Node>, NoMemory>
    requires closed { IsTrue (is_closed clafers.now) }
    ensures { IfOk result (λ ns. ns ≡ children clafers.now tables.now.entries into.now nodes.now) }
{
    if nodes.len() == 1 {
        let found = children_of_one(alloc, clafers, tables, into, nodes[0])?;
        return Ok(found);
    }
    let set = tables.set(alloc, nodes)?;
    let found = children_of_all(alloc, clafers, tables.entries.as_slice(), into, &set)?;
    Ok(found)
}

fn with_nodes(alloc: Global, entries: &[Entry], set: &NodeSet) -> Result<List<Node>, NoMemory>
    ensures { IfOk result (λ ns. ns ≡ nodes_of (filter (λ x. has_node set.now.nodes x.node) entries.now)) }
{
    let mut found = List::new(alloc);
    for entry in entries {
        if set.has(entry.node) {
            found.push(entry.node)?;
        }
    }
    Ok(found)
}

/// Adds the node, if there is one.
fn push_some(found: &mut List<Node>, node: Option<Node>) -> Result<(), NoMemory>
    ensures { OnOk result (found.new ≡ found.old ++ option_to_list node) }
{
    if let Some(node) = node {
        found.push(node)?;
    }
    Ok(())
}

/// The parent of an entry whose node is a member.
fn parent_of_member(set: &NodeSet, entry: &Entry) -> Option<Node>
    ensures { result ≡ (if has_node set.now.nodes entry.now.node then entry.now.parent else None) }
{
    if set.has(entry.node) {
        return entry.parent;
    }
    None
}

/// The parents of the members, as often as they are one.
fn parent_list(alloc: Global, entries: &[Entry], set: &NodeSet) -> Result<List<Node>, NoMemory>
    ensures { IfOk result (λ ns. ns ≡ reached (λ x. x.parent) set.now.nodes entries.now) }
{
    let mut found = List::new(alloc);
    for entry in entries {
        push_some(&mut found, parent_of_member(set, entry))?;
    }
    Ok(found)
}

fn target_node(entry: &Entry) -> Option<Node>
    ensures { result ≡ target_node entry.now }
{
    match entry.target {
        Some(Target::Node(target)) => Some(target),
        _ => None,
    }
}

/// The node that an entry whose node is a member refers to.
fn target_of_member(set: &NodeSet, entry: &Entry) -> Option<Node>
    ensures { result ≡ (if has_node set.now.nodes entry.now.node then target_node entry.now else None) }
{
    if set.has(entry.node) {
        return target_node(entry);
    }
    None
}

/// The targets of the members, as often as they are one.
fn target_list(alloc: Global, entries: &[Entry], set: &NodeSet) -> Result<List<Node>, NoMemory>
    ensures { IfOk result (λ ns. ns ≡ reached target_node set.now.nodes entries.now) }
{
    let mut found = List::new(alloc);
    for entry in entries {
        push_some(&mut found, target_of_member(set, entry))?;
    }
    Ok(found)
}

/// The parents of the given nodes, each once. It goes over the entries twice.
#[tactic(auto, using(crate::proofs::Reached::reached_steps))]
pub fn parents(alloc: Global, tables: &Tables, nodes: &[Node]) -> Result<List<Node>, NoMemory>
    ensures { IfOk result (λ ns. ns ≡ parents [] tables.now.entries nodes.now) }
{
    let entries = tables.entries.as_slice();
    let set = tables.set(alloc, nodes)?;
    let list = parent_list(alloc, entries, &set)?;
    let reached = tables.set(alloc, list.as_slice())?;
    with_nodes(alloc, entries, &reached)
}

/// The nodes that the given nodes refer to, each once. It goes over the entries twice.
#[tactic(auto, using(crate::proofs::Reached::reached_steps))]
pub fn targets(alloc: Global, tables: &Tables, nodes: &[Node]) -> Result<List<Node>, NoMemory>
    ensures { IfOk result (λ ns. ns ≡ targets [] tables.now.entries nodes.now) }
{
    let entries = tables.entries.as_slice();
    let set = tables.set(alloc, nodes)?;
    let list = target_list(alloc, entries, &set)?;
    let reached = tables.set(alloc, list.as_slice())?;
    with_nodes(alloc, entries, &reached)
}

/// The nodes themselves, or those that they refer to.
pub fn through(
    alloc: Global,
    tables: &Tables,
    dref: bool,
    nodes: List<Node>,
) -> Result<List<Node>, NoMemory>
    ensures { IfOk result (λ ns. ns ≡ through [] tables.now.entries dref nodes) }
{
    if dref {
        return targets(alloc, tables, nodes.as_slice());
    }
    Ok(nodes)
}

fn in_either(
    alloc: Global,
    entries: &[Entry],
    left: &NodeSet,
    right: &NodeSet,
) -> Result<List<Node>, NoMemory>
    ensures { IfOk result (λ ns. ns ≡ nodes_of (filter (λ x. has_node left.now.nodes x.node || has_node right.now.nodes x.node) entries.now)) }
{
    let mut found = List::new(alloc);
    for entry in entries {
        if left.has(entry.node) || right.has(entry.node) {
            found.push(entry.node)?;
        }
    }
    Ok(found)
}

/// The nodes of the instance that are in one of two lists. It goes over the entries.
pub fn union(
    alloc: Global,
    tables: &Tables,
    left: &[Node],
    right: &[Node],
) -> Result<List<Node>, NoMemory>
    ensures { IfOk result (λ ns. ns ≡ nodes_of (filter (λ x. has_node left.now x.node || has_node right.now x.node) tables.now.entries)) }
{
    let left = tables.set(alloc, left)?;
    let right = tables.set(alloc, right)?;
    in_either(alloc, tables.entries.as_slice(), &left, &right)
}

fn outside(alloc: Global, nodes: &[Node], set: &NodeSet) -> Result<List<Node>, NoMemory>
    ensures { IfOk result (λ ns. ns ≡ filter (λ n. not (has_node set.now.nodes n)) nodes.now) }
{
    let mut found = List::new(alloc);
    for node in nodes {
        if !set.has(*node) {
            found.push(*node)?;
        }
    }
    Ok(found)
}

fn inside(alloc: Global, nodes: &[Node], set: &NodeSet) -> Result<List<Node>, NoMemory>
    ensures { IfOk result (λ ns. ns ≡ filter (has_node set.now.nodes) nodes.now) }
{
    let mut found = List::new(alloc);
    for node in nodes {
        if set.has(*node) {
            found.push(*node)?;
        }
    }
    Ok(found)
}

/// The nodes of the left list that are not in the right one.
pub fn minus(
    alloc: Global,
    tables: &Tables,
    left: &[Node],
    right: &[Node],
) -> Result<List<Node>, NoMemory>
    ensures { IfOk result (λ ns. ns ≡ filter (λ n. not (has_node right.now n)) left.now) }
{
    let set = tables.set(alloc, right)?;
    outside(alloc, left, &set)
}

/// The nodes of the left list that are in the right one.
pub fn meet(
    alloc: Global,
    tables: &Tables,
    left: &[Node],
    right: &[Node],
) -> Result<List<Node>, NoMemory>
    ensures { IfOk result (λ ns. ns ≡ filter (has_node right.now) left.now) }
{
    let set = tables.set(alloc, right)?;
    inside(alloc, left, &set)
}

fn are_members(nodes: &[Node], set: &NodeSet) -> bool
    ensures { result ≡ list_all (has_node set.now.nodes) nodes.now }
{
    nodes.iter().all(|node| set.has(*node))
}

/// Whether each node of the left list is in the right one.
pub fn is_part(
    alloc: Global,
    tables: &Tables,
    left: &[Node],
    right: &[Node],
) -> Result<bool, NoMemory>
    ensures { IfOk result (λ b. b ≡ all_in same_node left.now right.now) }
{
    let set = tables.set(alloc, right)?;
    Ok(are_members(left, &set))
}
