//! Whether entries have the targets that their clafers ask for, and different ones where the references are sets.

ghost use Rattle.std.specs.Prelude.{◌≡◌, Some, None, IsTrue};
ghost use Rattle.std.specs.List.{list_all};
ghost use Rattle.clf_tree.specs.Hierarchy.{is_closed};
ghost use Rattle.clf_tree.specs.Lists.{each_two};
ghost use Rattle.clf_tree.specs.Nodes.{fits_range, has_node, nodes_of, same_node};
ghost use Rattle.clf_tree.specs.Shape.{differ, instances, is_set, meets_reference, refers, same_option, same_target};

use crate::hierarchy::is_a;
use clf_base::List;
use clf_tree::{Clafer, Entry, Node, Scopes, Target, reference_of};
use instance_tables::Tables;

fn fits_range(scopes: &Scopes, target: Target) -> bool
    ensures { result ≡ fits_range scopes.now target }
{
    match target {
        Target::Int(value) => scopes.low <= value && value <= scopes.high,
        Target::Node(_) => true,
    }
}

/// Whether a node is there and an instance of a clafer.
#[tactic(auto, using(crate::proofs::Owners::live_instance))]
fn is_instance(clafers: &List<Clafer>, tables: &Tables, clafer: u32, node: Node) -> bool
    requires closed { IsTrue (is_closed clafers.now) }
    ensures { result ≡ has_node (nodes_of (instances clafers.now tables.now.entries clafer)) node }
{
    is_a(clafers, node.clafer, clafer) && tables.is_live(node)
}

fn refers(
    clafers: &List<Clafer>,
    scopes: &Scopes,
    tables: &Tables,
    to: Option<u32>,
    target: Target,
) -> bool
    requires closed { IsTrue (is_closed clafers.now) }
    ensures { result ≡ refers clafers.now tables.now.entries scopes.now to target }
{
    match to {
        None => match target {
            Target::Int(_) => fits_range(scopes, target),
            Target::Node(_) => false,
        },
        Some(clafer) => match target {
            Target::Int(_) => false,
            Target::Node(node) => is_instance(clafers, tables, clafer, node),
        },
    }
}

/// Whether an entry has a target that its clafer's reference allows, or none where its clafer has no reference.
pub fn meets_reference(
    clafers: &List<Clafer>,
    scopes: &Scopes,
    tables: &Tables,
    entry: &Entry,
) -> bool
    requires closed { IsTrue (is_closed clafers.now) }
    ensures { result ≡ meets_reference clafers.now tables.now.entries scopes.now entry.now }
{
    match reference_of(clafers, entry.node.clafer) {
        None => entry.target.is_none(),
        Some(reference) => match entry.target {
            None => false,
            Some(target) => refers(clafers, scopes, tables, reference.to, target),
        },
    }
}

fn is_set(clafers: &List<Clafer>, entries: &[Entry], clafer: u32) -> bool
    ensures { result ≡ is_set clafers.now entries.now clafer }
{
    match reference_of(clafers, clafer) {
        Some(reference) => !reference.bag,
        None => false,
    }
}

fn have_one_parent(a: Option<Node>, b: Option<Node>) -> bool
    ensures { result ≡ same_option same_node a b }
{
    match a {
        None => b.is_none(),
        Some(m) => match b {
            None => false,
            Some(n) => m == n,
        },
    }
}

fn are_same(a: Target, b: Target) -> bool
    ensures { result ≡ same_target a b }
{
    match a {
        Target::Int(x) => match b {
            Target::Int(y) => x == y,
            Target::Node(_) => false,
        },
        Target::Node(m) => match b {
            Target::Int(_) => false,
            Target::Node(n) => m == n,
        },
    }
}

fn have_one_target(a: Option<Target>, b: Option<Target>) -> bool
    ensures { result ≡ same_option same_target a b }
{
    match a {
        None => b.is_none(),
        Some(m) => match b {
            None => false,
            Some(n) => are_same(m, n),
        },
    }
}

fn differ(clafers: &List<Clafer>, entries: &[Entry], a: &Entry, b: &Entry) -> bool
    ensures { result ≡ differ clafers.now entries.now a.now b.now }
{
    if a.node.clafer != b.node.clafer {
        return true;
    }
    if !have_one_parent(a.parent, b.parent) {
        return true;
    }
    if !is_set(clafers, entries, a.node.clafer) {
        return true;
    }
    !have_one_target(a.target, b.target)
}

/// Whether an entry differs from each of those behind it, as entries of a set do. It compares none where the entry's clafer has no
/// set reference.
#[tactic(auto, using(crate::proofs::Sets::no_set))]
fn differs_from(clafers: &List<Clafer>, entries: &[Entry], entry: &Entry, behind: &[Entry]) -> bool
    ensures { result ≡ list_all (differ clafers.now entries.now entry.now) behind.now }
{
    if !is_set(clafers, entries, entry.node.clafer) {
        return true;
    }
    behind
        .iter()
        .all(|other| differ(clafers, entries, entry, other))
}

/// Whether each two entries differ as entries of a set do.
pub fn are_different(clafers: &List<Clafer>, entries: &[Entry]) -> bool
    ensures { result ≡ each_two (differ clafers.now entries.now) entries.now }
{
    for at in 0..entries.len() {
        if !differs_from(clafers, entries, &entries[at], &entries[at + 1..]) {
            return false;
        }
    }
    true
}
