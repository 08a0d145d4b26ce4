//! Whether an instance is within the scopes.

ghost use Rattle.std.specs.Prelude.{◌≡◌, ◌&&◌, nat_lt};
ghost use Rattle.std.specs.List.{list_all};
ghost use Rattle.clf_tree.specs.Hierarchy.{is_concrete};
ghost use Rattle.clf_tree.specs.Nodes.{is_within, named_by, scope_of};

use crate::hierarchy::is_concrete;
use clf_base::List;
use clf_tree::{Clafer, Entry, Instance, Node, Scopes, Target};

fn is_inside(clafers: &List<Clafer>, scopes: &Scopes, node: Node) -> bool
    ensures { result ≡ (is_concrete clafers.now node.clafer && nat_lt node.number (scope_of scopes.now node.clafer)) }
{
    let scope = match scopes.of.as_slice().get(node.clafer as usize) {
        Some(scope) => *scope,
        None => 0,
    };
    is_concrete(clafers, node.clafer) && node.number < scope
}

fn names_inside(clafers: &List<Clafer>, scopes: &Scopes, entry: &Entry) -> bool
    ensures { result ≡ list_all (λ n. is_concrete clafers.now n.clafer && nat_lt n.number (scope_of scopes.now n.clafer)) (named_by entry.now) }
{
    let parent_inside = match entry.parent {
        Some(parent) => is_inside(clafers, scopes, parent),
        None => true,
    };
    let target_inside = match entry.target {
        Some(Target::Node(target)) => is_inside(clafers, scopes, target),
        _ => true,
    };
    is_inside(clafers, scopes, entry.node) && parent_inside && target_inside
}

/// Whether each node that an instance names is of a concrete clafer, with a number below the clafer's scope. It reads each entry
/// once.
pub fn is_within(clafers: &List<Clafer>, scopes: &Scopes, instance: &Instance) -> bool
    ensures { result ≡ is_within clafers.now scopes.now instance.now.entries }
{
    instance
        .entries
        .as_slice()
        .iter()
        .all(|entry| names_inside(clafers, scopes, entry))
}
