//! Whether the entries of an instance make trees.

ghost use Rattle.std.specs.Prelude.{◌≡◌, ◌&&◌, length, IsTrue};
ghost use Rattle.std.specs.List.{filter, list_all};
ghost use Rattle.clf_tree.specs.Lists.{has};
ghost use Rattle.clf_tree.specs.Hierarchy.{concrete_below, is_closed, is_concrete};
ghost use Rattle.clf_tree.specs.Nodes.{ends_within, has_its_parent, has_node, is_tree, named_by, nodes_of};

use crate::hierarchy::{is_a, is_concrete, parent_of};
use clf_base::List;
use clf_tree::{Clafer, Entry, Node, Target};
use instance_tables::Tables;

fn names_concrete(clafers: &List<Clafer>, entry: &Entry) -> bool
    ensures { result ≡ list_all (λ n. is_concrete clafers.now n.clafer) (named_by entry.now) }
{
    let parent_concrete = match entry.parent {
        Some(parent) => is_concrete(clafers, parent.clafer),
        None => true,
    };
    let target_concrete = match entry.target {
        Some(Target::Node(target)) => is_concrete(clafers, target.clafer),
        _ => true,
    };
    is_concrete(clafers, entry.node.clafer) && parent_concrete && target_concrete
}

/// Whether a node is there that can hold what is declared under a clafer.
#[tactic(auto, using(crate::proofs::Owners::live_owner))]
fn is_owner(clafers: &List<Clafer>, tables: &Tables, declaring: u32, above: Node) -> bool
    requires closed { IsTrue (is_closed clafers.now) }
    ensures { result ≡ has_node (filter (λ m. has (concrete_below clafers.now declaring) m.clafer) (nodes_of tables.now.entries)) above }
{
    if !is_concrete(clafers, above.clafer) {
        return false;
    }
    if !is_a(clafers, above.clafer, declaring) {
        return false;
    }
    tables.is_live(above)
}

fn has_its_parent(clafers: &List<Clafer>, tables: &Tables, entry: &Entry) -> bool
    requires closed { IsTrue (is_closed clafers.now) }
    ensures { result ≡ has_its_parent clafers.now tables.now.entries entry.now }
{
    match parent_of(clafers, entry.node.clafer) {
        None => entry.parent.is_none(),
        Some(declaring) => match entry.parent {
            None => false,
            Some(above) => is_owner(clafers, tables, declaring, above),
        },
    }
}

fn ends(tables: &Tables, from: Option<Node>) -> bool
    ensures { result ≡ ends_within (length tables.now.entries) tables.now.entries from }
{
    let mut current = from;
    for _step in 0..tables.entries.len() {
        match current {
            Some(node) => current = tables.parent_of(node),
            None => return true,
        }
    }
    current.is_none()
}

fn is_placed(clafers: &List<Clafer>, tables: &Tables, entry: &Entry) -> bool
    requires closed { IsTrue (is_closed clafers.now) }
    ensures { result ≡ (list_all (λ n. is_concrete clafers.now n.clafer) (named_by entry.now) && has_its_parent clafers.now tables.now.entries entry.now && ends_within (length tables.now.entries) tables.now.entries entry.now.parent) }
{
    names_concrete(clafers, entry)
        && has_its_parent(clafers, tables, entry)
        && ends(tables, entry.parent)
}

/// Whether the entries make trees: each node of a nested clafer has a parent that can hold it, each other node has none, and from
/// each node the way up ends.
///
/// It follows the parents of each entry, for at most as many steps as there are entries.
pub fn is_tree(clafers: &List<Clafer>, tables: &Tables) -> bool
    requires closed { IsTrue (is_closed clafers.now) }
    ensures { result ≡ is_tree clafers.now tables.now.entries }
{
    tables
        .entries
        .as_slice()
        .iter()
        .all(|entry| is_placed(clafers, tables, entry))
}
