//! The entries of an instance in the order of its trees.

ghost use Rattle.std.specs.Prelude.{◌≡◌, ◌++◌, IfOk, OnOk};
ghost use Rattle.clf_tree.specs.Shape.{is_child_of};
ghost use Rattle.report_json.specs.TreeOrder as spec;

use clf_base::{List, NoMemory};
use clf_tree::Entry;
use std::alloc::Global;

fn is_child_of(entry: &Entry, child: &Entry) -> bool
    ensures { result ≡ is_child_of entry.now child.now }
{
    match child.parent {
        Some(parent) => entry.node == parent,
        None => false,
    }
}

/// An entry, then what stands below it, down to so many levels.
#[tactic(auto, using(instance_text::proofs::Kept::kept_steps))]
fn push_subtree(
    order: &mut List<Entry>,
    entries: &[Entry],
    levels: usize,
    entry: &Entry,
) -> Result<(), NoMemory>
    ensures { OnOk result (order.new ≡ order.old ++ spec.subtree entries.now levels entry.now) }
{
    if levels == 0 {
        return Ok(());
    }
    order.push(*entry)?;
    for child in entries {
        if is_child_of(entry, child) {
            push_subtree(order, entries, levels - 1, child)?;
        }
    }
    Ok(())
}

/// The entries in the order of their trees: each node, then what stands below it.
///
/// It goes over the entries once for each node.
#[tactic(auto, using(instance_text::proofs::Kept::kept_steps))]
pub(crate) fn in_tree_order(alloc: Global, entries: &[Entry]) -> Result<List<Entry>, NoMemory>
    ensures { IfOk result (λ order. order ≡ spec.in_tree_order entries.now) }
{
    let mut order = List::new(alloc);
    for entry in entries {
        if entry.parent.is_none() {
            push_subtree(&mut order, entries, entries.len(), entry)?;
        }
    }
    Ok(order)
}
