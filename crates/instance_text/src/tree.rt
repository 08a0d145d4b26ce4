//! The text of an instance.

ghost use Rattle.std.specs.Prelude.{◌≡◌, ◌≤◌, ◌+◌, ◌++◌, length, OnOk, IfOk};
ghost use Rattle.std.specs.Option.{option_map_or};
ghost use Rattle.clf_tree.specs.Shape.{is_child_of};
ghost use Rattle.instance_text.specs.Show as spec;

use crate::names::{push_node, push_target};
use clf_base::{List, NoMemory};
use clf_tree::{Clafer, Entry, Instance, Model};
use std::alloc::Global;

fn push_indent(text: &mut List<u8>, depth: usize) -> Result<(), NoMemory>
    ensures { OnOk result (text.new ≡ text.old ++ spec.indent depth) }
{
    for _level in 0..depth {
        text.extend(b"  ")?;
    }
    Ok(())
}

fn push_line(
    text: &mut List<u8>,
    clafers: &[Clafer],
    depth: usize,
    entry: &Entry,
) -> Result<(), NoMemory>
    ensures { OnOk result (text.new ≡ text.old ++ spec.line clafers.now depth entry.now) }
{
    push_indent(text, depth)?;
    push_node(text, clafers, entry.node)?;
    push_target(text, clafers, entry.target)?;
    text.extend(b"\n")?;
    Ok(())
}

fn is_child_of(entry: &Entry, child: &Entry) -> bool
    ensures { result ≡ is_child_of entry.now child.now }
{
    match child.parent {
        Some(parent) => entry.node == parent,
        None => false,
    }
}

/// Writes an entry's line, then what stands below it, down to so many levels.
#[tactic(auto, using(crate::proofs::Kept::kept_steps))]
fn push_subtree(
    text: &mut List<u8>,
    clafers: &[Clafer],
    entries: &[Entry],
    levels: usize,
    depth: usize,
    entry: &Entry,
) -> Result<(), NoMemory>
    requires { depth + levels ≤ length entries.now }
    ensures { OnOk result (text.new ≡ text.old ++ spec.subtree clafers.now entries.now levels depth entry.now) }
{
    if levels == 0 {
        return Ok(());
    }
    push_line(text, clafers, depth, entry)?;
    for child in entries {
        if is_child_of(entry, child) {
            push_subtree(text, clafers, entries, levels - 1, depth + 1, child)?;
        }
    }
    Ok(())
}

/// The text of an instance: each node's line, then its children two blanks deeper, in the order of the model.
///
/// It goes over the entries once for each node.
#[tactic(auto, using(crate::proofs::Kept::kept_steps))]
pub fn show(alloc: Global, model: &Model, instance: &Instance) -> Result<List<u8>, NoMemory>
    ensures { IfOk result (λ text. text ≡ spec.show model.now instance.now.entries) }
{
    let clafers = model.clafers.as_slice();
    let entries = instance.entries.as_slice();
    let mut text = List::new(alloc);
    for entry in entries {
        if entry.parent.is_none() {
            push_subtree(&mut text, clafers, entries, entries.len(), 0, entry)?;
        }
    }
    Ok(text)
}
