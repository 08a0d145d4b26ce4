//! How clafers and nodes are named.

ghost use Rattle.std.specs.Prelude.{◌≡◌, ◌<◌, ◌^◌, ◌++◌, length, OnOk};
ghost use Rattle.clf_tree.specs.Hierarchy.{parent_of};
ghost use Rattle.instance_text.specs.Names as spec;

use clf_base::{List, NoMemory};
use clf_tree::{Clafer, Node, Target};
use itoa::Buffer;

fn name_of(clafers: &[Clafer], clafer: usize) -> &[u8]
    ensures { result.now ≡ spec.name_of clafers.now clafer }
{
    match clafers.get(clafer) {
        Some(found) => found.title.name.as_slice(),
        None => &[],
    }
}

/// Whether another clafer has the same name. It goes over the clafers.
#[tactic(auto, using(crate::proofs::Namesakes::namesake_steps))]
fn has_namesake(clafers: &[Clafer], clafer: usize) -> bool
    ensures { result ≡ spec.has_namesake clafers.now clafer }
{
    for other in 0..clafers.len() {
        if other != clafer && name_of(clafers, other) == name_of(clafers, clafer) {
            return true;
        }
    }
    false
}

fn parent_of(clafers: &[Clafer], clafer: usize) -> Option<u32>
    ensures { result ≡ parent_of clafers.now clafer }
{
    match clafers.get(clafer) {
        Some(found) => found.parent,
        None => None,
    }
}

/// Writes the names from a top-level clafer down to this one, joined by `.`, where it is fewer than so many steps down.
#[tactic(auto, using(crate::proofs::Paths::path_steps))]
pub fn push_path(
    text: &mut List<u8>,
    clafers: &[Clafer],
    steps: usize,
    clafer: usize,
) -> Result<(), NoMemory>
    ensures { OnOk result (text.new ≡ text.old ++ spec.path_within clafers.now steps clafer) }
{
    if steps == 0 {
        return Ok(());
    }
    match parent_of(clafers, clafer) {
        None => {
            text.extend(name_of(clafers, clafer))?;
            Ok(())
        }
        Some(parent) => {
            push_path(text, clafers, steps - 1, parent as usize)?;
            text.push(b'.')?;
            text.extend(name_of(clafers, clafer))?;
            Ok(())
        }
    }
}

pub(crate) fn push_clafer(
    text: &mut List<u8>,
    clafers: &[Clafer],
    clafer: usize,
) -> Result<(), NoMemory>
    ensures { OnOk result (text.new ≡ text.old ++ spec.shown_clafer clafers.now clafer) }
{
    if has_namesake(clafers, clafer) {
        push_path(text, clafers, clafers.len(), clafer)
    } else {
        text.extend(name_of(clafers, clafer))
    }
}

/// Writes a node: its clafer, `$` and its number.
pub fn push_node(text: &mut List<u8>, clafers: &[Clafer], node: Node) -> Result<(), NoMemory>
    ensures { OnOk result (text.new ≡ text.old ++ spec.shown_node clafers.now node) }
{
    let mut buffer = Buffer::new();
    push_clafer(text, clafers, node.clafer as usize)?;
    text.extend(b"$")?;
    text.extend(buffer.format(node.number).as_bytes())?;
    Ok(())
}

/// Writes what a node refers to.
pub(crate) fn push_target(
    text: &mut List<u8>,
    clafers: &[Clafer],
    target: Option<Target>,
) -> Result<(), NoMemory>
    ensures { OnOk result (text.new ≡ text.old ++ spec.shown_target clafers.now target) }
{
    match target {
        None => Ok(()),
        Some(Target::Int(value)) => {
            let mut buffer = Buffer::new();
            text.extend(b" = ")?;
            text.extend(buffer.format(value).as_bytes())?;
            Ok(())
        }
        Some(Target::Node(node)) => {
            text.extend(b" -> ")?;
            push_node(text, clafers, node)
        }
    }
}
