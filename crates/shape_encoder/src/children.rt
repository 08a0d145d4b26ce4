//! By slot, which nodes may be the children of its node.

ghost use Rattle.std.specs.Prelude.{◌≡◌, ◌++◌, ◌<◌, [], ◌∷◌, length, vec_len, replicate, IfOk, OnOk, All, List as Items};
ghost use Rattle.set_bits.specs.declared.layout.Edge.{Edge};
ghost use Rattle.shape_encoder.specs.Counting.{is_marked, counted_wires, AreChildren};

use crate::counted::is_marked;
use bool_circuit::Wire;
use clf_base::{List, NoMemory};
use clf_tree::Node;
use set_bits::{Edge, Layout};
use std::alloc::Global;

/// A node that may be the child of another one: its clafer, and the wire that is true where it is.
#[derive(Clone, Copy)]
pub(crate) struct Child {
    pub(crate) clafer: u32,
    pub(crate) here: Wire,
}

/// The possible children of the node of each slot.
#[derive(Drop)]
pub(crate) struct Children {
    pub(crate) by_slot: Vec<List<Child>>,
}

fn empty_lists(alloc: Global, count: usize) -> Result<Vec<List<Child>>, NoMemory>
    ensures { IfOk result (λ lists. lists.items ≡ replicate count []) }
{
    let mut lists = Vec::new(alloc);
    for _made in 0..count {
        lists.push(List::new(alloc))?;
    }
    Ok(lists)
}

// Adds the node from which an edge leads to the children of the slot to which it leads.
fn add_child(slots: &List<Node>, by_slot: &mut Vec<List<Child>>, edge: Edge) -> Result<(), NoMemory>
    requires from_in { edge.from < length slots.now }
    requires to_in { edge.to < length slots.now }
    requires len { vec_len by_slot.old ≡ length slots.now }
    ensures len { vec_len by_slot.new ≡ length slots.now }
    ensures added { OnOk result ((edges : Items Edge) → AreChildren slots.now edges by_slot.old.items → AreChildren slots.now (edges ++ edge ∷ []) by_slot.new.items) }
{
    let child = Child {
        clafer: slots.get(edge.from as usize).clafer,
        here: edge.here,
    };
    by_slot[edge.to as usize].push(child)?;
    Ok(())
}

/// What may be the children of the node of each slot, in one pass over the edges to parents.
pub(crate) fn children_of(alloc: Global, layout: &Layout) -> Result<Children, NoMemory>
    requires children { All (λ e. e.from < length layout.now.slots) layout.now.parents }
    requires owners { All (λ e. e.to < length layout.now.slots) layout.now.parents }
    ensures { IfOk result (λ r. AreChildren layout.now.slots layout.now.parents r.by_slot.items) }
{
    let mut by_slot = empty_lists(alloc, layout.slots.len())?;
    for at in 0..layout.parents.len() {
        let edge = *layout.parents.get(at);
        add_child(&layout.slots, &mut by_slot, edge)?;
    }
    Ok(Children { by_slot })
}

/// The wires of the children whose clafers are marked.
pub(crate) fn counted_wires(
    alloc: Global,
    children: &List<Child>,
    marks: &Vec<bool>,
) -> Result<List<Wire>, NoMemory>
    ensures { IfOk result (λ wires. wires ≡ counted_wires (is_marked marks.now.items) children.now) }
{
    let mut wires = List::new(alloc);
    for at in 0..children.len() {
        let child = *children.get(at);
        if is_marked(marks, child.clafer) {
            wires.push(child.here)?;
        }
    }
    Ok(wires)
}
