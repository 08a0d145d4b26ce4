//! Sets of nodes.

ghost use Rattle.std.specs.Prelude.{◌≡◌, ◌++◌, [], ◌∷◌, List as Seq, vec_len, IfOk};
ghost use Rattle.clf_tree.specs.declared.instance.Node.{Node};
ghost use Rattle.clf_tree.specs.Nodes.{has_node};
ghost use Rattle.instance_tables.specs.Tables.{HoldsMembers};

use crate::slots::Slots;
use clf_base::{List, NoMemory};
use clf_tree::Node;
use std::alloc::Global;

/// A set of nodes, in which a node within the scopes is looked up in a few reads.
#[derive(Drop)]
pub struct NodeSet<'a> {
    pub nodes: List<Node>,
    slots: &'a Slots,
    marks: Vec<bool>,
    ghost sized: { vec_len marks ≡ slots.now.count },
    ghost held: { HoldsMembers slots.now.scopes nodes marks.items },
}

#[tactic(auto, using(crate::proofs::Placing::mark_steps))]
fn mark(slots: &Slots, marks: &mut Vec<bool>, node: Node)
    requires { vec_len marks.old ≡ slots.now.count }
    ensures len { vec_len marks.new ≡ slots.now.count }
    ensures marked { (nodes : Seq Node) → HoldsMembers slots.now.scopes nodes marks.old.items → HoldsMembers slots.now.scopes (nodes ++ node ∷ []) marks.new.items }
{
    if let Some(slot) = slots.of(node) {
        marks[slot] = true;
    }
}

fn marks(alloc: Global, slots: &Slots, nodes: &[Node]) -> Result<Vec<bool>, NoMemory>
    ensures { IfOk result (λ marks. (vec_len marks ≡ slots.now.count) × HoldsMembers slots.now.scopes nodes.now marks.items) }
{
    let mut marks = vec![in alloc; false; slots.count as usize]?;
    for node in nodes {
        mark(slots, &mut marks, *node);
    }
    Ok(marks)
}

impl NodeSet<'_> {
    /// The set of the listed nodes.
    pub(crate) fn new<'a>(
        alloc: Global,
        slots: &'a Slots,
        nodes: &[Node],
    ) -> Result<NodeSet<'a>, NoMemory>
        ensures { IfOk result (λ set. set.nodes ≡ nodes.now) }
    {
        let marks = marks(alloc, slots, nodes)?;
        Ok(NodeSet {
            nodes: List::from_slice(alloc, nodes)?,
            slots,
            marks,
        })
    }

    /// Whether a node is in the set.
    pub fn has(&self, node: Node) -> bool
        ensures { result ≡ has_node self.now.nodes node }
    {
        match self.slots.of(node) {
            Some(slot) => self.marks[slot],
            None => self.nodes.as_slice().iter().any(|member| node == *member),
        }
    }
}
