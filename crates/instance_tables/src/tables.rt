//! The tables of an instance.

ghost use Rattle.std.specs.Prelude.{◌≡◌, ◌≤◌, sum, vec_len, IfOk, IsTrue};
ghost use Rattle.std.specs.Option.{option_and_then};
ghost use Rattle.clf_tree.specs.Nodes.{is_within, is_ordered, entry_of, parent_in, has_node, nodes_of};
ghost use Rattle.instance_tables.specs.Children.{children_of};
ghost use Rattle.instance_tables.specs.Tables.{HoldsEntries, HoldsChildren, NoneOutside};

use crate::node_set::NodeSet;
use crate::places::{child_places, entry_places};
use crate::slots::Slots;
use clf_base::{List, NoMemory};
use clf_tree::{Entry, Instance, Model, Node, Scopes, Target};
use std::alloc::Global;

/// The entries of an instance, and where to find them.
///
/// Contracts speak of `entries`. Each look-up takes any node: one that is outside the scopes has no entry and no children.
#[derive(Drop)]
pub struct Tables {
    pub entries: List<Entry>,
    slots: Slots,
    places: Vec<Option<Entry>>,
    below: Vec<List<Node>>,
    pub ghost ordered: { IsTrue (is_ordered entries) },
    ghost sized: { vec_len places ≡ slots.count },
    ghost below_sized: { vec_len below ≡ slots.count },
    ghost entries_held: { HoldsEntries slots.scopes entries places.items },
    ghost children_held: { HoldsChildren slots.scopes entries below.items },
    ghost none_outside: { NoneOutside slots.scopes entries },
}

impl Tables {
    /// The tables of an instance whose nodes are within the scopes, made in time linear in the instance and the scopes.
    pub fn build(
        alloc: Global,
        model: &Model,
        scopes: &Scopes,
        instance: &Instance,
    ) -> Result<Tables, NoMemory>
        requires few { sum scopes.now.of ≤ 2048 }
        requires within { IsTrue (is_within model.now.clafers scopes.now instance.now.entries) }
        ensures { IfOk result (λ tables. tables.entries ≡ instance.now.entries) }
    {
        let slots = Slots::new(alloc, &scopes.of)?;
        let places = entry_places(alloc, &slots, &instance.entries)?;
        let below = child_places(alloc, &slots, &instance.entries)?;
        Ok(Tables {
            entries: instance.entries.copy(alloc)?,
            slots,
            places,
            below,
        })
    }

    /// The entry of a node.
    pub fn entry_of(&self, node: Node) -> Option<Entry>
        ensures { result ≡ entry_of self.now.entries node }
    {
        match self.slots.of(node) {
            Some(slot) => self.places[slot],
            None => None,
        }
    }

    /// Whether the node has an entry.
    #[tactic(auto, using(crate::proofs::Placing::entry_there))]
    pub fn is_live(&self, node: Node) -> bool
        ensures { result ≡ has_node (nodes_of self.now.entries) node }
    {
        self.entry_of(node).is_some()
    }

    /// The parent of a node, if it has an entry and a parent.
    pub fn parent_of(&self, node: Node) -> Option<Node>
        ensures { result ≡ parent_in self.now.entries node }
    {
        match self.entry_of(node) {
            Some(entry) => entry.parent,
            None => None,
        }
    }

    /// The target of a node, if it has an entry and a target.
    pub fn target_of(&self, node: Node) -> Option<Target>
        ensures { result ≡ option_and_then (λ e. e.target) (entry_of self.now.entries node) }
    {
        match self.entry_of(node) {
            Some(entry) => entry.target,
            None => None,
        }
    }

    /// The nodes whose parent is the given one, in order, without a copy.
    pub fn below(&self, node: Node) -> &[Node]
        ensures { result.now ≡ children_of self.now.entries node }
    {
        match self.slots.of(node) {
            Some(slot) => self.below[slot].as_slice(),
            None => &[],
        }
    }

    /// The nodes whose parent is the given one, in order.
    pub fn children(&self, alloc: Global, node: Node) -> Result<List<Node>, NoMemory>
        ensures { IfOk result (λ nodes. nodes ≡ children_of self.now.entries node) }
    {
        List::from_slice(alloc, self.below(node))
    }

    /// The set of the listed nodes.
    pub fn set(&self, alloc: Global, nodes: &[Node]) -> Result<NodeSet<'_>, NoMemory>
        ensures { IfOk result (λ set. set.nodes ≡ nodes.now) }
    {
        NodeSet::new(alloc, &self.slots, nodes)
    }
}
