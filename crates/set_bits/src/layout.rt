//! Which wire says what of an instance.

use bool_circuit::Wire;
use clf_base::List;
use clf_tree::Node;

/// A wire that ties one slot to another: to the slot of its parent, or to that of its target.
#[derive(Clone, Copy, PartialEq, Eq, Debug)]
pub struct Edge {
    pub from: u32,
    pub to: u32,
    pub here: Wire,
}

/// The wires of the integer to which the node of a slot refers, in two's complement, the lowest first.
#[derive(Debug, Drop)]
pub struct SlotBits {
    pub slot: u32,
    pub bits: List<Wire>,
}

/// The wires that say which nodes an instance has, and what their parents and targets are. A slot is a place in the list of nodes.
#[derive(Debug, Drop)]
pub struct Layout {
    /// All nodes within the scopes, in order.
    pub slots: List<Node>,
    /// Whether the node of a slot is there: a wire for each slot.
    pub live: List<Wire>,
    /// From each slot of a nested clafer to the slots that may be its parent.
    pub parents: List<Edge>,
    /// From each slot of a clafer that refers to a clafer to the slots that may be its target.
    pub targets: List<Edge>,
    /// The integers of the slots whose clafers refer to integers.
    pub values: List<SlotBits>,
}
