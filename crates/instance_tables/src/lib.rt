//! Look-up in an instance: the entry and the children of a node, by the node's slot.
//!
//! The nodes within the scopes have slots, which number them in the order of the model. A table is an array by slot, so that a
//! look-up costs a few reads whatever the size of the instance.
#![tactic(auto)]

mod node_set;
mod places;
mod renaming;
#[cfg(test)]
mod renaming_tests;
mod slots;
mod tables;
#[cfg(test)]
mod tests;

pub use node_set::NodeSet;
pub use renaming::rename;
pub use tables::Tables;
