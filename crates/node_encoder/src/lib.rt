//! Node forms of relational expressions, and tests of sets of nodes, as wires.
//!
//! Each call takes finished sets and is exact at every list of bits. It adds a number of wires that its contract tells.
#![tactic(auto)]

mod amounts;
mod comparing;
mod gathering;
mod ground;
mod laws;
mod leaves;
mod listing;
mod pairs;
mod steps;
mod tables;

pub use amounts::{at_least, at_most, exactly};
pub use comparing::{same_nodes, within_nodes};
pub use ground::Ground;
pub use laws::{listed_sets_are_few, listed_slots_are_there};
pub use leaves::{bound_node, every};
pub use pairs::{choose_nodes, meet, minus, union};
pub use steps::{down, follow, up};
