//! Sets of slots on wires, counts, and the layout of an instance's bits.
//!
//! A set is a list of members with ascending slots; a slot is in it where its member's wire is true. Each call is exact at all input bits.
//! `specs/Fitting` says when a layout fits a model and its scopes, and `specs/Showing` when bits show an instance.
#![tactic(auto)]

mod counts;
mod images;
mod laws;
mod layout;
mod sets;

pub use counts::{at_least, at_most};
pub use images::{edges_from_members_are_few, image};
pub use laws::{grown_circuits_keep_sets, held_integers_fit};
pub use layout::{Edge, Layout, SlotBits};
pub use sets::{Member, choose_sets, differ, meet, minus, union};

#[cfg(test)]
mod tests;
