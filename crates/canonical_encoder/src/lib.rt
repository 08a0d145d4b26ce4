//! Whether bits show a canonical instance, as a wire of a circuit.
//!
//! Many instances that differ in the numbers of their nodes alone are one up to renaming. The canonical one of them has the numbers 0 to
//! n - 1 for the n nodes of each clafer, and nodes of one nested clafer stand in the order of their parents. `specs/Slots` says it of
//! neighbouring slots, which takes few wires; the law here says that this is the same at bits that show a tree of the right shape.
#![tactic(auto)]

mod laws;
mod parents;
mod slots;

pub use laws::{canonical_shapes_are_within_the_weight, canonical_slots_show_canonical_instances};
pub use slots::canonical;
