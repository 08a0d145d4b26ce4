//! Whether bits show an instance, as wires of a circuit.
//!
//! Each rule is a wire that is exact at every list of bits. It takes the wires of a layout for the bits, and adds a number of wires that its
//! contract tells.
#![tactic(auto)]

mod amounts;
mod bounds;
mod children;
mod consistency;
mod counted;
mod demands;
mod equality;
mod joining;
mod kin;
mod laws;
mod limits;
mod nested;
mod placement;
mod ranges;
mod sets;
mod siblings;
mod taking;
mod targets;
mod telling;
mod twins;

pub use bounds::have_bounds;
pub use consistency::consistent;
pub use laws::layouts_that_fit_are_laid;
pub use placement::{have_parents, have_targets};
pub use sets::{have_sets, layouts_that_fit_are_ordered, sets_take_few_wires};
