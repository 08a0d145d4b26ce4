//! Which clafers the references of a model refer to.
//!
//! The name of a target is looked up from the clafer that the reference's clafer is declared under, and so outwards.
#![tactic(auto)]

mod finding;
mod one_target;

pub use finding::find_targets;
pub use one_target::{Target, find_target};
