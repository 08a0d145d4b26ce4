//! What a clafer inherits from: the names of supers as numbers.
//!
//! [`link_supers`] gives the clafers of a plain model with their supers looked up, or the first refusal: a super that isn't an
//! abstract clafer at top level (60), a clafer that is above itself (61).
#![tactic(auto)]

mod cycles;
mod linking;
mod ranking;
mod stage;
mod table;
#[cfg(test)]
mod tests;

pub use cycles::{comes_first, refused_if};
pub use stage::link_supers;
