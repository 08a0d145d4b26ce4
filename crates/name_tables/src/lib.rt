//! What names mean in a model, by a table that is made once.
//!
//! [`NameTable::build`] finds, for each name of a model, from where and by how many steps its clafers are reached. [`meaning`] reads
//! it: it goes up from the context, and over no other clafer.
#![tactic(auto)]

mod children;
mod heirs;
mod label;
mod outwards;
mod reach;
mod search;
mod table;
#[cfg(test)]
mod tests;
mod ways_down;

pub use children::children_named;
pub use label::{Label, Nearby};
pub use outwards::meaning;
pub use table::NameTable;
