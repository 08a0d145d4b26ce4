//! Constraints and goals as relational expressions, which know no kinds, no inheritance and no implied reading.
//!
//! `lower` gives for each constraint one truth and for each goal one number, with the same meaning in each instance. Each set of
//! nodes has the clafers that its parts leave possible, each number the least width that its interval needs.
#![tactic(auto)]

mod choices;
mod clafer_lists;
mod expressions;
mod lowering;
mod node_forms;
mod number_forms;
mod places;
mod set_sides;
mod sides;
#[cfg(test)]
mod tests;
mod truth_forms;
mod whole_model;

pub use whole_model::lower;
