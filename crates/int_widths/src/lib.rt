//! Intervals of integers, the bits that they need, and how many nodes a kind can have.
#![tactic(auto)]

mod intervals;
mod rooms;
#[cfg(test)]
mod tests;
mod widths;

pub use intervals::{added, exactly, negated, product, subtracted, sum_between, up_to, whole};
pub use rooms::room;
pub use widths::width;
