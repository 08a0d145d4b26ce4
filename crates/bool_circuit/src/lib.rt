//! Boolean circuits as lists of shared gates.
//!
//! A circuit only grows. Each call that makes a gate first looks whether an older wire or a constant has the value that is asked for,
//! and then whether the gate is there already, so a circuit holds few gates beyond those that its values need.
//! Callers never look at gates: they rest on the value of the new wire, and on `Extends`, which says what the call leaves as it was.
#![tactic(auto)]

mod circuit;
mod gate;
mod operations;

pub use circuit::{Circuit, MOST_WIRES};
pub use gate::{Gate, Wire};

#[cfg(test)]
mod tests;
