//! Arithmetic on numbers of wires.
//!
//! A number is a list of wires in two's complement, the lowest bit first. Each call answers as many wires as its caller asks for, and at all
//! input bits it is the exact result cut to them: the integer that the lowest bits of the result spell, which is the exact result wherever
//! that fits. `less` and `equal` are exact at all bits.
//!
//! Circuits are small because the gates fold, and because each call works on as few wires as hold its operands: wires at the end of a number
//! that are all the same only repeat the sign, so they are left out at the start and repeated again at the end.
#![tactic(auto)]

mod choices;
mod comparison;
mod constants;
mod laws;
mod negation;
mod products;
mod sums;
mod totals;
mod widths;

pub use choices::choose;
pub use comparison::{equal, less};
pub use constants::constant;
pub use laws::what_fits_is_kept;
pub use negation::negate;
pub use products::multiply;
pub use sums::add;
pub use totals::{Part, count, sum_if};

#[cfg(test)]
mod tests;
