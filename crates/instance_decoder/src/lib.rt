//! Instances from bits.
//!
//! `decode` gives the one instance that the bits of a layout show, and `pack` the bits that show an instance.
#![tactic(auto)]

mod integers;
mod numbers;
mod packing;
mod tables;
mod unpack;

pub use packing::pack;
pub use unpack::decode;

#[cfg(test)]
mod tests;
