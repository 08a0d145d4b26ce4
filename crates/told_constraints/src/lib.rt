//! What the bits of a layout tell of a relational expression.
//!
//! `specs/Told` reads a relational expression off a list of bits: a set is a test of slots, a number an integer, a truth a Bool. It asks
//! nothing of the bits, and knows no circuit. The laws here say that a sound expression is formed as `specs/Formed` asks, and that bits
//! which show a tree of the right shape tell what the expression means in it.
#![tactic(auto)]

mod laws;

pub use laws::{bits_tell_the_meaning, sound_expressions_are_formed};
