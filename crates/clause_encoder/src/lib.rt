//! The clauses of a circuit.
//!
//! Variable i is wire i. The clauses of a gate say that its wire has the value of its operation: two for a negation, three for an `and` or an
//! `or`, four for an `xor` or a choice, one for a constant, none for an input. Every clause has at most three literals, which the store keeps
//! in place, so a gate takes no allocation of its own.
#![tactic(auto)]

mod encode;

pub use encode::clauses;

#[cfg(test)]
mod tests;
