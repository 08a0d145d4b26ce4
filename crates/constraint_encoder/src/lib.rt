//! Relational expressions as wires of a circuit.
//!
//! `truth`, `nodes` and `number` take an expression of each sort: a truth becomes one wire, a node form a set of slots with a wire for
//! each, a number its bits in two's complement. A `Bound` holds the slots of the nodes that the quantifiers around it bind.
//!
//! Each wire tells at every list of bits what the bits tell of its expression (`told_constraints`), so at bits that show a tree of the
//! right shape it means what the expression means in the instance that they show.
//!
//! A call adds at most as many wires as the expression weighs (`core_weight`), and goes down the expression once; only the body of a
//! quantifier is made for each tuple. What can fail is memory alone: on an error the circuit has only grown within that weight.
#![tactic(auto)]

mod bound;
mod expressions;
mod kept;
mod meanings;
mod operands;
mod weights;

pub use bound::Bound;
pub use meanings::{nodes, number, truth};
