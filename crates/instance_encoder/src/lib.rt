//! The bits of an instance as inputs of a circuit.
//!
//! `layout` makes an input for each fact that an instance within the scopes can have: which nodes are there, what their parents and
//! targets are, and to which integers they refer. `shape` makes the wire that is true where they show an instance of the right shape.
//! Both stay within the weight of the model, which is a law.
#![tactic(auto)]

mod edges;
mod inputs;
mod integers;
mod laws;
mod layouts;
mod near;
mod nodes;
mod shapes;

pub use laws::shapes_are_within_the_weight;
pub use layouts::layout;
pub use shapes::shape;

#[cfg(test)]
mod tests;
