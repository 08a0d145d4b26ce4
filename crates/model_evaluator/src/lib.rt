//! Whether an instance satisfies a model, and the vector of its goals, computed on the model as it is declared.
#![tactic(auto)]

mod arithmetic;
mod asked;
mod binding;
mod comparisons;
mod evaluation;
mod evaluator;
mod forms;
mod kinds_at;
mod node_sets;
#[cfg(test)]
mod tests;
mod value;

pub use evaluator::{holds, vector};
