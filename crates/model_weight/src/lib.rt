//! How heavy a model is, which of its integers need too many bits, and what is refused for it.
//!
//! One walk over each expression answers its kind, its interval, its weight and the first integer in it that is too wide.
#![tactic(auto)]

mod choices;
mod clafers;
mod comparisons;
mod expressions;
mod forms;
mod integers;
mod model;
mod numbers;
mod parts;
mod rooms;
#[cfg(test)]
mod tests;
mod weighing;

pub use expressions::bounds;
pub use weighing::weigh;
