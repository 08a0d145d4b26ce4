//! Whether each expression of a model has a kind and each operand fits its position.
//!
//! One walk over each expression answers its kind and the first refusal in it together, so kinds are asked once for each part.
#![tactic(auto)]

mod checking;
mod expression;
mod part;
mod position;
#[cfg(test)]
mod tests;

pub use checking::check;
