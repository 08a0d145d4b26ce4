//! The words of the command line: what they ask for, and what they give for the model.
#![tactic(auto)]

mod asked;
mod numbers;
mod reading;
mod settings;
#[cfg(test)]
mod tests;
mod wanted;

pub use reading::{Request, words_of};
pub use wanted::Wanted;
