//! The reader: from the bytes of a text and given scopes to a model with its scopes and its weight, or to the first refusal.
//!
//! `read_model` takes a text through the stages in their order; the first of them that refuses ends the reading.
#![tactic(auto)]

mod laws;
mod reader;
mod stages;
mod texts;

pub use laws::texts_have_one_answer;
pub use reader::Read;
pub use stages::read_model;

/// The most bytes that a text may have.
pub const LIMIT: usize = 1_048_576;

#[cfg(test)]
mod tests;
