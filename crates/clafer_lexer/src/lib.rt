//! The tokens of a text, and the marks that its layout stands for.
#![tactic(auto)]

mod exact;
mod gap;
mod layout;
mod lexer;
mod piece;
mod place;
#[cfg(test)]
mod tests;

pub use exact::{
    laid_tokens_stand_in_order, places_count_characters, text_has_one_answer, tokens_stand_in_order,
};
pub use layout::lay;
pub use lexer::lex;
