//! The plain model of a text: its clafers, rules and goals in the order of the text, with every default filled in and the names
//! as they are written.
//!
//! [`plain`] gives it, or the first refusal: a low bound above its high one (50), a name that repeats beside its like (51), an
//! abstract clafer below a clafer (52), an enum or a goal below a clafer (53).
#![tactic(auto)]

mod clafers;
mod expressions;
mod items;
mod stage;
#[cfg(test)]
mod tests;
mod walk;

pub use stage::plain;
