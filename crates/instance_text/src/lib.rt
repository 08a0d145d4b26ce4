//! Instances as texts.
//!
//! A node prints as its clafer, `$` and its number, then ` = ` and the integer or ` -> ` and the node that it refers to. A tree
//! lists a node, then its children two blanks deeper, all in the order of the model.
#![tactic(auto)]

mod entries;
mod lines;
mod names;
mod numbers;
mod reading;
#[cfg(test)]
mod reading_tests;
#[cfg(test)]
mod tests;
mod tree;

pub use names::{push_node, push_path};
pub use reading::read;
pub use tree::show;
