//! The reader of laid tokens: its state, and the step at a token, which is that of the grammar's machine.
#![tactic(auto)]

mod clafers;
mod enums;
mod expressions;
mod frames;
mod items;
mod reader;
mod reduction;
mod trees;
mod words;

pub use frames::{Frames, State};
pub use reader::{start, step};
