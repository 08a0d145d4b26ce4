//! Reports as JSON.
#![tactic(auto)]

mod lists;
mod objects;
mod order;
mod values;

pub use objects::json;
