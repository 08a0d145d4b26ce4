//! A plain model with its names looked up: supers, targets, and the names in its rules and goals.
#![tactic(auto)]

mod law;
mod resolving;

pub use law::leaves_nothing;
pub use resolving::resolve;
