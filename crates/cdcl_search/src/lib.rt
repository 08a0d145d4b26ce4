//! A search for a satisfying assignment that learns a clause at each conflict, and logs how it is derived.
#![tactic(auto)]

mod analysis;
mod arena;
mod decision;
mod engine;
mod hints;
mod learning;
mod lists;
mod loading;
mod opening;
mod order;
mod ordering;
mod propagation;
mod restarts;
mod search;
mod teaching;
mod trail;
mod watches;

pub use engine::Ended;
pub use search::Search;
