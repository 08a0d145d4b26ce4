//! Expressions with their names looked up.
#![tactic(auto)]

mod expression;
mod leaves;
mod looked;
mod models;
mod names;
mod nodes;
mod numbers;
mod scope;
mod truths;

pub use expression::looked_up;
pub use looked::Looked;
pub use models::{Names, look_up_names};
pub use names::NamedStep;
pub use scope::Scope;
