//! Reports as text: what is printed of a model, of an instance, of a front, and of a refusal.
#![tactic(auto)]

mod heads;
mod outcome;
mod points;
mod refusals;
mod sums;
mod texts;

pub use heads::head;
pub use outcome::Outcome;
pub use points::{push_claims, push_vector};
pub use refusals::{nowhere, push_place, refusal};
pub use sums::summary;
pub use texts::text;
