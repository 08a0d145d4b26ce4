//! Questions about the instances of a model.
//!
//! A `Space` has the structure and the constraints of a model on wires. The structure asks for canonical instances: of all numberings of
//! one instance it lets few through, and each instance is isomorphic to one that it lets through. `ask` gives the question to the certified
//! solver as clauses, and answers with a canonical instance, with a refutation that a checker has accepted, or with a derivation on which the
//! budget is spent.
#![tactic(auto)]

mod claims;
mod comparing;
mod encoded;
mod goals;
mod laws;
mod posing;
mod questions;
mod replies;
mod rules;
mod space;
mod spending;
mod vectors;
mod verdicts;

pub use claims::{Answer, Claim};
pub use laws::{goals_are_within_the_weight, questions_are_within_the_weight};
pub use space::Space;
pub use spending::Spending;
