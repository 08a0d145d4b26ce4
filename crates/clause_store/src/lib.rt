//! Clauses, the store that keeps them, and derivations by resolution.
#![tactic(auto)]

mod clause;
mod derivation;
mod kept;
mod soundness;
mod store;
#[cfg(test)]
mod tests;

pub use clause::{Clause, Literal, is_ascending};
pub use derivation::{Chain, Derivation, Step};
pub use soundness::{refuted_is_unsatisfiable, results_follow};
pub use store::Clauses;
