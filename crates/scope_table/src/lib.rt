//! How many instances each clafer may have: what the user gives, and what multiplicities and owners make of the rest.
#![tactic(auto)]

mod given;
mod largest;
mod paths;
mod stage;
#[cfg(test)]
mod tests;
mod totals;

pub use stage::scopes;
