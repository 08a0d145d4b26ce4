//! What is refused of clafers whose supers are linked: a clafer that contains itself (64), a reference of a clafer that inherits
//! one (65), a child that has the name of an inherited child (68).
//!
//! [`check_families`] answers whether anything of it is, and [`linked_families`] links supers first and gives the first refusal of
//! both parts. Both speak of clafers before their targets are looked up; [`targets_change_nothing`] carries what is known over.
#![tactic(auto)]

mod certificate;
mod children;
mod containment;
mod ordering;
mod referring;
mod refusing;
mod repeating;
mod search;
mod stage;
#[cfg(test)]
mod tests;
mod touring;

pub use stage::{check_families, linked_families, targets_change_nothing};
