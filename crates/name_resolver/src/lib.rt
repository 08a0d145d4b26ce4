//! What names mean in a model whose supers are looked up.
//!
//! The children of a clafer are the clafers declared directly under a clafer that it is-a, and a way down goes from child to child.
//! A name means from a context: the clafer of the name at the end of the shortest ways down, from the context or from the nearest of
//! its declaring parents, or a clafer at top level. The definitions say so, and [`means_one`] that they give one thing. [`steps_of`]
//! writes it as steps.
#![tactic(auto)]

mod levels;
mod marks;
mod nearest;
mod outside;
mod steps;
#[cfg(test)]
mod tests;

pub use nearest::Nearest;
pub use outside::{Found, means_one, means_there};
pub use steps::{Meant, children_named, steps_of};
