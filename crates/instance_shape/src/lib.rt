//! Whether an instance is within the scopes, a tree, and of the shape that a model asks for.
#![tactic(auto)]

mod hierarchy;
mod multiplicities;
mod references;
mod scope;
mod shape;
#[cfg(test)]
mod tests;
mod trees;

pub use hierarchy::is_a;
pub use scope::is_within;
pub use shape::has_shape;
pub use trees::is_tree;
