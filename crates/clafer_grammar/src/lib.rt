//! The grammar of modules: which tokens spell a tree and which begin one, and the states of a reader that
//! reads them one by one.
#![tactic(auto)]

pub mod heads;
pub mod laws;
pub mod machine;
pub mod operators;
