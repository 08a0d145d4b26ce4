//! The complete Pareto front of a model, by questions to the space of its instances.
//!
//! `front` asks for an instance whose vector is better somewhere than each point so far, improves it until nothing dominates it, and goes
//! on from there, until nothing is left, a budget is spent, or there are more points than were asked for. At each moment the points are
//! members of the front, in order, each with an instance that has its vector.
#![tactic(auto)]

mod aims;
mod asking;
mod improving;
mod laws;
mod points;
mod questions;
mod searched;
mod searching;
mod task;

pub use laws::vectors_are_small;
pub use searched::{Halt, Searched};
pub use searching::front;
