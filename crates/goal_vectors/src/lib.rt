//! Vectors of goals compared: dominance, the order of a front, which vectors a question admits, and the laws of a front.
#![tactic(auto)]

mod asking;
mod comparing;
mod laws;

pub use asking::admits;
pub use comparing::{before, dominates, is_better_somewhere};
pub use laws::{
    better_first_is_an_order, carries, dominance_is_an_order, front_by_empty, fronts_are_one,
    no_end, optimal_by_empty, still_admitted,
};
