//! Quantifiers on wires: the tuples of a set's members with a wire that says whether each is there, and whether as many of those that are
//! there pass a test as the word asks for.
//!
//! Each call is exact at all input bits. A tuple begins as one that is one slot shorter, so tuples share the wires of what they begin with.
#![tactic(auto)]

mod laws;
mod quantifiers;
mod tuples;

pub use laws::{
    quantified_tuples_are_tried, quantifiers_are_within_their_weight,
    tuples_are_no_more_than_powers, tuples_stay,
};
pub use quantifiers::as_many;
pub use tuples::{Tuple, tuples_of};
