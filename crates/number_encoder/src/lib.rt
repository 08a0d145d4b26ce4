//! Numbers of sets on wires: counts and sums of members, and sets of integers compared.
//!
//! Each call is exact at every list of bits: what it makes is `cut` to its width, as the calls of `integer_bits` are. A number has at most
//! as many wires as its width, and fewer where fewer hold it.
#![tactic(auto)]

mod aggregates;
mod constants;
mod laws;
mod parts;
mod rooms;
mod values;

pub use aggregates::{count_members, total};
pub use constants::constant;
pub use laws::{grown_circuits_keep_parts, integers_have_bits, numbers_stay_within_weights};
pub use parts::{part_of, parts_of};
pub use values::{same_values, within_values};
