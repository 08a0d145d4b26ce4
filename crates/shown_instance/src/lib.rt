//! The one instance that bits can show.
//!
//! `specs/Shown` says which instance the bits of a layout tell. The laws here say that bits which show an instance show that one alone, and which tests of the bits are the rules of shape for it.
#![tactic(auto)]

mod consistency;
mod counting;
mod laws;
mod placement;
mod sets;
mod shaping;

pub use consistency::consistent_bits_show_an_instance;
pub use counting::{bounds_are_told, entries_are_counted};
pub use laws::{
    aligned_entries_are_found, each_instance_has_bits, edges_lie_between_slots,
    integers_are_in_range, one_list_of_bits_shows, packed_bits_show,
    the_told_instance_alone_is_shown,
};
pub use placement::{parents_and_targets_are_told, trees_are_told};
pub use sets::sets_are_told;
pub use shaping::shaped_bits_show_a_tree;
