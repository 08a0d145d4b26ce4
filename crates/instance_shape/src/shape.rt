//! Whether an instance has the shape that a model asks for.

ghost use Rattle.std.specs.Prelude.{◌≡◌, ◌&&◌, ◌<◌, ◌^◌, true, length, slice_get, IsTrue};
ghost use Rattle.std.specs.Option.{option_map_or};
ghost use Rattle.std.specs.List.{list_all};
ghost use Rattle.clf_tree.specs.Lists.{numbers_below};
ghost use Rattle.clf_tree.specs.Hierarchy.{is_closed};
ghost use Rattle.clf_tree.specs.Shape.{has_shape, meets_group, meets_reference, meets_times};

use crate::multiplicities::meets_bounds;
use crate::references::{are_different, meets_reference};
use clf_base::List;
use clf_tree::{Clafer, Scopes};
use instance_tables::Tables;

fn are_met(clafers: &List<Clafer>, tables: &Tables, clafer: usize) -> bool
    requires within { clafer < length clafers.now }
    requires closed { IsTrue (is_closed clafers.now) }
    requires few { length clafers.now < 2 ^ 32 }
    ensures { result ≡ option_map_or (λ k. meets_times clafers.now tables.now.entries clafer k && meets_group clafers.now tables.now.entries clafer k) (slice_get clafers.now clafer) true }
{
    meets_bounds(clafers, tables, clafer as u32, clafers.get(clafer))
}

#[tactic(auto, using(crate::proofs::Numbers::all_steps))]
fn are_bounds_met(clafers: &List<Clafer>, tables: &Tables) -> bool
    requires closed { IsTrue (is_closed clafers.now) }
    requires few { length clafers.now < 2 ^ 32 }
    ensures { result ≡ list_all (λ c. option_map_or (λ k. meets_times clafers.now tables.now.entries c k && meets_group clafers.now tables.now.entries c k) (slice_get clafers.now c) true) (numbers_below (length clafers.now)) }
{
    for clafer in 0..clafers.len() {
        if !are_met(clafers, tables, clafer) {
            return false;
        }
    }
    true
}

fn are_references_met(clafers: &List<Clafer>, scopes: &Scopes, tables: &Tables) -> bool
    requires closed { IsTrue (is_closed clafers.now) }
    ensures { result ≡ list_all (meets_reference clafers.now tables.now.entries scopes.now) tables.now.entries }
{
    tables
        .entries
        .as_slice()
        .iter()
        .all(|entry| meets_reference(clafers, scopes, tables, entry))
}

/// Whether an instance has the shape that a model asks for: multiplicities and group cardinalities, a fitting target where a
/// clafer has a reference and none elsewhere, and different targets in a set.
///
/// For each clafer it goes over the entries once, and over the children of each instance of the clafer and of its parent.
pub fn has_shape(clafers: &List<Clafer>, scopes: &Scopes, tables: &Tables) -> bool
    requires closed { IsTrue (is_closed clafers.now) }
    requires few { length clafers.now < 2 ^ 32 }
    ensures { result ≡ has_shape clafers.now scopes.now tables.now.entries }
{
    if !are_bounds_met(clafers, tables) {
        return false;
    }
    if !are_references_met(clafers, scopes, tables) {
        return false;
    }
    are_different(clafers, tables.entries.as_slice())
}
