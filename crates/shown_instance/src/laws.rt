//! What bits that show an instance say of it.

ghost use Rattle.std.specs.Prelude.{◌≡◌, Bool, List, IsTrue, length, map, nat_lt};
ghost use Rattle.std.specs.List.{list_all};
ghost use Rattle.clf_tree.specs.declared.model.Clafer.{Clafer};
ghost use Rattle.clf_tree.specs.declared.scopes.Scopes.{Scopes};
ghost use Rattle.clf_tree.specs.declared.instance.Entry.{Entry};
ghost use Rattle.set_bits.specs.declared.layout.Layout.{Layout};
ghost use Rattle.set_bits.specs.Fitting.{Fits};
ghost use Rattle.set_bits.specs.Showing.{Shows};
ghost use Rattle.clf_tree.specs.Nodes.{entry_of, is_in_range, is_within, is_ordered, is_tree};
ghost use Rattle.clf_tree.specs.Shape.{has_shape};
ghost use Rattle.shown_instance.specs.Packed.{IsPacked, aligned, is_between};
ghost use Rattle.shown_instance.specs.Shaped.{HasBits};
ghost use Rattle.shown_instance.specs.Shown.{shown};

use integer_bits::what_fits_is_kept;

/// Bits show no instance but the one that they tell.
pub fn the_told_instance_alone_is_shown()
    ensures { (clafers : List Clafer) (scopes : Scopes) (layout : Layout) (bits : List Bool) (entries : List Entry) → Fits clafers scopes layout → Shows clafers scopes layout bits entries → entries ≡ shown layout bits }
{}

/// The bits of an instance's facts show the instance, where it is within the scopes, a tree and of the right shape.
pub fn packed_bits_show()
    ensures { (clafers : List Clafer) (scopes : Scopes) (layout : Layout) (bits : List Bool) (entries : List Entry) → Fits clafers scopes layout → IsTrue (is_within clafers scopes entries) → IsTrue (is_ordered entries) → IsTrue (is_tree clafers entries) → IsTrue (has_shape clafers scopes entries) → IsPacked layout entries bits → Shows clafers scopes layout bits entries }
{}

/// One pass over the slots and an instance's entries finds the entry of each slot.
pub fn aligned_entries_are_found()
    ensures { (clafers : List Clafer) (scopes : Scopes) (layout : Layout) (entries : List Entry) → Fits clafers scopes layout → IsTrue (is_within clafers scopes entries) → IsTrue (is_ordered entries) → aligned layout.slots entries ≡ map (entry_of entries) layout.slots }
{}

/// The edges of a layout that fits lead from slots to slots, and its integers are those of slots.
pub fn edges_lie_between_slots()
    ensures parents { (clafers : List Clafer) (scopes : Scopes) (layout : Layout) → Fits clafers scopes layout → IsTrue (list_all (is_between layout.slots) layout.parents) }
    ensures targets { (clafers : List Clafer) (scopes : Scopes) (layout : Layout) → Fits clafers scopes layout → IsTrue (list_all (is_between layout.slots) layout.targets) }
    ensures values { (clafers : List Clafer) (scopes : Scopes) (layout : Layout) → Fits clafers scopes layout → IsTrue (list_all (λ v. nat_lt v.slot (length layout.slots)) layout.values) }
{}

/// The integers of an instance of the right shape are in the range.
pub fn integers_are_in_range()
    ensures { (clafers : List Clafer) (scopes : Scopes) (entries : List Entry) → IsTrue (has_shape clafers scopes entries) → IsTrue (is_in_range scopes entries) }
{}

/// At most one list of bits shows an instance.
pub fn one_list_of_bits_shows()
    ensures { (clafers : List Clafer) (scopes : Scopes) (layout : Layout) (some : List Bool) (others : List Bool) (entries : List Entry) → Fits clafers scopes layout → Shows clafers scopes layout some entries → Shows clafers scopes layout others entries → some ≡ others }
{}

/// Some bits show each instance within the scopes that is ordered, a tree and of the right shape. The integers of the range have at most 64
/// bits.
pub fn each_instance_has_bits()
    ensures { (clafers : List Clafer) (scopes : Scopes) (layout : Layout) (entries : List Entry) → HasBits clafers scopes layout entries }
{
    what_fits_is_kept();
}
