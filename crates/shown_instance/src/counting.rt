//! How many entries bits tell.

ghost use Rattle.std.specs.Prelude.{◌≡◌, ◌==◌, ◌&&◌, ◌<◌, ℕ, Bool, true, List, IsTrue, length, slice_get, count_by};
ghost use Rattle.std.specs.Option.{option_map_or};
ghost use Rattle.std.specs.List.{filter, list_all};
ghost use Rattle.bool_circuit.specs.Circuit.{entry};
ghost use Rattle.clf_tree.specs.declared.model.Clafer.{Clafer};
ghost use Rattle.clf_tree.specs.declared.scopes.Scopes.{Scopes};
ghost use Rattle.clf_tree.specs.declared.instance.Entry.{Entry};
ghost use Rattle.clf_tree.specs.Lists.{numbers_below};
ghost use Rattle.clf_tree.specs.Shape.{is_child_of, meets_times, meets_group};
ghost use Rattle.set_bits.specs.declared.layout.Edge.{Edge};
ghost use Rattle.set_bits.specs.declared.layout.Layout.{Layout};
ghost use Rattle.set_bits.specs.Fitting.{Fits, slot_clafer};
ghost use Rattle.shown_instance.specs.Bounds.{have_bounds};
ghost use Rattle.shown_instance.specs.Consistent.{is_consistent};
ghost use Rattle.shown_instance.specs.Shown.{shown, entry_at, is_live};

/// The entries whose clafers pass a test are counted by live slots, and those below the entry of a slot by the edges to it that are taken.
pub fn entries_are_counted()
    ensures all { (layout : Layout) (bits : List Bool) (asked : ℕ → Bool) → length (filter (λ (e : Entry). asked e.node.clafer) (shown layout bits)) ≡ count_by (λ i. is_live layout bits i && asked (slot_clafer layout.slots i)) (numbers_below (length layout.slots)) }
    ensures below { (clafers : List Clafer) (scopes : Scopes) (layout : Layout) (bits : List Bool) (asked : ℕ → Bool) (s : ℕ) → Fits clafers scopes layout → IsTrue (is_consistent scopes layout bits) → s < length layout.slots → count_by (is_child_of (entry_at layout bits s)) (filter (λ (e : Entry). asked e.node.clafer) (shown layout bits)) ≡ count_by (λ (e : Edge). ((e.to == s) && asked (slot_clafer layout.slots e.from)) && entry bits e.here) layout.parents }
{}

/// Where bits are consistent, they tell of multiplicities and group cardinalities whether the entries meet them.
pub fn bounds_are_told()
    ensures { (clafers : List Clafer) (scopes : Scopes) (layout : Layout) (bits : List Bool) → Fits clafers scopes layout → IsTrue (is_consistent scopes layout bits) → have_bounds clafers layout bits ≡ list_all (λ c. option_map_or (λ k. meets_times clafers (shown layout bits) c k && meets_group clafers (shown layout bits) c k) (slice_get clafers c) true) (numbers_below (length clafers)) }
{}
