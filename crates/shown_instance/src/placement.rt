//! When the entries that bits tell have the parents and targets that they have to have.

ghost use Rattle.std.specs.Prelude.{◌≡◌, Bool, not, List, IsTrue};
ghost use Rattle.std.specs.List.{list_all};
ghost use Rattle.clf_tree.specs.declared.model.Clafer.{Clafer};
ghost use Rattle.clf_tree.specs.declared.scopes.Scopes.{Scopes};
ghost use Rattle.clf_tree.specs.Named.{each, contains_itself};
ghost use Rattle.clf_tree.specs.Nodes.{has_its_parent, is_tree};
ghost use Rattle.clf_tree.specs.Shape.{meets_reference};
ghost use Rattle.set_bits.specs.declared.layout.Layout.{Layout};
ghost use Rattle.set_bits.specs.Fitting.{Fits};
ghost use Rattle.shown_instance.specs.Consistent.{abstract_are_empty, is_consistent};
ghost use Rattle.shown_instance.specs.Placed.{have_parents, have_targets};
ghost use Rattle.shown_instance.specs.Shown.{shown};

/// Where bits are consistent, they tell of each entry's parent and target whether it is as it has to be.
pub fn parents_and_targets_are_told()
    ensures parents { (clafers : List Clafer) (scopes : Scopes) (layout : Layout) (bits : List Bool) → Fits clafers scopes layout → IsTrue (is_consistent scopes layout bits) → have_parents clafers layout bits ≡ list_all (has_its_parent clafers (shown layout bits)) (shown layout bits) }
    ensures targets { (clafers : List Clafer) (scopes : Scopes) (layout : Layout) (bits : List Bool) → Fits clafers scopes layout → IsTrue (is_consistent scopes layout bits) → have_targets clafers layout bits ≡ list_all (meets_reference clafers (shown layout bits) scopes) (shown layout bits) }
{}

/// Where no clafer contains itself, the entries that consistent bits tell make trees exactly where each has its parent.
pub fn trees_are_told()
    ensures { (clafers : List Clafer) (scopes : Scopes) (layout : Layout) (bits : List Bool) → Fits clafers scopes layout → IsTrue (abstract_are_empty clafers scopes) → IsTrue (each clafers (λ c. not (contains_itself clafers c))) → IsTrue (is_consistent scopes layout bits) → have_parents clafers layout bits ≡ is_tree clafers (shown layout bits) }
{}
