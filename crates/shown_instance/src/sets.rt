//! When the entries that bits tell have different targets where references are of set kind.

ghost use Rattle.std.specs.Prelude.{◌≡◌, Bool, List, IsTrue};
ghost use Rattle.clf_tree.specs.declared.model.Clafer.{Clafer};
ghost use Rattle.clf_tree.specs.declared.scopes.Scopes.{Scopes};
ghost use Rattle.clf_tree.specs.Lists.{each_two};
ghost use Rattle.clf_tree.specs.Shape.{differ};
ghost use Rattle.set_bits.specs.declared.layout.Layout.{Layout};
ghost use Rattle.set_bits.specs.Fitting.{Fits};
ghost use Rattle.shown_instance.specs.Bounds.{have_bounds};
ghost use Rattle.shown_instance.specs.Consistent.{is_consistent};
ghost use Rattle.shown_instance.specs.Distinct.{have_sets};
ghost use Rattle.shown_instance.specs.Placed.{have_parents, have_targets};
ghost use Rattle.shown_instance.specs.Shown.{shown};

/// Where consistent bits tell parents, targets and multiplicities as they have to be, they tell of set references whether the entries meet
/// them.
pub fn sets_are_told()
    ensures { (clafers : List Clafer) (scopes : Scopes) (layout : Layout) (bits : List Bool) → Fits clafers scopes layout → IsTrue (is_consistent scopes layout bits) → IsTrue (have_parents clafers layout bits) → IsTrue (have_targets clafers layout bits) → IsTrue (have_bounds clafers layout bits) → have_sets clafers layout bits ≡ each_two (differ clafers (shown layout bits)) (shown layout bits) }
{}
