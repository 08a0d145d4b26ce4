//! When bits show an instance that is a tree of the right shape.

ghost use Rattle.std.specs.Prelude.{◌≡◌, ◌↔◌, Bool, not, List, IsTrue, length};
ghost use Rattle.clf_tree.specs.declared.model.Clafer.{Clafer};
ghost use Rattle.clf_tree.specs.declared.scopes.Scopes.{Scopes};
ghost use Rattle.clf_tree.specs.Named.{each, contains_itself};
ghost use Rattle.set_bits.specs.declared.layout.Layout.{Layout};
ghost use Rattle.set_bits.specs.Fitting.{Fits, size};
ghost use Rattle.shown_instance.specs.Consistent.{abstract_are_empty};
ghost use Rattle.shown_instance.specs.Shaped.{is_shaped, ShowsShaped};

/// Where abstract clafers have the scope 0 and no clafer contains itself, bits tell exactly whether they show an instance that is a tree of
/// the right shape.
pub fn shaped_bits_show_a_tree()
    ensures { (clafers : List Clafer) (scopes : Scopes) (layout : Layout) (bits : List Bool) → Fits clafers scopes layout → IsTrue (abstract_are_empty clafers scopes) → IsTrue (each clafers (λ c. not (contains_itself clafers c))) → length bits ≡ size layout → IsTrue (is_shaped clafers scopes layout bits) ↔ ShowsShaped clafers scopes layout bits }
{}
