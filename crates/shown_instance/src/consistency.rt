//! When bits show some instance.

ghost use Rattle.std.specs.Prelude.{◌≡◌, Bool, List, IsTrue, length};
ghost use Rattle.clf_tree.specs.declared.model.Clafer.{Clafer};
ghost use Rattle.clf_tree.specs.declared.scopes.Scopes.{Scopes};
ghost use Rattle.clf_tree.specs.declared.instance.Entry.{Entry};
ghost use Rattle.set_bits.specs.declared.layout.Layout.{Layout};
ghost use Rattle.set_bits.specs.Fitting.{Fits, size};
ghost use Rattle.set_bits.specs.Showing.{Shows};
ghost use Rattle.shown_instance.specs.Shown.{shown};
ghost use Rattle.shown_instance.specs.Consistent.{abstract_are_empty, is_consistent};

/// Bits show an instance exactly where they are consistent: then they show the one that they tell.
pub fn consistent_bits_show_an_instance()
    ensures shown { (clafers : List Clafer) (scopes : Scopes) (layout : Layout) (bits : List Bool) → Fits clafers scopes layout → IsTrue (abstract_are_empty clafers scopes) → length bits ≡ size layout → IsTrue (is_consistent scopes layout bits) → Shows clafers scopes layout bits (shown layout bits) }
    ensures consistent { (clafers : List Clafer) (scopes : Scopes) (layout : Layout) (bits : List Bool) (entries : List Entry) → Fits clafers scopes layout → Shows clafers scopes layout bits entries → IsTrue (is_consistent scopes layout bits) }
{}
