//! That sound expressions are formed, and that bits tell what they mean.

ghost use Rattle.std.specs.Prelude.{◌≡◌, ℕ, Bool, List, IsTrue, length};
ghost use Rattle.clf_tree.specs.declared.model.Clafer.{Clafer};
ghost use Rattle.clf_tree.specs.declared.scopes.Scopes.{Scopes};
ghost use Rattle.clf_tree.specs.Core.{Core};
ghost use Rattle.clf_tree.specs.Meaning.{nodes};
ghost use Rattle.clf_tree.specs.CoreMeaning.{meaning, integer_in, truth_in};
ghost use Rattle.clf_tree.specs.CoreSoundness.{Sound, sort, is_set, is_number, is_test};
ghost use Rattle.set_bits.specs.declared.layout.Layout.{Layout};
ghost use Rattle.set_bits.specs.Fitting.{Fits};
ghost use Rattle.shown_instance.specs.Consistent.{abstract_are_empty};
ghost use Rattle.shown_instance.specs.Shaped.{ShowsShaped};
ghost use Rattle.shown_instance.specs.Shown.{shown};
ghost use Rattle.told_constraints.specs.Formed.{is_formed};
ghost use Rattle.told_constraints.specs.Standing.{stand_for, nodes_at};
ghost use Rattle.told_constraints.specs.Told.{told, told_set, told_number, told_truth, members};

/// A sound expression is formed.
pub fn sound_expressions_are_formed()
    ensures { (clafers : List Clafer) (scopes : Scopes) (a : Core) (given : List (List ℕ)) → Sound clafers scopes a given
        → IsTrue (is_formed a (length given)) }
{}

/// At bits that show a tree of the right shape, with live bound slots of the given clafers, a sound expression means what the bits tell:
/// its nodes are those of the slots, its number and its truth are the same.
pub fn bits_tell_the_meaning()
    ensures nodes { (clafers : List Clafer) (scopes : Scopes) (layout : Layout) (bits : List Bool) (a : Core)
        (given : List (List ℕ)) (bound : List ℕ)
        → Fits clafers scopes layout → IsTrue (abstract_are_empty clafers scopes) → ShowsShaped clafers scopes layout bits
        → Sound clafers scopes a given → IsTrue (stand_for layout bits given bound) → IsTrue (is_set (sort a))
        → nodes_at layout (members layout (told_set (told layout bits a bound)))
        ≡ nodes (meaning (shown layout bits) a (nodes_at layout bound)) }
    ensures numbers { (clafers : List Clafer) (scopes : Scopes) (layout : Layout) (bits : List Bool) (a : Core)
        (given : List (List ℕ)) (bound : List ℕ)
        → Fits clafers scopes layout → IsTrue (abstract_are_empty clafers scopes) → ShowsShaped clafers scopes layout bits
        → Sound clafers scopes a given → IsTrue (stand_for layout bits given bound) → IsTrue (is_number (sort a))
        → told_number (told layout bits a bound) ≡ integer_in (meaning (shown layout bits) a (nodes_at layout bound)) }
    ensures truths { (clafers : List Clafer) (scopes : Scopes) (layout : Layout) (bits : List Bool) (a : Core)
        (given : List (List ℕ)) (bound : List ℕ)
        → Fits clafers scopes layout → IsTrue (abstract_are_empty clafers scopes) → ShowsShaped clafers scopes layout bits
        → Sound clafers scopes a given → IsTrue (stand_for layout bits given bound) → IsTrue (is_test (sort a))
        → told_truth (told layout bits a bound) ≡ truth_in (meaning (shown layout bits) a (nodes_at layout bound)) }
{}
