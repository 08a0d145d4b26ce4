//! A law of the vectors of a model.

ghost use Rattle.std.specs.Prelude.{ℤ, List as Seq, IsTrue};
ghost use Rattle.std.specs.List.{list_all};
ghost use Rattle.clf_tree.specs.declared.model.Model.{Model};
ghost use Rattle.clf_tree.specs.declared.scopes.Scopes.{Scopes};
ghost use Rattle.clf_tree.specs.Front.{Reaches};
ghost use Rattle.clf_tree.specs.Named.{IsNamed};
ghost use Rattle.clf_tree.specs.Typed.{IsTyped};
ghost use Rattle.int_widths.specs.Narrow.{is_narrow_model};
ghost use Rattle.pareto_loop.specs.Gaps.{is_small};

use clf_tree::intervals_hold;

/// Each value in the vector of an instance lies within 62 bits, where the integers of the model need no more.
pub fn vectors_are_small()
    ensures { (model : Model) (scopes : Scopes) (v : Seq ℤ) → IsNamed model → IsTyped model → IsTrue (is_narrow_model scopes model)
        → Reaches model scopes v → IsTrue (list_all is_small v) }
{
    intervals_hold();
}
