//! The laws of dominance, of the order of vectors, and of fronts.

ghost use Rattle.std.specs.Prelude.{◌≡◌, ◌⊎◌, ℕ, ℤ, Bool, true, false, length, List as Seq, Some, None};
ghost use Rattle.std.specs.List.{All, Contains};
ghost use Rattle.clf_tree.specs.declared.model.Model.{Model};
ghost use Rattle.clf_tree.specs.declared.scopes.Scopes.{Scopes};
ghost use Rattle.clf_tree.specs.declared.vector.Point.{Point};
ghost use Rattle.clf_tree.specs.declared.vector.Question.{Question};
ghost use Rattle.clf_tree.specs.declared.vector.Vector.{Vector};
ghost use Rattle.clf_tree.specs.Front.{is_better_somewhere, dominates, before, ways_of, Reaches, IsOptimal, IsFront};
ghost use Rattle.goal_vectors.specs.Points.{vectors_of, found_of, IsOutside, IsUnanswered, ArePoints, HasMore, FallsByDominance};

/// Dominance is a strict partial order of vectors of one length.
pub fn dominance_is_an_order()
    ensures irreflexive { (ways : Seq Bool) (v : Seq ℤ) → dominates ways v v ≡ false }
    ensures transitive { (ways : Seq Bool) (u v w : Seq ℤ) → length u ≡ length v → length v ≡ length w
        → dominates ways u v ≡ true → dominates ways v w ≡ true → dominates ways u w ≡ true }
{}

/// The better first is a strict order, and total: of two vectors of one length that differ, exactly one is before the other.
pub fn better_first_is_an_order()
    ensures irreflexive { (ways : Seq Bool) (v : Seq ℤ) → before ways v v ≡ false }
    ensures transitive { (ways : Seq Bool) (u v w : Seq ℤ)
        → before ways u v ≡ true → before ways v w ≡ true → before ways u w ≡ true }
    ensures total { (ways : Seq Bool) (u v : Seq ℤ) → length ways ≡ length u → length u ≡ length v → (u ≡ v → ⊥)
        → ((before ways u v ≡ true) × (before ways v u ≡ false)) ⊎ ((before ways u v ≡ false) × (before ways v u ≡ true)) }
{}

/// A vector that is at least as good as one that is better somewhere is so too: where `v` is nowhere better than `u`, and
/// better somewhere than `f`, so is `u`.
pub fn carries()
    ensures { (ways : Seq Bool) (u v f : Seq ℤ) → length u ≡ length v
        → is_better_somewhere ways v u ≡ false → is_better_somewhere ways v f ≡ true → is_better_somewhere ways u f ≡ true }
{}

/// A model has at most one front within its scopes.
pub fn fronts_are_one()
    ensures { (model : Model) (scopes : Scopes) (some other : Seq (Seq ℤ))
        → IsFront model scopes some → IsFront model scopes other → some ≡ other }
{}

/// A reached vector better somewhere than each found one, which no instance improves on as the question asks, is of the front.
pub fn optimal_by_empty()
    ensures { (model : Model) (scopes : Scopes) (question : Question) (best : Vector) → question.improve ≡ Some best
        → Reaches model scopes best.values → IsOutside model (found_of question) best.values
        → IsUnanswered model scopes question → IsOptimal model scopes best.values }
{}

/// A member of the front that isn't among members is better somewhere than each of them.
pub fn still_admitted()
    ensures { (model : Model) (scopes : Scopes) (found : Seq (Seq ℤ)) (v : Seq ℤ) → All (IsOptimal model scopes) found
        → IsOptimal model scopes v → (Contains found v → ⊥) → IsOutside model found v }
{}

/// Points beside which no instance has a vector that is better somewhere than each of theirs are the whole front.
pub fn front_by_empty()
    ensures { (model : Model) (scopes : Scopes) (question : Question) (points : Seq Point) → question.improve ≡ None
        → found_of question ≡ vectors_of points → ArePoints model scopes points → IsUnanswered model scopes question
        → IsFront model scopes (vectors_of points) }
{}

/// Beside a reached vector that is better somewhere than each of some vectors, these aren't all members of the front,
/// where no vectors of the model dominate each other without end.
pub fn no_end()
    ensures { (model : Model) (scopes : Scopes) (found : Seq (Seq ℤ)) (w : Seq ℤ) (gap : Seq ℤ → ℕ)
        → FallsByDominance model scopes gap → Reaches model scopes w → IsOutside model found w → HasMore model scopes found }
{}
