//! What the wires of tuples tell of a quantifier, and what they cost beside its weight.
ghost use Rattle.std.specs.Prelude.{◌≡◌, ◌+◌, ◌*◌, ◌^◌, ◌≤◌, ℕ, Bool, List as Items, length, map, nat_lt, IsTrue};
ghost use Rattle.std.specs.List.{list_all};
ghost use Rattle.bool_circuit.specs.Circuit.{Extends};
ghost use Rattle.bool_circuit.specs.declared.gate.Gate.{Gate};
ghost use Rattle.clf_tree.specs.declared.core_expr.Quantifier.{Quantifier};
ghost use Rattle.clf_tree.specs.CoreWeights.{quantified_weight};
ghost use Rattle.set_bits.specs.declared.layout.Layout.{Layout};
ghost use Rattle.set_bits.specs.declared.sets.Member.{Member};
ghost use Rattle.set_bits.specs.Sets.{is_in, AscendFrom};
ghost use Rattle.told_constraints.specs.Told.{as_many, tried_slots, members};
ghost use Rattle.quantifier_encoder.specs.declared.tuples.Tuple.{Tuple};
ghost use Rattle.quantifier_encoder.specs.Tuples.{AreTuples, guards};
ghost use Rattle.quantifier_encoder.specs.Passing.{passes_present, many_cost};

/// Tuples stay what they are in a circuit that is extended.
pub fn tuples_stay()
    ensures { (old made new : Items Gate) (n : ℕ) (set : Items Member) (disj : Bool) (names : ℕ) (ts : Items Tuple)
        → AreTuples made old set disj names ts → Extends made new n → AreTuples new old set disj names ts }
{}

/// As many of the tuples that are there pass a test as of those that are tried of what the set tells, where each tuple passes as the test
/// says of its slots.
pub fn quantified_tuples_are_tried()
    ensures { (word : Quantifier) (disj : Bool) (names : ℕ) (layout : Layout) (p : ℕ → Bool) (test : Items ℕ → Bool)
        (old gates : Items Gate) (set : Items Member) (ts : Items Tuple) (passed bits : Items Bool)
        → AreTuples gates old set disj names ts → AscendFrom 0 set
        → IsTrue (list_all (λ m. nat_lt m.slot (length layout.slots)) set) → ((s : ℕ) → is_in old set s bits ≡ p s)
        → passed ≡ map (λ t. test t.slots) ts
        → passes_present word (guards gates ts bits) passed ≡ as_many word test (tried_slots disj names (members layout p)) }
{}

/// There are no more tuples than the power of the members.
pub fn tuples_are_no_more_than_powers()
    ensures { (old gates : Items Gate) (set : Items Member) (disj : Bool) (names : ℕ) (ts : Items Tuple)
        → AreTuples gates old set disj names ts → length ts ≤ length set ^ names }
{}

/// The wires of the set, of its tuples, of the test at each tuple, and of counting those that pass are no more than the weight of the
/// quantifier, where the set has `n` members of at most `most`.
pub fn quantifiers_are_within_their_weight()
    ensures { (word : Quantifier) (n most names body over t : ℕ) → n ≤ most → t ≤ n ^ names
        → over + (names * n ^ names + 1) + t * body + many_cost word t ≤ quantified_weight word (most ^ names) names body over }
{}
