//! What the wires of numbers come to.

ghost use Rattle.std.specs.Prelude.{◌≡◌, ◌+◌, ◌*◌, ◌<◌, ◌≤◌, ℕ, Bool, max, List as Items};
ghost use Rattle.bool_circuit.specs.Circuit.{Extends};
ghost use Rattle.bool_circuit.specs.declared.gate.Gate.{Gate};
ghost use Rattle.integer_bits.specs.declared.totals.Part.{Part};
ghost use Rattle.integer_bits.specs.Totals.{ArePartsOf};
ghost use Rattle.clf_tree.specs.declared.scopes.Scopes.{Scopes};
ghost use Rattle.clf_tree.specs.CoreSoundness.{Sort};
ghost use Rattle.clf_tree.specs.CoreWeights.{most_nodes, bits_of, range_width, count_weight, values_weight};
ghost use Rattle.number_encoder.specs.Costs.{count_cost, total_cost, values_cost};
ghost use Rattle.number_encoder.specs.Values.{present_values};

/// What makes a number takes no more wires than the own weight of its form: a count and a sum of no more members than the form's operand
/// can have, the calls of `integer_bits` for products and choices, two sides of integers with the two constants that they may take, and two
/// numbers compared.
pub fn numbers_stay_within_weights()
    ensures counts { (scopes : Scopes) (width n most : ℕ) → n ≤ most → count_cost width n ≤ count_weight scopes most }
    ensures totals { (scopes : Scopes) (width n most : ℕ) → n ≤ most → total_cost scopes width n ≤ count_weight scopes most }
    ensures products { (w : ℕ) → 16 * ((w + 1) * (w + 1)) ≡ 16 * (w + 1) * (w + 1) }
    ensures choices { (w : ℕ) → 3 * w ≤ 8 + 4 * w }
    ensures orders { (v w x y : ℕ) → v ≤ x → w ≤ y → 8 * (max v w + 1) ≤ 8 * (max x y + 1) }
    ensures values { (scopes : Scopes) (a b : Sort) (n m v w : ℕ) → n ≤ most_nodes scopes a → m ≤ most_nodes scopes b
        → v ≤ max (range_width scopes) (bits_of scopes a) → w ≤ max (range_width scopes) (bits_of scopes b)
        → values_cost n m (max v w) + 2 ≤ values_weight scopes a b }
{}

/// The range of integers has a bit at least.
pub fn integers_have_bits()
    ensures { (scopes : Scopes) → 0 < range_width scopes }
{}

/// A circuit that extends another has its parts, with the same integers.
pub fn grown_circuits_keep_parts()
    ensures parts { (old new : Items Gate) (n : ℕ) (ps : Items Part) → Extends old new n → ArePartsOf old ps → ArePartsOf new ps }
    ensures values { (old new : Items Gate) (n : ℕ) (ps : Items Part) (bits : Items Bool) → Extends old new n → ArePartsOf old ps
        → present_values new ps bits ≡ present_values old ps bits }
{}
