//! What stays where a circuit grows, and which integers fit on some bits.
ghost use Rattle.std.specs.Prelude.{◌≡◌, ◌↔◌, ℕ, ℤ, Bool, IsTrue, All, List as Items};
ghost use Rattle.bool_circuit.specs.Circuit.{IsWireOf, AreWiresOf, Extends};
ghost use Rattle.bool_circuit.specs.declared.gate.Gate.{Gate};
ghost use Rattle.bool_circuit.specs.declared.gate.Wire.{Wire};
ghost use Rattle.clf_tree.specs.CoreSoundness.{holds_integer};
ghost use Rattle.integer_bits.specs.Numbers.{FitsBits};
ghost use Rattle.set_bits.specs.Fitting.{IsRead};
ghost use Rattle.set_bits.specs.Sets.{is_in, is_reached, IsSetOf};
ghost use Rattle.set_bits.specs.declared.layout.Edge.{Edge};
ghost use Rattle.set_bits.specs.declared.sets.Member.{Member};

/// A circuit that extends another reads its inputs in the same way, and has its wires and its sets, with the same slots in them.
pub fn grown_circuits_keep_sets()
    ensures read { (old new : Items Gate) (n inputs : ℕ) → Extends old new n → IsRead old inputs → IsRead new inputs }
    ensures wire { (old new : Items Gate) (n : ℕ) (w : Wire) → Extends old new n → IsWireOf old w → IsWireOf new w }
    ensures wires { (old new : Items Gate) (n : ℕ) (ws : Items Wire) → Extends old new n → AreWiresOf old ws → AreWiresOf new ws }
    ensures edges { (old new : Items Gate) (n : ℕ) (edges : Items Edge) → Extends old new n → All (λ e. IsWireOf old e.here) edges → All (λ e. IsWireOf new e.here) edges }
    ensures set { (old new : Items Gate) (n : ℕ) (set : Items Member) → Extends old new n → IsSetOf old set → IsSetOf new set }
    ensures value { (old new : Items Gate) (n : ℕ) (set : Items Member) (slot : ℕ) (bits : Items Bool) → Extends old new n → IsSetOf old set → is_in new set slot bits ≡ is_in old set slot bits }
    ensures reached { (old new : Items Gate) (n : ℕ) (set : Items Member) (edges : Items Edge) (slot : ℕ) (bits : Items Bool) → Extends old new n → IsSetOf old set → All (λ e. IsWireOf old e.here) edges → is_reached new set edges slot bits ≡ is_reached old set edges slot bits }
{}

/// An integer fits on some bits exactly where it is in the range that as many bits hold.
pub fn held_integers_fit()
    ensures { (width : ℕ) (z : ℤ) → IsTrue (holds_integer width z) ↔ FitsBits width z }
{}
