//! What a number of bits keeps of an integer.
ghost use Rattle.std.specs.Prelude.{◌≡◌, ◌<◌, ◌≤◌, ℕ, ℤ, Bool, length, List as Items};
ghost use Rattle.integer_bits.specs.Numbers.{cut, spelled, integer_of, FitsBits};

/// An integer that fits on some bits is kept by as many and by more, and their spelling spells it; so is the integer of a list of bits that is
/// no longer. A spelling is as long as it is asked for, what is cut fits, and fewer bits keep the same of an integer as of what more bits
/// keep.
pub fn what_fits_is_kept()
    ensures fits { (w : ℕ) (z : ℤ) → 0 < w → FitsBits w z → cut w z ≡ z }
    ensures bits { (w : ℕ) (bs : Items Bool) → 0 < w → 0 < length bs → length bs ≤ w → cut w (integer_of bs) ≡ integer_of bs }
    ensures size { (w : ℕ) (z : ℤ) → length (spelled w z) ≡ w }
    ensures spells { (w : ℕ) (z : ℤ) → 0 < w → FitsBits w z → integer_of (spelled w z) ≡ z }
    ensures bits_fit { (bs : Items Bool) → 0 < length bs → FitsBits (length bs) (integer_of bs) }
    ensures wider { (v w : ℕ) (z : ℤ) → v ≤ w → FitsBits v z → FitsBits w z }
    ensures wider_cut { (v w : ℕ) (z : ℤ) → 0 < v → v ≤ w → FitsBits v z → cut w z ≡ z }
    ensures cut_fits { (w : ℕ) (z : ℤ) → 0 < w → FitsBits w (cut w z) }
    ensures cut_again { (v w : ℕ) (z : ℤ) → 0 < v → v ≤ w → cut v (cut w z) ≡ cut v z }
{}
