//! Bits, and the integers that they spell.

ghost use Rattle.std.specs.Prelude.{◌≡◌, ◌≤◌, ◌<◌, ℤ, ◌≤ℤ◌, ◌<ℤ◌, ◌+ℤ◌, ◌*ℤ◌, pos, neg_ℤ, length, map};
ghost use Rattle.bool_circuit.specs.Circuit.{entry};
ghost use Rattle.integer_bits.specs.Numbers.{bit, integer_of, FitsBits};
ghost use Rattle.clf_tree.specs.Widths.{width};

use bool_circuit::Wire;

/// The bit of a wire.
pub(crate) fn bit(bits: &[bool], wire: Wire) -> bool
    ensures { result ≡ entry bits.now wire }
{
    match bits.get(wire.number as usize) {
        Some(value) => *value,
        None => false,
    }
}

/// The integers between two of 64 bits need no more.
pub(crate) fn widths_are_few(_low: i64, _high: i64)
    ensures { width (record { low = _low; high = _high }) ≤ 64 }
{}

/// The integers between two of 64 bits have a spelling of so many bits, and of one at least.
pub(crate) fn widths_suffice(_low: i64, _high: i64)
    ensures some { 0 < width (record { low = _low; high = _high }) }
    ensures fits { (z : ℤ) → _low ≤ℤ z → z ≤ℤ _high → FitsBits (width (record { low = _low; high = _high })) z }
{}

// An integer with one bit more, below the others.
fn with_lower(low: bool, others: i64) -> i64
    requires least { neg_ℤ (pos 4611686018427387904) ≤ℤ others }
    requires most { others <ℤ pos 4611686018427387904 }
    ensures { result ≡ pos (bit low) +ℤ pos 2 *ℤ others }
{
    if low {
        return 2 * others + 1;
    }
    2 * others
}

/// The integer that the bits of some wires spell in two's complement, the lowest first.
pub(crate) fn integer_of(bits: &[bool], wires: &[Wire]) -> i64
    requires { length wires.now ≤ 64 }
    ensures { result ≡ integer_of (map (entry bits.now) wires.now) }
{
    if wires.is_empty() {
        return 0;
    }
    let mut total: i64 = if bit(bits, wires[wires.len() - 1]) {
        -1
    } else {
        0
    };
    for behind in 1..wires.len() {
        let low = bit(bits, wires[wires.len() - 1 - behind]);
        total = with_lower(low, total);
    }
    total
}
