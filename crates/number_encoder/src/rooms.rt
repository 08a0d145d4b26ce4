//! How many bits numbers need.

ghost use Rattle.std.specs.Prelude.{◌≡◌, ◌≤◌, ◌+◌};
ghost use Rattle.clf_tree.specs.CoreWeights.{binary_digits, range_width};

use clf_tree::{Bounds, Scopes};
use int_widths::width;

// The number of binary digits, 1 of 0.
#[tactic(auto, using(crate::proofs::Digits::one_digit, crate::proofs::Digits::more_digits))]
pub(crate) fn binary_digits(number: usize) -> u32
    ensures digits { result ≡ binary_digits number }
    ensures few { result ≤ 64 }
{
    if number < 2 {
        return 1;
    }
    binary_digits(number / 2) + 1
}

// The bits of the range of integers.
pub(crate) fn range_width(scopes: &Scopes) -> u32
    ensures bits { result ≡ range_width scopes.now }
    ensures few { result ≤ 127 }
{
    let range = Bounds {
        low: scopes.low as i128,
        high: scopes.high as i128,
    };
    width(range)
}
