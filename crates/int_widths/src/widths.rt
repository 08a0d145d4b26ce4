//! The width of an interval.

ghost use Rattle.std.specs.Prelude.{◌≡◌, ◌<◌, ◌≤◌, pos, ◌^◌, ◌-◌};
ghost use Rattle.clf_tree.specs.Widths.{width, is_held};

use clf_tree::Bounds;

fn power(exponent: u32) -> i128
    requires { exponent ≤ 126 }
    ensures { result ≡ pos (2 ^ exponent) }
{
    1 << exponent
}

fn is_held(bounds: &Bounds, bits: u32) -> bool
    requires least { 1 ≤ bits }
    requires most { bits ≤ 127 }
    ensures { result ≡ is_held bounds.now bits }
{
    let half = power(bits - 1);
    -half <= bounds.low && bounds.high < half
}

/// The least number of bits, from 1 on, that hold both ends in two's complement, or 127.
#[tactic(auto, using(crate::proofs::Firsts::width_found, crate::proofs::Firsts::width_most, crate::proofs::Firsts::none_more))]
pub fn width(bounds: Bounds) -> u32
    ensures { result ≡ width bounds }
{
    for bits in 1..127u32 {
        if is_held(&bounds, bits) {
            return bits;
        }
    }
    127
}
