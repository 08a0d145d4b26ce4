//! Numbers that count no further than to the limit.

ghost use Rattle.std.specs.Prelude.{◌≡◌, ◌≤◌, ◌+◌};
ghost use Rattle.clf_tree.specs.CoreWeights.{binary_digits, range_width};
ghost use Rattle.model_weight.specs.Capped.{limit, capped, plus, times, power};
ghost use Rattle.model_weight.specs.Light.{count, moved, both};

use clf_tree::{Bounds, Scopes};
use int_widths::width;

const LIMIT: u64 = 1_000_000_000_000_000_000;

pub fn capped(number: u64) -> u64
    ensures { result ≡ capped number }
{
    if number < LIMIT { number } else { LIMIT }
}

#[tactic(auto, using(crate::proofs::Caps::saturated))]
pub fn plus(a: u64, b: u64) -> u64
    ensures { result ≡ plus a b }
{
    capped(a.saturating_add(b))
}

#[tactic(auto, using(crate::proofs::Caps::saturated))]
pub fn times(a: u64, b: u64) -> u64
    ensures { result ≡ times a b }
{
    capped(a.saturating_mul(b))
}

#[tactic(auto, using(crate::proofs::Caps::power_more))]
pub fn power(base: u64, exponent: usize) -> u64
    ensures { result ≡ power base exponent }
{
    let mut product: u64 = 1;
    for _factor in 0..exponent {
        product = times(product, base);
    }
    product
}

/// The number of binary digits, 1 of 0.
#[tactic(auto, using(crate::proofs::Digits::one_digit, crate::proofs::Digits::more_digits))]
pub fn binary_digits(number: u64) -> u64
    ensures digits { result ≡ binary_digits number }
    ensures few { result ≤ number + 1 }
{
    if number < 2 {
        return 1;
    }
    binary_digits(number / 2) + 1
}

/// The bits of the range of integers.
#[tactic(auto, using(crate::proofs::Ranges::range_is))]
pub fn range_width(scopes: &Scopes) -> u64
    ensures { result ≡ range_width scopes.now }
{
    let range = Bounds {
        low: scopes.low as i128,
        high: scopes.high as i128,
    };
    width(range) as u64
}

/// The weight of a count of so many nodes.
pub fn count(scopes: &Scopes, nodes: u64) -> u64
    ensures { result ≡ count scopes.now nodes }
{
    let bits = plus(plus(range_width(scopes), binary_digits(nodes)), 1);
    times(times(32, plus(nodes, 1)), bits)
}

/// The weight of steps from so many nodes to so many.
pub fn moved(from: u64, to: u64) -> u64
    ensures { result ≡ moved from to }
{
    times(times(4, from), to)
}

pub fn both(own: u64, left: u64, right: u64) -> u64
    ensures { result ≡ both own left right }
{
    plus(plus(own, left), right)
}
