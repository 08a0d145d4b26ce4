//! Intervals, each end clamped to 127 bits.

ghost use Rattle.std.specs.Prelude.{◌≡◌, ◌*ℤ◌, ◌+ℤ◌, pos, neg_ℤ, []};
ghost use Rattle.std.specs.Int.{int_min, int_max};
ghost use Rattle.clf_tree.specs.Intervals.{between, clamped, product, sum_between};

use clf_tree::{Bounds, Scopes};

const LEAST: i128 = -85070591730234615865843651857942052864;

const MOST: i128 = 85070591730234615865843651857942052863;

fn clamped(number: i128) -> i128
    ensures { result ≡ clamped number }
{
    if number < LEAST {
        LEAST
    } else if number > MOST {
        MOST
    } else {
        number
    }
}

fn smaller(a: i128, b: i128) -> i128
    ensures { result ≡ int_min a b }
{
    if b < a { b } else { a }
}

fn larger(a: i128, b: i128) -> i128
    ensures { result ≡ int_max a b }
{
    if b < a { a } else { b }
}

fn sum(a: i128, b: i128) -> i128
    ensures { result ≡ clamped (a +ℤ b) }
{
    clamped(a.saturating_add(b))
}

fn difference(a: i128, b: i128) -> i128
    ensures { result ≡ clamped (a +ℤ neg_ℤ b) }
{
    clamped(a.saturating_sub(b))
}

fn opposite(a: i128) -> i128
    ensures { result ≡ clamped (neg_ℤ a) }
{
    clamped(a.saturating_neg())
}

fn times(a: i128, b: i128) -> i128
    ensures { result ≡ clamped (a *ℤ b) }
{
    clamped(a.saturating_mul(b))
}

/// One number.
pub fn exactly(number: u32) -> Bounds
    ensures { result ≡ between (pos number) (pos number) }
{
    let end = clamped(number as i128);
    Bounds {
        low: end,
        high: end,
    }
}

/// From 0 to a number, as of a count.
pub fn up_to(number: u64) -> Bounds
    ensures { result ≡ between (pos 0) (pos number) }
{
    Bounds {
        low: 0,
        high: clamped(number as i128),
    }
}

/// The sum of at most so many integers of the range.
pub fn sum_between(scopes: &Scopes, number: u64) -> Bounds
    ensures { result ≡ sum_between [] scopes.now number }
{
    Bounds {
        low: times(number as i128, smaller(0, scopes.low as i128)),
        high: times(number as i128, larger(0, scopes.high as i128)),
    }
}

/// The negated numbers of an interval.
pub fn negated(a: Bounds) -> Bounds
    ensures { result ≡ between (neg_ℤ a.high) (neg_ℤ a.low) }
{
    Bounds {
        low: opposite(a.high),
        high: opposite(a.low),
    }
}

/// The sums of two numbers.
pub fn added(a: Bounds, b: Bounds) -> Bounds
    ensures { result ≡ between (a.low +ℤ b.low) (a.high +ℤ b.high) }
{
    Bounds {
        low: sum(a.low, b.low),
        high: sum(a.high, b.high),
    }
}

/// The differences of two numbers.
pub fn subtracted(a: Bounds, b: Bounds) -> Bounds
    ensures { result ≡ between (a.low +ℤ neg_ℤ b.high) (a.high +ℤ neg_ℤ b.low) }
{
    Bounds {
        low: difference(a.low, b.high),
        high: difference(a.high, b.low),
    }
}

/// From the least to the greatest of the four products of ends.
pub fn product(a: Bounds, b: Bounds) -> Bounds
    ensures { result ≡ product a b }
{
    let low = times(a.low, b.low);
    let left = times(a.low, b.high);
    let right = times(a.high, b.low);
    let high = times(a.high, b.high);
    Bounds {
        low: smaller(smaller(low, left), smaller(right, high)),
        high: larger(larger(low, left), larger(right, high)),
    }
}

/// From the smaller low end to the larger high end.
pub fn whole(a: Bounds, b: Bounds) -> Bounds
    ensures { result ≡ between (int_min a.low b.low) (int_max a.high b.high) }
{
    Bounds {
        low: clamped(smaller(a.low, b.low)),
        high: clamped(larger(a.high, b.high)),
    }
}
