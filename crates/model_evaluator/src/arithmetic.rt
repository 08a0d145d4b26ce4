//! Integer operations, with results clamped to 127 bits.

ghost use Rattle.std.specs.Prelude.{◌≡◌, ◌+ℤ◌, ◌-ℤ◌, ◌*ℤ◌, neg_ℤ};
ghost use Rattle.clf_tree.specs.Intervals.{clamped};

const LEAST: i128 = -85070591730234615865843651857942052864;

const MOST: i128 = 85070591730234615865843651857942052863;

fn clamped(number: i128) -> i128
    ensures { result ≡ clamped number }
{
    if number < LEAST {
        LEAST
    } else if number > MOST {
        MOST
    } else {
        number
    }
}

pub fn sum(a: i128, b: i128) -> i128
    ensures { result ≡ clamped (a +ℤ b) }
{
    clamped(a.saturating_add(b))
}

pub fn difference(a: i128, b: i128) -> i128
    ensures { result ≡ clamped (a -ℤ b) }
{
    clamped(a.saturating_sub(b))
}

pub fn opposite(a: i128) -> i128
    ensures { result ≡ clamped (neg_ℤ a) }
{
    clamped(a.saturating_neg())
}

pub fn product(a: i128, b: i128) -> i128
    ensures { result ≡ clamped (a *ℤ b) }
{
    clamped(a.saturating_mul(b))
}
