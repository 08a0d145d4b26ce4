//! The bits of an integer.

ghost use Rattle.std.specs.Prelude.{◌≡◌, ◌+ℤ◌, ◌*ℤ◌, ◌<◌, not, pos, true, IfSome, OnOk};
ghost use Rattle.std.specs.List.{list_all};
ghost use Rattle.integer_bits.specs.Numbers.{bit, integer_of, FitsBits};
ghost use Rattle.set_bits.specs.Showing.{is_value};
ghost use Rattle.instance_decoder.specs.Packing.{Adds};

use clf_base::{List, NoMemory};

// The lowest bit of a number, and the number without it.
fn halve(value: i64) -> (bool, i64)
    ensures { value ≡ pos (bit result.0) +ℤ pos 2 *ℤ result.1 }
{
    let half = value.div_euclid(2);
    let odd = value.rem_euclid(2) == 1;
    (odd, half)
}

// So many false bits.
fn push_false(count: usize, bits: &mut List<bool>) -> Result<(), NoMemory>
    ensures { OnOk result (Adds bits.old bits.new count (λ bs. list_all not bs ≡ true)) }
{
    for _at in 0..count {
        bits.push(false)?;
    }
    Ok(())
}

// The bits of an integer in two's complement, the lowest first.
fn push_spelled(value: i64, count: usize, bits: &mut List<bool>) -> Result<(), NoMemory>
    requires some { 0 < count }
    requires fits { FitsBits count value }
    ensures { OnOk result (Adds bits.old bits.new count (λ bs. integer_of bs ≡ value)) }
{
    let mut rest = value;
    for _at in 0..count - 1 {
        let (odd, half) = halve(rest);
        bits.push(odd)?;
        rest = half;
    }
    bits.push(rest < 0)?;
    Ok(())
}

/// The bits of an integer, or so many false bits.
pub(crate) fn push_integer(
    integer: Option<i64>,
    count: usize,
    bits: &mut List<bool>,
) -> Result<(), NoMemory>
    requires some { 0 < count }
    requires fits { IfSome integer (FitsBits count) }
    ensures { OnOk result (Adds bits.old bits.new count (λ bs. is_value integer bs ≡ true)) }
{
    match integer {
        Some(value) => push_spelled(value, count, bits),
        None => push_false(count, bits),
    }
}
