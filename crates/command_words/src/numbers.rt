//! Numbers in words.

ghost use Rattle.std.specs.Prelude.{◌≡◌, ◌≤◌, ◌<◌, ◌^◌, length, IsTrue, IfSome};
ghost use Rattle.std.specs.List.{list_all};
ghost use Rattle.std.specs.Char.{is_ascii_digit};
ghost use Rattle.command_words.specs.Words as spec;

/// The most digits of a number, so that it is below 10 to the power of 18.
pub const MOST_DIGITS: usize = 18;

/// The number that digits write.
fn value(digits: &[u8]) -> u64
    requires few { length digits.now ≤ MOST_DIGITS }
    requires digits { IsTrue (list_all is_ascii_digit digits.now) }
    ensures value { result ≡ spec.value_after 0 digits.now }
    ensures small { result < 10 ^ 18 }
{
    let mut value: u64 = 0;
    for digit in digits {
        value = value * 10 + (*digit - b'0') as u64;
    }
    value
}

fn are_digits(text: &[u8]) -> bool
    ensures { result ≡ list_all is_ascii_digit text.now }
{
    text.iter().all(|byte| byte.is_ascii_digit())
}

/// The number that 1 to 18 digits write.
#[tactic(auto, unfolding(crate::specs::Words::number))]
pub(crate) fn number(text: &[u8]) -> Option<u64>
    ensures value { result ≡ spec.number text.now }
    ensures small { IfSome result (λ n. n < 10 ^ 18) }
{
    if text.is_empty() || text.len() > MOST_DIGITS {
        return None;
    }
    if !are_digits(text) {
        return None;
    }
    Some(value(text))
}

/// The greatest budget.
const MOST_BUDGET: u64 = 1_000_000_000;

/// The budget that 1 to 18 digits write, from 1 to a thousand million.
#[tactic(auto, unfolding(crate::specs::Words::budget_of))]
pub(crate) fn budget(text: &[u8]) -> Option<u64>
    ensures value { result ≡ spec.budget_of text.now }
    ensures bounds { IfSome result spec.IsBudget }
{
    let value = number(text)?;
    if value >= 1 && value <= MOST_BUDGET {
        Some(value)
    } else {
        None
    }
}

/// The greatest number of a generated model.
const MOST_MODEL: u64 = 80;

/// The number of a generated model that 1 to 18 digits write, from 1 to 80.
#[tactic(auto, unfolding(crate::specs::Words::model_of))]
pub(crate) fn generated_model(text: &[u8]) -> Option<u32>
    ensures value { result ≡ spec.model_of text.now }
    ensures bounds { IfSome result spec.IsModel }
{
    let value = number(text)?;
    if value >= 1 && value <= MOST_MODEL {
        Some(value as u32)
    } else {
        None
    }
}

pub(crate) fn begins_with_dash(text: &[u8]) -> bool
    ensures { result ≡ spec.begins_with_dash text.now }
{
    !text.is_empty() && text[0] == b'-'
}

/// The integer that 1 to 18 digits write, with `-` before them where it is negative.
#[tactic(auto, unfolding(crate::specs::Words::integer))]
pub(crate) fn integer(text: &[u8]) -> Option<i64>
    ensures { result ≡ spec.integer text.now }
{
    if begins_with_dash(text) {
        let value = number(&text[1..])?;
        Some(-(value as i64))
    } else {
        let value = number(text)?;
        Some(value as i64)
    }
}
