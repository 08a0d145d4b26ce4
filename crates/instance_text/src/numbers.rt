//! Numbers from their digits.

ghost use Rattle.std.specs.Prelude.{◌≡◌, ◌≤◌, length};
ghost use Rattle.std.specs.List.{prefix_len};
ghost use Rattle.std.specs.Char.{is_ascii_digit};
ghost use Rattle.instance_text.specs.Reading as spec;

/// How many digits a text begins with.
pub(crate) fn digits(text: &[u8]) -> usize
    ensures digits { result ≡ prefix_len is_ascii_digit text.now }
    ensures within { result ≤ length text.now }
{
    text.iter().take_while(|byte| byte.is_ascii_digit()).count()
}

/// The number that digits write, unless a byte is none or it grows too large.
#[tactic(auto, unfolding(crate::specs::Reading::number_after))]
pub(crate) fn number(text: &[u8]) -> Option<u64>
    ensures { result ≡ spec.number_after 0 text.now }
{
    let mut value: u64 = 0;
    for byte in text {
        if !byte.is_ascii_digit() || value >= 1 << 60 {
            return None;
        }
        value = value * 10 + (*byte - b'0') as u64;
    }
    Some(value)
}

#[tactic(auto, unfolding(crate::specs::Reading::negative))]
fn negative(number: u64) -> Option<i64>
    ensures { result ≡ spec.negative number }
{
    if number > 1 << 63 {
        return None;
    }
    Some((-(number as i128)) as i64)
}

#[tactic(auto, unfolding(crate::specs::Reading::positive))]
fn positive(number: u64) -> Option<i64>
    ensures { result ≡ spec.positive number }
{
    if number >= 1 << 63 {
        return None;
    }
    Some(number as i64)
}

/// The integer that digits write, with `-` before them where it is negative.
#[tactic(auto, unfolding(crate::specs::Reading::integer))]
pub(crate) fn integer(text: &[u8]) -> Option<i64>
    ensures { result ≡ spec.integer text.now }
{
    if !text.is_empty() && text[0] == b'-' {
        negative(number(&text[1..])?)
    } else {
        positive(number(text)?)
    }
}
