//! How long a text may be, stated as a number.
#![tactic(auto)]

ghost use Rattle.std.specs.Prelude.{◌≡◌, nat_lt};
ghost use Rattle.text_limit.specs.Longest.{longest};

use model_reader::LIMIT;

/// A law: the limit of the reader is the length of the longest text that is read.
pub fn limit_is_the_longest()
    ensures { LIMIT ≡ longest }
{}

/// Whether a text of so many bytes is too long to be read.
pub fn is_too_long(length: usize) -> bool
    ensures { result ≡ nat_lt longest length }
{
    length > LIMIT
}
