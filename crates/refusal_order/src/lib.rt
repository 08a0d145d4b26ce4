//! Which of several refusals of a stage is the one that a text is refused by: the one at the earliest place, and at one place
//! the one of the smallest code.
#![tactic(auto)]

ghost use Rattle.std.specs.Prelude.{◌≡◌};
ghost use Rattle.refusal_order.specs.Order.{refused, is_before, with_refusal, FindsFirst};

use clf_base::{Refusal, Span};

/// A refusal with this code, place and value.
pub fn refused(code: u16, at: Span, value: u64) -> Refusal
    ensures { result ≡ refused code at value }
{
    Refusal { code, at, value }
}

/// Whether `a` stands at an earlier place than `b`, or at its place with a smaller code.
pub fn is_before(a: Refusal, b: Refusal) -> bool
    ensures { result ≡ is_before a b }
{
    a.at.line < b.at.line
        || (a.at.line == b.at.line
            && (a.at.column < b.at.column || (a.at.column == b.at.column && a.code < b.code)))
}

/// The first of the refusal that was found so far and one more.
pub fn with_refusal(first: Option<Refusal>, refusal: Refusal) -> Option<Refusal>
    ensures { result ≡ with_refusal first refusal }
{
    match first {
        None => Some(refusal),
        Some(found) => {
            if is_before(refusal, found) {
                Some(refusal)
            } else {
                Some(found)
            }
        }
    }
}

/// Going on from refusal to refusal finds the first of all.
pub fn finds_first()
    ensures { FindsFirst }
{}
