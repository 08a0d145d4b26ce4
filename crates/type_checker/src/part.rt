//! What is known of a part of an expression, and of an expression by its parts.

ghost use Rattle.std.specs.Prelude.{◌≡◌, Option};
ghost use Rattle.std.specs.Option.{option_or};
ghost use Rattle.clf_tree.specs.Kinds.{kind};
ghost use Rattle.type_checker.specs.Refusals.{misfit, first_of, where_none};

use crate::position::{Position, misfit};
use clf_base::{List, Refusal, Span};
use clf_tree::{Clafer, Kind};
use refusal_order::{refused, with_refusal};

/// The place of an expression, its kind, if it has one, and the first refusal in it.
#[derive(Drop)]
pub struct Part {
    pub at: Span,
    pub kind: Option<Kind>,
    pub refused: Option<Refusal>,
}

/// The first of two refusals that may be missing.
pub fn first_of(first: Option<Refusal>, second: Option<Refusal>) -> Option<Refusal>
    ensures { result ≡ first_of first second }
{
    match second {
        None => first,
        Some(refusal) => with_refusal(first, refusal),
    }
}

/// What is refused of a part as an operand: what is refused in it, and where that is nothing, that it doesn't fit.
pub fn operand(clafers: &List<Clafer>, position: Position, part: &Part) -> Option<Refusal>
    ensures { result ≡ option_or part.now.refused (misfit clafers.now position part.now.kind part.now.at) }
{
    match part.refused {
        Some(refusal) => Some(refusal),
        None => misfit(clafers, position, &part.kind, part.at),
    }
}

/// The same of two operands in one position.
pub fn operands(
    clafers: &List<Clafer>,
    position: Position,
    left: &Part,
    right: &Part,
) -> Option<Refusal>
    ensures { result ≡ first_of (option_or left.now.refused (misfit clafers.now position left.now.kind left.now.at)) (option_or right.now.refused (misfit clafers.now position right.now.kind right.now.at)) }
{
    first_of(
        operand(clafers, position, left),
        operand(clafers, position, right),
    )
}

/// What is refused of an expression whose operands are refused so, which is refused itself where it has no kind.
pub fn with_kind(
    operands: Option<Refusal>,
    kind: &Option<Kind>,
    code: u16,
    at: Span,
) -> Option<Refusal>
    ensures { result ≡ option_or operands (where_none kind.now code at) }
{
    match operands {
        Some(refusal) => Some(refusal),
        None => match kind {
            Some(_) => None,
            None => Some(refused(code, at, 0)),
        },
    }
}
