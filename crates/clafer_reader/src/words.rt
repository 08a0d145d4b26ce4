//! What the words and signs of items mean.

ghost use Rattle.std.specs.Prelude.{◌≡◌, IfOk};
ghost use Rattle.clafer_grammar.specs.Declarations as grammar;
ghost use Rattle.clafer_grammar.specs.Modules as modules;

use crate::trees::title;
use clf_base::{NoMemory, Span};
use clf_tree::{Interval, Sign, Title, TokenKind, Word};
use std::alloc::Global;

/// The group that a word names.
pub(crate) fn group_of(kind: &TokenKind) -> Option<Interval>
    ensures { result ≡ grammar.group_of kind.now }
{
    let (low, high) = match kind {
        TokenKind::Word(Word::Xor) => (1, Some(1)),
        TokenKind::Word(Word::Or) => (1, None),
        TokenKind::Word(Word::Mux) => (0, Some(1)),
        TokenKind::Word(Word::Opt) => (0, None),
        _ => return None,
    };
    Some(Interval { low, high })
}

/// The upper bound behind `..`: a number, or `*` for any number.
pub(crate) fn bound_of(kind: &TokenKind) -> Option<Option<u32>>
    ensures { result ≡ grammar.bound_of kind.now }
{
    match kind {
        TokenKind::Number(high) => Some(Some(*high)),
        TokenKind::Sign(Sign::Star) => Some(None),
        _ => None,
    }
}

/// Whether an arrow is that of a bag; None for what is no arrow.
pub(crate) fn bag_of(kind: &TokenKind) -> Option<bool>
    ensures { result ≡ grammar.bag_of kind.now }
{
    match kind {
        TokenKind::Sign(Sign::Arrow) => Some(false),
        TokenKind::Sign(Sign::BagArrow) => Some(true),
        _ => None,
    }
}

/// What a reference goes to: the clafer of a name, or integers, which are `Some(None)`.
pub(crate) fn target_of(
    alloc: Global,
    kind: &TokenKind,
    at: Span,
) -> Result<Option<Option<Title>>, NoMemory>
    ensures { IfOk result (λ target. target ≡ grammar.target_of kind.now at) }
{
    match kind {
        TokenKind::Name(name) => {
            let name = title(alloc, name, at)?;
            Ok(Some(Some(name)))
        }
        TokenKind::Word(Word::Int) | TokenKind::Word(Word::Integer) => Ok(Some(None)),
        _ => Ok(None),
    }
}

/// The multiplicity that a sign names.
pub(crate) fn times_of(kind: &TokenKind) -> Option<Interval>
    ensures { result ≡ grammar.times_of kind.now }
{
    let (low, high) = match kind {
        TokenKind::Sign(Sign::Question) => (0, Some(1)),
        TokenKind::Sign(Sign::Star) => (0, None),
        TokenKind::Sign(Sign::Plus) => (1, None),
        _ => return None,
    };
    Some(Interval { low, high })
}

/// Whether a goal's word asks for the least value; None for what is no such word.
pub(crate) fn least_of(kind: &TokenKind) -> Option<bool>
    ensures { result ≡ modules.least_of kind.now }
{
    match kind {
        TokenKind::Word(Word::Min) | TokenKind::Word(Word::Minimize) => Some(true),
        TokenKind::Word(Word::Max) | TokenKind::Word(Word::Maximize) => Some(false),
        _ => None,
    }
}
