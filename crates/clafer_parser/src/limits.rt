//! The limits on open brackets and blocks, and on tokens between two marks.

ghost use Rattle.std.specs.Prelude.{◌≡◌, ◌≤◌};
ghost use Rattle.clafer_grammar.specs.Symbols.{symbol};
ghost use Rattle.clafer_parser.specs.Limits as spec;

use clf_tree::{Sign, Token, TokenKind, Word};

fn opens(kind: &TokenKind) -> bool
    ensures { result ≡ spec.opens kind.now }
{
    match kind {
        TokenKind::Open
        | TokenKind::Sign(Sign::BracketOpen)
        | TokenKind::Sign(Sign::ParenOpen)
        | TokenKind::Sign(Sign::GoalOpen) => true,
        _ => false,
    }
}

fn closes(kind: &TokenKind) -> bool
    ensures { result ≡ spec.closes kind.now }
{
    match kind {
        TokenKind::Close
        | TokenKind::Sign(Sign::BracketClose)
        | TokenKind::Sign(Sign::ParenClose)
        | TokenKind::Sign(Sign::GoalClose) => true,
        _ => false,
    }
}

fn is_mark(kind: &TokenKind) -> bool
    ensures { result ≡ spec.is_mark kind.now }
{
    match kind {
        TokenKind::Open
        | TokenKind::Close
        | TokenKind::Next
        | TokenKind::Sign(Sign::BracketOpen)
        | TokenKind::Sign(Sign::BracketClose)
        | TokenKind::Sign(Sign::GoalOpen)
        | TokenKind::Sign(Sign::GoalClose) => true,
        _ => false,
    }
}

fn is_end(kind: &TokenKind) -> bool
    ensures { result ≡ spec.is_end kind.now }
{
    match kind {
        TokenKind::End => true,
        _ => false,
    }
}

/// Whether it is a word of the language that models don't use.
pub(crate) fn is_left_out(kind: &TokenKind) -> bool
    ensures { result ≡ spec.is_left_out kind.now }
{
    match kind {
        TokenKind::Word(Word::Assert)
        | TokenKind::Word(Word::Clafer)
        | TokenKind::Word(Word::Double)
        | TokenKind::Word(Word::Product)
        | TokenKind::Word(Word::Real)
        | TokenKind::Word(Word::String) => true,
        _ => false,
    }
}

/// The value of the limit that a token goes over, or 0: 65 where it opens the 65th bracket or block, else 1001 where it is
/// the 1,001st token behind a mark.
pub(crate) fn over(depth: u32, since: u32, kind: &TokenKind) -> u64
    ensures { result ≡ spec.over depth since kind.now }
{
    if opens(kind) && depth == 64 {
        65
    } else if !is_mark(kind) && !is_end(kind) && since == 1000 {
        1001
    } else {
        0
    }
}

/// How many brackets and blocks are open behind a token.
pub(crate) fn depth_after(depth: u32, token: &Token) -> u32
    requires { depth ≤ 64 }
    ensures { result ≡ spec.depth_after depth (symbol token.now) }
{
    if opens(&token.kind) {
        depth + 1
    } else if closes(&token.kind) {
        depth.saturating_sub(1)
    } else {
        depth
    }
}

/// How many tokens stand behind the last mark, behind a token.
pub(crate) fn since_after(since: u32, token: &Token) -> u32
    requires { since ≤ 1000 }
    ensures { result ≡ spec.since_after since (symbol token.now) }
{
    if is_mark(&token.kind) {
        0
    } else if is_end(&token.kind) {
        since
    } else {
        since + 1
    }
}
