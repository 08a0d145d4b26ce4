//! The reader's step at a token.

ghost use Rattle.std.specs.Prelude.{◌≡◌, IfOk};
ghost use Rattle.clafer_grammar.specs.Machine as machine;
ghost use Rattle.clafer_grammar.specs.Trees as trees;
ghost use Rattle.clafer_grammar.specs.Symbols.{symbol};

use crate::clafers::{head_at, lead_at};
use crate::enums::{enum_title, enum_word, goal_word, member, more_members};
use crate::expressions::{listed, names, operand, variable};
use crate::frames::{Frames, State};
use crate::items::item;
use crate::reduction::settle;
use crate::trees::{field_tree, name_tree};
use crate::words::least_of;
use clafer_grammar::machine::Mode;
use clf_base::{List, NoMemory};
use clf_tree::{Expr, Sign, Title, Token, TokenKind, Word};
use std::alloc::Global;

/// A token behind a name as an operand.
#[tactic(auto, unfolding(clafer_grammar::specs::Machine::named))]
fn named(
    alloc: Global,
    frames: Frames,
    name: Title,
    token: &Token,
) -> Result<Option<State>, NoMemory>
    ensures { IfOk result (λ next. next ≡ machine.named frames name token.now.kind token.now.at) }
{
    match token.kind {
        TokenKind::Sign(Sign::Semicolon) | TokenKind::Sign(Sign::Colon) => {
            variable(alloc, frames, name, &token.kind)
        }
        _ => settle(alloc, frames, name_tree(name), 14, token),
    }
}

/// A token behind an expression and a dot.
#[tactic(auto, unfolding(clafer_grammar::specs::Machine::valued))]
fn field(alloc: Global, frames: Frames, of: Expr, token: &Token) -> Result<Option<State>, NoMemory>
    ensures { IfOk result (λ next. next ≡ machine.valued frames (trees.field_tree of token.now.kind token.now.at)) }
{
    match field_tree(alloc, of, &token.kind, token.at)? {
        Some(x) => Ok(Some((frames, Mode::Value(x, 13)))),
        None => Ok(None),
    }
}

/// The `in` of `not in`.
#[tactic(auto, unfolding(clafer_grammar::specs::Machine::not_in))]
fn not_in(frames: Frames, kind: &TokenKind) -> Option<State>
    ensures { result ≡ machine.not_in frames kind.now }
{
    match kind {
        TokenKind::Word(Word::In) => Some((frames, Mode::Operand)),
        _ => None,
    }
}

/// The state before the first token.
pub fn start(alloc: Global) -> State
    ensures { result ≡ machine.start }
{
    (Frames::new(alloc), Mode::Items(List::new(alloc)))
}

/// The state behind a further token; None where no module goes on with it.
///
/// Over a whole list of tokens the time is linear in it. No call goes deeper than the constructs that are open.
#[tactic(auto, unfolding(clafer_grammar::specs::Machine::step_at))]
pub fn step(alloc: Global, state: State, token: &Token) -> Result<Option<State>, NoMemory>
    ensures { IfOk result (λ next. next ≡ machine.step state (symbol token.now)) }
{
    let (frames, mode) = state;
    match mode {
        Mode::Items(items) => item(alloc, frames, items, token),
        Mode::Lead(items, lead) => lead_at(alloc, frames, items, lead, token),
        Mode::Head(items, head, stage) => head_at(alloc, frames, items, head, stage, token),
        Mode::Enum(items, at) => enum_word(alloc, frames, items, at, token),
        Mode::EnumTitle(items, at, title) => {
            Ok(enum_title(alloc, frames, items, at, title, &token.kind))
        }
        Mode::Member(items, at, title, members) => {
            member(alloc, frames, items, at, title, members, token)
        }
        Mode::Members(items, at, title, members) => {
            more_members(alloc, frames, items, at, title, members, token)
        }
        Mode::Goal(items, at) => goal_word(frames, items, at, least_of(&token.kind)),
        Mode::Operand => operand(alloc, frames, token),
        Mode::In => Ok(not_in(frames, &token.kind)),
        Mode::Names(at, word, disj, variables) => {
            names(alloc, frames, at, word, disj, variables, token)
        }
        Mode::Listed(at, word, disj, variables) => {
            listed(frames, at, word, disj, variables, &token.kind)
        }
        Mode::Named(name) => named(alloc, frames, name, token),
        Mode::Value(x, level) => settle(alloc, frames, x, level, token),
        Mode::Field(x) => field(alloc, frames, x, token),
        Mode::Done(items) => {
            drop(items);
            Ok(None)
        }
    }
}
