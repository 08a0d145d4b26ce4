//! A token in an enum, or behind the sign of a goal.

ghost use Rattle.std.specs.Prelude.{◌≡◌, [], ◌∷◌, ◌++◌, IfOk, Some};
ghost use Rattle.clafer_grammar.specs.Machine as machine;
ghost use Rattle.clafer_grammar.specs.Trees as trees;
ghost use Rattle.clafer_grammar.specs.declared.machine.Mode.TheVariants as m;
ghost use Rattle.clf_tree.specs.declared.module.Item.TheVariants as i;

use crate::frames::{Frames, State, opened};
use crate::items::item;
use crate::trees::title;
use clafer_grammar::machine::{Frame, Mode};
use clf_base::{List, NoMemory, Span};
use clf_tree::{Item, Sign, Title, Token, TokenKind};
use std::alloc::Global;

/// A token behind `enum`.
#[tactic(auto, unfolding(clafer_grammar::specs::Machine::enum_word))]
pub(crate) fn enum_word(
    alloc: Global,
    frames: Frames,
    items: List<Item>,
    place: Span,
    token: &Token,
) -> Result<Option<State>, NoMemory>
    ensures { IfOk result (λ next. next ≡ machine.enum_word frames items place token.now.kind token.now.at) }
{
    match &token.kind {
        TokenKind::Name(name) => {
            let name = title(alloc, name, token.at)?;
            Ok(Some((frames, Mode::EnumTitle(items, place, name))))
        }
        _ => Ok(None),
    }
}

/// A token behind an enum's name.
#[tactic(auto, unfolding(clafer_grammar::specs::Machine::enum_title))]
pub(crate) fn enum_title(
    alloc: Global,
    frames: Frames,
    items: List<Item>,
    place: Span,
    name: Title,
    kind: &TokenKind,
) -> Option<State>
    ensures { result ≡ machine.enum_title frames items place name kind.now }
{
    match kind {
        TokenKind::Sign(Sign::Equal) => {
            Some((frames, Mode::Member(items, place, name, List::new(alloc))))
        }
        _ => None,
    }
}

/// One more member of an enum.
fn with_member(
    alloc: Global,
    mut members: List<Title>,
    name: &List<u8>,
    at: Span,
) -> Result<List<Title>, NoMemory>
    ensures { IfOk result (λ all. all ≡ members ++ trees.title name.now at ∷ []) }
{
    let name = title(alloc, name, at)?;
    members.push(name)?;
    Ok(members)
}

/// A token where a member comes.
#[tactic(auto, unfolding(clafer_grammar::specs::Machine::member))]
pub(crate) fn member(
    alloc: Global,
    frames: Frames,
    items: List<Item>,
    place: Span,
    title: Title,
    members: List<Title>,
    token: &Token,
) -> Result<Option<State>, NoMemory>
    ensures { IfOk result (λ next. next ≡ machine.member frames items place title members token.now.kind token.now.at) }
{
    match &token.kind {
        TokenKind::Name(name) => {
            let members = with_member(alloc, members, name, token.at)?;
            Ok(Some((frames, Mode::Members(items, place, title, members))))
        }
        _ => Ok(None),
    }
}

/// The items with an enum behind them.
fn with_enum(
    mut items: List<Item>,
    at: Span,
    title: Title,
    members: List<Title>,
) -> Result<List<Item>, NoMemory>
    ensures { IfOk result (λ all. all ≡ items ++ i.Enum at title members ∷ []) }
{
    items.push(Item::Enum { at, title, members })?;
    Ok(items)
}

/// A token behind a member.
#[tactic(auto, unfolding(clafer_grammar::specs::Machine::more_members))]
pub(crate) fn more_members(
    alloc: Global,
    frames: Frames,
    items: List<Item>,
    place: Span,
    title: Title,
    members: List<Title>,
    token: &Token,
) -> Result<Option<State>, NoMemory>
    ensures { IfOk result (λ next. next ≡ machine.more_members frames items place title members token.now.kind token.now.at) }
{
    match token.kind {
        TokenKind::Sign(Sign::Bar) => {
            Ok(Some((frames, Mode::Member(items, place, title, members))))
        }
        _ => {
            let items = with_enum(items, place, title, members)?;
            item(alloc, frames, items, token)
        }
    }
}

/// The word of a goal.
#[tactic(auto, unfolding(clafer_grammar::specs::Machine::goal_word))]
pub(crate) fn goal_word(
    frames: Frames,
    items: List<Item>,
    place: Span,
    least: Option<bool>,
) -> Result<Option<State>, NoMemory>
    ensures { IfOk result (λ next. next ≡ machine.goal_word frames items place least) }
{
    match least {
        Some(least) => opened(frames, Frame::Goal(items, place, least)),
        None => Ok(None),
    }
}
