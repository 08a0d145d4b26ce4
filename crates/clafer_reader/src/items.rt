//! A token where an item comes, and the items that it ends.

ghost use Rattle.std.specs.Prelude.{◌≡◌, [], ◌∷◌, ◌++◌, true, false, IfOk, Some, None};
ghost use Rattle.clafer_grammar.specs.Machine as machine;
ghost use Rattle.clafer_grammar.specs.Declarations as grammar;
ghost use Rattle.clafer_grammar.specs.Trees as trees;
ghost use Rattle.clafer_grammar.specs.declared.machine.Frame.TheVariants as f;
ghost use Rattle.clafer_grammar.specs.declared.machine.Mode.TheVariants as m;
ghost use Rattle.clafer_grammar.specs.declared.heads.Stage.TheVariants as stage;

use crate::frames::{Frames, State, opened};
use crate::trees::title;
use crate::words::group_of;
use clafer_grammar::heads::{Front, Head, Lead, Stage};
use clafer_grammar::machine::{Frame, Mode};
use clf_base::{List, NoMemory, Span};
use clf_tree::{Declared, Interval, Item, Sign, Start, Title, Token, TokenKind, Word};
use sqlite_items::Boxed;
use std::alloc::Global;

/// A clafer whose head, expression and block are whole.
fn clafer(
    alloc: Global,
    head: Head,
    start: Option<Start>,
    items: List<Item>,
) -> Result<Item, NoMemory>
    ensures { IfOk result (λ made. made ≡ trees.clafer head start items) }
{
    let Head {
        at,
        is_abstract,
        group,
        title,
        above,
        reference,
        times,
    } = head;
    let declared = Boxed::new(
        alloc,
        Declared {
            at,
            is_abstract,
            group,
            title,
            above,
            reference,
            times,
            start,
            items,
        },
    )?;
    Ok(Item::Clafer(declared))
}

/// The items with a clafer behind them.
pub(crate) fn with_clafer(
    alloc: Global,
    mut before: List<Item>,
    head: Head,
    start: Option<Start>,
    items: List<Item>,
) -> Result<List<Item>, NoMemory>
    ensures { IfOk result (λ all. all ≡ before ++ trees.clafer head start items ∷ []) }
{
    let made = clafer(alloc, head, start, items)?;
    before.push(made)?;
    Ok(before)
}

/// The state at the begin of a clafer's block.
pub(crate) fn block(
    alloc: Global,
    mut frames: Frames,
    before: List<Item>,
    head: Head,
    start: Option<Start>,
) -> Result<Option<State>, NoMemory>
    ensures { IfOk result (λ next. next ≡ Some (f.Block before head start ∷ frames, m.Items [])) }
{
    frames.push(Frame::Block(before, head, start))?;
    Ok(Some((frames, Mode::Items(List::new(alloc)))))
}

/// A block's end.
#[tactic(auto, unfolding(clafer_grammar::specs::Machine::close_block))]
fn close_block(
    alloc: Global,
    mut frames: Frames,
    inner: List<Item>,
) -> Result<Option<State>, NoMemory>
    ensures { IfOk result (λ next. next ≡ machine.close_block frames inner) }
{
    match frames.pop() {
        Some(Frame::Block(before, head, start)) => {
            let items = with_clafer(alloc, before, head, start, inner)?;
            Ok(Some((frames, Mode::Items(items))))
        }
        Some(frame) => {
            drop(frame);
            Ok(None)
        }
        None => Ok(None),
    }
}

/// The end of the text.
#[tactic(auto, unfolding(clafer_grammar::specs::Machine::finish))]
fn finish(mut frames: Frames, items: List<Item>) -> Option<State>
    ensures { result ≡ machine.finish frames items }
{
    match frames.pop() {
        None => Some((frames, Mode::Done(items))),
        Some(frame) => {
            drop(frame);
            None
        }
    }
}

/// A group before a clafer's name.
#[tactic(auto, unfolding(clafer_grammar::specs::Machine::grouped))]
pub(crate) fn grouped(
    frames: Frames,
    items: List<Item>,
    at: Span,
    is_abstract: bool,
    group: Option<Interval>,
) -> Option<State>
    ensures { result ≡ machine.grouped frames items at is_abstract group }
{
    match group {
        Some(group) => Some((
            frames,
            Mode::Lead(
                items,
                Lead {
                    at,
                    is_abstract,
                    front: Front::Grouped(group),
                },
            ),
        )),
        None => None,
    }
}

/// A clafer's head with its name, which nothing follows yet.
pub(crate) fn head_of(at: Span, is_abstract: bool, group: Option<Interval>, title: Title) -> Head
    ensures { result ≡ grammar.head at is_abstract group title None None None }
{
    Head {
        at,
        is_abstract,
        group,
        title,
        above: None,
        reference: None,
        times: None,
    }
}

/// A clafer that begins with its name.
fn named_clafer(
    alloc: Global,
    frames: Frames,
    items: List<Item>,
    name: &List<u8>,
    at: Span,
) -> Result<Option<State>, NoMemory>
    ensures { IfOk result (λ next. next ≡ Some (frames, m.Head items (grammar.head at false None (trees.title name.now at) None None None) stage.Titled)) }
{
    let name = title(alloc, name, at)?;
    Ok(Some((
        frames,
        Mode::Head(items, head_of(at, false, None, name), Stage::Titled),
    )))
}

/// What stands before a clafer's name, at its first token.
fn lead(frames: Frames, items: List<Item>, at: Span, is_abstract: bool, front: Front) -> State
    ensures { result ≡ (frames, m.Lead items (record { at = at; is_abstract = is_abstract; front = front })) }
{
    (
        frames,
        Mode::Lead(
            items,
            Lead {
                at,
                is_abstract,
                front,
            },
        ),
    )
}

/// A token where an item comes.
#[tactic(auto, unfolding(clafer_grammar::specs::Machine::item))]
pub(crate) fn item(
    alloc: Global,
    frames: Frames,
    items: List<Item>,
    token: &Token,
) -> Result<Option<State>, NoMemory>
    ensures { IfOk result (λ next. next ≡ machine.item frames items token.now.kind token.now.at) }
{
    match &token.kind {
        TokenKind::Word(Word::Abstract) => Ok(Some(lead(
            frames,
            items,
            token.at,
            true,
            Front::Abstract,
        ))),
        TokenKind::Number(low) => Ok(Some(lead(frames, items, token.at, false, Front::Low(*low)))),
        TokenKind::Name(name) => named_clafer(alloc, frames, items, name, token.at),
        TokenKind::Word(Word::Enum) => Ok(Some((frames, Mode::Enum(items, token.at)))),
        TokenKind::Sign(Sign::BracketOpen) => opened(
            frames,
            Frame::Bracket(items, token.at, List::new(alloc)),
        ),
        TokenKind::Sign(Sign::GoalOpen) => Ok(Some((frames, Mode::Goal(items, token.at)))),
        TokenKind::Next => Ok(Some((frames, Mode::Items(items)))),
        TokenKind::Close => close_block(alloc, frames, items),
        TokenKind::End => Ok(finish(frames, items)),
        kind => Ok(grouped(frames, items, token.at, false, group_of(kind))),
    }
}
