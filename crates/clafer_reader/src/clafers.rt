//! A token in the head of a clafer, or behind it.

ghost use Rattle.std.specs.Prelude.{◌≡◌, [], ◌∷◌, ◌++◌, IfOk, Ok, Some, None};
ghost use Rattle.clafer_grammar.specs.Machine as machine;
ghost use Rattle.clafer_grammar.specs.Declarations as grammar;
ghost use Rattle.clafer_grammar.specs.Trees as trees;
ghost use Rattle.clafer_grammar.specs.declared.heads.Front.TheVariants as front;
ghost use Rattle.clafer_grammar.specs.declared.machine.Mode.TheVariants as m;
ghost use Rattle.clafer_grammar.specs.declared.heads.Stage.TheVariants as stage;

use crate::frames::{Frames, State, opened};
use crate::items::{block, grouped, head_of, item, with_clafer};
use crate::trees::title;
use crate::words::{bag_of, bound_of, group_of, target_of, times_of};
use clafer_grammar::heads::{Front, Head, Lead, Stage};
use clafer_grammar::machine::{Frame, Mode};
use clf_base::{List, NoMemory, Span};
use clf_tree::{Expr, Interval, Item, Pointer, Sign, Start, Title, Token, TokenKind, Word};
use std::alloc::Global;

/// What stands before a clafer's name, read further.
fn further(frames: Frames, items: List<Item>, lead: Lead, front: Front) -> State
    ensures { result ≡ (frames, m.Lead items (record lead { front = front })) }
{
    (
        frames,
        Mode::Lead(
            items,
            Lead {
                at: lead.at,
                is_abstract: lead.is_abstract,
                front,
            },
        ),
    )
}

/// The upper bound of a group.
#[tactic(auto, unfolding(clafer_grammar::specs::Machine::bounded))]
fn bounded(
    frames: Frames,
    items: List<Item>,
    lead: Lead,
    low: u32,
    high: Option<Option<u32>>,
) -> Option<State>
    ensures { result ≡ machine.bounded frames items lead low high }
{
    match high {
        Some(high) => Some(further(frames, items, lead, Front::Grouped(Interval { low, high }))),
        None => None,
    }
}

/// A clafer's name behind what stands before it.
fn titled(
    alloc: Global,
    frames: Frames,
    items: List<Item>,
    lead: Lead,
    group: Option<Interval>,
    name: &List<u8>,
    at: Span,
) -> Result<Option<State>, NoMemory>
    ensures { IfOk result (λ next. next ≡ Some (frames, m.Head items (machine.titled lead group (trees.title name.now at)) stage.Titled)) }
{
    let name = title(alloc, name, at)?;
    let head = head_of(lead.at, lead.is_abstract, group, name);
    Ok(Some((frames, Mode::Head(items, head, Stage::Titled))))
}

/// A token behind `abstract`.
#[tactic(auto, unfolding(clafer_grammar::specs::Machine::lead_at))]
fn after_abstract(
    alloc: Global,
    frames: Frames,
    items: List<Item>,
    lead: Lead,
    token: &Token,
) -> Result<Option<State>, NoMemory>
    ensures { IfOk result (λ next. next ≡ machine.lead_at frames items lead front.Abstract token.now.kind token.now.at) }
{
    match &token.kind {
        TokenKind::Name(name) => titled(alloc, frames, items, lead, None, name, token.at),
        TokenKind::Number(low) => Ok(Some(further(frames, items, lead, Front::Low(*low)))),
        kind => Ok(grouped(frames, items, lead.at, lead.is_abstract, group_of(kind))),
    }
}

/// A token before a clafer's name.
#[tactic(auto, unfolding(clafer_grammar::specs::Machine::lead_at))]
pub(crate) fn lead_at(
    alloc: Global,
    frames: Frames,
    items: List<Item>,
    lead: Lead,
    token: &Token,
) -> Result<Option<State>, NoMemory>
    ensures { IfOk result (λ next. next ≡ machine.lead_at frames items lead lead.front token.now.kind token.now.at) }
{
    match lead.front {
        Front::Abstract => after_abstract(alloc, frames, items, lead, token),
        Front::Low(low) => match token.kind {
            TokenKind::Sign(Sign::DotDot) => {
                Ok(Some(further(frames, items, lead, Front::Dots(low))))
            }
            _ => Ok(None),
        },
        Front::Dots(low) => Ok(bounded(frames, items, lead, low, bound_of(&token.kind))),
        Front::Grouped(group) => match &token.kind {
            TokenKind::Name(name) => {
                titled(alloc, frames, items, lead, Some(group), name, token.at)
            }
            _ => Ok(None),
        },
    }
}

/// A token behind a whole head.
#[tactic(auto, unfolding(clafer_grammar::specs::Machine::tail))]
fn tail(
    alloc: Global,
    frames: Frames,
    items: List<Item>,
    head: Head,
    token: &Token,
) -> Result<Option<State>, NoMemory>
    ensures { IfOk result (λ next. next ≡ machine.tail frames items head token.now.kind token.now.at) }
{
    match token.kind {
        TokenKind::Sign(Sign::Equal) => opened(frames, Frame::Start(items, head, token.at)),
        TokenKind::Open => block(alloc, frames, items, head, None),
        _ => {
            let items = with_clafer(alloc, items, head, None, List::new(alloc))?;
            item(alloc, frames, items, token)
        }
    }
}

/// The state behind a part of a head.
fn headed(
    frames: Frames,
    items: List<Item>,
    head: Head,
    stage: Stage,
) -> Result<Option<State>, NoMemory>
    ensures { result ≡ Ok (Some (frames, m.Head items head stage)) }
{
    Ok(Some((frames, Mode::Head(items, head, stage))))
}

/// A multiplicity.
fn with_times(
    frames: Frames,
    items: List<Item>,
    mut head: Head,
    times: Interval,
    stage: Stage,
) -> Result<Option<State>, NoMemory>
    ensures { result ≡ Ok (Some (frames, m.Head items (record head { times = Some times }) stage)) }
{
    head.times = Some(times);
    headed(frames, items, head, stage)
}

/// A multiplicity, or what comes behind it.
#[tactic(auto, unfolding(clafer_grammar::specs::Machine::times, clafer_grammar::specs::Machine::with_times))]
fn times(
    alloc: Global,
    frames: Frames,
    items: List<Item>,
    head: Head,
    token: &Token,
) -> Result<Option<State>, NoMemory>
    ensures { IfOk result (λ next. next ≡ machine.times frames items head token.now.kind token.now.at) }
{
    if let TokenKind::Number(count) = token.kind {
        let exactly = Interval {
            low: count,
            high: Some(count),
        };
        return with_times(frames, items, head, exactly, Stage::Low(count));
    }
    match times_of(&token.kind) {
        Some(found) => with_times(frames, items, head, found, Stage::Times),
        None => tail(alloc, frames, items, head, token),
    }
}

/// A token behind a number that is the multiplicity or its low bound.
#[tactic(auto, unfolding(clafer_grammar::specs::Machine::low_times))]
fn low_times(
    alloc: Global,
    frames: Frames,
    items: List<Item>,
    head: Head,
    low: u32,
    token: &Token,
) -> Result<Option<State>, NoMemory>
    ensures { IfOk result (λ next. next ≡ machine.low_times frames items head low token.now.kind token.now.at) }
{
    match token.kind {
        TokenKind::Sign(Sign::DotDot) => headed(frames, items, head, Stage::Dots(low)),
        _ => tail(alloc, frames, items, head, token),
    }
}

/// The upper bound of a multiplicity.
#[tactic(auto, unfolding(clafer_grammar::specs::Machine::high_times))]
fn high_times(
    frames: Frames,
    items: List<Item>,
    head: Head,
    low: u32,
    high: Option<Option<u32>>,
) -> Result<Option<State>, NoMemory>
    ensures { IfOk result (λ next. next ≡ machine.high_times frames items head low high) }
{
    match high {
        Some(high) => with_times(frames, items, head, Interval { low, high }, Stage::Times),
        None => Ok(None),
    }
}

/// A reference, or what comes behind it.
#[tactic(auto, unfolding(clafer_grammar::specs::Machine::with_arrow))]
fn refers(
    alloc: Global,
    frames: Frames,
    items: List<Item>,
    head: Head,
    token: &Token,
) -> Result<Option<State>, NoMemory>
    ensures { IfOk result (λ next. next ≡ machine.refers frames items head token.now.kind token.now.at) }
{
    match bag_of(&token.kind) {
        Some(bag) => headed(frames, items, head, Stage::Arrow(token.at, bag)),
        None => times(alloc, frames, items, head, token),
    }
}

/// The super of a clafer.
#[tactic(auto, unfolding(clafer_grammar::specs::Machine::head_at))]
fn after_colon(
    alloc: Global,
    frames: Frames,
    items: List<Item>,
    mut head: Head,
    token: &Token,
) -> Result<Option<State>, NoMemory>
    ensures { IfOk result (λ next. next ≡ machine.head_at frames items head stage.Colon token.now.kind token.now.at) }
{
    match &token.kind {
        TokenKind::Name(name) => {
            let name = title(alloc, name, token.at)?;
            head.above = Some(name);
            headed(frames, items, head, Stage::Above)
        }
        _ => Ok(None),
    }
}

#[tactic(auto, unfolding(clafer_grammar::specs::Machine::targeted))]
fn targeted(
    frames: Frames,
    items: List<Item>,
    mut head: Head,
    at: Span,
    bag: bool,
    target: Option<Option<Title>>,
) -> Result<Option<State>, NoMemory>
    ensures { IfOk result (λ next. next ≡ machine.targeted frames items head at bag target) }
{
    match target {
        Some(to) => {
            head.reference = Some(Pointer { at, bag, to });
            headed(frames, items, head, Stage::Target)
        }
        None => Ok(None),
    }
}

/// The target of a reference whose arrow has this place.
fn after_arrow(
    alloc: Global,
    frames: Frames,
    items: List<Item>,
    head: Head,
    at: Span,
    bag: bool,
    token: &Token,
) -> Result<Option<State>, NoMemory>
    ensures { IfOk result (λ next. next ≡ machine.targeted frames items head at bag (grammar.target_of token.now.kind token.now.at)) }
{
    let target = target_of(alloc, &token.kind, token.at)?;
    targeted(frames, items, head, at, bag, target)
}

/// A token behind a clafer's name.
#[tactic(auto, unfolding(clafer_grammar::specs::Machine::head_at))]
fn after_title(
    alloc: Global,
    frames: Frames,
    items: List<Item>,
    head: Head,
    token: &Token,
) -> Result<Option<State>, NoMemory>
    ensures { IfOk result (λ next. next ≡ machine.head_at frames items head stage.Titled token.now.kind token.now.at) }
{
    match token.kind {
        TokenKind::Sign(Sign::Colon) => headed(frames, items, head, Stage::Colon),
        _ => refers(alloc, frames, items, head, token),
    }
}

/// A token behind a clafer's name and a part of its head.
#[tactic(auto, unfolding(clafer_grammar::specs::Machine::head_at))]
pub(crate) fn head_at(
    alloc: Global,
    frames: Frames,
    items: List<Item>,
    head: Head,
    stage: Stage,
    token: &Token,
) -> Result<Option<State>, NoMemory>
    ensures { IfOk result (λ next. next ≡ machine.head_at frames items head stage token.now.kind token.now.at) }
{
    match stage {
        Stage::Titled => after_title(alloc, frames, items, head, token),
        Stage::Colon => after_colon(alloc, frames, items, head, token),
        Stage::Above => refers(alloc, frames, items, head, token),
        Stage::Arrow(at, bag) => after_arrow(alloc, frames, items, head, at, bag, token),
        Stage::Target => times(alloc, frames, items, head, token),
        Stage::Low(low) => low_times(alloc, frames, items, head, low, token),
        Stage::Dots(low) => high_times(frames, items, head, low, bound_of(&token.kind)),
        Stage::Times => tail(alloc, frames, items, head, token),
    }
}

/// A clafer with its expression.
fn with_start(
    alloc: Global,
    items: List<Item>,
    head: Head,
    at: Span,
    body: Expr,
) -> Result<List<Item>, NoMemory>
    ensures { IfOk result (λ all. all ≡ items ++ trees.clafer head (trees.started at body) [] ∷ []) }
{
    with_clafer(
        alloc,
        items,
        head,
        Some(Start { at, body }),
        List::new(alloc),
    )
}

/// A token behind a clafer's expression.
#[tactic(auto, unfolding(clafer_grammar::specs::Machine::close_start))]
pub(crate) fn close_start(
    alloc: Global,
    frames: Frames,
    items: List<Item>,
    head: Head,
    at: Span,
    body: Expr,
    token: &Token,
) -> Result<Option<State>, NoMemory>
    ensures { IfOk result (λ next. next ≡ machine.close_start frames items head at body token.now.kind token.now.at) }
{
    match token.kind {
        TokenKind::Open => block(alloc, frames, items, head, Some(Start { at, body })),
        TokenKind::Word(Word::Xor) => Ok(None),
        _ => {
            let items = with_start(alloc, items, head, at, body)?;
            item(alloc, frames, items, token)
        }
    }
}
