//! A token behind an expression: it goes on with it, or ends it.

ghost use Rattle.std.specs.Prelude.{◌≡◌, [], ◌∷◌, ◌++◌, true, IfOk, Some};
ghost use Rattle.clafer_grammar.specs.Machine as machine;
ghost use Rattle.clafer_grammar.specs.Trees as trees;
ghost use Rattle.clafer_grammar.specs.declared.machine.Frame.TheVariants as f;
ghost use Rattle.clafer_grammar.specs.declared.machine.Mode.TheVariants as m;
ghost use Rattle.clafer_grammar.specs.Operators as operators;
ghost use Rattle.clafer_reader.specs.Reduction as spec;
ghost use Rattle.clf_tree.specs.declared.module.Item.TheVariants as i;

use crate::clafers::close_start;
use crate::expressions::operand;
use crate::frames::{Frames, State, opened};
use crate::trees::{if_tree, infix_tree, prefix_tree, quant_tree};
use clafer_grammar::machine::{Frame, Mode};
use clafer_grammar::operators::{Infix, Prefix, infix_from, infix_level, left_of, prefix_level};
use clf_base::{List, NoMemory, Span};
use clf_tree::{Expr, Item, Sign, Title, Token, TokenKind, Word};
use std::alloc::Global;

/// Whether an operator attaches to an expression of a level.
#[tactic(auto, unfolding(crate::specs::Reduction::attaches))]
fn attaches(frames: &Frames, level: u8, op: Option<Infix>) -> bool
    ensures { result ≡ spec.attaches frames.now level op }
{
    match op {
        Some(op) => frames.least() <= infix_level(op) && left_of(infix_level(op)) <= level,
        None => false,
    }
}

/// Whether a token goes on with an expression of a level.
#[tactic(auto, unfolding(crate::specs::Reduction::is_going_on))]
fn is_going_on(frames: &Frames, level: u8, kind: &TokenKind) -> bool
    ensures { result ≡ spec.is_going_on frames.now level kind.now }
{
    match kind {
        TokenKind::Sign(Sign::Dot) => frames.least() <= 13 && 13 <= level,
        _ => attaches(frames, level, infix_from(kind)),
    }
}

/// An operator behind its left operand.
fn with_left(mut frames: Frames, at: Span, op: Infix, left: Expr) -> Result<Option<State>, NoMemory>
    ensures { IfOk result (λ next. next ≡ Some (f.Binary at op left ∷ frames, machine.after_infix op)) }
{
    frames.push(Frame::Binary(at, op, left))?;
    match op {
        Infix::NotIn => Ok(Some((frames, Mode::In))),
        _ => Ok(Some((frames, Mode::Operand))),
    }
}

/// A token that goes on with an expression.
#[tactic(auto, unfolding(crate::specs::Reduction::is_going_on, crate::specs::Reduction::attaches, clafer_grammar::specs::Machine::goes_on, clafer_grammar::specs::Machine::with_infix))]
fn go_on(frames: Frames, x: Expr, level: u8, token: &Token) -> Result<Option<State>, NoMemory>
    requires { spec.is_going_on frames level token.now.kind ≡ true }
    ensures { IfOk result (λ next. next ≡ machine.goes_on frames x level token.now.kind token.now.at) }
{
    match token.kind {
        TokenKind::Sign(Sign::Dot) => Ok(Some((frames, Mode::Field(x)))),
        _ => match infix_from(&token.kind) {
            Some(op) => with_left(frames, token.at, op, x),
            None => {
                drop(x);
                Ok(None)
            }
        },
    }
}

#[tactic(auto, unfolding(clafer_grammar::specs::Machine::close_paren))]
fn close_paren(frames: Frames, x: Expr, kind: &TokenKind) -> Option<State>
    ensures { result ≡ machine.close_paren frames x kind.now }
{
    match kind {
        TokenKind::Sign(Sign::ParenClose) => Some((frames, Mode::Value(x, 14))),
        _ => {
            drop(x);
            None
        }
    }
}

#[tactic(auto, unfolding(clafer_grammar::specs::Machine::close_condition))]
fn close_condition(
    frames: Frames,
    place: Span,
    x: Expr,
    kind: &TokenKind,
) -> Result<Option<State>, NoMemory>
    ensures { IfOk result (λ next. next ≡ machine.close_condition frames place x kind.now) }
{
    match kind {
        TokenKind::Word(Word::Then) => opened(frames, Frame::Consequence(place, x)),
        _ => {
            drop(x);
            Ok(None)
        }
    }
}

#[tactic(auto, unfolding(clafer_grammar::specs::Machine::close_consequence))]
fn close_consequence(
    frames: Frames,
    place: Span,
    condition: Expr,
    x: Expr,
    kind: &TokenKind,
) -> Result<Option<State>, NoMemory>
    ensures { IfOk result (λ next. next ≡ machine.close_consequence frames place condition x kind.now) }
{
    match kind {
        TokenKind::Word(Word::Else) => opened(frames, Frame::Alternative(place, condition, x)),
        _ => {
            drop(condition);
            drop(x);
            Ok(None)
        }
    }
}

#[tactic(auto, unfolding(clafer_grammar::specs::Machine::close_range))]
fn close_range(
    frames: Frames,
    place: Span,
    word: Word,
    disj: bool,
    names: List<Title>,
    x: Expr,
    kind: &TokenKind,
) -> Result<Option<State>, NoMemory>
    ensures { IfOk result (λ next. next ≡ machine.close_range frames place word disj names x kind.now) }
{
    match kind {
        TokenKind::Sign(Sign::Bar) => opened(frames, Frame::Body(place, word, disj, names, x)),
        _ => {
            drop(x);
            Ok(None)
        }
    }
}

/// The items with one more.
fn with_item(mut items: List<Item>, item: Item) -> Result<List<Item>, NoMemory>
    ensures { IfOk result (λ all. all ≡ items ++ item ∷ []) }
{
    items.push(item)?;
    Ok(items)
}

/// A token behind an expression of a bracket, which is among the parts.
#[tactic(auto, unfolding(clafer_grammar::specs::Machine::close_bracket))]
fn close_bracket(
    alloc: Global,
    mut frames: Frames,
    before: List<Item>,
    at: Span,
    parts: List<Expr>,
    token: &Token,
) -> Result<Option<State>, NoMemory>
    ensures { IfOk result (λ next. next ≡ machine.close_bracket frames before at parts token.now.kind token.now.at) }
{
    match token.kind {
        TokenKind::Sign(Sign::BracketClose) => {
            let items = with_item(before, Item::Constraint { at, parts })?;
            Ok(Some((frames, Mode::Items(items))))
        }
        TokenKind::Sign(Sign::Minus) => Ok(None),
        _ => {
            frames.push(Frame::Bracket(before, at, parts))?;
            operand(alloc, frames, token)
        }
    }
}

/// A token behind an expression of a bracket.
fn enclose(
    alloc: Global,
    frames: Frames,
    before: List<Item>,
    at: Span,
    mut parts: List<Expr>,
    x: Expr,
    token: &Token,
) -> Result<Option<State>, NoMemory>
    ensures { IfOk result (λ next. next ≡ machine.close_bracket frames before at (parts ++ x ∷ []) token.now.kind token.now.at) }
{
    parts.push(x)?;
    close_bracket(alloc, frames, before, at, parts, token)
}

#[tactic(auto, unfolding(clafer_grammar::specs::Machine::close_goal))]
fn close_goal(
    frames: Frames,
    before: List<Item>,
    at: Span,
    least: bool,
    body: Expr,
    kind: &TokenKind,
) -> Result<Option<State>, NoMemory>
    ensures { IfOk result (λ next. next ≡ machine.close_goal frames before at least body kind.now) }
{
    match kind {
        TokenKind::Sign(Sign::GoalClose) => {
            let items = with_item(before, Item::Goal { at, least, body })?;
            Ok(Some((frames, Mode::Items(items))))
        }
        _ => {
            drop(body);
            Ok(None)
        }
    }
}

/// A token behind the last expression of a construct that ends with a token of its own.
#[tactic(auto, unfolding(crate::specs::Reduction::closed))]
fn closed(
    alloc: Global,
    frames: Frames,
    frame: Frame,
    x: Expr,
    token: &Token,
) -> Result<Option<State>, NoMemory>
    ensures { IfOk result (λ next. next ≡ spec.closed frames frame x token.now.kind token.now.at) }
{
    match frame {
        Frame::Paren => Ok(close_paren(frames, x, &token.kind)),
        Frame::Condition(place) => close_condition(frames, place, x, &token.kind),
        Frame::Consequence(place, condition) => {
            close_consequence(frames, place, condition, x, &token.kind)
        }
        Frame::Range(place, word, disj, names) => {
            close_range(frames, place, word, disj, names, x, &token.kind)
        }
        Frame::Bracket(before, at, parts) => enclose(alloc, frames, before, at, parts, x, token),
        Frame::Goal(before, at, least) => close_goal(frames, before, at, least, x, &token.kind),
        Frame::Start(before, head, at) => close_start(alloc, frames, before, head, at, x, token),
        frame => {
            drop(frame);
            drop(x);
            Ok(None)
        }
    }
}

/// A token behind an operator with its right operand.
#[cycle(settling)]
fn after_infix(
    alloc: Global,
    frames: Frames,
    at: Span,
    op: Infix,
    left: Expr,
    right: Expr,
    token: &Token,
) -> Result<Option<State>, NoMemory>
    ensures { IfOk result (λ next. next ≡ machine.settle frames (trees.infix_tree op at left right) (operators.infix_level op) token.now.kind token.now.at) }
{
    let whole = infix_tree(alloc, op, at, left, right)?;
    settle(alloc, frames, whole, infix_level(op), token)
}

/// A token behind an operator with the operand behind it.
#[cycle(settling)]
fn after_prefix(
    alloc: Global,
    frames: Frames,
    at: Span,
    op: Prefix,
    of: Expr,
    token: &Token,
) -> Result<Option<State>, NoMemory>
    ensures { IfOk result (λ next. next ≡ machine.settle frames (trees.prefix_tree op at of) (operators.prefix_level op) token.now.kind token.now.at) }
{
    let whole = prefix_tree(alloc, op, at, of)?;
    settle(alloc, frames, whole, prefix_level(op), token)
}

/// A token behind a choice with its last branch.
#[cycle(settling)]
fn after_choice(
    alloc: Global,
    frames: Frames,
    at: Span,
    condition: Expr,
    yes: Expr,
    no: Expr,
    token: &Token,
) -> Result<Option<State>, NoMemory>
    ensures { IfOk result (λ next. next ≡ machine.settle frames (trees.if_tree at condition yes no) 0 token.now.kind token.now.at) }
{
    let whole = if_tree(alloc, at, condition, yes, no)?;
    settle(alloc, frames, whole, 0, token)
}

/// A token behind a quantifier with its body.
#[cycle(settling)]
fn after_quantifier(
    alloc: Global,
    frames: Frames,
    at: Span,
    word: Word,
    disj: bool,
    names: List<Title>,
    over: Expr,
    body: Expr,
    token: &Token,
) -> Result<Option<State>, NoMemory>
    ensures { IfOk result (λ next. next ≡ machine.settle frames (trees.quant_tree at word disj names over body) 0 token.now.kind token.now.at) }
{
    let whole = quant_tree(alloc, at, word, disj, names, over, body)?;
    settle(alloc, frames, whole, 0, token)
}

/// The expression ends before the token, and with it each construct that it ends, of which this is the innermost.
#[cycle(settling)]
#[tactic(auto, unfolding(clafer_grammar::specs::Machine::reduce, crate::specs::Reduction::closed))]
fn reduce(
    alloc: Global,
    frames: Frames,
    frame: Frame,
    x: Expr,
    token: &Token,
) -> Result<Option<State>, NoMemory>
    ensures { IfOk result (λ next. next ≡ machine.reduce (frame ∷ frames) x 0 token.now.kind token.now.at) }
{
    match frame {
        Frame::Binary(at, op, left) => after_infix(alloc, frames, at, op, left, x, token),
        Frame::Unary(at, op) => after_prefix(alloc, frames, at, op, x, token),
        Frame::Alternative(at, condition, yes) => {
            after_choice(alloc, frames, at, condition, yes, x, token)
        }
        Frame::Body(at, word, disj, names, over) => {
            after_quantifier(alloc, frames, at, word, disj, names, over, x, token)
        }
        frame => closed(alloc, frames, frame, x, token),
    }
}

/// The expression ends before the token.
#[cycle(settling)]
#[tactic(auto, unfolding(clafer_grammar::specs::Machine::reduce))]
fn end(alloc: Global, mut frames: Frames, x: Expr, token: &Token) -> Result<Option<State>, NoMemory>
    ensures { IfOk result (λ next. next ≡ machine.reduce frames x 0 token.now.kind token.now.at) }
{
    match frames.pop() {
        Some(frame) => reduce(alloc, frames, frame, x, token),
        None => {
            drop(x);
            Ok(None)
        }
    }
}

/// A token behind an expression of a level.
#[cycle(settling)]
pub(crate) fn settle(
    alloc: Global,
    frames: Frames,
    x: Expr,
    level: u8,
    token: &Token,
) -> Result<Option<State>, NoMemory>
    ensures { IfOk result (λ next. next ≡ machine.settle frames x level token.now.kind token.now.at) }
{
    if is_going_on(&frames, level, &token.kind) {
        return go_on(frames, x, level, token);
    }
    end(alloc, frames, x, token)
}
