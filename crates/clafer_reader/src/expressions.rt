//! A token where an operand or a variable comes.

ghost use Rattle.std.specs.Prelude.{◌≡◌, [], ◌∷◌, ◌++◌, nat_le, if◌then◌else◌, false, IfOk, Some, None};
ghost use Rattle.clf_tree.specs.declared.token.Word.TheVariants as w;
ghost use Rattle.clafer_grammar.specs.Machine as machine;
ghost use Rattle.clafer_grammar.specs.Trees as trees;
ghost use Rattle.clafer_grammar.specs.declared.machine.Frame.TheVariants as f;
ghost use Rattle.clafer_grammar.specs.declared.machine.Mode.TheVariants as m;

use crate::frames::{Frames, State, opened};
use crate::trees::{atom_tree, title};
use clafer_grammar::machine::{Frame, Mode};
use clafer_grammar::operators::{Prefix, counting_word, prefix_from, prefix_level};
use clf_base::{List, NoMemory, Span};
use clf_tree::{Sign, Title, Token, TokenKind, Word};
use std::alloc::Global;

/// An operator before its operand, where the operand that comes next may be one.
#[tactic(auto, unfolding(clafer_grammar::specs::Machine::prefixed))]
fn prefixed(frames: Frames, at: Span, op: Option<Prefix>) -> Result<Option<State>, NoMemory>
    ensures { IfOk result (λ next. next ≡ machine.prefixed frames at op) }
{
    match op {
        Some(op) => {
            if frames.least() <= prefix_level(op) {
                opened(frames, Frame::Unary(at, op))
            } else {
                Ok(None)
            }
        }
        None => Ok(None),
    }
}

/// An operand of one token that is no name, or an operator.
#[tactic(auto, unfolding(clafer_grammar::specs::Machine::atom))]
fn atom(alloc: Global, frames: Frames, token: &Token) -> Result<Option<State>, NoMemory>
    ensures { IfOk result (λ next. next ≡ machine.atom frames token.now.kind token.now.at (trees.atom_tree token.now.kind token.now.at)) }
{
    match atom_tree(alloc, &token.kind, token.at)? {
        Some(x) => Ok(Some((frames, Mode::Value(x, 14)))),
        None => prefixed(frames, token.at, prefix_from(&token.kind)),
    }
}

#[tactic(auto, unfolding(clafer_grammar::specs::Machine::disjoint_after))]
fn disjoint_after(alloc: Global, frames: Frames, at: Span, word: Option<Word>) -> Option<State>
    ensures { result ≡ machine.disjoint_after frames at word }
{
    match word {
        Some(word) => {
            if frames.least() == 0 {
                Some((frames, Mode::Names(at, word, true, List::new(alloc))))
            } else {
                None
            }
        }
        None => None,
    }
}

/// `disj` behind a word that counts, at the head of an expression.
#[tactic(auto, unfolding(clafer_grammar::specs::Machine::disjoint))]
fn disjoint(alloc: Global, mut frames: Frames) -> Option<State>
    ensures { result ≡ machine.disjoint frames }
{
    match frames.pop() {
        Some(Frame::Unary(at, op)) => disjoint_after(alloc, frames, at, counting_word(op)),
        Some(frame) => {
            drop(frame);
            None
        }
        None => None,
    }
}

/// A name as an operand.
fn named_operand(
    alloc: Global,
    frames: Frames,
    name: &List<u8>,
    at: Span,
) -> Result<Option<State>, NoMemory>
    ensures { IfOk result (λ next. next ≡ Some (frames, m.Named (trees.title name.now at))) }
{
    let name = title(alloc, name, at)?;
    Ok(Some((frames, Mode::Named(name))))
}

/// `if`, at the head of an expression.
fn conditional(frames: Frames, at: Span) -> Result<Option<State>, NoMemory>
    ensures { IfOk result (λ next. next ≡ (if nat_le (machine.least frames) 0 then Some (f.Condition at ∷ frames, m.Operand) else None)) }
{
    if frames.least() == 0 {
        opened(frames, Frame::Condition(at))
    } else {
        Ok(None)
    }
}

/// `all`, at the head of an expression.
fn universal(alloc: Global, frames: Frames, at: Span) -> Option<State>
    ensures { result ≡ (if nat_le (machine.least frames) 0 then Some (frames, m.Names at w.All false []) else None) }
{
    if frames.least() == 0 {
        Some((frames, Mode::Names(at, Word::All, false, List::new(alloc))))
    } else {
        None
    }
}

/// A token where an operand comes.
#[tactic(auto, unfolding(clafer_grammar::specs::Machine::operand))]
pub(crate) fn operand(
    alloc: Global,
    frames: Frames,
    token: &Token,
) -> Result<Option<State>, NoMemory>
    ensures { IfOk result (λ next. next ≡ machine.operand frames token.now.kind token.now.at) }
{
    match &token.kind {
        TokenKind::Name(name) => named_operand(alloc, frames, name, token.at),
        TokenKind::Sign(Sign::ParenOpen) => opened(frames, Frame::Paren),
        TokenKind::Word(Word::If) => conditional(frames, token.at),
        TokenKind::Word(Word::All) => Ok(universal(alloc, frames, token.at)),
        TokenKind::Word(Word::Disj) => Ok(disjoint(alloc, frames)),
        _ => atom(alloc, frames, token),
    }
}

/// One more variable of a quantifier.
fn with_variable(
    alloc: Global,
    frames: Frames,
    place: Span,
    word: Word,
    disj: bool,
    mut variables: List<Title>,
    name: &List<u8>,
    at: Span,
) -> Result<Option<State>, NoMemory>
    ensures { IfOk result (λ next. next ≡ Some (frames, m.Listed place word disj (variables ++ trees.title name.now at ∷ []))) }
{
    let name = title(alloc, name, at)?;
    variables.push(name)?;
    Ok(Some((frames, Mode::Listed(place, word, disj, variables))))
}

/// A token where a variable comes.
#[tactic(auto, unfolding(clafer_grammar::specs::Machine::names))]
pub(crate) fn names(
    alloc: Global,
    frames: Frames,
    place: Span,
    word: Word,
    disj: bool,
    variables: List<Title>,
    token: &Token,
) -> Result<Option<State>, NoMemory>
    ensures { IfOk result (λ next. next ≡ machine.names frames place word disj variables token.now.kind token.now.at) }
{
    match &token.kind {
        TokenKind::Name(name) => with_variable(
            alloc, frames, place, word, disj, variables, name, token.at,
        ),
        TokenKind::Word(Word::Disj) => {
            if !disj && variables.is_empty() {
                return Ok(Some((frames, Mode::Names(place, word, true, variables))));
            }
            Ok(None)
        }
        _ => Ok(None),
    }
}

/// A token behind a variable.
#[tactic(auto, unfolding(clafer_grammar::specs::Machine::listed))]
pub(crate) fn listed(
    frames: Frames,
    place: Span,
    word: Word,
    disj: bool,
    variables: List<Title>,
    kind: &TokenKind,
) -> Result<Option<State>, NoMemory>
    ensures { IfOk result (λ next. next ≡ machine.listed frames place word disj variables kind.now) }
{
    match kind {
        TokenKind::Sign(Sign::Semicolon) => {
            Ok(Some((frames, Mode::Names(place, word, disj, variables))))
        }
        TokenKind::Sign(Sign::Colon) => opened(frames, Frame::Range(place, word, disj, variables)),
        _ => Ok(None),
    }
}

/// A list of one title.
fn only(alloc: Global, name: Title) -> Result<List<Title>, NoMemory>
    ensures { IfOk result (λ list. list ≡ name ∷ []) }
{
    let mut list = List::new(alloc);
    list.push(name)?;
    Ok(list)
}

#[tactic(auto, unfolding(clafer_grammar::specs::Machine::variable_after))]
fn variable_after(
    alloc: Global,
    frames: Frames,
    place: Span,
    word: Option<Word>,
    name: Title,
    kind: &TokenKind,
) -> Result<Option<State>, NoMemory>
    ensures { IfOk result (λ next. next ≡ machine.variable_after frames place word name kind.now) }
{
    match word {
        Some(word) => {
            if frames.least() == 0 {
                let names = only(alloc, name)?;
                listed(frames, place, word, false, names, kind)
            } else {
                Ok(None)
            }
        }
        None => Ok(None),
    }
}

/// A name behind a word that counts, at the head of an expression, is the first variable.
#[tactic(auto, unfolding(clafer_grammar::specs::Machine::variable))]
pub(crate) fn variable(
    alloc: Global,
    mut frames: Frames,
    name: Title,
    kind: &TokenKind,
) -> Result<Option<State>, NoMemory>
    ensures { IfOk result (λ next. next ≡ machine.variable frames name kind.now) }
{
    match frames.pop() {
        Some(Frame::Unary(place, op)) => variable_after(
            alloc,
            frames,
            place,
            counting_word(op),
            name,
            kind,
        ),
        Some(frame) => {
            drop(frame);
            Ok(None)
        }
        None => Ok(None),
    }
}
