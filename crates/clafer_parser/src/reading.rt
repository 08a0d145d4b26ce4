//! Reads laid tokens as a module, or names the first place at which one is refused.

ghost use Rattle.std.specs.Prelude.{◌≡◌, ◌≤◌, true, false, IfOk, IfErr, IfSome, Some, List as Seq};
ghost use Rattle.clafer_grammar.specs.Modules.{SpellsModule};
ghost use Rattle.clafer_grammar.specs.Symbols.{symbol, symbols};
ghost use Rattle.clafer_grammar.specs.declared.machine.Frame.{Frame};
ghost use Rattle.clafer_grammar.specs.declared.machine.Mode.TheVariants as m;
ghost use Rattle.clf_base.specs.declared.fault.Fault.TheVariants as fault;
ghost use Rattle.clf_base.specs.declared.fault.Span.{Span};
ghost use Rattle.clf_tree.specs.declared.module.Item.{Item};
ghost use Rattle.clafer_parser.specs.Limits.{AreFine, IsEnded, IsFirstRefusal, WhenRefused, refusal};
ghost use Rattle.clafer_parser.specs.Limits as spec;
ghost use Rattle.clafer_parser.specs.Progress.{Advances, IsDone, Moves, Stops, reader};
ghost use Rattle.clafer_parser.specs.declared.reading.Progress.TheVariants as p;
ghost use Rattle.clafer_grammar.specs.Machine.{State as Reached};

use crate::limits::{depth_after, is_left_out, over, since_after};
use clafer_grammar::laws::states_are_exact;
use clafer_grammar::machine::Mode;
use clafer_reader::{State, start, step};
use clf_base::{Fault, List, NoMemory, Refusal, Span};
use clf_tree::{Item, Module, Token};
use std::alloc::Global;

/// How far a module goes on with the tokens.
#[derive(Drop)]
pub(crate) enum Progress {
    /// Some module begins with all, and this is the state behind them.
    Going(State),
    /// None goes on at a token of this place. One behind it at the same place may have a stronger reason to be refused.
    Stuck(Span),
}

/// What is known behind some tokens, with the brackets and blocks that are open, and the tokens behind the last mark.
#[derive(Drop)]
pub(crate) struct Reader {
    progress: Progress,
    depth: u32,
    since: u32,
}

/// A refusal.
fn refused(code: u16, at: Span, value: u64) -> Fault
    ensures { result ≡ fault.Refused (refusal code at value) }
{
    Fault::Refused(Refusal { code, at, value })
}

/// Whether two places are one.
fn is_same(some: Span, other: Span) -> bool
    ensures same { result ≡ true → some ≡ other }
    ensures other { result ≡ false → some ≡ other → ⊥ }
{
    some.line == other.line && some.column == other.column
}

/// With the token a module goes on from the state, or none does.
fn moved(alloc: Global, state: State, token: &Token) -> Result<Progress, NoMemory>
    ensures { IfOk result (λ next. Moves (p.Going state) (symbol token.now) next) }
{
    let next = step(alloc, state, token)?;
    match next {
        Some(state) => Ok(Progress::Going(state)),
        None => Ok(Progress::Stuck(token.at)),
    }
}

/// The reader with this progress behind one more token.
fn counted(progress: Progress, depth: u32, since: u32, token: &Token) -> Reader
    requires depth { depth ≤ 64 }
    requires since { since ≤ 1000 }
    ensures { result ≡ reader progress (spec.depth_after depth (symbol token.now)) (spec.since_after since (symbol token.now)) }
{
    Reader {
        progress,
        depth: depth_after(depth, token),
        since: since_after(since, token),
    }
}

/// The reader behind a token with which modules may go on.
fn go_on(
    alloc: Global,
    state: State,
    depth: u32,
    since: u32,
    token: &Token,
) -> Result<Reader, Fault>
    requires depth { depth ≤ 64 }
    requires since { since ≤ 1000 }
    ensures ok { IfOk result (λ next. Advances (reader (p.Going state) depth since) (symbol token.now) next) }
    ensures err { IfErr result (λ fault. WhenRefused fault (Stops (reader (p.Going state) depth since) (symbol token.now))) }
{
    let limit = over(depth, since, &token.kind);
    if limit != 0 {
        drop(state);
        return Err(refused(41, token.at, limit));
    }
    let unused = is_left_out(&token.kind);
    if unused {
        drop(state);
        return Err(refused(42, token.at, 0));
    }
    let progress = moved(alloc, state, token)?;
    let next = counted(progress, depth, since, token);
    Ok(next)
}

/// The reader behind a token at the place of one at which no module goes on.
fn stay(depth: u32, since: u32, token: &Token) -> Result<Reader, Fault>
    requires depth { depth ≤ 64 }
    requires since { since ≤ 1000 }
    ensures ok { IfOk result (λ next. Advances (reader (p.Stuck token.now.at) depth since) (symbol token.now) next) }
    ensures err { IfErr result (λ fault. WhenRefused fault (Stops (reader (p.Stuck token.now.at) depth since) (symbol token.now))) }
{
    let limit = over(depth, since, &token.kind);
    if limit != 0 {
        return Err(refused(41, token.at, limit));
    }
    let unused = is_left_out(&token.kind);
    if unused {
        return Err(refused(42, token.at, 0));
    }
    let next = counted(Progress::Stuck(token.at), depth, since, token);
    Ok(next)
}

/// The reader behind a token after one at which no module goes on.
fn go_elsewhere(at: Span, depth: u32, since: u32, token: &Token) -> Result<Reader, Fault>
    requires depth { depth ≤ 64 }
    requires since { since ≤ 1000 }
    ensures ok { IfOk result (λ next. Advances (reader (p.Stuck at) depth since) (symbol token.now) next) }
    ensures err { IfErr result (λ fault. WhenRefused fault (Stops (reader (p.Stuck at) depth since) (symbol token.now))) }
{
    let same = is_same(at, token.at);
    if same {
        return stay(depth, since, token);
    }
    Err(refused(40, at, 0))
}

/// The reader behind a further token.
fn advance(alloc: Global, reader: Reader, token: &Token) -> Result<Reader, Fault>
    requires depth { reader.depth ≤ 64 }
    requires since { reader.since ≤ 1000 }
    ensures ok { IfOk result (λ next. Advances reader (symbol token.now) next) }
    ensures err { IfErr result (λ fault. WhenRefused fault (Stops reader (symbol token.now))) }
{
    let Reader {
        progress,
        depth,
        since,
    } = reader;
    match progress {
        Progress::Going(state) => go_on(alloc, state, depth, since, token),
        Progress::Stuck(at) => go_elsewhere(at, depth, since, token),
    }
}

/// The items of a state, where all are read.
fn whole(state: State) -> Option<List<Item>>
    ensures some { IfSome result (λ items. state.1 ≡ m.Done items) }
    ensures done { (items : Seq Item) → state.1 ≡ m.Done items → result ≡ Some items }
{
    let (frames, mode) = state;
    drop(frames);
    match mode {
        Mode::Done(items) => Some(items),
        other => {
            drop(other);
            None
        }
    }
}

/// The module of what is known behind the end.
fn module_of(progress: Progress) -> Result<Module, Fault>
    requires done { (state : Reached) → progress ≡ p.Going state → IsDone state.1 }
    ensures ok { IfOk result (λ read. (frames : Seq Frame) × (progress ≡ p.Going (frames, m.Done read.items))) }
    ensures err { IfErr result (λ refused. (at : Span) × (progress ≡ p.Stuck at) × (refused ≡ fault.Refused (refusal 40 at 0))) }
{
    match progress {
        Progress::Stuck(at) => Err(refused(40, at, 0)),
        Progress::Going(state) => match whole(state) {
            Some(items) => Ok(Module { items }),
            None => unreachable!(),
        },
    }
}

/// The module that laid tokens spell, or the refusal of the first place at which one is refused.
fn read(alloc: Global, tokens: &[Token]) -> Result<Module, Fault>
    requires ended { IsEnded tokens.now }
    ensures spelled { IfOk result (λ read. SpellsModule (symbols tokens.now) read.items) }
    ensures fine { IfOk result (λ read. AreFine (symbols tokens.now)) }
    ensures refused { IfErr result (λ fault. WhenRefused fault (IsFirstRefusal (symbols tokens.now))) }
{
    states_are_exact();
    let mut reader = Reader {
        progress: Progress::Going(start(alloc)),
        depth: 0,
        since: 0,
    };
    for token in tokens {
        reader = advance(alloc, reader, token)?;
    }
    module_of(reader.progress)
}

/// The module that laid tokens spell, or the refusal of the first place at which one is refused. The last token is the end.
///
/// A token is refused with code 41 where it opens the 65th bracket or block, and value 65, or is the 1,001st behind a mark,
/// and value 1001; with 42 where it is a word that models don't use; and with 40 where it is the first with which no module
/// goes on. Of several reasons at one place the first of these counts; a mark has the place of the token that caused it.
///
/// The time is linear in the tokens. No call and no drop of a tree goes deeper than the limits.
pub fn parse(alloc: Global, tokens: &List<Token>) -> Result<Module, Fault>
    requires ended { IsEnded tokens.now }
    ensures spelled { IfOk result (λ read. SpellsModule (symbols tokens.now) read.items) }
    ensures fine { IfOk result (λ read. AreFine (symbols tokens.now)) }
    ensures refused { IfErr result (λ fault. WhenRefused fault (IsFirstRefusal (symbols tokens.now))) }
{
    let slice = tokens.as_slice();
    read(alloc, slice)
}
