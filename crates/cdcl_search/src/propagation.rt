//! Unit propagation: what the clauses force, until nothing follows.
ghost use Rattle.std.specs.Prelude.{ℕ, ◌≡◌, ◌≢◌, ◌+◌, ◌*◌, ◌/◌, ◌<◌, ◌≤◌, ◌⊎◌, [], length, get_or, IfOk, IfErr, MatchOption};
ghost use Rattle.cdcl_search.specs.Trails.{zeros, AllBelow};
ghost use Rattle.cdcl_search.specs.States.{IsState, IsPropagated, IsFalse};
ghost use Rattle.cdcl_search.specs.Changes.{IsSpare, IsSpareBetween};
ghost use Rattle.cdcl_search.specs.Watchings.{IsWatching, IsVisiting, IsVisited, AreSettled, KeepsTrue};

use crate::arena::Arena;
use crate::hints::Hints;
use crate::trail::{FALSE, Status, TRUE, Trail, flipped};
use crate::watches::{Watches, partner};
use std::alloc::AllocError;

/// What became of a clause that watches a false literal.
pub enum Visit {
    /// It watches the literal still, and the other one is true.
    Passed,
    /// It does not watch the literal any more.
    Moved,
    /// Each of its literals is false.
    Conflict(u32),
}

/// The index of a literal that is not false and not the other one that is watched, from one index on and before another.
fn spare_between(trail: &Trail, clause: &[u32], other: u32, from: usize, to: usize) -> Option<usize>
    requires below { AllBelow clause.now (length trail.now.values.items) }
    requires within { to ≤ length clause.now }
    ensures { IsSpareBetween trail.now.values.items clause.now other from to result }
{
    for at in from..to {
        let literal = clause[at];
        if literal != other && trail.values[literal as usize] != FALSE {
            return Some(at);
        }
    }
    None
}

/// The index of a literal of the clause that is not false and not the other one that is watched, where the search begins at a hint.
fn spare(trail: &Trail, clause: &[u32], other: u32, hint: usize) -> Option<usize>
    requires { AllBelow clause.now (length trail.now.values.items) }
    ensures { IsSpare trail.now.values.items clause.now other result }
{
    if hint >= clause.len() {
        return spare_between(trail, clause, other, 0, clause.len());
    }
    match spare_between(trail, clause, other, hint, clause.len()) {
        Some(at) => Some(at),
        None => spare_between(trail, clause, other, 0, hint),
    }
}

/// Lets a clause watch another literal in place of a false one, or makes its other watched literal true.
fn renew(
    trail: &mut Trail,
    arena: &Arena,
    watches: &mut Watches,
    hints: &mut Hints,
    literal: u32,
    index: usize,
    clause: u32,
    other: u32,
) -> Result<Visit, AllocError>
    requires state { IsState arena.now trail.old }
    requires visiting { IsVisiting arena.now trail.old watches.old literal index }
    requires within { index < length (get_or watches.old.lists literal []) }
    requires clause { clause ≡ get_or (get_or watches.old.lists literal []) index 0 }
    requires given { clause < length arena.now }
    requires pair { ((get_or watches.old.firsts.items clause 0 ≡ literal) × (other ≡ get_or watches.old.seconds.items clause 0)) ⊎ ((get_or watches.old.seconds.items clause 0 ≡ literal) × (other ≡ get_or watches.old.firsts.items clause 0)) }
    ensures state { IsState arena.now trail.new }
    ensures visited { IfOk result (λ v. IsVisited arena.now trail.new watches.new literal index (length (get_or watches.old.lists literal [])) v) }
    ensures watching { IsWatching arena.now trail.new watches.new }
    ensures levels { trail.new.limits ≡ trail.old.limits }
    ensures size { length trail.new.literals.items ≡ length trail.old.literals.items }
    ensures further { zeros trail.new.values.items ≤ zeros trail.old.values.items }
    ensures done { watches.new.done ≡ watches.old.done }
    ensures short { watches.new.short ≡ watches.old.short }
    ensures keeps { KeepsTrue trail.old trail.new }
{
    if trail.values[other as usize] == TRUE {
        return Ok(Visit::Passed);
    }
    let literals = arena.clause(clause as usize);
    match spare(trail, literals, other, hints.index(clause as usize)) {
        Some(at) => {
            hints.keep(clause as usize, at);
            watches.rewatch(clause, other, literals[at])?;
            watches.lists.remove(literal, index);
            Ok(Visit::Moved)
        }
        None => {
            if trail.values[other as usize] == FALSE {
                return Ok(Visit::Conflict(clause));
            }
            trail.assign(other, clause);
            Ok(Visit::Passed)
        }
    }
}

/// Visits one clause of a false literal's list.
fn visit_one(
    trail: &mut Trail,
    arena: &Arena,
    watches: &mut Watches,
    hints: &mut Hints,
    literal: u32,
    index: usize,
) -> Result<Visit, AllocError>
    requires state { IsState arena.now trail.old }
    requires visiting { IsVisiting arena.now trail.old watches.old literal index }
    requires within { index < length (get_or watches.old.lists literal []) }
    ensures state { IsState arena.now trail.new }
    ensures visited { IfOk result (λ v. IsVisited arena.now trail.new watches.new literal index (length (get_or watches.old.lists literal [])) v) }
    ensures watching { IsWatching arena.now trail.new watches.new }
    ensures levels { trail.new.limits ≡ trail.old.limits }
    ensures size { length trail.new.literals.items ≡ length trail.old.literals.items }
    ensures further { zeros trail.new.values.items ≤ zeros trail.old.values.items }
    ensures done { watches.new.done ≡ watches.old.done }
    ensures short { watches.new.short ≡ watches.old.short }
    ensures keeps { KeepsTrue trail.old trail.new }
{
    let clause = watches.lists.get(literal, index);
    if clause as usize >= arena.len() {
        watches.lists.remove(literal, index);
        return Ok(Visit::Moved);
    }
    match partner(
        watches.firsts[clause as usize],
        watches.seconds[clause as usize],
        literal,
    ) {
        Some(other) => renew(trail, arena, watches, hints, literal, index, clause, other),
        None => {
            watches.lists.remove(literal, index);
            Ok(Visit::Moved)
        }
    }
}

/// Visits the clauses that watch a literal which became false, until one is false.
fn visit_all(
    trail: &mut Trail,
    arena: &Arena,
    watches: &mut Watches,
    hints: &mut Hints,
    literal: u32,
) -> Result<Option<u32>, AllocError>
    requires state { IsState arena.now trail.old }
    requires visiting { IsVisiting arena.now trail.old watches.old literal 0 }
    ensures state { IsState arena.now trail.new }
    ensures watching { IsWatching arena.now trail.new watches.new }
    ensures outcome { IfOk result (λ r. MatchOption r (IsVisiting arena.now trail.new watches.new literal (length (get_or watches.new.lists literal []))) (λ i. (i < length arena.now) × IsFalse trail.new (get_or arena.now i []))) }
    ensures levels { trail.new.limits ≡ trail.old.limits }
    ensures size { length trail.new.literals.items ≡ length trail.old.literals.items }
    ensures further { zeros trail.new.values.items ≤ zeros trail.old.values.items }
    ensures done { watches.new.done ≡ watches.old.done }
    ensures short { watches.new.short ≡ watches.old.short }
    ensures keeps { KeepsTrue trail.old trail.new }
{
    let mut index = 0;
    while index < watches.lists.len(literal) {
        match visit_one(trail, arena, watches, hints, literal, index)? {
            Visit::Passed => index += 1,
            Visit::Moved => (),
            Visit::Conflict(clause) => return Ok(Some(clause)),
        }
    }
    Ok(None)
}

/// Makes the literal of each short clause true, until one is false.
fn settle(trail: &mut Trail, arena: &Arena, watches: &Watches) -> Option<u32>
    requires state { IsState arena.now trail.old }
    requires watching { IsWatching arena.now trail.old watches.now }
    ensures state { IsState arena.now trail.new }
    ensures watching { IsWatching arena.now trail.new watches.now }
    ensures outcome { MatchOption result (AreSettled arena.now trail.new watches.now (length watches.now.short.items)) (λ i. (i < length arena.now) × IsFalse trail.new (get_or arena.now i [])) }
    ensures levels { trail.new.limits ≡ trail.old.limits }
    ensures size { length trail.new.literals.items ≡ length trail.old.literals.items }
    ensures further { zeros trail.new.values.items ≤ zeros trail.old.values.items }
{
    for at in 0..watches.short.len() {
        let clause = watches.short[at];
        if (clause as usize) < arena.len() {
            match trail.status(arena.clause(clause as usize)) {
                Status::AllFalse => return Some(clause),
                Status::Unit(literal) => trail.assign(literal, clause),
                Status::Other => (),
            }
        }
    }
    None
}

/// Visits the clauses of each literal that became false, until one is false or nothing follows.
fn drain(
    trail: &mut Trail,
    arena: &Arena,
    watches: &mut Watches,
    hints: &mut Hints,
) -> Result<Option<u32>, AllocError>
    requires state { IsState arena.now trail.old }
    requires watching { IsWatching arena.now trail.old watches.old }
    requires settled { AreSettled arena.now trail.old watches.old (length watches.old.short.items) }
    ensures state { IsState arena.now trail.new }
    ensures watching { IsWatching arena.now trail.new watches.new }
    ensures outcome { IfOk result (λ r. IsPropagated arena.now trail.new r) }
    ensures done { IfOk result (λ r. MatchOption r (watches.new.done ≡ trail.new.count) (λ _. Unit {0})) }
    ensures levels { trail.new.limits ≡ trail.old.limits }
    ensures size { length trail.new.literals.items ≡ length trail.old.literals.items }
    ensures further { zeros trail.new.values.items ≤ zeros trail.old.values.items }
{
    while watches.done < trail.count {
        let literal = flipped(trail.literals[watches.done]);
        match visit_all(trail, arena, watches, hints, literal)? {
            Some(clause) => return Ok(Some(clause)),
            None => watches.done += 1,
        }
    }
    Ok(None)
}

/// Makes true what the clauses force, until one is false or nothing follows.
pub fn propagate(
    trail: &mut Trail,
    arena: &Arena,
    watches: &mut Watches,
    hints: &mut Hints,
) -> Result<Option<u32>, AllocError>
    requires state { IsState arena.now trail.old }
    requires watching { IsWatching arena.now trail.old watches.old }
    ensures state { IsState arena.now trail.new }
    ensures watching { IsWatching arena.now trail.new watches.new }
    ensures outcome { IfOk result (λ r. IsPropagated arena.now trail.new r) }
    ensures done { IfOk result (λ r. MatchOption r (watches.new.done ≡ trail.new.count) (λ _. Unit {0})) }
    ensures levels { trail.new.limits ≡ trail.old.limits }
    ensures size { length trail.new.literals.items ≡ length trail.old.literals.items }
    ensures further { zeros trail.new.values.items ≤ zeros trail.old.values.items }
{
    if trail.limits.len() > 0 {
        return drain(trail, arena, watches, hints);
    }
    match settle(trail, arena, watches) {
        Some(clause) => Ok(Some(clause)),
        None => drain(trail, arena, watches, hints),
    }
}
