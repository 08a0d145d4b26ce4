//! Decisions: which open literal is made true next.
ghost use Rattle.std.specs.Prelude.{ℕ, ◌≡◌, ◌≢◌, ◌+◌, ◌*◌, ◌/◌, ◌<◌, ◌≤◌, ◌^◌, [], length, get_or, IfOk, IfErr, MatchOption};
ghost use Rattle.cdcl_search.specs.Trails.{IsTrail, zeros};
ghost use Rattle.cdcl_search.specs.Watchings.{IsWatching};
ghost use Rattle.cdcl_search.specs.States.{IsState, AreQuiet};

use crate::arena::Arena;
use crate::order::Order;
use crate::trail::{OPEN, Trail, flipped};
use crate::watches::Watches;
use search_guide::Guide;
use std::alloc::AllocError;

/// The first open literal.
pub fn first_open(trail: &Trail) -> Option<u32>
    requires trail { IsTrail trail.now.values.items trail.now.places.items trail.now.literals.items trail.now.count }
    requires few { 2 * length trail.now.literals.items < 2 ^ 32 }
    ensures none { MatchOption result ((l : ℕ) → l < 2 * length trail.now.literals.items → get_or trail.now.values.items l 0 ≢ 0) (λ l. get_or trail.now.values.items l 0 ≡ 0) }
    ensures within { MatchOption result (Unit {0}) (λ l. l < 2 * length trail.now.literals.items) }
{
    for at in 0..trail.values.len() {
        if trail.values[at] == OPEN {
            return Some(at as u32);
        }
    }
    None
}

/// An open literal, of the variable that the order names first.
pub fn next_open(trail: &Trail, order: &mut Order) -> Option<u32>
    requires trail { IsTrail trail.now.values.items trail.now.places.items trail.now.literals.items trail.now.count }
    requires few { 2 * length trail.now.literals.items < 2 ^ 32 }
    ensures none { MatchOption result ((l : ℕ) → l < 2 * length trail.now.literals.items → get_or trail.now.values.items l 0 ≢ 0) (λ l. get_or trail.now.values.items l 0 ≡ 0) }
    ensures within { MatchOption result (Unit {0}) (λ l. l < 2 * length trail.now.literals.items) }
{
    match order.first(trail) {
        Some(literal) => Some(literal),
        None => first_open(trail),
    }
}

/// The open literal of a variable that the guide takes.
pub fn choose(trail: &Trail, first: u32, guide: &Guide, seed: u64, turn: u64) -> u32
    requires trail { IsTrail trail.now.values.items trail.now.places.items trail.now.literals.items trail.now.count }
    requires few { 2 * length trail.now.literals.items < 2 ^ 32 }
    requires is_open { get_or trail.now.values.items first 0 ≡ 0 }
    requires within { first < 2 * length trail.now.literals.items }
    ensures is_open { get_or trail.now.values.items result 0 ≡ 0 }
    ensures within { result < 2 * length trail.now.literals.items }
{
    let candidates = [first, flipped(first)];
    candidates[guide.pick(seed, turn, 2) as usize]
}

/// Makes an open literal true, in a new level.
pub fn decide(
    trail: &mut Trail,
    arena: &Arena,
    watches: &Watches,
    literal: u32,
) -> Result<(), AllocError>
    requires state { IsState arena.now trail.old }
    requires quiet { AreQuiet arena.now trail.old }
    requires watching { IsWatching arena.now trail.old watches.now }
    requires done { watches.now.done ≡ trail.old.count }
    requires is_open { get_or trail.old.values.items literal 0 ≡ 0 }
    requires within { literal < 2 * length trail.old.literals.items }
    ensures state { IsState arena.now trail.new }
    ensures watching { IsWatching arena.now trail.new watches.now }
    ensures size { length trail.new.literals.items ≡ length trail.old.literals.items }
    ensures further { IfOk result (λ _. zeros trail.new.values.items + 2 ≡ zeros trail.old.values.items) }
{
    trail.limits.push(trail.count as u32)?;
    trail.assign(literal, u32::MAX);
    Ok(())
}
