//! What a conflict leads to: the jump back and the clause that is learned.
ghost use Rattle.std.specs.Prelude.{ℕ, ◌≡◌, ◌+◌, ◌-◌, ◌*◌, ◌/◌, ◌<◌, ◌≤◌, ◌^◌, ◌⊎◌, [], ◌∷◌, ◌++◌, length, get_or, IfOk, IfErr};
ghost use Rattle.cdcl_search.specs.Literals.{flip, Has};
ghost use Rattle.cdcl_search.specs.Trails.{IsTrail, FalseBelow};
ghost use Rattle.cdcl_search.specs.States.{IsState};
ghost use Rattle.cdcl_search.specs.Watchings.{IsWatching};
ghost use Rattle.cdcl_search.specs.Changes.{Keeps, IsAdded, IsAddedShort};
ghost use Rattle.cdcl_search.specs.Learnings.{IsAsserting, IsReach, IsTarget};

use crate::arena::Arena;
use crate::order::Order;
use crate::trail::{Trail, flipped};
use crate::watches::Watches;
use std::alloc::AllocError;

/// One more than the last place of the literals, or 0 with none.
fn reach(trail: &Trail, lower: &[u32]) -> usize
    requires trail { IsTrail trail.now.values.items trail.now.places.items trail.now.literals.items trail.now.count }
    requires are_false { (l : ℕ) → Has lower.now l → get_or trail.now.values.items l 0 ≡ 2 }
    ensures { IsReach trail.now.places.items lower.now (length lower.now) result }
{
    let mut reach = 0;
    for literal in lower {
        let after = trail.places[(*literal / 2) as usize] as usize + 1;
        if reach < after {
            reach = after;
        }
    }
    reach
}

/// The level to which the search goes back.
fn target(trail: &Trail, reach: usize) -> usize
    requires some { 0 < length trail.now.limits.items }
    requires within { reach ≤ get_or trail.now.limits.items (length trail.now.limits.items - 1) 0 }
    ensures { IsTarget trail.now.limits.items reach result }
{
    let mut level = trail.limits.len() - 1;
    while level > 0 && trail.limits[level - 1] as usize >= reach {
        level -= 1;
    }
    level
}

/// Lets a clause that is to come be watched by its last literal, and by the one that became false right before `after`.
fn enlist(
    trail: &Trail,
    watches: &mut Watches,
    clause: u32,
    literal: u32,
    after: usize,
) -> Result<(), AllocError>
    requires firsts { clause ≤ length watches.old.firsts.items }
    requires seconds { clause ≤ length watches.old.seconds.items }
    requires row { literal < length watches.old.lists }
    requires size { length watches.old.lists ≡ 2 * length trail.now.literals.items }
    requires few { 2 * length trail.now.literals.items < 2 ^ 32 }
    requires trail { IsTrail trail.now.values.items trail.now.places.items trail.now.literals.items trail.now.count }
    requires within { after ≤ trail.now.count }
    ensures keeps { Keeps watches.old watches.new clause }
    ensures short { IfOk result (λ _. after ≡ 0 → IsAddedShort watches.new clause) }
    ensures pair { IfOk result (λ _. 0 < after → IsAdded watches.new clause literal (flip (get_or trail.now.literals.items (after - 1) 0))) }
{
    if after == 0 {
        watches.add_short(clause)?;
        return Ok(());
    }
    watches.add(clause, literal, flipped(trail.literals[after - 1]))?;
    Ok(())
}

/// Jumps back and learns the clause, which then forces its last literal.
pub fn learn(
    trail: &mut Trail,
    arena: &mut Arena,
    watches: &mut Watches,
    order: &mut Order,
    clause: &[u32],
    lower: &[u32],
    place: usize,
    base: usize,
) -> Result<(), AllocError>
    requires state { IsState arena.old trail.old }
    requires watching { IsWatching arena.old trail.old watches.old }
    requires few { length arena.old + 1 < 4294967295 }
    requires some { 0 < length trail.old.limits.items }
    requires base { base ≡ get_or trail.old.limits.items (length trail.old.limits.items - 1) 0 }
    requires asserting { IsAsserting trail.old base place lower.now }
    requires clause { clause.now ≡ lower.now ++ flip (get_or trail.old.literals.items place 0) ∷ [] }
    ensures state { IsState arena.new trail.new }
    ensures watching { IsWatching arena.new trail.new watches.new }
    ensures store { IfOk result (λ _. arena.new ≡ arena.old ++ clause.now ∷ []) }
    ensures failed { IfErr result (λ _. arena.new ≡ arena.old) }
    ensures size { length trail.new.literals.items ≡ length trail.old.literals.items }
{
    let after = reach(trail, lower);
    let level = target(trail, after);
    let literal = flipped(trail.literals[place]);
    let reason = arena.len() as u32;
    let limit = trail.limits[level] as usize;
    order.restore(trail, limit)?;
    enlist(trail, watches, reason, literal, after)?;
    arena.push(clause)?;
    trail.undo_to(limit);
    trail.limits.truncate(level);
    watches.done = limit;
    trail.assign(literal, reason);
    Ok(())
}
