//! When a search begins again at no decision, and how it gets there.
ghost use Rattle.std.specs.Prelude.{◌≡◌, length};
ghost use Rattle.cdcl_search.specs.States.{IsState};
ghost use Rattle.cdcl_search.specs.Watchings.{IsWatching};

use crate::arena::Arena;
use crate::order::Order;
use crate::trail::Trail;
use crate::watches::Watches;
use std::alloc::AllocError;

/// After how many conflicts the shortest run between two restarts ends.
const UNIT: u64 = 100;

/// Counts conflicts to the next restart. The runs between restarts have the lengths 1, 1, 2, 1, 1, 2,
/// 4, 1, .. of Luby's sequence, in units.
#[derive(Drop)]
pub struct Restarts {
    round: u64,
    length: u64,
    left: u64,
}

impl Restarts {
    pub fn new() -> Restarts {
        Restarts {
            round: 1,
            length: 1,
            left: UNIT,
        }
    }

    /// Counts a conflict, and says whether a restart is due.
    pub fn count(&mut self) -> bool {
        self.left = self.left.saturating_sub(1);
        if self.left > 0 {
            return false;
        }
        if self.round & self.round.wrapping_neg() == self.length {
            self.round = self.round.wrapping_add(1);
            self.length = 1;
        } else {
            self.length = self.length.wrapping_mul(2);
        }
        self.left = self.length.wrapping_mul(UNIT);
        true
    }
}

/// Goes back to where there is no decision.
pub fn restart(
    trail: &mut Trail,
    arena: &Arena,
    watches: &mut Watches,
    order: &mut Order,
) -> Result<(), AllocError>
    requires state { IsState arena.now trail.old }
    requires watching { IsWatching arena.now trail.old watches.old }
    ensures state { IsState arena.now trail.new }
    ensures watching { IsWatching arena.now trail.new watches.new }
    ensures size { length trail.new.literals.items ≡ length trail.old.literals.items }
{
    if trail.limits.len() == 0 {
        return Ok(());
    }
    let limit = trail.limits[0] as usize;
    order.restore(trail, limit)?;
    trail.undo_to(limit);
    trail.limits.truncate(0);
    watches.done = limit;
    Ok(())
}
