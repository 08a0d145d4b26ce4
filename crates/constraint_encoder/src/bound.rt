//! The slots of the bound nodes.

ghost use Rattle.std.specs.Prelude.{◌≡◌, ◌↔◌, [], ◌++◌, length, IfOk, IsTrue};
ghost use Rattle.clf_tree.specs.Lists.{from_end};

use clf_base::NoMemory;
use smallvec::SmallVec;
use std::alloc::Global;
use std::marker::Model;

/// The slots of the bound nodes, the innermost last. Up to four stand in place.
#[derive(Drop)]
pub struct Bound {
    slots: SmallVec<u32, 4>,
}

impl Model for Bound {
    ghost use Rattle.std.specs.Prelude.{ℕ, List};

    ghost Value = { List ℕ };

    ghost view = { λ b. b.slots.items };
}

impl Bound {
    /// No slot. It takes no memory.
    pub fn new(alloc: Global) -> Bound
        ensures { result ≡ [] }
    {
        Bound {
            slots: SmallVec::new(alloc),
        }
    }

    /// The number of slots.
    pub fn len(&self) -> usize
        ensures { result ≡ length self.now }
    {
        self.slots.len()
    }

    /// Whether there is none.
    pub fn is_empty(&self) -> bool
        ensures { IsTrue result ↔ (self.now ≡ []) }
    {
        self.slots.is_empty()
    }

    /// The slot at a place, counted from the innermost, which is number 0.
    pub(crate) fn from_end(&self, place: usize) -> Option<u32>
        ensures { result ≡ from_end self.now place }
    {
        self.slots.as_slice().iter().rev().nth(place).copied()
    }

    /// These slots and more behind them, the last one innermost. It copies what is bound; up to four slots take no memory.
    pub(crate) fn with(&self, alloc: Global, slots: &[u32]) -> Result<Bound, NoMemory>
        ensures { IfOk result (λ b. b ≡ self.now ++ slots.now) }
    {
        let mut all = SmallVec::from_slice(alloc, self.slots.as_slice())?;
        all.extend_from_slice(slots)?;
        Ok(Bound { slots: all })
    }
}
