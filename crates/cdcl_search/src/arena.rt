//! Clauses that stand one after another in one buffer.
ghost use Rattle.std.specs.Prelude.{ℕ, ◌≡◌, ◌+◌, ◌<◌, ◌≤◌, ◌++◌, [], ◌∷◌, length, get_or, List, is_ok, if◌then◌else◌};
ghost use Rattle.cdcl_search.specs.Arenas.{begin};
ghost use Rattle.std.specs.List.{slice_range};

use std::alloc::{AllocError, Global};
use std::marker::Model;

/// Where the clause at an index begins.
fn begin_of(ends: &[usize], at: usize) -> usize
    requires { at ≤ length ends.now }
    ensures { result ≡ begin ends.now at }
{
    if at == 0 { 0 } else { ends[at - 1] }
}

fn part(pool: &[u32], start: usize, end: usize) -> &[u32]
    requires order { start ≤ end }
    requires within { end ≤ length pool.now }
    ensures { result.now ≡ slice_range pool.now start end }
{
    &pool[start..end]
}

/// The clauses of a search, as lists of literals.
#[derive(Drop)]
pub struct Arena {
    pool: Vec<u32>,
    ends: Vec<usize>,
}

impl Model for Arena {
    ghost use Rattle.std.specs.Prelude.{ℕ, List, length};
    ghost use Rattle.cdcl_search.specs.Arenas.{cut, AreEnds};

    ghost Value = { List (List ℕ) };

    ghost view = { λ a. cut a.pool.items 0 a.ends.items };

    ghost invariant = { λ a. AreEnds 0 (length a.pool.items) a.ends.items };
}

impl Arena {
    pub fn new(alloc: Global) -> Arena
        ensures { result ≡ [] }
    {
        Arena {
            pool: Vec::new(alloc),
            ends: Vec::new(alloc),
        }
    }

    pub fn len(&self) -> usize
        ensures { result ≡ length self.now }
    {
        self.ends.len()
    }

    /// The literals of one clause.
    pub fn clause(&self, at: usize) -> &[u32]
        requires { at < length self.now }
        ensures { result.now ≡ get_or self.now at [] }
    {
        let start = begin_of(&self.ends, at);
        let end = self.ends[at];
        part(&self.pool, start, end)
    }

    /// Adds a clause at the end.
    pub fn push(&mut self, clause: &[u32]) -> Result<(), AllocError>
        ensures { self.new ≡ (if is_ok result then self.old ++ clause.now ∷ [] else self.old) }
    {
        let start = self.pool.len();
        self.pool.extend_from_slice(clause)?;
        match self.ends.push(self.pool.len()) {
            Ok(()) => Ok(()),
            Err(e) => {
                self.pool.truncate(start);
                Err(e.into())
            }
        }
    }
}
