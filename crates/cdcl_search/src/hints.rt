//! Where the search for a literal to watch goes on in each learned clause.

use std::alloc::{AllocError, Global};

/// For each learned clause the index at which a literal to watch was found last. The literals before it were false then, and
/// most of them still are, so the next search begins there. Nothing rests on it.
#[derive(Drop)]
pub struct Hints {
    given: usize,
    indexes: Vec<u32>,
}

impl Hints {
    /// No hint, where so many clauses are given.
    pub fn new(alloc: Global, given: usize) -> Hints {
        Hints {
            given,
            indexes: Vec::new(alloc),
        }
    }

    /// Adds a hint for the next learned clause.
    pub fn push(&mut self) -> Result<(), AllocError> {
        self.indexes.push(0)?;
        Ok(())
    }

    /// Where to begin in a clause.
    pub fn index(&self, clause: usize) -> usize {
        match clause.checked_sub(self.given) {
            Some(learned) if learned < self.indexes.len() => self.indexes[learned] as usize,
            _ => 0,
        }
    }

    /// Keeps where a literal was found in a clause.
    pub fn keep(&mut self, clause: usize, index: usize) {
        if let Some(learned) = clause.checked_sub(self.given)
            && learned < self.indexes.len()
            && index < 4_294_967_296
        {
            self.indexes[learned] = index as u32;
        }
    }
}
