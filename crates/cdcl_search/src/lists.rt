//! For each literal, numbers of clauses.
ghost use Rattle.std.specs.Prelude.{ℕ, ◌≡◌, ◌+◌, ◌<◌, ◌≤◌, ◌++◌, [], ◌∷◌, length, get_or, set, List, IfOk, IfErr};
ghost use Rattle.cdcl_search.specs.Rows.{IsLess};

use smallvec::SmallVec;
use std::alloc::{AllocError, Global};
use std::marker::Model;

/// For each literal a list of numbers. Most lists are short: up to four numbers stand in place, so that such a list takes 32
/// bytes and no allocation.
#[derive(Drop)]
pub struct Lists {
    rows: Vec<SmallVec<u32, 4>>,
}

impl Model for Lists {
    ghost use Rattle.std.specs.Prelude.{ℕ, List, map};

    ghost Value = { List (List ℕ) };

    ghost view = { λ a. map (λ r. r.items) a.rows.items };
}

impl Lists {
    /// An empty list for each literal below `n`.
    pub fn new(alloc: Global, n: usize) -> Result<Lists, AllocError>
        ensures { IfOk result (λ r. length r ≡ n) }
    {
        let mut rows = Vec::new(alloc);
        for at in 0..n {
            rows.push(SmallVec::new(alloc))?;
        }
        Ok(Lists { rows })
    }

    /// How many numbers a literal's list has.
    pub fn len(&self, literal: u32) -> usize
        requires { literal < length self.now }
        ensures { result ≡ length (get_or self.now literal []) }
    {
        self.rows[literal as usize].len()
    }

    /// One number of a literal's list.
    pub fn get(&self, literal: u32, index: usize) -> u32
        requires row { literal < length self.now }
        requires within { index < length (get_or self.now literal []) }
        ensures { result ≡ get_or (get_or self.now literal []) index 0 }
    {
        self.rows[literal as usize][index]
    }

    /// Adds a number to a literal's list.
    pub fn push(&mut self, literal: u32, number: u32) -> Result<(), AllocError>
        requires { literal < length self.old }
        ensures pushed { IfOk result (λ _. self.new ≡ set self.old literal (get_or self.old literal [] ++ number ∷ [])) }
        ensures failed { IfErr result (λ _. self.new ≡ self.old) }
    {
        match self.rows[literal as usize].push(number) {
            Ok(()) => Ok(()),
            Err(e) => Err(e.into()),
        }
    }

    /// Takes a number out of a literal's list; the last one comes into its place.
    pub fn remove(&mut self, literal: u32, index: usize)
        requires row { literal < length self.old }
        requires within { index < length (get_or self.old literal []) }
        ensures { IsLess self.old self.new literal index }
    {
        let _ = self.rows[literal as usize].swap_remove(index);
    }
}
