//! Which two literals of each clause are watched.
ghost use Rattle.std.specs.Prelude.{ℕ, ◌≡◌, ◌+◌, ◌<◌, ◌≤◌, ◌++◌, [], ◌∷◌, length, get_or, set, take, IfOk, IfErr};
ghost use Rattle.cdcl_search.specs.Changes.{IsPartner, IsRewatched, Keeps, IsFront, IsAdded, IsAddedShort};

use crate::lists::Lists;
use std::alloc::AllocError;

/// For each clause the two literals that are watched, for each literal the clauses that watch it, and the clauses
/// without two different literals. The literals of the trail are propagated as far as the place `done`.
#[derive(Drop)]
pub struct Watches {
    pub firsts: Vec<u32>,
    pub seconds: Vec<u32>,
    pub lists: Lists,
    pub short: Vec<u32>,
    pub done: usize,
}

/// The watched literal beside one of the two, or none if it is neither.
pub fn partner(first: u32, second: u32, literal: u32) -> Option<u32>
    ensures { IsPartner first second literal result }
{
    if first == literal {
        return Some(second);
    }
    if second == literal {
        return Some(first);
    }
    None
}

/// Makes a number the last one, at an index.
fn put(list: &mut Vec<u32>, at: usize, number: u32) -> Result<(), AllocError>
    requires { at ≤ length list.old.items }
    ensures front { IsFront list.old.items list.new.items at }
    ensures more { IfOk result (λ _. at < length list.new.items) }
    ensures last { IfOk result (λ _. get_or list.new.items at 0 ≡ number) }
{
    list.truncate(at);
    list.push(number)?;
    Ok(())
}

impl Watches {
    /// Watches two literals of a clause in place of those before.
    pub fn rewatch(&mut self, clause: u32, other: u32, fresh: u32) -> Result<(), AllocError>
        requires firsts { clause < length self.old.firsts.items }
        requires seconds { clause < length self.old.seconds.items }
        requires row { fresh < length self.old.lists }
        ensures done { IfOk result (λ _. IsRewatched self.old self.new clause other fresh) }
        ensures failed { IfErr result (λ _. self.new ≡ self.old) }
    {
        self.lists.push(fresh, clause)?;
        self.firsts[clause as usize] = other;
        self.seconds[clause as usize] = fresh;
        Ok(())
    }

    /// Keeps the number of a clause that is to come, whose first two literals are watched.
    pub fn add(&mut self, clause: u32, first: u32, second: u32) -> Result<(), AllocError>
        requires firsts { clause ≤ length self.old.firsts.items }
        requires seconds { clause ≤ length self.old.seconds.items }
        requires first { first < length self.old.lists }
        requires second { second < length self.old.lists }
        ensures keeps { Keeps self.old self.new clause }
        ensures added { IfOk result (λ _. IsAdded self.new clause first second) }
    {
        put(&mut self.firsts, clause as usize, first)?;
        put(&mut self.seconds, clause as usize, second)?;
        self.lists.push(first, clause)?;
        self.lists.push(second, clause)?;
        Ok(())
    }

    /// Keeps the number of a clause that is to come, which has no two different literals.
    pub fn add_short(&mut self, clause: u32) -> Result<(), AllocError>
        requires firsts { clause ≤ length self.old.firsts.items }
        requires seconds { clause ≤ length self.old.seconds.items }
        ensures keeps { Keeps self.old self.new clause }
        ensures added { IfOk result (λ _. IsAddedShort self.new clause) }
    {
        put(&mut self.firsts, clause as usize, u32::MAX)?;
        put(&mut self.seconds, clause as usize, u32::MAX)?;
        self.short.push(clause)?;
        Ok(())
    }
}
