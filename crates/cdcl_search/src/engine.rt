//! The search: propagation, decisions, and a clause learned at each conflict.
ghost use Rattle.std.specs.Prelude.{ℕ, ◌≡◌, ◌≢◌, ◌+◌, ◌*◌, ◌/◌, ◌<◌, ◌≤◌, ◌^◌, [], ◌∷◌, ◌++◌, length, get_or, take, IfOk, IfErr};
ghost use Rattle.cdcl_search.specs.States.{IsState, IsFalse};
ghost use Rattle.cdcl_search.specs.Runs.{IsWhole, IsConflictDone, IsEnded, IsStep, IsSameLog, IsLonger};

use crate::analysis::Analysis;
use crate::arena::Arena;
use crate::decision::{choose, decide, next_open};
use crate::hints::Hints;
use crate::order::Order;
use crate::propagation::propagate;
use crate::restarts::{Restarts, restart};
use crate::teaching::{refute, teach};
use crate::trail::Trail;
use crate::watches::Watches;
use clause_store::Chain;
use clf_base::NoMemory;
use search_guide::Guide;
use std::alloc::Global;

/// How a run ended.
#[derive(Clone, Copy, Debug, PartialEq, Eq)]
pub enum Ended {
    /// The assignment satisfies each clause.
    Satisfied,
    /// The derivation ends with the empty clause.
    Refuted,
    /// The budget of learned clauses is spent.
    Spent,
}

/// A search over given clauses, with the derivation of what it has learned.
#[derive(Drop)]
pub struct Engine {
    pub alloc: Global,
    pub given: usize,
    pub arena: Arena,
    pub trail: Trail,
    pub watches: Watches,
    pub order: Order,
    pub restarts: Restarts,
    pub analysis: Analysis,
    /// Whether the analysis has no marks, as it is after each clause that was learned.
    pub is_clear: bool,
    pub hints: Hints,
    pub chains: Vec<Chain>,
}

impl Engine {
    /// Learns from a clause that is false, and says whether that was the empty clause.
    fn conflict(&mut self, at: u32) -> Result<bool, NoMemory>
        requires whole { IsWhole self.old }
        requires few { length self.old.arena + 1 < 4294967295 }
        requires conflict { at < length self.old.arena }
        requires is_false { IsFalse self.old.trail (get_or self.old.arena at []) }
        ensures whole { IsWhole self.new }
        ensures done { IfOk result (λ b. IsConflictDone self.old self.new b) }
        ensures step { IsStep self.old.arena self.old.chains.items self.new.arena self.new.chains.items }
        ensures given { take self.new.given self.new.arena ≡ take self.old.given self.old.arena }
        ensures size { length self.new.trail.literals.items ≡ length self.old.trail.literals.items }
    {
        let is_clear = self.is_clear;
        self.is_clear = false;
        let depth = self.trail.limits.len();
        if depth == 0 {
            refute(
                self.alloc,
                &self.trail,
                &mut self.arena,
                &mut self.watches,
                &mut self.analysis,
                &mut self.chains,
                at,
                is_clear,
            )?;
            return Ok(true);
        }
        let base = self.trail.limits[depth - 1] as usize;
        let top = self
            .analysis
            .explain(&self.trail, &self.arena, at, base, 1, is_clear)?;
        self.order.raise(&self.analysis);
        self.analysis.shorten(&self.trail, &self.arena, base)?;
        self.hints.push()?;
        teach(
            self.alloc,
            &mut self.trail,
            &mut self.arena,
            &mut self.watches,
            &mut self.order,
            &mut self.analysis,
            &mut self.chains,
            top,
            base,
        )?;
        self.is_clear = true;
        self.restart_if_due()?;
        Ok(false)
    }

    /// Counts a conflict, and goes back to no decision where that is due.
    fn restart_if_due(&mut self) -> Result<(), NoMemory>
        requires whole { IsWhole self.old }
        ensures whole { IsWhole self.new }
        ensures same { IsSameLog self.old.arena self.old.chains.items self.new.arena self.new.chains.items }
        ensures given { self.new.given ≡ self.old.given }
        ensures size { length self.new.trail.literals.items ≡ length self.old.trail.literals.items }
    {
        if !self.restarts.count() {
            return Ok(());
        }
        restart(
            &mut self.trail,
            &self.arena,
            &mut self.watches,
            &mut self.order,
        )?;
        Ok(())
    }

    /// Runs until the clauses are satisfied or refuted, or `budget` clauses are learned.
    pub fn run(&mut self, budget: u64, guide: &Guide, seed: u64) -> Result<Ended, NoMemory>
        requires whole { IsWhole self.old }
        requires some { 0 < budget }
        requires room { length self.old.arena + budget < 2147483640 }
        ensures whole { IsWhole self.new }
        ensures ended { IfOk result (λ e. IsEnded self.old self.new budget e) }
        ensures longer { IsLonger self.old.arena self.old.chains.items self.new.arena self.new.chains.items }
        ensures given { take self.new.given self.new.arena ≡ take self.old.given self.old.arena }
    {
        let mut left = budget;
        let mut turn = 0u64;
        loop {
            match propagate(
                &mut self.trail,
                &self.arena,
                &mut self.watches,
                &mut self.hints,
            )? {
                Some(at) => {
                    if self.conflict(at)? {
                        return Ok(Ended::Refuted);
                    }
                    left -= 1;
                    if left == 0 {
                        return Ok(Ended::Spent);
                    }
                }
                None => match next_open(&self.trail, &mut self.order) {
                    None => return Ok(Ended::Satisfied),
                    Some(first) => {
                        let literal = choose(&self.trail, first, guide, seed, turn);
                        turn = turn.wrapping_add(1);
                        decide(&mut self.trail, &self.arena, &self.watches, literal)?;
                    }
                },
            }
        }
    }
}
