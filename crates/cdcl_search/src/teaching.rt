//! A conflict's chain: what the analysis found, kept as a clause with its derivation.
ghost use Rattle.std.specs.Prelude.{ℕ, ◌≡◌, ◌+◌, ◌-◌, ◌*◌, ◌/◌, ◌<◌, ◌≤◌, ◌^◌, ◌⊎◌, [], ◌∷◌, ◌++◌, length, get_or, IfOk, IfErr, OnErr, IsTrue};
ghost use Rattle.cdcl_search.specs.States.{IsState, IsFalse};
ghost use Rattle.cdcl_search.specs.Explanations.{IsExplained, IsBase, AreMarksBelow};
ghost use Rattle.cdcl_search.specs.Watchings.{IsWatching};
ghost use Rattle.cdcl_search.specs.Marks.{AreClear};
ghost use Rattle.cdcl_search.specs.Teachings.{IsTaught, IsRefuted};

use crate::analysis::Analysis;
use crate::arena::Arena;
use crate::learning::learn;
use crate::order::Order;
use crate::ordering::ascending;
use crate::trail::Trail;
use crate::watches::Watches;
use clause_store::{Chain, Clause};
use clf_base::{List, NoMemory};
use std::alloc::Global;

/// Learns the clause that the analysis found, and jumps back.
pub fn teach(
    alloc: Global,
    trail: &mut Trail,
    arena: &mut Arena,
    watches: &mut Watches,
    order: &mut Order,
    analysis: &mut Analysis,
    chains: &mut Vec<Chain>,
    top: usize,
    base: usize,
) -> Result<(), NoMemory>
    requires state { IsState arena.old trail.old }
    requires watching { IsWatching arena.old trail.old watches.old }
    requires few { length arena.old + 1 < 4294967295 }
    requires some { 0 < length trail.old.limits.items }
    requires base { base ≡ get_or trail.old.limits.items (length trail.old.limits.items - 1) 0 }
    requires explained { IsExplained arena.old trail.old base analysis.old }
    requires counter { analysis.old.counter ≡ 1 }
    requires top { AreMarksBelow analysis.old.marks.items top }
    requires within { top ≤ trail.old.count }
    ensures state { IsState arena.new trail.new }
    ensures watching { IsWatching arena.new trail.new watches.new }
    ensures taught { IfOk result (λ _. IsTaught arena.old chains.old.items arena.new chains.new.items) }
    ensures failed_arena { IfErr result (λ _. arena.new ≡ arena.old) }
    ensures failed_chains { IfErr result (λ _. chains.new.items ≡ chains.old.items) }
    ensures size { length trail.new.literals.items ≡ length trail.old.literals.items }
    ensures marks { length analysis.new.marks.items ≡ length analysis.old.marks.items }
    ensures clear { IfOk result (λ _. AreClear analysis.new.marks.items) }
{
    let kept = analysis.kept(alloc, trail)?;
    let (place, clause) = analysis.clause(alloc, trail, &kept, top, base)?;
    let result = ascending(alloc, &clause)?;
    let steps = List::from_slice(alloc, &analysis.steps)?;
    chains.push(Chain {
        start: analysis.start,
        steps,
        result,
    })?;
    analysis.sweep(trail, base, place);
    match learn(trail, arena, watches, order, &clause, &kept, place, base) {
        Ok(()) => Ok(()),
        Err(_) => {
            let _ = chains.pop();
            Err(NoMemory)
        }
    }
}

/// Ends a search that is at no decision: the clause at `conflict` leads to the empty clause.
pub fn refute(
    alloc: Global,
    trail: &Trail,
    arena: &mut Arena,
    watches: &mut Watches,
    analysis: &mut Analysis,
    chains: &mut Vec<Chain>,
    conflict: u32,
    is_clear: bool,
) -> Result<(), NoMemory>
    requires state { IsState arena.old trail.now }
    requires watching { IsWatching arena.old trail.now watches.old }
    requires few { length arena.old + 1 < 4294967295 }
    requires none { length trail.now.limits.items ≡ 0 }
    requires conflict { conflict < length arena.old }
    requires is_false { IsFalse trail.now (get_or arena.old conflict []) }
    requires marks { length analysis.old.marks.items ≡ length trail.now.literals.items }
    requires clear { IsTrue is_clear → AreClear analysis.old.marks.items }
    ensures state { IsState arena.new trail.now }
    ensures watching { IsWatching arena.new trail.now watches.new }
    ensures refuted { IfOk result (λ _. IsRefuted arena.old chains.old.items arena.new chains.new.items) }
    ensures failed_arena { IfErr result (λ _. arena.new ≡ arena.old) }
    ensures failed_chains { IfErr result (λ _. chains.new.items ≡ chains.old.items) }
    ensures marks { length analysis.new.marks.items ≡ length analysis.old.marks.items }
{
    let _ = analysis.explain(trail, arena, conflict, 0, 0, is_clear)?;
    watches.add_short(arena.len() as u32)?;
    let steps = List::from_slice(alloc, &analysis.steps)?;
    let result = Clause::new(List::new(alloc));
    chains.push(Chain {
        start: analysis.start,
        steps,
        result,
    })?;
    match arena.push(&[]) {
        Ok(()) => Ok(()),
        Err(_) => {
            let _ = chains.pop();
            Err(NoMemory)
        }
    }
}
