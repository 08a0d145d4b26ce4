//! The scope of each clafer, from those of its owners.

ghost use Rattle.std.specs.Prelude.{◌≡◌, ℕ, not, ◌<◌, ◌^◌, length, get_or, IsTrue, IfOk};
ghost use Rattle.clf_tree.specs.Hierarchy.{is_closed};
ghost use Rattle.clf_tree.specs.Named.{each, inherits_itself};
ghost use Rattle.scope_table.specs.Largest.{most_times, scope_over, told};
ghost use Rattle.scope_table.specs.Steps.{IsGiven, AreTotals, AreLargest};

use crate::totals::{told, totals};
use clf_base::{List, NoMemory};
use clf_tree::{Clafer, Given, Interval};
use std::alloc::Global;

fn most_times(default: u64, times: Interval) -> u64
    ensures { result ≡ most_times default times }
{
    match times.high {
        Some(high) => high as u64,
        None => default.max(times.low as u64),
    }
}

/// The scope of a clafer from the totals of all.
fn scope_over(
    clafers: &List<Clafer>,
    given: &Given,
    table: &[Option<u64>],
    totals: &[u64],
    clafer: usize,
) -> u64
    requires within { clafer < length clafers.now }
    requires closed { IsTrue (is_closed clafers.now) }
    requires long { length totals.now ≡ length clafers.now }
    requires known { length table.now ≡ length clafers.now }
    requires given { IsGiven clafers.now given.now.scopes table.now }
    ensures { (of : ℕ → ℕ) → AreTotals clafers.now of totals.now → result ≡ told (scope_over clafers.now given.now of clafer) }
{
    let own = clafers.get(clafer);
    if own.is_abstract {
        return 0;
    }
    if let Some(most) = table[clafer] {
        return told(most);
    }
    let most = most_times(given.default, own.times);
    match own.parent {
        Some(parent) => told(most.saturating_mul(totals[parent as usize])),
        None => told(most),
    }
}

/// The scopes from those of a round before.
fn next_round(
    alloc: Global,
    clafers: &List<Clafer>,
    given: &Given,
    table: &[Option<u64>],
    of: &[u64],
) -> Result<Vec<u64>, NoMemory>
    requires closed { IsTrue (is_closed clafers.now) }
    requires acyclic { IsTrue (each clafers.now (λ c. not (inherits_itself clafers.now c))) }
    requires few { length clafers.now < 2 ^ 32 }
    requires long { length of.now ≡ length clafers.now }
    requires known { length table.now ≡ length clafers.now }
    requires given { IsGiven clafers.now given.now.scopes table.now }
    ensures round { IfOk result (λ next. (c : ℕ) → get_or next.items c 0 ≡ told (scope_over clafers.now given.now (λ d. get_or of.now d 0) c)) }
    ensures long { IfOk result (λ next. length next.items ≡ length clafers.now) }
{
    let totals = totals(alloc, clafers, of)?;
    let mut next = Vec::new(alloc);
    for clafer in 0..clafers.len() {
        next.push(scope_over(clafers, given, table, totals.as_slice(), clafer))?;
    }
    Ok(next)
}

/// The scopes of all clafers, each 2 ^ 63 - 1 where it is larger. Rounds go on until one changes nothing, after as many as owners stand
/// above one another; in each of them every clafer goes to those above it.
pub fn largest(
    alloc: Global,
    clafers: &List<Clafer>,
    given: &Given,
    table: &[Option<u64>],
) -> Result<Vec<u64>, NoMemory>
    requires closed { IsTrue (is_closed clafers.now) }
    requires acyclic { IsTrue (each clafers.now (λ c. not (inherits_itself clafers.now c))) }
    requires few { length clafers.now < 2 ^ 32 }
    requires known { length table.now ≡ length clafers.now }
    requires given { IsGiven clafers.now given.now.scopes table.now }
    ensures scopes { IfOk result (λ of. AreLargest clafers.now given.now of.items) }
    ensures long { IfOk result (λ of. length of.items ≡ length clafers.now) }
{
    let mut of = vec![in alloc; 0; clafers.len()]?;
    for _round in 0..clafers.len() {
        let next = next_round(alloc, clafers, given, table, of.as_slice())?;
        if next == of {
            return Ok(of);
        }
        of = next;
    }
    Ok(of)
}
