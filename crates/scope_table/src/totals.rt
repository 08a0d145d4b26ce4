//! For each clafer, the sum of the scopes of the concrete clafers that are-a it.

ghost use Rattle.std.specs.Prelude.{◌≡◌, ℕ, not, ◌+◌, ◌<◌, ◌^◌, length, map, sum, get_or, nat_eq, IsTrue, IfOk, if◌then◌else◌};
ghost use Rattle.clf_tree.specs.Hierarchy.{is_closed, concrete_below, with_supers};
ghost use Rattle.clf_tree.specs.Named.{each, inherits_itself};
ghost use Rattle.scope_table.specs.Largest.{told};
ghost use Rattle.scope_table.specs.Steps.{added, AreBelow};

use clf_base::{List, NoMemory};
use clf_tree::Clafer;
use std::alloc::Global;

/// The largest number that is told.
pub const MOST: u64 = 9223372036854775807;

/// A number as it is told.
pub fn told(number: u64) -> u64
    ensures { result ≡ told number }
{
    number.min(MOST)
}

fn add_to(totals: &mut [u64], clafer: u32, more: u64)
    requires within { clafer < length totals.old }
    ensures value { (d : ℕ) → get_or totals.new d 0 ≡ (if nat_eq clafer d then told (get_or totals.old d 0 + more) else get_or totals.old d 0) }
    ensures long { length totals.new ≡ length totals.old }
{
    totals[clafer as usize] = told(totals[clafer as usize].saturating_add(more));
}

/// Adds to the total of a clafer and of each above it.
fn add_above(totals: &mut [u64], clafers: &List<Clafer>, clafer: u32, more: u64)
    requires within { clafer < length clafers.now }
    requires closed { IsTrue (is_closed clafers.now) }
    requires long { length totals.old ≡ length clafers.now }
    ensures added { (d : ℕ) → get_or totals.new d 0 ≡ added (with_supers clafers.now clafer) more d (get_or totals.old d 0) }
    ensures long { length totals.new ≡ length totals.old }
{
    let mut current = clafer;
    for _step in 0..clafers.len() {
        add_to(totals, current, more);
        match clafers.get(current as usize).above {
            Some(above) => current = above,
            None => return,
        }
    }
    add_to(totals, current, more);
}

/// Adds the scope of a clafer where it is concrete, once those before it are added.
fn add_scope(totals: &mut [u64], clafers: &List<Clafer>, of: &[u64], clafer: usize)
    requires within { clafer < length clafers.now }
    requires closed { IsTrue (is_closed clafers.now) }
    requires acyclic { IsTrue (each clafers.now (λ c. not (inherits_itself clafers.now c))) }
    requires few { length clafers.now < 2 ^ 32 }
    requires known { length of.now ≡ length clafers.now }
    requires long { length totals.old ≡ length clafers.now }
    ensures below { AreBelow clafers.now (λ c. get_or of.now c 0) clafer totals.old → AreBelow clafers.now (λ c. get_or of.now c 0) (clafer + 1) totals.new }
    ensures long { length totals.new ≡ length totals.old }
{
    if clafers.get(clafer).is_abstract {
        return;
    }
    add_above(totals, clafers, clafer as u32, of[clafer]);
}

/// The totals of all clafers. Each clafer goes to those above it.
pub fn totals(alloc: Global, clafers: &List<Clafer>, of: &[u64]) -> Result<Vec<u64>, NoMemory>
    requires closed { IsTrue (is_closed clafers.now) }
    requires acyclic { IsTrue (each clafers.now (λ c. not (inherits_itself clafers.now c))) }
    requires few { length clafers.now < 2 ^ 32 }
    requires long { length of.now ≡ length clafers.now }
    ensures totals { IfOk result (λ totals. (d : ℕ) → d < length clafers.now → get_or totals.items d 0 ≡ told (sum (map (λ c. get_or of.now c 0) (concrete_below clafers.now d)))) }
    ensures long { IfOk result (λ totals. length totals.items ≡ length clafers.now) }
{
    let mut totals = vec![in alloc; 0; clafers.len()]?;
    for clafer in 0..clafers.len() {
        add_scope(totals.as_mut_slice(), clafers, of, clafer);
    }
    Ok(totals)
}
