//! The search before its first step.
ghost use Rattle.std.specs.Prelude.{ℕ, ◌≡◌, ◌+◌, ◌*◌, ◌/◌, ◌<◌, ◌≤◌, ◌^◌, [], length, get_or, take, IfOk};
ghost use Rattle.cdcl_search.specs.States.{AreWithin, AreLiterals};
ghost use Rattle.cdcl_search.specs.Watchings.{IsCovered};
ghost use Rattle.cdcl_search.specs.Changes.{IsOther};
ghost use Rattle.cdcl_search.specs.Runs.{IsWhole};

use crate::analysis::Analysis;
use crate::arena::Arena;
use crate::engine::Engine;
use crate::hints::Hints;
use crate::lists::Lists;
use crate::order::Order;
use crate::restarts::Restarts;
use crate::trail::Trail;
use crate::watches::Watches;
use std::alloc::{AllocError, Global};

fn bytes(alloc: Global, n: usize) -> Result<Vec<u8>, AllocError>
    ensures len { IfOk result (λ v. length v.items ≡ n) }
    ensures zero { IfOk result (λ v. (p : ℕ) → get_or v.items p 0 ≡ 0) }
{
    let mut v = Vec::new(alloc);
    for at in 0..n {
        v.push(0u8)?;
    }
    Ok(v)
}

fn words(alloc: Global, n: usize) -> Result<Vec<u32>, AllocError>
    ensures len { IfOk result (λ v. length v.items ≡ n) }
{
    let mut v = Vec::new(alloc);
    for at in 0..n {
        v.push(0u32)?;
    }
    Ok(v)
}

/// The last literal of the clause that is not its first one. So the clauses of a gate are spread over the lists of its
/// operands and its own.
fn other(clause: &[u32]) -> Option<u32>
    ensures { IsOther clause.now result }
{
    for behind in 0..clause.len() {
        let literal = clause[clause.len() - 1 - behind];
        if literal != clause[0] {
            return Some(literal);
        }
    }
    None
}

/// Watches the first clauses of `given` after those that are watched.
fn enroll(watches: &mut Watches, given: &Arena, at: usize) -> Result<(), AllocError>
    requires covered { IsCovered given.now watches.old at }
    requires within { at < length given.now }
    requires room { length given.now < 2147483648 }
    requires literals { AreLiterals given.now (length watches.old.lists) }
    ensures covered { IfOk result (λ _. IsCovered given.now watches.new (at + 1)) }
    ensures done { watches.new.done ≡ watches.old.done }
    ensures lists { length watches.new.lists ≡ length watches.old.lists }
{
    let clause = given.clause(at);
    match other(clause) {
        Some(second) => {
            watches.add(at as u32, clause[0], second)?;
            Ok(())
        }
        None => {
            watches.add_short(at as u32)?;
            Ok(())
        }
    }
}

/// The watches of the clauses, each of whose literals is below `n`.
fn watched(alloc: Global, n: usize, given: &Arena) -> Result<Watches, AllocError>
    requires room { length given.now < 2147483648 }
    requires literals { AreLiterals given.now n }
    ensures covered { IfOk result (λ w. IsCovered given.now w (length given.now)) }
    ensures done { IfOk result (λ w. w.done ≡ 0) }
    ensures lists { IfOk result (λ w. length w.lists ≡ n) }
{
    let mut watches = Watches {
        firsts: Vec::new(alloc),
        seconds: Vec::new(alloc),
        lists: Lists::new(alloc, n)?,
        short: Vec::new(alloc),
        done: 0,
    };
    for at in 0..given.len() {
        enroll(&mut watches, given, at)?;
    }
    Ok(watches)
}

/// A search over the clauses, each of whose variables is below `variables`.
pub fn open(alloc: Global, variables: u32, given: Arena) -> Result<Engine, AllocError>
    requires few { 2 * variables < 2 ^ 32 }
    requires room { length given < 2147483648 }
    requires within { AreWithin given variables }
    ensures whole { IfOk result (λ s. IsWhole s) }
    ensures chains { IfOk result (λ s. s.chains.items ≡ []) }
    ensures given { IfOk result (λ s. take s.given s.arena ≡ given) }
{
    let n = variables as usize;
    let trail = Trail {
        values: bytes(alloc, 2 * n)?,
        places: words(alloc, n)?,
        reasons: words(alloc, n)?,
        literals: words(alloc, n)?,
        count: 0,
        limits: Vec::new(alloc),
    };
    let analysis = Analysis {
        start: 0,
        marks: bytes(alloc, n)?,
        lower: Vec::new(alloc),
        steps: Vec::new(alloc),
        counter: 0,
    };
    let watches = watched(alloc, 2 * n, &given)?;
    let order = Order::new(alloc, variables)?;
    let hints = Hints::new(alloc, given.len());
    Ok(Engine {
        alloc,
        given: given.len(),
        arena: given,
        trail,
        watches,
        order,
        restarts: Restarts::new(),
        analysis,
        is_clear: true,
        hints,
        chains: Vec::new(alloc),
    })
}
