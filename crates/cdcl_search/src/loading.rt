//! The given clauses, copied into the arena of a search.
ghost use Rattle.std.specs.Prelude.{◌≡◌, ◌<◌, ◌≤◌, map, length, IfOk};
ghost use Rattle.cdcl_search.specs.Derivations.{codes_of};

use crate::arena::Arena;
use clause_store::{Clauses, Literal};
use clf_base::NoMemory;
use std::alloc::Global;

/// The codes of literals.
fn codes(alloc: Global, literals: &[Literal]) -> Result<Vec<u32>, NoMemory>
    ensures { IfOk result (λ codes. codes.items ≡ codes_of literals.now) }
{
    let mut codes = Vec::new(alloc);
    for literal in literals {
        codes.push(literal.code)?;
    }
    Ok(codes)
}

/// The clauses of a store, live or retired, in their order.
pub fn load(alloc: Global, clauses: &Clauses) -> Result<Arena, NoMemory>
    ensures loaded { IfOk result (λ arena. arena ≡ map codes_of clauses.now.clauses) }
    ensures few { IfOk result (λ arena. length arena < 2147483648) }
{
    let mut arena = Arena::new(alloc);
    for at in 0..clauses.len() {
        let literals = codes(alloc, clauses.get(at).literals())?;
        arena.push(&literals)?;
    }
    Ok(arena)
}
