use crate::making::{give, negated, positive};
use anyhow::Result;
use clause_store::Clauses;
use std::alloc::Global;

/// The variable that says that a pigeon is in a hole.
fn place(holes: u32, pigeon: u32, hole: u32) -> u32 {
    pigeon.wrapping_mul(holes).wrapping_add(hole)
}

/// A pigeon is in some hole.
fn give_pigeon(alloc: Global, clauses: &mut Clauses, holes: u32, pigeon: u32) -> Result<()> {
    let mut literals = Vec::new(alloc);
    for hole in 0..holes {
        literals.push(positive(place(holes, pigeon, hole)))?;
    }
    give(alloc, clauses, &literals)
}

/// Two pigeons are in no hole together, the first of them below the second.
fn give_pair(
    alloc: Global,
    clauses: &mut Clauses,
    holes: u32,
    first: u32,
    second: u32,
) -> Result<()> {
    for hole in 0..holes {
        let first_is_there = negated(place(holes, first, hole));
        let second_is_there = negated(place(holes, second, hole));
        give(alloc, clauses, &[first_is_there, second_is_there])?;
    }
    Ok(())
}

/// One pigeon more than there are holes, each in a hole, and no two in one.
pub fn pigeons(alloc: Global, holes: u32) -> Result<Clauses> {
    let mut clauses = Clauses::new(alloc);
    for pigeon in 0..=holes {
        give_pigeon(alloc, &mut clauses, holes, pigeon)?;
    }
    for second in 0..=holes {
        for first in 0..second {
            give_pair(alloc, &mut clauses, holes, first, second)?;
        }
    }
    Ok(clauses)
}
