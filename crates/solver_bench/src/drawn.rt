use crate::making::{give, negated, positive};
use anyhow::{Result, ensure};
use clause_store::{Clauses, Literal};
use rand::seq::index::sample;
use rand_core::{Rng, SeedableRng};
use rand_xoshiro::Xoshiro256PlusPlus;
use std::alloc::Global;

/// Literals of three variables, each with a sign that is drawn.
fn signed(rng: &mut Xoshiro256PlusPlus, variables: [u32; 3]) -> [Literal; 3] {
    let signs = rng.next_u32();
    let mut literals = [positive(0); 3];
    for at in 0..3usize {
        let variable = variables[at];
        literals[at] = if (signs >> at) & 1 == 1 {
            negated(variable)
        } else {
            positive(variable)
        };
    }
    literals
}

/// Adds a clause of three different variables.
fn give_drawn(
    alloc: Global,
    clauses: &mut Clauses,
    rng: &mut Xoshiro256PlusPlus,
    variables: u32,
) -> Result<()> {
    ensure!(variables >= 3, "too few variables");
    let mut chosen = [0u32; 3];
    for (at, variable) in sample(alloc, rng, variables as usize, 3)?
        .into_iter()
        .enumerate()
    {
        if at < 3 {
            chosen[at] = u32::try_from(variable)?;
        }
    }
    chosen.sort_unstable();
    let literals = signed(rng, chosen);
    give(alloc, clauses, &literals)
}

/// Clauses of three literals that a seed decides, 4.26 for each variable: about half of such sets can be satisfied.
pub fn drawn(alloc: Global, variables: u32, seed: u64) -> Result<Clauses> {
    let count = u64::from(variables) * 426 / 100;
    let mut rng = Xoshiro256PlusPlus::seed_from_u64(seed);
    let mut clauses = Clauses::new(alloc);
    for _ in 0..count {
        give_drawn(alloc, &mut clauses, &mut rng, variables)?;
    }
    Ok(clauses)
}
