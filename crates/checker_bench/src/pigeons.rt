use crate::making::{Made, negated, positive};
use anyhow::Result;
use clause_store::{Literal, Step};
use clf_base::List;
use std::alloc::Global;

/// One pigeon more than there are holes, and a refutation of that by sets of holes: if the pigeons up
/// to number i have no hole outside a set of i holes, then those before it have none outside a set of one less.
#[derive(Drop)]
struct Refutation {
    alloc: Global,
    holes: u8,
    made: Made,
    /// For each set of holes, as bits, the number of the clause that some pigeon up to its size is outside it.
    outside: Vec<u32>,
}

fn has(set: u32, hole: u8) -> bool {
    hole < 32 && set & (1 << u32::from(hole)) != 0
}

fn without(set: u32, hole: u8) -> u32 {
    if hole < 32 {
        set & !(1 << u32::from(hole))
    } else {
        set
    }
}

impl Refutation {
    fn variable(&self, pigeon: u8, hole: u8) -> u32 {
        u32::from(pigeon) * u32::from(self.holes) + u32::from(hole)
    }

    /// The number of the clause that two pigeons are not both in a hole, the first below the second.
    fn pair(&self, first: u8, second: u8, hole: u8) -> u32 {
        let second = u32::from(second);
        let pairs = second.wrapping_mul(second.wrapping_sub(1)) / 2;
        let holes = u32::from(self.holes);
        pairs
            .wrapping_add(u32::from(first))
            .wrapping_mul(holes)
            .wrapping_add(u32::from(hole))
            .wrapping_add(holes)
            .wrapping_add(1)
    }

    fn give(&mut self) -> Result<()> {
        for pigeon in 0..=self.holes {
            let mut literals = List::new(self.alloc);
            for hole in 0..self.holes {
                literals.push(positive(self.variable(pigeon, hole)))?;
            }
            self.made.give(literals)?;
        }
        for second in 0..=self.holes {
            for first in 0..second {
                self.give_pairs(first, second)?;
            }
        }
        Ok(())
    }

    fn give_pairs(&mut self, first: u8, second: u8) -> Result<()> {
        for hole in 0..self.holes {
            let mut literals = List::new(self.alloc);
            literals.push(negated(self.variable(first, hole)))?;
            literals.push(negated(self.variable(second, hole)))?;
            self.made.give(literals)?;
        }
        Ok(())
    }

    /// Some pigeon below a number is in a hole outside the set.
    fn outside_literals(&self, set: u32, below: u8) -> Result<List<Literal>> {
        let mut literals = List::new(self.alloc);
        for pigeon in 0..below {
            for hole in 0..self.holes {
                if !has(set, hole) {
                    literals.push(positive(self.variable(pigeon, hole)))?;
                }
            }
        }
        Ok(literals)
    }

    /// Some pigeon below a number is outside the set, or that number is not in this hole of the set.
    fn derive_part(&mut self, set: u32, pigeon: u8, hole: u8) -> Result<()> {
        let mut steps = List::new(self.alloc);
        for earlier in 0..pigeon {
            steps.push(Step {
                clause: self.pair(earlier, pigeon, hole),
                pivot: self.variable(earlier, hole),
            })?;
        }
        let mut literals = self.outside_literals(set, pigeon)?;
        literals.push(negated(self.variable(pigeon, hole)))?;
        let smaller = without(set, hole) as usize;
        let start = self.outside.get(smaller).copied().unwrap_or(0);
        self.made.derive(start, steps, literals)
    }

    fn derive_set(&mut self, set: u32) -> Result<()> {
        let pigeon = set.count_ones() as u8;
        let mut steps = List::new(self.alloc);
        for hole in 0..self.holes {
            if has(set, hole) {
                steps.push(Step {
                    clause: self.made.next_number(),
                    pivot: self.variable(pigeon, hole),
                })?;
                self.derive_part(set, pigeon, hole)?;
            }
        }
        let literals = self.outside_literals(set, pigeon.wrapping_add(1))?;
        let number = self.made.next_number();
        self.outside.push(number)?;
        self.made.derive(u32::from(pigeon), steps, literals)
    }
}

/// The clauses and the refutation for a number of holes, below 32.
pub fn pigeons(alloc: Global, holes: u8) -> Result<Made> {
    let mut refutation = Refutation {
        alloc,
        holes,
        made: Made::new(alloc),
        outside: Vec::new(alloc),
    };
    refutation.give()?;
    refutation.outside.push(0)?;
    let sets = if holes < 32 { 1 << u32::from(holes) } else { 0 };
    for set in 1..sets {
        refutation.derive_set(set)?;
    }
    let Refutation {
        alloc: _,
        holes: _,
        made,
        outside: _,
    } = refutation;
    Ok(made)
}
