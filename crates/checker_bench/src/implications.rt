use crate::making::{Made, negated, positive};
use anyhow::Result;
use clause_store::{Literal, Step};
use clf_base::List;
use std::alloc::Global;

/// How the clauses look: each variable implies the one a stride on, round a circle, or some of the side
/// variables, which all clauses have.
#[derive(Drop)]
pub struct Shape {
    variables: u32,
    stride: u32,
    sides: u32,
    rounds: u32,
}

impl Shape {
    pub fn small() -> Shape {
        Shape {
            variables: 50,
            stride: 7,
            sides: 0,
            rounds: 3,
        }
    }

    pub fn small_long() -> Shape {
        Shape {
            variables: 50,
            stride: 7,
            sides: 48,
            rounds: 3,
        }
    }

    pub fn near() -> Shape {
        Shape {
            variables: 1000,
            stride: 7,
            sides: 0,
            rounds: 5000,
        }
    }

    pub fn far() -> Shape {
        Shape {
            variables: 1_000_000,
            stride: 382_501,
            sides: 1,
            rounds: 5,
        }
    }

    pub fn long() -> Shape {
        Shape {
            variables: 1000,
            stride: 7,
            sides: 48,
            rounds: 1000,
        }
    }

    fn next(&self, variable: u32) -> u32 {
        variable.wrapping_add(self.stride) % self.variables.max(1)
    }

    /// The variable that implies the first.
    fn last(&self) -> u32 {
        let variables = self.variables.max(1);
        (variables - self.stride % variables) % variables
    }

    fn push_sides(&self, literals: &mut List<Literal>) -> Result<()> {
        for side in 0..self.sides {
            literals.push(positive(self.variables.wrapping_add(side)))?;
        }
        Ok(())
    }
}

fn give_implication(alloc: Global, made: &mut Made, shape: &Shape, variable: u32) -> Result<()> {
    let next = shape.next(variable);
    let mut literals = List::new(alloc);
    if variable < next {
        literals.push(negated(variable))?;
        literals.push(positive(next))?;
    } else {
        literals.push(positive(next))?;
        literals.push(negated(variable))?;
    }
    shape.push_sides(&mut literals)?;
    made.give(literals)
}

fn unit(alloc: Global, literal: Literal) -> Result<List<Literal>> {
    let mut literals = List::new(alloc);
    literals.push(literal)?;
    Ok(literals)
}

/// From the first variable once round the circle: the last one is true, or some side variable.
fn derive_round(alloc: Global, made: &mut Made, shape: &Shape) -> Result<()> {
    let mut at = 0;
    let mut steps = List::new(alloc);
    for _ in 1..shape.variables {
        steps.push(Step {
            clause: at,
            pivot: at,
        })?;
        at = shape.next(at);
    }
    let mut literals = unit(alloc, positive(at))?;
    shape.push_sides(&mut literals)?;
    made.derive(shape.variables, steps, literals)
}

/// The last round's result against the unit clauses.
fn refute(alloc: Global, made: &mut Made, shape: &Shape) -> Result<()> {
    let start = made.next_number().wrapping_sub(1);
    let units = shape.variables.wrapping_add(1);
    let mut steps = List::new(alloc);
    steps.push(Step {
        clause: units,
        pivot: shape.last(),
    })?;
    for side in 0..shape.sides {
        steps.push(Step {
            clause: units.wrapping_add(1).wrapping_add(side),
            pivot: shape.variables.wrapping_add(side),
        })?;
    }
    made.derive(start, steps, List::new(alloc))
}

/// The clauses and their refutation.
pub fn implications(alloc: Global, shape: &Shape) -> Result<Made> {
    let mut made = Made::new(alloc);
    for variable in 0..shape.variables {
        give_implication(alloc, &mut made, shape, variable)?;
    }
    made.give(unit(alloc, positive(0))?)?;
    made.give(unit(alloc, negated(shape.last()))?)?;
    for side in 0..shape.sides {
        let literal = negated(shape.variables.wrapping_add(side));
        made.give(unit(alloc, literal)?)?;
    }
    for _ in 0..shape.rounds {
        derive_round(alloc, &mut made, shape)?;
    }
    refute(alloc, &mut made, shape)?;
    Ok(made)
}
