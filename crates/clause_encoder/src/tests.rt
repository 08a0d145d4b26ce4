ghost use Rattle.std.specs.Prelude.{◌≡◌, ◌<◌, ◌≤◌, length, IfOk};
ghost use Rattle.bool_circuit.specs.Circuit.{IsWireOf};

use crate::clauses;
use bool_circuit::{Circuit, Wire};
use clause_store::{Clause, Clauses};
use clf_base::NoMemory;
use std::alloc::Global;
use std::test::Fail;

// The value of a variable at an assignment, whose bits are the values of the first 32 variables.
fn value(assignment: u32, variable: u32) -> bool {
    variable < 32 && (assignment >> variable) & 1 == 1
}

fn satisfies_clause(assignment: u32, clause: &Clause) -> bool {
    for literal in clause.literals() {
        if value(assignment, literal.variable()) == (literal.code % 2 == 0) {
            return true;
        }
    }
    false
}

fn satisfies(assignment: u32, clauses: &Clauses) -> bool {
    for at in 0..clauses.len() {
        if !satisfies_clause(assignment, clauses.get(at)) {
            return false;
        }
    }
    true
}

// How many of the assignments below a number satisfy the clauses.
fn satisfying(most: u32, clauses: &Clauses) -> u32 {
    let mut count: u32 = 0;
    for assignment in 0..most {
        if satisfies(assignment, clauses) {
            count = count.saturating_add(1);
        }
    }
    count
}

fn opposites(alloc: Global) -> Result<(Circuit, Wire), NoMemory>
    ensures { IfOk result (λ r. IsWireOf r.0 r.1) }
{
    let mut circuit = Circuit::new(alloc);
    let x = circuit.input()?;
    let not_x = circuit.not(x)?;
    let both = circuit.and(x, not_x)?;
    Ok((circuit, both))
}

fn difference(alloc: Global) -> Result<(Circuit, Wire), NoMemory>
    ensures { IfOk result (λ r. IsWireOf r.0 r.1) }
{
    let mut circuit = Circuit::new(alloc);
    let x = circuit.input()?;
    let y = circuit.input()?;
    let differ = circuit.xor(x, y)?;
    Ok((circuit, differ))
}

#[test]
fn a_wire_and_its_negation_are_never_both_true(rt: HostRuntime) -> Result<(), Fail> {
    let (circuit, root) = opposites(rt.alloc())?;
    let clauses = clauses(rt.alloc(), &circuit, root)?;
    assert_eq!(rt; circuit.len(), 3);
    assert_eq!(rt; satisfying(8, &clauses), 0);
    Ok(())
}

#[test]
fn two_of_four_bit_lists_differ(rt: HostRuntime) -> Result<(), Fail> {
    let (circuit, root) = difference(rt.alloc())?;
    let clauses = clauses(rt.alloc(), &circuit, root)?;
    assert_eq!(rt; clauses.len(), 5);
    assert_eq!(rt; satisfying(8, &clauses), 2);
    Ok(())
}
