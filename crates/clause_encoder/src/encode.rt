ghost use Rattle.std.specs.Prelude.{◌≡◌, [], ◌∷◌, ◌++◌, ◌+◌, ◌*◌, ◌<◌, ◌≤◌, ◌^◌, ℕ, ◌||◌, length, OnOk, IfOk};
ghost use Rattle.bool_circuit.specs.Circuit.{inputs, IsGateBelow, IsCircuit, IsWireOf};
ghost use Rattle.clause_encoder.specs.Encoding.{literal_value, is_gate_kept, AreLiteralsOf, IsClauseOf, SaysMore, Encodes, EncodesGates};

use bool_circuit::{Circuit, Gate, Wire};
use clause_store::{Clause, Clauses, Literal};
use clf_base::NoMemory;
use std::alloc::Global;

/// The clauses of a circuit: those of its gates, and last the unit clause of its root, at most four a wire and one more. An assignment that
/// gives the inputs the values of their bits satisfies all but the last exactly where it gives each wire its value, and there always is one;
/// so it can satisfy them all exactly where the root is true. The time grows with the number of wires.
pub fn clauses(alloc: Global, circuit: &Circuit, root: Wire) -> Result<Clauses, NoMemory>
    requires { IsWireOf circuit.now root }
    ensures { IfOk result (Encodes circuit.now root) }
{
    let gates = circuit.gates();
    let mut clauses = gate_clauses(alloc, gates)?;
    let (on, _) = literals_of(root.number);
    say_one(alloc, &mut clauses, on)?;
    Ok(clauses)
}

// The clauses of the gates.
fn gate_clauses(alloc: Global, gates: &[Gate]) -> Result<Clauses, NoMemory>
    requires { IsCircuit (inputs gates.now) gates.now }
    ensures { IfOk result (EncodesGates gates.now) }
{
    let mut clauses = Clauses::new(alloc);
    for (number, gate) in gates.iter().enumerate() {
        define(alloc, &mut clauses, number as u32, gate)?;
    }
    Ok(clauses)
}

// Says that a wire has the value of its gate.
fn define(alloc: Global, clauses: &mut Clauses, number: u32, gate: &Gate) -> Result<(), NoMemory>
    requires small { number < 2 ^ 28 }
    requires room { length clauses.old.clauses + 4 ≤ 2147483647 }
    requires behind { (m : ℕ) × IsGateBelow m number gate.now }
    ensures { OnOk result (SaysMore clauses.old clauses.new 4 (2 * number + 1) (λ v. is_gate_kept v number gate.now)) }
{
    let (on, off) = literals_of(number);
    match *gate {
        Gate::Input(_) => Ok(()),
        Gate::Constant(true) => say_one(alloc, clauses, on),
        Gate::Constant(false) => say_one(alloc, clauses, off),
        Gate::Not(a) => {
            let (a_on, a_off) = literals_of(a.number);
            say(alloc, clauses, a_on, a_on, on)?;
            say(alloc, clauses, a_off, a_off, off)
        }
        Gate::And(a, b) => {
            let (a_on, a_off) = literals_of(a.number);
            let (b_on, b_off) = literals_of(b.number);
            say(alloc, clauses, a_on, a_on, off)?;
            say(alloc, clauses, b_on, b_on, off)?;
            say(alloc, clauses, a_off, b_off, on)
        }
        Gate::Or(a, b) => {
            let (a_on, a_off) = literals_of(a.number);
            let (b_on, b_off) = literals_of(b.number);
            say(alloc, clauses, a_off, a_off, on)?;
            say(alloc, clauses, b_off, b_off, on)?;
            say(alloc, clauses, a_on, b_on, off)
        }
        Gate::Xor(a, b) => {
            let (a_on, a_off) = literals_of(a.number);
            let (b_on, b_off) = literals_of(b.number);
            say(alloc, clauses, a_off, b_off, off)?;
            say(alloc, clauses, a_on, b_on, off)?;
            say(alloc, clauses, a_on, b_off, on)?;
            say(alloc, clauses, a_off, b_on, on)
        }
        Gate::Choose(pick, yes, no) => {
            let (pick_on, pick_off) = literals_of(pick.number);
            let (yes_on, yes_off) = literals_of(yes.number);
            let (no_on, no_off) = literals_of(no.number);
            say(alloc, clauses, pick_off, yes_off, on)?;
            say(alloc, clauses, pick_off, yes_on, off)?;
            say(alloc, clauses, pick_on, no_off, on)?;
            say(alloc, clauses, pick_on, no_on, off)
        }
    }
}

// Says that one of the literals is true.
#[tactic(auto, using(crate::proofs::Says::says_push))]
fn say(
    alloc: Global,
    clauses: &mut Clauses,
    a: Literal,
    b: Literal,
    last: Literal,
) -> Result<(), NoMemory>
    requires a_below { a.code < last.code }
    requires b_below { b.code < last.code }
    requires room { length clauses.old.clauses < 2147483647 }
    ensures { OnOk result (SaysMore clauses.old clauses.new 1 last.code (λ v. literal_value v a || literal_value v b || literal_value v last)) }
{
    let clause = one_of(alloc, a, b, last)?;
    clauses.push(clause)?;
    Ok(())
}

// Says that a literal is true.
#[tactic(auto, using(crate::proofs::Says::says_push))]
fn say_one(alloc: Global, clauses: &mut Clauses, literal: Literal) -> Result<(), NoMemory>
    requires room { length clauses.old.clauses < 2147483647 }
    ensures says { OnOk result (SaysMore clauses.old clauses.new 1 literal.code (λ v. literal_value v literal)) }
    ensures last { OnOk result (clauses.new.clauses ≡ clauses.old.clauses ++ (literal ∷ []) ∷ []) }
{
    let clause = unit(alloc, literal)?;
    clauses.push(clause)?;
    Ok(())
}

// The clause of a literal.
#[tactic(auto, using(crate::proofs::Says::ascending_one, crate::proofs::Says::unit_clause))]
fn unit(alloc: Global, literal: Literal) -> Result<Clause, NoMemory>
    ensures says { IfOk result (λ c. IsClauseOf c literal.code (λ v. literal_value v literal)) }
    ensures only { IfOk result (λ c. c ≡ literal ∷ []) }
{
    let clause = Clause::from_slice(alloc, &[literal])?;
    Ok(clause)
}

// The clause of some literals, the last of which is above the others.
fn one_of(alloc: Global, a: Literal, b: Literal, last: Literal) -> Result<Clause, NoMemory>
    requires a_below { a.code < last.code }
    requires b_below { b.code < last.code }
    ensures { IfOk result (λ c. IsClauseOf c last.code (λ v. literal_value v a || literal_value v b || literal_value v last)) }
{
    if a.code < b.code {
        let clause = one_of_three(alloc, a, b, last)?;
        return Ok(clause);
    }
    if b.code < a.code {
        let clause = one_of_three(alloc, b, a, last)?;
        return Ok(clause);
    }
    let clause = one_of_two(alloc, a, last)?;
    Ok(clause)
}

#[tactic(auto, using(crate::proofs::Says::ascending_two, crate::proofs::Says::two_clause))]
fn one_of_two(alloc: Global, low: Literal, high: Literal) -> Result<Clause, NoMemory>
    requires { low.code < high.code }
    ensures { IfOk result (λ c. IsClauseOf c high.code (λ v. literal_value v low || literal_value v high)) }
{
    let clause = Clause::from_slice(alloc, &[low, high])?;
    Ok(clause)
}

#[tactic(auto, using(crate::proofs::Says::ascending_three, crate::proofs::Says::three_clause))]
fn one_of_three(
    alloc: Global,
    low: Literal,
    middle: Literal,
    high: Literal,
) -> Result<Clause, NoMemory>
    requires ascending { low.code < middle.code }
    requires last { middle.code < high.code }
    ensures { IfOk result (λ c. IsClauseOf c high.code (λ v. literal_value v low || literal_value v middle || literal_value v high)) }
{
    let clause = Clause::from_slice(alloc, &[low, middle, high])?;
    Ok(clause)
}

// The literals that say that a wire is true, and that it is false.
fn literals_of(wire: u32) -> (Literal, Literal)
    requires { wire < 2 ^ 28 }
    ensures { AreLiteralsOf result wire }
{
    (Literal::of(wire, true), Literal::of(wire, false))
}
