ghost use Rattle.std.specs.Prelude.{◌↔◌, ◌<◌, ◌+◌, ◌*◌, length, All, IsTrue};
ghost use Rattle.clause_store.specs.Resolution.{IsLawfulChain, Refutes, known_clauses};
ghost use Rattle.proof_checker.specs.Marks.{HasCodesBelow, HasChainCodesBelow, IsClear};
ghost use Rattle.proof_checker.specs.Checking.{IsClauseAt};

use crate::marks::{mark, resolve, unmark_exactly};
use clause_store::{Chain, Clauses, Literal};

/// The literals of the clause with a number: a given one, or the result of an earlier chain.
fn clause_named<'a>(
    clauses: &'a Clauses,
    earlier: &'a [Chain],
    number: u32,
) -> Option<&'a [Literal]>
    ensures { IsClauseAt (known_clauses (clauses.now.clauses) earlier.now) number result }
{
    let given = clauses.len();
    if number < given {
        return Some(clauses.get(number).literals());
    }
    let at = (number - given) as usize;
    if at < earlier.len() {
        return Some(earlier[at].result.literals());
    }
    None
}

/// Whether a chain is lawful. If so, no mark is left.
pub fn is_lawful_chain(
    marks: &mut [bool],
    clauses: &Clauses,
    earlier: &[Chain],
    chain: &Chain,
) -> bool
    requires clear { IsClear marks.old }
    requires known { All (HasCodesBelow (length marks.old)) (known_clauses (clauses.now.clauses) earlier.now) }
    requires chain { HasChainCodesBelow (length marks.old) chain.now }
    ensures lawful { IsTrue result ↔ IsLawfulChain (known_clauses (clauses.now.clauses) earlier.now) chain.now }
    ensures clear { IsTrue result → IsClear marks.new }
{
    let Some(start) = clause_named(clauses, earlier, chain.start) else {
        return false;
    };
    let mut count = mark(marks, start);
    let steps = chain.steps.as_slice();
    for step in steps {
        let Some(clause) = clause_named(clauses, earlier, step.clause) else {
            return false;
        };
        let Some(left) = resolve(marks, count, clause, step.pivot) else {
            return false;
        };
        count = left;
    }
    let outcome = chain.result.literals();
    unmark_exactly(marks, count, outcome)
}

/// Whether chains refute clauses. If so, no mark is left.
pub fn refutes(marks: &mut [bool], clauses: &Clauses, chains: &[Chain]) -> bool
    requires clear { IsClear marks.old }
    requires clauses { All (HasCodesBelow (length marks.old)) (clauses.now.clauses) }
    requires chains { All (HasChainCodesBelow (length marks.old)) chains.now }
    ensures refutes { IsTrue result ↔ Refutes (clauses.now.clauses) chains.now }
    ensures clear { IsTrue result → IsClear marks.new }
{
    let mut found = false;
    for (at, chain) in chains.iter().enumerate() {
        if !is_lawful_chain(marks, clauses, &chains[..at], chain) {
            return false;
        }
        if chain.result.literals().is_empty() {
            found = true;
        }
    }
    found
}
