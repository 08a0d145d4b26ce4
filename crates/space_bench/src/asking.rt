//! Asking for an instance, and what the answer rests on.

ghost use Rattle.std.specs.Prelude.{◌<◌, ◌≤◌, IfOk, IsTrue};
ghost use Rattle.clause_store.specs.Satisfaction.{IsUnsatisfiable};
ghost use Rattle.question_space.specs.Asking.{HasNoVectors};

use clause_store::{Clauses, Derivation};
use clf_base::{List, NoMemory};
use clf_tree::Question;
use proof_checker::Checker;
use question_space::{Answer, Claim, Space};
use search_guide::Guide;
use std::alloc::Global;
use std::fmt;

/// Which answer there is.
#[derive(Clone, Copy, PartialEq, Eq, Debug)]
pub enum Kind {
    Instance,
    Nothing,
    Spent,
}

impl fmt::Display for Kind {
    fn fmt<W: fmt::Write>(&self, f: &mut fmt::Formatter<W>) -> fmt::Result {
        match self {
            Kind::Instance => write!(f, "an instance"),
            Kind::Nothing => write!(f, "no instance"),
            Kind::Spent => write!(f, "spent"),
        }
    }
}

pub fn kind_of(answer: &Answer) -> Kind {
    match answer {
        Answer::Found(_) => Kind::Instance,
        Answer::Empty(_) => Kind::Nothing,
        Answer::Spent(_) => Kind::Spent,
    }
}

/// The question for any instance.
fn any_instance(alloc: Global) -> Question
    ensures { HasNoVectors result }
{
    Question {
        found: List::new(alloc),
        improve: None,
    }
}

/// The answer to the question for any instance, with a budget of so many learned clauses.
pub fn ask(
    alloc: Global,
    space: &mut Space<'_>,
    guide: &Guide,
    budget: u64,
) -> Result<Answer, NoMemory>
    requires some { 0 < budget }
    requires few { budget ≤ 1000000000 }
{
    let question = any_instance(alloc);
    let answer = space.ask(alloc, &question, budget, guide, 0)?;
    Ok(answer)
}

/// Whether a new checker accepts that a derivation refutes clauses.
pub fn is_accepted(
    alloc: Global,
    clauses: &Clauses,
    derivation: &Derivation,
) -> Result<bool, NoMemory>
    ensures { IfOk result (λ accepted. IsTrue accepted → IsUnsatisfiable clauses.now.clauses) }
{
    let mut checker = Checker::open(alloc, clauses.variables())?;
    Ok(checker.accepts(clauses, derivation))
}

/// Whether a claim is over all clauses, and a new checker accepts its derivation.
fn is_refuted(alloc: Global, clauses: &Clauses, claim: &Claim) -> Result<bool, NoMemory>
    ensures { IfOk result (λ refuted. IsTrue refuted → IsUnsatisfiable clauses.now.clauses) }
{
    if claim.given != clauses.len() {
        return Ok(false);
    }
    is_accepted(alloc, clauses, &claim.derivation)
}

/// Whether an answer rests on what it has to: that there is no instance on a refutation of the clauses, and that the budget is spent
/// on as many chains.
pub fn is_right(
    alloc: Global,
    clauses: &Clauses,
    answer: &Answer,
    budget: u64,
) -> Result<bool, NoMemory> {
    match answer {
        Answer::Found(_) => Ok(true),
        Answer::Empty(claim) => is_refuted(alloc, clauses, claim),
        Answer::Spent(claim) => Ok(claim.derivation.chains.len() as u64 >= budget),
    }
}
