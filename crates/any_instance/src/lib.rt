//! The question for any instance of a model: its space is built, the solver is asked once, and what the question leaves is handed back.
#![tactic(auto)]

ghost use Rattle.std.specs.Prelude.{◌≤◌, ◌<◌, ◌^◌, IfOk};
ghost use Rattle.question_space.specs.Asking.{HasNoVectors, IsAnswer, IsSettled};
ghost use Rattle.question_space.specs.Posing.{IsPosed};
ghost use Rattle.any_instance.specs.Settled.{IsKnown};

use clf_base::{List, NoMemory};
use clf_tree::{Instance, Question};
use model_reader::Read;
use question_space::{Answer, Space, Spending};
use search_guide::Guide;
use std::alloc::Global;

/// What is known of a model once its question is answered.
#[derive(Drop)]
pub enum Known {
    /// An instance.
    Instance(Instance),
    /// That it has none, and what the question leaves.
    Closed(Spending),
    /// Nothing, and what the question leaves.
    Spent(Spending),
}

/// Asks for an instance of a model that was read, with a budget of so many learned clauses.
///
/// It takes the memory of the wires and clauses of the model, and of what the search learns; all is given back but for what is handed out.
pub fn ask(
    alloc: Global,
    read: &Read,
    budget: u64,
    guide: &Guide,
    seed: u64,
) -> Result<Known, NoMemory>
    requires some { 0 < budget }
    requires few { budget ≤ 1000000000 }
    ensures known { IfOk result (IsKnown read.now budget) }
{
    let mut space = Space::build(alloc, read)?;
    let question = any(alloc);
    let answer = space.ask(alloc, &question, budget, guide, seed)?;
    let known = settled(space, question, answer, budget);
    Ok(known)
}

/// The question for any instance.
fn any(alloc: Global) -> Question
    ensures { HasNoVectors result }
{
    Question {
        found: List::new(alloc),
        improve: None,
    }
}

/// What is known by an answer.
fn settled(space: Space<'_>, question: Question, answer: Answer, _budget: u64) -> Known
    requires any { HasNoVectors question }
    requires posed { IsPosed space.read.now.model space.read.now.scopes question space.clauses.clauses space.parts }
    requires answer { IsAnswer space.read.now.model space.read.now.scopes question _budget space.clauses.clauses answer }
    requires enough { 3 ^ space.read.now.weight ≤ _budget → IsSettled answer }
    ensures { IsKnown space.entry.read.now _budget result }
{
    match answer {
        Answer::Found(instance) => Known::Instance(instance),
        Answer::Empty(claim) => Known::Closed(space.into_spending(question, claim)),
        Answer::Spent(claim) => Known::Spent(space.into_spending(question, claim)),
    }
}
