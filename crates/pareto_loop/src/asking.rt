//! One question beyond the points.

ghost use Rattle.std.specs.Prelude.{◌≡◌, ◌≤◌, length, IfOk, IsTrue};
ghost use Rattle.clf_tree.specs.Front.{before, ways_of};
ghost use Rattle.clf_tree.specs.Lists.{each_two};
ghost use Rattle.goal_vectors.specs.Points.{vectors_of};
ghost use Rattle.pareto_loop.specs.Searching.{told_of, IsTold};

use crate::questions::question;
use crate::searched::Halt;
use crate::task::Task;
use clf_base::NoMemory;
use clf_tree::{Instance, Point, Question, Vector};
use question_space::{Answer, Space};
use std::alloc::Global;

/// What a question gave: an instance, that there is none, or a spent budget, each but the first with the question.
#[derive(Drop)]
pub(crate) enum Told {
    Found(Instance),
    Empty(Halt),
    Spent(Halt),
}

/// An answer with its question.
fn with_question(question: Question, answer: Answer) -> Told
    ensures { result ≡ told_of question answer }
{
    match answer {
        Answer::Found(instance) => Told::Found(instance),
        Answer::Empty(claim) => Told::Empty(Halt { question, claim }),
        Answer::Spent(claim) => Told::Spent(Halt { question, claim }),
    }
}

/// Asks for an instance whose vector is better somewhere than each point, and that dominates the one to improve, if there is one.
///
/// It copies the vectors of the points, and counts the question.
pub(crate) fn ask_beyond(
    alloc: Global,
    space: &mut Space<'_>,
    task: &Task<'_>,
    points: &[Point],
    improve: Option<Vector>,
    questions: &mut u64,
) -> Result<Told, NoMemory>
    requires same { space.old.read.now ≡ task.now.read.now }
    requires few { length points.now ≤ 1024 }
    requires ordered { IsTrue (each_two (before (ways_of task.now.read.now.model)) (vectors_of points.now)) }
    ensures same { space.new.read.now ≡ task.now.read.now }
    ensures told { IfOk result (IsTold task.now.read.now task.now.budget points.now improve space.new.clauses space.new.parts) }
{
    *questions = questions.saturating_add(1);
    let asked = question(alloc, points, improve)?;
    let answer = space.ask(alloc, &asked, task.budget, task.guide, task.seed)?;
    let told = with_question(asked, answer);
    Ok(told)
}
