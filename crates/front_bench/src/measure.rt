//! How many questions a front takes, what the last of them rests on, and the time.

ghost use Rattle.std.specs.Prelude.{◌<◌, ◌≤◌};

use crate::checking::{is_refuted, is_spent};
use anyhow::{Result, ensure};
use certified_solver::decide;
use clause_store::{Clauses, Derivation};
use clf_tree::FrontEnd;
use model_reader::Read;
use pareto_loop::{Halt, Searched, front};
use question_space::{Claim, Space};
use search_guide::Guide;
use std::fmt;
use std::time::Instant;

/// How many clauses a search may learn.
pub const BUDGET: u64 = 1_000_000_000;

/// The most clauses, and the most variables, of a question that is measured.
const MOST_CLAUSES: u32 = 100_000_000;

/// How a search ended.
#[derive(Clone, Copy, PartialEq, Eq, Debug)]
pub enum Ended {
    Finished,
    Spent,
    Full,
}

impl fmt::Display for Ended {
    fn fmt<W: fmt::Write>(&self, f: &mut fmt::Formatter<W>) -> fmt::Result {
        match self {
            Ended::Finished => write!(f, "the whole front"),
            Ended::Spent => write!(f, "spent"),
            Ended::Full => write!(f, "and more"),
        }
    }
}

/// What a search came to.
#[derive(Clone, Copy, Debug)]
pub struct Count {
    pub ended: Ended,
    pub points: usize,
    pub questions: u64,
}

/// The last question of a search that finished or was spent, with what its answer rests on. Each wire is a variable of the clauses.
#[derive(Clone, Copy, Debug)]
pub struct Last {
    pub wires: u32,
    pub clauses: u32,
    pub chains: usize,
    pub steps: usize,
    /// Whether a new checker accepts the refutation, or as many chains were made as the budget allows.
    pub is_right: bool,
}

/// The times of a question in microseconds.
#[derive(Clone, Copy, Debug)]
pub struct Times {
    /// From the model and the vectors to clauses.
    pub encoding: u64,
    /// From the clauses to an answer, without the check.
    pub searching: u64,
    pub checking: u64,
}

/// What is told of a model.
#[derive(Clone, Copy, Debug)]
pub struct Measured {
    pub count: Count,
    pub last: Option<Last>,
    /// The time of all questions in microseconds.
    pub all: u64,
    pub times: Option<Times>,
}

/// How the questions of a model are asked, up to how many points, and whether the times of the last one are wanted.
#[derive(Clone, Copy)]
pub struct Ask<'a> {
    pub guide: &'a Guide,
    pub most: u32,
    pub budget: u64,
    pub is_timed: bool,
}

/// Microseconds since an instant.
fn since(rt: &HostRuntime, start: &Instant) -> Result<u64> {
    let micros = start.elapsed(rt)?.as_micros();
    Ok(u64::try_from(micros)?)
}

fn steps_of(derivation: &Derivation) -> usize {
    let mut steps: usize = 0;
    for chain in derivation.chains.as_slice() {
        steps = steps.wrapping_add(chain.steps.len());
    }
    steps
}

/// How a search ended, and what it counted.
pub fn count_of(searched: &Searched) -> Count {
    let ended = match &searched.front.ended {
        FrontEnd::Finished => Ended::Finished,
        FrontEnd::Spent => Ended::Spent,
        FrontEnd::Full(_) => Ended::Full,
    };
    Count {
        ended,
        points: searched.front.points.len(),
        questions: searched.questions,
    }
}

/// What a claim about clauses comes to: a refutation where the search finished, else a budget that is spent.
fn last_of(
    rt: &HostRuntime,
    clauses: &Clauses,
    claim: &Claim,
    ended: Ended,
    budget: u64,
) -> Result<Last> {
    let is_right = match ended {
        Ended::Finished => is_refuted(rt.alloc(), clauses, claim)?,
        _ => is_spent(claim, budget),
    };
    Ok(Last {
        wires: clauses.variables(),
        clauses: clauses.len(),
        chains: claim.derivation.chains.len(),
        steps: steps_of(&claim.derivation),
        is_right,
    })
}

/// How long the checker takes where there is a refutation.
fn time_checking(
    rt: &HostRuntime,
    clauses: &Clauses,
    claim: &Claim,
    ended: Ended,
    budget: u64,
) -> Result<u64> {
    if ended != Ended::Finished {
        return Ok(0);
    }
    let start = Instant::now(rt)?;
    let last = last_of(rt, clauses, claim, ended, budget)?;
    ensure!(last.is_right, "a refutation is refused");
    since(rt, &start)
}

/// How long the solver takes, with the check of a refutation.
fn time_deciding(rt: &HostRuntime, clauses: &Clauses, guide: &Guide, budget: u64) -> Result<u64> {
    ensure!(budget > 0 && budget <= BUDGET, "no such budget");
    ensure!(clauses.len() < MOST_CLAUSES, "too many clauses");
    ensure!(clauses.variables() < MOST_CLAUSES, "too many variables");
    let start = Instant::now(rt)?;
    let _ = decide(rt.alloc(), clauses, budget, guide, 0)?;
    since(rt, &start)
}

/// How long the last question of a search takes, asked once more.
fn time_asking(
    rt: &HostRuntime,
    space: &mut Space<'_>,
    halt: &Halt,
    guide: &Guide,
    budget: u64,
) -> Result<u64> {
    ensure!(budget > 0 && budget <= BUDGET, "no such budget");
    ensure!(halt.question.found.len() <= 1024, "too many vectors");
    let start = Instant::now(rt)?;
    let _ = space.ask(rt.alloc(), &halt.question, budget, guide, 0)?;
    since(rt, &start)
}

/// How long each part of the last question of a search takes. To encode takes what the question takes longer than its clauses, with a
/// budget of a single clause for both: the better of two times.
fn time_last(
    rt: &HostRuntime,
    space: &mut Space<'_>,
    halt: &Halt,
    ended: Ended,
    ask: Ask<'_>,
) -> Result<Times> {
    let Ask { guide, budget, .. } = ask;
    let checking = time_checking(rt, space.clauses(), &halt.claim, ended, budget)?;
    let deciding = time_deciding(rt, space.clauses(), guide, budget)?;
    let first = time_deciding(rt, space.clauses(), guide, 1)?;
    let second = time_deciding(rt, space.clauses(), guide, 1)?;
    let opening = first.min(second);
    let first = time_asking(rt, space, halt, guide, 1)?;
    let second = time_asking(rt, space, halt, guide, 1)?;
    let asking = first.min(second);
    Ok(Times {
        encoding: asking.saturating_sub(opening),
        searching: deciding.saturating_sub(checking),
        checking,
    })
}

/// What the last question of a search comes to, with its times if wanted.
fn measure_last(
    rt: &HostRuntime,
    space: &mut Space<'_>,
    halt: &Halt,
    ended: Ended,
    ask: Ask<'_>,
) -> Result<(Last, Option<Times>)> {
    let last = last_of(rt, space.clauses(), &halt.claim, ended, ask.budget)?;
    if !ask.is_timed {
        return Ok((last, None));
    }
    let times = time_last(rt, space, halt, ended, ask)?;
    Ok((last, Some(times)))
}

/// Searches the front of a model, and tells how many questions it takes and how long.
pub fn measure(rt: &HostRuntime, read: &Read, ask: Ask<'_>) -> Result<Measured> {
    ensure!(ask.most > 0 && ask.most <= 1024, "too many points");
    ensure!(ask.budget > 0 && ask.budget <= BUDGET, "no such budget");
    let mut space = Space::build(rt.alloc(), read)?;
    let start = Instant::now(rt)?;
    let searched = front(rt.alloc(), &mut space, ask.most, ask.budget, ask.guide, 0)?;
    let all = since(rt, &start)?;
    let count = count_of(&searched);
    let mut measured = Measured {
        count,
        last: None,
        all,
        times: None,
    };
    if let Some(halt) = &searched.halt {
        let (last, times) = measure_last(rt, &mut space, halt, count.ended, ask)?;
        measured.last = Some(last);
        measured.times = times;
    }
    Ok(measured)
}
