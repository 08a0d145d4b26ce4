use anyhow::{Result, ensure};
use cdcl_search::{Ended, Search};
use clause_store::{Clauses, Derivation};
use proof_checker::Checker;
use search_guide::Guide;
use std::fmt;
use std::time::Instant;

/// How many clauses a search may learn.
const BUDGET: u64 = 1_000_000_000;

/// What became of a question, and what it took.
#[derive(Drop)]
pub struct Outcome {
    ended: Ended,
    /// Whether the checker has accepted the derivation.
    is_accepted: bool,
    conflicts: u64,
    /// How long the search took, in microseconds.
    pub searching: u64,
    /// How long the checker took, in microseconds.
    pub checking: u64,
}

impl Outcome {
    pub fn conflicts_a_second(&self) -> u64 {
        self.conflicts.wrapping_mul(1_000_000) / self.searching.max(1)
    }
}

impl fmt::Display for Outcome {
    fn fmt<W: fmt::Write>(&self, f: &mut fmt::Formatter<W>) -> fmt::Result {
        let conflicts = self.conflicts;
        match self.ended {
            Ended::Satisfied => write!(f, "satisfied after {conflicts} conflicts"),
            Ended::Refuted => write!(
                f,
                "refuted after {conflicts} conflicts, accepted {}",
                self.is_accepted
            ),
            Ended::Spent => write!(f, "spent after {conflicts} conflicts"),
        }
    }
}

/// Microseconds since an instant.
fn since(rt: &HostRuntime, start: &Instant) -> Result<u64> {
    let micros = start.elapsed(rt)?.as_micros();
    Ok(u64::try_from(micros)?)
}

/// Searches, and gives how it ended and the derivation.
fn search(rt: &HostRuntime, clauses: &Clauses, guide: &Guide) -> Result<(Ended, Derivation)> {
    ensure!(clauses.len() < 1_000_000, "too many clauses");
    ensure!(clauses.variables() < 1_000_000, "too many variables");
    let mut search = Search::open(rt.alloc(), clauses)?;
    let ended = search.run(BUDGET, guide, 0)?;
    Ok((ended, search.into_derivation()))
}

/// Searches, and lets the checker look at the derivation.
pub fn measure(rt: &HostRuntime, clauses: &Clauses, guide: &Guide) -> Result<Outcome> {
    let start = Instant::now(rt)?;
    let (ended, derivation) = search(rt, clauses, guide)?;
    let searching = since(rt, &start)?;
    let again = Instant::now(rt)?;
    let mut checker = Checker::open(rt.alloc(), clauses.variables())?;
    let is_accepted = checker.accepts(clauses, &derivation);
    let checking = since(rt, &again)?;
    Ok(Outcome {
        ended,
        is_accepted,
        conflicts: derivation.chains.len() as u64,
        searching,
        checking,
    })
}
