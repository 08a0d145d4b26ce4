//! The size of a question, what its answer rests on, and the time that it takes.

use crate::BUDGET;
use crate::asking::{ask, is_accepted};
use anyhow::{Result, ensure};
use clause_store::{Clauses, Derivation};
use model_reader::Read;
use question_space::{Answer, Claim, Space};
use search_guide::Guide;
use set_bits::Layout;
use std::fmt;
use std::time::Instant;

/// How large a question is. Each wire is a variable of the clauses.
#[derive(Clone, Copy, Debug)]
pub struct Size {
    pub inputs: usize,
    pub wires: u32,
    pub clauses: u32,
    /// The structure and the constraints.
    pub parts: usize,
}

/// What an answer is, and how long its derivation.
#[derive(Clone, Copy, Debug)]
pub enum Outcome {
    Instance {
        nodes: usize,
    },
    Nothing {
        chains: usize,
        steps: usize,
        /// Whether a new checker accepts the derivation.
        is_accepted: bool,
    },
    Spent {
        chains: usize,
        steps: usize,
    },
}

/// What is told of a model, with times in microseconds.
#[derive(Clone, Copy, Debug)]
pub struct Measured {
    pub size: Size,
    pub outcome: Outcome,
    /// From the model to its wires.
    pub encoding: u64,
    /// From the wires to an answer: to clauses, the search, and the checker where there is no instance.
    pub asking: u64,
    /// The checker alone, once more.
    pub checking: u64,
}

impl fmt::Display for Outcome {
    fn fmt<W: fmt::Write>(&self, f: &mut fmt::Formatter<W>) -> fmt::Result {
        match *self {
            Outcome::Instance { nodes } => write!(f, "an instance of {nodes} nodes"),
            Outcome::Nothing {
                chains,
                steps,
                is_accepted,
            } => write!(
                f,
                "no instance by {chains} chains of {steps} steps, accepted {is_accepted}"
            ),
            Outcome::Spent { chains, steps } => {
                write!(f, "spent on {chains} chains of {steps} steps")
            }
        }
    }
}

/// Microseconds since an instant.
fn since(rt: &HostRuntime, start: &Instant) -> Result<u64> {
    let micros = start.elapsed(rt)?.as_micros();
    Ok(u64::try_from(micros)?)
}

/// How many bits the layout has.
fn bits_of(layout: &Layout) -> usize {
    let mut count = layout.live.len();
    count = count.wrapping_add(layout.parents.len());
    count = count.wrapping_add(layout.targets.len());
    for value in layout.values.as_slice() {
        count = count.wrapping_add(value.bits.len());
    }
    count
}

fn size_of(space: &Space<'_>) -> Size {
    Size {
        inputs: bits_of(&space.layout),
        wires: space.clauses().variables(),
        clauses: space.clauses().len(),
        parts: space.parts().len(),
    }
}

fn steps_of(derivation: &Derivation) -> usize {
    let mut steps: usize = 0;
    for chain in derivation.chains.as_slice() {
        steps = steps.wrapping_add(chain.steps.len());
    }
    steps
}

/// What a claim that there is no instance comes to, and how long a new checker takes.
fn refuted(rt: &HostRuntime, clauses: &Clauses, claim: &Claim) -> Result<(Outcome, u64)> {
    let start = Instant::now(rt)?;
    let is_accepted = is_accepted(rt.alloc(), clauses, &claim.derivation)?;
    let checking = since(rt, &start)?;
    let outcome = Outcome::Nothing {
        chains: claim.derivation.chains.len(),
        steps: steps_of(&claim.derivation),
        is_accepted,
    };
    Ok((outcome, checking))
}

/// What an answer comes to, and how long a new checker takes where there is no instance.
fn outcome_of(rt: &HostRuntime, clauses: &Clauses, answer: &Answer) -> Result<(Outcome, u64)> {
    match answer {
        Answer::Found(instance) => {
            let nodes = instance.entries.len();
            Ok((Outcome::Instance { nodes }, 0))
        }
        Answer::Empty(claim) => refuted(rt, clauses, claim),
        Answer::Spent(claim) => {
            let chains = claim.derivation.chains.len();
            let steps = steps_of(&claim.derivation);
            Ok((Outcome::Spent { chains, steps }, 0))
        }
    }
}

/// Asks, and tells what comes out and how long it takes.
fn measure_asking(
    rt: &HostRuntime,
    space: &mut Space<'_>,
    guide: &Guide,
    budget: u64,
) -> Result<(Outcome, u64, u64)> {
    ensure!(budget > 0 && budget <= BUDGET, "no such budget");
    let start = Instant::now(rt)?;
    let answer = ask(rt.alloc(), space, guide, budget)?;
    let asking = since(rt, &start)?;
    let (outcome, checking) = outcome_of(rt, space.clauses(), &answer)?;
    Ok((outcome, asking, checking))
}

/// Encodes a model, asks for an instance, and lets a new checker look at the claim.
pub fn measure(rt: &HostRuntime, read: &Read, guide: &Guide, budget: u64) -> Result<Measured> {
    let start = Instant::now(rt)?;
    let mut space = Space::build(rt.alloc(), read)?;
    let encoding = since(rt, &start)?;
    let (outcome, asking, checking) = measure_asking(rt, &mut space, guide, budget)?;
    Ok(Measured {
        size: size_of(&space),
        outcome,
        encoding,
        asking,
        checking,
    })
}
