//! What stays the same in a search.

ghost use Rattle.std.specs.Prelude.{◌≡◌, ◌<◌, ◌≤◌, map, IfOk};
ghost use Rattle.clf_tree.specs.Front.{ways_of};
ghost use Rattle.goal_vectors.specs.Points.{FallsByDominance};
ghost use Rattle.pareto_loop.specs.Gaps.{gap};

use clf_base::{List, NoMemory};
use clf_tree::{Goal, Ways, intervals_hold};
use model_reader::Read;
use search_guide::Guide;
use std::alloc::Global;

/// The model of a search, which way each of its goals goes, and how each question is asked.
#[derive(Drop)]
pub(crate) struct Task<'a> {
    pub read: &'a Read,
    pub ways: Ways,
    pub budget: u64,
    pub guide: &'a Guide,
    pub seed: u64,
    pub ghost ways_are: { ways.least ≡ ways_of read.now.model },
    pub ghost some: { 0 < budget },
    pub ghost few: { budget ≤ 1000000000 },
}

impl<'a> Task<'a> {
    /// The task of a model. Nothing is said of the guide and the seed: no answer depends on them but by which instance it finds.
    pub fn new(
        alloc: Global,
        read: &'a Read,
        budget: u64,
        guide: &'a Guide,
        seed: u64,
    ) -> Result<Task<'a>, NoMemory>
        requires some { 0 < budget }
        requires few { budget ≤ 1000000000 }
        ensures read { IfOk result (λ t. t.read.now ≡ read.now) }
        ensures budget { IfOk result (λ t. t.budget ≡ budget) }
    {
        let model = read.model.model();
        let least = directions(alloc, model.goals.as_slice())?;
        Ok(Task {
            read,
            ways: Ways { least },
            budget,
            guide,
            seed,
        })
    }
}

/// For each goal whether it is to be least.
fn directions(alloc: Global, goals: &[Goal]) -> Result<List<bool>, NoMemory>
    ensures { IfOk result (λ least. least ≡ map (λ g. g.least) goals.now) }
{
    let mut least = List::new(alloc);
    for goal in goals {
        least.push(goal.least)?;
    }
    Ok(least)
}

/// The vectors of instances don't dominate each other without end: a number falls by each step.
pub(crate) fn dominance_ends(read: &Read)
    ensures { FallsByDominance read.now.model read.now.scopes (gap (ways_of read.now.model)) }
{
    intervals_hold();
    let _ = read.model.model();
}
