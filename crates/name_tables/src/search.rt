//! From where the clafers of a name are reached, by a search from them outwards.

ghost use Rattle.std.specs.Prelude.{◌≡◌, ◌+◌, ◌<◌, ◌^◌, ℕ, List as Seq, length, IfOk, IsTrue};
ghost use Rattle.clf_tree.specs.Hierarchy.{is_closed};
ghost use Rattle.name_tables.specs.Labels.{label_at};
ghost use Rattle.name_tables.specs.Tables.{AreHeirs, IsLevel, OwnWay, Tells, named_among};

use crate::label::Label;
use crate::reach::{nearby, reach_first, reach_next};
use clf_base::{List, NoMemory};
use clf_tree::Clafer;
use std::alloc::Global;
use std::collections::HashMap;

// The labels so far, and the clafers that got theirs last.
#[derive(Drop)]
struct Search {
    labels: HashMap<u32, Label>,
    last: List<u32>,
}

fn by_one_step(alloc: Global, clafers: &List<Clafer>, named: &[u32]) -> Result<Search, NoMemory>
    requires closed { IsTrue (is_closed clafers.now) }
    ensures { IfOk result (λ s. (name : Seq ℕ) → named.now ≡ named_among clafers.now name (length clafers.now) → IsLevel clafers.now name 1 (label_at s.labels) s.last) }
{
    let mut labels = HashMap::new(alloc);
    let mut last = List::new(alloc);
    reach_first(clafers, named, &mut labels, &mut last)?;
    Ok(Search { labels, last })
}

fn by_next_step(
    alloc: Global,
    clafers: &List<Clafer>,
    heirs: &[List<u32>],
    steps: u32,
    search: Search,
) -> Result<Search, NoMemory>
    requires heirs { AreHeirs clafers.now (length clafers.now) heirs.now }
    requires closed { IsTrue (is_closed clafers.now) }
    requires some_step { 0 < steps }
    requires steps_in { steps + 1 < 2 ^ 32 }
    ensures { IfOk result (λ s. (name : Seq ℕ) → IsLevel clafers.now name steps (label_at search.labels) search.last → IsLevel clafers.now name (steps + 1) (label_at s.labels) s.last) }
{
    let last = nearby(alloc, &search.labels, search.last.as_slice())?;
    let mut labels = search.labels;
    let mut fresh = List::new(alloc);
    reach_next(
        clafers,
        heirs,
        last.as_slice(),
        steps + 1,
        &mut labels,
        &mut fresh,
    )?;
    Ok(Search {
        labels,
        last: fresh,
    })
}

/// For each clafer the label of the ways to the given clafers that begin at a child declared directly under it.
///
/// It goes outwards from the given clafers, a step at a time, to each clafer under which something is declared that leads to one
/// of them; and takes, for each of these, as long as it has heirs that are declared under another clafer.
pub fn labels_of(
    alloc: Global,
    clafers: &List<Clafer>,
    heirs: &[List<u32>],
    named: &[u32],
) -> Result<HashMap<u32, Label>, NoMemory>
    requires heirs { AreHeirs clafers.now (length clafers.now) heirs.now }
    requires closed { IsTrue (is_closed clafers.now) }
    requires few { length clafers.now < 2 ^ 32 }
    ensures { IfOk result (λ labels. (name : Seq ℕ) → named.now ≡ named_among clafers.now name (length clafers.now) → (p : ℕ) → Tells (OwnWay clafers.now name p) (label_at labels p)) }
{
    let mut search = by_one_step(alloc, clafers, named)?;
    for steps in 1..clafers.len() {
        if search.last.is_empty() {
            return Ok(search.labels);
        }
        search = by_next_step(alloc, clafers, heirs, steps as u32, search)?;
    }
    Ok(search.labels)
}
