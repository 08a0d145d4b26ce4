//! From where a name is reached, by one step more.

ghost use Rattle.std.specs.Prelude.{◌≡◌, ◌+◌, ◌<◌, ◌^◌, ◌||◌, ◌&&◌, [], ℕ, List as Seq, map, length, is_some, is_none, IfOk, OnOk, IsTrue, get_or, if◌then◌else◌, ◌==◌};
ghost use Rattle.clf_tree.specs.Hierarchy.{is_closed, parent_of};
ghost use Rattle.clf_tree.specs.Lists.{has};
ghost use Rattle.name_tables.specs.Labels as spec;
ghost use Rattle.name_tables.specs.Labels.{label_at, only_at};

use crate::label::{Label, Nearby, shortest};
use clf_base::{List, NoMemory};
use clf_tree::Clafer;
use std::alloc::Global;
use std::collections::HashMap;

/// The clafer under which a clafer is declared, if it is there.
pub fn parent_of(clafers: &List<Clafer>, clafer: u32) -> Option<u32>
    ensures { result ≡ parent_of clafers.now clafer }
{
    if clafer as usize >= clafers.len() {
        return None;
    }
    clafers.get(clafer as usize).parent
}

// Adds a label to what is known at a clafer, and the clafer to those that had none.
fn add_label(
    clafer: u32,
    label: Label,
    labels: &mut HashMap<u32, Label>,
    fresh: &mut List<u32>,
) -> Result<(), NoMemory>
    ensures labels { OnOk result ((p : ℕ) → label_at labels.new p ≡ (if clafer == p then spec.shortest (label_at labels.old p) (Some label) else label_at labels.old p)) }
    ensures fresh { OnOk result ((p : ℕ) → has fresh.new p ≡ (has fresh.old p || (is_some (label_at labels.new p) && is_none (label_at labels.old p)))) }
{
    let known = labels.get(&clafer).copied();
    if known.is_none() {
        fresh.push(clafer)?;
    }
    if let Some(all) = shortest(known, Some(label)) {
        labels.insert(clafer, all)?;
    }
    Ok(())
}

// What is declared so reaches the name by so many steps.
fn reach(
    clafers: &List<Clafer>,
    child: u32,
    steps: u32,
    only: Option<u32>,
    labels: &mut HashMap<u32, Label>,
    fresh: &mut List<u32>,
) -> Result<(), NoMemory>
    ensures labels { OnOk result ((p : ℕ) → label_at labels.new p ≡ spec.reached clafers.now child steps only p (label_at labels.old p)) }
    ensures fresh { OnOk result ((p : ℕ) → has fresh.new p ≡ (has fresh.old p || (is_some (label_at labels.new p) && is_none (label_at labels.old p)))) }
{
    if let Some(parent) = parent_of(clafers, child) {
        let label = Label {
            steps,
            only,
            next: child,
        };
        add_label(parent, label, labels, fresh)?;
    }
    Ok(())
}

fn reach_all(
    clafers: &List<Clafer>,
    children: &[u32],
    steps: u32,
    only: Option<u32>,
    labels: &mut HashMap<u32, Label>,
    fresh: &mut List<u32>,
) -> Result<(), NoMemory>
    ensures labels { OnOk result ((p : ℕ) → label_at labels.new p ≡ spec.reached_all clafers.now children.now steps only p (label_at labels.old p)) }
    ensures fresh { OnOk result ((p : ℕ) → has fresh.new p ≡ (has fresh.old p || (is_some (label_at labels.new p) && is_none (label_at labels.old p)))) }
{
    for child in children {
        reach(clafers, *child, steps, only, labels, fresh)?;
    }
    Ok(())
}

/// The clafers under which the given ones are declared reach the name by one step.
pub fn reach_first(
    clafers: &List<Clafer>,
    named: &[u32],
    labels: &mut HashMap<u32, Label>,
    fresh: &mut List<u32>,
) -> Result<(), NoMemory>
    ensures labels { OnOk result ((p : ℕ) → label_at labels.new p ≡ spec.reached_first clafers.now named.now p (label_at labels.old p)) }
    ensures fresh { OnOk result ((p : ℕ) → has fresh.new p ≡ (has fresh.old p || (is_some (label_at labels.new p) && is_none (label_at labels.old p)))) }
{
    for clafer in named {
        reach(clafers, *clafer, 1, Some(*clafer), labels, fresh)?;
    }
    Ok(())
}

fn heirs_of(heirs: &[List<u32>], clafer: u32) -> &[u32]
    ensures { result.now ≡ get_or heirs.now clafer [] }
{
    match heirs.get(clafer as usize) {
        Some(list) => list.as_slice(),
        None => &[],
    }
}

/// The clafers under which an heir of the given ones is declared reach the name by so many steps.
pub fn reach_next(
    clafers: &List<Clafer>,
    heirs: &[List<u32>],
    last: &[Nearby],
    steps: u32,
    labels: &mut HashMap<u32, Label>,
    fresh: &mut List<u32>,
) -> Result<(), NoMemory>
    ensures labels { OnOk result ((p : ℕ) → label_at labels.new p ≡ spec.reached_next clafers.now heirs.now last.now steps p (label_at labels.old p)) }
    ensures fresh { OnOk result ((p : ℕ) → has fresh.new p ≡ (has fresh.old p || (is_some (label_at labels.new p) && is_none (label_at labels.old p)))) }
{
    for nearby in last {
        let through = heirs_of(heirs, nearby.clafer);
        reach_all(clafers, through, steps, nearby.only, labels, fresh)?;
    }
    Ok(())
}

fn only_at(labels: &HashMap<u32, Label>, clafer: u32) -> Nearby
    ensures { result ≡ only_at labels.now clafer }
{
    let only = match labels.get(&clafer) {
        Some(label) => label.only,
        None => None,
    };
    Nearby { clafer, only }
}

/// What is known at the given clafers.
pub fn nearby(
    alloc: Global,
    labels: &HashMap<u32, Label>,
    clafers: &[u32],
) -> Result<List<Nearby>, NoMemory>
    ensures { IfOk result (λ all. all ≡ map (only_at labels.now) clafers.now) }
{
    let mut all = List::new(alloc);
    for clafer in clafers {
        all.push(only_at(labels, *clafer))?;
    }
    Ok(all)
}
