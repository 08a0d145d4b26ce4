//! What the labels of a name tell of the ways down from a clafer.

ghost use Rattle.std.specs.Prelude.{◌≡◌, IfOk};
ghost use Rattle.clf_tree.specs.Hierarchy.{super_of};
ghost use Rattle.name_tables.specs.Labels as spec;
ghost use Rattle.name_tables.specs.Labels.{label_at};

use crate::label::{Label, shortest};
use clf_base::{List, NoMemory};
use clf_tree::Clafer;
use std::alloc::Global;
use std::collections::HashMap;

fn label_at(labels: &HashMap<u32, Label>, clafer: u32) -> Option<Label>
    ensures { result ≡ label_at labels.now clafer }
{
    labels.get(&clafer).copied()
}

fn super_of(clafers: &List<Clafer>, clafer: u32) -> Option<u32>
    ensures { result ≡ super_of clafers.now clafer }
{
    if clafer as usize >= clafers.len() {
        return None;
    }
    clafers.get(clafer as usize).above
}

/// What is known of the shortest ways down from a clafer. It goes up from it.
pub fn label_below(
    clafers: &List<Clafer>,
    labels: &HashMap<u32, Label>,
    clafer: u32,
) -> Option<Label>
    ensures { result ≡ spec.label_below clafers.now labels.now clafer }
{
    let mut current = clafer;
    let mut known = None;
    for _step in 0..clafers.len() {
        known = shortest(known, label_at(labels, current));
        match super_of(clafers, current) {
            Some(above) => current = above,
            None => return known,
        }
    }
    shortest(known, label_at(labels, current))
}

/// So many steps down from a clafer, each to the child that its label tells.
pub fn way_down(
    alloc: Global,
    clafers: &List<Clafer>,
    labels: &HashMap<u32, Label>,
    clafer: u32,
    steps: u32,
) -> Result<List<u32>, NoMemory>
    ensures { IfOk result (λ way. way ≡ spec.way_down clafers.now labels.now steps clafer) }
{
    let mut way = List::new(alloc);
    let mut current = clafer;
    for _step in 0..steps {
        match label_below(clafers, labels, current) {
            Some(label) => current = label.next,
            None => return Ok(way),
        }
        way.push(current)?;
    }
    Ok(way)
}
