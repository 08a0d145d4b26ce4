//! The edges from the members of a set to slots of some clafers.

ghost use Rattle.std.specs.Prelude.{◌≡◌, ◌++◌, ◌∷◌, [], slice_index_or, IfOk, OnOk, List as Items};
ghost use Rattle.std.specs.List.{filter, flat_map};
ghost use Rattle.told_constraints.specs.Told.{is_listed};
ghost use Rattle.node_encoder.specs.Gathering.{edges_of, AreGathered};
ghost use Rattle.node_encoder.specs.Tables.{AreBySlot};

use crate::ground::Ground;
use crate::listing::is_listed;
use clf_base::{List, NoMemory};
use set_bits::{Edge, Layout, Member};
use std::alloc::Global;

/// Which edges a step goes along.
#[derive(Clone, Copy)]
pub(crate) enum Step {
    Down,
    Up,
    Follow,
}

// By slot, the edges of a step.
fn table_of<'a>(ground: &'a Ground<'_>, step: Step) -> &'a Vec<List<Edge>>
    ensures { AreBySlot (edges_of ground.now.layout.now step) result.now.items }
{
    match step {
        Step::Down => &ground.children,
        Step::Up => &ground.parents,
        Step::Follow => &ground.targets,
    }
}

// Adds an edge, if it leads to a slot of the clafers.
fn push_edge(
    layout: &Layout,
    ks: &[u32],
    edge: Edge,
    found: &mut List<Edge>,
) -> Result<(), NoMemory>
    ensures { OnOk result (found.new ≡ found.old ++ filter (λ e. is_listed layout.now ks.now e.to) (edge ∷ [])) }
{
    if !is_listed(layout, ks, edge.to) {
        return Ok(());
    }
    found.push(edge)?;
    Ok(())
}

// Adds those of some edges that lead to slots of the clafers.
fn push_edges(
    layout: &Layout,
    ks: &[u32],
    edges: &List<Edge>,
    found: &mut List<Edge>,
) -> Result<(), NoMemory>
    ensures { OnOk result (found.new ≡ found.old ++ filter (λ e. is_listed layout.now ks.now e.to) edges.now) }
{
    for at in 0..edges.len() {
        let edge = *edges.get(at);
        push_edge(layout, ks, edge, found)?;
    }
    Ok(())
}

// Adds the edges of a slot that lead to slots of the clafers.
fn push_row(
    layout: &Layout,
    ks: &[u32],
    table: &Vec<List<Edge>>,
    slot: u32,
    found: &mut List<Edge>,
) -> Result<(), NoMemory>
    ensures { OnOk result (found.new ≡
        found.old ++ filter (λ e. is_listed layout.now ks.now e.to) (slice_index_or table.now.items slot [])) }
{
    match table.get(slot as usize) {
        Some(row) => push_edges(layout, ks, row, found),
        None => Ok(()),
    }
}

// The edges of the members' rows that lead to slots of the clafers.
fn rows_of(
    alloc: Global,
    layout: &Layout,
    ks: &[u32],
    table: &Vec<List<Edge>>,
    of: &List<Member>,
) -> Result<List<Edge>, NoMemory>
    ensures { IfOk result (λ r. r ≡
        flat_map (λ m. filter (λ e. is_listed layout.now ks.now e.to) (slice_index_or table.now.items m.slot [])) of.now) }
{
    let mut found = List::new(alloc);
    for at in 0..of.len() {
        let slot = of.get(at).slot;
        push_row(layout, ks, table, slot, &mut found)?;
    }
    Ok(found)
}

/// The edges of a step from the members of a set to slots of the clafers. The time grows with the number of edges that begin at members,
/// times the number of the clafers.
pub(crate) fn gathered(
    alloc: Global,
    ground: &Ground<'_>,
    step: Step,
    ks: &[u32],
    of: &List<Member>,
) -> Result<List<Edge>, NoMemory>
    ensures { IfOk result (AreGathered ground.now.layout.now (edges_of ground.now.layout.now step) ks.now of.now) }
{
    let table = table_of(ground, step);
    let edges = rows_of(alloc, ground.layout, ks, table, of)?;
    Ok(edges)
}
