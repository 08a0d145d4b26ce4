//! Tables of edges by slot, of slots by clafer and of integers by slot.

ghost use Rattle.std.specs.Prelude.{◌≡◌, ◌++◌, ◌∷◌, [], ℕ, length, map};
ghost use Rattle.std.specs.Prelude.{nat_eq, if◌then◌else◌, slice_index_or, Some, None, IfOk, OnOk, List as Items};
ghost use Rattle.std.specs.Option.{option_or};
ghost use Rattle.clf_tree.specs.Lists.{numbers_below};
ghost use Rattle.told_constraints.specs.Told.{turned};
ghost use Rattle.node_encoder.specs.Tables.{AreBySlot, AreByClafer, AreIntegers};

use clf_base::{List, NoMemory};
use set_bits::{Edge, Layout};
use std::alloc::Global;

// Adds an edge to those of the slot from which it leads. The table reaches to that slot then.
fn add_edge(alloc: Global, table: &mut Vec<List<Edge>>, edge: Edge) -> Result<(), NoMemory>
    ensures { OnOk result ((k : ℕ) →
        slice_index_or table.new.items k [] ≡ slice_index_or table.old.items k [] ++ (if nat_eq edge.from k then edge ∷ [] else [])) }
{
    let slot = edge.from as usize;
    while table.len() <= slot {
        table.push(List::new(alloc))?;
    }
    table[slot].push(edge)?;
    Ok(())
}

// Adds a slot to those of its clafer. The table reaches to that clafer then.
fn add_slot(
    alloc: Global,
    table: &mut Vec<List<u32>>,
    clafer: u32,
    slot: u32,
) -> Result<(), NoMemory>
    ensures { OnOk result ((k : ℕ) →
        slice_index_or table.new.items k [] ≡ slice_index_or table.old.items k [] ++ (if nat_eq clafer k then slot ∷ [] else [])) }
{
    let place = clafer as usize;
    while table.len() <= place {
        table.push(List::new(alloc))?;
    }
    table[place].push(slot)?;
    Ok(())
}

// Gives a slot a place, unless it has one.
fn put_first(table: &mut Vec<Option<usize>>, slot: u32, place: usize) -> Result<(), NoMemory>
    ensures { OnOk result ((k : ℕ) →
        slice_index_or table.new.items k None ≡
        (if nat_eq slot k then option_or (slice_index_or table.old.items k None) (Some place) else slice_index_or table.old.items k None)) }
{
    let at = slot as usize;
    while table.len() <= at {
        table.push(None)?;
    }
    table[at] = table[at].or(Some(place));
    Ok(())
}

/// By slot, the edges that lead from it.
pub(crate) fn edges_from(alloc: Global, edges: &List<Edge>) -> Result<Vec<List<Edge>>, NoMemory>
    ensures { IfOk result (λ table. AreBySlot edges.now table.items) }
{
    let mut table = Vec::new(alloc);
    for at in 0..edges.len() {
        let edge = *edges.get(at);
        add_edge(alloc, &mut table, edge)?;
    }
    Ok(table)
}

/// By slot, the edges that lead to it, turned round.
pub(crate) fn edges_to(alloc: Global, edges: &List<Edge>) -> Result<Vec<List<Edge>>, NoMemory>
    ensures { IfOk result (λ table. AreBySlot (map turned edges.now) table.items) }
{
    let mut table = Vec::new(alloc);
    for at in 0..edges.len() {
        let edge = *edges.get(at);
        let turned = Edge {
            from: edge.to,
            to: edge.from,
            here: edge.here,
        };
        add_edge(alloc, &mut table, turned)?;
    }
    Ok(table)
}

/// By clafer, its slots. The wires of the slots are numbered as the slots.
pub(crate) fn slots_of_clafers(alloc: Global, layout: &Layout) -> Result<Vec<List<u32>>, NoMemory>
    requires { map (λ w. w.number) layout.now.live ≡ numbers_below (length layout.now.slots) }
    ensures { IfOk result (λ table. AreByClafer layout.now table.items) }
{
    let mut table = Vec::new(alloc);
    for at in 0..layout.slots.len() {
        let node = *layout.slots.get(at);
        let wire = *layout.live.get(at);
        add_slot(alloc, &mut table, node.clafer, wire.number)?;
    }
    Ok(table)
}

/// By slot, the place of its integer.
pub(crate) fn places_of_integers(
    alloc: Global,
    layout: &Layout,
) -> Result<Vec<Option<usize>>, NoMemory>
    ensures { IfOk result (λ table. AreIntegers layout.now table.items) }
{
    let mut table = Vec::new(alloc);
    for at in 0..layout.values.len() {
        let slot = layout.values.get(at).slot;
        put_first(&mut table, slot, at)?;
    }
    Ok(table)
}
