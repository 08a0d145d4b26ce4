//! Whether nodes have different targets.

ghost use Rattle.std.specs.Prelude.{◌≡◌, ◌+◌, ◌*◌, ◌^◌, ◌<◌, ◌≤◌, Bool, ◌&&◌, length, IfOk, All, List as Items};
ghost use Rattle.bool_circuit.specs.Circuit.{wire_value, IsWireOf, Extends};
ghost use Rattle.bool_circuit.specs.declared.circuit.TheConstants.{MOST_WIRES};
ghost use Rattle.shape_encoder.specs.Reading.{IsBit};
ghost use Rattle.shown_instance.specs.Distinct.{targets_differ};
ghost use Rattle.clf_tree.specs.Lists.{numbers_below, each_two};
ghost use Rattle.shown_instance.specs.Consistent.{are_single};
ghost use Rattle.shape_encoder.specs.Comparing.{HoldsBy, HoldsEdges, clafer_from, is_single_at, IsOrdered, turned_by, AreSingleSoFar, nested_cost, single_cost, singles_cost};

use crate::joining::edges_of_clafers;
use crate::nested::nested_differ;
use crate::taking::take_edges;
use crate::telling::is_counted;
use crate::twins::Ties;
use bool_circuit::{Circuit, MOST_WIRES, Wire};
use clf_base::{List, NoMemory};
use clf_tree::Clafer;
use set_bits::{Edge, Layout};
use std::alloc::Global;

// True where `all` is and no two of the edges are taken that lead from one slot.
fn and_single(
    alloc: Global,
    circuit: &mut Circuit,
    edges: &List<Edge>,
    all: Wire,
) -> Result<Wire, NoMemory>
    requires bits { All (λ e. IsBit circuit.old e.here) edges.now }
    requires all_in { IsWireOf circuit.old all }
    requires room { length circuit.old + (4 * length edges.now + 2) ≤ MOST_WIRES }
    ensures wire { IfOk result (IsWireOf circuit.new) }
    ensures value { IfOk result (λ w. (bits : Items Bool) → wire_value circuit.new w bits ≡ (wire_value circuit.old all bits && are_single edges.now bits)) }
    ensures extends { Extends circuit.old circuit.new (4 * length edges.now + 2) }
{
    let taken = take_edges(alloc, circuit, edges)?;
    let single = taken.single;
    let right = circuit.and(all, single)?;
    Ok(right)
}

// True where `all` is and no two slots of a clafer have one target, if this stands at top level and has to.
fn and_clafer(
    alloc: Global,
    circuit: &mut Circuit,
    clafers: &List<Clafer>,
    layout: &Layout,
    edges: &List<Edge>,
    clafer: u32,
    all: Wire,
) -> Result<Wire, NoMemory>
    requires edges_are { edges.now ≡ turned_by (clafer_from layout.now) layout.now.targets clafer }
    requires target_bits { All (λ e. IsBit circuit.old e.here) layout.now.targets }
    requires all_in { IsWireOf circuit.old all }
    requires room { length circuit.old + single_cost clafers.now layout.now clafer ≤ MOST_WIRES }
    ensures wire { IfOk result (IsWireOf circuit.new) }
    ensures value { IfOk result (λ w. (bits : Items Bool) → wire_value circuit.new w bits ≡ (wire_value circuit.old all bits && is_single_at clafers.now layout.now bits clafer)) }
    ensures extends { Extends circuit.old circuit.new (single_cost clafers.now layout.now clafer) }
{
    if !is_counted(clafers, clafer) {
        return Ok(all);
    }
    if edges.is_empty() {
        return Ok(all);
    }
    let right = and_single(alloc, circuit, edges, all)?;
    Ok(right)
}

// Whether no two slots of one top-level clafer have one target where its reference is of set kind.
fn are_single(
    alloc: Global,
    circuit: &mut Circuit,
    clafers: &List<Clafer>,
    layout: &Layout,
    table: &Vec<List<Edge>>,
) -> Result<Wire, NoMemory>
    requires few { length clafers.now < 2 ^ 32 }
    requires table { HoldsBy (clafer_from layout.now) layout.now.targets (length clafers.now) table.now.items }
    requires target_bits { All (λ e. IsBit circuit.old e.here) layout.now.targets }
    requires room { length circuit.old + (singles_cost clafers.now layout.now (length clafers.now) + 1) ≤ MOST_WIRES }
    ensures single { IfOk result (AreSingleSoFar circuit.old clafers.now layout.now (length clafers.now) (singles_cost clafers.now layout.now (length clafers.now) + 1) circuit.new) }
    ensures extends { Extends circuit.old circuit.new (singles_cost clafers.now layout.now (length clafers.now) + 1) }
{
    let mut all = circuit.constant(true)?;
    for clafer in 0..clafers.len() {
        let edges = &table[clafer];
        all = and_clafer(alloc, circuit, clafers, layout, edges, clafer as u32, all)?;
    }
    Ok(all)
}

// Whether no two slots of one clafer have one target, and one parent if it is nested, where the reference is of set kind.
pub(crate) fn targets_differ(
    alloc: Global,
    circuit: &mut Circuit,
    clafers: &List<Clafer>,
    layout: &Layout,
    ties: &Ties,
) -> Result<Wire, NoMemory>
    requires few { length clafers.now < 2 ^ 32 }
    requires ordered { IsOrdered clafers.now layout.now }
    requires parents { HoldsEdges layout.now.parents (length layout.now.slots) ties.now.parents.items }
    requires targets { HoldsEdges layout.now.targets (length layout.now.slots) ties.now.targets.items }
    requires parent_bits { All (λ e. IsBit circuit.old e.here) layout.now.parents }
    requires target_bits { All (λ e. IsBit circuit.old e.here) layout.now.targets }
    requires room { length circuit.old + (nested_cost clafers.now layout.now + (singles_cost clafers.now layout.now (length clafers.now) + 1) + 1) ≤ MOST_WIRES }
    ensures wire { IfOk result (IsWireOf circuit.new) }
    ensures value { IfOk result (λ w. (bits : Items Bool) → wire_value circuit.new w bits ≡ each_two (targets_differ clafers.now layout.now bits) (numbers_below (length layout.now.slots))) }
    ensures extends { Extends circuit.old circuit.new (nested_cost clafers.now layout.now + (singles_cost clafers.now layout.now (length clafers.now) + 1) + 1) }
{
    let table = edges_of_clafers(alloc, layout, clafers.len())?;
    let nested = nested_differ(alloc, circuit, clafers, layout, ties)?;
    let single = are_single(alloc, circuit, clafers, layout, &table)?;
    let differ = circuit.and(nested, single)?;
    Ok(differ)
}
