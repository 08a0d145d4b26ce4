//! What joins two slots: edges of both that lead to one slot.

ghost use Rattle.std.specs.Prelude.{◌≡◌, ◌++◌, ◌∷◌, [], ℕ, ◌+◌, ◌*◌, ◌<◌, ◌≤◌, Bool, ◌||◌, ◌&&◌, length, nat_eq, replicate, IfOk, IfSome, OnOk, All, List as Items};
ghost use Rattle.bool_circuit.specs.Circuit.{wire_value, IsWireOf, Extends};
ghost use Rattle.bool_circuit.specs.declared.circuit.TheConstants.{MOST_WIRES};
ghost use Rattle.set_bits.specs.declared.layout.Edge.{Edge as AnEdge};
ghost use Rattle.set_bits.specs.Sets.{is_here};
ghost use Rattle.set_bits.specs.Reaching.{wire_at, IsTableOf};
ghost use Rattle.shape_encoder.specs.Reading.{IsBit};
ghost use Rattle.shape_encoder.specs.Comparing.{HoldsBy, HoldsEdges, clafer_from, IsJoinedSoFar, turned_from, IsMadeSoFar, IsTiedBy};

use crate::taking::{either, put, take_edges, wire_of};
use bool_circuit::{Circuit, MOST_WIRES, Wire};
use clf_base::{List, NoMemory};
use set_bits::{Edge, Layout};
use std::alloc::Global;

// As many empty lists.
fn empty_lists(alloc: Global, count: usize) -> Result<Vec<List<Edge>>, NoMemory>
    ensures { IfOk result (λ lists. lists.items ≡ replicate count []) }
{
    let mut lists = Vec::new(alloc);
    for _made in 0..count {
        lists.push(List::new(alloc))?;
    }
    Ok(lists)
}

// Adds an edge, turned round, to those at a place.
#[tactic(auto, using(crate::proofs::Turning::adding))]
fn add_edge(table: &mut Vec<List<Edge>>, place: usize, edge: Edge) -> Result<(), NoMemory>
    ensures { OnOk result ((key : AnEdge → ℕ) (edges : Items AnEdge) (count : ℕ) → key edge ≡ place → HoldsBy key edges count table.old.items → HoldsBy key (edges ++ edge ∷ []) count table.new.items) }
{
    if place < table.len() {
        let turned = Edge {
            from: edge.to,
            to: edge.from,
            here: edge.here,
        };
        table[place].push(turned)?;
    }
    Ok(())
}

// The edges of each of the first slots, turned round: they lead from what the slot can be tied to.
pub(crate) fn edges_of_slots(
    alloc: Global,
    edges: &List<Edge>,
    count: usize,
) -> Result<Vec<List<Edge>>, NoMemory>
    ensures { IfOk result (λ table. HoldsEdges edges.now count table.items) }
{
    let mut table = empty_lists(alloc, count)?;
    for at in 0..edges.len() {
        let edge = *edges.get(at);
        add_edge(&mut table, edge.from as usize, edge)?;
    }
    Ok(table)
}

// The target edges of each of the first clafers, turned round.
pub(crate) fn edges_of_clafers(
    alloc: Global,
    layout: &Layout,
    count: usize,
) -> Result<Vec<List<Edge>>, NoMemory>
    requires from { All (λ e. e.from < length layout.now.slots) layout.now.targets }
    ensures { IfOk result (λ table. HoldsBy (clafer_from layout.now) layout.now.targets count table.items) }
{
    let mut table = empty_lists(alloc, count)?;
    for at in 0..layout.targets.len() {
        let edge = *layout.targets.get(at);
        let clafer = layout.slots.get(edge.from as usize).clafer;
        add_edge(&mut table, clafer as usize, edge)?;
    }
    Ok(table)
}

// True where both are.
fn both(circuit: &mut Circuit, there: Option<Wire>, here: Wire) -> Result<Wire, NoMemory>
    requires there_in { IfSome there (IsWireOf circuit.old) }
    requires here_in { IsWireOf circuit.old here }
    requires room { length circuit.old + 1 ≤ MOST_WIRES }
    ensures wire { IfOk result (IsWireOf circuit.new) }
    ensures value { IfOk result (λ w. (bits : Items Bool) → wire_value circuit.new w bits ≡ (is_here circuit.old there bits && wire_value circuit.old here bits)) }
    ensures extends { Extends circuit.old circuit.new 1 }
{
    match there {
        None => circuit.constant(false),
        Some(other) => circuit.and(other, here),
    }
}

// Whether one of the edges is taken that leads from a slot whose wire is true.
pub(crate) fn join(
    circuit: &mut Circuit,
    table: &Vec<Option<Wire>>,
    edges: &List<Edge>,
) -> Result<Wire, NoMemory>
    requires table_in { IsTableOf circuit.old table.now.items }
    requires bits { All (λ e. IsBit circuit.old e.here) edges.now }
    requires room { length circuit.old + (2 * length edges.now + 1) ≤ MOST_WIRES }
    ensures joined { IfOk result (IsJoinedSoFar circuit.old table.now.items edges.now (length edges.now) circuit.new) }
    ensures extends { Extends circuit.old circuit.new (2 * length edges.now + 1) }
{
    let mut some = circuit.constant(false)?;
    for at in 0..edges.len() {
        let edge = *edges.get(at);
        let taken = both(circuit, wire_of(table, edge.from as usize), edge.here)?;
        some = circuit.or(some, taken)?;
    }
    Ok(some)
}

// The wires of the slots to which a slot can be tied.
pub(crate) fn tie(
    alloc: Global,
    circuit: &mut Circuit,
    edges: &List<Edge>,
) -> Result<Vec<Option<Wire>>, NoMemory>
    requires bits { All (λ e. IsBit circuit.old e.here) edges.now }
    requires room { length circuit.old + (4 * length edges.now + 1) ≤ MOST_WIRES }
    ensures tied { IfOk result (λ table. (all : Items AnEdge) (slot : ℕ) → edges.now ≡ turned_from all slot → IsTiedBy circuit.new all slot table.items) }
    ensures extends { Extends circuit.old circuit.new (4 * length edges.now + 1) }
{
    let taken = take_edges(alloc, circuit, edges)?;
    Ok(taken.wires)
}

// Gives the slot from which an edge leads its wire.
fn add_end(circuit: &mut Circuit, wires: &mut Vec<Option<Wire>>, edge: Edge) -> Result<(), NoMemory>
    requires table { IsTableOf circuit.old wires.old.items }
    requires edge_in { IsWireOf circuit.old edge.here }
    requires room { length circuit.old + 1 ≤ MOST_WIRES }
    ensures table { OnOk result (IsTableOf circuit.new wires.new.items) }
    ensures value { OnOk result ((bits : Items Bool) (k : ℕ) → is_here circuit.new (wire_at wires.new.items k) bits ≡ (is_here circuit.old (wire_at wires.old.items k) bits || (nat_eq edge.from k && wire_value circuit.old edge.here bits))) }
    ensures extends { Extends circuit.old circuit.new 1 }
{
    let before = wire_of(wires, edge.from as usize);
    let some = either(circuit, before, edge.here)?;
    put(wires, edge.from, some)?;
    Ok(())
}

/// A wire for each slot from which one of the edges leads.
pub(crate) fn ends_of(
    alloc: Global,
    circuit: &mut Circuit,
    edges: &List<Edge>,
) -> Result<Vec<Option<Wire>>, NoMemory>
    requires bits { All (λ e. IsBit circuit.old e.here) edges.now }
    requires room { length circuit.old + length edges.now ≤ MOST_WIRES }
    ensures made { IfOk result (λ table. IsMadeSoFar circuit.old edges.now (length edges.now) circuit.new table.items) }
    ensures extends { Extends circuit.old circuit.new (length edges.now) }
{
    let mut wires = Vec::new(alloc);
    for at in 0..edges.len() {
        let edge = *edges.get(at);
        add_end(circuit, &mut wires, edge)?;
    }
    Ok(wires)
}
