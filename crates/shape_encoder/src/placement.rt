//! Whether nodes have the parents and the targets that they have to have.

ghost use Rattle.std.specs.Prelude.{◌≡◌, ◌+◌, ◌*◌, ◌<◌, ◌≤◌, Bool, not, ◌||◌, ◌&&◌, length, IfOk, IfSome, All, List as Items};
ghost use Rattle.bool_circuit.specs.Circuit.{wire_value, IsWireOf, Extends};
ghost use Rattle.bool_circuit.specs.declared.circuit.TheConstants.{MOST_WIRES};
ghost use Rattle.clf_tree.specs.Hierarchy.{parent_of, target_of};
ghost use Rattle.set_bits.specs.Sets.{is_here};
ghost use Rattle.set_bits.specs.Reaching.{IsTableOf};
ghost use Rattle.shown_instance.specs.Placed.{have_taken, lead_to_live, have_parents, have_targets};
ghost use Rattle.shape_encoder.specs.Reading.{IsBit, IsLaid};
ghost use Rattle.shape_encoder.specs.Placing.{asks, placed_cost, HaveOneSoFar, LandSoFar};

use crate::consistency::leads_from_live;
use crate::taking::{take_edges, wire_of};
use bool_circuit::{Circuit, MOST_WIRES, Wire};
use clf_base::{List, NoMemory};
use clf_tree::{Clafer, CoreModel, reference_of};
use set_bits::{Edge, Layout};
use std::alloc::Global;

/// What ties a node to another one.
#[derive(Clone, Copy)]
pub(crate) enum Tie {
    Parent,
    Target,
}

/// The clafer under which a clafer is declared.
pub(crate) fn parent_of(clafers: &List<Clafer>, clafer: u32) -> Option<u32>
    ensures { result ≡ parent_of clafers.now clafer }
{
    match clafers.as_slice().get(clafer as usize) {
        Some(here) => here.parent,
        None => None,
    }
}

fn target_of(clafers: &List<Clafer>, clafer: u32) -> Option<u32>
    ensures { result ≡ target_of clafers.now clafer }
{
    match reference_of(clafers, clafer) {
        Some(reference) => reference.to,
        None => None,
    }
}

// Whether each instance of the clafer has to be tied to another node.
fn asks(clafers: &List<Clafer>, tie: Tie, clafer: u32) -> bool
    ensures { result ≡ asks tie clafers.now clafer }
{
    match tie {
        Tie::Parent => parent_of(clafers, clafer).is_some(),
        Tie::Target => target_of(clafers, clafer).is_some(),
    }
}

// Whether a slot, if one of its edges has to be taken, is dead or has one that is.
fn has_one(
    circuit: &mut Circuit,
    live: Wire,
    is_asked: bool,
    taken: Option<Wire>,
) -> Result<Wire, NoMemory>
    requires live_in { IsWireOf circuit.old live }
    requires taken_in { IfSome taken (IsWireOf circuit.old) }
    requires room { length circuit.old + 2 ≤ MOST_WIRES }
    ensures wire { IfOk result (IsWireOf circuit.new) }
    ensures value { IfOk result (λ w. (bits : Items Bool) → wire_value circuit.new w bits ≡ (not (wire_value circuit.old live bits && is_asked) || is_here circuit.old taken bits)) }
    ensures extends { Extends circuit.old circuit.new 2 }
{
    if !is_asked {
        let free = circuit.constant(true)?;
        return Ok(free);
    }
    let dead = circuit.not(live)?;
    match taken {
        None => Ok(dead),
        Some(some) => {
            let right = circuit.or(dead, some)?;
            Ok(right)
        }
    }
}

// Whether of each live slot whose clafer asks for one an edge is taken.
fn have_taken(
    circuit: &mut Circuit,
    clafers: &List<Clafer>,
    layout: &Layout,
    tie: Tie,
    taken: &Vec<Option<Wire>>,
) -> Result<Wire, NoMemory>
    requires slots { length layout.now.live ≡ length layout.now.slots }
    requires live_bits { All (IsBit circuit.old) layout.now.live }
    requires table { IsTableOf circuit.old taken.now.items }
    requires room { length circuit.old + (3 * length layout.now.live + 1) ≤ MOST_WIRES }
    ensures taken { IfOk result (HaveOneSoFar circuit.old (asks tie clafers.now) layout.now taken.now.items (length layout.now.live) circuit.new) }
    ensures extends { Extends circuit.old circuit.new (3 * length layout.now.live + 1) }
{
    let mut all = circuit.constant(true)?;
    for slot in 0..layout.live.len() {
        let clafer = layout.slots.get(slot).clafer;
        let is_asked = asks(clafers, tie, clafer);
        let live = *layout.live.get(slot);
        let right = has_one(circuit, live, is_asked, wire_of(taken, slot))?;
        all = circuit.and(all, right)?;
    }
    Ok(all)
}

// Whether each edge that is taken leads to a live slot.
fn lead_to_live(
    circuit: &mut Circuit,
    live: &List<Wire>,
    edges: &List<Edge>,
) -> Result<Wire, NoMemory>
    requires live_bits { All (IsBit circuit.old) live.now }
    requires bits { All (λ e. IsBit circuit.old e.here) edges.now }
    requires known { All (λ e. e.to < length live.now) edges.now }
    requires room { length circuit.old + (3 * length edges.now + 1) ≤ MOST_WIRES }
    ensures landed { IfOk result (LandSoFar circuit.old live.now edges.now (length edges.now) circuit.new) }
    ensures extends { Extends circuit.old circuit.new (3 * length edges.now + 1) }
{
    let mut all = circuit.constant(true)?;
    for at in 0..edges.len() {
        let edge = *edges.get(at);
        let there = *live.get(edge.to as usize);
        let right = leads_from_live(circuit, Some(edge.here), there)?;
        all = circuit.and(all, right)?;
    }
    Ok(all)
}

// Whether live slots are tied where their clafers ask for it, and to live slots alone.
fn are_tied(
    alloc: Global,
    circuit: &mut Circuit,
    clafers: &List<Clafer>,
    layout: &Layout,
    edges: &List<Edge>,
    tie: Tie,
) -> Result<Wire, NoMemory>
    requires slots { length layout.now.live ≡ length layout.now.slots }
    requires live_bits { All (IsBit circuit.old) layout.now.live }
    requires bits { All (λ e. IsBit circuit.old e.here) edges.now }
    requires known { All (λ e. e.to < length layout.now.live) edges.now }
    requires room { length circuit.old + placed_cost layout.now edges.now ≤ MOST_WIRES }
    ensures wire { IfOk result (IsWireOf circuit.new) }
    ensures value { IfOk result (λ w. (bits : Items Bool) → wire_value circuit.new w bits ≡ (have_taken (asks tie clafers.now) layout.now edges.now bits && lead_to_live layout.now edges.now bits)) }
    ensures extends { Extends circuit.old circuit.new (placed_cost layout.now edges.now) }
{
    let taken = take_edges(alloc, circuit, edges)?;
    let some = have_taken(circuit, clafers, layout, tie, &taken.wires)?;
    let landed = lead_to_live(circuit, &layout.live, edges)?;
    let right = circuit.and(some, landed)?;
    Ok(right)
}

/// A wire that is true exactly where each live slot of a nested clafer has a parent, and parents are live. There are at most seven wires
/// an edge and three a slot.
pub fn have_parents(
    alloc: Global,
    circuit: &mut Circuit,
    core: &CoreModel,
    layout: &Layout,
) -> Result<Wire, NoMemory>
    requires laid { IsLaid circuit.old layout.now }
    requires known { All (λ e. e.to < length layout.now.live) layout.now.parents }
    requires room { length circuit.old + placed_cost layout.now layout.now.parents ≤ MOST_WIRES }
    ensures wire { IfOk result (IsWireOf circuit.new) }
    ensures value { IfOk result (λ w. (bits : Items Bool) → wire_value circuit.new w bits ≡ have_parents core.now.clafers layout.now bits) }
    ensures extends { Extends circuit.old circuit.new (placed_cost layout.now layout.now.parents) }
{
    let wire = are_tied(
        alloc,
        circuit,
        &core.clafers,
        layout,
        &layout.parents,
        Tie::Parent,
    )?;
    Ok(wire)
}

/// A wire that is true exactly where each live slot whose clafer refers to a clafer has a target, and targets are live. There are at most
/// seven wires an edge and three a slot.
pub fn have_targets(
    alloc: Global,
    circuit: &mut Circuit,
    core: &CoreModel,
    layout: &Layout,
) -> Result<Wire, NoMemory>
    requires laid { IsLaid circuit.old layout.now }
    requires known { All (λ e. e.to < length layout.now.live) layout.now.targets }
    requires room { length circuit.old + placed_cost layout.now layout.now.targets ≤ MOST_WIRES }
    ensures wire { IfOk result (IsWireOf circuit.new) }
    ensures value { IfOk result (λ w. (bits : Items Bool) → wire_value circuit.new w bits ≡ have_targets core.now.clafers layout.now bits) }
    ensures extends { Extends circuit.old circuit.new (placed_cost layout.now layout.now.targets) }
{
    let wire = are_tied(
        alloc,
        circuit,
        &core.clafers,
        layout,
        &layout.targets,
        Tie::Target,
    )?;
    Ok(wire)
}
