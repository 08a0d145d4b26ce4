//! Limits on how many nodes there are: of some clafers below each slot of others, or in all.

ghost use Rattle.std.specs.Prelude.{◌≡◌, ◌+◌, ◌*◌, ◌<◌, ◌≤◌, Bool, false, not, ◌||◌, length, IfOk, OnOk, All, List as Items};
ghost use Rattle.bool_circuit.specs.Circuit.{IsWireOf, Extends};
ghost use Rattle.bool_circuit.specs.declared.circuit.TheConstants.{MOST_WIRES};
ghost use Rattle.int_widths.specs.Weight.{is_any};
ghost use Rattle.clf_tree.specs.Shape.{allows};
ghost use Rattle.shown_instance.specs.Shown.{is_live};
ghost use Rattle.shown_instance.specs.Bounds.{children_below, live_slots};
ghost use Rattle.shape_encoder.specs.Reading.{IsBit, IsLaid};
ghost use Rattle.shape_encoder.specs.Counting.{is_marked, AreChildren, AreCountedLive, counted_cost, most_counted, child_slots, each_cost, counted_slots};
ghost use Rattle.shape_encoder.specs.Demanding.{AreDemands, IsDemanded, EachDemandedSoFar, slot_test, slots_test, owner_cost};

use crate::amounts::is_allowed;
use crate::children::{Children, counted_wires};
use crate::counted::is_marked;
use crate::demands::{Demands, demand, demand_of_slot};
use bool_circuit::{Circuit, MOST_WIRES, Wire};
use clf_base::{List, NoMemory};
use clf_tree::Interval;
use set_bits::Layout;
use std::alloc::Global;

/// How many children of some clafers the nodes of others may have.
#[derive(Drop)]
pub(crate) struct Limit {
    /// By clafer: whether its nodes are limited.
    pub(crate) owners: Vec<bool>,
    /// By clafer: whether its nodes are counted.
    pub(crate) counted: Vec<bool>,
    pub(crate) interval: Interval,
}

// Demands that a slot, where it is live, has as many of the marked children as are allowed.
fn demand_children(
    alloc: Global,
    circuit: &mut Circuit,
    layout: &Layout,
    children: &Children,
    limit: &Limit,
    slot: usize,
    demands: &mut Demands,
) -> Result<(), NoMemory>
    requires laid { IsLaid circuit.old layout.now }
    requires table { AreChildren layout.now.slots layout.now.parents children.now.by_slot.items }
    requires slot_in { slot < length layout.now.slots }
    requires demands { AreDemands circuit.old layout.now demands.old }
    requires room { length circuit.old + counted_cost (child_slots layout.now (is_marked limit.now.counted.items) slot) (most_counted limit.now.interval (child_slots layout.now (is_marked limit.now.counted.items) slot)) ≤ MOST_WIRES }
    ensures demanded { OnOk result (IsDemanded circuit.old layout.now demands.old (λ bits. not (is_live layout.now bits slot) || allows limit.now.interval (children_below layout.now bits (is_marked limit.now.counted.items) slot)) circuit.new demands.new) }
    ensures extends { Extends circuit.old circuit.new (counted_cost (child_slots layout.now (is_marked limit.now.counted.items) slot) (most_counted limit.now.interval (child_slots layout.now (is_marked limit.now.counted.items) slot))) }
{
    let below = &children.by_slot[slot];
    let wires = counted_wires(alloc, below, &limit.counted)?;
    let allowed = is_allowed(alloc, circuit, &wires, limit.interval)?;
    demand_of_slot(circuit, layout, slot, allowed, demands)?;
    Ok(())
}

// The same of a slot whose clafer is limited, and nothing of another.
fn demand_of_owner(
    alloc: Global,
    circuit: &mut Circuit,
    layout: &Layout,
    children: &Children,
    limit: &Limit,
    slot: usize,
    demands: &mut Demands,
) -> Result<(), NoMemory>
    requires bounded { is_any limit.now.interval ≡ false }
    requires laid { IsLaid circuit.old layout.now }
    requires table { AreChildren layout.now.slots layout.now.parents children.now.by_slot.items }
    requires slot_in { slot < length layout.now.slots }
    requires demands { AreDemands circuit.old layout.now demands.old }
    requires room { length circuit.old + owner_cost layout.now (is_marked limit.now.owners.items) (is_marked limit.now.counted.items) limit.now.interval slot ≤ MOST_WIRES }
    ensures demanded { OnOk result (IsDemanded circuit.old layout.now demands.old (slot_test layout.now (is_marked limit.now.owners.items) (is_marked limit.now.counted.items) limit.now.interval slot) circuit.new demands.new) }
    ensures extends { Extends circuit.old circuit.new (owner_cost layout.now (is_marked limit.now.owners.items) (is_marked limit.now.counted.items) limit.now.interval slot) }
{
    if !is_marked(&limit.owners, layout.slots.get(slot).clafer) {
        return Ok(());
    }
    demand_children(alloc, circuit, layout, children, limit, slot, demands)?;
    Ok(())
}

/// Demands that the limit is kept at each slot.
pub(crate) fn demand_each(
    alloc: Global,
    circuit: &mut Circuit,
    layout: &Layout,
    children: &Children,
    limit: &Limit,
    demands: &mut Demands,
) -> Result<(), NoMemory>
    requires bounded { is_any limit.now.interval ≡ false }
    requires laid { IsLaid circuit.old layout.now }
    requires table { AreChildren layout.now.slots layout.now.parents children.now.by_slot.items }
    requires demands { AreDemands circuit.old layout.now demands.old }
    requires room { length circuit.old + each_cost layout.now (is_marked limit.now.owners.items) (is_marked limit.now.counted.items) limit.now.interval (length layout.now.slots) ≤ MOST_WIRES }
    ensures demanded { OnOk result (IsDemanded circuit.old layout.now demands.old (slots_test layout.now (is_marked limit.now.owners.items) (is_marked limit.now.counted.items) limit.now.interval (length layout.now.slots)) circuit.new demands.new) }
    ensures extends { Extends circuit.old circuit.new (each_cost layout.now (is_marked limit.now.owners.items) (is_marked limit.now.counted.items) limit.now.interval (length layout.now.slots)) }
{
    for slot in 0..layout.slots.len() {
        demand_of_owner(alloc, circuit, layout, children, limit, slot, demands)?;
    }
    Ok(())
}

// The wires of the slots whose clafers are marked.
fn live_wires(alloc: Global, layout: &Layout, marks: &Vec<bool>) -> Result<List<Wire>, NoMemory>
    requires { length layout.now.live ≡ length layout.now.slots }
    ensures { IfOk result (AreCountedLive layout.now (is_marked marks.now.items) (length layout.now.slots)) }
{
    let mut wires = List::new(alloc);
    for slot in 0..layout.slots.len() {
        if is_marked(marks, layout.slots.get(slot).clafer) {
            wires.push(*layout.live.get(slot))?;
        }
    }
    Ok(wires)
}

/// Demands that as many slots of the marked clafers are live as are allowed.
pub(crate) fn demand_live(
    alloc: Global,
    circuit: &mut Circuit,
    layout: &Layout,
    marks: &Vec<bool>,
    interval: Interval,
    demands: &mut Demands,
) -> Result<(), NoMemory>
    requires laid { IsLaid circuit.old layout.now }
    requires demands { AreDemands circuit.old layout.now demands.old }
    requires room { length circuit.old + counted_cost (counted_slots layout.now (is_marked marks.now.items)) (most_counted interval (counted_slots layout.now (is_marked marks.now.items))) ≤ MOST_WIRES }
    ensures demanded { OnOk result (IsDemanded circuit.old layout.now demands.old (λ bits. allows interval (live_slots layout.now bits (is_marked marks.now.items))) circuit.new demands.new) }
    ensures extends { Extends circuit.old circuit.new (counted_cost (counted_slots layout.now (is_marked marks.now.items)) (most_counted interval (counted_slots layout.now (is_marked marks.now.items)))) }
{
    let wires = live_wires(alloc, layout, marks)?;
    let allowed = is_allowed(alloc, circuit, &wires, interval)?;
    demand(circuit, allowed, demands)?;
    Ok(())
}
