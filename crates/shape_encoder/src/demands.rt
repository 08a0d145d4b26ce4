//! What is demanded of bits, gathered over all rules.

ghost use Rattle.std.specs.Prelude.{◌≡◌, ◌+◌, ◌*◌, ◌<◌, ◌≤◌, Bool, true, false, not, ◌&&◌, ◌||◌, length, replicate, slice_get, Some, IfOk, OnOk, IsTrue, All, List as Items};
ghost use Rattle.bool_circuit.specs.Circuit.{wire_value, IsWireOf, Extends};
ghost use Rattle.bool_circuit.specs.declared.circuit.TheConstants.{MOST_WIRES};
ghost use Rattle.set_bits.specs.declared.layout.Layout.{Layout};
ghost use Rattle.shown_instance.specs.Shown.{is_live};
ghost use Rattle.shape_encoder.specs.Reading.{IsBit};
ghost use Rattle.shape_encoder.specs.Demanding.{tells, IsAnswerIn, demand_cost, are_met, AreDemands, IsDemanded, IsMetSoFar};

use crate::amounts::Allowed;
use bool_circuit::{Circuit, MOST_WIRES, Wire};
use clf_base::NoMemory;
use set_bits::Layout;
use std::alloc::Global;

/// What has to hold of bits. A slot of which something is demanded that cannot be, where it is live, is only marked: so it takes two wires
/// at the end, however many rules it breaks.
#[derive(Drop)]
pub(crate) struct Demands {
    /// The wire that has to be true.
    pub(crate) all: Wire,
    /// By slot: whether it cannot be live.
    pub(crate) dead: Vec<bool>,
    /// Whether any bits can meet what is demanded.
    pub(crate) is_possible: bool,
}

fn no_marks(alloc: Global, count: usize) -> Result<Vec<bool>, NoMemory>
    ensures { IfOk result (λ marks. marks.items ≡ replicate count false) }
{
    let mut marks = Vec::new(alloc);
    for _made in 0..count {
        marks.push(false)?;
    }
    Ok(marks)
}

/// Nothing is demanded.
pub(crate) fn no_demands(
    alloc: Global,
    circuit: &mut Circuit,
    layout: &Layout,
) -> Result<Demands, NoMemory>
    requires room { length circuit.old + 1 ≤ MOST_WIRES }
    ensures demands { IfOk result (AreDemands circuit.new layout.now) }
    ensures value { IfOk result (λ d. (bits : Items Bool) → are_met circuit.new layout.now d bits ≡ true) }
    ensures extends { Extends circuit.old circuit.new 1 }
{
    let dead = no_marks(alloc, layout.slots.len())?;
    let all = circuit.constant(true)?;
    Ok(Demands {
        all,
        dead,
        is_possible: true,
    })
}

// Demands that a wire is true.
fn demand_wire(circuit: &mut Circuit, demands: &mut Demands, wire: Wire) -> Result<(), NoMemory>
    requires all_in { IsWireOf circuit.old demands.old.all }
    requires wire_in { IsWireOf circuit.old wire }
    requires room { length circuit.old + 1 ≤ MOST_WIRES }
    ensures wire { OnOk result (IsWireOf circuit.new demands.new.all) }
    ensures value { OnOk result ((bits : Items Bool) → wire_value circuit.new demands.new.all bits ≡ (wire_value circuit.old demands.old.all bits && wire_value circuit.old wire bits)) }
    ensures dead { demands.new.dead.items ≡ demands.old.dead.items }
    ensures is_possible { demands.new.is_possible ≡ demands.old.is_possible }
    ensures extends { Extends circuit.old circuit.new 1 }
{
    let all = circuit.and(demands.all, wire)?;
    demands.all = all;
    Ok(())
}

// A wire that is true where a slot isn't live, or what is asked of it holds.
fn dead_or(circuit: &mut Circuit, live: Wire, right: Wire) -> Result<Wire, NoMemory>
    requires live_in { IsWireOf circuit.old live }
    requires right_in { IsWireOf circuit.old right }
    requires room { length circuit.old + 2 ≤ MOST_WIRES }
    ensures wire { IfOk result (IsWireOf circuit.new) }
    ensures value { IfOk result (λ w. (bits : Items Bool) → wire_value circuit.new w bits ≡ (not (wire_value circuit.old live bits) || wire_value circuit.old right bits)) }
    ensures extends { Extends circuit.old circuit.new 2 }
{
    let dead = circuit.not(live)?;
    let wire = circuit.or(dead, right)?;
    Ok(wire)
}

// Demands of a slot that a wire is true where it is live.
fn demand_where(
    circuit: &mut Circuit,
    layout: &Layout,
    slot: usize,
    right: Wire,
    demands: &mut Demands,
) -> Result<(), NoMemory>
    requires slots { length layout.now.live ≡ length layout.now.slots }
    requires live_bits { All (IsBit circuit.old) layout.now.live }
    requires slot_in { slot < length layout.now.slots }
    requires demands { AreDemands circuit.old layout.now demands.old }
    requires right_in { IsWireOf circuit.old right }
    requires room { length circuit.old + 3 ≤ MOST_WIRES }
    ensures demanded { OnOk result (IsDemanded circuit.old layout.now demands.old (λ bits. not (is_live layout.now bits slot) || wire_value circuit.old right bits) circuit.new demands.new) }
    ensures extends { Extends circuit.old circuit.new 3 }
{
    let live = *layout.live.get(slot);
    let wire = dead_or(circuit, live, right)?;
    demand_wire(circuit, demands, wire)?;
    Ok(())
}

/// Demands of a slot what an answer tells, where it is live.
pub(crate) fn demand_of_slot(
    circuit: &mut Circuit,
    layout: &Layout,
    slot: usize,
    allowed: Allowed,
    demands: &mut Demands,
) -> Result<(), NoMemory>
    requires slots { length layout.now.live ≡ length layout.now.slots }
    requires live_bits { All (IsBit circuit.old) layout.now.live }
    requires slot_in { slot < length layout.now.slots }
    requires demands { AreDemands circuit.old layout.now demands.old }
    requires answer_in { IsAnswerIn circuit.old allowed }
    requires room { length circuit.old + demand_cost allowed ≤ MOST_WIRES }
    ensures demanded { OnOk result (IsDemanded circuit.old layout.now demands.old (λ bits. not (is_live layout.now bits slot) || tells circuit.old allowed bits) circuit.new demands.new) }
    ensures extends { Extends circuit.old circuit.new (demand_cost allowed) }
{
    match allowed {
        Allowed::Always => Ok(()),
        Allowed::Never => {
            demands.dead[slot] = true;
            Ok(())
        }
        Allowed::Where(right) => {
            demand_where(circuit, layout, slot, right, demands)?;
            Ok(())
        }
    }
}

/// Demands what an answer tells.
pub(crate) fn demand(
    circuit: &mut Circuit,
    allowed: Allowed,
    demands: &mut Demands,
) -> Result<(), NoMemory>
    requires all_in { IsWireOf circuit.old demands.old.all }
    requires answer_in { IsAnswerIn circuit.old allowed }
    requires room { length circuit.old + demand_cost allowed ≤ MOST_WIRES }
    ensures demanded { OnOk result ((layout : Layout) → AreDemands circuit.old layout demands.old → IsDemanded circuit.old layout demands.old (tells circuit.old allowed) circuit.new demands.new) }
    ensures extends { Extends circuit.old circuit.new (demand_cost allowed) }
{
    match allowed {
        Allowed::Always => Ok(()),
        Allowed::Never => {
            demands.is_possible = false;
            Ok(())
        }
        Allowed::Where(right) => {
            demand_wire(circuit, demands, right)?;
            Ok(())
        }
    }
}

// Whether a wire is true, and a slot isn't live if it cannot be.
fn and_dead(circuit: &mut Circuit, all: Wire, live: Wire, is_dead: bool) -> Result<Wire, NoMemory>
    requires all_in { IsWireOf circuit.old all }
    requires live_in { IsWireOf circuit.old live }
    requires room { length circuit.old + 2 ≤ MOST_WIRES }
    ensures wire { IfOk result (IsWireOf circuit.new) }
    ensures value { IfOk result (λ w. (bits : Items Bool) → wire_value circuit.new w bits ≡ (wire_value circuit.old all bits && not (is_dead && wire_value circuit.old live bits))) }
    ensures extends { Extends circuit.old circuit.new 2 }
{
    if !is_dead {
        return Ok(all);
    }
    let dead = circuit.not(live)?;
    let wire = circuit.and(all, dead)?;
    Ok(wire)
}

// Whether the demanded wire is true, and no slot is live that cannot be.
fn all_dead(circuit: &mut Circuit, layout: &Layout, demands: &Demands) -> Result<Wire, NoMemory>
    requires slots { length layout.now.live ≡ length layout.now.slots }
    requires live_bits { All (IsBit circuit.old) layout.now.live }
    requires demands { AreDemands circuit.old layout.now demands.now }
    requires room { length circuit.old + 2 * length layout.now.slots ≤ MOST_WIRES }
    ensures met { IfOk result (IsMetSoFar circuit.old layout.now demands.now (length layout.now.slots) circuit.new) }
    ensures extends { Extends circuit.old circuit.new (2 * length layout.now.slots) }
{
    let mut all = demands.all;
    for slot in 0..layout.slots.len() {
        let live = *layout.live.get(slot);
        let is_dead = demands.dead[slot];
        all = and_dead(circuit, all, live, is_dead)?;
    }
    Ok(all)
}

/// A wire that is true where bits meet what is demanded.
pub(crate) fn are_met(
    circuit: &mut Circuit,
    layout: &Layout,
    demands: &Demands,
) -> Result<Wire, NoMemory>
    requires slots { length layout.now.live ≡ length layout.now.slots }
    requires live_bits { All (IsBit circuit.old) layout.now.live }
    requires demands { AreDemands circuit.old layout.now demands.now }
    requires room { length circuit.old + (2 * length layout.now.slots + 1) ≤ MOST_WIRES }
    ensures wire { IfOk result (IsWireOf circuit.new) }
    ensures value { IfOk result (λ w. (bits : Items Bool) → wire_value circuit.new w bits ≡ are_met circuit.old layout.now demands.now bits) }
    ensures extends { Extends circuit.old circuit.new (2 * length layout.now.slots + 1) }
{
    if !demands.is_possible {
        let never = circuit.constant(false)?;
        return Ok(never);
    }
    let wire = all_dead(circuit, layout, demands)?;
    Ok(wire)
}
