//! Whether nodes are as many as multiplicities and group cardinalities allow.

ghost use Rattle.std.specs.Prelude.{◌≡◌, ◌+◌, ◌*◌, ◌<◌, ◌≤◌, ◌^◌, Bool, length, slice_get, Some, IfOk, OnOk, IsTrue, All, List as Items};
ghost use Rattle.bool_circuit.specs.Circuit.{wire_value, IsWireOf, Extends};
ghost use Rattle.bool_circuit.specs.declared.circuit.TheConstants.{MOST_WIRES};
ghost use Rattle.clf_tree.specs.Hierarchy.{is_closed};
ghost use Rattle.shown_instance.specs.Bounds.{have_times, have_group, have_bounds};
ghost use Rattle.shape_encoder.specs.Reading.{IsLaid};
ghost use Rattle.shape_encoder.specs.Counting.{AreChildren, times_cost, group_cost, clafer_cost, bounds_room, bounds_cost};
ghost use Rattle.shape_encoder.specs.Demanding.{AreDemands, IsDemanded, AllDemandedSoFar, clafer_test, clafers_test};

use crate::amounts::is_any;
use crate::children::{Children, children_of};
use crate::counted::{Counted, marks_of};
use crate::demands::{Demands, are_met, no_demands};
use crate::limits::{Limit, demand_each, demand_live};
use bool_circuit::{Circuit, MOST_WIRES, Wire};
use clf_base::{List, NoMemory};
use clf_tree::{Clafer, CoreModel};
use set_bits::Layout;
use std::alloc::Global;

// Demands the multiplicity of a clafer, below each live slot of its parent or among all slots.
fn demand_times(
    alloc: Global,
    circuit: &mut Circuit,
    clafers: &List<Clafer>,
    layout: &Layout,
    children: &Children,
    clafer: u32,
    here: &Clafer,
    demands: &mut Demands,
) -> Result<(), NoMemory>
    requires here { slice_get clafers.now clafer ≡ Some here.now }
    requires closed { IsTrue (is_closed clafers.now) }
    requires few { length clafers.now < 2 ^ 32 }
    requires laid { IsLaid circuit.old layout.now }
    requires table { AreChildren layout.now.slots layout.now.parents children.now.by_slot.items }
    requires demands { AreDemands circuit.old layout.now demands.old }
    requires room { length circuit.old + times_cost clafers.now layout.now clafer here.now ≤ MOST_WIRES }
    ensures demanded { OnOk result (IsDemanded circuit.old layout.now demands.old (λ bits. have_times clafers.now layout.now bits clafer here.now) circuit.new demands.new) }
    ensures extends { Extends circuit.old circuit.new (times_cost clafers.now layout.now clafer here.now) }
{
    if is_any(here.times) {
        return Ok(());
    }
    let counted = marks_of(alloc, clafers, Counted::Instances(clafer))?;
    match here.parent {
        Some(parent) => {
            let owners = marks_of(alloc, clafers, Counted::Instances(parent))?;
            let limit = Limit {
                owners,
                counted,
                interval: here.times,
            };
            demand_each(alloc, circuit, layout, children, &limit, demands)?;
            Ok(())
        }
        None => {
            demand_live(alloc, circuit, layout, &counted, here.times, demands)?;
            Ok(())
        }
    }
}

// Demands the group cardinality of a clafer below each of its live slots.
fn demand_group(
    alloc: Global,
    circuit: &mut Circuit,
    clafers: &List<Clafer>,
    layout: &Layout,
    children: &Children,
    clafer: u32,
    here: &Clafer,
    demands: &mut Demands,
) -> Result<(), NoMemory>
    requires here { slice_get clafers.now clafer ≡ Some here.now }
    requires closed { IsTrue (is_closed clafers.now) }
    requires few { length clafers.now < 2 ^ 32 }
    requires laid { IsLaid circuit.old layout.now }
    requires table { AreChildren layout.now.slots layout.now.parents children.now.by_slot.items }
    requires demands { AreDemands circuit.old layout.now demands.old }
    requires room { length circuit.old + group_cost clafers.now layout.now clafer here.now ≤ MOST_WIRES }
    ensures demanded { OnOk result (IsDemanded circuit.old layout.now demands.old (λ bits. have_group clafers.now layout.now bits clafer here.now) circuit.new demands.new) }
    ensures extends { Extends circuit.old circuit.new (group_cost clafers.now layout.now clafer here.now) }
{
    if is_any(here.group) {
        return Ok(());
    }
    let owners = marks_of(alloc, clafers, Counted::Instances(clafer))?;
    let counted = marks_of(alloc, clafers, Counted::DeclaredUnder(clafer))?;
    let limit = Limit {
        owners,
        counted,
        interval: here.group,
    };
    demand_each(alloc, circuit, layout, children, &limit, demands)?;
    Ok(())
}

// Demands both bounds of a clafer.
fn demand_bounds(
    alloc: Global,
    circuit: &mut Circuit,
    clafers: &List<Clafer>,
    layout: &Layout,
    children: &Children,
    clafer: u32,
    here: &Clafer,
    demands: &mut Demands,
) -> Result<(), NoMemory>
    requires here { slice_get clafers.now clafer ≡ Some here.now }
    requires closed { IsTrue (is_closed clafers.now) }
    requires few { length clafers.now < 2 ^ 32 }
    requires laid { IsLaid circuit.old layout.now }
    requires table { AreChildren layout.now.slots layout.now.parents children.now.by_slot.items }
    requires demands { AreDemands circuit.old layout.now demands.old }
    requires room { length circuit.old + clafer_cost clafers.now layout.now clafer here.now ≤ MOST_WIRES }
    ensures demanded { OnOk result (IsDemanded circuit.old layout.now demands.old (clafer_test clafers.now layout.now clafer here.now) circuit.new demands.new) }
    ensures extends { Extends circuit.old circuit.new (clafer_cost clafers.now layout.now clafer here.now) }
{
    demand_times(
        alloc, circuit, clafers, layout, children, clafer, here, demands,
    )?;
    demand_group(
        alloc, circuit, clafers, layout, children, clafer, here, demands,
    )?;
    Ok(())
}

// Demands the bounds of all clafers.
fn demand_all(
    alloc: Global,
    circuit: &mut Circuit,
    clafers: &List<Clafer>,
    layout: &Layout,
    children: &Children,
    demands: &mut Demands,
) -> Result<(), NoMemory>
    requires closed { IsTrue (is_closed clafers.now) }
    requires few { length clafers.now < 2 ^ 32 }
    requires laid { IsLaid circuit.old layout.now }
    requires table { AreChildren layout.now.slots layout.now.parents children.now.by_slot.items }
    requires demands { AreDemands circuit.old layout.now demands.old }
    requires room { length circuit.old + bounds_room clafers.now layout.now (length clafers.now) ≤ MOST_WIRES }
    ensures demanded { OnOk result (IsDemanded circuit.old layout.now demands.old (clafers_test clafers.now layout.now (length clafers.now)) circuit.new demands.new) }
    ensures extends { Extends circuit.old circuit.new (bounds_room clafers.now layout.now (length clafers.now)) }
{
    for clafer in 0..clafers.len() {
        let here = clafers.get(clafer);
        demand_bounds(
            alloc,
            circuit,
            clafers,
            layout,
            children,
            clafer as u32,
            here,
            demands,
        )?;
    }
    Ok(())
}

/// A wire that is true exactly where nodes are as many as multiplicities and group cardinalities allow.
///
/// The children of a node are counted on the wires of the edges that lead to it, which a table by slot gives, and the instances of a
/// top-level or abstract clafer on the wires of its slots. Both bounds of an interval are counted on the same wires, so they share their
/// marks. A bound that cannot be missed takes no wire: of an optional child with one slot there is nothing to count. A slot whose
/// bounds cannot be met must not be live: it takes two wires, however many clafers ask it. Where any number is allowed no slot is gone over.
pub fn have_bounds(
    alloc: Global,
    circuit: &mut Circuit,
    core: &CoreModel,
    layout: &Layout,
) -> Result<Wire, NoMemory>
    requires closed { IsTrue (is_closed core.now.clafers) }
    requires few { length core.now.clafers < 2 ^ 32 }
    requires laid { IsLaid circuit.old layout.now }
    requires children { All (λ e. e.from < length layout.now.slots) layout.now.parents }
    requires owners { All (λ e. e.to < length layout.now.slots) layout.now.parents }
    requires room { length circuit.old + bounds_cost core.now.clafers layout.now ≤ MOST_WIRES }
    ensures wire { IfOk result (IsWireOf circuit.new) }
    ensures value { IfOk result (λ w. (bits : Items Bool) → wire_value circuit.new w bits ≡ have_bounds core.now.clafers layout.now bits) }
    ensures extends { Extends circuit.old circuit.new (bounds_cost core.now.clafers layout.now) }
{
    let children = children_of(alloc, layout)?;
    let mut demands = no_demands(alloc, circuit, layout)?;
    demand_all(
        alloc,
        circuit,
        &core.clafers,
        layout,
        &children,
        &mut demands,
    )?;
    let wire = are_met(circuit, layout, &demands)?;
    Ok(wire)
}
