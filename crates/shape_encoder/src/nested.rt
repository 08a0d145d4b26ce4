//! Whether nested clafers that have to have different targets below a parent have them, in the form that takes fewer wires.

ghost use Rattle.std.specs.Prelude.{◌≡◌, ◌+◌, ◌*◌, ◌^◌, ◌<◌, ◌≤◌, Bool, ◌&&◌, length, min, nat_lt, IfOk, All, List as Items};
ghost use Rattle.bool_circuit.specs.Circuit.{wire_value, IsWireOf, Extends};
ghost use Rattle.bool_circuit.specs.declared.circuit.TheConstants.{MOST_WIRES};
ghost use Rattle.shape_encoder.specs.Reading.{IsBit};
ghost use Rattle.shape_encoder.specs.Comparing.{HoldsKin, HoldsEdges, IsOrdered, kin_of, kin_differ, AreTies, AreAloneSoFar, siblings_cost, twins_cost, kin_cost, kins_cost, nested_cost, told, AreCostsSoFar, KinDifferSoFar, NestedDiffer};

use crate::kin::slots_of_clafers;
use crate::siblings::and_no_siblings;
use crate::telling::is_paired;
use crate::twins::{Ties, and_no_twins};
use bool_circuit::{Circuit, MOST_WIRES, Wire};
use clf_base::{List, NoMemory};
use clf_tree::Clafer;
use set_bits::Layout;
use std::alloc::Global;

// How many wires slots take, as far as a word holds it: if they are counted, and if they are compared two by two; and beside a later one.
#[derive(Clone, Copy, Drop)]
struct Costs {
    counted: usize,
    paired: usize,
    beside: usize,
}

// A slot whose parents and targets are counted.
fn counted_cost(parents: usize, targets: usize) -> usize
    ensures { result ≡ told (parents * (4 * targets + 3) + 3) }
{
    let each = targets.saturating_mul(4).saturating_add(3);
    parents.saturating_mul(each).saturating_add(3)
}

// A slot that is compared with the ones before it, which take so many wires beside it.
fn paired_cost(parents: usize, targets: usize, beside: usize) -> usize
    ensures { result ≡ told (parents + targets + beside) }
{
    parents.saturating_add(targets).saturating_add(beside)
}

// A slot beside a later one.
fn beside_cost(parents: usize, targets: usize) -> usize
    ensures { result ≡ told (2 * parents + 2 * targets + 5) }
{
    let up = parents.saturating_mul(2);
    let onto = targets.saturating_mul(2);
    up.saturating_add(onto).saturating_add(5)
}

// The costs with those of one slot more.
fn with_slot(costs: Costs, parents: usize, targets: usize) -> Costs
    ensures counted { result.counted ≡ told (costs.counted + told (parents * (4 * targets + 3) + 3)) }
    ensures paired { result.paired ≡ told (costs.paired + told (parents + targets + costs.beside)) }
    ensures beside { result.beside ≡ told (costs.beside + told (2 * parents + 2 * targets + 5)) }
{
    Costs {
        counted: costs.counted.saturating_add(counted_cost(parents, targets)),
        paired: costs
            .paired
            .saturating_add(paired_cost(parents, targets, costs.beside)),
        beside: costs.beside.saturating_add(beside_cost(parents, targets)),
    }
}

// The costs of some slots.
fn costs_of(ties: &Ties, kin: &List<usize>) -> Costs
    requires parents { All (λ i. i < length ties.now.parents.items) kin.now }
    requires targets { All (λ i. i < length ties.now.targets.items) kin.now }
    ensures { AreCostsSoFar ties.now.parents.items ties.now.targets.items kin.now (length kin.now) result.counted result.paired result.beside }
{
    let mut costs = Costs {
        counted: 0,
        paired: 0,
        beside: 0,
    };
    for place in 0..kin.len() {
        let slot = *kin.get(place);
        let parents = &ties.parents[slot];
        let targets = &ties.targets[slot];
        costs = with_slot(costs, parents.len(), targets.len());
    }
    costs
}

// Whether some slots take fewer wires if they are counted.
fn are_counted(ties: &Ties, kin: &List<usize>) -> bool
    requires parents { All (λ i. i < length ties.now.parents.items) kin.now }
    requires targets { All (λ i. i < length ties.now.targets.items) kin.now }
    ensures { result ≡ nat_lt (told (siblings_cost ties.now.parents.items ties.now.targets.items kin.now)) (told (twins_cost ties.now.parents.items ties.now.targets.items kin.now (length kin.now))) }
{
    let costs = costs_of(ties, kin);
    costs.counted < costs.paired
}

// True where `all` is and no two of some slots have one parent and one target.
fn and_no_two(
    alloc: Global,
    circuit: &mut Circuit,
    ties: &Ties,
    kin: &List<usize>,
    all: Wire,
) -> Result<Wire, NoMemory>
    requires ties { AreTies circuit.old kin.now ties.now.parents.items ties.now.targets.items }
    requires all_in { IsWireOf circuit.old all }
    requires room { length circuit.old + min (siblings_cost ties.now.parents.items ties.now.targets.items kin.now) (twins_cost ties.now.parents.items ties.now.targets.items kin.now (length kin.now)) ≤ MOST_WIRES }
    ensures alone { IfOk result (AreAloneSoFar ties.now.parents.items ties.now.targets.items circuit.old kin.now all (length kin.now) (min (siblings_cost ties.now.parents.items ties.now.targets.items kin.now) (twins_cost ties.now.parents.items ties.now.targets.items kin.now (length kin.now))) circuit.new) }
    ensures extends { Extends circuit.old circuit.new (min (siblings_cost ties.now.parents.items ties.now.targets.items kin.now) (twins_cost ties.now.parents.items ties.now.targets.items kin.now (length kin.now))) }
{
    if are_counted(ties, kin) {
        let right = and_no_siblings(alloc, circuit, ties, kin, all)?;
        return Ok(right);
    }
    let right = and_no_twins(alloc, circuit, ties, kin, all)?;
    Ok(right)
}

// True where `all` is and no two slots of a clafer have one parent and one target, if it is nested and has to differ.
fn and_kin(
    alloc: Global,
    circuit: &mut Circuit,
    clafers: &List<Clafer>,
    layout: &Layout,
    ties: &Ties,
    kin: &List<usize>,
    clafer: u32,
    all: Wire,
) -> Result<Wire, NoMemory>
    requires kin { kin.now ≡ kin_of layout.now clafer }
    requires parents { HoldsEdges layout.now.parents (length layout.now.slots) ties.now.parents.items }
    requires targets { HoldsEdges layout.now.targets (length layout.now.slots) ties.now.targets.items }
    requires parent_bits { All (λ e. IsBit circuit.old e.here) layout.now.parents }
    requires target_bits { All (λ e. IsBit circuit.old e.here) layout.now.targets }
    requires all_in { IsWireOf circuit.old all }
    requires room { length circuit.old + kin_cost clafers.now layout.now clafer ≤ MOST_WIRES }
    ensures wire { IfOk result (IsWireOf circuit.new) }
    ensures value { IfOk result (λ w. (bits : Items Bool) → wire_value circuit.new w bits ≡ (wire_value circuit.old all bits && kin_differ clafers.now layout.now bits clafer)) }
    ensures extends { Extends circuit.old circuit.new (kin_cost clafers.now layout.now clafer) }
{
    if !is_paired(clafers, clafer) {
        return Ok(all);
    }
    let right = and_no_two(alloc, circuit, ties, kin, all)?;
    Ok(right)
}

// Whether no two slots of one of the clafers have one parent and one target, if it is nested and has to differ.
fn kin_differ(
    alloc: Global,
    circuit: &mut Circuit,
    clafers: &List<Clafer>,
    layout: &Layout,
    ties: &Ties,
    table: &Vec<List<usize>>,
) -> Result<Wire, NoMemory>
    requires few { length clafers.now < 2 ^ 32 }
    requires table { HoldsKin layout.now (length layout.now.slots) (length clafers.now) table.now.items }
    requires parents { HoldsEdges layout.now.parents (length layout.now.slots) ties.now.parents.items }
    requires targets { HoldsEdges layout.now.targets (length layout.now.slots) ties.now.targets.items }
    requires parent_bits { All (λ e. IsBit circuit.old e.here) layout.now.parents }
    requires target_bits { All (λ e. IsBit circuit.old e.here) layout.now.targets }
    requires room { length circuit.old + (kins_cost clafers.now layout.now (length clafers.now) + 1) ≤ MOST_WIRES }
    ensures differ { IfOk result (KinDifferSoFar circuit.old clafers.now layout.now (length clafers.now) (kins_cost clafers.now layout.now (length clafers.now) + 1) circuit.new) }
    ensures extends { Extends circuit.old circuit.new (kins_cost clafers.now layout.now (length clafers.now) + 1) }
{
    let mut all = circuit.constant(true)?;
    for clafer in 0..clafers.len() {
        let kin = &table[clafer];
        all = and_kin(
            alloc,
            circuit,
            clafers,
            layout,
            ties,
            kin,
            clafer as u32,
            all,
        )?;
    }
    Ok(all)
}

/// Whether no two slots of one nested clafer have one parent and one target where the reference is of set kind.
pub(crate) fn nested_differ(
    alloc: Global,
    circuit: &mut Circuit,
    clafers: &List<Clafer>,
    layout: &Layout,
    ties: &Ties,
) -> Result<Wire, NoMemory>
    requires few { length clafers.now < 2 ^ 32 }
    requires ordered { IsOrdered clafers.now layout.now }
    requires parents { HoldsEdges layout.now.parents (length layout.now.slots) ties.now.parents.items }
    requires targets { HoldsEdges layout.now.targets (length layout.now.slots) ties.now.targets.items }
    requires parent_bits { All (λ e. IsBit circuit.old e.here) layout.now.parents }
    requires target_bits { All (λ e. IsBit circuit.old e.here) layout.now.targets }
    requires room { length circuit.old + nested_cost clafers.now layout.now ≤ MOST_WIRES }
    ensures differ { IfOk result (NestedDiffer circuit.old clafers.now layout.now (nested_cost clafers.now layout.now) circuit.new) }
    ensures extends { Extends circuit.old circuit.new (nested_cost clafers.now layout.now) }
{
    let table = slots_of_clafers(alloc, layout, clafers.len())?;
    let differ = kin_differ(alloc, circuit, clafers, layout, ties, &table)?;
    Ok(differ)
}
