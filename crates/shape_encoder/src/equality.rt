//! Whether nodes refer to different integers.

ghost use Rattle.std.specs.Prelude.{◌≡◌, ◌+◌, ◌*◌, ◌≤◌, Bool, not, ◌||◌, ◌&&◌, length, take, IsTrue, IfOk, All, List as Items};
ghost use Rattle.std.specs.List.{list_all, list_any};
ghost use Rattle.bool_circuit.specs.Circuit.{wire_value, IsWireOf, Extends};
ghost use Rattle.bool_circuit.specs.declared.circuit.TheConstants.{MOST_WIRES};
ghost use Rattle.set_bits.specs.Reaching.{IsTableOf};
ghost use Rattle.shape_encoder.specs.Reading.{IsBit, IsSlotOf};
ghost use Rattle.set_bits.specs.Fitting.{slot_clafer};
ghost use Rattle.shown_instance.specs.Distinct.{tells_apart, integers_differ};
ghost use Rattle.shape_encoder.specs.Comparing.{HoldsEdges, joins, turned_from, IsTiedBy, are_equal, equal_cost, integer_pair_cost, integer_pairs_cost, own_value_cost, values_cost, IntegerDiffersSoFar, IntegersDifferSoFar};

use crate::joining::{join, tie};
use crate::placement::parent_of;
use crate::telling::tells_apart;
use bool_circuit::{Circuit, MOST_WIRES, Wire};
use clf_base::{List, NoMemory};
use clf_tree::Clafer;
use integer_bits::equal;
use set_bits::{Edge, Layout, SlotBits};
use std::alloc::Global;

// Whether two slots of a clafer have one parent, if it is nested.
fn are_beside(
    circuit: &mut Circuit,
    is_nested: bool,
    table: &Vec<Option<Wire>>,
    edges: &List<Edge>,
) -> Result<Wire, NoMemory>
    requires table_in { IsTableOf circuit.old table.now.items }
    requires bits { All (λ e. IsBit circuit.old e.here) edges.now }
    requires room { length circuit.old + (2 * length edges.now + 1) ≤ MOST_WIRES }
    ensures wire { IfOk result (IsWireOf circuit.new) }
    ensures value { IfOk result (λ w. (bits : Items Bool) → wire_value circuit.new w bits ≡ (not is_nested || list_any (joins circuit.old table.now.items bits) edges.now)) }
    ensures extends { Extends circuit.old circuit.new (2 * length edges.now + 1) }
{
    if !is_nested {
        let free = circuit.constant(true)?;
        return Ok(free);
    }
    let beside = join(circuit, table, edges)?;
    Ok(beside)
}

// Whether two slots are live and their integers equal.
fn have_one_integer(
    alloc: Global,
    circuit: &mut Circuit,
    live: &List<Wire>,
    earlier: &SlotBits,
    later: &SlotBits,
) -> Result<Wire, NoMemory>
    requires live_bits { All (IsBit circuit.old) live.now }
    requires earlier_is { IsSlotOf circuit.old (length live.now) earlier.now }
    requires later_is { IsSlotOf circuit.old (length live.now) later.now }
    requires room { length circuit.old + equal_cost earlier.now later.now ≤ MOST_WIRES }
    ensures wire { IfOk result (IsWireOf circuit.new) }
    ensures value { IfOk result (λ w. (bits : Items Bool) → wire_value circuit.new w bits ≡ are_equal live.now bits earlier.now later.now) }
    ensures extends { Extends circuit.old circuit.new (equal_cost earlier.now later.now) }
{
    let first = *live.get(earlier.slot as usize);
    let second = *live.get(later.slot as usize);
    let there = circuit.and(first, second)?;
    let same = equal(alloc, circuit, &earlier.bits, &later.bits)?;
    let both = circuit.and(there, same)?;
    Ok(both)
}

// True where `all` is and two slots of a clafer have different integers, or different parents, or are not live.
fn and_two_integers(
    alloc: Global,
    circuit: &mut Circuit,
    live: &List<Wire>,
    is_nested: bool,
    table: &Vec<Option<Wire>>,
    edges: &List<Edge>,
    earlier: &SlotBits,
    later: &SlotBits,
    all: Wire,
) -> Result<Wire, NoMemory>
    requires live_bits { All (IsBit circuit.old) live.now }
    requires earlier_is { IsSlotOf circuit.old (length live.now) earlier.now }
    requires later_is { IsSlotOf circuit.old (length live.now) later.now }
    requires table_in { IsTableOf circuit.old table.now.items }
    requires bits { All (λ e. IsBit circuit.old e.here) edges.now }
    requires all_in { IsWireOf circuit.old all }
    requires room { length circuit.old + ((2 * length edges.now + 1) + equal_cost earlier.now later.now + 3) ≤ MOST_WIRES }
    ensures wire { IfOk result (IsWireOf circuit.new) }
    ensures value { IfOk result (λ w. (bits : Items Bool) → wire_value circuit.new w bits ≡ (wire_value circuit.old all bits && not ((not is_nested || list_any (joins circuit.old table.now.items bits) edges.now) && are_equal live.now bits earlier.now later.now))) }
    ensures extends { Extends circuit.old circuit.new ((2 * length edges.now + 1) + equal_cost earlier.now later.now + 3) }
{
    let beside = are_beside(circuit, is_nested, table, edges)?;
    let equal = have_one_integer(alloc, circuit, live, earlier, later)?;
    let same = circuit.and(beside, equal)?;
    let differ = circuit.not(same)?;
    let right = circuit.and(all, differ)?;
    Ok(right)
}

// True where `all` is and a slot has another integer than an earlier one, if both are of one clafer.
fn and_integers_differ(
    alloc: Global,
    circuit: &mut Circuit,
    clafers: &List<Clafer>,
    layout: &Layout,
    parents: &Vec<List<Edge>>,
    table: &Vec<Option<Wire>>,
    later: &SlotBits,
    earlier: &SlotBits,
    all: Wire,
) -> Result<Wire, NoMemory>
    requires told { IsTrue (tells_apart clafers.now (slot_clafer layout.now.slots later.now.slot)) }
    requires slots { length layout.now.live ≡ length layout.now.slots }
    requires live_bits { All (IsBit circuit.old) layout.now.live }
    requires earlier_is { IsSlotOf circuit.old (length layout.now.live) earlier.now }
    requires later_is { IsSlotOf circuit.old (length layout.now.live) later.now }
    requires parents { HoldsEdges layout.now.parents (length layout.now.slots) parents.now.items }
    requires parent_bits { All (λ e. IsBit circuit.old e.here) layout.now.parents }
    requires parents_by { IsTiedBy circuit.old layout.now.parents later.now.slot table.now.items }
    requires all_in { IsWireOf circuit.old all }
    requires room { length circuit.old + integer_pair_cost layout.now earlier.now later.now ≤ MOST_WIRES }
    ensures wire { IfOk result (IsWireOf circuit.new) }
    ensures value { IfOk result (λ w. (bits : Items Bool) → wire_value circuit.new w bits ≡ (wire_value circuit.old all bits && integers_differ clafers.now layout.now bits earlier.now later.now)) }
    ensures extends { Extends circuit.old circuit.new (integer_pair_cost layout.now earlier.now later.now) }
{
    let clafer = layout.slots.get(later.slot as usize).clafer;
    let slot = earlier.slot as usize;
    if layout.slots.get(slot).clafer != clafer {
        return Ok(all);
    }
    let is_nested = parent_of(clafers, clafer).is_some();
    let edges = &parents[slot];
    let live = &layout.live;
    let right = and_two_integers(
        alloc, circuit, live, is_nested, table, edges, earlier, later, all,
    )?;
    Ok(right)
}

// Whether an integer differs from the first ones of its clafer.
fn integer_differs(
    alloc: Global,
    circuit: &mut Circuit,
    clafers: &List<Clafer>,
    layout: &Layout,
    parents: &Vec<List<Edge>>,
    table: &Vec<Option<Wire>>,
    later: &SlotBits,
    place: usize,
) -> Result<Wire, NoMemory>
    requires told { IsTrue (tells_apart clafers.now (slot_clafer layout.now.slots later.now.slot)) }
    requires place_in { place ≤ length layout.now.values }
    requires slots { length layout.now.live ≡ length layout.now.slots }
    requires live_bits { All (IsBit circuit.old) layout.now.live }
    requires value_bits { All (IsSlotOf circuit.old (length layout.now.live)) layout.now.values }
    requires later_is { IsSlotOf circuit.old (length layout.now.live) later.now }
    requires parents { HoldsEdges layout.now.parents (length layout.now.slots) parents.now.items }
    requires parent_bits { All (λ e. IsBit circuit.old e.here) layout.now.parents }
    requires parents_by { IsTiedBy circuit.old layout.now.parents later.now.slot table.now.items }
    requires room { length circuit.old + (integer_pairs_cost layout.now later.now place + 1) ≤ MOST_WIRES }
    ensures differs { IfOk result (IntegerDiffersSoFar circuit.old clafers.now layout.now later.now place (integer_pairs_cost layout.now later.now place + 1) circuit.new) }
    ensures extends { Extends circuit.old circuit.new (integer_pairs_cost layout.now later.now place + 1) }
{
    let mut all = circuit.constant(true)?;
    for at in 0..place {
        let earlier = layout.values.get(at);
        all = and_integers_differ(
            alloc, circuit, clafers, layout, parents, table, later, earlier, all,
        )?;
    }
    Ok(all)
}

// True where `all` is and an integer that has to differs from the first ones of its clafer.
fn and_told_integer(
    alloc: Global,
    circuit: &mut Circuit,
    clafers: &List<Clafer>,
    layout: &Layout,
    parents: &Vec<List<Edge>>,
    edges: &List<Edge>,
    later: &SlotBits,
    place: usize,
    all: Wire,
) -> Result<Wire, NoMemory>
    requires told { IsTrue (tells_apart clafers.now (slot_clafer layout.now.slots later.now.slot)) }
    requires place_in { place ≤ length layout.now.values }
    requires edges_are { edges.now ≡ turned_from layout.now.parents later.now.slot }
    requires slots { length layout.now.live ≡ length layout.now.slots }
    requires live_bits { All (IsBit circuit.old) layout.now.live }
    requires value_bits { All (IsSlotOf circuit.old (length layout.now.live)) layout.now.values }
    requires later_is { IsSlotOf circuit.old (length layout.now.live) later.now }
    requires parents { HoldsEdges layout.now.parents (length layout.now.slots) parents.now.items }
    requires parent_bits { All (λ e. IsBit circuit.old e.here) layout.now.parents }
    requires all_in { IsWireOf circuit.old all }
    requires room { length circuit.old + ((4 * length edges.now + 1) + (integer_pairs_cost layout.now later.now place + 1) + 1) ≤ MOST_WIRES }
    ensures wire { IfOk result (IsWireOf circuit.new) }
    ensures value { IfOk result (λ w. (bits : Items Bool) → wire_value circuit.new w bits ≡ (wire_value circuit.old all bits && list_all (λ v. integers_differ clafers.now layout.now bits v later.now) (take place layout.now.values))) }
    ensures extends { Extends circuit.old circuit.new ((4 * length edges.now + 1) + (integer_pairs_cost layout.now later.now place + 1) + 1) }
{
    let table = tie(alloc, circuit, edges)?;
    let differ = integer_differs(
        alloc, circuit, clafers, layout, parents, &table, later, place,
    )?;
    let right = circuit.and(all, differ)?;
    Ok(right)
}

// True where `all` is and an integer differs from the first ones of its clafer, if it has to.
fn and_integer(
    alloc: Global,
    circuit: &mut Circuit,
    clafers: &List<Clafer>,
    layout: &Layout,
    parents: &Vec<List<Edge>>,
    later: &SlotBits,
    place: usize,
    all: Wire,
) -> Result<Wire, NoMemory>
    requires place_in { place ≤ length layout.now.values }
    requires slots { length layout.now.live ≡ length layout.now.slots }
    requires live_bits { All (IsBit circuit.old) layout.now.live }
    requires value_bits { All (IsSlotOf circuit.old (length layout.now.live)) layout.now.values }
    requires later_is { IsSlotOf circuit.old (length layout.now.live) later.now }
    requires parents { HoldsEdges layout.now.parents (length layout.now.slots) parents.now.items }
    requires parent_bits { All (λ e. IsBit circuit.old e.here) layout.now.parents }
    requires all_in { IsWireOf circuit.old all }
    requires room { length circuit.old + own_value_cost clafers.now layout.now later.now place ≤ MOST_WIRES }
    ensures wire { IfOk result (IsWireOf circuit.new) }
    ensures value { IfOk result (λ w. (bits : Items Bool) → wire_value circuit.new w bits ≡ (wire_value circuit.old all bits && list_all (λ v. integers_differ clafers.now layout.now bits v later.now) (take place layout.now.values))) }
    ensures extends { Extends circuit.old circuit.new (own_value_cost clafers.now layout.now later.now place) }
{
    let slot = later.slot as usize;
    let clafer = layout.slots.get(slot).clafer;
    if !tells_apart(clafers, clafer) {
        return Ok(all);
    }
    let edges = &parents[slot];
    let right = and_told_integer(
        alloc, circuit, clafers, layout, parents, edges, later, place, all,
    )?;
    Ok(right)
}

// Whether no two live slots of one clafer have one integer where its reference is of set kind.
pub(crate) fn integers_are_different(
    alloc: Global,
    circuit: &mut Circuit,
    clafers: &List<Clafer>,
    layout: &Layout,
    parents: &Vec<List<Edge>>,
) -> Result<Wire, NoMemory>
    requires slots { length layout.now.live ≡ length layout.now.slots }
    requires live_bits { All (IsBit circuit.old) layout.now.live }
    requires value_bits { All (IsSlotOf circuit.old (length layout.now.live)) layout.now.values }
    requires parents { HoldsEdges layout.now.parents (length layout.now.slots) parents.now.items }
    requires parent_bits { All (λ e. IsBit circuit.old e.here) layout.now.parents }
    requires room { length circuit.old + (values_cost clafers.now layout.now (length layout.now.values) + 1) ≤ MOST_WIRES }
    ensures differ { IfOk result (IntegersDifferSoFar circuit.old clafers.now layout.now (length layout.now.values) (values_cost clafers.now layout.now (length layout.now.values) + 1) circuit.new) }
    ensures extends { Extends circuit.old circuit.new (values_cost clafers.now layout.now (length layout.now.values) + 1) }
{
    let mut all = circuit.constant(true)?;
    for place in 0..layout.values.len() {
        let later = layout.values.get(place);
        all = and_integer(alloc, circuit, clafers, layout, parents, later, place, all)?;
    }
    Ok(all)
}
