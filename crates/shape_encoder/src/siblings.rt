//! Whether some slots have twins among them: slots with their parent and their target. For each parent and each target it is kept whether it
//! was seen.

ghost use Rattle.std.specs.Prelude.{◌≡◌, ℕ, ◌+◌, ◌*◌, ◌<◌, ◌≤◌, Bool, not, ◌||◌, ◌&&◌, length, nat_eq, IfOk, OnOk, All, List as Items};
ghost use Rattle.std.specs.List.{list_any};
ghost use Rattle.bool_circuit.specs.Circuit.{wire_value, IsWireOf, Extends};
ghost use Rattle.bool_circuit.specs.declared.circuit.TheConstants.{MOST_WIRES};
ghost use Rattle.set_bits.specs.Sets.{is_here};
ghost use Rattle.set_bits.specs.Reaching.{wire_at, IsTableOf};
ghost use Rattle.shown_instance.specs.Consistent.{has_taken};
ghost use Rattle.shape_encoder.specs.Reading.{IsBit};
ghost use Rattle.shape_encoder.specs.Comparing.{joins, row_at, is_seen, AreRowsOf, is_met, HaveMetSoFar, IsMarkedSoFar, AreMarkedSoFar, AreTies, siblings_cost, AreAloneSoFar};

use crate::joining::join;
use crate::taking::{either, put, wire_of};
use crate::twins::Ties;
use bool_circuit::{Circuit, MOST_WIRES, Wire};
use clf_base::{List, NoMemory};
use set_bits::Edge;
use std::alloc::Global;

// Whether one of the targets is taken that was seen below a parent.
fn join_row(
    circuit: &mut Circuit,
    rows: &Vec<Vec<Option<Wire>>>,
    parent: usize,
    targets: &List<Edge>,
) -> Result<Wire, NoMemory>
    requires rows_in { AreRowsOf circuit.old rows.now.items }
    requires target_bits { All (λ e. IsBit circuit.old e.here) targets.now }
    requires room { length circuit.old + (2 * length targets.now + 1) ≤ MOST_WIRES }
    ensures wire { IfOk result (IsWireOf circuit.new) }
    ensures value { IfOk result (λ w. (bits : Items Bool) → wire_value circuit.new w bits ≡ list_any (joins circuit.old (row_at rows.now.items parent) bits) targets.now) }
    ensures extends { Extends circuit.old circuit.new (2 * length targets.now + 1) }
{
    if parent >= rows.len() {
        let nothing = circuit.constant(false)?;
        return Ok(nothing);
    }
    let row = &rows[parent];
    let joined = join(circuit, row, targets)?;
    Ok(joined)
}

// True where `some` is, or an edge to a parent is taken below which one of the targets was seen.
fn or_met(
    circuit: &mut Circuit,
    rows: &Vec<Vec<Option<Wire>>>,
    edge: Edge,
    targets: &List<Edge>,
    some: Wire,
) -> Result<Wire, NoMemory>
    requires rows_in { AreRowsOf circuit.old rows.now.items }
    requires edge_bit { IsBit circuit.old edge.here }
    requires target_bits { All (λ e. IsBit circuit.old e.here) targets.now }
    requires some_in { IsWireOf circuit.old some }
    requires room { length circuit.old + (2 * length targets.now + 3) ≤ MOST_WIRES }
    ensures wire { IfOk result (IsWireOf circuit.new) }
    ensures value { IfOk result (λ w. (bits : Items Bool) → wire_value circuit.new w bits ≡ (wire_value circuit.old some bits || is_met circuit.old rows.now.items bits targets.now edge)) }
    ensures extends { Extends circuit.old circuit.new (2 * length targets.now + 3) }
{
    let joined = join_row(circuit, rows, edge.from as usize, targets)?;
    let met = circuit.and(joined, edge.here)?;
    let right = circuit.or(some, met)?;
    Ok(right)
}

// Whether one of the edges to parents is taken below which one of the targets was seen.
fn have_met(
    circuit: &mut Circuit,
    rows: &Vec<Vec<Option<Wire>>>,
    parents: &List<Edge>,
    targets: &List<Edge>,
) -> Result<Wire, NoMemory>
    requires rows_in { AreRowsOf circuit.old rows.now.items }
    requires parent_bits { All (λ e. IsBit circuit.old e.here) parents.now }
    requires target_bits { All (λ e. IsBit circuit.old e.here) targets.now }
    requires room { length circuit.old + (length parents.now * (2 * length targets.now + 3) + 1) ≤ MOST_WIRES }
    ensures met { IfOk result (HaveMetSoFar circuit.old rows.now.items parents.now targets.now (length parents.now) circuit.new) }
    ensures extends { Extends circuit.old circuit.new (length parents.now * (2 * length targets.now + 3) + 1) }
{
    let mut some = circuit.constant(false)?;
    for at in 0..parents.len() {
        let edge = *parents.get(at);
        some = or_met(circuit, rows, edge, targets, some)?;
    }
    Ok(some)
}

// Marks a target of a slot, whose parent has a wire.
fn mark_target(
    circuit: &mut Circuit,
    row: &mut Vec<Option<Wire>>,
    here: Wire,
    target: Edge,
) -> Result<(), NoMemory>
    requires row_in { IsTableOf circuit.old row.old.items }
    requires here_in { IsWireOf circuit.old here }
    requires target_in { IsWireOf circuit.old target.here }
    requires room { length circuit.old + 2 ≤ MOST_WIRES }
    ensures row { OnOk result (IsTableOf circuit.new row.new.items) }
    ensures value { OnOk result ((bits : Items Bool) (t : ℕ) → is_here circuit.new (wire_at row.new.items t) bits ≡ (is_here circuit.old (wire_at row.old.items t) bits || (nat_eq target.from t && (wire_value circuit.old here bits && wire_value circuit.old target.here bits)))) }
    ensures extends { Extends circuit.old circuit.new 2 }
{
    let both = circuit.and(here, target.here)?;
    let before = wire_of(row, target.from as usize);
    let some = either(circuit, before, both)?;
    put(row, target.from, some)?;
    Ok(())
}

// Marks the targets of a slot below one parent.
fn mark_row(
    circuit: &mut Circuit,
    row: &mut Vec<Option<Wire>>,
    here: Wire,
    targets: &List<Edge>,
) -> Result<(), NoMemory>
    requires row_in { IsTableOf circuit.old row.old.items }
    requires here_in { IsWireOf circuit.old here }
    requires target_bits { All (λ e. IsBit circuit.old e.here) targets.now }
    requires room { length circuit.old + 2 * length targets.now ≤ MOST_WIRES }
    ensures marked { OnOk result (IsMarkedSoFar circuit.old here targets.now row.old.items (length targets.now) circuit.new row.new.items) }
    ensures extends { Extends circuit.old circuit.new (2 * length targets.now) }
{
    for at in 0..targets.len() {
        let target = *targets.get(at);
        mark_target(circuit, row, here, target)?;
    }
    Ok(())
}

// Gives a parent a row.
fn grow(alloc: Global, rows: &mut Vec<Vec<Option<Wire>>>, parent: usize) -> Result<(), NoMemory>
    ensures there { OnOk result (parent < length rows.new.items) }
    ensures same { OnOk result ((p : ℕ) → row_at rows.new.items p ≡ row_at rows.old.items p) }
{
    while rows.len() <= parent {
        rows.push(Vec::new(alloc))?;
    }
    Ok(())
}

// Marks the targets of a slot below one of its parents.
fn mark_parent(
    alloc: Global,
    circuit: &mut Circuit,
    rows: &mut Vec<Vec<Option<Wire>>>,
    edge: Edge,
    targets: &List<Edge>,
) -> Result<(), NoMemory>
    requires rows_in { AreRowsOf circuit.old rows.old.items }
    requires edge_bit { IsBit circuit.old edge.here }
    requires target_bits { All (λ e. IsBit circuit.old e.here) targets.now }
    requires room { length circuit.old + 2 * length targets.now ≤ MOST_WIRES }
    ensures rows { OnOk result (AreRowsOf circuit.new rows.new.items) }
    ensures value { OnOk result ((bits : Items Bool) (p t : ℕ) → is_seen circuit.new rows.new.items bits p t ≡ (is_seen circuit.old rows.old.items bits p t || ((nat_eq edge.from p && wire_value circuit.old edge.here bits) && has_taken targets.now bits t))) }
    ensures extends { Extends circuit.old circuit.new (2 * length targets.now) }
{
    let parent = edge.from as usize;
    grow(alloc, rows, parent)?;
    mark_row(circuit, &mut rows[parent], edge.here, targets)?;
    Ok(())
}

// Marks the targets of a slot below each of its parents.
fn mark(
    alloc: Global,
    circuit: &mut Circuit,
    rows: &mut Vec<Vec<Option<Wire>>>,
    parents: &List<Edge>,
    targets: &List<Edge>,
) -> Result<(), NoMemory>
    requires rows_in { AreRowsOf circuit.old rows.old.items }
    requires parent_bits { All (λ e. IsBit circuit.old e.here) parents.now }
    requires target_bits { All (λ e. IsBit circuit.old e.here) targets.now }
    requires room { length circuit.old + length parents.now * (2 * length targets.now) ≤ MOST_WIRES }
    ensures marked { OnOk result (AreMarkedSoFar circuit.old parents.now targets.now rows.old.items (length parents.now) circuit.new rows.new.items) }
    ensures extends { Extends circuit.old circuit.new (length parents.now * (2 * length targets.now)) }
{
    for at in 0..parents.len() {
        let edge = *parents.get(at);
        mark_parent(alloc, circuit, rows, edge, targets)?;
    }
    Ok(())
}

// True where `all` is and no parent and target of a slot were seen together.
fn and_unmet(
    circuit: &mut Circuit,
    rows: &Vec<Vec<Option<Wire>>>,
    parents: &List<Edge>,
    targets: &List<Edge>,
    all: Wire,
) -> Result<Wire, NoMemory>
    requires rows_in { AreRowsOf circuit.old rows.now.items }
    requires parent_bits { All (λ e. IsBit circuit.old e.here) parents.now }
    requires target_bits { All (λ e. IsBit circuit.old e.here) targets.now }
    requires all_in { IsWireOf circuit.old all }
    requires room { length circuit.old + (length parents.now * (2 * length targets.now + 3) + 3) ≤ MOST_WIRES }
    ensures wire { IfOk result (IsWireOf circuit.new) }
    ensures value { IfOk result (λ w. (bits : Items Bool) → wire_value circuit.new w bits ≡ (wire_value circuit.old all bits && not (list_any (is_met circuit.old rows.now.items bits targets.now) parents.now))) }
    ensures extends { Extends circuit.old circuit.new (length parents.now * (2 * length targets.now + 3) + 3) }
{
    let met = have_met(circuit, rows, parents, targets)?;
    let apart = circuit.not(met)?;
    let right = circuit.and(all, apart)?;
    Ok(right)
}

// True where `all` is and no parent and target of a slot were seen together; then they are seen.
fn and_sibling(
    alloc: Global,
    circuit: &mut Circuit,
    rows: &mut Vec<Vec<Option<Wire>>>,
    parents: &List<Edge>,
    targets: &List<Edge>,
    all: Wire,
) -> Result<Wire, NoMemory>
    requires rows_in { AreRowsOf circuit.old rows.old.items }
    requires parent_bits { All (λ e. IsBit circuit.old e.here) parents.now }
    requires target_bits { All (λ e. IsBit circuit.old e.here) targets.now }
    requires all_in { IsWireOf circuit.old all }
    requires room { length circuit.old + (length parents.now * (4 * length targets.now + 3) + 3) ≤ MOST_WIRES }
    ensures wire { IfOk result (IsWireOf circuit.new) }
    ensures value { IfOk result (λ w. (bits : Items Bool) → wire_value circuit.new w bits ≡ (wire_value circuit.old all bits && not (list_any (is_met circuit.old rows.old.items bits targets.now) parents.now))) }
    ensures rows { OnOk result (AreRowsOf circuit.new rows.new.items) }
    ensures seen { OnOk result ((bits : Items Bool) (p t : ℕ) → is_seen circuit.new rows.new.items bits p t ≡ (is_seen circuit.old rows.old.items bits p t || (has_taken parents.now bits p && has_taken targets.now bits t))) }
    ensures extends { Extends circuit.old circuit.new (length parents.now * (4 * length targets.now + 3) + 3) }
{
    let right = and_unmet(circuit, rows, parents, targets, all)?;
    mark(alloc, circuit, rows, parents, targets)?;
    Ok(right)
}

/// True where `all` is and no two of some slots have one parent and one target: each parent and target may be seen together once.
pub(crate) fn and_no_siblings(
    alloc: Global,
    circuit: &mut Circuit,
    ties: &Ties,
    kin: &List<usize>,
    all: Wire,
) -> Result<Wire, NoMemory>
    requires ties { AreTies circuit.old kin.now ties.now.parents.items ties.now.targets.items }
    requires all_in { IsWireOf circuit.old all }
    requires room { length circuit.old + siblings_cost ties.now.parents.items ties.now.targets.items kin.now ≤ MOST_WIRES }
    ensures alone { IfOk result (AreAloneSoFar ties.now.parents.items ties.now.targets.items circuit.old kin.now all (length kin.now) (siblings_cost ties.now.parents.items ties.now.targets.items kin.now) circuit.new) }
    ensures extends { Extends circuit.old circuit.new (siblings_cost ties.now.parents.items ties.now.targets.items kin.now) }
{
    let mut rows = Vec::new(alloc);
    let mut right = all;
    for place in 0..kin.len() {
        let slot = *kin.get(place);
        let parents = &ties.parents[slot];
        let targets = &ties.targets[slot];
        right = and_sibling(alloc, circuit, &mut rows, parents, targets, right)?;
    }
    Ok(right)
}
