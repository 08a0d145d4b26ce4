//! Whether some slots have twins among them: slots with their parent and their target. They are compared two by two.

ghost use Rattle.std.specs.Prelude.{◌≡◌, ◌+◌, ◌*◌, ◌<◌, ◌≤◌, Bool, not, ◌&&◌, length, take, slice_index_or, IfOk, All, List as Items};
ghost use Rattle.std.specs.List.{list_all, list_any, sum_by};
ghost use Rattle.bool_circuit.specs.Circuit.{wire_value, IsWireOf, Extends};
ghost use Rattle.bool_circuit.specs.declared.circuit.TheConstants.{MOST_WIRES};
ghost use Rattle.set_bits.specs.Reaching.{IsTableOf};
ghost use Rattle.shape_encoder.specs.Reading.{IsBit};
ghost use Rattle.shape_encoder.specs.Comparing.{joins, IsMadeOf, AreTies, are_twins, twin_cost, place_cost, twins_cost, HasNoTwinSoFar, AreAloneSoFar};

use crate::joining::{ends_of, join};
use bool_circuit::{Circuit, MOST_WIRES, Wire};
use clf_base::{List, NoMemory};
use set_bits::Edge;
use std::alloc::Global;

/// The edges of the slots to their parents and to their targets, turned round.
#[derive(Drop)]
pub(crate) struct Ties {
    pub(crate) parents: Vec<List<Edge>>,
    pub(crate) targets: Vec<List<Edge>>,
}

// A wire for each slot that may be the parent of a slot, and for each that may be its target.
#[derive(Drop)]
struct Tied {
    parents: Vec<Option<Wire>>,
    targets: Vec<Option<Wire>>,
}

// Whether two slots have different parents, or different targets.
fn are_apart(
    circuit: &mut Circuit,
    later: &Tied,
    parents: &List<Edge>,
    targets: &List<Edge>,
) -> Result<Wire, NoMemory>
    requires parents_in { IsTableOf circuit.old later.now.parents.items }
    requires targets_in { IsTableOf circuit.old later.now.targets.items }
    requires parent_bits { All (λ e. IsBit circuit.old e.here) parents.now }
    requires target_bits { All (λ e. IsBit circuit.old e.here) targets.now }
    requires room { length circuit.old + (2 * length parents.now + 2 * length targets.now + 4) ≤ MOST_WIRES }
    ensures wire { IfOk result (IsWireOf circuit.new) }
    ensures value { IfOk result (λ w. (bits : Items Bool) → wire_value circuit.new w bits ≡ not (list_any (joins circuit.old later.now.parents.items bits) parents.now && list_any (joins circuit.old later.now.targets.items bits) targets.now)) }
    ensures extends { Extends circuit.old circuit.new (2 * length parents.now + 2 * length targets.now + 4) }
{
    let beside = join(circuit, &later.parents, parents)?;
    let together = join(circuit, &later.targets, targets)?;
    let same = circuit.and(beside, together)?;
    let apart = circuit.not(same)?;
    Ok(apart)
}

// True where `all` is and two slots have different parents, or different targets.
fn and_apart(
    circuit: &mut Circuit,
    later: &Tied,
    parents: &List<Edge>,
    targets: &List<Edge>,
    all: Wire,
) -> Result<Wire, NoMemory>
    requires parents_in { IsTableOf circuit.old later.now.parents.items }
    requires targets_in { IsTableOf circuit.old later.now.targets.items }
    requires parent_bits { All (λ e. IsBit circuit.old e.here) parents.now }
    requires target_bits { All (λ e. IsBit circuit.old e.here) targets.now }
    requires all_in { IsWireOf circuit.old all }
    requires room { length circuit.old + (2 * length parents.now + 2 * length targets.now + 5) ≤ MOST_WIRES }
    ensures wire { IfOk result (IsWireOf circuit.new) }
    ensures value { IfOk result (λ w. (bits : Items Bool) → wire_value circuit.new w bits ≡ (wire_value circuit.old all bits && not (list_any (joins circuit.old later.now.parents.items bits) parents.now && list_any (joins circuit.old later.now.targets.items bits) targets.now))) }
    ensures extends { Extends circuit.old circuit.new (2 * length parents.now + 2 * length targets.now + 5) }
{
    let apart = are_apart(circuit, later, parents, targets)?;
    let right = circuit.and(all, apart)?;
    Ok(right)
}

// The wires of the slots that may be a slot's parent or target.
fn tie_slot(
    alloc: Global,
    circuit: &mut Circuit,
    parents: &List<Edge>,
    targets: &List<Edge>,
) -> Result<Tied, NoMemory>
    requires parent_bits { All (λ e. IsBit circuit.old e.here) parents.now }
    requires target_bits { All (λ e. IsBit circuit.old e.here) targets.now }
    requires room { length circuit.old + (length parents.now + length targets.now) ≤ MOST_WIRES }
    ensures parents { IfOk result (λ tied. IsMadeOf circuit.new parents.now tied.parents.items) }
    ensures targets { IfOk result (λ tied. IsMadeOf circuit.new targets.now tied.targets.items) }
    ensures extends { Extends circuit.old circuit.new (length parents.now + length targets.now) }
{
    let up = ends_of(alloc, circuit, parents)?;
    let onto = ends_of(alloc, circuit, targets)?;
    Ok(Tied {
        parents: up,
        targets: onto,
    })
}

// True where `all` is and none of the first of some slots has one of the parents and one of the targets.
fn and_no_twin(
    alloc: Global,
    circuit: &mut Circuit,
    ties: &Ties,
    kin: &List<usize>,
    place: usize,
    parents: &List<Edge>,
    targets: &List<Edge>,
    all: Wire,
) -> Result<Wire, NoMemory>
    requires ties { AreTies circuit.old kin.now ties.now.parents.items ties.now.targets.items }
    requires place_in { place ≤ length kin.now }
    requires parent_bits { All (λ e. IsBit circuit.old e.here) parents.now }
    requires target_bits { All (λ e. IsBit circuit.old e.here) targets.now }
    requires all_in { IsWireOf circuit.old all }
    requires room { length circuit.old + (length parents.now + length targets.now + sum_by (twin_cost ties.now.parents.items ties.now.targets.items) (take place kin.now)) ≤ MOST_WIRES }
    ensures alone { IfOk result (HasNoTwinSoFar ties.now.parents.items ties.now.targets.items circuit.old kin.now parents.now targets.now all place circuit.new) }
    ensures extends { Extends circuit.old circuit.new (length parents.now + length targets.now + sum_by (twin_cost ties.now.parents.items ties.now.targets.items) (take place kin.now)) }
{
    let later = tie_slot(alloc, circuit, parents, targets)?;
    let mut right = all;
    for at in 0..place {
        let earlier = *kin.get(at);
        let ups = &ties.parents[earlier];
        let ontos = &ties.targets[earlier];
        right = and_apart(circuit, &later, ups, ontos, right)?;
    }
    Ok(right)
}

// True where `all` is and no earlier one of some slots has the parent and the target of the one at a place.
fn and_alone(
    alloc: Global,
    circuit: &mut Circuit,
    ties: &Ties,
    kin: &List<usize>,
    place: usize,
    all: Wire,
) -> Result<Wire, NoMemory>
    requires ties { AreTies circuit.old kin.now ties.now.parents.items ties.now.targets.items }
    requires place_in { place < length kin.now }
    requires all_in { IsWireOf circuit.old all }
    requires room { length circuit.old + place_cost ties.now.parents.items ties.now.targets.items kin.now place ≤ MOST_WIRES }
    ensures wire { IfOk result (IsWireOf circuit.new) }
    ensures value { IfOk result (λ w. (bits : Items Bool) → wire_value circuit.new w bits ≡ (wire_value circuit.old all bits && list_all (λ j. not (are_twins ties.now.parents.items ties.now.targets.items bits j (slice_index_or kin.now place 0))) (take place kin.now))) }
    ensures extends { Extends circuit.old circuit.new (place_cost ties.now.parents.items ties.now.targets.items kin.now place) }
{
    let slot = *kin.get(place);
    let parents = &ties.parents[slot];
    let targets = &ties.targets[slot];
    let right = and_no_twin(alloc, circuit, ties, kin, place, parents, targets, all)?;
    Ok(right)
}

/// True where `all` is and no two of some slots have one parent and one target: they are compared two by two.
pub(crate) fn and_no_twins(
    alloc: Global,
    circuit: &mut Circuit,
    ties: &Ties,
    kin: &List<usize>,
    all: Wire,
) -> Result<Wire, NoMemory>
    requires ties { AreTies circuit.old kin.now ties.now.parents.items ties.now.targets.items }
    requires all_in { IsWireOf circuit.old all }
    requires room { length circuit.old + twins_cost ties.now.parents.items ties.now.targets.items kin.now (length kin.now) ≤ MOST_WIRES }
    ensures alone { IfOk result (AreAloneSoFar ties.now.parents.items ties.now.targets.items circuit.old kin.now all (length kin.now) (twins_cost ties.now.parents.items ties.now.targets.items kin.now (length kin.now)) circuit.new) }
    ensures extends { Extends circuit.old circuit.new (twins_cost ties.now.parents.items ties.now.targets.items kin.now (length kin.now)) }
{
    let mut right = all;
    for place in 0..kin.len() {
        right = and_alone(alloc, circuit, ties, kin, place, right)?;
    }
    Ok(right)
}
