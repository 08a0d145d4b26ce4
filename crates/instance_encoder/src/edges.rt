//! The edges of a layout, with an input each.

ghost use Rattle.std.specs.Prelude.{◌≡◌, ◌++◌, ◌+◌, ◌*◌, ◌<◌, ◌≤◌, ◌^◌, ℕ, length, map, nat_lt, IfOk, OnOk, IsTrue, List as Seq};
ghost use Rattle.std.specs.List.{list_all};
ghost use Rattle.clf_tree.specs.Hierarchy.{is_closed};
ghost use Rattle.set_bits.specs.Fitting.{all_ends, IsRead};
ghost use Rattle.instance_encoder.specs.Wiring.{near_of, IsWiredSoFar};
ghost use Rattle.bool_circuit.specs.declared.circuit.TheConstants.{MOST_WIRES};

use crate::near::{Near, Tie, turn_to};
use bool_circuit::{Circuit, MOST_WIRES};
use clf_base::{List, NoMemory};
use clf_tree::{Clafer, Node};
use set_bits::Edge;
use std::alloc::Global;

// Adds the edges that lead from a slot to the near ones.
fn push_edges(
    circuit: &mut Circuit,
    from: u32,
    near: &List<u32>,
    edges: &mut List<Edge>,
) -> Result<(), NoMemory>
    requires room { length circuit.old + length near.now ≤ MOST_WIRES }
    ensures more { OnOk result ((first most : ℕ) (pairs : Seq (ℕ × ℕ)) → IsWiredSoFar first most pairs circuit.old edges.old → IsWiredSoFar first (most + length near.now) (pairs ++ map (λ j. (from, j)) near.now) circuit.new edges.new) }
    ensures few { length circuit.new ≤ length circuit.old + length near.now }
{
    for at in 0..near.len() {
        let to = *near.get(at);
        let here = circuit.input()?;
        edges.push(Edge { from, to, here })?;
    }
    Ok(())
}

/// The edges from each slot to the slots to which it can be tied, in order. The near slots are found once for each clafer, so beside
/// one pass over clafers and slots for each clafer no step looks at what gets no edge.
pub(crate) fn edges(
    alloc: Global,
    circuit: &mut Circuit,
    clafers: &List<Clafer>,
    slots: &List<Node>,
    tie: Tie,
) -> Result<List<Edge>, NoMemory>
    requires closed { IsTrue (is_closed clafers.now) }
    requires few_clafers { length clafers.now < 2 ^ 32 }
    requires known { IsTrue (list_all (λ n. nat_lt n.clafer (length clafers.now)) slots.now) }
    requires few { length slots.now ≤ 2048 }
    requires read { IsRead circuit.old (length circuit.old) }
    requires room { length circuit.old + length slots.now * length slots.now ≤ MOST_WIRES }
    ensures wired { IfOk result (IsWiredSoFar (length circuit.old) (length slots.now * length slots.now) (all_ends (near_of tie clafers.now) slots.now) circuit.new) }
    ensures few { length circuit.new ≤ length circuit.old + length slots.now * length slots.now }
{
    let mut edges = List::new(alloc);
    let mut near = Near {
        clafer: None,
        slots: List::new(alloc),
    };
    for from in 0..slots.len() {
        let clafer = slots.get(from).clafer;
        turn_to(alloc, &mut near, clafers, slots, tie, clafer)?;
        push_edges(circuit, from as u32, &near.slots, &mut edges)?;
    }
    Ok(edges)
}
