//! Whether bits show some instance.

ghost use Rattle.std.specs.Prelude.{◌≡◌, ◌+◌, ◌*◌, ◌≤◌, Bool, not, ◌||◌, length, IfOk, IfSome, All, List as Items};
ghost use Rattle.bool_circuit.specs.Circuit.{wire_value, IsWireOf, Extends};
ghost use Rattle.bool_circuit.specs.declared.circuit.TheConstants.{MOST_WIRES};
ghost use Rattle.set_bits.specs.Sets.{is_here};
ghost use Rattle.set_bits.specs.Reaching.{IsTableOf};
ghost use Rattle.shown_instance.specs.Consistent.{are_edges, is_consistent};
ghost use Rattle.shape_encoder.specs.Reading.{IsBit, IsLaid, edges_cost, consistent_cost};
ghost use Rattle.shape_encoder.specs.Taking.{lead_below, IsLedSoFar};

use crate::ranges::integers;
use crate::taking::{take_edges, wire_of};
use bool_circuit::{Circuit, MOST_WIRES, Wire};
use clf_base::{List, NoMemory};
use clf_tree::Scopes;
use set_bits::{Edge, Layout};
use std::alloc::Global;

/// Whether a slot is live where a wire is true.
pub(crate) fn leads_from_live(
    circuit: &mut Circuit,
    taken: Option<Wire>,
    live: Wire,
) -> Result<Wire, NoMemory>
    requires taken_in { IfSome taken (IsWireOf circuit.old) }
    requires live_in { IsWireOf circuit.old live }
    requires room { length circuit.old + 2 ≤ MOST_WIRES }
    ensures wire { IfOk result (IsWireOf circuit.new) }
    ensures value { IfOk result (λ w. (bits : Items Bool) → wire_value circuit.new w bits ≡ (not (is_here circuit.old taken bits) || wire_value circuit.old live bits)) }
    ensures extends { Extends circuit.old circuit.new 2 }
{
    match taken {
        None => circuit.constant(true),
        Some(some) => {
            let none = circuit.not(some)?;
            circuit.or(none, live)
        }
    }
}

// Whether each slot of which an edge is taken is live.
fn lead_from_live(
    circuit: &mut Circuit,
    live: &List<Wire>,
    taken: &Vec<Option<Wire>>,
) -> Result<Wire, NoMemory>
    requires live_bits { All (IsBit circuit.old) live.now }
    requires table { IsTableOf circuit.old taken.now.items }
    requires room { length circuit.old + (3 * length live.now + 1) ≤ MOST_WIRES }
    ensures led { IfOk result (IsLedSoFar circuit.old taken.now.items live.now (length live.now) circuit.new) }
    ensures extends { Extends circuit.old circuit.new (3 * length live.now + 1) }
{
    let mut all = circuit.constant(true)?;
    for slot in 0..live.len() {
        let here = *live.get(slot);
        let right = leads_from_live(circuit, wire_of(taken, slot), here)?;
        all = circuit.and(all, right)?;
    }
    Ok(all)
}

// Whether the edges of one kind lead from live slots, and one of each at most is taken.
fn edges_agree(
    alloc: Global,
    circuit: &mut Circuit,
    layout: &Layout,
    edges: &List<Edge>,
) -> Result<Wire, NoMemory>
    requires slots { length layout.now.live ≡ length layout.now.slots }
    requires live_bits { All (IsBit circuit.old) layout.now.live }
    requires bits { All (λ e. IsBit circuit.old e.here) edges.now }
    requires room { length circuit.old + edges_cost layout.now edges.now ≤ MOST_WIRES }
    ensures wire { IfOk result (IsWireOf circuit.new) }
    ensures value { IfOk result (λ w. (bits : Items Bool) → wire_value circuit.new w bits ≡ are_edges layout.now edges.now bits) }
    ensures extends { Extends circuit.old circuit.new (edges_cost layout.now edges.now) }
{
    let taken = take_edges(alloc, circuit, edges)?;
    let led = lead_from_live(circuit, &layout.live, &taken.wires)?;
    let agree = circuit.and(led, taken.single)?;
    Ok(agree)
}

/// A wire that is true exactly where the bits of a layout show some instance: true bits of edges lead from live slots, and one of each at
/// most is taken; the integer of a live slot is in the range, and the bits of another are all false.
///
/// The time grows with the number of wires. There are at most four wires an edge, three a slot, and some 17 a bit of an integer.
pub fn consistent(
    alloc: Global,
    circuit: &mut Circuit,
    scopes: &Scopes,
    layout: &Layout,
) -> Result<Wire, NoMemory>
    requires laid { IsLaid circuit.old layout.now }
    requires room { length circuit.old + consistent_cost scopes.now layout.now ≤ MOST_WIRES }
    ensures wire { IfOk result (IsWireOf circuit.new) }
    ensures value { IfOk result (λ w. (bits : Items Bool) → wire_value circuit.new w bits ≡ is_consistent scopes.now layout.now bits) }
    ensures extends { Extends circuit.old circuit.new (consistent_cost scopes.now layout.now) }
{
    let parents = edges_agree(alloc, circuit, layout, &layout.parents)?;
    let targets = edges_agree(alloc, circuit, layout, &layout.targets)?;
    let numbers = integers(alloc, circuit, scopes, layout)?;
    let edges = circuit.and(parents, targets)?;
    let shown = circuit.and(edges, numbers)?;
    Ok(shown)
}
