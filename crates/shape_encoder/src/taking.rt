//! Of which slots an edge is taken.

ghost use Rattle.std.specs.Prelude.{◌≡◌, ℕ, ◌+◌, ◌*◌, ◌≤◌, Bool, not, ◌||◌, ◌&&◌, length, nat_eq, if◌then◌else◌, IfOk, IfSome, OnOk, All, List as Items, Some};
ghost use Rattle.bool_circuit.specs.Circuit.{wire_value, IsWireOf, Extends};
ghost use Rattle.bool_circuit.specs.declared.circuit.TheConstants.{MOST_WIRES};
ghost use Rattle.set_bits.specs.Sets.{is_here};
ghost use Rattle.set_bits.specs.Reaching.{wire_at, IsTableOf};
ghost use Rattle.shape_encoder.specs.Reading.{IsBit};
ghost use Rattle.shape_encoder.specs.Taking.{AreTaken};

use bool_circuit::{Circuit, MOST_WIRES, Wire};
use clf_base::{List, NoMemory};
use set_bits::Edge;
use std::alloc::Global;

/// A wire for each slot of which some edge is taken, and one that is true where no two edges of one slot are taken.
#[derive(Drop)]
pub(crate) struct Taken {
    pub(crate) wires: Vec<Option<Wire>>,
    pub(crate) single: Wire,
}

/// The wire of a slot.
pub(crate) fn wire_of(table: &Vec<Option<Wire>>, slot: usize) -> Option<Wire>
    ensures { result ≡ wire_at table.now.items slot }
{
    match table.get(slot) {
        Some(wire) => *wire,
        None => None,
    }
}

/// Gives a slot a wire.
pub(crate) fn put(table: &mut Vec<Option<Wire>>, slot: u32, wire: Wire) -> Result<(), NoMemory>
    ensures { OnOk result ((k : ℕ) → wire_at table.new.items k ≡ (if nat_eq slot k then Some wire else wire_at table.old.items k)) }
{
    while table.len() <= slot as usize {
        table.push(None)?;
    }
    table[slot as usize] = Some(wire);
    Ok(())
}

// True where `single` is and not both others are.
fn not_twice(
    circuit: &mut Circuit,
    single: Wire,
    before: Option<Wire>,
    here: Wire,
) -> Result<Wire, NoMemory>
    requires single_in { IsWireOf circuit.old single }
    requires before_in { IfSome before (IsWireOf circuit.old) }
    requires here_in { IsWireOf circuit.old here }
    requires room { length circuit.old + 3 ≤ MOST_WIRES }
    ensures wire { IfOk result (IsWireOf circuit.new) }
    ensures value { IfOk result (λ w. (bits : Items Bool) → wire_value circuit.new w bits ≡ (wire_value circuit.old single bits && not (is_here circuit.old before bits && wire_value circuit.old here bits))) }
    ensures extends { Extends circuit.old circuit.new 3 }
{
    match before {
        None => Ok(single),
        Some(other) => {
            let twice = circuit.and(other, here)?;
            let once = circuit.not(twice)?;
            circuit.and(single, once)
        }
    }
}

/// True where either is.
pub(crate) fn either(
    circuit: &mut Circuit,
    before: Option<Wire>,
    here: Wire,
) -> Result<Wire, NoMemory>
    requires before_in { IfSome before (IsWireOf circuit.old) }
    requires here_in { IsWireOf circuit.old here }
    requires room { length circuit.old + 1 ≤ MOST_WIRES }
    ensures wire { IfOk result (IsWireOf circuit.new) }
    ensures value { IfOk result (λ w. (bits : Items Bool) → wire_value circuit.new w bits ≡ (is_here circuit.old before bits || wire_value circuit.old here bits)) }
    ensures extends { Extends circuit.old circuit.new 1 }
{
    match before {
        None => Ok(here),
        Some(other) => circuit.or(other, here),
    }
}

// Takes one edge more: the table gets its wire, and the result says whether still no two edges of one slot are taken.
fn take_edge(
    circuit: &mut Circuit,
    edge: Edge,
    wires: &mut Vec<Option<Wire>>,
    single: Wire,
) -> Result<Wire, NoMemory>
    requires table { IsTableOf circuit.old wires.old.items }
    requires single_in { IsWireOf circuit.old single }
    requires edge_in { IsWireOf circuit.old edge.here }
    requires room { length circuit.old + 4 ≤ MOST_WIRES }
    ensures wire { IfOk result (IsWireOf circuit.new) }
    ensures table { OnOk result (IsTableOf circuit.new wires.new.items) }
    ensures single { IfOk result (λ w. (bits : Items Bool) → wire_value circuit.new w bits ≡ (wire_value circuit.old single bits && not (is_here circuit.old (wire_at wires.old.items edge.from) bits && wire_value circuit.old edge.here bits))) }
    ensures taken { OnOk result ((bits : Items Bool) (k : ℕ) → is_here circuit.new (wire_at wires.new.items k) bits ≡ (is_here circuit.old (wire_at wires.old.items k) bits || (nat_eq edge.from k && wire_value circuit.old edge.here bits))) }
    ensures extends { Extends circuit.old circuit.new 4 }
{
    let before = wire_of(wires, edge.from as usize);
    let once = not_twice(circuit, single, before, edge.here)?;
    let some = either(circuit, before, edge.here)?;
    put(wires, edge.from, some)?;
    Ok(once)
}

/// The wires of the slots of which an edge is taken, with at most four wires an edge.
pub(crate) fn take_edges(
    alloc: Global,
    circuit: &mut Circuit,
    edges: &List<Edge>,
) -> Result<Taken, NoMemory>
    requires bits { All (λ e. IsBit circuit.old e.here) edges.now }
    requires room { length circuit.old + (4 * length edges.now + 1) ≤ MOST_WIRES }
    ensures taken { IfOk result (λ t. AreTaken circuit.old edges.now (length edges.now) circuit.new t.wires.items t.single) }
    ensures extends { Extends circuit.old circuit.new (4 * length edges.now + 1) }
{
    let mut wires = Vec::new(alloc);
    let mut single = circuit.constant(true)?;
    for at in 0..edges.len() {
        let edge = *edges.get(at);
        single = take_edge(circuit, edge, &mut wires, single)?;
    }
    Ok(Taken { wires, single })
}
