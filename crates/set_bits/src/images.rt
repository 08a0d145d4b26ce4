//! Images of sets along edges.
ghost use Rattle.std.specs.Prelude.{◌≡◌, ℕ, ◌+◌, ◌*◌, ◌≤◌, Bool, true, ◌||◌, ◌&&◌, length, nat_eq, if◌then◌else◌, IfOk, IfSome, is_some, OnOk, OnErr, All, List as Items, Some};
ghost use Rattle.bool_circuit.specs.Circuit.{wire_value, IsWireOf, Extends};
ghost use Rattle.bool_circuit.specs.declared.circuit.TheConstants.{MOST_WIRES};
ghost use Rattle.set_bits.specs.Sets.{is_in, is_here, is_reached, has_slot, leads_to, leading, slots_into, AscendFrom, AreDistinct, IsSetOf};
ghost use Rattle.set_bits.specs.declared.layout.Edge.{Edge};
ghost use Rattle.set_bits.specs.declared.sets.Member.{Member};
ghost use Rattle.set_bits.specs.Reaching.{wire_at, present, IsTableOf, IsTabled, IsCollected, IsFollowed};

use crate::layout::Edge;
use crate::sets::{Member, push_at};
use bool_circuit::{Circuit, MOST_WIRES, Wire};
use clf_base::{List, NoMemory};
use std::alloc::Global;

// How many slots there may be.
const MOST_SLOTS: usize = 4_294_967_296;

/// The slots to which an edge that is there leads from a slot of the set, with at most two wires for each edge that begins at a member. It has
/// only slots to which an edge leads from a member.
///
/// Two tables by slot hold the wires of the set and those of the image so far, so the time grows with the number of edges and with the
/// greatest slot.
pub fn image(
    alloc: Global,
    circuit: &mut Circuit,
    from: &List<Member>,
    edges: &List<Edge>,
) -> Result<List<Member>, NoMemory>
    requires from_set { IsSetOf circuit.old from.now }
    requires edges_in { All (λ e. IsWireOf circuit.old e.here) edges.now }
    requires room { length circuit.old + 2 * leading from.now edges.now ≤ MOST_WIRES }
    ensures set { IfOk result (IsSetOf circuit.new) }
    ensures value { IfOk result (λ r. (bits : Items Bool) (slot : ℕ) → is_in circuit.new r slot bits ≡ is_reached circuit.old from.now edges.now slot bits) }
    ensures few { IfOk result (λ r. length r ≤ leading from.now edges.now) }
    ensures slots { IfOk result (λ r. (slot : ℕ) → has_slot r slot ≡ true → leads_to from.now edges.now slot ≡ true) }
    ensures extends { Extends circuit.old circuit.new (2 * leading from.now edges.now) }
{
    let starts = table_of(alloc, from)?;
    let mut reached = Vec::new(alloc);
    for at in 0..edges.len() {
        let edge = *edges.get(at);
        let here = wire_of(&starts, edge.from);
        reach(circuit, here, edge, &mut reached)?;
    }
    let set = collect(alloc, &reached)?;
    Ok(set)
}

// The wires of a set by slot.
fn table_of(alloc: Global, set: &List<Member>) -> Result<Vec<Option<Wire>>, NoMemory>
    requires { AscendFrom 0 set.now }
    ensures { IfOk result (λ table. IsTabled set.now (length set.now) table.items) }
{
    let mut table = Vec::new(alloc);
    for at in 0..set.len() {
        let member = *set.get(at);
        put(&mut table, member.slot, member.here)?;
    }
    Ok(table)
}

// The wire of a slot.
fn wire_of(table: &Vec<Option<Wire>>, slot: u32) -> Option<Wire>
    ensures { result ≡ wire_at table.now.items slot }
{
    match table.get(slot as usize) {
        Some(wire) => *wire,
        None => None,
    }
}

// Gives a slot a wire.
fn put(table: &mut Vec<Option<Wire>>, slot: u32, wire: Wire) -> Result<(), NoMemory>
    ensures ok { OnOk result ((k : ℕ) → wire_at table.new.items k ≡ (if nat_eq slot k then Some wire else wire_at table.old.items k)) }
    ensures few { OnOk result (length table.old.items ≤ MOST_SLOTS → length table.new.items ≤ MOST_SLOTS) }
{
    while table.len() <= slot as usize {
        table.push(None)?;
    }
    table[slot as usize] = Some(wire);
    Ok(())
}

// Follows an edge from a slot with this wire.
fn reach(
    circuit: &mut Circuit,
    here: Option<Wire>,
    edge: Edge,
    reached: &mut Vec<Option<Wire>>,
) -> Result<(), NoMemory>
    requires here_in { IfSome here (IsWireOf circuit.old) }
    requires edge_in { IsWireOf circuit.old edge.here }
    requires reached_in { IsTableOf circuit.old reached.old.items }
    requires room { length circuit.old + 2 * present here ≤ MOST_WIRES }
    ensures wires { OnOk result (IsTableOf circuit.new reached.new.items) }
    ensures few { OnOk result (length reached.old.items ≤ MOST_SLOTS → length reached.new.items ≤ MOST_SLOTS) }
    ensures value { OnOk result ((bits : Items Bool) (k : ℕ) → is_here circuit.new (wire_at reached.new.items k) bits ≡ (is_here circuit.old (wire_at reached.old.items k) bits || (nat_eq edge.to k && (is_here circuit.old here bits && wire_value circuit.old edge.here bits)))) }
    ensures some { OnOk result ((k : ℕ) → is_some (wire_at reached.new.items k) ≡ (is_some (wire_at reached.old.items k) || (nat_eq edge.to k && is_some here))) }
    ensures extends { Extends circuit.old circuit.new (2 * present here) }
{
    match here {
        None => Ok(()),
        Some(start) => {
            let through = circuit.and(start, edge.here)?;
            let wire = either(circuit, wire_of(reached, edge.to), through)?;
            put(reached, edge.to, wire)?;
            Ok(())
        }
    }
}

// A wire that is true where either is.
fn either(circuit: &mut Circuit, a: Option<Wire>, b: Wire) -> Result<Wire, NoMemory>
    requires a_in { IfSome a (IsWireOf circuit.old) }
    requires b_in { IsWireOf circuit.old b }
    requires room { length circuit.old + 1 ≤ MOST_WIRES }
    ensures wire { IfOk result (IsWireOf circuit.new) }
    ensures value { IfOk result (λ w. (bits : Items Bool) → wire_value circuit.new w bits ≡ (is_here circuit.old a bits || wire_value circuit.old b bits)) }
    ensures extends { Extends circuit.old circuit.new 1 }
{
    match a {
        None => Ok(b),
        Some(a) => circuit.or(a, b),
    }
}

// The set of the slots that have a wire.
fn collect(alloc: Global, table: &Vec<Option<Wire>>) -> Result<List<Member>, NoMemory>
    requires { length table.now.items ≤ MOST_SLOTS }
    ensures { IfOk result (IsCollected table.now.items (length table.now.items)) }
{
    let mut set = List::new(alloc);
    for slot in 0..table.len() {
        let here = wire_of(table, slot as u32);
        push_at(&mut set, slot as u32, here)?;
    }
    Ok(set)
}

/// Where no two edges have the same ends, those that begin at a member are no more than the members times the slots into which edges lead.
pub fn edges_from_members_are_few()
    ensures { (set : Items Member) (edges : Items Edge) → AreDistinct edges → leading set edges ≤ length set * slots_into edges }
{}
