//! The instance that bits tell, read one by one.

ghost use Rattle.std.specs.Prelude.{◌≡◌};
ghost use Rattle.std.specs.List.{list_all};
ghost use Rattle.clf_tree.specs.Nodes.{is_before};

use bool_circuit::Wire;
use clf_base::{List, NoMemory};
use clf_tree::{Entry, Instance, Node, Target};
use set_bits::{Edge, Layout, SlotBits};
use std::alloc::Global;

fn bit(bits: &[bool], wire: Wire) -> bool {
    match bits.get(wire.number as usize) {
        Some(bit) => *bit,
        None => false,
    }
}

fn node(layout: &Layout, slot: usize) -> Option<Node> {
    match layout.slots.as_slice().get(slot) {
        Some(node) => Some(*node),
        None => None,
    }
}

/// The node to which the first edge of a slot leads whose bit is true.
fn end(layout: &Layout, edges: &List<Edge>, bits: &[bool], slot: usize) -> Option<Node> {
    for edge in edges.as_slice() {
        if edge.from as usize == slot && bit(bits, edge.here) {
            return node(layout, edge.to as usize);
        }
    }
    None
}

/// The integer that some wires spell, the highest of which counts against the others.
fn spelled(wires: &List<Wire>, bits: &[bool]) -> i64 {
    let mut integer: i64 = 0;
    for place in 0..wires.len() {
        let one = bit(bits, *wires.get(wires.len() - 1 - place)) as i64;
        integer = if place == 0 {
            -one
        } else {
            integer.wrapping_mul(2).wrapping_add(one)
        };
    }
    integer
}

/// The integer of a slot, if it has wires for one.
fn integer(values: &List<SlotBits>, bits: &[bool], slot: usize) -> Option<i64> {
    for value in values.as_slice() {
        if value.slot as usize == slot {
            return Some(spelled(&value.bits, bits));
        }
    }
    None
}

fn target(layout: &Layout, bits: &[bool], slot: usize) -> Option<Target> {
    match end(layout, &layout.targets, bits, slot) {
        Some(node) => Some(Target::Node(node)),
        None => match integer(&layout.values, bits, slot) {
            Some(integer) => Some(Target::Int(integer)),
            None => None,
        },
    }
}

fn is_before(low: Node, high: Node) -> bool
    ensures { result ≡ is_before low high }
{
    low.clafer < high.clafer || (low.clafer == high.clafer && low.number < high.number)
}

/// Whether the node stands behind all nodes of the instance.
fn is_last(instance: &Instance, node: Node) -> bool
    ensures { result ≡ list_all (λ e. is_before e.node node) instance.now.entries }
{
    instance
        .entries
        .as_slice()
        .iter()
        .all(|entry| is_before(entry.node, node))
}

/// The instance whose nodes are those of the slots with true bits, with the first parent and the first target that a true bit gives
/// them. A slot that stands behind a later one is left out.
pub(crate) fn told(alloc: Global, layout: &Layout, bits: &[bool]) -> Result<Instance, NoMemory> {
    let mut instance = Instance::new(alloc);
    for (slot, wire) in layout.live.as_slice().iter().enumerate() {
        let Some(node) = node(layout, slot) else {
            continue;
        };
        if bit(bits, *wire) && is_last(&instance, node) {
            instance.add(Entry {
                node,
                parent: end(layout, &layout.parents, bits, slot),
                target: target(layout, bits, slot),
            })?;
        }
    }
    Ok(instance)
}
