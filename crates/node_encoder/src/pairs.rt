//! What is made of two sets, kept to some clafers.

ghost use Rattle.std.specs.Prelude.{◌≡◌, ◌+◌, ◌*◌, ◌≤◌, ℕ, Bool, ◌&&◌, IfOk, length, not, ◌||◌, if◌then◌else◌, List as Items};
ghost use Rattle.bool_circuit.specs.declared.circuit.TheConstants.{MOST_WIRES};
ghost use Rattle.bool_circuit.specs.Circuit.{wire_value, IsWireOf, Extends};
ghost use Rattle.set_bits.specs.Sets.{is_in, IsSetOf};
ghost use Rattle.told_constraints.specs.Told.{is_listed};
ghost use Rattle.node_encoder.specs.Listing.{room, AreListed};

use crate::ground::Ground;
use crate::listing::cut_to;
use bool_circuit::{Circuit, MOST_WIRES, Wire};
use clf_base::{List, NoMemory};
use set_bits::{Member, choose_sets};
use std::alloc::Global;

/// The nodes of either set that are of the clafers.
pub fn union(
    alloc: Global,
    circuit: &mut Circuit,
    ground: &Ground<'_>,
    ks: &[u32],
    a: &List<Member>,
    b: &List<Member>,
) -> Result<List<Member>, NoMemory>
    requires a_set { IsSetOf circuit.old a.now }
    requires b_set { IsSetOf circuit.old b.now }
    requires room { length circuit.old + 4 * (length a.now + length b.now) ≤ MOST_WIRES }
    ensures set { IfOk result (IsSetOf circuit.new) }
    ensures listed { IfOk result (AreListed ground.now.layout.now ks.now) }
    ensures value { IfOk result (λ r. (bits : Items Bool) (s : ℕ) →
        is_in circuit.new r s bits ≡
        (is_listed ground.now.layout.now ks.now s && (is_in circuit.old a.now s bits || is_in circuit.old b.now s bits))) }
    ensures extends { Extends circuit.old circuit.new (4 * (length a.now + length b.now)) }
{
    let both = set_bits::union(alloc, circuit, a, b)?;
    let set = cut_to(alloc, ground.layout, ks, &both)?;
    Ok(set)
}

/// The nodes of the first set that are not in the second, of the clafers.
pub fn minus(
    alloc: Global,
    circuit: &mut Circuit,
    ground: &Ground<'_>,
    ks: &[u32],
    a: &List<Member>,
    b: &List<Member>,
) -> Result<List<Member>, NoMemory>
    requires a_set { IsSetOf circuit.old a.now }
    requires b_set { IsSetOf circuit.old b.now }
    requires room { length circuit.old + 4 * (length a.now + length b.now) ≤ MOST_WIRES }
    ensures set { IfOk result (IsSetOf circuit.new) }
    ensures listed { IfOk result (AreListed ground.now.layout.now ks.now) }
    ensures value { IfOk result (λ r. (bits : Items Bool) (s : ℕ) →
        is_in circuit.new r s bits ≡
        (is_listed ground.now.layout.now ks.now s && (is_in circuit.old a.now s bits && not (is_in circuit.old b.now s bits)))) }
    ensures extends { Extends circuit.old circuit.new (4 * (length a.now + length b.now)) }
{
    let both = set_bits::minus(alloc, circuit, a, b)?;
    let set = cut_to(alloc, ground.layout, ks, &both)?;
    Ok(set)
}

/// The nodes of both sets that are of the clafers.
pub fn meet(
    alloc: Global,
    circuit: &mut Circuit,
    ground: &Ground<'_>,
    ks: &[u32],
    a: &List<Member>,
    b: &List<Member>,
) -> Result<List<Member>, NoMemory>
    requires a_set { IsSetOf circuit.old a.now }
    requires b_set { IsSetOf circuit.old b.now }
    requires room { length circuit.old + 4 * (length a.now + length b.now) ≤ MOST_WIRES }
    ensures set { IfOk result (IsSetOf circuit.new) }
    ensures listed { IfOk result (AreListed ground.now.layout.now ks.now) }
    ensures value { IfOk result (λ r. (bits : Items Bool) (s : ℕ) →
        is_in circuit.new r s bits ≡
        (is_listed ground.now.layout.now ks.now s && (is_in circuit.old a.now s bits && is_in circuit.old b.now s bits))) }
    ensures extends { Extends circuit.old circuit.new (4 * (length a.now + length b.now)) }
{
    let both = set_bits::meet(alloc, circuit, a, b)?;
    let set = cut_to(alloc, ground.layout, ks, &both)?;
    Ok(set)
}

/// The nodes of the first set where the wire is true, else those of the second, of the clafers.
pub fn choose_nodes(
    alloc: Global,
    circuit: &mut Circuit,
    ground: &Ground<'_>,
    ks: &[u32],
    pick: Wire,
    a: &List<Member>,
    b: &List<Member>,
) -> Result<List<Member>, NoMemory>
    requires pick_in { IsWireOf circuit.old pick }
    requires a_set { IsSetOf circuit.old a.now }
    requires b_set { IsSetOf circuit.old b.now }
    requires room { length circuit.old + (4 * room ground.now.scopes.now ks.now + 1) ≤ MOST_WIRES }
    ensures set { IfOk result (IsSetOf circuit.new) }
    ensures listed { IfOk result (AreListed ground.now.layout.now ks.now) }
    ensures value { IfOk result (λ r. (bits : Items Bool) (s : ℕ) →
        is_in circuit.new r s bits ≡
        (is_listed ground.now.layout.now ks.now s &&
        (if wire_value circuit.old pick bits then is_in circuit.old a.now s bits else is_in circuit.old b.now s bits))) }
    ensures extends { Extends circuit.old circuit.new (4 * room ground.now.scopes.now ks.now + 1) }
{
    let left = cut_to(alloc, ground.layout, ks, a)?;
    let right = cut_to(alloc, ground.layout, ks, b)?;
    let set = choose_sets(alloc, circuit, pick, &left, &right)?;
    Ok(set)
}
