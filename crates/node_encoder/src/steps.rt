//! Steps from a set along edges: to children, to parents and to targets.

ghost use Rattle.std.specs.Prelude.{◌≡◌, ◌+◌, ◌*◌, ◌≤◌, ℕ, Bool, ◌&&◌, IfOk, length, map, List as Items};
ghost use Rattle.bool_circuit.specs.declared.circuit.TheConstants.{MOST_WIRES};
ghost use Rattle.bool_circuit.specs.Circuit.{Extends};
ghost use Rattle.set_bits.specs.Sets.{is_in, IsSetOf};
ghost use Rattle.shape_encoder.specs.Reading.{IsLaid};
ghost use Rattle.told_constraints.specs.Told.{is_led_to, is_listed, turned};
ghost use Rattle.node_encoder.specs.Gathering.{edges_of};
ghost use Rattle.node_encoder.specs.Listing.{room, AreListed};

use crate::gathering::{Step, gathered};
use crate::ground::Ground;
use crate::listing::cut_to;
use bool_circuit::{Circuit, MOST_WIRES};
use clf_base::{List, NoMemory};
use set_bits::{Member, image};
use std::alloc::Global;

// The slots of the clafers to which edges of a step lead from a set.
fn along(
    alloc: Global,
    circuit: &mut Circuit,
    ground: &Ground<'_>,
    step: Step,
    ks: &[u32],
    of: &List<Member>,
) -> Result<List<Member>, NoMemory>
    requires set { IsSetOf circuit.old of.now }
    requires laid { IsLaid circuit.old ground.now.layout.now }
    requires room { length circuit.old + 4 * (length of.now * room ground.now.scopes.now ks.now) ≤ MOST_WIRES }
    ensures set { IfOk result (IsSetOf circuit.new) }
    ensures listed { IfOk result (AreListed ground.now.layout.now ks.now) }
    ensures value { IfOk result (λ r. (bits : Items Bool) (s : ℕ) →
        is_in circuit.new r s bits ≡
        (is_listed ground.now.layout.now ks.now s &&
        is_led_to bits (edges_of ground.now.layout.now step) (λ t. is_in circuit.old of.now t bits) s)) }
    ensures extends { Extends circuit.old circuit.new (4 * (length of.now * room ground.now.scopes.now ks.now)) }
{
    let edges = gathered(alloc, ground, step, ks, of)?;
    let reached = image(alloc, circuit, of, &edges)?;
    let set = cut_to(alloc, ground.layout, ks, &reached)?;
    Ok(set)
}

/// The children of a set that are of the clafers. Only edges from its members to slots of the clafers take wires.
pub fn down(
    alloc: Global,
    circuit: &mut Circuit,
    ground: &Ground<'_>,
    ks: &[u32],
    of: &List<Member>,
) -> Result<List<Member>, NoMemory>
    requires set { IsSetOf circuit.old of.now }
    requires laid { IsLaid circuit.old ground.now.layout.now }
    requires room { length circuit.old + 4 * (length of.now * room ground.now.scopes.now ks.now) ≤ MOST_WIRES }
    ensures set { IfOk result (IsSetOf circuit.new) }
    ensures listed { IfOk result (AreListed ground.now.layout.now ks.now) }
    ensures value { IfOk result (λ r. (bits : Items Bool) (s : ℕ) →
        is_in circuit.new r s bits ≡
        (is_listed ground.now.layout.now ks.now s &&
        is_led_to bits (map turned ground.now.layout.now.parents) (λ t. is_in circuit.old of.now t bits) s)) }
    ensures extends { Extends circuit.old circuit.new (4 * (length of.now * room ground.now.scopes.now ks.now)) }
{
    let set = along(alloc, circuit, ground, Step::Down, ks, of)?;
    Ok(set)
}

/// The parents of a set that are of the clafers. Only edges from its members to slots of the clafers take wires.
pub fn up(
    alloc: Global,
    circuit: &mut Circuit,
    ground: &Ground<'_>,
    ks: &[u32],
    of: &List<Member>,
) -> Result<List<Member>, NoMemory>
    requires set { IsSetOf circuit.old of.now }
    requires laid { IsLaid circuit.old ground.now.layout.now }
    requires room { length circuit.old + 4 * (length of.now * room ground.now.scopes.now ks.now) ≤ MOST_WIRES }
    ensures set { IfOk result (IsSetOf circuit.new) }
    ensures listed { IfOk result (AreListed ground.now.layout.now ks.now) }
    ensures value { IfOk result (λ r. (bits : Items Bool) (s : ℕ) →
        is_in circuit.new r s bits ≡
        (is_listed ground.now.layout.now ks.now s &&
        is_led_to bits ground.now.layout.now.parents (λ t. is_in circuit.old of.now t bits) s)) }
    ensures extends { Extends circuit.old circuit.new (4 * (length of.now * room ground.now.scopes.now ks.now)) }
{
    let set = along(alloc, circuit, ground, Step::Up, ks, of)?;
    Ok(set)
}

/// The targets of a set that are of the clafers. Only edges from its members to slots of the clafers take wires.
pub fn follow(
    alloc: Global,
    circuit: &mut Circuit,
    ground: &Ground<'_>,
    ks: &[u32],
    of: &List<Member>,
) -> Result<List<Member>, NoMemory>
    requires set { IsSetOf circuit.old of.now }
    requires laid { IsLaid circuit.old ground.now.layout.now }
    requires room { length circuit.old + 4 * (length of.now * room ground.now.scopes.now ks.now) ≤ MOST_WIRES }
    ensures set { IfOk result (IsSetOf circuit.new) }
    ensures listed { IfOk result (AreListed ground.now.layout.now ks.now) }
    ensures value { IfOk result (λ r. (bits : Items Bool) (s : ℕ) →
        is_in circuit.new r s bits ≡
        (is_listed ground.now.layout.now ks.now s &&
        is_led_to bits ground.now.layout.now.targets (λ t. is_in circuit.old of.now t bits) s)) }
    ensures extends { Extends circuit.old circuit.new (4 * (length of.now * room ground.now.scopes.now ks.now)) }
{
    let set = along(alloc, circuit, ground, Step::Follow, ks, of)?;
    Ok(set)
}
