//! Counts and sums of the members of a set.

ghost use Rattle.std.specs.Prelude.{◌≡◌, ◌+◌, ◌*◌, ◌<◌, ◌≤◌, Bool, length, map, pos, IfOk, List as Items};
ghost use Rattle.bool_circuit.specs.Circuit.{AreWiresOf, Extends};
ghost use Rattle.bool_circuit.specs.declared.circuit.TheConstants.{MOST_WIRES};
ghost use Rattle.integer_bits.specs.Numbers.{integer_at, cut};
ghost use Rattle.clf_tree.specs.Meaning.{total};
ghost use Rattle.set_bits.specs.declared.layout.Layout.{Layout};
ghost use Rattle.set_bits.specs.Sets.{is_in, IsSetOf};
ghost use Rattle.shape_encoder.specs.Reading.{IsLaid};
ghost use Rattle.told_constraints.specs.Told.{members, slot_integer};
ghost use Rattle.node_encoder.specs.Listing.{AreBelow};
ghost use Rattle.number_encoder.specs.Costs.{count_cost, total_cost};

use crate::parts::summands_of;
use crate::rooms::{binary_digits, range_width};
use bool_circuit::{Circuit, MOST_WIRES, Wire};
use clf_base::{List, NoMemory};
use integer_bits::{count, sum_if};
use node_encoder::Ground;
use set_bits::Member;
use std::alloc::Global;

/// The number of members that are there, cut to `width` bits, on no more wires than hold it.
pub fn count_members(
    alloc: Global,
    circuit: &mut Circuit,
    set: &List<Member>,
    width: u32,
) -> Result<List<Wire>, NoMemory>
    requires set { IsSetOf circuit.old set.now }
    requires some { 0 < width }
    requires room { length circuit.old + count_cost width (length set.now) ≤ MOST_WIRES }
    ensures wires { IfOk result (AreWiresOf circuit.new) }
    ensures some { IfOk result (λ r. 0 < length r) }
    ensures few { IfOk result (λ r. length r ≤ width) }
    ensures value { IfOk result (λ r. (bits : Items Bool) (layout : Layout) → AreBelow (length layout.slots) set.now
        → integer_at circuit.new r bits ≡ cut width (pos (length (members layout (λ s. is_in circuit.old set.now s bits))))) }
    ensures extends { Extends circuit.old circuit.new (count_cost width (length set.now)) }
{
    let wires = member_wires(alloc, set)?;
    let needed = width.min(binary_digits(set.len()) + 1);
    let number = count(alloc, circuit, &wires, needed)?;
    Ok(number)
}

// The wires of the members.
fn member_wires(alloc: Global, set: &List<Member>) -> Result<List<Wire>, NoMemory>
    ensures { IfOk result (λ r. r ≡ map (λ m. m.here) set.now) }
{
    let mut wires = List::new(alloc);
    for at in 0..set.len() {
        wires.push(set.get(at).here)?;
    }
    Ok(wires)
}

/// The sum of the integers of the members that are there, cut to `width` bits, on no more wires than hold it.
///
/// Members without an integer add nothing, and take no wire.
pub fn total(
    alloc: Global,
    circuit: &mut Circuit,
    ground: &Ground<'_>,
    set: &List<Member>,
    width: u32,
) -> Result<List<Wire>, NoMemory>
    requires set { IsSetOf circuit.old set.now }
    requires laid { IsLaid circuit.old ground.now.layout.now }
    requires some { 0 < width }
    requires room { length circuit.old + total_cost ground.now.scopes.now width (length set.now) ≤ MOST_WIRES }
    ensures wires { IfOk result (AreWiresOf circuit.new) }
    ensures some { IfOk result (λ r. 0 < length r) }
    ensures few { IfOk result (λ r. length r ≤ width) }
    ensures value { let layout = ground.now.layout.now in
        IfOk result (λ r. (bits : Items Bool) → AreBelow (length layout.slots) set.now
        → integer_at circuit.new r bits
        ≡ cut width (total (map (slot_integer layout bits) (members layout (λ s. is_in circuit.old set.now s bits))))) }
    ensures extends { Extends circuit.old circuit.new (total_cost ground.now.scopes.now width (length set.now)) }
{
    let summands = summands_of(alloc, ground, set)?;
    let needed = width.min(range_width(ground.scopes) + binary_digits(set.len()));
    let number = sum_if(alloc, circuit, &summands, needed)?;
    Ok(number)
}
