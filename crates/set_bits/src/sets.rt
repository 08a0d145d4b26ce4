//! Union, meet and differences of sets, and the choice between two, by one merge.
ghost use Rattle.std.specs.Prelude.{◌≡◌, ℕ, ◌+◌, ◌*◌, ◌≤◌, ◌++◌, Bool, true, not, ◌||◌, ◌&&◌, if◌then◌else◌, length, IfOk, IfSome, is_some, OnOk, OnErr, List as Items};
ghost use Rattle.bool_circuit.specs.Circuit.{bool_xor, wire_value, IsWireOf, Extends};
ghost use Rattle.bool_circuit.specs.declared.circuit.TheConstants.{MOST_WIRES};
ghost use Rattle.set_bits.specs.Sets.{is_in, is_here, has_slot, combined, may_combine, IsSetOf};
ghost use Rattle.set_bits.specs.Reaching.{present};
ghost use Rattle.set_bits.specs.Merging.{lowest_slot, taken, others, members_at, IsCombined};

use bool_circuit::{Circuit, MOST_WIRES, Wire};
use clf_base::{List, NoMemory};
use std::alloc::Global;

/// A slot that is in a set where its wire is true.
#[derive(Clone, Copy, PartialEq, Eq, Debug)]
pub struct Member {
    pub slot: u32,
    pub here: Wire,
}

// What is made of two sets.
#[derive(Clone, Copy, PartialEq, Eq, Debug)]
enum Operation {
    Union,
    Meet,
    Minus,
    Differ,
}

/// The slots of either set, with at most one wire for each slot of both. The time grows with the number of members.
pub fn union(
    alloc: Global,
    circuit: &mut Circuit,
    a: &List<Member>,
    b: &List<Member>,
) -> Result<List<Member>, NoMemory>
    requires a_set { IsSetOf circuit.old a.now }
    requires b_set { IsSetOf circuit.old b.now }
    requires room { length circuit.old + 4 * (length a.now + length b.now) ≤ MOST_WIRES }
    ensures set { IfOk result (IsSetOf circuit.new) }
    ensures value { IfOk result (λ r. (bits : Items Bool) (slot : ℕ) → is_in circuit.new r slot bits ≡ (is_in circuit.old a.now slot bits || is_in circuit.old b.now slot bits)) }
    ensures few { IfOk result (λ r. length r ≤ length a.now + length b.now) }
    ensures slots { IfOk result (λ r. (slot : ℕ) → has_slot r slot ≡ true → (has_slot a.now slot || has_slot b.now slot) ≡ true) }
    ensures extends { Extends circuit.old circuit.new (4 * (length a.now + length b.now)) }
{
    let set = combine(alloc, circuit, a, b, Operation::Union)?;
    Ok(set)
}

/// The slots of both sets, with at most one wire for each. The time grows with the number of members.
pub fn meet(
    alloc: Global,
    circuit: &mut Circuit,
    a: &List<Member>,
    b: &List<Member>,
) -> Result<List<Member>, NoMemory>
    requires a_set { IsSetOf circuit.old a.now }
    requires b_set { IsSetOf circuit.old b.now }
    requires room { length circuit.old + 4 * (length a.now + length b.now) ≤ MOST_WIRES }
    ensures set { IfOk result (IsSetOf circuit.new) }
    ensures value { IfOk result (λ r. (bits : Items Bool) (slot : ℕ) → is_in circuit.new r slot bits ≡ (is_in circuit.old a.now slot bits && is_in circuit.old b.now slot bits)) }
    ensures few { IfOk result (λ r. length r ≤ length a.now + length b.now) }
    ensures slots { IfOk result (λ r. (slot : ℕ) → has_slot r slot ≡ true → (has_slot a.now slot && has_slot b.now slot) ≡ true) }
    ensures extends { Extends circuit.old circuit.new (4 * (length a.now + length b.now)) }
{
    let set = combine(alloc, circuit, a, b, Operation::Meet)?;
    Ok(set)
}

/// The slots of the first set that aren't in the second, with at most two wires for each slot of both. The time grows with the number of
/// members.
pub fn minus(
    alloc: Global,
    circuit: &mut Circuit,
    a: &List<Member>,
    b: &List<Member>,
) -> Result<List<Member>, NoMemory>
    requires a_set { IsSetOf circuit.old a.now }
    requires b_set { IsSetOf circuit.old b.now }
    requires room { length circuit.old + 4 * (length a.now + length b.now) ≤ MOST_WIRES }
    ensures set { IfOk result (IsSetOf circuit.new) }
    ensures value { IfOk result (λ r. (bits : Items Bool) (slot : ℕ) → is_in circuit.new r slot bits ≡ (is_in circuit.old a.now slot bits && not (is_in circuit.old b.now slot bits))) }
    ensures few { IfOk result (λ r. length r ≤ length a.now + length b.now) }
    ensures slots { IfOk result (λ r. (slot : ℕ) → has_slot r slot ≡ true → has_slot a.now slot ≡ true) }
    ensures extends { Extends circuit.old circuit.new (4 * (length a.now + length b.now)) }
{
    let set = combine(alloc, circuit, a, b, Operation::Minus)?;
    Ok(set)
}

/// The slots of one set that aren't in the other, with at most one wire for each slot of both. The time grows with the number of members.
pub fn differ(
    alloc: Global,
    circuit: &mut Circuit,
    a: &List<Member>,
    b: &List<Member>,
) -> Result<List<Member>, NoMemory>
    requires a_set { IsSetOf circuit.old a.now }
    requires b_set { IsSetOf circuit.old b.now }
    requires room { length circuit.old + 4 * (length a.now + length b.now) ≤ MOST_WIRES }
    ensures set { IfOk result (IsSetOf circuit.new) }
    ensures value { IfOk result (λ r. (bits : Items Bool) (slot : ℕ) → is_in circuit.new r slot bits ≡ bool_xor (is_in circuit.old a.now slot bits) (is_in circuit.old b.now slot bits)) }
    ensures few { IfOk result (λ r. length r ≤ length a.now + length b.now) }
    ensures slots { IfOk result (λ r. (slot : ℕ) → has_slot r slot ≡ true → (has_slot a.now slot || has_slot b.now slot) ≡ true) }
    ensures extends { Extends circuit.old circuit.new (4 * (length a.now + length b.now)) }
{
    let set = combine(alloc, circuit, a, b, Operation::Differ)?;
    Ok(set)
}

/// The first set where `pick` is true, and the second elsewhere. A slot of both sets takes one choice, and one of a single set one wire; the
/// negation of `pick` is made once. The time grows with the number of members.
pub fn choose_sets(
    alloc: Global,
    circuit: &mut Circuit,
    pick: Wire,
    a: &List<Member>,
    b: &List<Member>,
) -> Result<List<Member>, NoMemory>
    requires pick_in { IsWireOf circuit.old pick }
    requires a_set { IsSetOf circuit.old a.now }
    requires b_set { IsSetOf circuit.old b.now }
    requires room { length circuit.old + (2 * (length a.now + length b.now) + 1) ≤ MOST_WIRES }
    ensures set { IfOk result (IsSetOf circuit.new) }
    ensures value { IfOk result (λ r. (bits : Items Bool) (slot : ℕ) → is_in circuit.new r slot bits ≡ (if wire_value circuit.old pick bits then is_in circuit.old a.now slot bits else is_in circuit.old b.now slot bits)) }
    ensures few { IfOk result (λ r. length r ≤ length a.now + length b.now) }
    ensures slots { IfOk result (λ r. (slot : ℕ) → has_slot r slot ≡ true → (has_slot a.now slot || has_slot b.now slot) ≡ true) }
    ensures extends { Extends circuit.old circuit.new (2 * (length a.now + length b.now) + 1) }
{
    let other = circuit.not(pick)?;
    let set = choose_slots(alloc, circuit, pick, other, a, b)?;
    Ok(set)
}

// The first set where `pick` is true, and the second where `other` is.
fn choose_slots(
    alloc: Global,
    circuit: &mut Circuit,
    pick: Wire,
    other: Wire,
    a: &List<Member>,
    b: &List<Member>,
) -> Result<List<Member>, NoMemory>
    requires pick_in { IsWireOf circuit.old pick }
    requires other_in { IsWireOf circuit.old other }
    requires negated { (bits : Items Bool) → wire_value circuit.old other bits ≡ not (wire_value circuit.old pick bits) }
    requires a_set { IsSetOf circuit.old a.now }
    requires b_set { IsSetOf circuit.old b.now }
    requires room { length circuit.old + 2 * (length a.now + length b.now) ≤ MOST_WIRES }
    ensures set { IfOk result (IsSetOf circuit.new) }
    ensures value { IfOk result (λ r. (bits : Items Bool) (slot : ℕ) → is_in circuit.new r slot bits ≡ (if wire_value circuit.old pick bits then is_in circuit.old a.now slot bits else is_in circuit.old b.now slot bits)) }
    ensures few { IfOk result (λ r. length r ≤ length a.now + length b.now) }
    ensures slots { IfOk result (λ r. (slot : ℕ) → has_slot r slot ≡ true → (has_slot a.now slot || has_slot b.now slot) ≡ true) }
    ensures extends { Extends circuit.old circuit.new (2 * (length a.now + length b.now)) }
{
    let mut set = List::new(alloc);
    let mut rest_a = a.as_slice();
    let mut rest_b = b.as_slice();
    while let Some(slot) = lowest(rest_a, rest_b) {
        let (left, more_a) = take_at(rest_a, slot);
        let (right, more_b) = take_at(rest_b, slot);
        let here = choose_wires(circuit, pick, other, left, right)?;
        push_at(&mut set, slot, here)?;
        rest_a = more_a;
        rest_b = more_b;
    }
    Ok(set)
}

// What is made of two sets, slot by slot.
fn combine(
    alloc: Global,
    circuit: &mut Circuit,
    a: &List<Member>,
    b: &List<Member>,
    operation: Operation,
) -> Result<List<Member>, NoMemory>
    requires a_set { IsSetOf circuit.old a.now }
    requires b_set { IsSetOf circuit.old b.now }
    requires room { length circuit.old + 4 * (length a.now + length b.now) ≤ MOST_WIRES }
    ensures set { IfOk result (IsSetOf circuit.new) }
    ensures value { IfOk result (λ r. (bits : Items Bool) (slot : ℕ) → is_in circuit.new r slot bits ≡ combined operation (is_in circuit.old a.now slot bits) (is_in circuit.old b.now slot bits)) }
    ensures few { IfOk result (λ r. length r ≤ length a.now + length b.now) }
    ensures slots { IfOk result (λ r. (slot : ℕ) → has_slot r slot ≡ true → may_combine operation (has_slot a.now slot) (has_slot b.now slot) ≡ true) }
    ensures extends { Extends circuit.old circuit.new (4 * (length a.now + length b.now)) }
{
    let mut set = List::new(alloc);
    let mut rest_a = a.as_slice();
    let mut rest_b = b.as_slice();
    while let Some(slot) = lowest(rest_a, rest_b) {
        let (left, more_a) = take_at(rest_a, slot);
        let (right, more_b) = take_at(rest_b, slot);
        let here = combine_wires(circuit, operation, left, right)?;
        push_at(&mut set, slot, here)?;
        rest_a = more_a;
        rest_b = more_b;
    }
    Ok(set)
}

// The lowest slot of two sets.
fn lowest(a: &[Member], b: &[Member]) -> Option<u32>
    ensures { result ≡ lowest_slot a.now b.now }
{
    match (a.first(), b.first()) {
        (Some(x), Some(y)) => Some(x.slot.min(y.slot)),
        (Some(x), None) => Some(x.slot),
        (None, Some(y)) => Some(y.slot),
        (None, None) => None,
    }
}

// The wire of the first member if that is of the slot, and the members behind it; else all members.
fn take_at(set: &[Member], slot: u32) -> (Option<Wire>, &[Member])
    ensures wire { result.0 ≡ taken slot set.now }
    ensures rest { result.1.now ≡ others slot set.now }
{
    match set.first() {
        Some(first) if first.slot == slot => (Some(first.here), &set[1..]),
        _ => (None, set),
    }
}

// Adds a member, if there is a wire.
pub(crate) fn push_at(set: &mut List<Member>, slot: u32, here: Option<Wire>) -> Result<(), NoMemory>
    ensures ok { OnOk result (set.new ≡ set.old ++ members_at slot here) }
    ensures err { OnErr result (set.new ≡ set.old) }
{
    match here {
        None => Ok(()),
        Some(here) => {
            set.push(Member { slot, here })?;
            Ok(())
        }
    }
}

// What is made of two wires, where a missing wire is false.
fn combine_wires(
    circuit: &mut Circuit,
    operation: Operation,
    left: Option<Wire>,
    right: Option<Wire>,
) -> Result<Option<Wire>, NoMemory>
    requires left_in { IfSome left (IsWireOf circuit.old) }
    requires right_in { IfSome right (IsWireOf circuit.old) }
    requires room { length circuit.old + 2 ≤ MOST_WIRES }
    ensures wire { IfOk result (λ o. IfSome o (IsWireOf circuit.new)) }
    ensures value { IfOk result (λ o. (bits : Items Bool) → is_here circuit.new o bits ≡ combined operation (is_here circuit.old left bits) (is_here circuit.old right bits)) }
    ensures some { IfOk result (λ o. is_some o ≡ true → may_combine operation (is_some left) (is_some right) ≡ true) }
    ensures extends { Extends circuit.old circuit.new 2 }
{
    match (operation, left, right) {
        (Operation::Union, Some(l), Some(r)) => Ok(Some(circuit.or(l, r)?)),
        (Operation::Union, Some(l), None) => Ok(Some(l)),
        (Operation::Union, None, right) => Ok(right),
        (Operation::Meet, Some(l), Some(r)) => Ok(Some(circuit.and(l, r)?)),
        (Operation::Meet, _, _) => Ok(None),
        (Operation::Minus, Some(l), Some(r)) => but_not(circuit, l, r),
        (Operation::Minus, left, None) => Ok(left),
        (Operation::Minus, None, _) => Ok(None),
        (Operation::Differ, Some(l), Some(r)) => Ok(Some(circuit.xor(l, r)?)),
        (Operation::Differ, Some(l), None) => Ok(Some(l)),
        (Operation::Differ, None, right) => Ok(right),
    }
}

// A wire that is true where the first is and the second isn't.
fn but_not(circuit: &mut Circuit, a: Wire, b: Wire) -> Result<Option<Wire>, NoMemory>
    requires a_in { IsWireOf circuit.old a }
    requires b_in { IsWireOf circuit.old b }
    requires room { length circuit.old + 2 ≤ MOST_WIRES }
    ensures wire { IfOk result (λ o. IfSome o (IsWireOf circuit.new)) }
    ensures value { IfOk result (λ o. (bits : Items Bool) → is_here circuit.new o bits ≡ (is_here circuit.old (Some a) bits && not (is_here circuit.old (Some b) bits))) }
    ensures extends { Extends circuit.old circuit.new 2 }
{
    let not_b = circuit.not(b)?;
    let wire = circuit.and(a, not_b)?;
    Ok(Some(wire))
}

// The first wire where `pick` is true, and the second where `other` is; a missing wire is false.
fn choose_wires(
    circuit: &mut Circuit,
    pick: Wire,
    other: Wire,
    left: Option<Wire>,
    right: Option<Wire>,
) -> Result<Option<Wire>, NoMemory>
    requires pick_in { IsWireOf circuit.old pick }
    requires other_in { IsWireOf circuit.old other }
    requires negated { (bits : Items Bool) → wire_value circuit.old other bits ≡ not (wire_value circuit.old pick bits) }
    requires left_in { IfSome left (IsWireOf circuit.old) }
    requires right_in { IfSome right (IsWireOf circuit.old) }
    requires room { length circuit.old + (present left + present right + 1) ≤ MOST_WIRES }
    ensures wire { IfOk result (λ o. IfSome o (IsWireOf circuit.new)) }
    ensures value { IfOk result (λ o. (bits : Items Bool) → is_here circuit.new o bits ≡ (if wire_value circuit.old pick bits then is_here circuit.old left bits else is_here circuit.old right bits)) }
    ensures some { IfOk result (λ o. is_some o ≡ true → (is_some left || is_some right) ≡ true) }
    ensures extends { Extends circuit.old circuit.new (present left + present right + 1) }
{
    match (left, right) {
        (Some(l), Some(r)) => Ok(Some(circuit.choose(pick, l, r)?)),
        (Some(l), None) => Ok(Some(circuit.and(pick, l)?)),
        (None, Some(r)) => Ok(Some(circuit.and(other, r)?)),
        (None, None) => Ok(None),
    }
}
