ghost use Rattle.std.specs.Prelude.{◌≡◌, ◌+◌, ◌<◌, ◌≤◌, All, List as Items, length, IfOk};
ghost use Rattle.bool_circuit.specs.Circuit.{inputs, IsWireOf, AreWiresOf};
ghost use Rattle.bool_circuit.specs.declared.gate.Gate.{Gate};
ghost use Rattle.set_bits.specs.Sets.{IsSetOf};

use crate::{Edge, Member, at_least, at_most, image, meet, minus, union};
use bool_circuit::{Circuit, Wire};
use clf_base::{List, NoMemory};
use std::alloc::Global;
use std::test::Fail;

// ---- what the tests build and read

// A circuit with four inputs.
fn four_inputs(alloc: Global) -> Result<(Circuit, [Wire; 4]), NoMemory>
    ensures wires { IfOk result (λ r. AreWiresOf r.0 r.1) }
    ensures inputs { IfOk result (λ r. inputs r.0 ≡ 4) }
    ensures few { IfOk result (λ r. length r.0 ≤ 4) }
{
    let mut circuit = Circuit::new(alloc);
    let a = circuit.input()?;
    let b = circuit.input()?;
    let c = circuit.input()?;
    let d = circuit.input()?;
    Ok((circuit, [a, b, c, d]))
}

// A set of two slots.
fn two_members(
    alloc: Global,
    low: u32,
    a: Wire,
    high: u32,
    b: Wire,
) -> Result<List<Member>, NoMemory>
    requires { low < high }
    ensures set { IfOk result (λ r. (gates : Items Gate) → IsWireOf gates a → IsWireOf gates b → IsSetOf gates r) }
    ensures len { IfOk result (λ r. length r ≡ 2) }
{
    let first = Member { slot: low, here: a };
    let second = Member {
        slot: high,
        here: b,
    };
    let set = List::from_slice(alloc, &[first, second])?;
    Ok(set)
}

// Two sets, of the slots 0 and 2, and of 2 and 3.
fn two_sets(alloc: Global) -> Result<(Circuit, List<Member>, List<Member>), NoMemory>
    ensures first { IfOk result (λ r. IsSetOf r.0 r.1) }
    ensures second { IfOk result (λ r. IsSetOf r.0 r.2) }
    ensures first_len { IfOk result (λ r. length r.1 ≡ 2) }
    ensures second_len { IfOk result (λ r. length r.2 ≡ 2) }
    ensures inputs { IfOk result (λ r. inputs r.0 ≡ 4) }
    ensures few { IfOk result (λ r. length r.0 ≤ 4) }
{
    let (circuit, [a, b, c, d]) = four_inputs(alloc)?;
    let first = two_members(alloc, 0, a, 2, b)?;
    let second = two_members(alloc, 2, c, 3, d)?;
    Ok((circuit, first, second))
}

// The four bits of a number below 16, the lowest first.
fn four_bits(case: u8) -> [bool; 4] {
    [
        case % 2 == 1,
        case / 2 % 2 == 1,
        case / 4 % 2 == 1,
        case / 8 % 2 == 1,
    ]
}

// Whether a slot is in a set at the bits.
fn is_in(
    alloc: Global,
    circuit: &Circuit,
    set: &List<Member>,
    slot: u32,
    bits: &[bool],
) -> Result<bool, NoMemory>
    requires set_in { IsSetOf circuit.now set.now }
    requires all_bits { length bits.now ≡ inputs circuit.now }
{
    for at in 0..set.len() {
        let member = *set.get(at);
        let here = circuit.value_of(alloc, member.here, bits)?;
        if member.slot == slot && here {
            return Ok(true);
        }
    }
    Ok(false)
}

// Whether a set has these of the slots from 0 to 3.
fn is_set(
    alloc: Global,
    circuit: &Circuit,
    set: &List<Member>,
    bits: &[bool],
    slots: [bool; 4],
) -> Result<bool, NoMemory>
    requires set_in { IsSetOf circuit.now set.now }
    requires all_bits { length bits.now ≡ inputs circuit.now }
{
    for slot in 0..4 {
        if is_in(alloc, circuit, set, slot as u32, bits)? != slots[slot] {
            return Ok(false);
        }
    }
    Ok(true)
}

// ---- tables over all bits

fn unions_agree(alloc: Global) -> Result<bool, NoMemory> {
    let (mut circuit, a, b) = two_sets(alloc)?;
    let set = union(alloc, &mut circuit, &a, &b)?;
    for case in 0..16 {
        let bits = four_bits(case);
        let [a, b, c, d] = bits;
        if !is_set(alloc, &circuit, &set, &bits, [a, false, b || c, d])? {
            return Ok(false);
        }
    }
    Ok(true)
}

fn meets_agree(alloc: Global) -> Result<bool, NoMemory> {
    let (mut circuit, a, b) = two_sets(alloc)?;
    let set = meet(alloc, &mut circuit, &a, &b)?;
    for case in 0..16 {
        let bits = four_bits(case);
        let [_, b, c, _] = bits;
        if !is_set(alloc, &circuit, &set, &bits, [false, false, b && c, false])? {
            return Ok(false);
        }
    }
    Ok(true)
}

fn differences_agree(alloc: Global) -> Result<bool, NoMemory> {
    let (mut circuit, a, b) = two_sets(alloc)?;
    let set = minus(alloc, &mut circuit, &a, &b)?;
    for case in 0..16 {
        let bits = four_bits(case);
        let [a, b, c, _] = bits;
        if !is_set(alloc, &circuit, &set, &bits, [a, false, b && !c, false])? {
            return Ok(false);
        }
    }
    Ok(true)
}

// From the slots 0 and 2 to the slots 3 and 1, and from a slot that isn't in the set.
fn images_agree(alloc: Global) -> Result<bool, NoMemory> {
    let (mut circuit, [a, b, c, d]) = four_inputs(alloc)?;
    let set = two_members(alloc, 0, a, 2, b)?;
    let edges = four_edges(alloc, c, d)?;
    let reached = image(alloc, &mut circuit, &set, &edges)?;
    for case in 0..16 {
        let bits = four_bits(case);
        let [a, b, c, d] = bits;
        let slots = [false, b && c, false, (a && c) || (b && d)];
        if !is_set(alloc, &circuit, &reached, &bits, slots)? {
            return Ok(false);
        }
    }
    Ok(true)
}

fn four_edges(alloc: Global, c: Wire, d: Wire) -> Result<List<Edge>, NoMemory>
    ensures wires { IfOk result (λ r. (gates : Items Gate) → IsWireOf gates c → IsWireOf gates d → All (λ e. IsWireOf gates e.here) r) }
    ensures len { IfOk result (λ r. length r ≡ 4) }
{
    let first = Edge {
        from: 0,
        to: 3,
        here: c,
    };
    let second = Edge {
        from: 2,
        to: 3,
        here: d,
    };
    let third = Edge {
        from: 2,
        to: 1,
        here: c,
    };
    let last = Edge {
        from: 1,
        to: 0,
        here: d,
    };
    let edges = List::from_slice(alloc, &[first, second, third, last])?;
    Ok(edges)
}

fn counts_agree(alloc: Global, n: u32) -> Result<bool, NoMemory>
    requires { n ≤ 5 }
{
    let (mut circuit, wires) = four_inputs(alloc)?;
    let wires = List::from_slice(alloc, &wires)?;
    let least = at_least(alloc, &mut circuit, &wires, n)?;
    let most = at_most(alloc, &mut circuit, &wires, n)?;
    for case in 0..16 {
        let bits = four_bits(case);
        let [a, b, c, d] = bits;
        let count = a as u32 + b as u32 + c as u32 + d as u32;
        let enough = circuit.value_of(alloc, least, &bits)?;
        let few = circuit.value_of(alloc, most, &bits)?;
        if enough != (count >= n) || few != (count <= n) {
            return Ok(false);
        }
    }
    Ok(true)
}

#[test]
fn sets_agree_at_all_bits(rt: HostRuntime) -> Result<(), Fail> {
    assert!(rt; unions_agree(rt.alloc())?);
    assert!(rt; meets_agree(rt.alloc())?);
    assert!(rt; differences_agree(rt.alloc())?);
    assert!(rt; images_agree(rt.alloc())?);
    Ok(())
}

#[test]
fn counts_of_four_agree_at_all_bits(rt: HostRuntime) -> Result<(), Fail> {
    for n in 0..6 {
        assert!(rt; counts_agree(rt.alloc(), n)?);
    }
    Ok(())
}

// ---- how many wires

// So many inputs of a circuit.
fn inputs_of(alloc: Global, circuit: &mut Circuit, many: u32) -> Result<List<Wire>, NoMemory>
    requires many { many ≤ 1000 }
    requires room { length circuit.old ≤ 100000 }
    ensures wires { IfOk result (AreWiresOf circuit.new) }
    ensures len { IfOk result (λ r. length r ≡ many) }
    ensures grown { IfOk result (λ r. length circuit.new ≡ length circuit.old + many) }
{
    let mut wires = List::new(alloc);
    for _at in 0..many {
        wires.push(circuit.input()?)?;
    }
    Ok(wires)
}

// How many wires the test adds that at most so many of 64 are true.
fn wires_of_at_most(alloc: Global, n: u32) -> Result<u32, NoMemory>
    requires { n ≤ 64 }
{
    let mut circuit = Circuit::new(alloc);
    let wires = inputs_of(alloc, &mut circuit, 64)?;
    let _ = at_most(alloc, &mut circuit, &wires, n)?;
    Ok(circuit.len() - 64)
}

// How many wires both tests add that exactly so many of 64 are true.
fn wires_of_exactly(alloc: Global, n: u32) -> Result<u32, NoMemory>
    requires { n ≤ 64 }
{
    let mut circuit = Circuit::new(alloc);
    let wires = inputs_of(alloc, &mut circuit, 64)?;
    let _ = at_least(alloc, &mut circuit, &wires, n)?;
    let _ = at_most(alloc, &mut circuit, &wires, n)?;
    Ok(circuit.len() - 64)
}

fn wires_of_at_most_one_of_50(alloc: Global) -> Result<u32, NoMemory> {
    let mut circuit = Circuit::new(alloc);
    let wires = inputs_of(alloc, &mut circuit, 50)?;
    let _ = at_most(alloc, &mut circuit, &wires, 1)?;
    Ok(circuit.len() - 50)
}

#[test]
fn typical_counts_add_few_wires(rt: HostRuntime) -> Result<(), Fail> {
    println!(rt;
        "at most 1 of 50: {}",
        wires_of_at_most_one_of_50(rt.alloc())?
    )?;
    println!(rt; "at most 62 of 64: {}", wires_of_at_most(rt.alloc(), 62)?)?;
    println!(rt; "exactly 1 of 64: {}", wires_of_exactly(rt.alloc(), 1)?)?;
    println!(rt; "exactly 8 of 64: {}", wires_of_exactly(rt.alloc(), 8)?)?;
    Ok(())
}
