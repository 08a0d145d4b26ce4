ghost use Rattle.std.specs.Prelude.{◌≡◌, ◌+◌, ◌*◌, ◌<◌, ◌≤◌, ◌≤ℤ◌, ◌∷◌, [], pos, negsuc, length, IfOk};
ghost use Rattle.bool_circuit.specs.Circuit.{inputs, IsWireOf, AreWiresOf};
ghost use Rattle.integer_bits.specs.Totals.{ArePartsOf};

use crate::{Part, add, constant, count, equal, less, multiply, negate, sum_if};
use bool_circuit::{Circuit, Wire};
use clf_base::{List, NoMemory};
use std::alloc::Global;
use std::test::Fail;

// ---- what the tests read

// Whether the bits are the number in two's complement.
fn spells(bits: &[bool], value: i128) -> bool {
    let mut rest = value;
    let mut last = false;
    for bit in bits {
        if (rest.rem_euclid(2) == 1) != *bit {
            return false;
        }
        rest = rest.div_euclid(2);
        last = *bit;
    }
    rest == if last { -1 } else { 0 }
}

// Whether the wires are the number at the bits.
fn are(
    alloc: Global,
    circuit: &Circuit,
    wires: &List<Wire>,
    bits: &[bool],
    value: i128,
) -> Result<bool, NoMemory>
    requires wires_in { AreWiresOf circuit.now wires.now }
    requires all_bits { length bits.now ≡ inputs circuit.now }
{
    let mut values = Vec::new(alloc);
    for at in 0..wires.len() {
        let wire = *wires.get(at);
        values.push(circuit.value_of(alloc, wire, bits)?)?;
    }
    Ok(spells(&values, value))
}

// The four bits of a number below 16, the lowest first.
fn four_bits(case: u8) -> [bool; 4] {
    [
        case % 2 == 1,
        case / 2 % 2 == 1,
        case / 4 % 2 == 1,
        case / 8 % 2 == 1,
    ]
}

// The number of two bits.
fn number(low: bool, high: bool) -> i128
    ensures low { negsuc 1 ≤ℤ result }
    ensures high { result ≤ℤ pos 1 }
{
    match (low, high) {
        (false, false) => 0,
        (true, false) => 1,
        (false, true) => -2,
        (true, true) => -1,
    }
}

// ---- what they build

// A circuit with four inputs.
fn four_inputs(alloc: Global) -> Result<(Circuit, [Wire; 4]), NoMemory>
    ensures wires { IfOk result (λ r. AreWiresOf r.0 r.1) }
    ensures inputs { IfOk result (λ r. inputs r.0 ≡ 4) }
    ensures few { IfOk result (λ r. length r.0 ≤ 4) }
{
    let mut circuit = Circuit::new(alloc);
    let a = circuit.input()?;
    let b = circuit.input()?;
    let c = circuit.input()?;
    let d = circuit.input()?;
    Ok((circuit, [a, b, c, d]))
}

// A circuit with two numbers of two bits each.
fn two_numbers(alloc: Global) -> Result<(Circuit, List<Wire>, List<Wire>), NoMemory>
    ensures first { IfOk result (λ r. AreWiresOf r.0 r.1) }
    ensures second { IfOk result (λ r. AreWiresOf r.0 r.2) }
    ensures first_len { IfOk result (λ r. length r.1 ≡ 2) }
    ensures second_len { IfOk result (λ r. length r.2 ≡ 2) }
    ensures inputs { IfOk result (λ r. inputs r.0 ≡ 4) }
    ensures few { IfOk result (λ r. length r.0 ≤ 4) }
{
    let (circuit, wires) = four_inputs(alloc)?;
    let a = List::from_slice(alloc, &wires[..2])?;
    let b = List::from_slice(alloc, &wires[2..])?;
    Ok((circuit, a, b))
}

// ---- tables over all bits

fn sums_agree(alloc: Global) -> Result<bool, NoMemory> {
    let (mut circuit, a, b) = two_numbers(alloc)?;
    let sum = add(alloc, &mut circuit, &a, &b, 5)?;
    for case in 0..16 {
        let [a0, a1, b0, b1] = four_bits(case);
        let value = number(a0, a1) + number(b0, b1);
        if !are(alloc, &circuit, &sum, &[a0, a1, b0, b1], value)? {
            return Ok(false);
        }
    }
    Ok(true)
}

fn products_agree(alloc: Global) -> Result<bool, NoMemory> {
    let (mut circuit, a, b) = two_numbers(alloc)?;
    let product = multiply(alloc, &mut circuit, &a, &b, 4)?;
    for case in 0..16 {
        let [a0, a1, b0, b1] = four_bits(case);
        let value = match number(a0, a1) {
            -2 => -2 * number(b0, b1),
            -1 => -number(b0, b1),
            1 => number(b0, b1),
            _ => 0,
        };
        if !are(alloc, &circuit, &product, &[a0, a1, b0, b1], value)? {
            return Ok(false);
        }
    }
    Ok(true)
}

fn negatives_agree(alloc: Global) -> Result<bool, NoMemory> {
    let (mut circuit, a, _) = two_numbers(alloc)?;
    let negative = negate(alloc, &mut circuit, &a, 3)?;
    for case in 0..16 {
        let [a0, a1, b0, b1] = four_bits(case);
        if !are(
            alloc,
            &circuit,
            &negative,
            &[a0, a1, b0, b1],
            -number(a0, a1),
        )? {
            return Ok(false);
        }
    }
    Ok(true)
}

fn comparisons_agree(alloc: Global) -> Result<bool, NoMemory> {
    let (mut circuit, a, b) = two_numbers(alloc)?;
    let below = less(alloc, &mut circuit, &a, &b)?;
    let same = equal(alloc, &mut circuit, &a, &b)?;
    for case in 0..16 {
        let [a0, a1, b0, b1] = four_bits(case);
        let x = number(a0, a1);
        let y = number(b0, b1);
        let told = circuit.value_of(alloc, below, &[a0, a1, b0, b1])?;
        let found = circuit.value_of(alloc, same, &[a0, a1, b0, b1])?;
        if told != (x < y) || found != (x == y) {
            return Ok(false);
        }
    }
    Ok(true)
}

fn counts_agree(alloc: Global) -> Result<bool, NoMemory> {
    let (mut circuit, wires) = four_inputs(alloc)?;
    let wires = List::from_slice(alloc, &wires)?;
    let number = count(alloc, &mut circuit, &wires, 4)?;
    for case in 0..16 {
        let bits = four_bits(case);
        let [a, b, c, d] = bits;
        let value = a as i128 + b as i128 + c as i128 + d as i128;
        if !are(alloc, &circuit, &number, &bits, value)? {
            return Ok(false);
        }
    }
    Ok(true)
}

// Two parts of one bit, which is 0 or -1, each where another input is true.
fn sums_of_parts_agree(alloc: Global) -> Result<bool, NoMemory> {
    let (mut circuit, [here_a, a, here_b, b]) = four_inputs(alloc)?;
    let mut parts = List::new(alloc);
    parts.push(one_bit(alloc, here_a, a)?)?;
    parts.push(one_bit(alloc, here_b, b)?)?;
    let sum = sum_if(alloc, &mut circuit, &parts, 2)?;
    for case in 0..16 {
        let bits = four_bits(case);
        let [here_a, a, here_b, b] = bits;
        let value = -((here_a && a) as i128) - (here_b && b) as i128;
        if !are(alloc, &circuit, &sum, &bits, value)? {
            return Ok(false);
        }
    }
    Ok(true)
}

fn one_bit(alloc: Global, here: Wire, bit: Wire) -> Result<Part, NoMemory>
    ensures { IfOk result (λ p. (p.here ≡ here) × (p.bits ≡ bit ∷ [])) }
{
    let bits = List::from_slice(alloc, &[bit])?;
    Ok(Part { here, bits })
}

#[test]
fn two_bits_agree_with_the_numbers(rt: HostRuntime) -> Result<(), Fail> {
    assert!(rt; sums_agree(rt.alloc())?);
    assert!(rt; products_agree(rt.alloc())?);
    assert!(rt; negatives_agree(rt.alloc())?);
    assert!(rt; comparisons_agree(rt.alloc())?);
    assert!(rt; counts_agree(rt.alloc())?);
    assert!(rt; sums_of_parts_agree(rt.alloc())?);
    Ok(())
}

// ---- the ends of 128 bits

#[test]
fn the_ends_of_128_bits_are_exact(rt: HostRuntime) -> Result<(), Fail> {
    let alloc = rt.alloc();
    let mut circuit = Circuit::new(alloc);
    let most = constant(alloc, &mut circuit, i128::MAX, 128)?;
    let least = constant(alloc, &mut circuit, i128::MIN, 128)?;
    assert!(rt; are(alloc, &circuit, &most, &[], i128::MAX)?);
    assert!(rt; are(alloc, &circuit, &least, &[], i128::MIN)?);
    let sum = add(alloc, &mut circuit, &most, &least, 128)?;
    assert!(rt; are(alloc, &circuit, &sum, &[], -1)?);
    let negative = negate(alloc, &mut circuit, &most, 128)?;
    assert!(rt; are(alloc, &circuit, &negative, &[], i128::MIN + 1)?);
    Ok(())
}

// ---- how many wires

// So many inputs behind the wires of a circuit.
fn inputs_of(alloc: Global, circuit: &mut Circuit, many: u32) -> Result<List<Wire>, NoMemory>
    requires many { many ≤ 1000 }
    requires room { length circuit.old ≤ 100000 }
    ensures wires { IfOk result (AreWiresOf circuit.new) }
    ensures len { IfOk result (λ r. length r ≡ many) }
    ensures few { length circuit.new ≤ length circuit.old + many }
    ensures grown { IfOk result (λ r. length circuit.new ≡ length circuit.old + many) }
{
    let mut wires = List::new(alloc);
    for _at in 0..many {
        wires.push(circuit.input()?)?;
    }
    Ok(wires)
}

// Each of these counts the wires that a call adds.

fn wires_of_a_count(alloc: Global) -> Result<u32, NoMemory> {
    let mut circuit = Circuit::new(alloc);
    let wires = inputs_of(alloc, &mut circuit, 64)?;
    let _ = count(alloc, &mut circuit, &wires, 8)?;
    Ok(circuit.len() - 64)
}

fn wires_of_a_sum(alloc: Global) -> Result<u32, NoMemory> {
    let mut circuit = Circuit::new(alloc);
    let parts = parts_of(alloc, &mut circuit, 40)?;
    let _ = sum_if(alloc, &mut circuit, &parts, 10)?;
    Ok(circuit.len() - 200)
}

// So many parts of four bits each.
fn parts_of(alloc: Global, circuit: &mut Circuit, many: u32) -> Result<List<Part>, NoMemory>
    requires many { many ≤ 1000 }
    requires room { length circuit.old ≤ 1000 }
    ensures parts { IfOk result (ArePartsOf circuit.new) }
    ensures len { IfOk result (λ r. length r ≡ many) }
    ensures few { length circuit.new ≤ length circuit.old + 5 * many }
    ensures grown { IfOk result (λ r. length circuit.new ≡ length circuit.old + 5 * many) }
{
    let mut parts = List::new(alloc);
    for _at in 0..many {
        let bits = inputs_of(alloc, circuit, 4)?;
        let here = circuit.input()?;
        parts.push(Part { here, bits })?;
    }
    Ok(parts)
}

fn wires_of_a_comparison_with_a_constant(alloc: Global) -> Result<u32, NoMemory> {
    let mut circuit = Circuit::new(alloc);
    let wires = inputs_of(alloc, &mut circuit, 8)?;
    let hundred = constant(alloc, &mut circuit, 100, 32)?;
    let _ = less(alloc, &mut circuit, &wires, &hundred)?;
    Ok(circuit.len() - 8)
}

fn wires_of_a_product_with_a_constant(alloc: Global) -> Result<u32, NoMemory> {
    let mut circuit = Circuit::new(alloc);
    let wires = inputs_of(alloc, &mut circuit, 8)?;
    let ten = constant(alloc, &mut circuit, 10, 32)?;
    let _ = multiply(alloc, &mut circuit, &ten, &wires, 32)?;
    Ok(circuit.len() - 8)
}

fn wires_of_a_product(alloc: Global) -> Result<u32, NoMemory> {
    let mut circuit = Circuit::new(alloc);
    let a = inputs_of(alloc, &mut circuit, 8)?;
    let b = inputs_of(alloc, &mut circuit, 8)?;
    let _ = multiply(alloc, &mut circuit, &a, &b, 32)?;
    Ok(circuit.len() - 16)
}

fn wires_of_an_addition(alloc: Global) -> Result<u32, NoMemory> {
    let mut circuit = Circuit::new(alloc);
    let a = inputs_of(alloc, &mut circuit, 8)?;
    let b = inputs_of(alloc, &mut circuit, 8)?;
    let _ = add(alloc, &mut circuit, &a, &b, 32)?;
    Ok(circuit.len() - 16)
}

#[test]
fn typical_calls_add_few_wires(rt: HostRuntime) -> Result<(), Fail> {
    println!(rt; "count of 64: {}", wires_of_a_count(rt.alloc())?)?;
    println!(rt;
        "sum of 40 parts of 4 bits: {}",
        wires_of_a_sum(rt.alloc())?
    )?;
    println!(rt;
        "8 bits below 100: {}",
        wires_of_a_comparison_with_a_constant(rt.alloc())?
    )?;
    println!(rt;
        "10 times 8 bits: {}",
        wires_of_a_product_with_a_constant(rt.alloc())?
    )?;
    println!(rt; "8 bits times 8 bits: {}", wires_of_a_product(rt.alloc())?)?;
    println!(rt; "8 bits and 8 bits: {}", wires_of_an_addition(rt.alloc())?)?;
    Ok(())
}
