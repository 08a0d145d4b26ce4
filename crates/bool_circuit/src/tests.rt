ghost use Rattle.std.specs.Prelude.{◌≡◌, ◌+◌, ◌≤◌, List, Bool, not, ◌&&◌, ◌||◌, length, IfOk};
ghost use Rattle.bool_circuit.specs.Circuit.{inputs, wire_value, bool_xor, Extends, IsWireOf};

use crate::{Circuit, MOST_WIRES, Wire};
use clf_base::NoMemory;
use std::alloc::Global;
use std::test::Fail;

// An encoder makes any number of gates in this way, and its values, its wire and what it adds are proved with no proof file.
fn ten_gates(circuit: &mut Circuit, a: Wire, b: Wire, c: Wire) -> Result<Wire, NoMemory>
    requires a_in { IsWireOf circuit.old a }
    requires b_in { IsWireOf circuit.old b }
    requires c_in { IsWireOf circuit.old c }
    requires room { length circuit.old + 10 ≤ MOST_WIRES }
    ensures wire { IfOk result (IsWireOf circuit.new) }
    ensures value { IfOk result (λ w. (bits : List Bool) → wire_value circuit.new w bits ≡ bool_xor ((((wire_value circuit.old a bits && wire_value circuit.old b bits) || (wire_value circuit.old b bits && wire_value circuit.old c bits)) || (wire_value circuit.old a bits && wire_value circuit.old c bits)) || not (bool_xor (bool_xor (wire_value circuit.old a bits) (wire_value circuit.old b bits)) (wire_value circuit.old c bits))) (wire_value circuit.old a bits)) }
    ensures extends { Extends circuit.old circuit.new 10 }
{
    let ab = circuit.and(a, b)?;
    let bc = circuit.and(b, c)?;
    let ac = circuit.and(a, c)?;
    let first_two = circuit.or(ab, bc)?;
    let most = circuit.or(first_two, ac)?;
    let odd_of_two = circuit.xor(a, b)?;
    let odd = circuit.xor(odd_of_two, c)?;
    let even = circuit.not(odd)?;
    let most_or_even = circuit.or(most, even)?;
    circuit.xor(most_or_even, a)
}

// A circuit with two inputs.
fn two_inputs(alloc: Global) -> Result<(Circuit, Wire, Wire), NoMemory>
    ensures first { IfOk result (λ r. IsWireOf r.0 r.1) }
    ensures second { IfOk result (λ r. IsWireOf r.0 r.2) }
    ensures inputs { IfOk result (λ r. inputs r.0 ≡ 2) }
    ensures few { IfOk result (λ r. length r.0 ≤ 2) }
{
    let mut circuit = Circuit::new(alloc);
    let a = circuit.input()?;
    let b = circuit.input()?;
    Ok((circuit, a, b))
}

#[test]
fn xor_of_true_and_false_is_true(rt: HostRuntime) -> Result<(), Fail> {
    let (mut circuit, x, y) = two_inputs(rt.alloc())?;
    let differ = circuit.xor(x, y)?;
    assert!(rt; circuit.value_of(rt.alloc(), differ, &[true, false])?);
    Ok(())
}

#[test]
fn ten_gates_have_the_value_of_their_formula(rt: HostRuntime) -> Result<(), Fail> {
    let (mut circuit, x, y) = two_inputs(rt.alloc())?;
    let wire = ten_gates(&mut circuit, x, y, y)?;
    assert!(rt; !circuit.value_of(rt.alloc(), wire, &[true, true])?);
    Ok(())
}

// Each of these counts the wires of a circuit with two inputs in which some gates fold.

fn wires_of_ands_with_constants(alloc: Global) -> Result<u32, NoMemory> {
    let (mut circuit, x, y) = two_inputs(alloc)?;
    let yes = circuit.constant(true)?;
    let no = circuit.constant(false)?;
    let _ = circuit.and(x, yes)?;
    let _ = circuit.and(no, y)?;
    Ok(circuit.len())
}

fn wires_of_ors_with_constants(alloc: Global) -> Result<u32, NoMemory> {
    let (mut circuit, x, y) = two_inputs(alloc)?;
    let yes = circuit.constant(true)?;
    let no = circuit.not(yes)?;
    let _ = circuit.or(x, yes)?;
    let _ = circuit.or(no, y)?;
    Ok(circuit.len())
}

fn wires_of_xors_with_a_constant(alloc: Global) -> Result<u32, NoMemory> {
    let (mut circuit, x, _) = two_inputs(alloc)?;
    let yes = circuit.constant(true)?;
    let opposite = circuit.xor(yes, x)?;
    let _ = circuit.not(opposite)?;
    Ok(circuit.len())
}

fn wires_of_equal_operands(alloc: Global) -> Result<u32, NoMemory> {
    let (mut circuit, x, y) = two_inputs(alloc)?;
    let _ = circuit.and(x, x)?;
    let _ = circuit.or(x, x)?;
    let _ = circuit.xor(x, x)?;
    Ok(circuit.len())
}

fn wires_of_a_wire_and_its_negation(alloc: Global) -> Result<u32, NoMemory> {
    let (mut circuit, x, _) = two_inputs(alloc)?;
    let not_x = circuit.not(x)?;
    let _ = circuit.and(x, not_x)?;
    let _ = circuit.or(not_x, x)?;
    let _ = circuit.xor(x, not_x)?;
    Ok(circuit.len())
}

fn wires_of_operands_in_both_orders(alloc: Global) -> Result<u32, NoMemory> {
    let (mut circuit, x, y) = two_inputs(alloc)?;
    let _ = circuit.and(x, y)?;
    let _ = circuit.and(y, x)?;
    let _ = circuit.xor(x, y)?;
    let _ = circuit.xor(y, x)?;
    Ok(circuit.len())
}

fn wires_of_operands_that_stand_in_the_other(alloc: Global) -> Result<u32, NoMemory> {
    let (mut circuit, x, y) = two_inputs(alloc)?;
    let both = circuit.and(x, y)?;
    let either = circuit.or(y, x)?;
    let _ = circuit.and(both, x)?;
    let _ = circuit.or(y, either)?;
    Ok(circuit.len())
}

fn wires_of_choices_that_fold(alloc: Global) -> Result<u32, NoMemory> {
    let (mut circuit, x, y) = two_inputs(alloc)?;
    let not_y = circuit.not(y)?;
    let _ = circuit.choose(x, y, y)?;
    let _ = circuit.choose(y, x, not_y)?;
    let _ = circuit.or(x, not_y)?;
    Ok(circuit.len())
}

fn wires_of_a_choice_between_opposites(alloc: Global) -> Result<u32, NoMemory> {
    let (mut circuit, x, y) = two_inputs(alloc)?;
    let not_y = circuit.not(y)?;
    let _ = circuit.xor(x, y)?;
    let _ = circuit.choose(x, not_y, y)?;
    Ok(circuit.len())
}

fn wires_of_a_choice_turned_round(alloc: Global) -> Result<u32, NoMemory> {
    let (mut circuit, x, y) = two_inputs(alloc)?;
    let not_x = circuit.not(x)?;
    let both = circuit.and(x, y)?;
    let _ = circuit.choose(x, both, y)?;
    let _ = circuit.choose(not_x, y, both)?;
    Ok(circuit.len())
}

#[test]
fn foldings_add_no_wire(rt: HostRuntime) -> Result<(), Fail> {
    assert_eq!(rt; wires_of_ands_with_constants(rt.alloc())?, 4);
    assert_eq!(rt; wires_of_ors_with_constants(rt.alloc())?, 4);
    assert_eq!(rt; wires_of_xors_with_a_constant(rt.alloc())?, 4);
    assert_eq!(rt; wires_of_equal_operands(rt.alloc())?, 3);
    assert_eq!(rt; wires_of_a_wire_and_its_negation(rt.alloc())?, 5);
    assert_eq!(rt; wires_of_operands_in_both_orders(rt.alloc())?, 4);
    assert_eq!(rt; wires_of_operands_that_stand_in_the_other(rt.alloc())?, 4);
    Ok(())
}

#[test]
fn foldings_of_choices_add_no_wire(rt: HostRuntime) -> Result<(), Fail> {
    assert_eq!(rt; wires_of_choices_that_fold(rt.alloc())?, 4);
    assert_eq!(rt; wires_of_a_choice_between_opposites(rt.alloc())?, 4);
    assert_eq!(rt; wires_of_a_choice_turned_round(rt.alloc())?, 5);
    Ok(())
}

#[test]
fn a_circuit_tells_its_size(rt: HostRuntime) -> Result<(), Fail> {
    let (circuit, _, _) = two_inputs(rt.alloc())?;
    assert_eq!(rt; circuit.inputs(), 2);
    assert_eq!(rt; circuit.gates().len(), 2);
    assert!(rt; !circuit.is_empty());
    Ok(())
}
