ghost use Rattle.std.specs.Prelude.{◌<◌};

use anyhow::{Result, ensure};
use bool_circuit::{Circuit, MOST_WIRES, Wire};
use rand_core::{Rng, SeedableRng};
use rand_xoshiro::Xoshiro256PlusPlus;
use std::alloc::Global;

/// How many inputs a circuit has.
const INPUTS: u32 = 64;

/// One of the last wires of a circuit with so many, by a number that is drawn.
fn recent(wires: u32, draw: u32) -> Wire
    requires { 0 < wires }
    ensures { result.number < wires }
{
    let back = draw % wires.min(1024);
    Wire {
        number: wires - 1 - back,
    }
}

/// Asks for one gate on wires that are drawn.
fn grow(circuit: &mut Circuit, rng: &mut Xoshiro256PlusPlus) -> Result<()> {
    let wires = circuit.len();
    ensure!(0 < wires && wires < MOST_WIRES - 3, "no room for a gate");
    let a = recent(wires, rng.next_u32());
    let b = recent(wires, rng.next_u32());
    let c = recent(wires, rng.next_u32());
    match rng.next_u32() % 8 {
        0 | 1 => circuit.and(a, b)?,
        2 | 3 => circuit.or(a, b)?,
        4 => circuit.xor(a, b)?,
        5 => circuit.choose(a, b, c)?,
        _ => circuit.not(a)?,
    };
    Ok(())
}

/// A circuit with so many wires, or a few more, and how many gates were asked for.
pub fn build(alloc: Global, wires: u32) -> Result<(Circuit, u64)> {
    let mut rng = Xoshiro256PlusPlus::seed_from_u64(1);
    let mut circuit = Circuit::new(alloc);
    for _ in 0..INPUTS {
        ensure!(circuit.len() < MOST_WIRES, "no room for an input");
        circuit.input()?;
    }
    let mut calls = 0u64;
    for _ in 0..u64::from(wires) * 4 {
        if circuit.len() >= wires {
            break;
        }
        grow(&mut circuit, &mut rng)?;
        calls = calls.wrapping_add(1);
    }
    Ok((circuit, calls))
}
