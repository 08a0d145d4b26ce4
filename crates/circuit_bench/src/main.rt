//! Times circuits, their clauses, and the opening of a search over these. Without an argument the circuit is small, and what is
//! printed is always the same; with an argument `time` it has 8,000,000 wires, and the times and the memory come too.
#![tactic(auto)]

mod building;
mod memory;

use anyhow::{Result, ensure};
use bool_circuit::{Circuit, Wire};
use building::build;
use cdcl_search::Search;
use clause_encoder::clauses;
use clause_store::Clauses;
use memory::peak_bytes;
use std::env;
use std::time::Instant;

/// When a part of the work began, and how much memory there had been by then.
#[derive(Drop)]
struct Start {
    at: Instant,
    bytes: u64,
}

fn begin(rt: &HostRuntime) -> Result<Start> {
    let bytes = peak_bytes(rt)?;
    let at = Instant::now(rt)?;
    Ok(Start { at, bytes })
}

/// Prints how many things were made a second, and how much memory they took.
fn report(rt: &HostRuntime, start: &Start, count: u32, things: &str) -> Result<()> {
    let elapsed = start.at.elapsed(rt)?.as_micros();
    let micros = u64::try_from(elapsed)?.max(1);
    let rate = u64::from(count) * 1_000_000 / micros;
    let bytes = peak_bytes(rt)?;
    let each = bytes.saturating_sub(start.bytes) / u64::from(count.max(1));
    println!(rt;
        "  {micros} us, {rate} {things} a second, {each} bytes for each, {bytes} bytes in all"
    )?;
    Ok(())
}

/// A circuit of about so many wires.
fn make_circuit(rt: &HostRuntime, wires: u32, is_timed: bool) -> Result<Circuit> {
    let start = begin(rt)?;
    let (circuit, calls) = build(rt.alloc(), wires)?;
    println!(rt; "{} wires of {calls} calls", circuit.len())?;
    if is_timed {
        report(rt, &start, circuit.len(), "wires")?;
    }
    Ok(circuit)
}

/// Its clauses, with the last wire as root.
fn make_clauses(rt: &HostRuntime, circuit: &Circuit, is_timed: bool) -> Result<Clauses> {
    ensure!(!circuit.is_empty(), "no wire");
    let start = begin(rt)?;
    let root = Wire {
        number: circuit.len() - 1,
    };
    let clauses = clauses(rt.alloc(), circuit, root)?;
    println!(rt; "{} clauses", clauses.len())?;
    if is_timed {
        report(rt, &start, clauses.len(), "clauses")?;
    }
    Ok(clauses)
}

/// A search over the clauses, before its first step.
fn open_search(rt: &HostRuntime, clauses: &Clauses, is_timed: bool) -> Result<Search> {
    ensure!(clauses.variables() < 1_000_000_000, "too many variables");
    let start = begin(rt)?;
    let search = Search::open(rt.alloc(), clauses)?;
    println!(rt; "{} clauses to search", search.used())?;
    if is_timed {
        report(rt, &start, search.used(), "clauses")?;
    }
    Ok(search)
}

fn main(rt: HostRuntime) -> Result<()> {
    let is_timed = env::args(&rt)?.count() > 1;
    let wires = if is_timed { 8_000_000 } else { 1_000 };
    let circuit = make_circuit(&rt, wires, is_timed)?;
    let clauses = make_clauses(&rt, &circuit, is_timed)?;
    let search = open_search(&rt, &clauses, is_timed)?;
    println!(rt;
        "{} wires, {} clauses, {} to search",
        circuit.len(),
        clauses.len(),
        search.used()
    )?;
    Ok(())
}
