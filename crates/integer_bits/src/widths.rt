//! How many wires a number needs.
ghost use Rattle.std.specs.Prelude.{◌≡◌, ◌+◌, ◌-◌, ◌<◌, ◌≤◌, ℕ, length, slice_get, IfOk, List as Items};
ghost use Rattle.bool_circuit.specs.Circuit.{AreWiresOf};
ghost use Rattle.bool_circuit.specs.declared.gate.Gate.{Gate};
ghost use Rattle.integer_bits.specs.Numbers.{resized};
ghost use Rattle.integer_bits.specs.Steps.{IsNarrowed};

use bool_circuit::Wire;
use clf_base::{List, NoMemory};
use std::alloc::Global;

// The wires cut to the width, or with the last one repeated up to it.
#[tactic(auto, using(crate::proofs::Resizing::length_resized, crate::proofs::Resizing::wires_resized, crate::proofs::Resizing::resized_more))]
pub(crate) fn resize(alloc: Global, a: &List<Wire>, width: usize) -> Result<List<Wire>, NoMemory>
    requires { 0 < length a.now }
    ensures items { IfOk result (λ r. r ≡ resized width a.now) }
    ensures len { IfOk result (λ r. length r ≡ width) }
    ensures wires { IfOk result (λ r. (gates : Items Gate) → AreWiresOf gates a.now → AreWiresOf gates r) }
{
    let last = a.len() - 1;
    let mut wires = List::new(alloc);
    for at in 0..width {
        wires.push(*a.get(at.min(last)))?;
    }
    Ok(wires)
}

// How many of the lowest wires hold the number: all behind the last of them are the same wire as it.
pub(crate) fn needed(a: &List<Wire>) -> usize
    requires { 0 < length a.now }
    ensures some { 0 < result }
    ensures within { result ≤ length a.now }
    ensures same { (k : ℕ) → result ≤ k + 1 → k < length a.now → slice_get a.now k ≡ slice_get a.now (result - 1) }
{
    let mut start = 0;
    for at in 0..a.len() {
        if a.get(at).number != a.get(start).number {
            start = at;
        }
    }
    start + 1
}

// The number on as few of its wires as hold it, and on no more than the width.
pub(crate) fn narrow(alloc: Global, a: &List<Wire>, width: usize) -> Result<List<Wire>, NoMemory>
    requires a_some { 0 < length a.now }
    requires some { 0 < width }
    ensures { IfOk result (IsNarrowed width a.now) }
{
    let few = needed(a).min(width);
    let wires = resize(alloc, a, few)?;
    Ok(wires)
}
