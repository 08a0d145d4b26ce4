//! The circuit, and what looks at its gates.
ghost use Rattle.std.specs.Prelude.{◌≡◌, ◌+◌, ◌<◌, ◌≤◌, ◌++◌, ◌∷◌, [], List, Bool, length, slice_get, Some, ◌↔◌, IsTrue, IfOk, OnOk, OnErr};
ghost use Rattle.bool_circuit.specs.Circuit.{wire_value, inputs, values, gate_value, Extends, IsWireOf, IsGateBelow, IsGateAdded, IsCircuit, AreBehind};

use crate::gate::{Gate, Wire};
use clf_base::NoMemory;
use indexmap::IndexSet;
use std::alloc::Global;
use std::marker::Model;

/// The most wires that a circuit may have, 2^28.
pub const MOST_WIRES: u32 = 268_435_456;

// The values of all wires, in one pass over the gates.
fn values_of(alloc: Global, gates: &[Gate], bits: &[bool]) -> Result<Vec<bool>, NoMemory>
    requires { AreBehind (length bits.now) 0 gates.now }
    ensures { IfOk result (λ known. known.items ≡ values bits.now gates.now) }
{
    let mut known = Vec::new(alloc);
    for gate in gates {
        let value = gate.value_at(bits, &known);
        known.push(value)?;
    }
    Ok(known)
}

// Puts the gate at the end, unless it is there.
fn place(gates: &mut IndexSet<Gate>, gate: Gate) -> Result<Wire, NoMemory>
    requires { length gates.old.keys < MOST_WIRES }
    ensures added { IfOk result (IsGateAdded gates.old.keys gates.new.keys gate) }
    ensures err { OnErr result (gates.new.keys ≡ gates.old.keys) }
{
    let (number, _) = gates.insert_full(gate)?;
    Ok(Wire {
        number: number as u32,
    })
}

/// A circuit, which contracts see as the list of its gates. Wire i is driven by gate i, each gate stands behind its operands, and no gate
/// is there twice. A gate takes 16 bytes, and some 14 more for the index by which equal gates are found.
#[derive(Drop)]
pub struct Circuit {
    gates: IndexSet<Gate>,
    inputs: u32,
}

impl Model for Circuit {
    ghost use Rattle.std.specs.Prelude.{List};
    ghost use Rattle.bool_circuit.specs.declared.gate.Gate.{Gate};

    ghost Value = { List Gate };

    ghost use Rattle.bool_circuit.specs.Circuit.{IsCircuit};

    ghost view = { λ c. c.gates.keys };

    ghost invariant = { λ c. IsCircuit c.inputs c.gates.keys };
}

impl Circuit {
    /// The empty circuit, which takes no memory.
    pub fn new(alloc: Global) -> Circuit
        ensures { result ≡ [] }
    {
        Circuit {
            gates: IndexSet::new(alloc),
            inputs: 0,
        }
    }

    /// The number of wires.
    pub fn len(&self) -> u32
        ensures { result ≡ length self.now }
    {
        self.gates.len() as u32
    }

    /// Whether it has no wire.
    pub fn is_empty(&self) -> bool
        ensures { IsTrue result ↔ (self.now ≡ []) }
    {
        self.gates.is_empty()
    }

    /// The number of inputs.
    pub fn inputs(&self) -> u32
        ensures { result ≡ inputs self.now }
    {
        self.inputs
    }

    /// The gates, each behind its operands. Only what turns a circuit into another form has to look at them.
    pub fn gates(&self) -> &[Gate]
        ensures gates { result.now ≡ self.now }
        ensures circuit { IsCircuit (inputs self.now) self.now }
    {
        self.gates.as_slice()
    }

    /// A new input, behind all wires.
    pub fn input(&mut self) -> Result<Wire, NoMemory>
        requires room { length self.old + 1 ≤ MOST_WIRES }
        ensures last { IfOk result (λ w. w.number ≡ length self.old) }
        ensures gates { OnOk result (self.new ≡ self.old ++ Gate.Input (inputs self.old) ∷ []) }
        ensures err { OnErr result (self.new ≡ self.old) }
    {
        let wire = place(&mut self.gates, Gate::Input(self.inputs))?;
        self.inputs += 1;
        Ok(wire)
    }

    /// The value of a wire at these bits of the inputs, by one pass over the gates: its time and its memory grow with the number of wires.
    pub fn value_of(&self, alloc: Global, wire: Wire, bits: &[bool]) -> Result<bool, NoMemory>
        requires wire_in { IsWireOf self.now wire }
        requires all_bits { length bits.now ≡ inputs self.now }
        ensures { IfOk result (λ v. v ≡ wire_value self.now wire bits.now) }
    {
        let known = values_of(alloc, self.gates.as_slice(), bits)?;
        Ok(known[wire.number as usize])
    }

    // The gate of a wire.
    pub(crate) fn driver(&self, wire: Wire) -> Gate
        requires { IsWireOf self.now wire }
        ensures gate { slice_get self.now wire.number ≡ Some result }
        ensures circuit { IsCircuit (inputs self.now) self.now }
    {
        self.gates()[wire.number as usize]
    }

    // Puts a gate that is no input at the end, unless it is there.
    fn insert(&mut self, gate: Gate) -> Result<Wire, NoMemory>
        requires behind { IsGateBelow (inputs self.old) (length self.old) gate }
        requires no_input { inputs (gate ∷ []) ≡ 0 }
        requires room { length self.old < MOST_WIRES }
        ensures added { IfOk result (IsGateAdded self.old self.new gate) }
        ensures circuit { IsCircuit (inputs self.new) self.new }
        ensures same_inputs { inputs self.new ≡ inputs self.old }
        ensures err { OnErr result (self.new ≡ self.old) }
    {
        let wire = place(&mut self.gates, gate)?;
        Ok(wire)
    }

    // The wire of a gate that is no input.
    #[tactic(auto, using(crate::proofs::Values::wire_value_added, crate::proofs::Values::extends_added, crate::proofs::Values::is_wire_added, crate::proofs::Values::extends_none))]
    pub(crate) fn add(&mut self, gate: Gate) -> Result<Wire, NoMemory>
        requires behind { IsGateBelow (inputs self.old) (length self.old) gate }
        requires no_input { inputs (gate ∷ []) ≡ 0 }
        requires room { length self.old < MOST_WIRES }
        ensures wire { IfOk result (IsWireOf self.new) }
        ensures value { IfOk result (λ w. (bits : List Bool) → wire_value self.new w bits ≡ gate_value bits (λ a. wire_value self.old a bits) gate) }
        ensures extends { Extends self.old self.new 1 }
    {
        let wire = self.insert(gate)?;
        Ok(wire)
    }
}
