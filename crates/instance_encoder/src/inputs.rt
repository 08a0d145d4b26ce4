//! Inputs, several at once.

ghost use Rattle.std.specs.Prelude.{◌≡◌, ◌+◌, ◌≤◌, length, map, IfOk, OnOk};
ghost use Rattle.std.specs.List.{range_with_len};
ghost use Rattle.set_bits.specs.Fitting.{IsRead};
ghost use Rattle.bool_circuit.specs.declared.circuit.TheConstants.{MOST_WIRES};

use bool_circuit::{Circuit, MOST_WIRES, Wire};
use clf_base::{List, NoMemory};
use std::alloc::Global;

/// As many inputs, behind a circuit that has inputs alone.
pub(crate) fn inputs(
    alloc: Global,
    circuit: &mut Circuit,
    count: usize,
) -> Result<List<Wire>, NoMemory>
    requires read { IsRead circuit.old (length circuit.old) }
    requires room { length circuit.old + count ≤ MOST_WIRES }
    ensures wires { IfOk result (λ ws. map (λ w. w.number) ws ≡ range_with_len (length circuit.old) count) }
    ensures read { OnOk result (IsRead circuit.new (length circuit.new)) }
    ensures size { OnOk result (length circuit.new ≡ length circuit.old + count) }
    ensures few { length circuit.new ≤ length circuit.old + count }
{
    let mut wires = List::new(alloc);
    for _at in 0..count {
        let wire = circuit.input()?;
        wires.push(wire)?;
    }
    Ok(wires)
}
