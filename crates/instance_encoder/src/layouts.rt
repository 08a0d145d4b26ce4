//! The layout of a model within its scopes.

ghost use Rattle.std.specs.Prelude.{◌≡◌, [], ◌<◌, ◌≤◌, ◌^◌, length, sum, IfOk, IsTrue};
ghost use Rattle.clf_tree.specs.Hierarchy.{is_closed};
ghost use Rattle.set_bits.specs.Fitting.{Fits, IsRead, size, value_width};
ghost use Rattle.instance_encoder.specs.Wiring.{most_inputs};

use crate::edges::edges;
use crate::inputs::inputs;
use crate::integers::values;
use crate::near::Tie;
use crate::nodes::slots;
use bool_circuit::Circuit;
use clf_base::NoMemory;
use clf_tree::{Bounds, CoreModel, Scopes};
use int_widths::width;
use set_bits::Layout;
use std::alloc::Global;

// How many bits an integer of the range has.
fn value_width(scopes: &Scopes) -> u32
    ensures bits { result ≡ value_width scopes.now }
    ensures few { result ≤ 127 }
{
    width(Bounds {
        low: scopes.low as i128,
        high: scopes.high as i128,
    })
}

/// The layout of a model within its scopes, with an input for each live, parent and target bit and for each bit of an integer.
///
/// The answer fits the model and the scopes, and the circuit has its inputs alone, numbered in the order of the layout's bits. With n
/// slots there are at most n + 2·n·n + 127·n inputs, also where memory is wanting. The time grows with the number of inputs, and with the clafers and slots once for each
/// clafer. Where memory is wanting, the circuit may hold some inputs, and is of no use any more.
pub fn layout(
    alloc: Global,
    circuit: &mut Circuit,
    core: &CoreModel,
    scopes: &Scopes,
) -> Result<Layout, NoMemory>
    requires empty { circuit.old ≡ [] }
    requires closed { IsTrue (is_closed core.now.clafers) }
    requires few_clafers { length core.now.clafers < 2 ^ 32 }
    requires fitting { length scopes.now.of ≡ length core.now.clafers }
    requires few { sum scopes.now.of ≤ 2048 }
    ensures fits { IfOk result (Fits core.now.clafers scopes.now) }
    ensures read { IfOk result (λ layout. IsRead circuit.new (size layout)) }
    ensures alone { IfOk result (λ layout. length circuit.new ≡ size layout) }
    ensures few { length circuit.new ≤ most_inputs (sum scopes.now.of) }
{
    let slots = slots(alloc, &core.clafers, scopes)?;
    let live = inputs(alloc, circuit, slots.len())?;
    let parents = edges(alloc, circuit, &core.clafers, &slots, Tie::Parent)?;
    let targets = edges(alloc, circuit, &core.clafers, &slots, Tie::Target)?;
    let values = values(alloc, circuit, &core.clafers, &slots, value_width(scopes))?;
    Ok(Layout {
        slots,
        live,
        parents,
        targets,
        values,
    })
}
