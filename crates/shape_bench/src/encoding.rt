//! The wire of a model's shape.

ghost use Rattle.std.specs.Prelude.{◌≡◌, IfOk};
ghost use Rattle.bool_circuit.specs.Circuit.{inputs, IsWireOf};
ghost use Rattle.set_bits.specs.Fitting.{Fits, size};
ghost use Rattle.shape_bench.specs.Exact.{IsExact};

use bool_circuit::{Circuit, Wire};
use clf_base::NoMemory;
use clf_tree::CoreModel;
use instance_encoder::{layout, shape, shapes_are_within_the_weight};
use model_reader::Read;
use relational_core::lower;
use set_bits::Layout;
use std::alloc::Global;

/// A model, a layout of its instances, and a wire of the circuit whose inputs are those of the layout.
#[derive(Drop)]
pub(crate) struct Encoded<'a> {
    pub(crate) read: &'a Read,
    pub(crate) core: CoreModel,
    pub(crate) circuit: Circuit,
    pub(crate) layout: Layout,
    pub(crate) wire: Wire,
    /// How many wires the shape took beside the inputs.
    pub(crate) added: u32,
    pub(crate) ghost same: { core.clafers ≡ read.now.model.clafers },
    pub(crate) ghost fits: { Fits core.clafers read.now.scopes layout },
    pub(crate) ghost made: { IsWireOf circuit wire },
    pub(crate) ghost inputs: { inputs circuit ≡ size layout },
}

/// The layout of a model and the wire of its shape. Since the weight of the model is known, there is room for both.
pub(crate) fn encode<'a>(alloc: Global, read: &'a Read) -> Result<Encoded<'a>, NoMemory>
    ensures { IfOk result (λ e. IsExact e.core.clafers e.read.now.scopes e.layout e.circuit e.wire) }
{
    shapes_are_within_the_weight();
    let _plan = read.model.model();
    let core = lower(alloc, &read.model, &read.scopes)?;
    let mut circuit = Circuit::new(alloc);
    let layout = layout(alloc, &mut circuit, &core, &read.scopes)?;
    let before = circuit.len();
    let wire = shape(alloc, &mut circuit, &core, &read.scopes, &layout)?;
    let added = circuit.len() - before;
    Ok(Encoded {
        read,
        core,
        circuit,
        layout,
        wire,
        added,
    })
}
