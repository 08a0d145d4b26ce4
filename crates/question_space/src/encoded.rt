//! A model on wires.

ghost use Rattle.std.specs.Prelude.{◌≡◌, ◌+◌, ◌≤◌, ◌&&◌, Bool, List as Items, not, length, IfOk, IsTrue};
ghost use Rattle.bool_circuit.specs.Circuit.{IsWireOf, Extends, wire_value};
ghost use Rattle.bool_circuit.specs.declared.circuit.TheConstants.{MOST_WIRES};
ghost use Rattle.canonical_encoder.specs.Slots.{are_canonical, canonical_cost};
ghost use Rattle.clf_tree.specs.Named.{contains_itself, each};
ghost use Rattle.set_bits.specs.Fitting.{Fits, IsRead, size};
ghost use Rattle.shown_instance.specs.Consistent.{abstract_are_empty};
ghost use Rattle.question_space.specs.Encoding.{IsEncoded, IsStructured, IsWired};
ghost use Rattle.question_space.specs.Wiring.{AreRules, AreSound, IsLowered, truths_cost, wires_cost};

use crate::laws::questions_are_within_the_weight;
use crate::rules::{conjunction, rule_wires};
use bool_circuit::{Circuit, MOST_WIRES, Wire};
use canonical_encoder::{canonical, canonical_slots_show_canonical_instances};
use canonical_instances::each_instance_has_a_canonical_one;
use clf_base::{List, NoMemory};
use clf_tree::{CoreModel, Scopes};
use instance_encoder::{layout, shape, shapes_are_within_the_weight};
use model_reader::Read;
use node_encoder::Ground;
use relational_core::lower;
use set_bits::{Layout, grown_circuits_keep_sets};
use shape_encoder::layouts_that_fit_are_laid;
use shown_instance::{
    each_instance_has_bits, shaped_bits_show_a_tree, the_told_instance_alone_is_shown,
};
use std::alloc::Global;

/// A model on wires: the wire of its structure, one for each constraint, and their conjunction.
#[derive(Drop)]
pub(crate) struct Encoded {
    pub(crate) core: CoreModel,
    pub(crate) circuit: Circuit,
    pub(crate) structure: Wire,
    pub(crate) rules: List<Wire>,
    pub(crate) whole: Wire,
}

/// A layout, and a model on its wires.
#[derive(Drop)]
pub(crate) struct Posable {
    pub(crate) layout: Layout,
    pub(crate) encoded: Encoded,
}

// A layout, a circuit with its bits as inputs, and the wire of the structure.
#[derive(Drop)]
struct Structured {
    layout: Layout,
    circuit: Circuit,
    structure: Wire,
}

// A layout, and a model's wires over it.
#[derive(Drop)]
struct Wired {
    layout: Layout,
    circuit: Circuit,
    structure: Wire,
    rules: List<Wire>,
    whole: Wire,
}

/// The wires of the structure and of the constraints, and that of all of them.
#[derive(Drop)]
pub(crate) struct Ruled {
    pub(crate) structure: Wire,
    pub(crate) rules: List<Wire>,
    pub(crate) whole: Wire,
}

fn structure_of(alloc: Global, read: &Read, core: &CoreModel) -> Result<Structured, NoMemory>
    requires { IsLowered read.now.model read.now.scopes core.now }
    ensures { IfOk result (λ s. IsStructured read.now.model read.now.scopes s.layout s.circuit s.structure) }
{
    shapes_are_within_the_weight();
    grown_circuits_keep_sets();
    let _low = read.scopes.low;
    let _high = read.scopes.high;
    let _plan = read.model.model();
    let mut circuit = Circuit::new(alloc);
    let layout = layout(alloc, &mut circuit, core, &read.scopes)?;
    let structure = shape(alloc, &mut circuit, core, &read.scopes, &layout)?;
    Ok(Structured {
        layout,
        circuit,
        structure,
    })
}

// The structure where the slots are canonical.
fn arranged(
    alloc: Global,
    circuit: &mut Circuit,
    core: &CoreModel,
    scopes: &Scopes,
    layout: &Layout,
    structure: Wire,
) -> Result<Wire, NoMemory>
    requires fits { Fits core.now.clafers scopes.now layout.now }
    requires acyclic { IsTrue (each core.now.clafers (λ c. not (contains_itself core.now.clafers c))) }
    requires read { IsRead circuit.old (size layout.now) }
    requires structure_in { IsWireOf circuit.old structure }
    requires room { length circuit.old + canonical_cost layout.now ≤ MOST_WIRES }
    ensures wire { IfOk result (IsWireOf circuit.new) }
    ensures value { IfOk result (λ w. (bits : Items Bool)
        → wire_value circuit.new w bits ≡ (wire_value circuit.old structure bits && are_canonical core.now.clafers layout.now bits)) }
    ensures extends { Extends circuit.old circuit.new (canonical_cost layout.now) }
{
    layouts_that_fit_are_laid();
    let ground = Ground::new(alloc, core, scopes, layout)?;
    let wire = canonical(circuit, &ground, structure)?;
    Ok(wire)
}

fn rules(
    alloc: Global,
    circuit: &mut Circuit,
    core: &CoreModel,
    scopes: &Scopes,
    layout: &Layout,
) -> Result<List<Wire>, NoMemory>
    requires fits { Fits core.now.clafers scopes.now layout.now }
    requires sound { AreSound core.now.clafers scopes.now core.now.truths }
    requires empty { IsTrue (abstract_are_empty core.now.clafers scopes.now) }
    requires read { IsRead circuit.old (size layout.now) }
    requires room { length circuit.old + truths_cost scopes.now core.now.truths ≤ MOST_WIRES }
    ensures { IfOk result (AreRules core.now.clafers scopes.now layout.now circuit.old core.now.truths circuit.new) }
{
    let ground = Ground::new(alloc, core, scopes, layout)?;
    let wires = rule_wires(alloc, circuit, &ground, core.truths.as_slice())?;
    Ok(wires)
}

/// The structure where it is canonical, the constraints, and their conjunction.
pub(crate) fn with_rules(
    alloc: Global,
    read: &Read,
    core: &CoreModel,
    layout: &Layout,
    circuit: &mut Circuit,
    structure: Wire,
) -> Result<Ruled, NoMemory>
    requires lowered { IsLowered read.now.model read.now.scopes core.now }
    requires structured { IsStructured read.now.model read.now.scopes layout.now circuit.old structure }
    ensures { IfOk result (λ r. IsWired read.now.model read.now.scopes
        (wires_cost read.now.model read.now.scopes layout.now core.now.truths) layout.now circuit.new r.structure r.rules r.whole) }
{
    questions_are_within_the_weight();
    layouts_that_fit_are_laid();
    grown_circuits_keep_sets();
    each_instance_has_bits();
    shaped_bits_show_a_tree();
    the_told_instance_alone_is_shown();
    canonical_slots_show_canonical_instances();
    each_instance_has_a_canonical_one();
    let _plan = read.model.model();
    let right = arranged(alloc, circuit, core, &read.scopes, layout, structure)?;
    let rules = rules(alloc, circuit, core, &read.scopes, layout)?;
    let whole = conjunction(circuit, right, rules.as_slice())?;
    Ok(Ruled {
        structure: right,
        rules,
        whole,
    })
}

fn wires_of(alloc: Global, read: &Read, core: &CoreModel) -> Result<Wired, NoMemory>
    requires { IsLowered read.now.model read.now.scopes core.now }
    ensures { IfOk result (λ w. IsWired read.now.model read.now.scopes read.now.weight w.layout w.circuit w.structure w.rules w.whole) }
{
    questions_are_within_the_weight();
    let _plan = read.model.model();
    let start = structure_of(alloc, read, core)?;
    let mut circuit = start.circuit;
    let ruled = with_rules(
        alloc,
        read,
        core,
        &start.layout,
        &mut circuit,
        start.structure,
    )?;
    Ok(Wired {
        layout: start.layout,
        circuit,
        structure: ruled.structure,
        rules: ruled.rules,
        whole: ruled.whole,
    })
}

/// The layout of a model, and its structure and each constraint on wires. There is room, since the weight of the model is known.
pub(crate) fn encode(alloc: Global, read: &Read) -> Result<Posable, NoMemory>
    ensures { IfOk result (λ p. IsEncoded read.now p.layout p.encoded) }
{
    let core = lower(alloc, &read.model, &read.scopes)?;
    let wired = wires_of(alloc, read, &core)?;
    Ok(Posable {
        layout: wired.layout,
        encoded: Encoded {
            core,
            circuit: wired.circuit,
            structure: wired.structure,
            rules: wired.rules,
            whole: wired.whole,
        },
    })
}
