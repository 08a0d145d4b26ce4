//! A question with vectors on wires.

ghost use Rattle.std.specs.Prelude.{◌≡◌, ◌≤◌, length, IfOk};
ghost use Rattle.bool_circuit.specs.declared.circuit.TheConstants.{MOST_WIRES};
ghost use Rattle.set_bits.specs.Fitting.{IsRead, size};
ghost use Rattle.question_space.specs.Encoding.{IsEncoded, IsPlaced, IsStructured};
ghost use Rattle.question_space.specs.Queries.{HasGoals, IsAsked, IsAskedFor, limit_of};
ghost use Rattle.question_space.specs.Wiring.{IsLowered};

use crate::encoded::{Encoded, with_rules};
use crate::goals::goals;
use crate::laws::goals_are_within_the_weight;
use crate::rules::conjunction;
use crate::vectors::tests;
use bool_circuit::{Circuit, MOST_WIRES, Wire};
use canonical_encoder::canonical_slots_show_canonical_instances;
use canonical_instances::each_instance_has_a_canonical_one;
use clf_base::{List, NoMemory};
use clf_tree::{CoreModel, Question};
use instance_encoder::{shape, shapes_are_within_the_weight};
use model_reader::Read;
use relational_core::lower;
use set_bits::{Layout, grown_circuits_keep_sets};
use shown_instance::{
    each_instance_has_bits, shaped_bits_show_a_tree, the_told_instance_alone_is_shown,
};
use std::alloc::Global;

/// A model on wires, a wire for each vector of a question, and one that is true where structure, constraints and vectors are.
#[derive(Drop)]
pub(crate) struct Asked {
    pub(crate) encoded: Encoded,
    pub(crate) tests: List<Wire>,
    pub(crate) root: Wire,
}

// A circuit, and the wire of the structure.
#[derive(Drop)]
struct Framed {
    circuit: Circuit,
    structure: Wire,
}

// A model on wires, with the numbers of its goals.
#[derive(Drop)]
struct Aimed {
    circuit: Circuit,
    structure: Wire,
    rules: List<Wire>,
    whole: Wire,
    numbers: List<List<Wire>>,
}

// A model on wires, with the vectors of a question.
#[derive(Drop)]
struct Tested {
    circuit: Circuit,
    structure: Wire,
    rules: List<Wire>,
    whole: Wire,
    tests: List<Wire>,
    root: Wire,
}

// A circuit that has so many inputs alone.
fn inputs_alone(alloc: Global, count: usize) -> Result<Circuit, NoMemory>
    requires { count ≤ MOST_WIRES }
    ensures read { IfOk result (λ circuit. IsRead circuit count) }
    ensures alone { IfOk result (λ circuit. length circuit ≡ count) }
{
    let mut circuit = Circuit::new(alloc);
    for _at in 0..count {
        circuit.input()?;
    }
    Ok(circuit)
}

// The structure over a layout that is there.
fn structure_over(
    alloc: Global,
    read: &Read,
    core: &CoreModel,
    layout: &Layout,
    count: usize,
) -> Result<Framed, NoMemory>
    requires lowered { IsLowered read.now.model read.now.scopes core.now }
    requires placed { IsPlaced read.now.model read.now.scopes layout.now }
    requires count { count ≡ size layout.now }
    ensures { IfOk result (λ f. IsStructured read.now.model read.now.scopes layout.now f.circuit f.structure) }
{
    shapes_are_within_the_weight();
    grown_circuits_keep_sets();
    let _plan = read.model.model();
    let mut circuit = inputs_alone(alloc, count)?;
    let structure = shape(alloc, &mut circuit, core, &read.scopes, layout)?;
    Ok(Framed { circuit, structure })
}

// The structure, the constraints, and the numbers of the goals.
fn with_goals(
    alloc: Global,
    read: &Read,
    core: &CoreModel,
    layout: &Layout,
    count: usize,
) -> Result<Aimed, NoMemory>
    requires lowered { IsLowered read.now.model read.now.scopes core.now }
    requires placed { IsPlaced read.now.model read.now.scopes layout.now }
    requires count { count ≡ size layout.now }
    ensures { IfOk result (λ a. HasGoals read.now.model read.now.scopes read.now.weight layout.now
        a.circuit a.structure a.rules a.whole a.numbers) }
{
    goals_are_within_the_weight();
    grown_circuits_keep_sets();
    each_instance_has_bits();
    shaped_bits_show_a_tree();
    the_told_instance_alone_is_shown();
    canonical_slots_show_canonical_instances();
    each_instance_has_a_canonical_one();
    let _plan = read.model.model();
    let start = structure_over(alloc, read, core, layout, count)?;
    let mut circuit = start.circuit;
    let ruled = with_rules(alloc, read, core, layout, &mut circuit, start.structure)?;
    let numbers = goals(alloc, &mut circuit, core, &read.scopes, layout)?;
    Ok(Aimed {
        circuit,
        structure: ruled.structure,
        rules: ruled.rules,
        whole: ruled.whole,
        numbers,
    })
}

// A wire for each vector of the question, and the conjunction of all.
fn with_vectors(
    alloc: Global,
    read: &Read,
    layout: &Layout,
    question: &Question,
    aimed: Aimed,
) -> Result<Tested, NoMemory>
    requires aimed { HasGoals read.now.model read.now.scopes read.now.weight layout.now
        aimed.circuit aimed.structure aimed.rules aimed.whole aimed.numbers }
    requires few_found { length question.now.found ≤ 1024 }
    ensures { IfOk result (λ t. IsAsked read.now.model read.now.scopes question.now (limit_of read.now question.now) layout.now
        t.circuit t.structure t.rules t.tests t.root) }
{
    let plan = read.model.model();
    let mut circuit = aimed.circuit;
    let tests = tests(
        alloc,
        &mut circuit,
        plan.goals.as_slice(),
        aimed.numbers.as_slice(),
        question,
    )?;
    let root = conjunction(&mut circuit, aimed.whole, tests.as_slice())?;
    Ok(Tested {
        circuit,
        structure: aimed.structure,
        rules: aimed.rules,
        whole: aimed.whole,
        tests,
        root,
    })
}

// A model on wires, with the vectors of a question.
fn question_wires(
    alloc: Global,
    read: &Read,
    core: &CoreModel,
    layout: &Layout,
    count: usize,
    question: &Question,
) -> Result<Tested, NoMemory>
    requires lowered { IsLowered read.now.model read.now.scopes core.now }
    requires placed { IsPlaced read.now.model read.now.scopes layout.now }
    requires count { count ≡ size layout.now }
    requires few_found { length question.now.found ≤ 1024 }
    ensures { IfOk result (λ t. IsAsked read.now.model read.now.scopes question.now (limit_of read.now question.now) layout.now
        t.circuit t.structure t.rules t.tests t.root) }
{
    let aimed = with_goals(alloc, read, core, layout, count)?;
    let tested = with_vectors(alloc, read, layout, question, aimed)?;
    Ok(tested)
}

/// A question on the wires of a model, over the layout of the space: the model is encoded anew, with the numbers of its goals, and each
/// vector is compared with them. There is room, since the weight of the model and the number of its goals are known.
pub(crate) fn encode_question(
    alloc: Global,
    read: &Read,
    layout: &Layout,
    encoded: &Encoded,
    question: &Question,
) -> Result<Asked, NoMemory>
    requires known { IsEncoded read.now layout.now encoded.now }
    requires few_found { length question.now.found ≤ 1024 }
    ensures { IfOk result (λ a. IsAskedFor read.now question.now layout.now a.encoded a.tests a.root) }
{
    let count = encoded.circuit.inputs() as usize;
    let core = lower(alloc, &read.model, &read.scopes)?;
    let tested = question_wires(alloc, read, &core, layout, count, question)?;
    Ok(Asked {
        encoded: Encoded {
            core,
            circuit: tested.circuit,
            structure: tested.structure,
            rules: tested.rules,
            whole: tested.whole,
        },
        tests: tested.tests,
        root: tested.root,
    })
}
