//! The clauses that pose a question, and the literals of its parts.

ghost use Rattle.std.specs.Prelude.{◌≡◌, ◌∷◌, ◌++◌, ◌<◌, ◌≤◌, ◌^◌, All, length, map, IfOk, OnOk};
ghost use Rattle.clause_encoder.specs.Encoding.{Encodes};
ghost use Rattle.clause_store.specs.Literals.{HasVariablesBelow};
ghost use Rattle.question_space.specs.Asking.{AreCompleteFor, AreExactFor, ArePosedFor};
ghost use Rattle.question_space.specs.Encoding.{literal_of};
ghost use Rattle.question_space.specs.Queries.{IsAskedFor, limit_of};

use crate::encoded::Encoded;
use bool_circuit::Wire;
use canonical_encoder::canonical_slots_show_canonical_instances;
use canonical_instances::each_instance_has_a_canonical_one;
use clause_encoder::clauses;
use clause_store::{Clauses, Literal};
use clf_base::{List, NoMemory};
use clf_tree::Question;
use model_reader::Read;
use set_bits::Layout;
use shown_instance::{
    each_instance_has_bits, shaped_bits_show_a_tree, the_told_instance_alone_is_shown,
};
use std::alloc::Global;

/// A question to a model, on its wires: a wire for each vector, and the root, which is true where structure, constraints and vectors are.
#[derive(Drop)]
pub(crate) struct Query<'a> {
    pub(crate) read: &'a Read,
    pub(crate) question: &'a Question,
    pub(crate) layout: &'a Layout,
    pub(crate) encoded: &'a Encoded,
    pub(crate) tests: &'a List<Wire>,
    pub(crate) root: Wire,
    pub(crate) ghost few_found: { length question.now.found ≤ 1024 },
    pub(crate) ghost known: { IsAskedFor read.now question.now layout.now encoded.now tests.now root },
}

/// Clauses, and the literals of their parts.
#[derive(Drop)]
pub(crate) struct Posed {
    pub(crate) clauses: Clauses,
    pub(crate) parts: List<Literal>,
}

// The literal that is true where a wire is.
fn part_literal(wire: Wire) -> Literal
    requires { wire.number < 2 ^ 31 }
    ensures { result ≡ literal_of wire }
{
    Literal::of(wire.number, true)
}

// Puts the literals of wires behind those of others.
fn add_parts(parts: &mut List<Literal>, wires: &[Wire]) -> Result<(), NoMemory>
    requires { All (λ w. w.number < 2 ^ 31) wires.now }
    ensures { OnOk result (parts.new ≡ parts.old ++ map literal_of wires.now) }
{
    for wire in wires {
        parts.push(part_literal(*wire))?;
    }
    Ok(())
}

// The literals of the parts: the structure, the constraints in their order, and the vectors in their order.
fn part_literals(
    alloc: Global,
    structure: Wire,
    rules: &[Wire],
    tests: &[Wire],
) -> Result<List<Literal>, NoMemory>
    requires structure_small { structure.number < 2 ^ 31 }
    requires rules_small { All (λ w. w.number < 2 ^ 31) rules.now }
    requires tests_small { All (λ w. w.number < 2 ^ 31) tests.now }
    ensures { IfOk result (λ parts. parts ≡ map literal_of (structure ∷ (rules.now ++ tests.now))) }
{
    let mut parts = List::new(alloc);
    parts.push(part_literal(structure))?;
    add_parts(&mut parts, rules)?;
    add_parts(&mut parts, tests)?;
    Ok(parts)
}

/// The clauses of the circuit with the root that is true where structure, constraints and vectors are, and the parts. They pose the
/// question. The time grows with the number of wires.
pub(crate) fn pose(alloc: Global, query: &Query<'_>) -> Result<Posed, NoMemory>
    ensures encodes { IfOk result (λ p. Encodes query.now.encoded.now.circuit query.now.root p.clauses) }
    ensures light { IfOk result (λ p. All (HasVariablesBelow (limit_of query.now.read.now query.now.question.now)) p.clauses.clauses) }
    ensures exact { IfOk result (λ p. AreExactFor query.now.read.now query.now.question.now query.now.layout.now p.clauses.clauses) }
    ensures complete { IfOk result (λ p. AreCompleteFor query.now.read.now query.now.question.now query.now.layout.now p.clauses.clauses) }
    ensures posed { IfOk result (λ p. ArePosedFor query.now.read.now query.now.question.now p.clauses.clauses p.parts) }
{
    each_instance_has_bits();
    shaped_bits_show_a_tree();
    the_told_instance_alone_is_shown();
    canonical_slots_show_canonical_instances();
    each_instance_has_a_canonical_one();
    let clauses = clauses(alloc, &query.encoded.circuit, query.root)?;
    let parts = part_literals(
        alloc,
        query.encoded.structure,
        query.encoded.rules.as_slice(),
        query.tests.as_slice(),
    )?;
    Ok(Posed { clauses, parts })
}
