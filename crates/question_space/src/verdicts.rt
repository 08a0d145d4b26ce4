//! Answers from the verdicts of the solver.

ghost use Rattle.std.specs.Prelude.{◌≡◌, ◌^◌, ◌<◌, ◌≤◌, length, map, true, IfOk, IsTrue};
ghost use Rattle.bool_circuit.specs.Circuit.{wire_value};
ghost use Rattle.canonical_instances.specs.Canonical.{is_canonical};
ghost use Rattle.cdcl_search.specs.Progress.{assignment_of};
ghost use Rattle.certified_solver.specs.Verdicts.{IsVerdict, IsDecided};
ghost use Rattle.clause_encoder.specs.Encoding.{Encodes};
ghost use Rattle.clf_tree.specs.Lists.{numbers_below};
ghost use Rattle.clf_tree.specs.Front.{admits, ways_of};
ghost use Rattle.clf_tree.specs.Satisfies.{satisfies, vector_of};
ghost use Rattle.question_space.specs.Asking.{IsAnswerFor, IsCanonicalFor, IsSettled};
ghost use Rattle.question_space.specs.Encoding.{first_values};
ghost use Rattle.question_space.specs.Queries.{limit_of};

use crate::claims::{Answer, Claim};
use crate::posing::Query;
use canonical_encoder::canonical_slots_show_canonical_instances;
use canonical_instances::each_instance_has_a_canonical_one;
use certified_solver::{Verdict, decide};
use clause_store::{Clauses, Derivation, refuted_is_unsatisfiable};
use clf_base::{List, NoMemory};
use clf_tree::Instance;
use instance_decoder::decode;
use search_guide::Guide;
use shown_instance::{
    each_instance_has_bits, shaped_bits_show_a_tree, the_told_instance_alone_is_shown,
};
use std::alloc::Global;

// The value of a variable. The list ends at the last variable of a clause; what it does not reach is false.
fn value_of(values: &[bool], variable: usize) -> bool
    ensures { result ≡ assignment_of values.now variable }
{
    match values.get(variable) {
        Some(value) => *value,
        None => false,
    }
}

// The first so many values of an assignment.
fn first_bits(alloc: Global, values: &[bool], count: usize) -> Result<List<bool>, NoMemory>
    ensures { IfOk result (λ bits. bits ≡ map (assignment_of values.now) (numbers_below count)) }
{
    let mut bits = List::new(alloc);
    for at in 0..count {
        let bit = value_of(values, at);
        bits.push(bit)?;
    }
    Ok(bits)
}

// The instance that the first values show, where they make the root true.
fn found(alloc: Global, query: &Query<'_>, values: &[bool]) -> Result<Instance, NoMemory>
    requires { wire_value query.now.encoded.now.circuit query.now.root (first_values values.now query.now.layout.now) ≡ true }
    ensures satisfied { IfOk result (λ instance. IsTrue (satisfies query.now.read.now.model query.now.read.now.scopes instance.entries)) }
    ensures admitted { IfOk result (λ instance. IsTrue (admits (ways_of query.now.read.now.model) query.now.question.now
        (vector_of query.now.read.now.model instance.entries))) }
    ensures canonical { IfOk result (λ instance. IsTrue (is_canonical query.now.read.now.model.clafers instance.entries)) }
{
    each_instance_has_bits();
    shaped_bits_show_a_tree();
    the_told_instance_alone_is_shown();
    canonical_slots_show_canonical_instances();
    each_instance_has_a_canonical_one();
    let bits = first_bits(alloc, values, query.encoded.circuit.inputs() as usize)?;
    let instance = decode(
        alloc,
        &query.encoded.core,
        &query.read.scopes,
        query.layout,
        bits.as_slice(),
    )?;
    Ok(instance)
}

// The claim of a derivation over all clauses.
fn claim_of(clauses: &Clauses, derivation: Derivation) -> Claim
    ensures given { result.given ≡ length clauses.now.clauses }
    ensures derivation { result.derivation ≡ derivation }
{
    Claim {
        given: clauses.len(),
        derivation,
    }
}

// What a verdict on the clauses answers.
fn answer_of(
    alloc: Global,
    query: &Query<'_>,
    clauses: &Clauses,
    budget: u64,
    verdict: Verdict,
) -> Result<Answer, NoMemory>
    requires encodes { Encodes query.now.encoded.now.circuit query.now.root clauses.now }
    requires verdict { IsVerdict clauses.now.clauses budget verdict }
    ensures answer { IfOk result (IsAnswerFor query.now.read.now query.now.question.now budget clauses.now.clauses) }
    ensures canonical { IfOk result (IsCanonicalFor query.now.read.now) }
    ensures settled { IfOk result (λ a. IsDecided verdict → IsSettled a) }
{
    each_instance_has_bits();
    shaped_bits_show_a_tree();
    the_told_instance_alone_is_shown();
    canonical_slots_show_canonical_instances();
    each_instance_has_a_canonical_one();
    refuted_is_unsatisfiable();
    match verdict {
        Verdict::Yes(values) => {
            let instance = found(alloc, query, values.as_slice())?;
            Ok(Answer::Found(instance))
        }
        Verdict::No(refutation) => {
            let made = claim_of(clauses, refutation.into_derivation());
            Ok(Answer::Empty(made))
        }
        Verdict::Spent(derivation) => {
            let made = claim_of(clauses, derivation);
            Ok(Answer::Spent(made))
        }
    }
}

/// The answer of the solver to the clauses of a question's wires. A budget of 3 to the power of their number is never spent.
pub(crate) fn decided(
    alloc: Global,
    query: &Query<'_>,
    clauses: &Clauses,
    budget: u64,
    guide: &Guide,
    seed: u64,
) -> Result<Answer, NoMemory>
    requires encodes { Encodes query.now.encoded.now.circuit query.now.root clauses.now }
    requires some { 0 < budget }
    requires few { budget ≤ 1000000000 }
    ensures answer { IfOk result (IsAnswerFor query.now.read.now query.now.question.now budget clauses.now.clauses) }
    ensures canonical { IfOk result (IsCanonicalFor query.now.read.now) }
    ensures enough { IfOk result (λ a. 3 ^ limit_of query.now.read.now query.now.question.now ≤ budget → IsSettled a) }
{
    let verdict = decide(alloc, clauses, budget, guide, seed)?;
    let answer = answer_of(alloc, query, clauses, budget, verdict)?;
    Ok(answer)
}
