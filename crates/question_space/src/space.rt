//! The space of a model's instances, which answers questions.

ghost use Rattle.std.specs.Prelude.{◌≡◌, ◌+◌, ◌^◌, ◌<◌, ◌≤◌, [], All, length, IfOk, OnOk};
ghost use Rattle.clause_store.specs.Literals.{HasVariablesBelow};
ghost use Rattle.set_bits.specs.Fitting.{Fits};
ghost use Rattle.question_space.specs.Asking.{AreCompleteFor, AreExactFor, ArePosedFor, HasNoVectors, IsAnswerFor, IsCanonicalFor, IsSettled};
ghost use Rattle.question_space.specs.Encoding.{IsEncoded};
ghost use Rattle.question_space.specs.Vectors.{question_cost};

use crate::claims::{Answer, Claim};
use crate::encoded::{Encoded, encode};
use crate::replies::respond;
use crate::spending::Spending;
use clause_store::{Clauses, Literal};
use clf_base::{List, NoMemory};
use clf_tree::Question;
use model_reader::Read;
use search_guide::Guide;
use set_bits::Layout;
use std::alloc::Global;

/// Questions about the instances of a model that was read.
#[derive(Drop)]
pub struct Space<'a> {
    pub read: &'a Read,
    /// Which variable says what of an instance: the first variables, in the order of its bits.
    pub layout: Layout,
    /// The clauses of the last question; before any, none.
    pub clauses: Clauses,
    /// The literals of its parts.
    pub parts: List<Literal>,
    encoded: Encoded,
    ghost known: { IsEncoded read.now layout encoded },
}

impl<'a> Space<'a> {
    /// Encodes the structure, which asks for canonical numbers of nodes, and each constraint, as no more wires than the model weighs.
    ///
    /// The time grows with the wires, and as those of `layout` and `shape` do. The only error is want of memory.
    pub fn build(alloc: Global, read: &'a Read) -> Result<Space<'a>, NoMemory>
        ensures read { IfOk result (λ s. s.read.now ≡ read.now) }
        ensures fits { IfOk result (λ s. Fits read.now.model.clafers read.now.scopes s.layout) }
    {
        let posable = encode(alloc, read)?;
        Ok(Space {
            read,
            layout: posable.layout,
            clauses: Clauses::new(alloc),
            parts: List::new(alloc),
            encoded: posable.encoded,
        })
    }

    /// Asks for an instance that satisfies the model and whose vector the question admits, with at most `budget` learned clauses.
    ///
    /// The clauses of the space become those of the question, at most four a wire and one more, with variables below the weight and what
    /// the vectors of the question take. Above bits of the layout they can be satisfied exactly where the bits show a canonical answer, and
    /// each answer is isomorphic to one of these. With their parts they pose the question. The answer is an instance, which is canonical;
    /// or that there is none, with a refutation of the clauses that a checker has accepted; or that the budget is spent, with as many new
    /// results.
    ///
    /// A vector is compared as far as both it and the goals go. A question without vectors never spends a budget of 3 to the power of the
    /// model's weight; nor does one with at most one found vector of a model without goals, with an exponent greater by 24.
    ///
    /// Beside the search the time grows with the wires: a question with vectors encodes the model anew. The only error is want of memory;
    /// the clauses may be those of the question then.
    pub fn ask(
        &mut self,
        alloc: Global,
        question: &Question,
        budget: u64,
        guide: &Guide,
        seed: u64,
    ) -> Result<Answer, NoMemory>
        requires few_found { length question.now.found ≤ 1024 }
        requires some { 0 < budget }
        requires few { budget ≤ 1000000000 }
        ensures read { self.new.read.now ≡ self.old.read.now }
        ensures layout { self.new.layout ≡ self.old.layout }
        ensures light { OnOk result (All
            (HasVariablesBelow (self.new.read.now.weight + question_cost (length self.new.read.now.model.goals) question.now))
            self.new.clauses.clauses) }
        ensures exact { OnOk result (AreExactFor self.new.read.now question.now self.new.layout self.new.clauses.clauses) }
        ensures complete { OnOk result (AreCompleteFor self.new.read.now question.now self.new.layout self.new.clauses.clauses) }
        ensures posed { OnOk result (ArePosedFor self.new.read.now question.now self.new.clauses.clauses self.new.parts) }
        ensures answer { IfOk result (IsAnswerFor self.new.read.now question.now budget self.new.clauses.clauses) }
        ensures canonical { IfOk result (IsCanonicalFor self.new.read.now) }
        ensures enough { IfOk result (λ a. HasNoVectors question.now → 3 ^ self.new.read.now.weight ≤ budget → IsSettled a) }
        ensures enough_without_goals { IfOk result (λ a. self.new.read.now.model.goals ≡ [] → length question.now.found ≤ 1
            → 3 ^ (self.new.read.now.weight + 24) ≤ budget → IsSettled a) }
    {
        let reply = respond(
            alloc,
            self.read,
            &self.layout,
            &self.encoded,
            question,
            budget,
            guide,
            seed,
        )?;
        self.clauses = reply.clauses;
        self.parts = reply.parts;
        Ok(reply.answer)
    }

    /// The clauses of the last question.
    pub fn clauses(&self) -> &Clauses
        ensures { result.now ≡ self.now.clauses }
    {
        &self.clauses
    }

    /// The literals of its parts: the structure, the constraints in their order, the found vectors, and the vector to improve, if any.
    pub fn parts(&self) -> &List<Literal>
        ensures { result.now ≡ self.now.parts }
    {
        &self.parts
    }

    /// The model that was read.
    pub fn read(&self) -> &'a Read
        ensures { result.now ≡ self.now.read.now }
    {
        self.read
    }

    /// The clauses of the last question, without a copy.
    pub fn into_clauses(self) -> Clauses
        ensures { result ≡ self.entry.clauses }
    {
        self.clauses
    }

    /// What a question leaves, without a copy: the question, its clauses and parts, and the claim of its answer.
    pub fn into_spending(self, question: Question, claim: Claim) -> Spending
        ensures question { result.question ≡ question }
        ensures claim { result.claim ≡ claim }
        ensures clauses { result.clauses ≡ self.entry.clauses }
        ensures parts { result.parts ≡ self.entry.parts }
    {
        Spending {
            question,
            clauses: self.clauses,
            parts: self.parts,
            claim,
        }
    }
}
