//! Replies to questions: the clauses that pose them, and their answers.

ghost use Rattle.std.specs.Prelude.{◌<◌, ◌≤◌, length, IfOk, IsTrue};
ghost use Rattle.question_space.specs.Encoding.{IsEncoded};
ghost use Rattle.question_space.specs.Asking.{HasNoVectors};
ghost use Rattle.question_space.specs.Queries.{IsReply};

use crate::claims::Answer;
use crate::encoded::Encoded;
use crate::posing::{Query, pose};
use crate::questions::encode_question;
use crate::verdicts::decided;
use clause_store::{Clauses, Literal};
use clf_base::{List, NoMemory};
use clf_tree::Question;
use model_reader::Read;
use search_guide::Guide;
use set_bits::Layout;
use std::alloc::Global;

/// The clauses that pose a question, the literals of its parts, and its answer.
#[derive(Drop)]
pub(crate) struct Reply {
    pub(crate) clauses: Clauses,
    pub(crate) parts: List<Literal>,
    pub(crate) answer: Answer,
}

// The reply to a question that is on wires.
fn reply_to(
    alloc: Global,
    query: &Query<'_>,
    budget: u64,
    guide: &Guide,
    seed: u64,
) -> Result<Reply, NoMemory>
    requires some { 0 < budget }
    requires few { budget ≤ 1000000000 }
    ensures { IfOk result (IsReply query.now.read.now query.now.question.now query.now.layout.now budget) }
{
    let posed = pose(alloc, query)?;
    let answer = decided(alloc, query, &posed.clauses, budget, guide, seed)?;
    Ok(Reply {
        clauses: posed.clauses,
        parts: posed.parts,
        answer,
    })
}

// The reply to a question without vectors, on the wires of the space.
fn plain_reply(
    alloc: Global,
    read: &Read,
    layout: &Layout,
    encoded: &Encoded,
    question: &Question,
    budget: u64,
    guide: &Guide,
    seed: u64,
) -> Result<Reply, NoMemory>
    requires known { IsEncoded read.now layout.now encoded.now }
    requires no_vectors { HasNoVectors question.now }
    requires some { 0 < budget }
    requires few { budget ≤ 1000000000 }
    ensures { IfOk result (IsReply read.now question.now layout.now budget) }
{
    let tests = List::new(alloc);
    let query = Query {
        read,
        question,
        layout,
        encoded,
        tests: &tests,
        root: encoded.whole,
    };
    let reply = reply_to(alloc, &query, budget, guide, seed)?;
    Ok(reply)
}

// The reply to a question with vectors, on wires of its own.
fn compared_reply(
    alloc: Global,
    read: &Read,
    layout: &Layout,
    encoded: &Encoded,
    question: &Question,
    budget: u64,
    guide: &Guide,
    seed: u64,
) -> Result<Reply, NoMemory>
    requires known { IsEncoded read.now layout.now encoded.now }
    requires few_found { length question.now.found ≤ 1024 }
    requires some { 0 < budget }
    requires few { budget ≤ 1000000000 }
    ensures { IfOk result (IsReply read.now question.now layout.now budget) }
{
    let asked = encode_question(alloc, read, layout, encoded, question)?;
    let query = Query {
        read,
        question,
        layout,
        encoded: &asked.encoded,
        tests: &asked.tests,
        root: asked.root,
    };
    let reply = reply_to(alloc, &query, budget, guide, seed)?;
    Ok(reply)
}

// Whether a question has no found vectors and no vector to improve.
fn has_no_vectors(question: &Question) -> bool
    ensures { IsTrue result → HasNoVectors question.now }
{
    question.found.is_empty() && question.improve.is_none()
}

/// The reply to a question. One without vectors uses the wires of the space; one with vectors encodes the model anew.
pub(crate) fn respond(
    alloc: Global,
    read: &Read,
    layout: &Layout,
    encoded: &Encoded,
    question: &Question,
    budget: u64,
    guide: &Guide,
    seed: u64,
) -> Result<Reply, NoMemory>
    requires known { IsEncoded read.now layout.now encoded.now }
    requires few_found { length question.now.found ≤ 1024 }
    requires some { 0 < budget }
    requires few { budget ≤ 1000000000 }
    ensures { IfOk result (IsReply read.now question.now layout.now budget) }
{
    if has_no_vectors(question) {
        let plain = plain_reply(alloc, read, layout, encoded, question, budget, guide, seed)?;
        return Ok(plain);
    }
    let compared = compared_reply(alloc, read, layout, encoded, question, budget, guide, seed)?;
    Ok(compared)
}
