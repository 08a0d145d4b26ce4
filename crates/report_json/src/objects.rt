//! The report as one object of JSON.

ghost use Rattle.std.specs.Prelude.{◌≡◌, ◌++◌, decimal, length, IfOk, OnOk, codes};
ghost use Rattle.std.specs.Fmt.{signed_decimal};
ghost use Rattle.json.specs.Print.{quoted};
ghost use Rattle.report_json.specs.Json as spec;

use crate::lists::{push_point, push_points, push_scopes};
use crate::values::push_text;
use clf_base::{List, NoMemory};
use clf_tree::{Clafer, Front, FrontEnd, Model, Scopes};
use front_report::Outcome;
use itoa::Buffer;
use std::alloc::Global;

fn claims_of(outcome: &Outcome) -> u64
    ensures { result ≡ spec.claims_of outcome.now }
{
    match outcome {
        Outcome::One(_) => 0,
        Outcome::NoInstance => 1,
        Outcome::OneSpent => 0,
        Outcome::Front(front) => front.claims,
    }
}

fn push_claims(text: &mut List<u8>, outcome: &Outcome) -> Result<(), NoMemory>
    ensures { OnOk result (text.new ≡ text.old ++ (codes "{\"claims\":" ++ decimal (spec.claims_of outcome.now))) }
{
    let mut buffer = Buffer::new();
    text.extend(b"{\"claims\":")?;
    text.extend(buffer.format(claims_of(outcome)).as_bytes())?;
    Ok(())
}

fn push_range(text: &mut List<u8>, scopes: &Scopes) -> Result<(), NoMemory>
    ensures { OnOk result (text.new ≡ text.old ++ spec.range_json scopes.now) }
{
    let mut buffer = Buffer::new();
    text.extend(b",\"ints\":[")?;
    text.extend(buffer.format(scopes.low).as_bytes())?;
    text.extend(b",")?;
    text.extend(buffer.format(scopes.high).as_bytes())?;
    text.extend(b"]")?;
    Ok(())
}

fn push_found(
    alloc: Global,
    text: &mut List<u8>,
    clafers: &[Clafer],
    outcome: &Outcome,
) -> Result<(), NoMemory>
    requires { spec.HaveNames clafers.now }
    ensures { OnOk result (text.new ≡ text.old ++ spec.points_json clafers.now outcome.now) }
{
    match outcome {
        Outcome::One(instance) => {
            push_point(alloc, text, clafers, instance.entries.as_slice(), &[])
        }
        Outcome::NoInstance => Ok(()),
        Outcome::OneSpent => Ok(()),
        Outcome::Front(front) => push_points(alloc, text, clafers, front.points.as_slice()),
    }
}

fn ended_word(front: &Front) -> &'static [u8]
    ensures { result.now ≡ spec.ended_word front.now.ended (length front.now.points) }
{
    match &front.ended {
        FrontEnd::Finished if front.points.is_empty() => b"no instance",
        FrontEnd::Finished => b"front",
        FrontEnd::Spent => b"unfinished E100",
        FrontEnd::Full(_) => b"unfinished E101",
    }
}

fn result_of(outcome: &Outcome) -> &'static [u8]
    ensures { result.now ≡ spec.result_of outcome.now }
{
    match outcome {
        Outcome::One(_) => b"instance",
        Outcome::NoInstance => b"no instance",
        Outcome::OneSpent => b"unfinished E100",
        Outcome::Front(front) => ended_word(front),
    }
}

fn push_result(alloc: Global, text: &mut List<u8>, outcome: &Outcome) -> Result<(), NoMemory>
    ensures { OnOk result (text.new ≡ text.old ++ (codes ",\"result\":" ++ quoted (spec.result_of outcome.now))) }
{
    text.extend(b",\"result\":")?;
    push_text(alloc, text, result_of(outcome))?;
    Ok(())
}

/// The report as one object of JSON on one line: the claims, the range of integers, the points with their nodes and vectors, what was
/// found in a word, and the scopes.
///
/// Besides the text itself it takes memory for the nodes of one point at a time.
#[tactic(auto, unfolding(crate::specs::Json::json_report))]
pub fn json(
    alloc: Global,
    model: &Model,
    scopes: &Scopes,
    outcome: &Outcome,
) -> Result<List<u8>, NoMemory>
    requires { spec.HaveNames model.now.clafers }
    ensures { IfOk result (λ text. text ≡ spec.json_report model.now scopes.now outcome.now) }
{
    let clafers = model.clafers.as_slice();
    let mut text = List::new(alloc);
    push_claims(&mut text, outcome)?;
    push_range(&mut text, scopes)?;
    text.extend(b",\"points\":[")?;
    push_found(alloc, &mut text, clafers, outcome)?;
    text.extend(b"]")?;
    push_result(alloc, &mut text, outcome)?;
    text.extend(b",\"scopes\":[")?;
    push_scopes(alloc, &mut text, clafers, scopes)?;
    text.extend(b"]}\n")?;
    Ok(text)
}
