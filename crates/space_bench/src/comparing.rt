//! The answers of a small model, under two guides and with each choice of its constraints.

use crate::BUDGET;
use crate::asking::{Kind, ask, is_accepted, is_right, kind_of};
use crate::choices::{chosen_clauses, chosen_text, constraints, flags_of};
use crate::reading::model_of;
use anyhow::{Result, bail, ensure};
use certified_solver::{Verdict, decide};
use clause_store::{Clauses, Literal};
use model_reader::Read;
use question_space::Space;
use search_guide::Guide;
use std::alloc::Global;

/// The most constraints of which all choices are tried.
const MOST_CONSTRAINTS: usize = 5;

/// The most clauses, and the most variables, of a small model.
const MOST_CLAUSES: u32 = 1_000_000;

/// Two ways to search.
#[derive(Clone, Copy)]
pub struct Guides<'a> {
    pub first: &'a Guide,
    pub last: &'a Guide,
}

/// The answer of a model, the one with a budget of a single clause, how many choices of its constraints there are, and how many of
/// them have an instance.
#[derive(Clone, Copy, Debug)]
pub struct Compared {
    pub kind: Kind,
    pub early: Kind,
    pub choices: u32,
    pub right: u32,
}

/// Which answer a space gives. What it rests on has to be right.
fn answered(alloc: Global, space: &mut Space<'_>, guide: &Guide, budget: u64) -> Result<Kind> {
    ensure!(budget > 0 && budget <= BUDGET, "no such budget");
    let answer = ask(alloc, space, guide, budget)?;
    let is_right = is_right(alloc, space.clauses(), &answer, budget)?;
    ensure!(is_right, "an answer rests on nothing");
    Ok(kind_of(&answer))
}

/// Which answer the text of a choice has.
fn text_answer(alloc: Global, guide: &Guide, lines: &str, flags: &[bool]) -> Result<Kind> {
    let text = chosen_text(alloc, lines, flags)?;
    let Some(read) = model_of(alloc, text.as_slice())? else {
        bail!("a choice of constraints is no model");
    };
    let mut space = Space::build(alloc, &read)?;
    answered(alloc, &mut space, guide, BUDGET)
}

/// Which answer clauses have. A new checker has to accept that they are refuted.
fn clauses_answer(alloc: Global, guide: &Guide, clauses: &Clauses) -> Result<Kind> {
    ensure!(clauses.len() < MOST_CLAUSES, "too many clauses");
    ensure!(clauses.variables() < MOST_CLAUSES, "too many variables");
    match decide(alloc, clauses, BUDGET, guide, 0)? {
        Verdict::Yes(_) => Ok(Kind::Instance),
        Verdict::No(refutation) => {
            let is_accepted = is_accepted(alloc, clauses, refutation.derivation())?;
            ensure!(is_accepted, "a refutation is refused");
            Ok(Kind::Nothing)
        }
        Verdict::Spent(_) => Ok(Kind::Spent),
    }
}

/// Whether a choice of constraints has an instance. By its clauses and by its text the answer has to be the same.
fn has_instance(
    alloc: Global,
    guides: &Guides<'_>,
    clauses: &Clauses,
    parts: &[Literal],
    lines: &str,
    flags: &[bool],
) -> Result<bool> {
    let chosen = chosen_clauses(alloc, clauses, parts, flags)?;
    let by_clauses = clauses_answer(alloc, guides.last, &chosen)?;
    let by_text = text_answer(alloc, guides.first, lines, flags)?;
    ensure!(by_clauses == by_text, "a choice of parts is another model");
    Ok(by_text == Kind::Instance)
}

/// How many choices of the constraints there are, and how many of them have an instance.
fn try_choices(
    alloc: Global,
    guides: &Guides<'_>,
    clauses: &Clauses,
    parts: &[Literal],
    lines: &str,
) -> Result<(u32, u32)> {
    let count = constraints(lines);
    ensure!(count <= MOST_CONSTRAINTS, "too many constraints");
    ensure!(parts.len() == count + 1, "a constraint has no part");
    let choices = 1u32 << count;
    let mut right: u32 = 0;
    for number in 0..choices {
        let flags = flags_of(alloc, number, count)?;
        let has_one = has_instance(alloc, guides, clauses, parts, lines, flags.as_slice())?;
        right = right.wrapping_add(u32::from(has_one));
    }
    Ok((choices, right))
}

/// Asks a model by both guides, and tries each choice of its constraints.
fn compare_model(alloc: Global, guides: &Guides<'_>, read: &Read, lines: &str) -> Result<Compared> {
    let mut space = Space::build(alloc, read)?;
    let kind = answered(alloc, &mut space, guides.first, BUDGET)?;
    let other = answered(alloc, &mut space, guides.last, BUDGET)?;
    ensure!(kind == other, "two guides find different answers");
    let early = answered(alloc, &mut space, guides.first, 1)?;
    let parts = space.parts().as_slice();
    let (choices, right) = try_choices(alloc, guides, space.clauses(), parts, lines)?;
    Ok(Compared {
        kind,
        early,
        choices,
        right,
    })
}

/// Asks the model of lines with `~` between them, if it is one.
pub fn compare(alloc: Global, guides: &Guides<'_>, lines: &str) -> Result<Option<Compared>> {
    let flags = flags_of(alloc, u32::MAX, MOST_CONSTRAINTS)?;
    let text = chosen_text(alloc, lines, flags.as_slice())?;
    match model_of(alloc, text.as_slice())? {
        Some(read) => Ok(Some(compare_model(alloc, guides, &read, lines)?)),
        None => Ok(None),
    }
}
