//! The fronts of small models, under two guides.

ghost use Rattle.std.specs.Prelude.{◌≡◌, IsTrue};
ghost use Rattle.goal_vectors.specs.Points.{vectors_of};

use crate::checking::is_refuted;
use crate::measure::{BUDGET, Count, Ended, count_of};
use crate::reading::model_of;
use anyhow::{Result, bail, ensure};
use clf_tree::Point;
use model_reader::Read;
use pareto_loop::{Searched, front};
use question_space::Space;
use search_guide::Guide;
use std::alloc::{AllocError, Global};

/// Two ways to search.
#[derive(Clone, Copy)]
pub struct Guides<'a> {
    pub first: &'a Guide,
    pub last: &'a Guide,
}

/// The front of a small model by the first guide, what the search by the last one counted, and the one with a budget of a single clause.
#[derive(Drop)]
pub struct Compared {
    pub searched: Searched,
    pub other: Count,
    pub early: Count,
}

/// Whether two vectors have the same values.
fn are_same(some: &[i128], other: &[i128]) -> bool
    ensures { IsTrue result → some.now ≡ other.now }
{
    if some.len() != other.len() {
        return false;
    }
    for at in 0..some.len() {
        if some[at] != other[at] {
            return false;
        }
    }
    true
}

/// Whether points have the same vectors in the same order.
fn have_same_vectors(some: &[Point], other: &[Point]) -> bool
    ensures { IsTrue result → vectors_of some.now ≡ vectors_of other.now }
{
    if some.len() != other.len() {
        return false;
    }
    for at in 0..some.len() {
        if !are_same(
            some[at].vector.values.as_slice(),
            other[at].vector.values.as_slice(),
        ) {
            return false;
        }
    }
    true
}

/// The front by a space. Where it is whole, a new checker has to accept what closes it.
fn searched(alloc: Global, space: &mut Space<'_>, guide: &Guide, budget: u64) -> Result<Searched> {
    ensure!(budget > 0 && budget <= BUDGET, "no such budget");
    let searched = front(alloc, space, 1024, budget, guide, 0)?;
    if count_of(&searched).ended == Ended::Finished {
        let Some(halt) = &searched.halt else {
            bail!("nothing closes a front");
        };
        let is_closed = is_refuted(alloc, space.clauses(), &halt.claim)?;
        ensure!(is_closed, "a front is not closed");
    }
    Ok(searched)
}

/// Searches the front of a model by both guides, which have to find the same, and once more with a budget of a single clause.
fn compare_model(alloc: Global, guides: Guides<'_>, read: &Read) -> Result<Compared> {
    let mut space = Space::build(alloc, read)?;
    let early = searched(alloc, &mut space, guides.first, 1)?;
    let first = searched(alloc, &mut space, guides.first, BUDGET)?;
    let last = searched(alloc, &mut space, guides.last, BUDGET)?;
    let are_same = have_same_vectors(first.front.points.as_slice(), last.front.points.as_slice());
    ensure!(are_same, "two guides find different fronts");
    Ok(Compared {
        searched: first,
        other: count_of(&last),
        early: count_of(&early),
    })
}

/// The text of lines with `~` between them.
fn text_of(alloc: Global, lines: &str) -> Result<Vec<u8>, AllocError> {
    let mut text = Vec::new(alloc);
    for line in lines.split('~') {
        text.extend_from_slice(line.as_bytes())?;
        text.push(b'\n')?;
    }
    Ok(text)
}

/// Compares the fronts of the model of lines with `~` between them, if it is one.
pub fn compare(alloc: Global, guides: Guides<'_>, lines: &str) -> Result<Option<Compared>> {
    let text = text_of(alloc, lines)?;
    match model_of(alloc, text.as_slice())? {
        Some(read) => Ok(Some(compare_model(alloc, guides, &read)?)),
        None => Ok(None),
    }
}
