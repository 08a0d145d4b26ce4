//! What is refused of the clafers of a plain model: bounds, names that repeat, and abstract clafers below a clafer.

ghost use Rattle.std.specs.Prelude.{◌≡◌, [], IfOk};
ghost use Rattle.refusal_order.specs.Order.{with_refusals};
ghost use Rattle.clf_tree.specs.Named.{is_wrong};
ghost use Rattle.clafer_desugar.specs.Refusals.{refused_if, bounds_refusals, refusals_of, clafers_refusals};

use clf_base::{List, NoMemory, Refusal, Span};
use clf_tree::{Interval, PlainClafer};
use refusal_order::{refused, with_refusal};
use std::alloc::Global;
use std::collections::HashSet;

/// Goes on with a refusal where `met` holds.
pub fn refused_if(first: Option<Refusal>, met: bool, code: u16, at: Span) -> Option<Refusal>
    ensures { result ≡ with_refusals first (refused_if met code at) }
{
    if met {
        with_refusal(first, refused(code, at, 0))
    } else {
        first
    }
}

fn is_wrong(bounds: Interval) -> bool
    ensures { result ≡ is_wrong bounds }
{
    match bounds.high {
        Some(high) => high < bounds.low,
        None => false,
    }
}

fn in_bounds(first: Option<Refusal>, clafer: &PlainClafer) -> Option<Refusal>
    ensures { result ≡ with_refusals first (bounds_refusals clafer.now) }
{
    if is_wrong(clafer.group) {
        return with_refusal(first, refused(50, clafer.title.at, clafer.group.low as u64));
    }
    if is_wrong(clafer.times) {
        return with_refusal(first, refused(50, clafer.title.at, clafer.times.low as u64));
    }
    first
}

// A clafer, which repeats the place and the name of an earlier one or not.
#[tactic(auto, using(crate::proofs::Joined::joined_steps))]
fn in_clafer(first: Option<Refusal>, clafer: &PlainClafer, repeats: bool) -> Option<Refusal>
    ensures { result ≡ with_refusals first (refusals_of repeats clafer.now) }
{
    let first = in_bounds(first, clafer);
    let first = refused_if(first, repeats, 51, clafer.title.at);
    let nested = clafer.is_abstract && clafer.parent.is_some();
    refused_if(first, nested, 52, clafer.at)
}

/// Goes on over the clafers of a model. Each is looked up once in a set of those before it, so the time is near linear in their
/// number and the length of their names.
#[tactic(auto, using(crate::proofs::Joined::joined_steps))]
pub fn in_clafers(
    alloc: Global,
    mut first: Option<Refusal>,
    clafers: &List<PlainClafer>,
) -> Result<Option<Refusal>, NoMemory>
    ensures { IfOk result (λ r. r ≡ with_refusals first (clafers_refusals [] clafers.now)) }
{
    let mut seen = HashSet::new(alloc);
    for clafer in clafers.as_slice() {
        let is_new = seen.insert((clafer.parent, clafer.title.name.as_slice()))?;
        first = in_clafer(first, clafer, !is_new);
    }
    Ok(first)
}
