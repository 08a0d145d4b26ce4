//! What is refused of supers.

ghost use Rattle.std.specs.Prelude.{◌≡◌, ◌<◌, ◌^◌, ◌&&◌, Bool, Some, None, false, length, is_some, is_none, IsTrue};
ghost use Rattle.clf_base.specs.declared.fault.Refusal.{Refusal};
ghost use Rattle.refusal_order.specs.Order.{with_refusals};
ghost use Rattle.clf_tree.specs.Hierarchy.{is_closed};
ghost use Rattle.clf_tree.specs.Named.{inherits_itself};
ghost use Rattle.super_linker.specs.Supers.{refused_if, linked, super_refusals, supers_refusals};
ghost use Rattle.super_linker.specs.Ranks.{Fall};

use crate::ranking::{rank_of, super_of};
use clf_base::{List, Refusal, Span};
use clf_tree::{Clafer, PlainClafer, is_a};
use refusal_order::{is_before, refused, with_refusal};

/// Goes on with a refusal where `met` holds.
pub fn refused_if(first: Option<Refusal>, met: bool, code: u16, at: Span) -> Option<Refusal>
    ensures { result ≡ with_refusals first (refused_if met code at) }
{
    if met {
        with_refusal(first, refused(code, at, 0))
    } else {
        first
    }
}

/// Whether a refusal here may come before the one that was found so far. Where it says no, one here changes nothing.
pub fn comes_first(first: Option<Refusal>, code: u16, at: Span) -> bool
    ensures { result ≡ false → (met : Bool) → with_refusals first (refused_if met code at) ≡ first }
{
    match first {
        None => true,
        Some(found) => is_before(refused(code, at, 0), found),
    }
}

fn inherits_itself(clafers: &List<Clafer>, clafer: u32) -> bool
    requires closed { IsTrue (is_closed clafers.now) }
    ensures { result ≡ inherits_itself clafers.now clafer }
{
    match super_of(clafers, clafer) {
        Some(above) => is_a(clafers, above, clafer),
        None => false,
    }
}

// Looks up the way only where the clafer has no rank and its refusal would be the first.
fn in_cycle(
    first: Option<Refusal>,
    clafers: &List<Clafer>,
    ranks: &[u32],
    clafer: u32,
    at: Span,
) -> Option<Refusal>
    requires closed { IsTrue (is_closed clafers.now) }
    requires fall { Fall clafers.now ranks.now }
    ensures { result ≡ with_refusals first (refused_if (inherits_itself clafers.now clafer) 61 at) }
{
    if rank_of(ranks, clafer) > 0 {
        return first;
    }
    if !comes_first(first, 61, at) {
        return first;
    }
    refused_if(first, inherits_itself(clafers, clafer), 61, at)
}

fn lacks_super(clafer: &PlainClafer, above: Option<u32>) -> bool
    ensures { result ≡ (is_some clafer.now.above && is_none above) }
{
    if clafer.above.is_none() {
        return false;
    }
    above.is_none()
}

#[tactic(auto, using(crate::proofs::Linked::in_one))]
fn in_clafer(
    first: Option<Refusal>,
    plain: &List<PlainClafer>,
    clafers: &List<Clafer>,
    ranks: &[u32],
    clafer: u32,
) -> Option<Refusal>
    requires clafer_in { clafer < length plain.now }
    requires linked { clafers.now ≡ linked plain.now }
    requires closed { IsTrue (is_closed clafers.now) }
    requires fall { Fall clafers.now ranks.now }
    ensures { result ≡ with_refusals first (super_refusals plain.now clafer) }
{
    let written = plain.get(clafer as usize);
    let at = written.title.at;
    let lacks = lacks_super(written, super_of(clafers, clafer));
    let first = refused_if(first, lacks, 60, at);
    in_cycle(first, clafers, ranks, clafer, at)
}

/// The first of what is refused of supers. It is linear in the clafers, but for those above which there is a cycle.
pub fn in_clafers(
    plain: &List<PlainClafer>,
    clafers: &List<Clafer>,
    ranks: &[u32],
) -> Option<Refusal>
    requires few { length plain.now < 2 ^ 32 }
    requires linked { clafers.now ≡ linked plain.now }
    requires closed { IsTrue (is_closed clafers.now) }
    requires fall { Fall clafers.now ranks.now }
    ensures { result ≡ with_refusals None (supers_refusals plain.now) }
{
    let mut first = None;
    for number in 0..plain.len() {
        first = in_clafer(first, plain, clafers, ranks, number as u32);
    }
    first
}
