//! What is refused of containment.

ghost use Rattle.std.specs.Prelude.{◌≡◌, ◌<◌, ◌^◌, length, IfOk, IsTrue};
ghost use Rattle.refusal_order.specs.Order.{with_refusals};
ghost use Rattle.clf_tree.specs.Hierarchy.{is_closed};
ghost use Rattle.clf_tree.specs.Named.{contains_itself};
ghost use Rattle.super_linker.specs.Supers.{refused_if};
ghost use Rattle.family_checks.specs.Heights.{Rise};

use crate::certificate::{all_rise, stands_above};
use crate::ordering::{Heights, ordered_heights, reached_heights};
use crate::search::contains_itself;
use clf_base::{List, NoMemory, Refusal, Span};
use clf_tree::Clafer;
use std::alloc::Global;
use super_linker::{comes_first, refused_if};

// Heights that were looked at; where they are none, all are 0.
#[tactic(auto, using(crate::proofs::Outside::no_heights))]
fn looked_at(alloc: Global, clafers: &List<Clafer>, heights: Heights) -> Heights
    requires few { length clafers.now < 2 ^ 32 }
    ensures { Rise clafers.now result.own.items result.heirs.items }
{
    if all_rise(clafers, &heights.own, &heights.heirs) {
        return heights;
    }
    Heights {
        own: Vec::new(alloc),
        heirs: Vec::new(alloc),
    }
}

/// Heights that don't rise from a clafer to its owners, in time linear in the clafers.
pub fn owner_heights(alloc: Global, clafers: &List<Clafer>) -> Result<Heights, NoMemory>
    requires few { length clafers.now < 2 ^ 32 }
    ensures { IfOk result (λ h. Rise clafers.now h.own.items h.heirs.items) }
{
    let proposed = ordered_heights(alloc, clafers)?;
    Ok(looked_at(alloc, clafers, proposed))
}

// First by the clafers that are reached, then from owner to owner.
fn is_contained(alloc: Global, clafers: &List<Clafer>, clafer: u32) -> Result<bool, NoMemory>
    requires clafer_in { clafer < length clafers.now }
    requires closed { IsTrue (is_closed clafers.now) }
    requires few { length clafers.now < 2 ^ 32 }
    ensures { IfOk result (λ met. met ≡ contains_itself clafers.now clafer) }
{
    let proposed = reached_heights(alloc, clafers, clafer)?;
    let heights = looked_at(alloc, clafers, proposed);
    if stands_above(clafers, &heights.own, &heights.heirs, clafer) {
        return Ok(false);
    }
    contains_itself(alloc, clafers, clafer)
}

/// Goes on with 64 where a clafer contains itself. It searches only where the heights don't show that it doesn't, and where its
/// refusal would be the first.
pub fn in_containment(
    alloc: Global,
    first: Option<Refusal>,
    clafers: &List<Clafer>,
    heights: &Heights,
    clafer: u32,
    at: Span,
) -> Result<Option<Refusal>, NoMemory>
    requires clafer_in { clafer < length clafers.now }
    requires closed { IsTrue (is_closed clafers.now) }
    requires few { length clafers.now < 2 ^ 32 }
    requires rise { Rise clafers.now heights.now.own.items heights.now.heirs.items }
    ensures { IfOk result (λ r. r ≡ with_refusals first (refused_if (contains_itself clafers.now clafer) 64 at)) }
{
    if stands_above(clafers, &heights.own, &heights.heirs, clafer) {
        return Ok(first);
    }
    if !comes_first(first, 64, at) {
        return Ok(first);
    }
    let met = is_contained(alloc, clafers, clafer)?;
    Ok(refused_if(first, met, 64, at))
}
