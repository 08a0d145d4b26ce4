//! The stage: clafers with their supers linked, or the first refusal.

ghost use Rattle.std.specs.Prelude.{◌≡◌, ◌<◌, ◌^◌, length, IfOk, IfErr, OnOk, IsTrue, None};
ghost use Rattle.refusal_order.specs.Order.{first_refusal};
ghost use Rattle.super_linker.specs.Supers.{parents_first, linked, supers_refusals, InheritsWell, Explains};

use crate::cycles::in_clafers;
use crate::linking::with_supers;
use crate::ranking::super_ranks;
use clf_base::{Fault, List, NoMemory, Refusal};
use clf_tree::{Clafer, PlainClafer};
use std::alloc::Global;

#[tactic(auto, using(crate::proofs::Linked::linked_facts))]
fn first_refusal(
    alloc: Global,
    plain: &List<PlainClafer>,
    clafers: &List<Clafer>,
) -> Result<Option<Refusal>, NoMemory>
    requires few { length plain.now < 2 ^ 32 }
    requires parents { IsTrue (parents_first 0 plain.now) }
    requires linked { clafers.now ≡ linked plain.now }
    ensures { IfOk result (λ r. r ≡ first_refusal (supers_refusals plain.now)) }
{
    let ranks = super_ranks(alloc, clafers)?;
    Ok(in_clafers(plain, clafers, &ranks))
}

#[tactic(auto, using(crate::proofs::Linked::linked_facts))]
/// The clafers of a plain model with their supers as numbers. The targets of references aren't looked up: a reference stands with
/// its place and kind, and refers to no clafer yet.
///
/// The time is near linear in the clafers and the length of their names; only where clafers inherit from themselves each clafer
/// above which there is such a cycle, up to the first refusal, takes a walk of its own.
///
/// # Errors
///
/// `Refused` with 60 where a super isn't an abstract clafer at top level, 61 where a clafer is above itself, both at its title,
/// the one at the earliest place, at one place the smaller code; and `NoMemory`.
pub fn link_supers(alloc: Global, clafers: &List<PlainClafer>) -> Result<List<Clafer>, Fault>
    requires few { length clafers.now < 2 ^ 32 }
    requires parents { IsTrue (parents_first 0 clafers.now) }
    ensures accepted { OnOk result (first_refusal (supers_refusals clafers.now) ≡ None) }
    ensures linked { IfOk result (λ made. made ≡ linked clafers.now) }
    ensures known { IfOk result (λ made. InheritsWell made) }
    ensures cause { IfErr result (λ fault. Explains clafers.now fault) }
{
    let made = with_supers(alloc, clafers)?;
    match first_refusal(alloc, clafers, &made)? {
        Some(refusal) => Err(Fault::Refused(refusal)),
        None => Ok(made),
    }
}
