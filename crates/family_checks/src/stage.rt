//! The stage: what is refused of families, and both parts in their order.

ghost use Rattle.std.specs.Prelude.{◌≡◌, ◌<◌, ◌^◌, List as Seq, map, length, IfOk, IfErr, OnOk, IsTrue, None};
ghost use Rattle.refusal_order.specs.Order.{first_refusal};
ghost use Rattle.clf_tree.specs.declared.model.Clafer.{Clafer as AClafer};
ghost use Rattle.clf_tree.specs.Hierarchy.{is_closed};
ghost use Rattle.super_linker.specs.Supers.{parents_first, linked, InheritsWell};
ghost use Rattle.family_checks.specs.Families.{family_refusals, without_target, IsFamily, Explains, parts_refusal, ExplainsParts};

use crate::refusing::in_clafers;
use clf_base::{Fault, List};
use clf_tree::{Clafer, PlainClafer};
use std::alloc::Global;
use super_linker::link_supers;

/// Whether clafers whose supers are linked are refused for containment, a second reference or the name of an inherited child.
///
/// The time is near linear in the clafers and the length of their names. Only where the reference or the name of a clafer may be
/// refused, and that refusal would come first, all above it is gone over: where clafers stand in the order of their places, once
/// or twice. Where clafers contain themselves more is searched, until the first of them is found.
///
/// # Errors
///
/// `Refused` with 64 where going from owner to owner leads back to a clafer, at its title, 65 where a clafer that inherits a reference
/// has one, at its sign, 68 where a child has the name of an inherited one, at its title, the one at the earliest place, at one
/// place the smaller code; and `NoMemory`.
pub fn check_families(alloc: Global, clafers: &List<Clafer>) -> Result<(), Fault>
    requires few { length clafers.now < 2 ^ 32 }
    requires inherits { InheritsWell clafers.now }
    ensures accepted { OnOk result (first_refusal (family_refusals clafers.now) ≡ None) }
    ensures known { OnOk result (IsFamily clafers.now) }
    ensures cause { IfErr result (λ fault. Explains clafers.now fault) }
{
    match in_clafers(alloc, clafers)? {
        Some(refusal) => Err(Fault::Refused(refusal)),
        None => Ok(()),
    }
}

/// The clafers of a plain model with their supers as numbers, known to be a family; the targets of references aren't looked up.
///
/// # Errors
///
/// Those of [`link_supers`], then those of [`check_families`]; and `NoMemory`.
#[tactic(auto, using(crate::proofs::Known::parts_facts))]
pub fn linked_families(alloc: Global, clafers: &List<PlainClafer>) -> Result<List<Clafer>, Fault>
    requires few { length clafers.now < 2 ^ 32 }
    requires parents { IsTrue (parents_first 0 clafers.now) }
    ensures accepted { OnOk result (parts_refusal clafers.now ≡ None) }
    ensures linked { IfOk result (λ made. made ≡ linked clafers.now) }
    ensures inherits { IfOk result (λ made. InheritsWell made) }
    ensures family { IfOk result (λ made. IsFamily made) }
    ensures cause { IfErr result (λ fault. ExplainsParts clafers.now fault) }
{
    let made = link_supers(alloc, clafers)?;
    check_families(alloc, &made)?;
    Ok(made)
}

/// Targets change nothing of this: what is known of clafers whose references have no target is known of them with their targets.
pub fn targets_change_nothing()
    ensures inherits { (clafers : Seq AClafer) → IsTrue (is_closed clafers) → InheritsWell (map without_target clafers) → InheritsWell clafers }
    ensures family { (clafers : Seq AClafer) → IsFamily (map without_target clafers) → IsFamily clafers }
{}
