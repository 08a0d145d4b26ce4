//! What is refused clafer by clafer.

ghost use Rattle.std.specs.Prelude.{◌≡◌, ◌<◌, ◌^◌, ◌&&◌, ℕ, List as Seq, Option, length, nat_eq, bytes_eq, IfOk, IsTrue};
ghost use Rattle.std.specs.Option.{option_eq};
ghost use Rattle.std.specs.List.{list_any};
ghost use Rattle.std.specs.HashSet.{contains_by};
ghost use Rattle.refusal_order.specs.Order.{with_refusals, first_refusal};
ghost use Rattle.clf_tree.specs.Hierarchy.{is_closed};
ghost use Rattle.clf_tree.specs.Named.{repeats_inherited};
ghost use Rattle.super_linker.specs.Supers.{refused_if};
ghost use Rattle.family_checks.specs.Families.{inherits_reference, reference_refusals, clafer_refusals, family_refusals, stands_at};
ghost use Rattle.family_checks.specs.Heights.{Rise};
ghost use Rattle.family_checks.specs.Marks.{GoDown, MarkRepeats};

use crate::certificate::super_of;
use crate::children::{declared_names, repeats_inherited};
use crate::containment::{in_containment, owner_heights};
use crate::referring::{is_marked, reference_marks};
use crate::repeating::repeat_marks;
use clf_base::{List, NoMemory, Refusal, Span};
use clf_tree::{Clafer, Reference, reference_of};
use std::alloc::Global;
use std::collections::HashSet;
use super_linker::{comes_first, refused_if};

// Goes up only where a mark says that it may find one.
#[tactic(auto, using(crate::proofs::Marking::marking_facts))]
fn inherits_reference(clafers: &List<Clafer>, marks: &[bool], clafer: u32) -> bool
    requires marked { GoDown clafers.now marks.now }
    ensures { result ≡ inherits_reference clafers.now clafer }
{
    match super_of(clafers, clafer) {
        None => false,
        Some(above) => {
            if !is_marked(marks, above) {
                return false;
            }
            reference_of(clafers, above).is_some()
        }
    }
}

// Goes up only where the refusal would come first.
fn in_reference(
    first: Option<Refusal>,
    clafers: &List<Clafer>,
    marks: &[bool],
    clafer: u32,
    reference: Option<Reference>,
) -> Option<Refusal>
    requires marked { GoDown clafers.now marks.now }
    ensures { result ≡ with_refusals first (reference_refusals clafers.now clafer reference) }
{
    let Some(own) = reference else {
        return first;
    };
    if !comes_first(first, 65, own.at) {
        return first;
    }
    let inherits = inherits_reference(clafers, marks, clafer);
    refused_if(first, inherits, 65, own.at)
}

// Goes up only where a mark says that it may find the name, and where the refusal would come first.
#[tactic(auto, using(crate::proofs::Joined::not_marked))]
fn in_name(
    first: Option<Refusal>,
    clafers: &List<Clafer>,
    names: &HashSet<(Option<u32>, &[u8])>,
    marks: &[bool],
    clafer: u32,
    at: Span,
) -> Option<Refusal>
    requires clafer_in { clafer < length clafers.now }
    requires marked { MarkRepeats clafers.now marks.now }
    requires known { (p : Option ℕ) (n : Seq ℕ) → contains_by (λ k. option_eq nat_eq p k.0 && bytes_eq n k.1.now) names.now ≡ list_any (stands_at p n) clafers.now }
    ensures { result ≡ with_refusals first (refused_if (repeats_inherited clafers.now clafer) 68 at) }
{
    if !is_marked(marks, clafer) {
        return first;
    }
    if !comes_first(first, 68, at) {
        return first;
    }
    refused_if(first, repeats_inherited(clafers, names, clafer), 68, at)
}

/// The first of all that is refused.
pub fn in_clafers(alloc: Global, clafers: &List<Clafer>) -> Result<Option<Refusal>, NoMemory>
    requires closed { IsTrue (is_closed clafers.now) }
    requires few { length clafers.now < 2 ^ 32 }
    ensures { IfOk result (λ r. r ≡ first_refusal (family_refusals clafers.now)) }
{
    let heights = owner_heights(alloc, clafers)?;
    let marks = reference_marks(alloc, clafers)?;
    let repeats = repeat_marks(alloc, clafers)?;
    let names = declared_names(alloc, clafers)?;
    let mut first = None;
    for number in 0..clafers.len() {
        let here = clafers.get(number);
        let clafer = number as u32;
        let at = here.title.at;
        let contained = in_containment(alloc, first, clafers, &heights, clafer, at)?;
        let referring = in_reference(contained, clafers, &marks, clafer, here.reference);
        first = in_name(referring, clafers, &names, &repeats, clafer, at);
    }
    Ok(first)
}
