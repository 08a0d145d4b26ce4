//! The stage: the plain model of a text, or the first refusal.

ghost use Rattle.std.specs.Prelude.{◌≡◌, ◌<◌, ◌^◌, IfOk, IfErr, OnOk, None};
ghost use Rattle.refusal_order.specs.Order.{with_refusals, first_refusal};
ghost use Rattle.clafer_desugar.specs.PlainModel as plain_model;
ghost use Rattle.clafer_desugar.specs.PlainModel.{count_items};
ghost use Rattle.clafer_desugar.specs.Refusals.{items_refusals, plain_refusals, refusals, Explains};

use crate::clafers::in_clafers;
use crate::expressions::{in_goals, in_rules};
use crate::items::in_items;
use crate::walk::plain_of;
use clf_base::{Fault, NoMemory, Refusal};
use clf_tree::{Module, Plain};
use std::alloc::Global;

#[tactic(auto, using(crate::proofs::Joined::joined_steps))]
fn in_plain(
    alloc: Global,
    first: Option<Refusal>,
    plain: &Plain,
) -> Result<Option<Refusal>, NoMemory>
    ensures { IfOk result (λ r. r ≡ with_refusals first (plain_refusals plain.now)) }
{
    let first = in_clafers(alloc, first, &plain.clafers)?;
    let first = in_rules(alloc, first, &plain.rules)?;
    in_goals(alloc, first, &plain.goals)
}

/// The first refusal of a text and its plain model.
#[tactic(auto, using(crate::proofs::Joined::joined_steps))]
fn first_refusal(alloc: Global, text: &Module, plain: &Plain) -> Result<Option<Refusal>, NoMemory>
    requires { plain.now ≡ plain_model.plain_of text.now }
    ensures { IfOk result (λ r. r ≡ first_refusal (refusals text.now)) }
{
    let first = in_items(None, &text.items);
    in_plain(alloc, first, plain)
}

/// The plain model of a text.
///
/// An enum stands as an abstract clafer and its members, `=` as a rule of its clafer, and a bracket as a rule for each of its
/// expressions; each group and multiplicity that is left out has its default. A refused text has the refusal at the earliest
/// place, at one place the one of the smallest code. The time is near linear in the text.
///
/// # Errors
///
/// `Refused` with 50 where a low bound is above its high one, 51 where a name repeats among siblings, at top level or in one
/// quantifier, 52 for an abstract clafer below a clafer, 53 for an enum or a goal below a clafer; and `NoMemory`.
pub fn plain(alloc: Global, text: &Module) -> Result<Plain, Fault>
    requires few { count_items text.now.items < 2 ^ 32 }
    ensures accepted { OnOk result (first_refusal (refusals text.now) ≡ None) }
    ensures model { IfOk result (λ p. p ≡ plain_model.plain_of text.now) }
    ensures cause { IfErr result (λ fault. Explains text.now fault) }
{
    let plain = plain_of(alloc, text)?;
    match first_refusal(alloc, text, &plain)? {
        Some(refusal) => Err(Fault::Refused(refusal)),
        None => Ok(plain),
    }
}
