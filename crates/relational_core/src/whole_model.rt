//! The relational model of a model.

ghost use Rattle.std.specs.Prelude.{◌≡◌, ◌<◌, ◌^◌, List as Seq, map, length, IfOk, IsTrue};
ghost use Rattle.std.specs.List.{list_all, All};
ghost use Rattle.clf_tree.specs.declared.instance.Entry.{Entry};
ghost use Rattle.clf_tree.specs.Satisfies.{laws_of, holds, vector_of};
ghost use Rattle.clf_tree.specs.Core.{core};
ghost use Rattle.clf_tree.specs.CoreMeaning.{truths_in, goals_in};
ghost use Rattle.clf_tree.specs.CoreSoundness.{is_instance, IsSoundTruth, IsSoundGoal};
ghost use Rattle.int_widths.specs.Narrow.{is_narrow_model};
ghost use Rattle.clf_tree.specs.Lists.{each_pair};
ghost use Rattle.relational_core.specs.Light.{is_light_truth, is_light_goal};
ghost use Rattle.relational_core.specs.Numberless.{is_without_integers, has_no_number};

use crate::lowering::lower_all;
use clf_base::NoMemory;
use clf_tree::{CoreModel, Scopes, Typed, intervals_hold, references_are_inherited};
use std::alloc::Global;

/// The relational model: one truth for each constraint and one number for each goal, in order, over the same clafers.
///
/// In each instance that is within the scopes, a tree and of the right shape, a truth is true exactly where its constraint holds
/// for each instance of its context, and a number is the value of its goal. The clafers and widths of each expression hold its
/// values. A truth weighs less than its constraint, and a number no more than its goal. Where no clafer refers to integers, no part of a constraint is an integer and each step goes into some clafer, the
/// truths have no number and compare no values.
///
/// It requires that the integers of the model need no more than 62 bits, as of a model whose weight is known.
///
/// Kinds are asked once for each part, and each part costs a walk over the clafers.
pub fn lower(alloc: Global, model: &Typed, scopes: &Scopes) -> Result<CoreModel, NoMemory>
    requires few { length model.now.clafers < 2 ^ 32 }
    requires narrow { IsTrue (is_narrow_model scopes.now model.now) }
    ensures clafers { IfOk result (λ r. r.clafers ≡ model.now.clafers) }
    ensures truths { IfOk result (λ r. (entries : Seq Entry) → IsTrue (is_instance model.now.clafers scopes.now entries) → truths_in r entries ≡ map (holds model.now.clafers entries) (laws_of model.now)) }
    ensures goals { IfOk result (λ r. (entries : Seq Entry) → IsTrue (is_instance model.now.clafers scopes.now entries) → goals_in r entries ≡ vector_of model.now entries) }
    ensures sound_truths { IfOk result (λ r. All (λ x. IsSoundTruth model.now.clafers scopes.now (core x)) r.truths) }
    ensures sound_goals { IfOk result (λ r. All (λ x. IsSoundGoal model.now.clafers scopes.now (core x)) r.goals) }
    ensures light_truths { IfOk result (λ r. IsTrue (each_pair (is_light_truth model.now.clafers scopes.now) r.truths model.now.rules)) }
    ensures light_goals { IfOk result (λ r. IsTrue (each_pair (is_light_goal model.now.clafers scopes.now) r.goals model.now.goals)) }
    ensures numberless { IfOk result (λ r. IsTrue (is_without_integers model.now) → IsTrue (list_all (λ x. has_no_number (core x)) r.truths)) }
{
    intervals_hold();
    references_are_inherited();
    let plan = model.model();
    let core_model = lower_all(alloc, plan, scopes)?;
    Ok(core_model)
}
