//! The stage: a model with its names looked up, or the first refusal.

ghost use Rattle.std.specs.Prelude.{◌≡◌, ◌<◌, ◌^◌, None, length, IfOk, IfErr, OnOk, IsTrue};
ghost use Rattle.refusal_order.specs.Order.{first_refusal};
ghost use Rattle.clf_tree.specs.Hierarchy.{is_closed};
ghost use Rattle.super_linker.specs.Supers.{linked, InheritsWell};
ghost use Rattle.plain_models.specs.Written.{IsWritten};
ghost use Rattle.target_finder.specs.Targets.{target_refusals, Explains as ExplainsTargets};
ghost use Rattle.expression_names.specs.Models.{name_refusals, Explains as ExplainsNames};
ghost use Rattle.model_resolver.specs.Resolved.{resolved_clafers, clafers_refusal, IsModel, ExplainsClafers, IsResolved, refusal_of, Explains};

use crate::law::leaves_nothing;
use clf_base::{Fault, List};
use clf_tree::{Clafer, Model, Named, Plain};
use expression_names::look_up_names;
use family_checks::{linked_families, targets_change_nothing};
use plain_models::plain_stands_well;
use std::alloc::Global;
use target_finder::find_targets;

// The clafers, whose supers are linked, with their targets.
#[tactic(auto, using(crate::proofs::Facts::resolved_facts))]
fn with_targets(alloc: Global, plain: &Plain, clafers: &List<Clafer>) -> Result<List<Clafer>, Fault>
    requires few { length plain.now.clafers < 2 ^ 32 }
    requires written { IsWritten plain.now }
    requires linked { clafers.now ≡ linked plain.now.clafers }
    requires inherits { InheritsWell clafers.now }
    ensures accepted { OnOk result (first_refusal (target_refusals clafers.now plain.now.clafers) ≡ None) }
    ensures clafers { IfOk result (λ all. all ≡ resolved_clafers plain.now.clafers) }
    ensures closed { IfOk result (λ all. IsTrue (is_closed all)) }
    ensures cause { IfErr result (λ fault. ExplainsTargets clafers.now plain.now.clafers fault) }
{
    let all = find_targets(alloc, clafers, &plain.clafers)?;
    Ok(all)
}

// The clafers with their supers and targets.
#[tactic(auto, using(crate::proofs::Facts::resolved_facts))]
fn targeted_clafers(alloc: Global, plain: &Plain) -> Result<List<Clafer>, Fault>
    requires few { length plain.now.clafers < 2 ^ 32 }
    requires written { IsWritten plain.now }
    ensures accepted { OnOk result (clafers_refusal plain.now.clafers ≡ None) }
    ensures clafers { IfOk result (λ all. all ≡ resolved_clafers plain.now.clafers) }
    ensures known { IfOk result (λ all. IsModel all) }
    ensures cause { IfErr result (λ fault. ExplainsClafers plain.now.clafers fault) }
{
    targets_change_nothing();
    plain_stands_well();
    let linked = linked_families(alloc, &plain.clafers)?;
    let clafers = with_targets(alloc, plain, &linked)?;
    Ok(clafers)
}

// The model of these clafers, with the names in the rules and goals looked up.
#[tactic(auto, using(crate::proofs::Facts::resolved_facts))]
fn with_names(alloc: Global, plain: &Plain, clafers: List<Clafer>) -> Result<Named, Fault>
    requires few { length plain.now.clafers < 2 ^ 32 }
    requires written { IsWritten plain.now }
    requires clafers { clafers ≡ resolved_clafers plain.now.clafers }
    requires known { IsModel clafers }
    ensures accepted { OnOk result (first_refusal (name_refusals clafers plain.now.rules plain.now.goals) ≡ None) }
    ensures resolved { IfOk result (λ named. IsResolved plain.now named) }
    ensures cause { IfErr result (λ fault. ExplainsNames clafers plain.now.rules plain.now.goals fault) }
{
    leaves_nothing();
    let model = Model {
        clafers,
        rules: List::new(alloc),
        goals: List::new(alloc),
    };
    let names = look_up_names(alloc, &model, &plain.rules, &plain.goals)?;
    Ok(Named::new(Model {
        clafers: model.clafers,
        rules: names.rules,
        goals: names.goals,
    }))
}

/// The model of a plain model, with each name replaced by what it names.
///
/// # Errors
///
/// `Refused` with the first refusal. What is refused of inheritance comes first (60 and 61), then what is refused of containment,
/// second references and names of inherited children (64, 65, 68), then what is refused of targets (67 and 63), then what is
/// refused in expressions (62, 63, 66); among these the earliest place, at one place the smallest code. And `NoMemory`.
#[tactic(auto, using(crate::proofs::Facts::resolved_facts))]
pub fn resolve(alloc: Global, plain: &Plain) -> Result<Named, Fault>
    requires few { length plain.now.clafers < 2 ^ 32 }
    requires written { IsWritten plain.now }
    ensures accepted { OnOk result (refusal_of plain.now ≡ None) }
    ensures resolved { IfOk result (λ named. IsResolved plain.now named) }
    ensures cause { IfErr result (λ fault. Explains plain.now fault) }
{
    let clafers = targeted_clafers(alloc, plain)?;
    let named = with_names(alloc, plain, clafers)?;
    Ok(named)
}
