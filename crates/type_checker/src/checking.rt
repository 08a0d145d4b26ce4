//! Whether a model is typed.

ghost use Rattle.std.specs.Prelude.{◌≡◌, [], ◌<◌, ◌^◌, None, length, IfOk, OnOk, IfErr, IsTrue};
ghost use Rattle.clf_tree.specs.Hierarchy.{is_closed};
ghost use Rattle.type_checker.specs.Refusals.{rule_refusal, goal_refusal, rules_refusal, goals_refusal, model_refusal, Explains};

use crate::expression::part_of;
use crate::part::{first_of, operand};
use crate::position::Position;
use clf_base::{Fault, List, NoMemory, Refusal};
use clf_tree::{Clafer, Goal, Model, Named, Rule, Typed, Within};
use std::alloc::Global;

fn rule_refusal(
    alloc: Global,
    clafers: &List<Clafer>,
    rule: &Rule,
) -> Result<Option<Refusal>, NoMemory>
    requires closed { IsTrue (is_closed clafers.now) }
    requires few { length clafers.now < 2 ^ 32 }
    ensures { IfOk result (λ found. found ≡ rule_refusal clafers.now rule.now) }
{
    let within = Within {
        this: rule.context,
        bound: List::new(alloc),
    };
    let body = part_of(alloc, clafers, &within, &rule.body)?;
    Ok(operand(clafers, Position::Truth, &body))
}

fn goal_refusal(
    alloc: Global,
    clafers: &List<Clafer>,
    goal: &Goal,
) -> Result<Option<Refusal>, NoMemory>
    requires closed { IsTrue (is_closed clafers.now) }
    requires few { length clafers.now < 2 ^ 32 }
    ensures { IfOk result (λ found. found ≡ goal_refusal clafers.now goal.now) }
{
    let within = Within {
        this: None,
        bound: List::new(alloc),
    };
    let body = part_of(alloc, clafers, &within, &goal.body)?;
    Ok(operand(clafers, Position::Number, &body))
}

fn rules_refusal(
    alloc: Global,
    clafers: &List<Clafer>,
    rules: &[Rule],
) -> Result<Option<Refusal>, NoMemory>
    requires closed { IsTrue (is_closed clafers.now) }
    requires few { length clafers.now < 2 ^ 32 }
    ensures { IfOk result (λ found. found ≡ rules_refusal clafers.now None rules.now) }
{
    let mut first = None;
    for rule in rules {
        first = first_of(first, rule_refusal(alloc, clafers, rule)?);
    }
    Ok(first)
}

fn goals_refusal(
    alloc: Global,
    clafers: &List<Clafer>,
    found: Option<Refusal>,
    goals: &[Goal],
) -> Result<Option<Refusal>, NoMemory>
    requires closed { IsTrue (is_closed clafers.now) }
    requires few { length clafers.now < 2 ^ 32 }
    ensures { IfOk result (λ first. first ≡ goals_refusal clafers.now found goals.now) }
{
    let mut first = found;
    for goal in goals {
        first = first_of(first, goal_refusal(alloc, clafers, goal)?);
    }
    Ok(first)
}

fn model_refusal(alloc: Global, model: &Model) -> Result<Option<Refusal>, NoMemory>
    requires closed { IsTrue (is_closed model.now.clafers) }
    requires few { length model.now.clafers < 2 ^ 32 }
    ensures { IfOk result (λ first. first ≡ model_refusal model.now) }
{
    let rules = rules_refusal(alloc, &model.clafers, model.rules.as_slice())?;
    let goals = goals_refusal(alloc, &model.clafers, rules, model.goals.as_slice())?;
    Ok(goals)
}

/// The same model, in which each expression is known to have a kind and each operand to fit its position.
///
/// It is refused by the earliest place of an operand that doesn't fit, and at one place by the smaller code: 70 where a truth
/// value is asked for, 71 and 73 where an integer is, 72 where nodes are, 74 at the sign of two sets of nodes that share no
/// clafer, 75 where the nodes of `dref` have no single reference. Each part of the model is visited once.
pub fn check(alloc: Global, named: Named) -> Result<Typed, Fault>
    requires few { length named.clafers < 2 ^ 32 }
    ensures same { IfOk result (λ typed. typed ≡ named) }
    ensures accepted { OnOk result (model_refusal named ≡ None) }
    ensures cause { IfErr result (λ fault. Explains named fault) }
{
    match model_refusal(alloc, named.model())? {
        Some(refusal) => Err(Fault::Refused(refusal)),
        None => Ok(Typed::new(named)),
    }
}
