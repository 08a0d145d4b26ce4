//! The rules and goals of a model with their names looked up.

ghost use Rattle.std.specs.Prelude.{◌≡◌, ◌<◌, ◌^◌, None, length, map, IfOk, IfErr, OnOk, IsTrue};
ghost use Rattle.std.specs.List.{filter_map, list_all};
ghost use Rattle.clf_tree.specs.Hierarchy.{is_below, is_closed};
ghost use Rattle.clf_tree.specs.Named.{each, follows_parent};
ghost use Rattle.refusal_order.specs.Order.{with_refusals, first_refusal};
ghost use Rattle.name_tables.specs.Tables.{IsTableOf};
ghost use Rattle.expression_names.specs.Models as spec;
ghost use Rattle.expression_names.specs.Models.{rule_tree, goal_tree, looked_rule, looked_goal, rule_refusal, goal_refusal, name_refusals, Explains};

use crate::expression::looked_up;
use crate::looked::sooner;
use crate::names::Known;
use crate::scope::Scope;
use clf_base::{Fault, List, NoMemory, Refusal};
use clf_tree::{Goal, Model, Rule, Within};
use name_tables::NameTable;
use std::alloc::Global;

/// The rules and goals of a model with their names looked up.
#[derive(Drop)]
pub struct Names {
    pub rules: List<Rule>,
    pub goals: List<Goal>,
}

#[derive(Drop)]
struct LookedRule {
    rule: Rule,
    refused: Option<Refusal>,
}

#[derive(Drop)]
struct LookedRules {
    rules: List<Rule>,
    refused: Option<Refusal>,
}

#[derive(Drop)]
struct LookedGoal {
    goal: Goal,
    refused: Option<Refusal>,
}

#[derive(Drop)]
struct LookedGoals {
    goals: List<Goal>,
    refused: Option<Refusal>,
}

fn from(alloc: Global, context: Option<u32>) -> Scope
    ensures { result ≡ spec.from context }
{
    Scope {
        names: List::new(alloc),
        within: Within {
            this: context,
            bound: List::new(alloc),
        },
    }
}

fn look_up_rule(
    alloc: Global,
    model: &Model,
    table: &NameTable,
    rule: &Rule,
) -> Result<LookedRule, NoMemory>
    requires context_in { IsTrue (is_below (length model.now.clafers) rule.now.context) }
    requires closed { IsTrue (is_closed model.now.clafers) }
    requires parents_first { IsTrue (each model.now.clafers (follows_parent model.now.clafers)) }
    requires few { length model.now.clafers < 2 ^ 32 }
    requires table { IsTableOf model.now.clafers table.now }
    ensures rule { IfOk result (λ l. rule_tree l.rule ≡ looked_rule model.now.clafers rule.now) }
    ensures refused { IfOk result (λ l. l.refused ≡ rule_refusal model.now.clafers rule.now) }
{
    let scope = from(alloc, rule.context);
    let known = Known { model, table };
    let looked = looked_up(alloc, &known, &scope, &rule.body)?;
    Ok(LookedRule {
        rule: Rule {
            context: rule.context,
            body: looked.expr.into_inner(),
        },
        refused: looked.refused,
    })
}

#[tactic(auto, using(crate::proofs::Going::going_steps))]
fn look_up_rules(
    alloc: Global,
    model: &Model,
    table: &NameTable,
    rules: &[Rule],
) -> Result<LookedRules, NoMemory>
    requires contexts_in { IsTrue (list_all (λ r. is_below (length model.now.clafers) r.context) rules.now) }
    requires closed { IsTrue (is_closed model.now.clafers) }
    requires parents_first { IsTrue (each model.now.clafers (follows_parent model.now.clafers)) }
    requires few { length model.now.clafers < 2 ^ 32 }
    requires table { IsTableOf model.now.clafers table.now }
    ensures rules { IfOk result (λ l. map rule_tree l.rules ≡ map (looked_rule model.now.clafers) rules.now) }
    ensures refused { IfOk result (λ l. l.refused ≡ first_refusal (filter_map (rule_refusal model.now.clafers) rules.now)) }
{
    let mut all = List::new(alloc);
    let mut refused = None;
    for rule in rules {
        let looked = look_up_rule(alloc, model, table, rule)?;
        refused = sooner(refused, looked.refused);
        all.push(looked.rule)?;
    }
    Ok(LookedRules {
        rules: all,
        refused,
    })
}

fn look_up_goal(
    alloc: Global,
    model: &Model,
    table: &NameTable,
    goal: &Goal,
) -> Result<LookedGoal, NoMemory>
    requires closed { IsTrue (is_closed model.now.clafers) }
    requires parents_first { IsTrue (each model.now.clafers (follows_parent model.now.clafers)) }
    requires few { length model.now.clafers < 2 ^ 32 }
    requires table { IsTableOf model.now.clafers table.now }
    ensures goal { IfOk result (λ l. goal_tree l.goal ≡ looked_goal model.now.clafers goal.now) }
    ensures refused { IfOk result (λ l. l.refused ≡ goal_refusal model.now.clafers goal.now) }
{
    let scope = from(alloc, None);
    let known = Known { model, table };
    let looked = looked_up(alloc, &known, &scope, &goal.body)?;
    Ok(LookedGoal {
        goal: Goal {
            at: goal.at,
            least: goal.least,
            body: looked.expr.into_inner(),
        },
        refused: looked.refused,
    })
}

#[tactic(auto, using(crate::proofs::Going::going_steps))]
fn look_up_goals(
    alloc: Global,
    model: &Model,
    table: &NameTable,
    found: Option<Refusal>,
    goals: &[Goal],
) -> Result<LookedGoals, NoMemory>
    requires closed { IsTrue (is_closed model.now.clafers) }
    requires parents_first { IsTrue (each model.now.clafers (follows_parent model.now.clafers)) }
    requires few { length model.now.clafers < 2 ^ 32 }
    requires table { IsTableOf model.now.clafers table.now }
    ensures goals { IfOk result (λ l. map goal_tree l.goals ≡ map (looked_goal model.now.clafers) goals.now) }
    ensures refused { IfOk result (λ l. l.refused ≡ with_refusals found (filter_map (goal_refusal model.now.clafers) goals.now)) }
{
    let mut all = List::new(alloc);
    let mut refused = found;
    for goal in goals {
        let looked = look_up_goal(alloc, model, table, goal)?;
        refused = sooner(refused, looked.refused);
        all.push(looked.goal)?;
    }
    Ok(LookedGoals {
        goals: all,
        refused,
    })
}

/// The rules and goals with their names looked up among the clafers of a model, whose own rules and goals are not read.
///
/// They are refused by the earliest place at which a name is not found, with 62, or is ambiguous, with 63, or at which there is no
/// `this` or no parent, with 66. Each part of the expressions is visited once; the table of names is made
/// once, and then a name costs what [`name_tables::meaning`] costs.
#[tactic(auto, using(crate::proofs::Going::going_steps), unfolding(crate::specs::Models::name_refusals))]
pub fn look_up_names(
    alloc: Global,
    model: &Model,
    rules: &List<Rule>,
    goals: &List<Goal>,
) -> Result<Names, Fault>
    requires contexts_in { IsTrue (list_all (λ r. is_below (length model.now.clafers) r.context) rules.now) }
    requires closed { IsTrue (is_closed model.now.clafers) }
    requires parents_first { IsTrue (each model.now.clafers (follows_parent model.now.clafers)) }
    requires few { length model.now.clafers < 2 ^ 32 }
    ensures accepted { OnOk result (first_refusal (name_refusals model.now.clafers rules.now goals.now) ≡ None) }
    ensures rules { IfOk result (λ names. map rule_tree names.rules ≡ map (looked_rule model.now.clafers) rules.now) }
    ensures goals { IfOk result (λ names. map goal_tree names.goals ≡ map (looked_goal model.now.clafers) goals.now) }
    ensures cause { IfErr result (λ fault. Explains model.now.clafers rules.now goals.now fault) }
{
    let table = NameTable::build(alloc, &model.clafers)?;
    let looked = look_up_rules(alloc, model, &table, rules.as_slice())?;
    let more = look_up_goals(alloc, model, &table, looked.refused, goals.as_slice())?;
    match more.refused {
        Some(refusal) => Err(Fault::Refused(refusal)),
        None => Ok(Names {
            rules: looked.rules,
            goals: more.goals,
        }),
    }
}
