//! The weights of constraints and goals, and the first of their integers that is too wide.

ghost use Rattle.std.specs.Prelude.{◌≡◌, ◌<◌, ◌^◌, None, not, length, IfOk, IsTrue};
ghost use Rattle.clf_tree.specs.Hierarchy.{is_closed};
ghost use Rattle.clf_tree.specs.Named.{each, inherits_itself};
ghost use Rattle.int_widths.specs.Narrow.{within_context};
ghost use Rattle.int_widths.specs.Weight.{rule_instances};
ghost use Rattle.model_weight.specs.Capped.{total};
ghost use Rattle.model_weight.specs.Clafers as spec;

use crate::clafers::clafers_weight;
use crate::expressions::walk;
use crate::numbers::{plus, times};
use crate::parts::{counted, first_of, tested, with_own};
use crate::rooms::Rooms;
use clf_base::{List, NoMemory, Refusal};
use clf_tree::{Goal, Model, Rule, Scopes, Within};
use std::alloc::Global;

/// A weight, and the first integer that needs too many bits.
#[derive(Drop)]
pub struct Known {
    pub weight: u64,
    pub wide: Option<Refusal>,
}

fn rule_instances(rooms: &Rooms, context: Option<u32>) -> u64
    ensures { result ≡ rule_instances rooms.now.clafers.now rooms.now.scopes.now context }
{
    match context {
        Some(clafer) => rooms.of(clafer),
        None => 1,
    }
}

fn rule_known(alloc: Global, rooms: &Rooms, rule: &Rule) -> Result<Known, NoMemory>
    ensures weight { IfOk result (λ r. r.weight ≡ spec.light_rule rooms.now.clafers.now rooms.now.scopes.now rule.now) }
    ensures wide { IfOk result (λ r. r.wide ≡ spec.rule_wide rooms.now.clafers.now rooms.now.scopes.now rule.now) }
{
    let within = Within {
        this: rule.context,
        bound: List::new(alloc),
    };
    let instances = rule_instances(rooms, rule.context);
    let body = walk(alloc, rooms, &within, &rule.body)?;
    let weight = plus(times(instances, plus(tested(rooms.scopes, &body), 8)), 8);
    Ok(Known {
        weight,
        wide: body.wide,
    })
}

fn goal_known(alloc: Global, rooms: &Rooms, goal: &Goal) -> Result<Known, NoMemory>
    ensures weight { IfOk result (λ r. r.weight ≡ spec.light_goal rooms.now.clafers.now rooms.now.scopes.now goal.now) }
    ensures wide { IfOk result (λ r. r.wide ≡ spec.goal_wide rooms.now.clafers.now rooms.now.scopes.now goal.now) }
{
    let within = Within {
        this: None,
        bound: List::new(alloc),
    };
    let body = walk(alloc, rooms, &within, &goal.body)?;
    let weight = plus(counted(rooms.scopes, &body), 8);
    Ok(Known {
        weight,
        wide: with_own(&body),
    })
}

fn rules_known(alloc: Global, rooms: &Rooms, rules: &[Rule]) -> Result<Known, NoMemory>
    ensures weight { IfOk result (λ r. r.weight ≡ total (spec.light_rule rooms.now.clafers.now rooms.now.scopes.now) 0 rules.now) }
    ensures wide { IfOk result (λ r. r.wide ≡ spec.rules_wide rooms.now.clafers.now rooms.now.scopes.now None rules.now) }
{
    let mut weight: u64 = 0;
    let mut wide = None;
    for rule in rules {
        let known = rule_known(alloc, rooms, rule)?;
        weight = plus(weight, known.weight);
        wide = first_of(wide, known.wide);
    }
    Ok(Known { weight, wide })
}

fn goals_known(
    alloc: Global,
    rooms: &Rooms,
    found: Option<Refusal>,
    goals: &[Goal],
) -> Result<Known, NoMemory>
    ensures weight { IfOk result (λ r. r.weight ≡ total (spec.light_goal rooms.now.clafers.now rooms.now.scopes.now) 0 goals.now) }
    ensures wide { IfOk result (λ r. r.wide ≡ spec.goals_wide rooms.now.clafers.now rooms.now.scopes.now found goals.now) }
{
    let mut weight: u64 = 0;
    let mut wide = found;
    for goal in goals {
        let known = goal_known(alloc, rooms, goal)?;
        weight = plus(weight, known.weight);
        wide = first_of(wide, known.wide);
    }
    Ok(Known { weight, wide })
}

/// The weight of a model, and the first of its integers that needs too many bits.
pub fn model_known(alloc: Global, model: &Model, scopes: &Scopes) -> Result<Known, NoMemory>
    requires closed { IsTrue (is_closed model.now.clafers) }
    requires acyclic { IsTrue (each model.now.clafers (λ c. not (inherits_itself model.now.clafers c))) }
    requires few { length model.now.clafers < 2 ^ 32 }
    ensures weight { IfOk result (λ r. r.weight ≡ spec.light_model scopes.now model.now) }
    ensures wide { IfOk result (λ r. r.wide ≡ spec.wide_model scopes.now model.now) }
{
    let rooms = Rooms::new(alloc, &model.clafers, scopes)?;
    let rules = rules_known(alloc, &rooms, model.rules.as_slice())?;
    let goals = goals_known(alloc, &rooms, rules.wide, model.goals.as_slice())?;
    let clafers = clafers_weight(&rooms);
    Ok(Known {
        weight: plus(plus(plus(8, clafers), rules.weight), goals.weight),
        wide: goals.wide,
    })
}
