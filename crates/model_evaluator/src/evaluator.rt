//! Whether an instance satisfies a model, and the vector of its goals.

ghost use Rattle.std.specs.Prelude.{◌≡◌, ◌<◌, ◌≤◌, ◌^◌, ◌||◌, not, [], map, length, sum, IfOk, IsTrue, None, Some};
ghost use Rattle.std.specs.List.{list_all};
ghost use Rattle.clf_tree.specs.Hierarchy.{is_a, is_closed};
ghost use Rattle.clf_tree.specs.Meaning.{is_true, number};
ghost use Rattle.clf_tree.specs.Nodes.{is_tree, is_within};
ghost use Rattle.clf_tree.specs.Satisfies.{at_instance, holds, laws_of, outside, satisfies, vector_of};
ghost use Rattle.clf_tree.specs.Shape.{has_shape, instances};
ghost use Rattle.clf_tree.specs.Tree.{tree};
ghost use Rattle.model_evaluator.specs.Computed.{computed, computed_holds};
ghost use Rattle.int_widths.specs.Narrow.{is_narrow_model};

use crate::binding::Place;
use crate::evaluation::value_of;
use crate::value::{is_true, number};
use clf_base::{List, NoMemory};
use clf_tree::{
    Entry, Expr, Goal, Instance, Model, Node, Rule, Scopes, Typed, Vector, Within, intervals_hold,
    kinds_hold,
};
use instance_shape::{has_shape, is_a, is_tree, is_within};
use instance_tables::Tables;
use std::alloc::Global;

/// Whether a constraint is true at top level.
fn holds_outside(
    alloc: Global,
    model: &Model,
    tables: &Tables,
    body: &Expr,
) -> Result<bool, NoMemory>
    requires closed { IsTrue (is_closed model.now.clafers) }
    requires few { length model.now.clafers < 2 ^ 32 }
    ensures { IfOk result (λ b. b ≡ is_true (computed model.now.clafers tables.now.entries (tree body.now) outside)) }
{
    let within = Within {
        this: None,
        bound: List::new(alloc),
    };
    let place = Place {
        this: None,
        bound: List::new(alloc),
    };
    let value = value_of(alloc, model, tables, &within, &place, body)?;
    Ok(is_true(&value))
}

/// Whether a constraint is true at a node of its context.
fn holds_at(
    alloc: Global,
    model: &Model,
    tables: &Tables,
    within: &Within,
    context: u32,
    node: Node,
    body: &Expr,
) -> Result<bool, NoMemory>
    requires closed { IsTrue (is_closed model.now.clafers) }
    requires few { length model.now.clafers < 2 ^ 32 }
    requires this { within.now.this ≡ Some context }
    requires bound { within.now.bound ≡ [] }
    ensures { IfOk result (λ b. b ≡ is_true (computed model.now.clafers tables.now.entries (tree body.now) (at_instance context node))) }
{
    let place = Place {
        this: Some(node),
        bound: List::new(alloc),
    };
    let value = value_of(alloc, model, tables, within, &place, body)?;
    Ok(is_true(&value))
}

/// Whether an entry is no instance of the context, or the constraint is true at it.
fn passes(
    alloc: Global,
    model: &Model,
    tables: &Tables,
    within: &Within,
    context: u32,
    entry: &Entry,
    body: &Expr,
) -> Result<bool, NoMemory>
    requires closed { IsTrue (is_closed model.now.clafers) }
    requires few { length model.now.clafers < 2 ^ 32 }
    requires this { within.now.this ≡ Some context }
    requires bound { within.now.bound ≡ [] }
    ensures { IfOk result (λ b. b ≡ (not (is_a model.now.clafers entry.now.node.clafer context) || is_true (computed model.now.clafers tables.now.entries (tree body.now) (at_instance context entry.now.node)))) }
{
    if !is_a(&model.clafers, entry.node.clafer, context) {
        return Ok(true);
    }
    let holds = holds_at(alloc, model, tables, within, context, entry.node, body)?;
    Ok(holds)
}

fn all_pass(
    alloc: Global,
    model: &Model,
    tables: &Tables,
    within: &Within,
    context: u32,
    entries: &[Entry],
    body: &Expr,
) -> Result<bool, NoMemory>
    requires closed { IsTrue (is_closed model.now.clafers) }
    requires few { length model.now.clafers < 2 ^ 32 }
    requires this { within.now.this ≡ Some context }
    requires bound { within.now.bound ≡ [] }
    ensures { IfOk result (λ b. b ≡ list_all (λ x. not (is_a model.now.clafers x.node.clafer context) || is_true (computed model.now.clafers tables.now.entries (tree body.now) (at_instance context x.node))) entries.now) }
{
    for entry in entries {
        if !passes(alloc, model, tables, within, context, entry, body)? {
            return Ok(false);
        }
    }
    Ok(true)
}

/// Whether a constraint is true at each instance of its context.
fn holds_for_each(
    alloc: Global,
    model: &Model,
    tables: &Tables,
    context: u32,
    body: &Expr,
) -> Result<bool, NoMemory>
    requires closed { IsTrue (is_closed model.now.clafers) }
    requires few { length model.now.clafers < 2 ^ 32 }
    ensures { IfOk result (λ b. b ≡ list_all (λ x. is_true (computed model.now.clafers tables.now.entries (tree body.now) (at_instance context x.node))) (instances model.now.clafers tables.now.entries context)) }
{
    let within = Within {
        this: Some(context),
        bound: List::new(alloc),
    };
    let all = all_pass(
        alloc,
        model,
        tables,
        &within,
        context,
        tables.entries.as_slice(),
        body,
    )?;
    Ok(all)
}

fn rule_holds(alloc: Global, model: &Model, tables: &Tables, rule: &Rule) -> Result<bool, NoMemory>
    requires closed { IsTrue (is_closed model.now.clafers) }
    requires few { length model.now.clafers < 2 ^ 32 }
    ensures { IfOk result (λ b. b ≡ computed_holds model.now.clafers tables.now.entries (rule.now.context, tree rule.now.body)) }
{
    match rule.context {
        None => {
            let holds = holds_outside(alloc, model, tables, &rule.body)?;
            Ok(holds)
        }
        Some(context) => {
            let holds = holds_for_each(alloc, model, tables, context, &rule.body)?;
            Ok(holds)
        }
    }
}

pub(crate) fn rules_hold(
    alloc: Global,
    model: &Model,
    tables: &Tables,
    rules: &[Rule],
) -> Result<bool, NoMemory>
    requires closed { IsTrue (is_closed model.now.clafers) }
    requires few { length model.now.clafers < 2 ^ 32 }
    ensures { IfOk result (λ b. b ≡ list_all (λ r. computed_holds model.now.clafers tables.now.entries (r.context, tree r.body)) rules.now) }
{
    for rule in rules {
        if !rule_holds(alloc, model, tables, rule)? {
            return Ok(false);
        }
    }
    Ok(true)
}

/// Whether each constraint holds in an instance within the scopes that is a tree of the right shape.
fn laws_hold(
    alloc: Global,
    model: &Typed,
    scopes: &Scopes,
    tables: &Tables,
) -> Result<bool, NoMemory>
    requires few { length model.now.clafers < 2 ^ 32 }
    requires narrow { IsTrue (is_narrow_model scopes.now model.now) }
    requires within { IsTrue (is_within model.now.clafers scopes.now tables.now.entries) }
    requires trees { IsTrue (is_tree model.now.clafers tables.now.entries) }
    requires shape { IsTrue (has_shape model.now.clafers scopes.now tables.now.entries) }
    ensures { IfOk result (λ b. b ≡ list_all (holds model.now.clafers tables.now.entries) (laws_of model.now)) }
{
    intervals_hold();
    kinds_hold();
    let plan = model.model();
    let all = rules_hold(alloc, plan, tables, plan.rules.as_slice())?;
    Ok(all)
}

/// Whether an instance satisfies a model: it is within the scopes, a tree, of the shape that the model asks for, and each constraint
/// holds, at top level or at each instance of its context.
///
/// It requires that the integers of the model need no more than 62 bits, as in a model whose weight is known.
///
/// The parents of each entry are followed for at most as many steps as there are entries. The shape costs a walk over the entries for
/// each clafer; an expression costs, for each binding of its variables and each node of its tree, at most some walks over the entries
/// and the clafers.
pub fn holds(
    alloc: Global,
    model: &Typed,
    scopes: &Scopes,
    instance: &Instance,
) -> Result<bool, NoMemory>
    requires few { length model.now.clafers < 2 ^ 32 }
    requires room { sum scopes.now.of ≤ 2048 }
    requires narrow { IsTrue (is_narrow_model scopes.now model.now) }
    ensures { IfOk result (λ b. b ≡ satisfies model.now scopes.now instance.now.entries) }
{
    let plan = model.model();
    if !is_within(&plan.clafers, scopes, instance) {
        return Ok(false);
    }
    let tables = Tables::build(alloc, plan, scopes, instance)?;
    if !is_tree(&plan.clafers, &tables) {
        return Ok(false);
    }
    if !has_shape(&plan.clafers, scopes, &tables) {
        return Ok(false);
    }
    let all = laws_hold(alloc, model, scopes, &tables)?;
    Ok(all)
}

fn goal_value(alloc: Global, model: &Model, tables: &Tables, body: &Expr) -> Result<i128, NoMemory>
    requires closed { IsTrue (is_closed model.now.clafers) }
    requires few { length model.now.clafers < 2 ^ 32 }
    ensures { IfOk result (λ z. z ≡ number [] tables.now.entries (computed model.now.clafers tables.now.entries (tree body.now) outside)) }
{
    let within = Within {
        this: None,
        bound: List::new(alloc),
    };
    let place = Place {
        this: None,
        bound: List::new(alloc),
    };
    let value = value_of(alloc, model, tables, &within, &place, body)?;
    Ok(number(tables, &value))
}

pub(crate) fn goal_values(
    alloc: Global,
    model: &Model,
    tables: &Tables,
    goals: &[Goal],
) -> Result<List<i128>, NoMemory>
    requires closed { IsTrue (is_closed model.now.clafers) }
    requires few { length model.now.clafers < 2 ^ 32 }
    ensures { IfOk result (λ zs. zs ≡ map (λ g. number [] tables.now.entries (computed model.now.clafers tables.now.entries (tree g.body) outside)) goals.now) }
{
    let mut values = List::new(alloc);
    for goal in goals {
        values.push(goal_value(alloc, model, tables, &goal.body)?)?;
    }
    Ok(values)
}

fn goals_in(
    alloc: Global,
    model: &Typed,
    scopes: &Scopes,
    tables: &Tables,
) -> Result<List<i128>, NoMemory>
    requires few { length model.now.clafers < 2 ^ 32 }
    requires narrow { IsTrue (is_narrow_model scopes.now model.now) }
    requires within { IsTrue (is_within model.now.clafers scopes.now tables.now.entries) }
    requires trees { IsTrue (is_tree model.now.clafers tables.now.entries) }
    requires shape { IsTrue (has_shape model.now.clafers scopes.now tables.now.entries) }
    ensures { IfOk result (λ zs. zs ≡ vector_of model.now tables.now.entries) }
{
    intervals_hold();
    kinds_hold();
    let plan = model.model();
    let values = goal_values(alloc, plan, tables, plan.goals.as_slice())?;
    Ok(values)
}

/// The values of the goals, in their order, in an instance within the scopes that is a tree of the right shape.
///
/// It requires that the integers of the model need no more than 62 bits, as in a model whose weight is known.
pub fn vector(
    alloc: Global,
    model: &Typed,
    scopes: &Scopes,
    instance: &Instance,
) -> Result<Vector, NoMemory>
    requires few { length model.now.clafers < 2 ^ 32 }
    requires room { sum scopes.now.of ≤ 2048 }
    requires narrow { IsTrue (is_narrow_model scopes.now model.now) }
    requires within { IsTrue (is_within model.now.clafers scopes.now instance.now.entries) }
    requires trees { IsTrue (is_tree model.now.clafers instance.now.entries) }
    requires shape { IsTrue (has_shape model.now.clafers scopes.now instance.now.entries) }
    ensures { IfOk result (λ v. v.values ≡ vector_of model.now instance.now.entries) }
{
    let tables = Tables::build(alloc, model.model(), scopes, instance)?;
    let values = goals_in(alloc, model, scopes, &tables)?;
    Ok(Vector { values })
}
