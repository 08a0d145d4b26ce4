//! A model as relational expressions.

ghost use Rattle.std.specs.Prelude.{◌≡◌, ◌∷◌, [], ◌<◌, ◌^◌, false, map, length, IfOk, IsTrue};
ghost use Rattle.std.specs.Option.{option_map_or};
ghost use Rattle.clf_tree.specs.Hierarchy.{is_closed};
ghost use Rattle.clf_tree.specs.Tree.{tree};
ghost use Rattle.clf_tree.specs.Core as Core;
ghost use Rattle.clf_tree.specs.Core.{core};
ghost use Rattle.clf_tree.specs.declared.core_expr.Quantifier.TheVariants as quantifier;
ghost use Rattle.int_widths.specs.Narrow.{within_context};
ghost use Rattle.relational_core.specs.Lowered.{lowered_law, lowered_goal, every, instances_of};

use crate::clafer_lists::instances_of;
use crate::expressions::lower_expr;
use crate::node_forms::every;
use crate::places::Place;
use crate::sides::{counted, tested};
use clf_base::{List, NoMemory};
use clf_tree::{Clafer, CoreExpr, CoreModel, Goal, Model, Quantifier, Rule, Scopes, Within};
use sqlite_items::Boxed;
use std::alloc::Global;

fn copy_clafer(alloc: Global, clafer: &Clafer) -> Result<Clafer, NoMemory>
    ensures { IfOk result (λ copy. copy ≡ clafer.now) }
{
    let title = clafer.title.copy(alloc)?;
    Ok(Clafer {
        title,
        is_abstract: clafer.is_abstract,
        parent: clafer.parent,
        above: clafer.above,
        group: clafer.group,
        times: clafer.times,
        reference: clafer.reference,
    })
}

fn copy_clafers(alloc: Global, clafers: &List<Clafer>) -> Result<List<Clafer>, NoMemory>
    ensures { IfOk result (λ copies. copies ≡ clafers.now) }
{
    let mut copies = List::new(alloc);
    for clafer in clafers.as_slice() {
        copies.push(copy_clafer(alloc, clafer)?)?;
    }
    Ok(copies)
}

fn only(alloc: Global, clafer: u32) -> Result<List<u32>, NoMemory>
    ensures { IfOk result (λ list. list ≡ clafer ∷ []) }
{
    let mut list = List::new(alloc);
    list.push(clafer)?;
    Ok(list)
}

fn instances(
    alloc: Global,
    clafers: &List<Clafer>,
    scopes: &Scopes,
    clafer: u32,
) -> Result<List<List<u32>>, NoMemory>
    requires closed { IsTrue (is_closed clafers.now) }
    requires few { length clafers.now < 2 ^ 32 }
    ensures { IfOk result (λ lists. lists ≡ instances_of clafers.now scopes.now (clafer ∷ []) ∷ []) }
{
    let ks = only(alloc, clafer)?;
    let found = instances_of(alloc, clafers, scopes, &ks)?;
    let mut lists = List::new(alloc);
    lists.push(found)?;
    Ok(lists)
}

/// The place of an instance of a context, or of the top level.
fn place_of(
    alloc: Global,
    clafers: &List<Clafer>,
    scopes: &Scopes,
    context: Option<u32>,
) -> Result<Place, NoMemory>
    requires closed { IsTrue (is_closed clafers.now) }
    requires few { length clafers.now < 2 ^ 32 }
    ensures within { IfOk result (λ place. place.within ≡ within_context context) }
    ensures lists { IfOk result (λ place. place.lists ≡ option_map_or (λ c. instances_of clafers.now scopes.now (c ∷ []) ∷ []) context []) }
{
    let lists = match context {
        Some(clafer) => instances(alloc, clafers, scopes, clafer)?,
        None => List::new(alloc),
    };
    let within = Within {
        this: context,
        bound: List::new(alloc),
    };
    Ok(Place { within, lists })
}

fn for_each(
    alloc: Global,
    clafers: &List<Clafer>,
    scopes: &Scopes,
    context: u32,
    body: Boxed<CoreExpr>,
) -> Result<CoreExpr, NoMemory>
    requires closed { IsTrue (is_closed clafers.now) }
    requires few { length clafers.now < 2 ^ 32 }
    ensures { IfOk result (λ r. core r ≡ Core.Quant quantifier.All false 1 (every clafers.now scopes.now (context ∷ [])) (core body)) }
{
    let ks = only(alloc, context)?;
    let over = every(alloc, clafers, scopes, &ks)?;
    Ok(CoreExpr::Quant {
        word: Quantifier::All,
        disj: false,
        names: 1,
        over,
        body,
    })
}

fn lower_rule(
    alloc: Global,
    clafers: &List<Clafer>,
    scopes: &Scopes,
    rule: &Rule,
) -> Result<CoreExpr, NoMemory>
    requires closed { IsTrue (is_closed clafers.now) }
    requires few { length clafers.now < 2 ^ 32 }
    ensures { IfOk result (λ r. core r ≡ lowered_law clafers.now scopes.now (rule.now.context, tree rule.now.body)) }
{
    let place = place_of(alloc, clafers, scopes, rule.context)?;
    let body = tested(
        alloc,
        lower_expr(alloc, clafers, scopes, &place, &rule.body)?,
    )?;
    match rule.context {
        Some(context) => for_each(alloc, clafers, scopes, context, body),
        None => Ok(body.into_inner()),
    }
}

fn lower_goal(
    alloc: Global,
    clafers: &List<Clafer>,
    scopes: &Scopes,
    goal: &Goal,
) -> Result<CoreExpr, NoMemory>
    requires closed { IsTrue (is_closed clafers.now) }
    requires few { length clafers.now < 2 ^ 32 }
    ensures { IfOk result (λ r. core r ≡ lowered_goal clafers.now scopes.now (tree goal.now.body)) }
{
    let place = place_of(alloc, clafers, scopes, None)?;
    let side = lower_expr(alloc, clafers, scopes, &place, &goal.body)?;
    let number = counted(alloc, side)?;
    Ok(number.into_inner())
}

fn lower_rules(alloc: Global, model: &Model, scopes: &Scopes) -> Result<List<CoreExpr>, NoMemory>
    requires closed { IsTrue (is_closed model.now.clafers) }
    requires few { length model.now.clafers < 2 ^ 32 }
    ensures { IfOk result (λ rs. map core rs ≡ map (λ r. lowered_law model.now.clafers scopes.now (r.context, tree r.body)) model.now.rules) }
{
    let mut truths = List::new(alloc);
    for rule in model.rules.as_slice() {
        truths.push(lower_rule(alloc, &model.clafers, scopes, rule)?)?;
    }
    Ok(truths)
}

fn lower_goals(alloc: Global, model: &Model, scopes: &Scopes) -> Result<List<CoreExpr>, NoMemory>
    requires closed { IsTrue (is_closed model.now.clafers) }
    requires few { length model.now.clafers < 2 ^ 32 }
    ensures { IfOk result (λ rs. map core rs ≡ map (λ g. lowered_goal model.now.clafers scopes.now (tree g.body)) model.now.goals) }
{
    let mut goals = List::new(alloc);
    for goal in model.goals.as_slice() {
        goals.push(lower_goal(alloc, &model.clafers, scopes, goal)?)?;
    }
    Ok(goals)
}

/// The relational expressions of a model, form by form.
pub fn lower_all(alloc: Global, model: &Model, scopes: &Scopes) -> Result<CoreModel, NoMemory>
    requires closed { IsTrue (is_closed model.now.clafers) }
    requires few { length model.now.clafers < 2 ^ 32 }
    ensures clafers { IfOk result (λ r. r.clafers ≡ model.now.clafers) }
    ensures truths { IfOk result (λ r. map core r.truths ≡ map (λ x. lowered_law model.now.clafers scopes.now (x.context, tree x.body)) model.now.rules) }
    ensures goals { IfOk result (λ r. map core r.goals ≡ map (λ g. lowered_goal model.now.clafers scopes.now (tree g.body)) model.now.goals) }
{
    let clafers = copy_clafers(alloc, &model.clafers)?;
    let truths = lower_rules(alloc, model, scopes)?;
    let goals = lower_goals(alloc, model, scopes)?;
    Ok(CoreModel {
        clafers,
        truths,
        goals,
    })
}
