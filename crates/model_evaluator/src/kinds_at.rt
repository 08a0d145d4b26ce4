//! What depends on the kinds of expressions.

ghost use Rattle.std.specs.Prelude.{◌≡◌, ◌<◌, ◌^◌, [], length, IfOk, IsTrue};
ghost use Rattle.clf_tree.specs.Hierarchy.{is_closed};
ghost use Rattle.clf_tree.specs.Kinds.{bind_kinds, clafers_of, kind, reading_of};
ghost use Rattle.clf_tree.specs.Meaning as meaning;
ghost use Rattle.clf_tree.specs.Meaning.{dref, nodes, taken_as};
ghost use Rattle.clf_tree.specs.Tree.{tree};
ghost use Rattle.model_evaluator.specs.Values.{meant};

use crate::node_sets::targets;
use crate::value::{Value, is_true, nodes, number};
use clf_base::{List, NoMemory};
use clf_tree::{Expr, Kind, Model, Node, Reading, Within, clafers_of, kind_of, reading_of};
use instance_tables::Tables;
use std::alloc::Global;

/// How the sides of a comparison are read.
pub fn reading_at(
    alloc: Global,
    model: &Model,
    within: &Within,
    left: &Expr,
    right: &Expr,
) -> Result<Option<Reading>, NoMemory>
    requires closed { IsTrue (is_closed model.now.clafers) }
    requires few { length model.now.clafers < 2 ^ 32 }
    ensures { IfOk result (λ r. r ≡ reading_of model.now.clafers (kind model.now.clafers (tree left.now) within.now) (kind model.now.clafers (tree right.now) within.now)) }
{
    let left = kind_of(alloc, model, within, left)?;
    let right = kind_of(alloc, model, within, right)?;
    reading_of(alloc, &model.clafers, &left, &right)
}

fn dref_as(
    alloc: Global,
    tables: &Tables,
    kind: Option<Kind>,
    from: List<Node>,
) -> Result<List<Node>, NoMemory>
    ensures { IfOk result (λ ns. ns ≡ dref [] tables.now.entries kind from) }
{
    match kind {
        Some(Kind::Numbers(_)) => Ok(from),
        _ => targets(alloc, tables, from.as_slice()),
    }
}

/// The value of a `dref` whose operand has the given value.
pub fn dref_at(
    alloc: Global,
    model: &Model,
    tables: &Tables,
    within: &Within,
    expr: &Expr,
    of: Value,
) -> Result<Value, NoMemory>
    requires closed { IsTrue (is_closed model.now.clafers) }
    requires few { length model.now.clafers < 2 ^ 32 }
    ensures { IfOk result (λ v. meant v ≡ meaning.Nodes (dref [] tables.now.entries (kind model.now.clafers (tree expr.now) within.now) (nodes (meant of)))) }
{
    let kind = kind_of(alloc, model, within, expr)?;
    Ok(Value::Nodes(dref_as(alloc, tables, kind, nodes(alloc, of))?))
}

fn taken_as(tables: &Tables, kind: &Option<Kind>, value: Value) -> Value
    ensures { meant result ≡ taken_as [] tables.now.entries kind.now (meant value) }
{
    match kind {
        Some(Kind::Truth) => Value::Truth(is_true(&value)),
        Some(Kind::Integer) => Value::Integer(number(tables, &value)),
        _ => value,
    }
}

/// The value of a choice whose branch has the given value.
pub fn choice_at(
    alloc: Global,
    model: &Model,
    tables: &Tables,
    within: &Within,
    expr: &Expr,
    branch: Value,
) -> Result<Value, NoMemory>
    requires closed { IsTrue (is_closed model.now.clafers) }
    requires few { length model.now.clafers < 2 ^ 32 }
    ensures { IfOk result (λ v. meant v ≡ taken_as [] tables.now.entries (kind model.now.clafers (tree expr.now) within.now) (meant branch)) }
{
    let kind = kind_of(alloc, model, within, expr)?;
    Ok(taken_as(tables, &kind, branch))
}

fn copies(alloc: Global, lists: &[List<u32>]) -> Result<List<List<u32>>, NoMemory>
    ensures { IfOk result (λ all. all ≡ lists.now) }
{
    let mut all = List::new(alloc);
    for list in lists {
        all.push(list.copy(alloc)?)?;
    }
    Ok(all)
}

fn bind_kinds(
    alloc: Global,
    within: &Within,
    ks: &List<u32>,
    names: usize,
) -> Result<Within, NoMemory>
    ensures { IfOk result (λ inner. inner ≡ bind_kinds ks.now names within.now) }
{
    let mut bound = copies(alloc, within.bound.as_slice())?;
    for _name in 0..names {
        bound.push(ks.copy(alloc)?)?;
    }
    Ok(Within {
        this: within.this,
        bound,
    })
}

/// The kinds within a quantifier of so many names.
pub fn within_quantifier(
    alloc: Global,
    model: &Model,
    within: &Within,
    over: &Expr,
    names: usize,
) -> Result<Within, NoMemory>
    requires closed { IsTrue (is_closed model.now.clafers) }
    requires few { length model.now.clafers < 2 ^ 32 }
    ensures { IfOk result (λ inner. inner ≡ bind_kinds (clafers_of (kind model.now.clafers (tree over.now) within.now)) names within.now) }
{
    let kind = kind_of(alloc, model, within, over)?;
    bind_kinds(alloc, within, &clafers_of(alloc, kind), names)
}
