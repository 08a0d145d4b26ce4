//! Forms whose parts are evaluated.

ghost use Rattle.std.specs.Prelude.{◌≡◌, ◌<◌, ◌^◌, [], not, length, IfOk, IsTrue};
ghost use Rattle.std.specs.List.{filter};
ghost use Rattle.clf_tree.specs.Hierarchy.{is_closed};
ghost use Rattle.clf_tree.specs.Kinds.{kind, reading_of};
ghost use Rattle.clf_tree.specs.Meaning as meaning;
ghost use Rattle.clf_tree.specs.Meaning.{equal, nodes, parents, part, through};
ghost use Rattle.clf_tree.specs.Nodes.{has_node};
ghost use Rattle.clf_tree.specs.Tree.{tree};
ghost use Rattle.model_evaluator.specs.Parts.{joined, stepped};
ghost use Rattle.model_evaluator.specs.Values.{meant};

use crate::comparisons::{equal, part};
use crate::kinds_at::reading_at;
use crate::node_sets::{children, meet, minus, parents, through, union};
use crate::value::{Value, nodes};
use clf_base::{List, NoMemory};
use clf_tree::{Clafer, Expr, Model, Within};
use instance_tables::Tables;
use std::alloc::Global;

#[tactic(auto, unfolding(crate::specs::Parts::stepped))]
pub fn step_from(
    alloc: Global,
    clafers: &List<Clafer>,
    tables: &Tables,
    into: &List<u32>,
    follow: bool,
    of: Value,
) -> Result<Value, NoMemory>
    requires closed { IsTrue (is_closed clafers.now) }
    ensures { IfOk result (λ v. meant v ≡ meaning.Nodes (stepped clafers.now tables.now.entries into.now (through [] tables.now.entries follow (nodes (meant of))))) }
{
    let from = through(alloc, tables, follow, nodes(alloc, of))?;
    Ok(Value::Nodes(children(alloc, clafers, tables, into, from.as_slice())?))
}

pub fn parents_of(alloc: Global, tables: &Tables, of: Value) -> Result<Value, NoMemory>
    ensures { IfOk result (λ v. meant v ≡ meaning.Nodes (parents [] tables.now.entries (nodes (meant of)))) }
{
    let of = nodes(alloc, of);
    Ok(Value::Nodes(parents(alloc, tables, of.as_slice())?))
}

#[tactic(auto, unfolding(crate::specs::Parts::joined))]
pub fn union_of(
    alloc: Global,
    tables: &Tables,
    left: Value,
    right: Value,
) -> Result<Value, NoMemory>
    ensures { IfOk result (λ v. meant v ≡ meaning.Nodes (joined tables.now.entries (nodes (meant left)) (nodes (meant right)))) }
{
    let left = nodes(alloc, left);
    let right = nodes(alloc, right);
    Ok(Value::Nodes(union(alloc, tables, left.as_slice(), right.as_slice())?))
}

pub fn minus_of(
    alloc: Global,
    tables: &Tables,
    left: Value,
    right: Value,
) -> Result<Value, NoMemory>
    ensures { IfOk result (λ v. meant v ≡ meaning.Nodes (filter (λ n. not (has_node (nodes (meant right)) n)) (nodes (meant left)))) }
{
    let left = nodes(alloc, left);
    let right = nodes(alloc, right);
    Ok(Value::Nodes(minus(alloc, tables, left.as_slice(), right.as_slice())?))
}

pub fn meet_of(alloc: Global, tables: &Tables, left: Value, right: Value) -> Result<Value, NoMemory>
    ensures { IfOk result (λ v. meant v ≡ meaning.Nodes (filter (has_node (nodes (meant right))) (nodes (meant left)))) }
{
    let left = nodes(alloc, left);
    let right = nodes(alloc, right);
    Ok(Value::Nodes(meet(alloc, tables, left.as_slice(), right.as_slice())?))
}

/// Whether the values of two expressions are the same set.
pub fn equal_at(
    alloc: Global,
    model: &Model,
    tables: &Tables,
    within: &Within,
    a: &Expr,
    b: &Expr,
    left: Value,
    right: Value,
) -> Result<Value, NoMemory>
    requires closed { IsTrue (is_closed model.now.clafers) }
    requires few { length model.now.clafers < 2 ^ 32 }
    ensures { IfOk result (λ v. meant v ≡ meaning.Truth (equal [] tables.now.entries (reading_of model.now.clafers (kind model.now.clafers (tree a.now) within.now) (kind model.now.clafers (tree b.now) within.now)) (meant left) (meant right))) }
{
    let reading = reading_at(alloc, model, within, a, b)?;
    Ok(Value::Truth(equal(alloc, tables, reading, left, right)?))
}

/// Whether the value of one expression is a part of that of another.
pub fn part_at(
    alloc: Global,
    model: &Model,
    tables: &Tables,
    within: &Within,
    a: &Expr,
    b: &Expr,
    left: Value,
    right: Value,
) -> Result<Value, NoMemory>
    requires closed { IsTrue (is_closed model.now.clafers) }
    requires few { length model.now.clafers < 2 ^ 32 }
    ensures { IfOk result (λ v. meant v ≡ meaning.Truth (part [] tables.now.entries (reading_of model.now.clafers (kind model.now.clafers (tree a.now) within.now) (kind model.now.clafers (tree b.now) within.now)) (meant left) (meant right))) }
{
    let reading = reading_at(alloc, model, within, a, b)?;
    Ok(Value::Truth(part(alloc, tables, reading, left, right)?))
}
