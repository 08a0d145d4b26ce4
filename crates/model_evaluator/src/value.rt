//! Values of expressions.

ghost use Rattle.std.specs.Prelude.{◌≡◌, ◌^◌, ◌+ℤ◌, ◌-ℤ◌, ◌≤ℤ◌, IfOk, [], map, length, neg_ℤ, pos};
ghost use Rattle.clf_tree.specs.Meaning as meaning;
ghost use Rattle.clf_tree.specs.Meaning.{int_in, int_of, integers, is_true, nodes, number, total};
ghost use Rattle.model_evaluator.specs.Values.{meant};

use clf_base::{List, NoMemory};
use clf_tree::{Node, Target};
use instance_tables::Tables;
use std::alloc::Global;

/// A truth value, an integer, or nodes in the order of the model.
#[derive(Debug, Drop)]
pub enum Value {
    Truth(bool),
    Integer(i128),
    Nodes(List<Node>),
}

/// The value as a truth value: nodes are true where there is one.
pub fn is_true(value: &Value) -> bool
    ensures { result ≡ is_true (meant value.now) }
{
    match value {
        Value::Truth(truth) => *truth,
        Value::Integer(_) => false,
        Value::Nodes(nodes) => nodes.len() != 0,
    }
}

/// The nodes of the value; other values have none.
pub fn nodes(alloc: Global, value: Value) -> List<Node>
    ensures { result ≡ nodes (meant value) }
{
    match value {
        Value::Nodes(nodes) => nodes,
        _ => List::new(alloc),
    }
}

/// How many nodes the value has.
pub fn count(value: &Value) -> usize
    ensures { result ≡ length (nodes (meant value.now)) }
{
    match value {
        Value::Nodes(nodes) => nodes.len(),
        _ => 0,
    }
}

/// The integer that a node refers to; 0 where it refers to none.
pub fn int_of(tables: &Tables, node: Node) -> i64
    ensures { result ≡ int_of [] tables.now.entries node }
{
    match tables.target_of(node) {
        Some(Target::Int(value)) => value,
        _ => 0,
    }
}

fn plus(sum: &i128, value: &i64) -> i128
    requires low { neg_ℤ (pos (2 ^ 126)) ≤ℤ sum.now }
    requires high { sum.now ≤ℤ pos (2 ^ 126) }
    ensures exact { result ≡ (sum.now +ℤ value.now) }
    ensures least { (sum.now -ℤ pos (2 ^ 63)) ≤ℤ result }
    ensures most { result ≤ℤ (sum.now +ℤ pos (2 ^ 63)) }
{
    *sum + *value as i128
}

fn with_int(tables: &Tables, sum: &i128, node: Node) -> i128
    requires low { neg_ℤ (pos (2 ^ 126)) ≤ℤ sum.now }
    requires high { sum.now ≤ℤ pos (2 ^ 126) }
    ensures exact { result ≡ (sum.now +ℤ int_of [] tables.now.entries node) }
    ensures least { (sum.now -ℤ pos (2 ^ 63)) ≤ℤ result }
    ensures most { result ≤ℤ (sum.now +ℤ pos (2 ^ 63)) }
{
    let value = int_of(tables, node);
    plus(sum, &value)
}

fn total(tables: &Tables, nodes: &[Node]) -> i128
    ensures { result ≡ total (map (int_of [] tables.now.entries) nodes.now) }
{
    let mut sum: i128 = 0;
    for node in nodes {
        sum = with_int(tables, &sum, *node);
    }
    sum
}

/// The integer that the value stands for: of nodes the sum of the integers that they refer to, one for each node.
pub fn number(tables: &Tables, value: &Value) -> i128
    ensures { result ≡ number [] tables.now.entries (meant value.now) }
{
    match value {
        Value::Truth(_) => 0,
        Value::Integer(number) => *number,
        Value::Nodes(nodes) => total(tables, nodes.as_slice()),
    }
}

fn ints_of(alloc: Global, tables: &Tables, nodes: &[Node]) -> Result<List<i128>, NoMemory>
    ensures { IfOk result (λ ints. ints ≡ map (int_of [] tables.now.entries) nodes.now) }
{
    let mut ints = List::new(alloc);
    for node in nodes {
        ints.push(int_of(tables, *node) as i128)?;
    }
    Ok(ints)
}

/// The integers of the value: of nodes those that they refer to.
pub fn integers(alloc: Global, tables: &Tables, value: &Value) -> Result<List<i128>, NoMemory>
    ensures { IfOk result (λ ints. ints ≡ integers [] tables.now.entries (meant value.now)) }
{
    match value {
        Value::Truth(_) => Ok(List::new(alloc)),
        Value::Integer(number) => List::from_slice(alloc, &[*number]),
        Value::Nodes(nodes) => ints_of(alloc, tables, nodes.as_slice()),
    }
}
