//! `=` and `in`: whether two values are the same set, and whether one is a part of the other.

ghost use Rattle.std.specs.Prelude.{◌≡◌, [], IfOk};
ghost use Rattle.std.specs.List.{list_any};
ghost use Rattle.std.specs.Ordering.{int_eq};
ghost use Rattle.clf_tree.specs.Meaning.{all_in, equal, integers, nodes, part, through};
ghost use Rattle.model_evaluator.specs.Parts.{same_nodes};
ghost use Rattle.model_evaluator.specs.Values.{meant};

use crate::node_sets::{is_part, through};
use crate::value::{Value, integers, nodes};
use clf_base::{List, NoMemory};
use clf_tree::{Node, Reading};
use instance_tables::Tables;
use std::alloc::Global;

fn is_among(number: &i128, others: &[i128]) -> bool
    ensures { result ≡ list_any (int_eq number.now) others.now }
{
    others.iter().any(|other| *number == *other)
}

fn are_among(left: &[i128], right: &[i128]) -> bool
    ensures { result ≡ all_in int_eq left.now right.now }
{
    left.iter().all(|number| is_among(number, right))
}

#[tactic(auto, unfolding(crate::specs::Parts::same_nodes))]
fn are_one_set(
    alloc: Global,
    tables: &Tables,
    left: &List<Node>,
    right: &List<Node>,
) -> Result<bool, NoMemory>
    ensures { IfOk result (λ b. b ≡ same_nodes left.now right.now) }
{
    if !is_part(alloc, tables, left.as_slice(), right.as_slice())? {
        return Ok(false);
    }
    is_part(alloc, tables, right.as_slice(), left.as_slice())
}

fn equal_nodes(
    alloc: Global,
    tables: &Tables,
    left_dref: bool,
    right_dref: bool,
    left: Value,
    right: Value,
) -> Result<bool, NoMemory>
    ensures { IfOk result (λ b. b ≡ same_nodes (through [] tables.now.entries left_dref (nodes (meant left))) (through [] tables.now.entries right_dref (nodes (meant right)))) }
{
    let left = through(alloc, tables, left_dref, nodes(alloc, left))?;
    let right = through(alloc, tables, right_dref, nodes(alloc, right))?;
    let same = are_one_set(alloc, tables, &left, &right)?;
    Ok(same)
}

/// Whether two values are the same set, by the reading of their comparison.
#[tactic(auto, unfolding(crate::specs::Parts::same_nodes))]
pub fn equal(
    alloc: Global,
    tables: &Tables,
    reading: Option<Reading>,
    left: Value,
    right: Value,
) -> Result<bool, NoMemory>
    ensures { IfOk result (λ b. b ≡ equal [] tables.now.entries reading (meant left) (meant right)) }
{
    match reading {
        None => Ok(false),
        Some(Reading::ByValues) => {
            let left = integers(alloc, tables, &left)?;
            let right = integers(alloc, tables, &right)?;
            Ok(
                are_among(left.as_slice(), right.as_slice())
                    && are_among(right.as_slice(), left.as_slice()),
            )
        }
        Some(
            Reading::ByNodes {
                left_dref,
                right_dref,
            },
        ) => {
            let same = equal_nodes(alloc, tables, left_dref, right_dref, left, right)?;
            Ok(same)
        }
    }
}

/// Whether the left value is a part of the right one, by the reading of their comparison.
pub fn part(
    alloc: Global,
    tables: &Tables,
    reading: Option<Reading>,
    left: Value,
    right: Value,
) -> Result<bool, NoMemory>
    ensures { IfOk result (λ b. b ≡ part [] tables.now.entries reading (meant left) (meant right)) }
{
    match reading {
        None => Ok(false),
        Some(Reading::ByValues) => {
            let left = integers(alloc, tables, &left)?;
            let right = integers(alloc, tables, &right)?;
            Ok(are_among(left.as_slice(), right.as_slice()))
        }
        Some(
            Reading::ByNodes {
                left_dref,
                right_dref,
            },
        ) => {
            let left = through(alloc, tables, left_dref, nodes(alloc, left))?;
            let right = through(alloc, tables, right_dref, nodes(alloc, right))?;
            is_part(alloc, tables, left.as_slice(), right.as_slice())
        }
    }
}
