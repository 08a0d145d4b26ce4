//! Comparisons of two finished parts by their values or by their nodes.

ghost use Rattle.std.specs.Prelude.{◌≡◌, ◌&&◌, max, IfOk};
ghost use Rattle.clf_tree.specs.Kinds as kinds_of;
ghost use Rattle.clf_tree.specs.Numerics as numerics;
ghost use Rattle.clf_tree.specs.Widths.{width};
ghost use Rattle.model_weight.specs.Light.{both, values, by_values, by_nodes, through, followed, compared};
ghost use Rattle.model_weight.specs.Measures.{nodes_in, targets_in, kind_interval, is_set_kind};
ghost use Rattle.model_weight.specs.Refusals.{first_of, where_integer};

use crate::numbers::{both, moved, plus, range_width, times};
use crate::parts::{Part, Parts, first_of, set_part, targets_in, where_integer};
use crate::rooms::Rooms;
use clf_base::{List, NoMemory, Span};
use clf_tree::{Clafer, Kind, Reading, Scopes, reading_of};
use int_widths::width;
use std::alloc::Global;

fn values(nodes: u64, kind: &Option<Kind>) -> u64
    ensures { result ≡ values nodes kind.now }
{
    match kind {
        Some(Kind::Integer) => 1,
        _ => nodes,
    }
}

fn larger(a: u64, b: u64) -> u64
    ensures { result ≡ max a b }
{
    a.max(b)
}

fn by_values(scopes: &Scopes, left: u64, right: u64, left_bits: u64, right_bits: u64) -> u64
    ensures { result ≡ by_values scopes.now left right left_bits right_bits }
{
    let bits = larger(range_width(scopes), larger(left_bits, right_bits));
    times(
        times(times(6, plus(left, 1)), plus(right, 1)),
        plus(bits, 1),
    )
}

fn through(is_followed: bool, nodes: u64, targets: u64) -> u64
    ensures { result ≡ through is_followed nodes targets }
{
    if is_followed { targets } else { nodes }
}

fn followed(is_followed: bool, nodes: u64, targets: u64) -> u64
    ensures { result ≡ followed is_followed nodes targets }
{
    if is_followed {
        return moved(nodes, targets);
    }
    0
}

fn by_nodes(
    left_dref: bool,
    right_dref: bool,
    left: u64,
    left_targets: u64,
    right: u64,
    right_targets: u64,
) -> u64
    ensures { result ≡ by_nodes left_dref right_dref left left_targets right right_targets }
{
    let nodes = plus(
        through(left_dref, left, left_targets),
        through(right_dref, right, right_targets),
    );
    let own = times(16, plus(nodes, 1));
    plus(
        plus(own, followed(left_dref, left, left_targets)),
        followed(right_dref, right, right_targets),
    )
}

fn nodes_weight(
    alloc: Global,
    rooms: &Rooms,
    left_dref: bool,
    right_dref: bool,
    parts: &Parts,
) -> Result<u64, NoMemory>
    ensures { IfOk result (λ n. n ≡ by_nodes left_dref right_dref parts.now.left.nodes (targets_in rooms.now.clafers.now rooms.now.scopes.now parts.now.left.kind) parts.now.right.nodes (targets_in rooms.now.clafers.now rooms.now.scopes.now parts.now.right.kind)) }
{
    let left = targets_in(alloc, rooms, &parts.left.kind)?;
    let right = targets_in(alloc, rooms, &parts.right.kind)?;
    Ok(by_nodes(
        left_dref,
        right_dref,
        parts.left.nodes,
        left,
        parts.right.nodes,
        right,
    ))
}

fn values_weight(scopes: &Scopes, parts: &Parts) -> u64
    ensures { result ≡ by_values scopes.now (values parts.now.left.nodes parts.now.left.kind) (values parts.now.right.nodes parts.now.right.kind) (width parts.now.left.bounds) (width parts.now.right.bounds) }
{
    by_values(
        scopes,
        values(parts.left.nodes, &parts.left.kind),
        values(parts.right.nodes, &parts.right.kind),
        width(parts.left.bounds) as u64,
        width(parts.right.bounds) as u64,
    )
}

fn compared(
    alloc: Global,
    rooms: &Rooms,
    reading: Option<Reading>,
    parts: &Parts,
) -> Result<u64, NoMemory>
    requires left { parts.now.left.nodes ≡ nodes_in rooms.now.clafers.now rooms.now.scopes.now parts.now.left.kind }
    requires right { parts.now.right.nodes ≡ nodes_in rooms.now.clafers.now rooms.now.scopes.now parts.now.right.kind }
    ensures { IfOk result (λ n. n ≡ compared rooms.now.clafers.now rooms.now.scopes.now reading parts.now.left.kind (width parts.now.left.bounds) parts.now.right.kind (width parts.now.right.bounds)) }
{
    match reading {
        Some(
            Reading::ByNodes {
                left_dref,
                right_dref,
            },
        ) => nodes_weight(alloc, rooms, left_dref, right_dref, parts),
        _ => Ok(values_weight(rooms.scopes, parts)),
    }
}

fn is_by_values(reading: Option<Reading>) -> bool
    ensures { result ≡ numerics.by_values reading }
{
    match reading {
        Some(Reading::ByValues) => true,
        _ => false,
    }
}

fn are_sets(left: &Option<Kind>, right: &Option<Kind>) -> bool
    ensures { result ≡ (is_set_kind left.now && is_set_kind right.now) }
{
    matches!(left, Some(Kind::Nodes(_))) && matches!(right, Some(Kind::Nodes(_)))
}

/// The kind of `=` and `in`, which have none where two sets of nodes have no reading.
#[tactic(auto, using(crate::proofs::Comparing::compared))]
fn compared_kind(
    clafers: &List<Clafer>,
    left: &Option<Kind>,
    right: &Option<Kind>,
    reading: Option<Reading>,
) -> Option<Kind>
    requires { reading ≡ kinds_of.reading_of clafers.now left.now right.now }
    ensures { result ≡ kinds_of.compared_kind clafers.now left.now right.now }
{
    if reading.is_none() && are_sets(left, right) {
        return None;
    }
    Some(Kind::Truth)
}

/// Whether two parts are the same, or the left one is a part of the right one, as they are read.
pub fn comparison_part(
    alloc: Global,
    rooms: &Rooms,
    at: Span,
    parts: &Parts,
) -> Result<Part, NoMemory>
    requires left { parts.now.left.nodes ≡ nodes_in rooms.now.clafers.now rooms.now.scopes.now parts.now.left.kind }
    requires right { parts.now.right.nodes ≡ nodes_in rooms.now.clafers.now rooms.now.scopes.now parts.now.right.kind }
    ensures at { IfOk result (λ r. r.at ≡ at) }
    ensures kind { IfOk result (λ r. r.kind ≡ kinds_of.compared_kind rooms.now.clafers.now parts.now.left.kind parts.now.right.kind) }
    ensures nodes { IfOk result (λ r. r.nodes ≡ nodes_in rooms.now.clafers.now rooms.now.scopes.now r.kind) }
    ensures bounds { IfOk result (λ r. r.bounds ≡ kind_interval rooms.now.clafers.now rooms.now.scopes.now r.kind) }
    ensures weight { IfOk result (λ r. r.weight ≡ both (compared rooms.now.clafers.now rooms.now.scopes.now (kinds_of.reading_of rooms.now.clafers.now parts.now.left.kind parts.now.right.kind) parts.now.left.kind (width parts.now.left.bounds) parts.now.right.kind (width parts.now.right.bounds)) parts.now.left.weight parts.now.right.weight) }
    ensures wide { IfOk result (λ r. r.wide ≡ first_of (where_integer (numerics.by_values (kinds_of.reading_of rooms.now.clafers.now parts.now.left.kind parts.now.right.kind)) parts.now.left.at parts.now.left.bounds parts.now.left.wide) (where_integer (numerics.by_values (kinds_of.reading_of rooms.now.clafers.now parts.now.left.kind parts.now.right.kind)) parts.now.right.at parts.now.right.bounds parts.now.right.wide)) }
{
    let reading = reading_of(alloc, rooms.clafers, &parts.left.kind, &parts.right.kind)?;
    let own = compared(alloc, rooms, reading, parts)?;
    let weight = both(own, parts.left.weight, parts.right.weight);
    let are_integers = is_by_values(reading);
    let wide = first_of(
        where_integer(are_integers, &parts.left),
        where_integer(are_integers, &parts.right),
    );
    let kind = compared_kind(rooms.clafers, &parts.left.kind, &parts.right.kind, reading);
    Ok(set_part(rooms, at, kind, weight, wide))
}
