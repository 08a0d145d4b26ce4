//! Sets of nodes and truth values of finished parts.

ghost use Rattle.std.specs.Prelude.{◌≡◌, ◌∷◌, ◌<◌, ◌^◌, Some, None, [], length, IfOk, IsTrue};
ghost use Rattle.std.specs.Option.{option_map};
ghost use Rattle.clf_tree.specs.Hierarchy.{is_closed};
ghost use Rattle.clf_tree.specs.Lists.{from_end};
ghost use Rattle.clf_tree.specs.Kinds as kinds_of;
ghost use Rattle.clf_tree.specs.declared.kind.Kind.TheVariants as kinds;
ghost use Rattle.model_weight.specs.Capped.{plus, times};
ghost use Rattle.model_weight.specs.Light.{count, moved, both, tested, stepped, taken, tuples};
ghost use Rattle.model_weight.specs.Measures.{nodes_in, targets_in, kind_interval};
ghost use Rattle.model_weight.specs.Refusals.{first_of};

use crate::numbers::{binary_digits, both, count, moved, plus, power, times};
use crate::parts::{Part, Parts, first_of, nodes_in, set_part, targets_in, tested, truth_part};
use crate::rooms::Rooms;
use clf_base::{List, NoMemory, Span};
use clf_tree::{
    Clafer, Kind, clafers_of, dref_kind, left_kind, parent_kind, parents_of, union_kind,
};
use std::alloc::Global;

/// A name or a clafer: one node, or so many.
pub fn leaf_part(rooms: &Rooms, at: Span, kind: Option<Kind>) -> Part
    ensures at { result.at ≡ at }
    ensures kind { result.kind ≡ kind }
    ensures nodes { result.nodes ≡ nodes_in rooms.now.clafers.now rooms.now.scopes.now result.kind }
    ensures bounds { result.bounds ≡ kind_interval rooms.now.clafers.now rooms.now.scopes.now result.kind }
    ensures weight { result.weight ≡ plus (nodes_in rooms.now.clafers.now rooms.now.scopes.now kind) 1 }
    ensures wide { result.wide ≡ None }
{
    let weight = plus(nodes_in(rooms, &kind), 1);
    set_part(rooms, at, kind, weight, None)
}

fn stepped(is_followed: bool, from: u64, targets: u64, to: u64) -> u64
    ensures { result ≡ stepped is_followed from targets to }
{
    if is_followed {
        return plus(moved(targets, to), moved(from, targets));
    }
    moved(from, to)
}

pub fn step_part(
    alloc: Global,
    rooms: &Rooms,
    at: Span,
    of: Part,
    into: &List<u32>,
    is_followed: bool,
) -> Result<Part, NoMemory>
    ensures at { IfOk result (λ r. r.at ≡ at) }
    ensures kind { IfOk result (λ r. r.kind ≡ Some (kinds.Nodes into.now)) }
    ensures nodes { IfOk result (λ r. r.nodes ≡ nodes_in rooms.now.clafers.now rooms.now.scopes.now r.kind) }
    ensures bounds { IfOk result (λ r. r.bounds ≡ kind_interval rooms.now.clafers.now rooms.now.scopes.now r.kind) }
    ensures weight { IfOk result (λ r. r.weight ≡ plus (stepped is_followed of.nodes (targets_in rooms.now.clafers.now rooms.now.scopes.now of.kind) (nodes_in rooms.now.clafers.now rooms.now.scopes.now (Some (kinds.Nodes into.now)))) of.weight) }
    ensures wide { IfOk result (λ r. r.wide ≡ of.wide) }
{
    let kind = Some(Kind::Nodes(into.copy(alloc)?));
    let targets = targets_in(alloc, rooms, &of.kind)?;
    let own = stepped(is_followed, of.nodes, targets, nodes_in(rooms, &kind));
    Ok(set_part(rooms, at, kind, plus(own, of.weight), of.wide))
}

fn parents_kind(
    alloc: Global,
    clafers: &List<Clafer>,
    kind: Option<Kind>,
) -> Result<Option<Kind>, NoMemory>
    requires closed { IsTrue (is_closed clafers.now) }
    requires few { length clafers.now < 2 ^ 32 }
    ensures { IfOk result (λ k. k ≡ kinds_of.parent_kind (kinds_of.parents_of clafers.now (kinds_of.clafers_of kind))) }
{
    let ks = clafers_of(alloc, kind);
    let parents = parents_of(alloc, clafers, &ks)?;
    Ok(parent_kind(parents))
}

pub fn parent_part(alloc: Global, rooms: &Rooms, at: Span, of: Part) -> Result<Part, NoMemory>
    ensures at { IfOk result (λ r. r.at ≡ at) }
    ensures kind { IfOk result (λ r. r.kind ≡ kinds_of.parent_kind (kinds_of.parents_of rooms.now.clafers.now (kinds_of.clafers_of of.kind))) }
    ensures nodes { IfOk result (λ r. r.nodes ≡ nodes_in rooms.now.clafers.now rooms.now.scopes.now r.kind) }
    ensures bounds { IfOk result (λ r. r.bounds ≡ kind_interval rooms.now.clafers.now rooms.now.scopes.now r.kind) }
    ensures weight { IfOk result (λ r. r.weight ≡ plus (moved of.nodes (nodes_in rooms.now.clafers.now rooms.now.scopes.now r.kind)) of.weight) }
    ensures wide { IfOk result (λ r. r.wide ≡ of.wide) }
{
    let (from, weight, wide) = (of.nodes, of.weight, of.wide);
    let kind = parents_kind(alloc, rooms.clafers, of.kind)?;
    let own = moved(from, nodes_in(rooms, &kind));
    Ok(set_part(rooms, at, kind, plus(own, weight), wide))
}

fn taken(kind: &Option<Kind>, from: u64, to: u64) -> u64
    ensures { result ≡ taken kind.now from to }
{
    match kind {
        Some(Kind::Numbers(_)) => 1,
        _ => moved(from, to),
    }
}

pub fn dref_part(alloc: Global, rooms: &Rooms, at: Span, of: Part) -> Result<Part, NoMemory>
    ensures at { IfOk result (λ r. r.at ≡ at) }
    ensures kind { IfOk result (λ r. r.kind ≡ kinds_of.dref_kind rooms.now.clafers.now of.kind) }
    ensures nodes { IfOk result (λ r. r.nodes ≡ nodes_in rooms.now.clafers.now rooms.now.scopes.now r.kind) }
    ensures bounds { IfOk result (λ r. r.bounds ≡ kind_interval rooms.now.clafers.now rooms.now.scopes.now r.kind) }
    ensures weight { IfOk result (λ r. r.weight ≡ plus (taken r.kind of.nodes (nodes_in rooms.now.clafers.now rooms.now.scopes.now r.kind)) of.weight) }
    ensures wide { IfOk result (λ r. r.wide ≡ of.wide) }
{
    let (from, weight, wide) = (of.nodes, of.weight, of.wide);
    let kind = dref_kind(alloc, rooms.clafers, of.kind)?;
    let own = taken(&kind, from, nodes_in(rooms, &kind));
    Ok(set_part(rooms, at, kind, plus(own, weight), wide))
}

fn sets_weight(parts: &Parts) -> u64
    ensures { result ≡ both (times 4 (plus parts.now.left.nodes parts.now.right.nodes)) parts.now.left.weight parts.now.right.weight }
{
    let own = times(4, plus(parts.left.nodes, parts.right.nodes));
    both(own, parts.left.weight, parts.right.weight)
}

pub fn union_part(rooms: &Rooms, at: Span, parts: Parts) -> Result<Part, NoMemory>
    ensures at { IfOk result (λ r. r.at ≡ at) }
    ensures kind { IfOk result (λ r. r.kind ≡ kinds_of.union_kind parts.left.kind parts.right.kind) }
    ensures nodes { IfOk result (λ r. r.nodes ≡ nodes_in rooms.now.clafers.now rooms.now.scopes.now r.kind) }
    ensures bounds { IfOk result (λ r. r.bounds ≡ kind_interval rooms.now.clafers.now rooms.now.scopes.now r.kind) }
    ensures weight { IfOk result (λ r. r.weight ≡ both (times 4 (plus parts.left.nodes parts.right.nodes)) parts.left.weight parts.right.weight) }
    ensures wide { IfOk result (λ r. r.wide ≡ first_of parts.left.wide parts.right.wide) }
{
    let weight = sets_weight(&parts);
    let wide = first_of(parts.left.wide, parts.right.wide);
    let kind = union_kind(parts.left.kind, parts.right.kind)?;
    Ok(set_part(rooms, at, kind, weight, wide))
}

/// The nodes of the left part that are in the right one, or that are not.
pub fn left_part(rooms: &Rooms, at: Span, parts: Parts) -> Part
    ensures at { result.at ≡ at }
    ensures kind { result.kind ≡ kinds_of.left_kind rooms.now.clafers.now parts.left.kind parts.right.kind }
    ensures nodes { result.nodes ≡ nodes_in rooms.now.clafers.now rooms.now.scopes.now result.kind }
    ensures bounds { result.bounds ≡ kind_interval rooms.now.clafers.now rooms.now.scopes.now result.kind }
    ensures weight { result.weight ≡ both (times 4 (plus parts.left.nodes parts.right.nodes)) parts.left.weight parts.right.weight }
    ensures wide { result.wide ≡ first_of parts.left.wide parts.right.wide }
{
    let weight = sets_weight(&parts);
    let wide = first_of(parts.left.wide, parts.right.wide);
    let kind = left_kind(rooms.clafers, parts.left.kind, parts.right.kind);
    set_part(rooms, at, kind, weight, wide)
}

pub fn negation_part(rooms: &Rooms, at: Span, of: &Part) -> Part
    ensures at { result.at ≡ at }
    ensures kind { result.kind ≡ Some kinds.Truth }
    ensures nodes { result.nodes ≡ nodes_in rooms.now.clafers.now rooms.now.scopes.now result.kind }
    ensures bounds { result.bounds ≡ kind_interval rooms.now.clafers.now rooms.now.scopes.now result.kind }
    ensures weight { result.weight ≡ plus 8 (tested rooms.now.scopes.now of.now.kind of.now.nodes of.now.weight) }
    ensures wide { result.wide ≡ of.now.wide }
{
    truth_part(rooms, at, plus(8, tested(rooms.scopes, of)), of.wide)
}

pub fn connective_part(rooms: &Rooms, at: Span, parts: &Parts) -> Part
    ensures at { result.at ≡ at }
    ensures kind { result.kind ≡ Some kinds.Truth }
    ensures nodes { result.nodes ≡ nodes_in rooms.now.clafers.now rooms.now.scopes.now result.kind }
    ensures bounds { result.bounds ≡ kind_interval rooms.now.clafers.now rooms.now.scopes.now result.kind }
    ensures weight { result.weight ≡ both 8 (tested rooms.now.scopes.now parts.now.left.kind parts.now.left.nodes parts.now.left.weight) (tested rooms.now.scopes.now parts.now.right.kind parts.now.right.nodes parts.now.right.weight) }
    ensures wide { result.wide ≡ first_of parts.now.left.wide parts.now.right.wide }
{
    let weight = both(
        8,
        tested(rooms.scopes, &parts.left),
        tested(rooms.scopes, &parts.right),
    );
    let wide = first_of(parts.left.wide, parts.right.wide);
    truth_part(rooms, at, weight, wide)
}

/// A number of nodes that is compared with 0 or 1.
pub fn few_part(rooms: &Rooms, at: Span, of: &Part) -> Part
    ensures at { result.at ≡ at }
    ensures kind { result.kind ≡ Some kinds.Truth }
    ensures nodes { result.nodes ≡ nodes_in rooms.now.clafers.now rooms.now.scopes.now result.kind }
    ensures bounds { result.bounds ≡ kind_interval rooms.now.clafers.now rooms.now.scopes.now result.kind }
    ensures weight { result.weight ≡ plus (count rooms.now.scopes.now of.now.nodes) of.now.weight }
    ensures wide { result.wide ≡ of.now.wide }
{
    let weight = plus(count(rooms.scopes, of.nodes), of.weight);
    truth_part(rooms, at, weight, of.wide)
}

fn tuples(nodes: u64, names: usize, body: u64, over: u64) -> u64
    ensures { result ≡ tuples nodes names body over }
{
    let tuples = power(nodes, names);
    let each = plus(
        plus(body, times(8, names as u64)),
        times(16, binary_digits(tuples)),
    );
    plus(plus(times(tuples, plus(each, 16)), 8), over)
}

/// A quantifier of so many names over so many nodes, of a weight.
pub fn quantifier_part(rooms: &Rooms, at: Span, names: usize, over: &Part, body: &Part) -> Part
    ensures at { result.at ≡ at }
    ensures kind { result.kind ≡ Some kinds.Truth }
    ensures nodes { result.nodes ≡ nodes_in rooms.now.clafers.now rooms.now.scopes.now result.kind }
    ensures bounds { result.bounds ≡ kind_interval rooms.now.clafers.now rooms.now.scopes.now result.kind }
    ensures weight { result.weight ≡ tuples over.now.nodes names (tested rooms.now.scopes.now body.now.kind body.now.nodes body.now.weight) over.now.weight }
    ensures wide { result.wide ≡ first_of over.now.wide body.now.wide }
{
    let weight = tuples(over.nodes, names, tested(rooms.scopes, body), over.weight);
    truth_part(rooms, at, weight, first_of(over.wide, body.wide))
}
