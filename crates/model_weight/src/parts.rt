//! What is known of a part of an expression.

ghost use Rattle.std.specs.Prelude.{◌≡◌, Some, [], IfOk};
ghost use Rattle.clf_tree.specs.Kinds.{clafers_of, bind_kinds};
ghost use Rattle.clf_tree.specs.declared.kind.Kind.TheVariants as kinds;
ghost use Rattle.model_weight.specs.Light.{tested, counted};
ghost use Rattle.model_weight.specs.Measures.{nodes_in, targets_in, kind_interval};
ghost use Rattle.model_weight.specs.Refusals.{first_of, own_refusal, with_own, where_integer};

use crate::numbers::{count, plus};
use crate::rooms::Rooms;
use clf_base::{List, NoMemory, Refusal, Span};
use clf_tree::{Bounds, Kind, Scopes, Within, targets_of};
use int_widths::{sum_between, width};
use refusal_order::{refused, with_refusal};
use std::alloc::Global;

/// The place of an expression, its kind, how many nodes it can have, its interval in integer position, its weight, and the first
/// integer inside it that needs too many bits.
#[derive(Drop)]
pub struct Part {
    pub at: Span,
    pub kind: Option<Kind>,
    pub nodes: u64,
    pub bounds: Bounds,
    pub weight: u64,
    pub wide: Option<Refusal>,
}

/// Two parts.
#[derive(Drop)]
pub struct Parts {
    pub left: Part,
    pub right: Part,
}

/// How many nodes a kind can have. It goes over the clafers where the kind has several.
#[tactic(auto, using(crate::proofs::NoRoom::nodes_by_kind))]
pub fn nodes_in(rooms: &Rooms, kind: &Option<Kind>) -> u64
    ensures { result ≡ nodes_in rooms.now.clafers.now rooms.now.scopes.now kind.now }
{
    match kind {
        Some(Kind::Nodes(ks)) => rooms.of_all(ks),
        Some(Kind::Numbers(ks)) => rooms.of_all(ks),
        _ => 0,
    }
}

/// How many nodes there can be in its `dref`.
#[tactic(auto, using(crate::proofs::NoRoom::targets_by_kind))]
pub fn targets_in(alloc: Global, rooms: &Rooms, kind: &Option<Kind>) -> Result<u64, NoMemory>
    ensures { IfOk result (λ n. n ≡ targets_in rooms.now.clafers.now rooms.now.scopes.now kind.now) }
{
    match kind {
        Some(Kind::Nodes(ks)) => match targets_of(alloc, rooms.clafers, ks)? {
            Some(targets) => Ok(rooms.of_all(&targets)),
            None => Ok(0),
        },
        _ => Ok(0),
    }
}

/// What is no integer, and has so many nodes.
pub fn set_part(
    rooms: &Rooms,
    at: Span,
    kind: Option<Kind>,
    weight: u64,
    wide: Option<Refusal>,
) -> Part
    ensures at { result.at ≡ at }
    ensures kind { result.kind ≡ kind }
    ensures nodes { result.nodes ≡ nodes_in rooms.now.clafers.now rooms.now.scopes.now kind }
    ensures bounds { result.bounds ≡ kind_interval rooms.now.clafers.now rooms.now.scopes.now kind }
    ensures weight { result.weight ≡ weight }
    ensures wide { result.wide ≡ wide }
{
    let nodes = nodes_in(rooms, &kind);
    let bounds = sum_between(rooms.scopes, nodes);
    Part {
        at,
        kind,
        nodes,
        bounds,
        weight,
        wide,
    }
}

/// A truth value.
pub fn truth_part(rooms: &Rooms, at: Span, weight: u64, wide: Option<Refusal>) -> Part
    ensures at { result.at ≡ at }
    ensures kind { result.kind ≡ Some kinds.Truth }
    ensures nodes { result.nodes ≡ nodes_in rooms.now.clafers.now rooms.now.scopes.now result.kind }
    ensures bounds { result.bounds ≡ kind_interval rooms.now.clafers.now rooms.now.scopes.now result.kind }
    ensures weight { result.weight ≡ weight }
    ensures wide { result.wide ≡ wide }
{
    set_part(rooms, at, Some(Kind::Truth), weight, wide)
}

/// An integer.
pub fn number_part(
    rooms: &Rooms,
    at: Span,
    bounds: Bounds,
    weight: u64,
    wide: Option<Refusal>,
) -> Part
    ensures at { result.at ≡ at }
    ensures kind { result.kind ≡ Some kinds.Integer }
    ensures nodes { result.nodes ≡ nodes_in rooms.now.clafers.now rooms.now.scopes.now result.kind }
    ensures bounds { result.bounds ≡ bounds }
    ensures weight { result.weight ≡ weight }
    ensures wide { result.wide ≡ wide }
{
    let kind = Some(Kind::Integer);
    let nodes = nodes_in(rooms, &kind);
    Part {
        at,
        kind,
        nodes,
        bounds,
        weight,
        wide,
    }
}

/// The weight of a part in truth position.
pub fn tested(scopes: &Scopes, part: &Part) -> u64
    ensures { result ≡ tested scopes.now part.now.kind part.now.nodes part.now.weight }
{
    match &part.kind {
        Some(Kind::Truth) => part.weight,
        _ => plus(count(scopes, part.nodes), part.weight),
    }
}

/// The weight of a part in integer position.
pub fn counted(scopes: &Scopes, part: &Part) -> u64
    ensures { result ≡ counted scopes.now part.now.kind part.now.nodes part.now.weight }
{
    match &part.kind {
        Some(Kind::Integer) => part.weight,
        _ => plus(count(scopes, part.nodes), part.weight),
    }
}

/// The first of two refusals that may be missing.
pub fn first_of(first: Option<Refusal>, second: Option<Refusal>) -> Option<Refusal>
    ensures { result ≡ first_of first second }
{
    match second {
        None => first,
        Some(refusal) => with_refusal(first, refusal),
    }
}

fn own_refusal(at: Span, bounds: Bounds) -> Option<Refusal>
    ensures { result ≡ own_refusal at bounds }
{
    let bits = width(bounds);
    if bits <= 62 {
        return None;
    }
    Some(refused(90, at, bits as u64))
}

/// What is too wide of a part in integer position: itself, or an integer inside it.
pub fn with_own(part: &Part) -> Option<Refusal>
    ensures { result ≡ with_own part.now.at part.now.bounds part.now.wide }
{
    first_of(own_refusal(part.at, part.bounds), part.wide)
}

/// The same where it stands in integer position, else what is inside it.
pub fn where_integer(is_integer: bool, part: &Part) -> Option<Refusal>
    ensures { result ≡ where_integer is_integer part.now.at part.now.bounds part.now.wide }
{
    if is_integer {
        return with_own(part);
    }
    part.wide
}

/// The clafers of nodes of a kind.
pub fn listed(alloc: Global, kind: &Option<Kind>) -> Result<List<u32>, NoMemory>
    ensures { IfOk result (λ ks. ks ≡ clafers_of kind.now) }
{
    match kind {
        Some(Kind::Nodes(ks)) => Ok(ks.copy(alloc)?),
        _ => Ok(List::new(alloc)),
    }
}

/// The kinds within a quantifier over nodes of `ks`, of so many names. It copies what is bound.
pub fn bind(
    alloc: Global,
    within: &Within,
    ks: &List<u32>,
    names: usize,
) -> Result<Within, NoMemory>
    ensures { IfOk result (λ inner. inner ≡ bind_kinds ks.now names within.now) }
{
    let mut bound = List::new(alloc);
    for kind in within.bound.as_slice() {
        bound.push(kind.copy(alloc)?)?;
    }
    for _name in 0..names {
        bound.push(ks.copy(alloc)?)?;
    }
    Ok(Within {
        this: within.this,
        bound,
    })
}
