//! Parts that are finished, each with its kind and its interval.

ghost use Rattle.std.specs.Prelude.{◌≡◌, ◌<◌, ◌^◌, Some, [], length, IfOk, IsTrue};
ghost use Rattle.clf_tree.specs.Hierarchy.{is_closed};
ghost use Rattle.clf_tree.specs.Core.{core};
ghost use Rattle.clf_tree.specs.Intervals.{room, members};
ghost use Rattle.relational_core.specs.Lowered.{as_truth, as_number, kind_interval};

use clf_base::{List, NoMemory};
use clf_tree::{Bounds, Clafer, CoreExpr, Kind, Scopes};
use int_widths::{room, sum_between, width};
use sqlite_items::Boxed;
use std::alloc::Global;

/// A part with its kind, its interval in integer position, and its relational expression.
#[derive(Drop)]
pub struct Side {
    pub kind: Option<Kind>,
    pub bounds: Bounds,
    pub expr: Boxed<CoreExpr>,
}

/// Two parts.
#[derive(Drop)]
pub struct Sides {
    pub left: Side,
    pub right: Side,
}

/// Two relational expressions.
#[derive(Drop)]
pub struct Pair {
    pub left: Boxed<CoreExpr>,
    pub right: Boxed<CoreExpr>,
}

/// How many nodes a kind can have. It goes over the clafers.
#[tactic(auto, using(crate::proofs::NoRoom::no_room))]
pub fn kind_room(clafers: &List<Clafer>, scopes: &Scopes, kind: &Option<Kind>) -> u64
    requires closed { IsTrue (is_closed clafers.now) }
    requires few { length clafers.now < 2 ^ 32 }
    ensures { result ≡ room clafers.now scopes.now (members clafers.now scopes.now kind.now) }
{
    match kind {
        Some(Kind::Nodes(ks)) => room(clafers, scopes, ks),
        Some(Kind::Numbers(ks)) => room(clafers, scopes, ks),
        _ => 0,
    }
}

/// The interval of what is no integer: of the sum of the integers of its nodes.
pub fn kind_bounds(clafers: &List<Clafer>, scopes: &Scopes, kind: &Option<Kind>) -> Bounds
    requires closed { IsTrue (is_closed clafers.now) }
    requires few { length clafers.now < 2 ^ 32 }
    ensures { result ≡ kind_interval clafers.now scopes.now kind.now }
{
    sum_between(scopes, kind_room(clafers, scopes, kind))
}

/// A part that is no integer.
pub fn set_side(
    clafers: &List<Clafer>,
    scopes: &Scopes,
    kind: Option<Kind>,
    expr: Boxed<CoreExpr>,
) -> Side
    requires closed { IsTrue (is_closed clafers.now) }
    requires few { length clafers.now < 2 ^ 32 }
    ensures kind { result.kind ≡ kind }
    ensures bounds { result.bounds ≡ kind_interval clafers.now scopes.now kind }
    ensures expr { result.expr ≡ expr }
{
    let bounds = kind_bounds(clafers, scopes, &kind);
    Side { kind, bounds, expr }
}

/// A truth value.
pub fn truth_side(
    alloc: Global,
    clafers: &List<Clafer>,
    scopes: &Scopes,
    expr: CoreExpr,
) -> Result<Side, NoMemory>
    requires closed { IsTrue (is_closed clafers.now) }
    requires few { length clafers.now < 2 ^ 32 }
    ensures kind { IfOk result (λ r. r.kind ≡ Some Kind.Truth) }
    ensures bounds { IfOk result (λ r. r.bounds ≡ kind_interval clafers.now scopes.now r.kind) }
    ensures expr { IfOk result (λ r. core r.expr ≡ core expr) }
{
    let boxed = Boxed::new(alloc, expr)?;
    Ok(set_side(clafers, scopes, Some(Kind::Truth), boxed))
}

/// An integer.
pub fn number_side(alloc: Global, bounds: Bounds, expr: CoreExpr) -> Result<Side, NoMemory>
    ensures kind { IfOk result (λ r. r.kind ≡ Some Kind.Integer) }
    ensures bounds { IfOk result (λ r. r.bounds ≡ bounds) }
    ensures expr { IfOk result (λ r. core r.expr ≡ core expr) }
{
    let kind = Some(Kind::Integer);
    let expr = Boxed::new(alloc, expr)?;
    Ok(Side { kind, bounds, expr })
}

/// A part as it is.
pub fn plain(side: Side) -> Boxed<CoreExpr>
    ensures { result ≡ side.expr }
{
    let Side {
        kind: _,
        bounds: _,
        expr,
    } = side;
    expr
}

/// A part in truth position.
pub fn tested(alloc: Global, side: Side) -> Result<Boxed<CoreExpr>, NoMemory>
    ensures { IfOk result (λ r. core r ≡ as_truth side.kind (core side.expr)) }
{
    let Side {
        kind,
        bounds: _,
        expr,
    } = side;
    match kind {
        Some(Kind::Truth) => Ok(expr),
        _ => Ok(Boxed::new(alloc, CoreExpr::AtLeast(1, expr))?),
    }
}

/// A part in integer position.
pub fn counted(alloc: Global, side: Side) -> Result<Boxed<CoreExpr>, NoMemory>
    ensures { IfOk result (λ r. core r ≡ as_number side.kind side.bounds (core side.expr)) }
{
    let Side { kind, bounds, expr } = side;
    match kind {
        Some(Kind::Integer) => Ok(expr),
        _ => {
            let total = CoreExpr::Total {
                width: width(bounds),
                of: expr,
            };
            Ok(Boxed::new(alloc, total)?)
        }
    }
}

/// Two parts in truth position.
pub fn tested_pair(alloc: Global, sides: Sides) -> Result<Pair, NoMemory>
    ensures left { IfOk result (λ r. core r.left ≡ as_truth sides.left.kind (core sides.left.expr)) }
    ensures right { IfOk result (λ r. core r.right ≡ as_truth sides.right.kind (core sides.right.expr)) }
{
    let Sides { left, right } = sides;
    let left = tested(alloc, left)?;
    let right = tested(alloc, right)?;
    Ok(Pair { left, right })
}

/// Two parts in integer position.
pub fn counted_pair(alloc: Global, sides: Sides) -> Result<Pair, NoMemory>
    ensures left { IfOk result (λ r. core r.left ≡ as_number sides.left.kind sides.left.bounds (core sides.left.expr)) }
    ensures right { IfOk result (λ r. core r.right ≡ as_number sides.right.kind sides.right.bounds (core sides.right.expr)) }
{
    let Sides { left, right } = sides;
    let left = counted(alloc, left)?;
    let right = counted(alloc, right)?;
    Ok(Pair { left, right })
}
