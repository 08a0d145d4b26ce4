//! Integers of finished parts.

ghost use Rattle.std.specs.Prelude.{◌≡◌, ◌<◌, ◌^◌, ◌+ℤ◌, ◌*ℤ◌, pos, neg_ℤ, Some, [], length, IfOk, IsTrue};
ghost use Rattle.clf_tree.specs.Hierarchy.{is_closed};
ghost use Rattle.clf_tree.specs.Core as Core;
ghost use Rattle.clf_tree.specs.Core.{core};
ghost use Rattle.clf_tree.specs.Intervals.{room, members, between, product};
ghost use Rattle.clf_tree.specs.Widths.{width};
ghost use Rattle.relational_core.specs.Lowered.{as_number, kind_interval, constant, of_one, of_two, negated, added, multiplied, negative};

use crate::sides::{
    Pair, Side, Sides, counted, counted_pair, kind_bounds, kind_room, number_side, plain,
};
use clf_base::{List, NoMemory};
use clf_tree::{Bounds, Clafer, CoreExpr, Kind, Scopes};
use int_widths::{added, exactly, negated, product, subtracted, up_to, width};
use sqlite_items::Boxed;
use std::alloc::Global;

pub fn literal(alloc: Global, value: u32) -> Result<Side, NoMemory>
    ensures kind { IfOk result (λ r. r.kind ≡ Some Kind.Integer) }
    ensures bounds { IfOk result (λ r. r.bounds ≡ between (pos value) (pos value)) }
    ensures expr { IfOk result (λ r. core r.expr ≡ Core.Const (width (between (pos value) (pos value))) (pos value)) }
{
    let bounds = exactly(value);
    let constant = CoreExpr::Const {
        width: width(bounds),
        value: value as i64,
    };
    number_side(alloc, bounds, constant)
}

/// How many nodes there are.
pub fn count(
    alloc: Global,
    clafers: &List<Clafer>,
    scopes: &Scopes,
    side: Side,
) -> Result<Side, NoMemory>
    requires closed { IsTrue (is_closed clafers.now) }
    requires few { length clafers.now < 2 ^ 32 }
    ensures kind { IfOk result (λ r. r.kind ≡ Some Kind.Integer) }
    ensures bounds { IfOk result (λ r. r.bounds ≡ between (pos 0) (pos (room clafers.now scopes.now (members clafers.now scopes.now side.kind)))) }
    ensures expr { IfOk result (λ r. core r.expr ≡ Core.Count (width (between (pos 0) (pos (room clafers.now scopes.now (members clafers.now scopes.now side.kind))))) (core side.expr)) }
{
    let bounds = up_to(kind_room(clafers, scopes, &side.kind));
    let count = CoreExpr::Count {
        width: width(bounds),
        of: plain(side),
    };
    number_side(alloc, bounds, count)
}

/// The sum of the integers of nodes, one for each node.
pub fn total(
    alloc: Global,
    clafers: &List<Clafer>,
    scopes: &Scopes,
    side: Side,
) -> Result<Side, NoMemory>
    requires closed { IsTrue (is_closed clafers.now) }
    requires few { length clafers.now < 2 ^ 32 }
    ensures kind { IfOk result (λ r. r.kind ≡ Some Kind.Integer) }
    ensures bounds { IfOk result (λ r. r.bounds ≡ kind_interval clafers.now scopes.now side.kind) }
    ensures expr { IfOk result (λ r. core r.expr ≡ Core.Total (width (kind_interval clafers.now scopes.now side.kind)) (core side.expr)) }
{
    let bounds = kind_bounds(clafers, scopes, &side.kind);
    let total = CoreExpr::Total {
        width: width(bounds),
        of: plain(side),
    };
    number_side(alloc, bounds, total)
}

/// The integer of a constant.
fn constant(expr: &CoreExpr) -> Option<i64>
    ensures { result ≡ constant (core expr.now) }
{
    match expr {
        CoreExpr::Const { value, .. } => Some(*value),
        _ => None,
    }
}

/// The opposite of a constant, where 64 bits hold it.
fn opposite_of(expr: &CoreExpr) -> Option<i64>
    ensures { result ≡ of_one neg_ℤ (core expr.now) }
{
    constant(expr)?.checked_neg()
}

/// The sum of two constants, where 64 bits hold it.
fn sum_of(left: &CoreExpr, right: &CoreExpr) -> Option<i64>
    ensures { result ≡ of_two (λ x y. x +ℤ y) (core left.now) (core right.now) }
{
    constant(left)?.checked_add(constant(right)?)
}

/// The product of two constants, where 64 bits hold it.
fn product_of(left: &CoreExpr, right: &CoreExpr) -> Option<i64>
    ensures { result ≡ of_two (λ x y. x *ℤ y) (core left.now) (core right.now) }
{
    constant(left)?.checked_mul(constant(right)?)
}

fn known(alloc: Global, bounds: Bounds, value: i64) -> Result<Boxed<CoreExpr>, NoMemory>
    ensures { IfOk result (λ r. core r ≡ Core.Const (width bounds) value) }
{
    let constant = CoreExpr::Const {
        width: width(bounds),
        value,
    };
    Ok(Boxed::new(alloc, constant)?)
}

#[tactic(auto, unfolding(crate::specs::Lowered::negated))]
fn minus(alloc: Global, bounds: Bounds, of: Boxed<CoreExpr>) -> Result<Boxed<CoreExpr>, NoMemory>
    ensures { IfOk result (λ r. core r ≡ negated (width bounds) (core of)) }
{
    if let Some(value) = opposite_of(of.get()) {
        return known(alloc, bounds, value);
    }
    let negated = CoreExpr::Neg {
        width: width(bounds),
        of,
    };
    Ok(Boxed::new(alloc, negated)?)
}

#[tactic(auto, unfolding(crate::specs::Lowered::added))]
fn plus(alloc: Global, bounds: Bounds, pair: Pair) -> Result<Boxed<CoreExpr>, NoMemory>
    ensures { IfOk result (λ r. core r ≡ added (width bounds) (core pair.left) (core pair.right)) }
{
    let Pair { left, right } = pair;
    if let Some(value) = sum_of(left.get(), right.get()) {
        return known(alloc, bounds, value);
    }
    let sum = CoreExpr::Add {
        width: width(bounds),
        left,
        right,
    };
    Ok(Boxed::new(alloc, sum)?)
}

#[tactic(auto, unfolding(crate::specs::Lowered::multiplied))]
fn times(alloc: Global, bounds: Bounds, pair: Pair) -> Result<Boxed<CoreExpr>, NoMemory>
    ensures { IfOk result (λ r. core r ≡ multiplied (width bounds) (core pair.left) (core pair.right)) }
{
    let Pair { left, right } = pair;
    if let Some(value) = product_of(left.get(), right.get()) {
        return known(alloc, bounds, value);
    }
    let product = CoreExpr::Mul {
        width: width(bounds),
        left,
        right,
    };
    Ok(Boxed::new(alloc, product)?)
}

fn integer(bounds: Bounds, expr: Boxed<CoreExpr>) -> Side
    ensures kind { result.kind ≡ Some Kind.Integer }
    ensures bounds { result.bounds ≡ bounds }
    ensures expr { result.expr ≡ expr }
{
    let kind = Some(Kind::Integer);
    Side { kind, bounds, expr }
}

/// The negated integer.
pub fn opposite(alloc: Global, side: Side) -> Result<Side, NoMemory>
    ensures kind { IfOk result (λ r. r.kind ≡ Some Kind.Integer) }
    ensures bounds { IfOk result (λ r. r.bounds ≡ negative side.bounds) }
    ensures expr { IfOk result (λ r. core r.expr ≡ negated (width (negative side.bounds)) (as_number side.kind side.bounds (core side.expr))) }
{
    let bounds = negated(side.bounds);
    let number = counted(alloc, side)?;
    Ok(integer(bounds, minus(alloc, bounds, number)?))
}

pub fn sum(alloc: Global, sides: Sides) -> Result<Side, NoMemory>
    ensures kind { IfOk result (λ r. r.kind ≡ Some Kind.Integer) }
    ensures bounds { IfOk result (λ r. r.bounds ≡ between (sides.left.bounds.low +ℤ sides.right.bounds.low) (sides.left.bounds.high +ℤ sides.right.bounds.high)) }
    ensures expr { IfOk result (λ r. core r.expr ≡ added (width (between (sides.left.bounds.low +ℤ sides.right.bounds.low) (sides.left.bounds.high +ℤ sides.right.bounds.high))) (as_number sides.left.kind sides.left.bounds (core sides.left.expr)) (as_number sides.right.kind sides.right.bounds (core sides.right.expr))) }
{
    let bounds = added(sides.left.bounds, sides.right.bounds);
    let pair = counted_pair(alloc, sides)?;
    Ok(integer(bounds, plus(alloc, bounds, pair)?))
}

fn with_opposite(alloc: Global, sides: Sides) -> Result<Pair, NoMemory>
    ensures left { IfOk result (λ r. core r.left ≡ as_number sides.left.kind sides.left.bounds (core sides.left.expr)) }
    ensures right { IfOk result (λ r. core r.right ≡ negated (width (negative sides.right.bounds)) (as_number sides.right.kind sides.right.bounds (core sides.right.expr))) }
{
    let bounds = negated(sides.right.bounds);
    let Pair { left, right } = counted_pair(alloc, sides)?;
    let right = minus(alloc, bounds, right)?;
    Ok(Pair { left, right })
}

/// A difference is the sum with the opposite.
pub fn difference(alloc: Global, sides: Sides) -> Result<Side, NoMemory>
    ensures kind { IfOk result (λ r. r.kind ≡ Some Kind.Integer) }
    ensures bounds { IfOk result (λ r. r.bounds ≡ between (sides.left.bounds.low +ℤ neg_ℤ sides.right.bounds.high) (sides.left.bounds.high +ℤ neg_ℤ sides.right.bounds.low)) }
    ensures expr { IfOk result (λ r. core r.expr ≡ added (width (between (sides.left.bounds.low +ℤ neg_ℤ sides.right.bounds.high) (sides.left.bounds.high +ℤ neg_ℤ sides.right.bounds.low))) (as_number sides.left.kind sides.left.bounds (core sides.left.expr)) (negated (width (negative sides.right.bounds)) (as_number sides.right.kind sides.right.bounds (core sides.right.expr)))) }
{
    let bounds = subtracted(sides.left.bounds, sides.right.bounds);
    let pair = with_opposite(alloc, sides)?;
    Ok(integer(bounds, plus(alloc, bounds, pair)?))
}

pub fn multiple(alloc: Global, sides: Sides) -> Result<Side, NoMemory>
    ensures kind { IfOk result (λ r. r.kind ≡ Some Kind.Integer) }
    ensures bounds { IfOk result (λ r. r.bounds ≡ product sides.left.bounds sides.right.bounds) }
    ensures expr { IfOk result (λ r. core r.expr ≡ multiplied (width (product sides.left.bounds sides.right.bounds)) (as_number sides.left.kind sides.left.bounds (core sides.left.expr)) (as_number sides.right.kind sides.right.bounds (core sides.right.expr))) }
{
    let bounds = product(sides.left.bounds, sides.right.bounds);
    let pair = counted_pair(alloc, sides)?;
    Ok(integer(bounds, times(alloc, bounds, pair)?))
}
