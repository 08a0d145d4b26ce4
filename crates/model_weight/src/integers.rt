//! Integers of finished parts.

ghost use Rattle.std.specs.Prelude.{◌≡◌, ◌+ℤ◌, pos, neg_ℤ, Some, None};
ghost use Rattle.clf_tree.specs.Intervals.{between, product};
ghost use Rattle.clf_tree.specs.Widths.{width};
ghost use Rattle.clf_tree.specs.declared.kind.Kind.TheVariants as kinds;
ghost use Rattle.model_weight.specs.Capped.{plus, times};
ghost use Rattle.model_weight.specs.Light.{count, both, counted};
ghost use Rattle.model_weight.specs.Measures.{nodes_in, kind_interval};
ghost use Rattle.model_weight.specs.Refusals.{first_of, with_own};

use crate::numbers::{both, count, plus, times};
use crate::parts::{Part, Parts, counted, first_of, number_part, truth_part, with_own};
use crate::rooms::Rooms;
use clf_base::Span;
use clf_tree::Bounds;
use int_widths::{added, exactly, negated, product, subtracted, sum_between, up_to, width};

pub fn literal_part(rooms: &Rooms, at: Span, value: u32) -> Part
    ensures at { result.at ≡ at }
    ensures kind { result.kind ≡ Some kinds.Integer }
    ensures nodes { result.nodes ≡ nodes_in rooms.now.clafers.now rooms.now.scopes.now result.kind }
    ensures bounds { result.bounds ≡ between (pos value) (pos value) }
    ensures weight { result.weight ≡ 2 }
    ensures wide { result.wide ≡ None }
{
    number_part(rooms, at, exactly(value), 2, None)
}

/// How many nodes there are.
pub fn count_part(rooms: &Rooms, at: Span, of: &Part) -> Part
    ensures at { result.at ≡ at }
    ensures kind { result.kind ≡ Some kinds.Integer }
    ensures nodes { result.nodes ≡ nodes_in rooms.now.clafers.now rooms.now.scopes.now result.kind }
    ensures bounds { result.bounds ≡ between (pos 0) (pos of.now.nodes) }
    ensures weight { result.weight ≡ plus (count rooms.now.scopes.now of.now.nodes) of.now.weight }
    ensures wide { result.wide ≡ of.now.wide }
{
    let weight = plus(count(rooms.scopes, of.nodes), of.weight);
    number_part(rooms, at, up_to(of.nodes), weight, of.wide)
}

/// The sum of the integers of nodes, one for each node.
pub fn sum_part(rooms: &Rooms, at: Span, of: &Part) -> Part
    requires nodes { of.now.nodes ≡ nodes_in rooms.now.clafers.now rooms.now.scopes.now of.now.kind }
    ensures at { result.at ≡ at }
    ensures kind { result.kind ≡ Some kinds.Integer }
    ensures nodes { result.nodes ≡ nodes_in rooms.now.clafers.now rooms.now.scopes.now result.kind }
    ensures bounds { result.bounds ≡ kind_interval rooms.now.clafers.now rooms.now.scopes.now of.now.kind }
    ensures weight { result.weight ≡ plus (count rooms.now.scopes.now of.now.nodes) of.now.weight }
    ensures wide { result.wide ≡ of.now.wide }
{
    let weight = plus(count(rooms.scopes, of.nodes), of.weight);
    let bounds = sum_between(rooms.scopes, of.nodes);
    number_part(rooms, at, bounds, weight, of.wide)
}

pub fn opposite_part(rooms: &Rooms, at: Span, of: &Part) -> Part
    ensures at { result.at ≡ at }
    ensures kind { result.kind ≡ Some kinds.Integer }
    ensures nodes { result.nodes ≡ nodes_in rooms.now.clafers.now rooms.now.scopes.now result.kind }
    ensures bounds { result.bounds ≡ between (neg_ℤ of.now.bounds.high) (neg_ℤ of.now.bounds.low) }
    ensures weight { result.weight ≡ plus (times 16 (plus (width (between (neg_ℤ of.now.bounds.high) (neg_ℤ of.now.bounds.low))) 1)) (counted rooms.now.scopes.now of.now.kind of.now.nodes of.now.weight) }
    ensures wide { result.wide ≡ with_own of.now.at of.now.bounds of.now.wide }
{
    let bounds = negated(of.bounds);
    let own = times(16, plus(width(bounds) as u64, 1));
    let weight = plus(own, counted(rooms.scopes, of));
    number_part(rooms, at, bounds, weight, with_own(of))
}

/// Two integers that make one between these bounds, with a weight of its own.
fn pair_part(rooms: &Rooms, at: Span, parts: &Parts, bounds: Bounds, own: u64) -> Part
    ensures at { result.at ≡ at }
    ensures kind { result.kind ≡ Some kinds.Integer }
    ensures nodes { result.nodes ≡ nodes_in rooms.now.clafers.now rooms.now.scopes.now result.kind }
    ensures bounds { result.bounds ≡ bounds }
    ensures weight { result.weight ≡ both own (counted rooms.now.scopes.now parts.now.left.kind parts.now.left.nodes parts.now.left.weight) (counted rooms.now.scopes.now parts.now.right.kind parts.now.right.nodes parts.now.right.weight) }
    ensures wide { result.wide ≡ first_of (with_own parts.now.left.at parts.now.left.bounds parts.now.left.wide) (with_own parts.now.right.at parts.now.right.bounds parts.now.right.wide) }
{
    let weight = both(
        own,
        counted(rooms.scopes, &parts.left),
        counted(rooms.scopes, &parts.right),
    );
    let wide = first_of(with_own(&parts.left), with_own(&parts.right));
    number_part(rooms, at, bounds, weight, wide)
}

pub fn addition_part(rooms: &Rooms, at: Span, parts: &Parts) -> Part
    ensures at { result.at ≡ at }
    ensures kind { result.kind ≡ Some kinds.Integer }
    ensures nodes { result.nodes ≡ nodes_in rooms.now.clafers.now rooms.now.scopes.now result.kind }
    ensures bounds { result.bounds ≡ between (parts.now.left.bounds.low +ℤ parts.now.right.bounds.low) (parts.now.left.bounds.high +ℤ parts.now.right.bounds.high) }
    ensures weight { result.weight ≡ both (times 16 (plus (width (between (parts.now.left.bounds.low +ℤ parts.now.right.bounds.low) (parts.now.left.bounds.high +ℤ parts.now.right.bounds.high))) 1)) (counted rooms.now.scopes.now parts.now.left.kind parts.now.left.nodes parts.now.left.weight) (counted rooms.now.scopes.now parts.now.right.kind parts.now.right.nodes parts.now.right.weight) }
    ensures wide { result.wide ≡ first_of (with_own parts.now.left.at parts.now.left.bounds parts.now.left.wide) (with_own parts.now.right.at parts.now.right.bounds parts.now.right.wide) }
{
    let bounds = added(parts.left.bounds, parts.right.bounds);
    let own = times(16, plus(width(bounds) as u64, 1));
    pair_part(rooms, at, parts, bounds, own)
}

pub fn difference_part(rooms: &Rooms, at: Span, parts: &Parts) -> Part
    ensures at { result.at ≡ at }
    ensures kind { result.kind ≡ Some kinds.Integer }
    ensures nodes { result.nodes ≡ nodes_in rooms.now.clafers.now rooms.now.scopes.now result.kind }
    ensures bounds { result.bounds ≡ between (parts.now.left.bounds.low +ℤ neg_ℤ parts.now.right.bounds.high) (parts.now.left.bounds.high +ℤ neg_ℤ parts.now.right.bounds.low) }
    ensures weight { result.weight ≡ both (times 16 (plus (plus (width (between (parts.now.left.bounds.low +ℤ neg_ℤ parts.now.right.bounds.high) (parts.now.left.bounds.high +ℤ neg_ℤ parts.now.right.bounds.low))) (width parts.now.right.bounds)) 3)) (counted rooms.now.scopes.now parts.now.left.kind parts.now.left.nodes parts.now.left.weight) (counted rooms.now.scopes.now parts.now.right.kind parts.now.right.nodes parts.now.right.weight) }
    ensures wide { result.wide ≡ first_of (with_own parts.now.left.at parts.now.left.bounds parts.now.left.wide) (with_own parts.now.right.at parts.now.right.bounds parts.now.right.wide) }
{
    let bounds = subtracted(parts.left.bounds, parts.right.bounds);
    let bits = plus(width(bounds) as u64, width(parts.right.bounds) as u64);
    pair_part(rooms, at, parts, bounds, times(16, plus(bits, 3)))
}

pub fn product_part(rooms: &Rooms, at: Span, parts: &Parts) -> Part
    ensures at { result.at ≡ at }
    ensures kind { result.kind ≡ Some kinds.Integer }
    ensures nodes { result.nodes ≡ nodes_in rooms.now.clafers.now rooms.now.scopes.now result.kind }
    ensures bounds { result.bounds ≡ product parts.now.left.bounds parts.now.right.bounds }
    ensures weight { result.weight ≡ both (times (times 16 (plus (width (product parts.now.left.bounds parts.now.right.bounds)) 1)) (plus (width (product parts.now.left.bounds parts.now.right.bounds)) 1)) (counted rooms.now.scopes.now parts.now.left.kind parts.now.left.nodes parts.now.left.weight) (counted rooms.now.scopes.now parts.now.right.kind parts.now.right.nodes parts.now.right.weight) }
    ensures wide { result.wide ≡ first_of (with_own parts.now.left.at parts.now.left.bounds parts.now.left.wide) (with_own parts.now.right.at parts.now.right.bounds parts.now.right.wide) }
{
    let bounds = product(parts.left.bounds, parts.right.bounds);
    let bits = plus(width(bounds) as u64, 1);
    pair_part(rooms, at, parts, bounds, times(times(16, bits), bits))
}

/// Which of two integers is the smaller one, in any of the four orders.
pub fn order_part(rooms: &Rooms, at: Span, parts: &Parts) -> Part
    ensures at { result.at ≡ at }
    ensures kind { result.kind ≡ Some kinds.Truth }
    ensures nodes { result.nodes ≡ nodes_in rooms.now.clafers.now rooms.now.scopes.now result.kind }
    ensures bounds { result.bounds ≡ kind_interval rooms.now.clafers.now rooms.now.scopes.now result.kind }
    ensures weight { result.weight ≡ both (times 16 (plus (plus (width parts.now.left.bounds) (width parts.now.right.bounds)) 2)) (counted rooms.now.scopes.now parts.now.left.kind parts.now.left.nodes parts.now.left.weight) (counted rooms.now.scopes.now parts.now.right.kind parts.now.right.nodes parts.now.right.weight) }
    ensures wide { result.wide ≡ first_of (with_own parts.now.left.at parts.now.left.bounds parts.now.left.wide) (with_own parts.now.right.at parts.now.right.bounds parts.now.right.wide) }
{
    let bits = plus(
        width(parts.left.bounds) as u64,
        width(parts.right.bounds) as u64,
    );
    let own = times(16, plus(bits, 2));
    let weight = both(
        own,
        counted(rooms.scopes, &parts.left),
        counted(rooms.scopes, &parts.right),
    );
    let wide = first_of(with_own(&parts.left), with_own(&parts.right));
    truth_part(rooms, at, weight, wide)
}
