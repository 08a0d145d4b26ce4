//! Choices between two finished parts.

ghost use Rattle.std.specs.Prelude.{◌≡◌, ◌<◌, ◌^◌, Some, [], length, IfOk, IsTrue};
ghost use Rattle.std.specs.Option.{option_map, option_and_then};
ghost use Rattle.std.specs.Int.{int_min, int_max};
ghost use Rattle.clf_tree.specs.Hierarchy.{is_closed};
ghost use Rattle.clf_tree.specs.Core as Core;
ghost use Rattle.clf_tree.specs.Core.{core};
ghost use Rattle.clf_tree.specs.Kinds.{branch_kind};
ghost use Rattle.clf_tree.specs.Widths.{width};
ghost use Rattle.clf_tree.specs.Intervals.{between, choice as chosen_bounds};
ghost use Rattle.clf_tree.specs.declared.kind.Kind.TheVariants as kinds;
ghost use Rattle.relational_core.specs.Choices.{position_of};
ghost use Rattle.relational_core.specs.Lowered.{as_truth, as_number, choice, choose_nodes, kind_interval};

use crate::node_forms::choose_nodes;
use crate::sides::{Pair, Side, Sides, counted_pair, set_side, tested, tested_pair, truth_side};
use clf_base::{List, NoMemory};
use clf_tree::{Clafer, CoreExpr, Kind, Scopes, if_kind};
use int_widths::{whole, width};
use sqlite_items::Boxed;
use std::alloc::Global;

/// What a choice is: a truth value, an integer, or nodes.
pub enum Position {
    Truth,
    Number,
    Nodes,
}

fn branch_position(left: &Kind, right: &Kind) -> Position
    ensures { result ≡ position_of (Some (branch_kind left.now right.now)) }
{
    match left {
        Kind::Truth => Position::Truth,
        Kind::Nodes(_) => match right {
            Kind::Truth => Position::Truth,
            Kind::Nodes(_) => Position::Nodes,
            _ => Position::Number,
        },
        _ => match right {
            Kind::Truth => Position::Truth,
            _ => Position::Number,
        },
    }
}

fn position_between(left: &Option<Kind>, right: &Option<Kind>) -> Position
    ensures { result ≡ position_of (option_and_then (λ x. option_map (branch_kind x) right.now) left.now) }
{
    match left {
        Some(a) => match right {
            Some(b) => branch_position(a, b),
            None => Position::Nodes,
        },
        None => Position::Nodes,
    }
}

fn truth_choice(
    alloc: Global,
    clafers: &List<Clafer>,
    scopes: &Scopes,
    test: Boxed<CoreExpr>,
    sides: Sides,
) -> Result<Side, NoMemory>
    requires closed { IsTrue (is_closed clafers.now) }
    requires few { length clafers.now < 2 ^ 32 }
    ensures kind { IfOk result (λ r. r.kind ≡ Some kinds.Truth) }
    ensures bounds { IfOk result (λ r. r.bounds ≡ kind_interval clafers.now scopes.now (Some kinds.Truth)) }
    ensures expr { IfOk result (λ r. core r.expr ≡ Core.ChooseTruth (core test) (as_truth sides.left.kind (core sides.left.expr)) (as_truth sides.right.kind (core sides.right.expr))) }
{
    let Pair { left, right } = tested_pair(alloc, sides)?;
    let choice = CoreExpr::ChooseTruth(test, left, right);
    truth_side(alloc, clafers, scopes, choice)
}

fn number_choice(alloc: Global, test: Boxed<CoreExpr>, sides: Sides) -> Result<Side, NoMemory>
    ensures kind { IfOk result (λ r. r.kind ≡ Some kinds.Integer) }
    ensures bounds { IfOk result (λ r. r.bounds ≡ between (int_min sides.left.bounds.low sides.right.bounds.low) (int_max sides.left.bounds.high sides.right.bounds.high)) }
    ensures expr { IfOk result (λ r. core r.expr ≡ Core.ChooseNumber (width (between (int_min sides.left.bounds.low sides.right.bounds.low) (int_max sides.left.bounds.high sides.right.bounds.high))) (core test) (as_number sides.left.kind sides.left.bounds (core sides.left.expr)) (as_number sides.right.kind sides.right.bounds (core sides.right.expr))) }
{
    let bounds = whole(sides.left.bounds, sides.right.bounds);
    let Pair { left, right } = counted_pair(alloc, sides)?;
    let choice = CoreExpr::ChooseNumber {
        width: width(bounds),
        test,
        then: left,
        other: right,
    };
    let expr = Boxed::new(alloc, choice)?;
    let kind = Some(Kind::Integer);
    Ok(Side { kind, bounds, expr })
}

fn nodes_choice(
    alloc: Global,
    clafers: &List<Clafer>,
    scopes: &Scopes,
    test: Boxed<CoreExpr>,
    sides: Sides,
) -> Result<Side, NoMemory>
    requires closed { IsTrue (is_closed clafers.now) }
    requires few { length clafers.now < 2 ^ 32 }
    ensures kind { IfOk result (λ r. r.kind ≡ option_and_then (λ x. option_map (branch_kind x) sides.right.kind) sides.left.kind) }
    ensures bounds { IfOk result (λ r. r.bounds ≡ kind_interval clafers.now scopes.now (option_and_then (λ x. option_map (branch_kind x) sides.right.kind) sides.left.kind)) }
    ensures expr { IfOk result (λ r. core r.expr ≡ choose_nodes clafers.now scopes.now (core test) (core sides.left.expr) (core sides.right.expr)) }
{
    let Sides { left, right } = sides;
    let expr = choose_nodes(alloc, clafers, scopes, test, left.expr, right.expr)?;
    let kind = if_kind(left.kind, right.kind)?;
    Ok(set_side(clafers, scopes, kind, expr))
}

/// One of two parts, in the position that the kind of the choice has.
#[tactic(auto, using(crate::proofs::Choosing::choices))]
pub fn choice_side(
    alloc: Global,
    clafers: &List<Clafer>,
    scopes: &Scopes,
    test: Side,
    sides: Sides,
) -> Result<Side, NoMemory>
    requires closed { IsTrue (is_closed clafers.now) }
    requires few { length clafers.now < 2 ^ 32 }
    ensures kind { IfOk result (λ r. r.kind ≡ option_and_then (λ x. option_map (branch_kind x) sides.right.kind) sides.left.kind) }
    ensures bounds { IfOk result (λ r. r.bounds ≡ chosen_bounds clafers.now scopes.now (option_and_then (λ x. option_map (branch_kind x) sides.right.kind) sides.left.kind) sides.left.bounds sides.right.bounds) }
    ensures expr { IfOk result (λ r. core r.expr ≡ choice clafers.now scopes.now (option_and_then (λ x. option_map (branch_kind x) sides.right.kind) sides.left.kind) (chosen_bounds clafers.now scopes.now (option_and_then (λ x. option_map (branch_kind x) sides.right.kind) sides.left.kind) sides.left.bounds sides.right.bounds) sides.left.kind sides.right.kind sides.left.bounds sides.right.bounds (as_truth test.kind (core test.expr)) (core sides.left.expr) (core sides.right.expr)) }
{
    let test = tested(alloc, test)?;
    match position_between(&sides.left.kind, &sides.right.kind) {
        Position::Truth => truth_choice(alloc, clafers, scopes, test, sides),
        Position::Number => number_choice(alloc, test, sides),
        Position::Nodes => nodes_choice(alloc, clafers, scopes, test, sides),
    }
}
