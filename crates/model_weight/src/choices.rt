//! Choices between two finished parts.

ghost use Rattle.std.specs.Prelude.{◌≡◌, Some, IfOk};
ghost use Rattle.std.specs.Option.{option_map, option_and_then};
ghost use Rattle.std.specs.Int.{int_min, int_max};
ghost use Rattle.clf_tree.specs.Kinds.{branch_kind};
ghost use Rattle.clf_tree.specs.Numerics.{is_integer};
ghost use Rattle.clf_tree.specs.Widths.{width};
ghost use Rattle.clf_tree.specs.Intervals.{between, choice as chosen_bounds};
ghost use Rattle.clf_tree.specs.declared.kind.Kind.TheVariants as kinds;
ghost use Rattle.model_weight.specs.Capped.{plus, times};
ghost use Rattle.model_weight.specs.Light.{both, tested, counted, chosen};
ghost use Rattle.model_weight.specs.Measures.{nodes_in, kind_interval, position_of};
ghost use Rattle.model_weight.specs.Refusals.{first_of, with_own, where_integer};

use crate::numbers::{both, plus, times};
use crate::parts::{
    Part, Parts, counted, first_of, nodes_in, number_part, set_part, tested, truth_part, with_own,
};
use crate::rooms::Rooms;
use clf_base::{NoMemory, Span};
use clf_tree::{Kind, if_kind};
use int_widths::{whole, width};

/// What a choice is: a truth value, an integer, or nodes.
pub enum Position {
    Truth,
    Number,
    Nodes,
}

fn branch_position(left: &Kind, right: &Kind) -> Position
    ensures { result ≡ position_of (Some (branch_kind left.now right.now)) }
{
    match left {
        Kind::Truth => Position::Truth,
        Kind::Nodes(_) => match right {
            Kind::Truth => Position::Truth,
            Kind::Nodes(_) => Position::Nodes,
            _ => Position::Number,
        },
        _ => match right {
            Kind::Truth => Position::Truth,
            _ => Position::Number,
        },
    }
}

fn position_between(left: &Option<Kind>, right: &Option<Kind>) -> Position
    ensures { result ≡ position_of (option_and_then (λ x. option_map (branch_kind x) right.now) left.now) }
{
    match left {
        Some(a) => match right {
            Some(b) => branch_position(a, b),
            None => Position::Nodes,
        },
        None => Position::Nodes,
    }
}

fn truth_choice(rooms: &Rooms, at: Span, test: &Part, parts: &Parts) -> Part
    ensures at { result.at ≡ at }
    ensures kind { result.kind ≡ Some kinds.Truth }
    ensures nodes { result.nodes ≡ nodes_in rooms.now.clafers.now rooms.now.scopes.now result.kind }
    ensures bounds { result.bounds ≡ kind_interval rooms.now.clafers.now rooms.now.scopes.now (Some kinds.Truth) }
    ensures weight { result.weight ≡ plus (both 8 (tested rooms.now.scopes.now parts.now.left.kind parts.now.left.nodes parts.now.left.weight) (tested rooms.now.scopes.now parts.now.right.kind parts.now.right.nodes parts.now.right.weight)) (tested rooms.now.scopes.now test.now.kind test.now.nodes test.now.weight) }
    ensures wide { result.wide ≡ first_of (first_of test.now.wide parts.now.left.wide) parts.now.right.wide }
{
    let own = both(
        8,
        tested(rooms.scopes, &parts.left),
        tested(rooms.scopes, &parts.right),
    );
    let wide = first_of(first_of(test.wide, parts.left.wide), parts.right.wide);
    truth_part(rooms, at, plus(own, tested(rooms.scopes, test)), wide)
}

fn number_choice(rooms: &Rooms, at: Span, test: &Part, parts: &Parts) -> Part
    ensures at { result.at ≡ at }
    ensures kind { result.kind ≡ Some kinds.Integer }
    ensures nodes { result.nodes ≡ nodes_in rooms.now.clafers.now rooms.now.scopes.now result.kind }
    ensures bounds { result.bounds ≡ between (int_min parts.now.left.bounds.low parts.now.right.bounds.low) (int_max parts.now.left.bounds.high parts.now.right.bounds.high) }
    ensures weight { result.weight ≡ plus (both (plus 8 (times 4 (width (between (int_min parts.now.left.bounds.low parts.now.right.bounds.low) (int_max parts.now.left.bounds.high parts.now.right.bounds.high))))) (counted rooms.now.scopes.now parts.now.left.kind parts.now.left.nodes parts.now.left.weight) (counted rooms.now.scopes.now parts.now.right.kind parts.now.right.nodes parts.now.right.weight)) (tested rooms.now.scopes.now test.now.kind test.now.nodes test.now.weight) }
    ensures wide { result.wide ≡ first_of (first_of test.now.wide (with_own parts.now.left.at parts.now.left.bounds parts.now.left.wide)) (with_own parts.now.right.at parts.now.right.bounds parts.now.right.wide) }
{
    let bounds = whole(parts.left.bounds, parts.right.bounds);
    let own = both(
        plus(8, times(4, width(bounds) as u64)),
        counted(rooms.scopes, &parts.left),
        counted(rooms.scopes, &parts.right),
    );
    let wide = first_of(
        first_of(test.wide, with_own(&parts.left)),
        with_own(&parts.right),
    );
    number_part(
        rooms,
        at,
        bounds,
        plus(own, tested(rooms.scopes, test)),
        wide,
    )
}

fn nodes_choice(rooms: &Rooms, at: Span, test: &Part, parts: Parts) -> Result<Part, NoMemory>
    ensures at { IfOk result (λ r. r.at ≡ at) }
    ensures kind { IfOk result (λ r. r.kind ≡ option_and_then (λ x. option_map (branch_kind x) parts.right.kind) parts.left.kind) }
    ensures nodes { IfOk result (λ r. r.nodes ≡ nodes_in rooms.now.clafers.now rooms.now.scopes.now r.kind) }
    ensures bounds { IfOk result (λ r. r.bounds ≡ kind_interval rooms.now.clafers.now rooms.now.scopes.now r.kind) }
    ensures weight { IfOk result (λ r. r.weight ≡ plus (both (plus 8 (times 4 (nodes_in rooms.now.clafers.now rooms.now.scopes.now r.kind))) parts.left.weight parts.right.weight) (tested rooms.now.scopes.now test.now.kind test.now.nodes test.now.weight)) }
    ensures wide { IfOk result (λ r. r.wide ≡ first_of (first_of test.now.wide parts.left.wide) parts.right.wide) }
{
    let wide = first_of(first_of(test.wide, parts.left.wide), parts.right.wide);
    let (left, right) = (parts.left.weight, parts.right.weight);
    let kind = if_kind(parts.left.kind, parts.right.kind)?;
    let own = both(plus(8, times(4, nodes_in(rooms, &kind))), left, right);
    let weight = plus(own, tested(rooms.scopes, test));
    Ok(set_part(rooms, at, kind, weight, wide))
}

/// One of two parts, in the position that the kind of the choice has.
#[tactic(auto, using(crate::proofs::Choosing::choices))]
pub fn choice_part(rooms: &Rooms, at: Span, test: &Part, parts: Parts) -> Result<Part, NoMemory>
    requires left { parts.left.nodes ≡ nodes_in rooms.now.clafers.now rooms.now.scopes.now parts.left.kind }
    requires right { parts.right.nodes ≡ nodes_in rooms.now.clafers.now rooms.now.scopes.now parts.right.kind }
    ensures at { IfOk result (λ r. r.at ≡ at) }
    ensures kind { IfOk result (λ r. r.kind ≡ option_and_then (λ x. option_map (branch_kind x) parts.right.kind) parts.left.kind) }
    ensures nodes { IfOk result (λ r. r.nodes ≡ nodes_in rooms.now.clafers.now rooms.now.scopes.now r.kind) }
    ensures bounds { IfOk result (λ r. r.bounds ≡ chosen_bounds rooms.now.clafers.now rooms.now.scopes.now (option_and_then (λ x. option_map (branch_kind x) parts.right.kind) parts.left.kind) parts.left.bounds parts.right.bounds) }
    ensures weight { IfOk result (λ r. r.weight ≡ plus (chosen rooms.now.clafers.now rooms.now.scopes.now (option_and_then (λ x. option_map (branch_kind x) parts.right.kind) parts.left.kind) (width (chosen_bounds rooms.now.clafers.now rooms.now.scopes.now (option_and_then (λ x. option_map (branch_kind x) parts.right.kind) parts.left.kind) parts.left.bounds parts.right.bounds)) parts.left.kind parts.left.weight parts.right.kind parts.right.weight) (tested rooms.now.scopes.now test.now.kind test.now.nodes test.now.weight)) }
    ensures wide { IfOk result (λ r. r.wide ≡ first_of (first_of test.now.wide (where_integer (is_integer (option_and_then (λ x. option_map (branch_kind x) parts.right.kind) parts.left.kind)) parts.left.at parts.left.bounds parts.left.wide)) (where_integer (is_integer (option_and_then (λ x. option_map (branch_kind x) parts.right.kind) parts.left.kind)) parts.right.at parts.right.bounds parts.right.wide)) }
{
    match position_between(&parts.left.kind, &parts.right.kind) {
        Position::Truth => Ok(truth_choice(rooms, at, test, &parts)),
        Position::Number => Ok(number_choice(rooms, at, test, &parts)),
        Position::Nodes => nodes_choice(rooms, at, test, parts),
    }
}
