//! What a position asks of the kind of its operand.

ghost use Rattle.std.specs.Prelude.{◌≡◌, Some, None, if◌then◌else◌};
ghost use Rattle.clf_tree.specs.Hierarchy.{refer_to_int};
ghost use Rattle.refusal_order.specs.Order.{refused};
ghost use Rattle.type_checker.specs.declared.position.Position.TheVariants as position;
ghost use Rattle.type_checker.specs.Refusals.{misfit, is_truth, is_number, branch_position, side_position};

use clf_base::{List, Refusal, Span};
use clf_tree::{Clafer, Kind, refer_to_int};
use refusal_order::refused;

/// Where an operand stands.
#[derive(Clone, Copy, Debug, PartialEq, Eq)]
pub enum Position {
    /// A truth value, or nodes as "not empty".
    Truth,
    /// An integer, or nodes that refer to integers as their sum.
    Number,
    /// Nodes.
    Nodes,
    /// Nodes that refer to integers.
    Sum,
    /// Whatever has a kind.
    Any,
}

fn in_truth(_clafers: &List<Clafer>, kind: &Option<Kind>, at: Span) -> Option<Refusal>
    ensures { result ≡ misfit _clafers.now position.Truth kind.now at }
{
    match kind {
        Some(Kind::Integer) | Some(Kind::Numbers(_)) => Some(refused(70, at, 0)),
        _ => None,
    }
}

fn unless_integers(clafers: &List<Clafer>, ks: &List<u32>, at: Span) -> Option<Refusal>
    ensures { result ≡ if refer_to_int clafers.now ks.now then None else Some (refused 73 at 0) }
{
    if refer_to_int(clafers, ks) {
        None
    } else {
        Some(refused(73, at, 0))
    }
}

fn in_number(clafers: &List<Clafer>, kind: &Option<Kind>, at: Span) -> Option<Refusal>
    ensures { result ≡ misfit clafers.now position.Number kind.now at }
{
    match kind {
        Some(Kind::Truth) => Some(refused(71, at, 0)),
        Some(Kind::Nodes(ks)) => unless_integers(clafers, ks, at),
        _ => None,
    }
}

fn in_nodes(_clafers: &List<Clafer>, kind: &Option<Kind>, at: Span) -> Option<Refusal>
    ensures { result ≡ misfit _clafers.now position.Nodes kind.now at }
{
    match kind {
        Some(Kind::Nodes(_)) | None => None,
        _ => Some(refused(72, at, 0)),
    }
}

fn in_sum(clafers: &List<Clafer>, kind: &Option<Kind>, at: Span) -> Option<Refusal>
    ensures { result ≡ misfit clafers.now position.Sum kind.now at }
{
    match kind {
        Some(Kind::Nodes(ks)) => unless_integers(clafers, ks, at),
        None => None,
        _ => Some(refused(72, at, 0)),
    }
}

/// What is said of an operand of this kind at this place, if it doesn't fit.
pub fn misfit(
    clafers: &List<Clafer>,
    position: Position,
    kind: &Option<Kind>,
    at: Span,
) -> Option<Refusal>
    ensures { result ≡ misfit clafers.now position kind.now at }
{
    match position {
        Position::Truth => in_truth(clafers, kind, at),
        Position::Number => in_number(clafers, kind, at),
        Position::Nodes => in_nodes(clafers, kind, at),
        Position::Sum => in_sum(clafers, kind, at),
        Position::Any => None,
    }
}

fn is_truth(kind: &Option<Kind>) -> bool
    ensures { result ≡ is_truth kind.now }
{
    match kind {
        Some(Kind::Truth) => true,
        _ => false,
    }
}

fn is_number(kind: &Option<Kind>) -> bool
    ensures { result ≡ is_number kind.now }
{
    match kind {
        Some(Kind::Integer) | Some(Kind::Numbers(_)) => true,
        _ => false,
    }
}

/// The position of the branches of a choice, by their kinds.
pub fn branch_position(a: &Option<Kind>, b: &Option<Kind>) -> Position
    ensures { result ≡ branch_position a.now b.now }
{
    if is_truth(a) || is_truth(b) {
        Position::Truth
    } else if is_number(a) || is_number(b) {
        Position::Number
    } else {
        Position::Any
    }
}

/// The position of a side of `=` and `in`, by its kind and that of the other side. A truth value fits on no side.
pub fn side_position(a: &Option<Kind>, b: &Option<Kind>) -> Position
    ensures { result ≡ side_position a.now b.now }
{
    if is_truth(a) {
        Position::Number
    } else if is_truth(b) {
        Position::Any
    } else if is_number(a) || is_number(b) {
        Position::Number
    } else {
        Position::Any
    }
}
