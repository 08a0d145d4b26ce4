//! The kind of an expression and the first refusal in it.

ghost use Rattle.std.specs.Prelude.{◌≡◌, ◌<◌, ◌^◌, length, IfOk, IsTrue};
ghost use Rattle.std.specs.Option.{option_or, option_map, option_and_then};
ghost use Rattle.clf_tree.specs.Hierarchy.{is_closed};
ghost use Rattle.clf_tree.specs.Tree.{tree};
ghost use Rattle.clf_tree.specs.Kinds as kinds;
ghost use Rattle.clf_tree.specs.Numerics.{place};
ghost use Rattle.type_checker.specs.declared.position.Position.TheVariants as position;
ghost use Rattle.type_checker.specs.Refusals as spec;
ghost use Rattle.type_checker.specs.Parts.{part_of};

use crate::part::{Part, first_of, operand, operands, with_kind};
use crate::position::{Position, branch_position, side_position};
use clf_base::{List, NoMemory, Refusal, Span};
use clf_tree::{
    Clafer, Expr, Form, Kind, Within, clafers_of, dref_kind, if_kind, left_kind, parent_kind,
    parents_of, reading_of, this_kind, union_kind, variable_kind,
};
use std::alloc::Global;

fn leaf(at: Span, kind: Option<Kind>) -> Part
    ensures at { result.at ≡ at }
    ensures kind { result.kind ≡ kind }
    ensures refused { result.refused ≡ None }
{
    Part {
        at,
        kind,
        refused: None,
    }
}

// One operand, whatever its kind is.
fn unary(clafers: &List<Clafer>, at: Span, kind: Kind, position: Position, a: &Part) -> Part
    ensures at { result.at ≡ at }
    ensures kind { result.kind ≡ Some kind }
    ensures refused { result.refused ≡ option_or a.now.refused (spec.misfit clafers.now position a.now.kind a.now.at) }
{
    Part {
        at,
        kind: Some(kind),
        refused: operand(clafers, position, a),
    }
}

// Two operands in one position.
fn binary(
    clafers: &List<Clafer>,
    at: Span,
    kind: Kind,
    position: Position,
    a: &Part,
    b: &Part,
) -> Part
    ensures at { result.at ≡ at }
    ensures kind { result.kind ≡ Some kind }
    ensures refused { result.refused ≡ spec.first_of (option_or a.now.refused (spec.misfit clafers.now position a.now.kind a.now.at)) (option_or b.now.refused (spec.misfit clafers.now position b.now.kind b.now.at)) }
{
    Part {
        at,
        kind: Some(kind),
        refused: operands(clafers, position, a, b),
    }
}

fn parent(alloc: Global, clafers: &List<Clafer>, at: Span, a: Part) -> Result<Part, NoMemory>
    requires closed { IsTrue (is_closed clafers.now) }
    requires few { length clafers.now < 2 ^ 32 }
    ensures at { IfOk result (λ p. p.at ≡ at) }
    ensures kind { IfOk result (λ p. p.kind ≡ kinds.parent_kind (kinds.parents_of clafers.now (kinds.clafers_of a.kind))) }
    ensures refused { IfOk result (λ p. p.refused ≡ option_or a.refused (spec.misfit clafers.now position.Nodes a.kind a.at)) }
{
    let refused = operand(clafers, Position::Nodes, &a);
    let parents = parents_of(alloc, clafers, &clafers_of(alloc, a.kind))?;
    Ok(Part {
        at,
        kind: parent_kind(parents),
        refused,
    })
}

fn dref(alloc: Global, clafers: &List<Clafer>, at: Span, a: Part) -> Result<Part, NoMemory>
    ensures at { IfOk result (λ p. p.at ≡ at) }
    ensures kind { IfOk result (λ p. p.kind ≡ kinds.dref_kind clafers.now a.kind) }
    ensures refused { IfOk result (λ p. p.refused ≡ option_or (option_or a.refused (spec.misfit clafers.now position.Nodes a.kind a.at)) (spec.where_none (kinds.dref_kind clafers.now a.kind) 75 a.at)) }
{
    let operand_refused = operand(clafers, Position::Nodes, &a);
    let kind = dref_kind(alloc, clafers, a.kind)?;
    let refused = with_kind(operand_refused, &kind, 75, a.at);
    Ok(Part { at, kind, refused })
}

fn union(clafers: &List<Clafer>, at: Span, a: Part, b: Part) -> Result<Part, NoMemory>
    ensures at { IfOk result (λ p. p.at ≡ at) }
    ensures kind { IfOk result (λ p. p.kind ≡ kinds.union_kind a.kind b.kind) }
    ensures refused { IfOk result (λ p. p.refused ≡ spec.first_of (option_or a.refused (spec.misfit clafers.now position.Nodes a.kind a.at)) (option_or b.refused (spec.misfit clafers.now position.Nodes b.kind b.at))) }
{
    let refused = operands(clafers, Position::Nodes, &a, &b);
    let kind = union_kind(a.kind, b.kind)?;
    Ok(Part { at, kind, refused })
}

fn left(clafers: &List<Clafer>, at: Span, a: Part, b: Part) -> Part
    requires closed { IsTrue (is_closed clafers.now) }
    requires few { length clafers.now < 2 ^ 32 }
    ensures at { result.at ≡ at }
    ensures kind { result.kind ≡ kinds.left_kind clafers.now a.kind b.kind }
    ensures refused { result.refused ≡ option_or (spec.first_of (option_or a.refused (spec.misfit clafers.now position.Nodes a.kind a.at)) (option_or b.refused (spec.misfit clafers.now position.Nodes b.kind b.at))) (spec.where_none (kinds.left_kind clafers.now a.kind b.kind) 74 at) }
{
    let operands_refused = operands(clafers, Position::Nodes, &a, &b);
    let kind = left_kind(clafers, a.kind, b.kind);
    let refused = with_kind(operands_refused, &kind, 74, at);
    Part { at, kind, refused }
}

fn choice(clafers: &List<Clafer>, at: Span, test: &Part, a: Part, b: Part) -> Result<Part, NoMemory>
    ensures at { IfOk result (λ p. p.at ≡ at) }
    ensures kind { IfOk result (λ p. p.kind ≡ option_and_then (λ k. option_map (kinds.branch_kind k) b.kind) a.kind) }
    ensures refused { IfOk result (λ p. p.refused ≡ spec.first_of (spec.first_of (option_or test.now.refused (spec.misfit clafers.now position.Truth test.now.kind test.now.at)) (option_or a.refused (spec.misfit clafers.now (spec.branch_position a.kind b.kind) a.kind a.at))) (option_or b.refused (spec.misfit clafers.now (spec.branch_position a.kind b.kind) b.kind b.at))) }
{
    let position = branch_position(&a.kind, &b.kind);
    let refused = first_of(
        first_of(
            operand(clafers, Position::Truth, test),
            operand(clafers, position, &a),
        ),
        operand(clafers, position, &b),
    );
    let kind = if_kind(a.kind, b.kind)?;
    Ok(Part { at, kind, refused })
}

fn sides(clafers: &List<Clafer>, a: &Part, b: &Part) -> Option<Refusal>
    ensures { result ≡ spec.first_of (option_or a.now.refused (spec.misfit clafers.now (spec.side_position a.now.kind b.now.kind) a.now.kind a.now.at)) (option_or b.now.refused (spec.misfit clafers.now (spec.side_position b.now.kind a.now.kind) b.now.kind b.now.at)) }
{
    first_of(
        operand(clafers, side_position(&a.kind, &b.kind), a),
        operand(clafers, side_position(&b.kind, &a.kind), b),
    )
}

fn compared_kind(
    alloc: Global,
    clafers: &List<Clafer>,
    a: &Option<Kind>,
    b: &Option<Kind>,
) -> Result<Option<Kind>, NoMemory>
    requires closed { IsTrue (is_closed clafers.now) }
    requires few { length clafers.now < 2 ^ 32 }
    ensures { IfOk result (λ k. k ≡ kinds.compared_kind clafers.now a.now b.now) }
{
    match a {
        Some(Kind::Nodes(_)) => match b {
            Some(Kind::Nodes(_)) => match reading_of(alloc, clafers, a, b)? {
                Some(_) => Ok(Some(Kind::Truth)),
                None => Ok(None),
            },
            _ => Ok(Some(Kind::Truth)),
        },
        _ => Ok(Some(Kind::Truth)),
    }
}

#[tactic(auto, unfolding(crate::specs::Refusals::compared))]
fn comparison(
    alloc: Global,
    clafers: &List<Clafer>,
    at: Span,
    a: Part,
    b: Part,
) -> Result<Part, NoMemory>
    requires closed { IsTrue (is_closed clafers.now) }
    requires few { length clafers.now < 2 ^ 32 }
    ensures at { IfOk result (λ p. p.at ≡ at) }
    ensures kind { IfOk result (λ p. p.kind ≡ kinds.compared_kind clafers.now a.kind b.kind) }
    ensures refused { IfOk result (λ p. p.refused ≡ spec.compared clafers.now at a.kind a.at a.refused b.kind b.at b.refused) }
{
    let kind = compared_kind(alloc, clafers, &a.kind, &b.kind)?;
    let refused = with_kind(sides(clafers, &a, &b), &kind, 74, at);
    Ok(Part { at, kind, refused })
}

/// The kinds within a quantifier over nodes of `ks`, of so many names.
fn bind(alloc: Global, within: &Within, ks: &List<u32>, names: usize) -> Result<Within, NoMemory>
    ensures { IfOk result (λ inner. inner ≡ kinds.bind_kinds ks.now names within.now) }
{
    let mut bound = List::new(alloc);
    for kind in within.bound.as_slice() {
        bound.push(kind.copy(alloc)?)?;
    }
    for _name in 0..names {
        bound.push(ks.copy(alloc)?)?;
    }
    Ok(Within {
        this: within.this,
        bound,
    })
}

fn quantifier(clafers: &List<Clafer>, at: Span, over: Option<Refusal>, body: &Part) -> Part
    ensures at { result.at ≡ at }
    ensures kind { result.kind ≡ Some Kind.Truth }
    ensures refused { result.refused ≡ spec.first_of over (option_or body.now.refused (spec.misfit clafers.now position.Truth body.now.kind body.now.at)) }
{
    Part {
        at,
        kind: Some(Kind::Truth),
        refused: first_of(over, operand(clafers, Position::Truth, body)),
    }
}

/// What is known of an expression: its place, its kind and the first refusal in it.
pub fn part_of(
    alloc: Global,
    clafers: &List<Clafer>,
    within: &Within,
    expr: &Expr,
) -> Result<Part, NoMemory>
    requires closed { IsTrue (is_closed clafers.now) }
    requires few { length clafers.now < 2 ^ 32 }
    ensures { IfOk result (λ p. p ≡ part_of clafers.now (tree expr.now) within.now) }
{
    let at = expr.at;
    match &expr.form {
        Form::Literal(_) => Ok(leaf(at, Some(Kind::Integer))),
        Form::This => Ok(leaf(at, this_kind(alloc, within.this)?)),
        Form::Variable(variable) => Ok(leaf(at, variable_kind(alloc, within, *variable)?)),
        Form::Clafer(clafer) => Ok(leaf(at, this_kind(alloc, Some(*clafer))?)),
        Form::Name(_) | Form::Join(_, _) => Ok(leaf(at, None)),
        Form::Step { of, into, .. } => {
            let of = part_of(alloc, clafers, within, of.get())?;
            let kind = Kind::Nodes(into.copy(alloc)?);
            Ok(unary(clafers, at, kind, Position::Nodes, &of))
        }
        Form::Parent(a) => parent(
            alloc,
            clafers,
            at,
            part_of(alloc, clafers, within, a.get())?,
        ),
        Form::Dref(a) => dref(
            alloc,
            clafers,
            at,
            part_of(alloc, clafers, within, a.get())?,
        ),
        Form::Union(a, b) => {
            let a = part_of(alloc, clafers, within, a.get())?;
            union(clafers, at, a, part_of(alloc, clafers, within, b.get())?)
        }
        Form::Minus(a, b) | Form::Meet(a, b) => {
            let a = part_of(alloc, clafers, within, a.get())?;
            Ok(left(clafers, at, a, part_of(alloc, clafers, within, b.get())?))
        }
        Form::If(test, a, b) => {
            let test = part_of(alloc, clafers, within, test.get())?;
            let a = part_of(alloc, clafers, within, a.get())?;
            choice(
                clafers,
                at,
                &test,
                a,
                part_of(alloc, clafers, within, b.get())?,
            )
        }
        Form::Not(a) => {
            let a = part_of(alloc, clafers, within, a.get())?;
            Ok(unary(clafers, at, Kind::Truth, Position::Truth, &a))
        }
        Form::And(a, b)
        | Form::Or(a, b)
        | Form::Xor(a, b)
        | Form::Implies(a, b)
        | Form::Iff(a, b) => {
            let a = part_of(alloc, clafers, within, a.get())?;
            let b = part_of(alloc, clafers, within, b.get())?;
            Ok(binary(clafers, at, Kind::Truth, Position::Truth, &a, &b))
        }
        Form::Card(a) => {
            let a = part_of(alloc, clafers, within, a.get())?;
            Ok(unary(clafers, at, Kind::Integer, Position::Nodes, &a))
        }
        Form::Sum(a) => {
            let a = part_of(alloc, clafers, within, a.get())?;
            Ok(unary(clafers, at, Kind::Integer, Position::Sum, &a))
        }
        Form::Neg(a) => {
            let a = part_of(alloc, clafers, within, a.get())?;
            Ok(unary(clafers, at, Kind::Integer, Position::Number, &a))
        }
        Form::Add(a, b) | Form::Sub(a, b) | Form::Mul(a, b) => {
            let a = part_of(alloc, clafers, within, a.get())?;
            let b = part_of(alloc, clafers, within, b.get())?;
            Ok(binary(clafers, at, Kind::Integer, Position::Number, &a, &b))
        }
        Form::Less(a, b) | Form::LessEqual(a, b) | Form::Greater(a, b) | Form::GreaterEqual(a, b) =>
            {
                let a = part_of(alloc, clafers, within, a.get())?;
                let b = part_of(alloc, clafers, within, b.get())?;
                Ok(binary(clafers, at, Kind::Truth, Position::Number, &a, &b))
            }
        Form::Equal(a, b) | Form::In(a, b) => {
            let a = part_of(alloc, clafers, within, a.get())?;
            comparison(
                alloc,
                clafers,
                at,
                a,
                part_of(alloc, clafers, within, b.get())?,
            )
        }
        Form::Some(a) | Form::No(a) | Form::One(a) | Form::Lone(a) => {
            let a = part_of(alloc, clafers, within, a.get())?;
            Ok(unary(clafers, at, Kind::Truth, Position::Nodes, &a))
        }
        Form::Quant {
            names,
            over,
            body,
            ..
        } => {
            let over = part_of(alloc, clafers, within, over.get())?;
            let refused = operand(clafers, Position::Nodes, &over);
            let ks = clafers_of(alloc, over.kind);
            let inner = bind(alloc, within, &ks, names.len())?;
            let body = part_of(alloc, clafers, &inner, body.get())?;
            Ok(quantifier(clafers, at, refused, &body))
        }
    }
}
