//! What is known of an expression, in one walk.

ghost use Rattle.std.specs.Prelude.{◌≡◌, ◌<◌, ◌^◌, length, IfOk, IsTrue};
ghost use Rattle.clf_tree.specs.Kinds.{kind};
ghost use Rattle.clf_tree.specs.Numerics.{place};
ghost use Rattle.clf_tree.specs.Tree.{tree};
ghost use Rattle.clf_tree.specs.Intervals.{interval};
ghost use Rattle.model_weight.specs.Light.{light};
ghost use Rattle.model_weight.specs.Measures.{nodes_in, interval_by, has_two, left_of, right_of, is_choice, is_quantified};
ghost use Rattle.model_weight.specs.Refusals.{wide_inside};

use crate::choices::choice_part;
use crate::comparisons::comparison_part;
use crate::forms::{
    connective_part, dref_part, few_part, leaf_part, left_part, negation_part, parent_part,
    quantifier_part, step_part, union_part,
};
use crate::integers::{
    addition_part, count_part, difference_part, literal_part, opposite_part, order_part,
    product_part, sum_part,
};
use crate::parts::{Part, Parts, bind, listed};
use crate::rooms::Rooms;
use clf_base::NoMemory;
use clf_tree::{Bounds, Expr, Form, Scopes, Typed, Within, this_kind, variable_kind};
use std::alloc::Global;

/// The two operands.
#[cycle(walk)]
fn walk_pair(alloc: Global, rooms: &Rooms, within: &Within, expr: &Expr) -> Result<Parts, NoMemory>
    requires two { IsTrue (has_two (tree expr.now)) }
    ensures left_at { IfOk result (λ r. r.left.at ≡ place (left_of (tree expr.now))) }
    ensures left_kind { IfOk result (λ r. r.left.kind ≡ kind rooms.now.clafers.now (left_of (tree expr.now)) within.now) }
    ensures left_nodes { IfOk result (λ r. r.left.nodes ≡ nodes_in rooms.now.clafers.now rooms.now.scopes.now r.left.kind) }
    ensures left_bounds { IfOk result (λ r. r.left.bounds ≡ interval rooms.now.clafers.now rooms.now.scopes.now (left_of (tree expr.now)) within.now) }
    ensures left_weight { IfOk result (λ r. r.left.weight ≡ light rooms.now.clafers.now rooms.now.scopes.now (left_of (tree expr.now)) within.now) }
    ensures left_wide { IfOk result (λ r. r.left.wide ≡ wide_inside rooms.now.clafers.now rooms.now.scopes.now (left_of (tree expr.now)) within.now) }
    ensures right_at { IfOk result (λ r. r.right.at ≡ place (right_of (tree expr.now))) }
    ensures right_kind { IfOk result (λ r. r.right.kind ≡ kind rooms.now.clafers.now (right_of (tree expr.now)) within.now) }
    ensures right_nodes { IfOk result (λ r. r.right.nodes ≡ nodes_in rooms.now.clafers.now rooms.now.scopes.now r.right.kind) }
    ensures right_bounds { IfOk result (λ r. r.right.bounds ≡ interval rooms.now.clafers.now rooms.now.scopes.now (right_of (tree expr.now)) within.now) }
    ensures right_weight { IfOk result (λ r. r.right.weight ≡ light rooms.now.clafers.now rooms.now.scopes.now (right_of (tree expr.now)) within.now) }
    ensures right_wide { IfOk result (λ r. r.right.wide ≡ wide_inside rooms.now.clafers.now rooms.now.scopes.now (right_of (tree expr.now)) within.now) }
{
    match &expr.form {
        Form::Union(a, b)
        | Form::Minus(a, b)
        | Form::Meet(a, b)
        | Form::And(a, b)
        | Form::Or(a, b)
        | Form::Xor(a, b)
        | Form::Implies(a, b)
        | Form::Iff(a, b)
        | Form::Add(a, b)
        | Form::Sub(a, b)
        | Form::Mul(a, b)
        | Form::Less(a, b)
        | Form::LessEqual(a, b)
        | Form::Greater(a, b)
        | Form::GreaterEqual(a, b)
        | Form::Equal(a, b)
        | Form::In(a, b) => {
            let left = walk(alloc, rooms, within, a.get())?;
            let right = walk(alloc, rooms, within, b.get())?;
            Ok(Parts { left, right })
        }
        _ => unreachable!(),
    }
}

#[cycle(walk)]
fn walk_choice(alloc: Global, rooms: &Rooms, within: &Within, expr: &Expr) -> Result<Part, NoMemory>
    requires choice { IsTrue (is_choice (tree expr.now)) }
    ensures at { IfOk result (λ r. r.at ≡ place (tree expr.now)) }
    ensures kind { IfOk result (λ r. r.kind ≡ kind rooms.now.clafers.now (tree expr.now) within.now) }
    ensures nodes { IfOk result (λ r. r.nodes ≡ nodes_in rooms.now.clafers.now rooms.now.scopes.now r.kind) }
    ensures bounds { IfOk result (λ r. r.bounds ≡ interval rooms.now.clafers.now rooms.now.scopes.now (tree expr.now) within.now) }
    ensures weight { IfOk result (λ r. r.weight ≡ light rooms.now.clafers.now rooms.now.scopes.now (tree expr.now) within.now) }
    ensures wide { IfOk result (λ r. r.wide ≡ wide_inside rooms.now.clafers.now rooms.now.scopes.now (tree expr.now) within.now) }
{
    match &expr.form {
        Form::If(test, then, other) => {
            let test = walk(alloc, rooms, within, test.get())?;
            let left = walk(alloc, rooms, within, then.get())?;
            let right = walk(alloc, rooms, within, other.get())?;
            choice_part(rooms, expr.at, &test, Parts { left, right })
        }
        _ => unreachable!(),
    }
}

#[cycle(walk)]
fn walk_quant(alloc: Global, rooms: &Rooms, within: &Within, expr: &Expr) -> Result<Part, NoMemory>
    requires quantified { IsTrue (is_quantified (tree expr.now)) }
    ensures at { IfOk result (λ r. r.at ≡ place (tree expr.now)) }
    ensures kind { IfOk result (λ r. r.kind ≡ kind rooms.now.clafers.now (tree expr.now) within.now) }
    ensures nodes { IfOk result (λ r. r.nodes ≡ nodes_in rooms.now.clafers.now rooms.now.scopes.now r.kind) }
    ensures bounds { IfOk result (λ r. r.bounds ≡ interval_by rooms.now.clafers.now rooms.now.scopes.now (tree expr.now) within.now r.kind) }
    ensures weight { IfOk result (λ r. r.weight ≡ light rooms.now.clafers.now rooms.now.scopes.now (tree expr.now) within.now) }
    ensures wide { IfOk result (λ r. r.wide ≡ wide_inside rooms.now.clafers.now rooms.now.scopes.now (tree expr.now) within.now) }
{
    match &expr.form {
        Form::Quant {
            names,
            over,
            body,
            ..
        } => {
            let over = walk(alloc, rooms, within, over.get())?;
            let ks = listed(alloc, &over.kind)?;
            let inner = bind(alloc, within, &ks, names.len())?;
            let body = walk(alloc, rooms, &inner, body.get())?;
            Ok(quantifier_part(rooms, expr.at, names.len(), &over, &body))
        }
        _ => unreachable!(),
    }
}

/// The expression by its form.
#[cycle(walk)]
fn walk_form(alloc: Global, rooms: &Rooms, within: &Within, expr: &Expr) -> Result<Part, NoMemory>
    ensures at { IfOk result (λ r. r.at ≡ place (tree expr.now)) }
    ensures kind { IfOk result (λ r. r.kind ≡ kind rooms.now.clafers.now (tree expr.now) within.now) }
    ensures nodes { IfOk result (λ r. r.nodes ≡ nodes_in rooms.now.clafers.now rooms.now.scopes.now r.kind) }
    ensures bounds { IfOk result (λ r. r.bounds ≡ interval_by rooms.now.clafers.now rooms.now.scopes.now (tree expr.now) within.now r.kind) }
    ensures weight { IfOk result (λ r. r.weight ≡ light rooms.now.clafers.now rooms.now.scopes.now (tree expr.now) within.now) }
    ensures wide { IfOk result (λ r. r.wide ≡ wide_inside rooms.now.clafers.now rooms.now.scopes.now (tree expr.now) within.now) }
{
    let at = expr.at;
    match &expr.form {
        Form::Literal(value) => Ok(literal_part(rooms, at, *value)),
        Form::This => Ok(leaf_part(rooms, at, this_kind(alloc, within.this)?)),
        Form::Variable(variable) => Ok(leaf_part(
            rooms,
            at,
            variable_kind(alloc, within, *variable)?,
        )),
        Form::Clafer(clafer) => Ok(leaf_part(rooms, at, this_kind(alloc, Some(*clafer))?)),
        Form::Name(_) | Form::Join(_, _) => Ok(leaf_part(rooms, at, None)),
        Form::Step { of, into, follow } => step_part(
            alloc,
            rooms,
            at,
            walk(alloc, rooms, within, of.get())?,
            into,
            *follow,
        ),
        Form::Parent(a) => parent_part(alloc, rooms, at, walk(alloc, rooms, within, a.get())?),
        Form::Dref(a) => dref_part(alloc, rooms, at, walk(alloc, rooms, within, a.get())?),
        Form::Union(_, _) => union_part(rooms, at, walk_pair(alloc, rooms, within, expr)?),
        Form::Minus(_, _) | Form::Meet(_, _) => Ok(left_part(
            rooms,
            at,
            walk_pair(alloc, rooms, within, expr)?,
        )),
        Form::If(_, _, _) => walk_choice(alloc, rooms, within, expr),
        Form::Not(a) => {
            let a = walk(alloc, rooms, within, a.get())?;
            Ok(negation_part(rooms, at, &a))
        }
        Form::And(_, _)
        | Form::Or(_, _)
        | Form::Xor(_, _)
        | Form::Implies(_, _)
        | Form::Iff(_, _) => {
            let parts = walk_pair(alloc, rooms, within, expr)?;
            Ok(connective_part(rooms, at, &parts))
        }
        Form::Card(a) => {
            let a = walk(alloc, rooms, within, a.get())?;
            Ok(count_part(rooms, at, &a))
        }
        Form::Sum(a) => {
            let a = walk(alloc, rooms, within, a.get())?;
            Ok(sum_part(rooms, at, &a))
        }
        Form::Neg(a) => {
            let a = walk(alloc, rooms, within, a.get())?;
            Ok(opposite_part(rooms, at, &a))
        }
        Form::Add(_, _) => {
            let parts = walk_pair(alloc, rooms, within, expr)?;
            Ok(addition_part(rooms, at, &parts))
        }
        Form::Sub(_, _) => {
            let parts = walk_pair(alloc, rooms, within, expr)?;
            Ok(difference_part(rooms, at, &parts))
        }
        Form::Mul(_, _) => {
            let parts = walk_pair(alloc, rooms, within, expr)?;
            Ok(product_part(rooms, at, &parts))
        }
        Form::Less(_, _) => {
            let parts = walk_pair(alloc, rooms, within, expr)?;
            Ok(order_part(rooms, at, &parts))
        }
        Form::LessEqual(_, _) => {
            let parts = walk_pair(alloc, rooms, within, expr)?;
            Ok(order_part(rooms, at, &parts))
        }
        Form::Greater(_, _) => {
            let parts = walk_pair(alloc, rooms, within, expr)?;
            Ok(order_part(rooms, at, &parts))
        }
        Form::GreaterEqual(_, _) => {
            let parts = walk_pair(alloc, rooms, within, expr)?;
            Ok(order_part(rooms, at, &parts))
        }
        Form::Equal(_, _) | Form::In(_, _) => {
            let parts = walk_pair(alloc, rooms, within, expr)?;
            comparison_part(alloc, rooms, at, &parts)
        }
        Form::Some(a) => {
            let a = walk(alloc, rooms, within, a.get())?;
            Ok(few_part(rooms, at, &a))
        }
        Form::No(a) => {
            let a = walk(alloc, rooms, within, a.get())?;
            Ok(few_part(rooms, at, &a))
        }
        Form::One(a) => {
            let a = walk(alloc, rooms, within, a.get())?;
            Ok(few_part(rooms, at, &a))
        }
        Form::Lone(a) => {
            let a = walk(alloc, rooms, within, a.get())?;
            Ok(few_part(rooms, at, &a))
        }
        Form::Quant { .. } => walk_quant(alloc, rooms, within, expr),
    }
}

/// What is known of an expression. Kinds are asked once for each part.
///
/// A part costs a walk over the clafers only where it asks for parents, for what two kinds share, or for the nodes of several
/// clafers.
#[cycle(walk)]
pub fn walk(alloc: Global, rooms: &Rooms, within: &Within, expr: &Expr) -> Result<Part, NoMemory>
    ensures at { IfOk result (λ r. r.at ≡ place (tree expr.now)) }
    ensures kind { IfOk result (λ r. r.kind ≡ kind rooms.now.clafers.now (tree expr.now) within.now) }
    ensures nodes { IfOk result (λ r. r.nodes ≡ nodes_in rooms.now.clafers.now rooms.now.scopes.now r.kind) }
    ensures bounds { IfOk result (λ r. r.bounds ≡ interval rooms.now.clafers.now rooms.now.scopes.now (tree expr.now) within.now) }
    ensures weight { IfOk result (λ r. r.weight ≡ light rooms.now.clafers.now rooms.now.scopes.now (tree expr.now) within.now) }
    ensures wide { IfOk result (λ r. r.wide ≡ wide_inside rooms.now.clafers.now rooms.now.scopes.now (tree expr.now) within.now) }
{
    let part = walk_form(alloc, rooms, within, expr)?;
    Ok(part)
}

/// The interval of an expression in integer position, in which its integer lies in each instance, where no part of it needs more
/// than 62 bits.
///
/// The expression stands within `within`. Tables of the clafers are made first, for which each clafer goes to those above it; then
/// the expression is walked once. A part costs a walk over the clafers only where it asks for parents, for what two kinds share, or
/// for the nodes of several clafers.
pub fn bounds(
    alloc: Global,
    model: &Typed,
    scopes: &Scopes,
    within: &Within,
    expr: &Expr,
) -> Result<Bounds, NoMemory>
    requires few { length model.now.clafers < 2 ^ 32 }
    ensures { IfOk result (λ b. b ≡ interval model.now.clafers scopes.now (tree expr.now) within.now) }
{
    let plan = model.model();
    let rooms = Rooms::new(alloc, &plan.clafers, scopes)?;
    let part = walk(alloc, &rooms, within, expr)?;
    Ok(part.bounds)
}
