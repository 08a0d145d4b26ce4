//! Expressions as relational expressions.

ghost use Rattle.std.specs.Prelude.{◌≡◌, ◌<◌, ◌^◌, length, IfOk, IsTrue};
ghost use Rattle.clf_tree.specs.Hierarchy.{is_closed};
ghost use Rattle.clf_tree.specs.Kinds.{kind};
ghost use Rattle.clf_tree.specs.Tree.{tree};
ghost use Rattle.clf_tree.specs.Intervals.{interval};
ghost use Rattle.clf_tree.specs.Core.{core};
ghost use Rattle.relational_core.specs.Choices.{is_test_form, has_two, left_of, right_of, is_choice, is_quantified, interval_by};
ghost use Rattle.relational_core.specs.Lowered.{lowered};

use crate::choices::choice_side;
use crate::node_forms::listed;
use crate::number_forms::{count, difference, literal, multiple, opposite, sum, total};
use crate::places::{Place, inside};
use crate::set_sides::{
    clafer_side, dref_side, meet_side, minus_side, parent_side, part_side, same_side, step_side,
    this_side, union_side, unknown_side, variable_side,
};
use crate::sides::{Side, Sides, tested, truth_side};
use crate::truth_forms::{
    conjunction, disjunction, equivalence, exclusion, greater, implication, less, lone, negation,
    none, not_greater, not_less, one, quantified, some,
};
use clf_base::{List, NoMemory};
use clf_tree::{Clafer, CoreExpr, Expr, Form, Scopes, clafers_of};
use std::alloc::Global;

/// The two operands.
#[cycle(lower)]
fn lower_pair(
    alloc: Global,
    clafers: &List<Clafer>,
    scopes: &Scopes,
    place: &Place,
    expr: &Expr,
) -> Result<Sides, NoMemory>
    requires closed { IsTrue (is_closed clafers.now) }
    requires few { length clafers.now < 2 ^ 32 }
    requires two { IsTrue (has_two (tree expr.now)) }
    ensures left_kind { IfOk result (λ r. r.left.kind ≡ kind clafers.now (left_of (tree expr.now)) place.now.within) }
    ensures left_bounds { IfOk result (λ r. r.left.bounds ≡ interval clafers.now scopes.now (left_of (tree expr.now)) place.now.within) }
    ensures left_expr { IfOk result (λ r. core r.left.expr ≡ lowered clafers.now scopes.now (left_of (tree expr.now)) place.now.within place.now.lists) }
    ensures right_kind { IfOk result (λ r. r.right.kind ≡ kind clafers.now (right_of (tree expr.now)) place.now.within) }
    ensures right_bounds { IfOk result (λ r. r.right.bounds ≡ interval clafers.now scopes.now (right_of (tree expr.now)) place.now.within) }
    ensures right_expr { IfOk result (λ r. core r.right.expr ≡ lowered clafers.now scopes.now (right_of (tree expr.now)) place.now.within place.now.lists) }
{
    match &expr.form {
        Form::Union(a, b)
        | Form::Minus(a, b)
        | Form::Meet(a, b)
        | Form::And(a, b)
        | Form::Or(a, b)
        | Form::Xor(a, b)
        | Form::Implies(a, b)
        | Form::Iff(a, b)
        | Form::Add(a, b)
        | Form::Sub(a, b)
        | Form::Mul(a, b)
        | Form::Less(a, b)
        | Form::LessEqual(a, b)
        | Form::Greater(a, b)
        | Form::GreaterEqual(a, b)
        | Form::Equal(a, b)
        | Form::In(a, b) => {
            let left = lower_expr(alloc, clafers, scopes, place, a.get())?;
            let right = lower_expr(alloc, clafers, scopes, place, b.get())?;
            Ok(Sides { left, right })
        }
        _ => unreachable!(),
    }
}

#[cycle(lower)]
fn lower_choice(
    alloc: Global,
    clafers: &List<Clafer>,
    scopes: &Scopes,
    place: &Place,
    expr: &Expr,
) -> Result<Side, NoMemory>
    requires closed { IsTrue (is_closed clafers.now) }
    requires few { length clafers.now < 2 ^ 32 }
    requires choice { IsTrue (is_choice (tree expr.now)) }
    ensures kind { IfOk result (λ r. r.kind ≡ kind clafers.now (tree expr.now) place.now.within) }
    ensures bounds { IfOk result (λ r. r.bounds ≡ interval clafers.now scopes.now (tree expr.now) place.now.within) }
    ensures expr { IfOk result (λ r. core r.expr ≡ lowered clafers.now scopes.now (tree expr.now) place.now.within place.now.lists) }
{
    match &expr.form {
        Form::If(test, then, other) => {
            let test = lower_expr(alloc, clafers, scopes, place, test.get())?;
            let left = lower_expr(alloc, clafers, scopes, place, then.get())?;
            let right = lower_expr(alloc, clafers, scopes, place, other.get())?;
            choice_side(alloc, clafers, scopes, test, Sides { left, right })
        }
        _ => unreachable!(),
    }
}

#[cycle(lower)]
fn lower_quant(
    alloc: Global,
    clafers: &List<Clafer>,
    scopes: &Scopes,
    place: &Place,
    expr: &Expr,
) -> Result<CoreExpr, NoMemory>
    requires closed { IsTrue (is_closed clafers.now) }
    requires few { length clafers.now < 2 ^ 32 }
    requires quantified { IsTrue (is_quantified (tree expr.now)) }
    ensures { IfOk result (λ r. core r ≡ lowered clafers.now scopes.now (tree expr.now) place.now.within place.now.lists) }
{
    match &expr.form {
        Form::Quant {
            word,
            disj,
            names,
            over,
            body,
        } => {
            let Side {
                kind,
                bounds: _,
                expr: nodes,
            } = lower_expr(alloc, clafers, scopes, place, over.get())?;
            let ks = clafers_of(alloc, kind);
            let inner = inside(alloc, place, &ks, listed(nodes.get()), names.len())?;
            let test = lower_expr(alloc, clafers, scopes, &inner, body.get())?;
            let body = tested(alloc, test)?;
            quantified(alloc, *word, *disj, names.len(), nodes, body)
        }
        _ => unreachable!(),
    }
}

/// The relational expression of a connective, an order, a count of nodes or a quantifier.
#[cycle(lower)]
fn lower_test(
    alloc: Global,
    clafers: &List<Clafer>,
    scopes: &Scopes,
    place: &Place,
    expr: &Expr,
) -> Result<CoreExpr, NoMemory>
    requires closed { IsTrue (is_closed clafers.now) }
    requires few { length clafers.now < 2 ^ 32 }
    requires test { IsTrue (is_test_form (tree expr.now)) }
    ensures { IfOk result (λ r. core r ≡ lowered clafers.now scopes.now (tree expr.now) place.now.within place.now.lists) }
{
    match &expr.form {
        Form::Not(a) => negation(alloc, lower_expr(alloc, clafers, scopes, place, a.get())?),
        Form::And(_, _) => conjunction(alloc, lower_pair(alloc, clafers, scopes, place, expr)?),
        Form::Or(_, _) => disjunction(alloc, lower_pair(alloc, clafers, scopes, place, expr)?),
        Form::Xor(_, _) => exclusion(alloc, lower_pair(alloc, clafers, scopes, place, expr)?),
        Form::Implies(_, _) => implication(alloc, lower_pair(alloc, clafers, scopes, place, expr)?),
        Form::Iff(_, _) => equivalence(alloc, lower_pair(alloc, clafers, scopes, place, expr)?),
        Form::Less(_, _) => less(alloc, lower_pair(alloc, clafers, scopes, place, expr)?),
        Form::LessEqual(_, _) => not_greater(
            alloc,
            lower_pair(alloc, clafers, scopes, place, expr)?,
        ),
        Form::Greater(_, _) => greater(alloc, lower_pair(alloc, clafers, scopes, place, expr)?),
        Form::GreaterEqual(_, _) => not_less(
            alloc,
            lower_pair(alloc, clafers, scopes, place, expr)?,
        ),
        Form::Some(a) => Ok(some(lower_expr(alloc, clafers, scopes, place, a.get())?)),
        Form::No(a) => Ok(none(lower_expr(alloc, clafers, scopes, place, a.get())?)),
        Form::One(a) => Ok(one(lower_expr(alloc, clafers, scopes, place, a.get())?)),
        Form::Lone(a) => Ok(lone(lower_expr(alloc, clafers, scopes, place, a.get())?)),
        Form::Quant { .. } => lower_quant(alloc, clafers, scopes, place, expr),
        _ => unreachable!(),
    }
}

/// The expression by its form.
#[cycle(lower)]
fn lower_form(
    alloc: Global,
    clafers: &List<Clafer>,
    scopes: &Scopes,
    place: &Place,
    expr: &Expr,
) -> Result<Side, NoMemory>
    requires closed { IsTrue (is_closed clafers.now) }
    requires few { length clafers.now < 2 ^ 32 }
    ensures kind { IfOk result (λ r. r.kind ≡ kind clafers.now (tree expr.now) place.now.within) }
    ensures bounds { IfOk result (λ r. r.bounds ≡ interval_by clafers.now scopes.now (tree expr.now) place.now.within r.kind) }
    ensures expr { IfOk result (λ r. core r.expr ≡ lowered clafers.now scopes.now (tree expr.now) place.now.within place.now.lists) }
{
    match &expr.form {
        Form::Literal(value) => literal(alloc, *value),
        Form::This => this_side(alloc, clafers, scopes, place),
        Form::Variable(variable) => variable_side(alloc, clafers, scopes, place, *variable),
        Form::Clafer(clafer) => clafer_side(alloc, clafers, scopes, *clafer),
        Form::Name(_) | Form::Join(_, _) => unknown_side(alloc, clafers, scopes),
        Form::Step { of, into, follow } => step_side(
            alloc,
            clafers,
            scopes,
            lower_expr(alloc, clafers, scopes, place, of.get())?,
            into,
            *follow,
        ),
        Form::Parent(a) => parent_side(
            alloc,
            clafers,
            scopes,
            lower_expr(alloc, clafers, scopes, place, a.get())?,
        ),
        Form::Dref(a) => dref_side(
            alloc,
            clafers,
            scopes,
            lower_expr(alloc, clafers, scopes, place, a.get())?,
        ),
        Form::Union(_, _) => union_side(
            alloc,
            clafers,
            scopes,
            lower_pair(alloc, clafers, scopes, place, expr)?,
        ),
        Form::Minus(_, _) => minus_side(
            alloc,
            clafers,
            scopes,
            lower_pair(alloc, clafers, scopes, place, expr)?,
        ),
        Form::Meet(_, _) => meet_side(
            alloc,
            clafers,
            scopes,
            lower_pair(alloc, clafers, scopes, place, expr)?,
        ),
        Form::If(_, _, _) => lower_choice(alloc, clafers, scopes, place, expr),
        Form::Card(a) => count(
            alloc,
            clafers,
            scopes,
            lower_expr(alloc, clafers, scopes, place, a.get())?,
        ),
        Form::Sum(a) => total(
            alloc,
            clafers,
            scopes,
            lower_expr(alloc, clafers, scopes, place, a.get())?,
        ),
        Form::Neg(a) => opposite(alloc, lower_expr(alloc, clafers, scopes, place, a.get())?),
        Form::Add(_, _) => sum(alloc, lower_pair(alloc, clafers, scopes, place, expr)?),
        Form::Sub(_, _) => difference(alloc, lower_pair(alloc, clafers, scopes, place, expr)?),
        Form::Mul(_, _) => multiple(alloc, lower_pair(alloc, clafers, scopes, place, expr)?),
        Form::Equal(_, _) => same_side(
            alloc,
            clafers,
            scopes,
            lower_pair(alloc, clafers, scopes, place, expr)?,
        ),
        Form::In(_, _) => part_side(
            alloc,
            clafers,
            scopes,
            lower_pair(alloc, clafers, scopes, place, expr)?,
        ),
        Form::Not(_)
        | Form::And(_, _)
        | Form::Or(_, _)
        | Form::Xor(_, _)
        | Form::Implies(_, _)
        | Form::Iff(_, _)
        | Form::Less(_, _)
        | Form::LessEqual(_, _)
        | Form::Greater(_, _)
        | Form::GreaterEqual(_, _)
        | Form::Some(_)
        | Form::No(_)
        | Form::One(_)
        | Form::Lone(_)
        | Form::Quant { .. } => truth_side(
            alloc,
            clafers,
            scopes,
            lower_test(alloc, clafers, scopes, place, expr)?,
        ),
    }
}

/// The relational expression of an expression, with its kind and its interval. Kinds are asked once for each part; a part costs a
/// walk over the clafers.
#[cycle(lower)]
pub fn lower_expr(
    alloc: Global,
    clafers: &List<Clafer>,
    scopes: &Scopes,
    place: &Place,
    expr: &Expr,
) -> Result<Side, NoMemory>
    requires closed { IsTrue (is_closed clafers.now) }
    requires few { length clafers.now < 2 ^ 32 }
    ensures kind { IfOk result (λ r. r.kind ≡ kind clafers.now (tree expr.now) place.now.within) }
    ensures bounds { IfOk result (λ r. r.bounds ≡ interval clafers.now scopes.now (tree expr.now) place.now.within) }
    ensures expr { IfOk result (λ r. core r.expr ≡ lowered clafers.now scopes.now (tree expr.now) place.now.within place.now.lists) }
{
    let side = lower_form(alloc, clafers, scopes, place, expr)?;
    Ok(side)
}
