//! An expression with its names looked up.

ghost use Rattle.std.specs.Prelude.{◌≡◌, ◌<◌, ◌^◌, length, IfOk, IsTrue};
ghost use Rattle.clf_tree.specs.Hierarchy.{is_below, is_closed};
ghost use Rattle.clf_tree.specs.Named.{each, follows_parent};
ghost use Rattle.clf_tree.specs.Kinds.{kind};
ghost use Rattle.clf_tree.specs.Tree.{tree};
ghost use Rattle.name_tables.specs.Tables.{IsTableOf};
ghost use Rattle.expression_names.specs.LookedUp as spec;

use crate::leaves::{clafer, literal, step, variable};
use crate::looked::Looked;
use crate::names::{Known, join, name, parent, this};
use crate::nodes::{choice, dref, equal, meet, minus, quantifier, union, within};
use crate::numbers::{add, card, mul, neg, sub, sum};
use crate::scope::{Scope, bind};
use crate::truths::{
    and, greater, greater_equal, iff, implies, less, less_equal, lone, no, not, one, or, some, xor,
};
use clf_base::NoMemory;
use clf_tree::{Expr, Form};
use std::alloc::Global;

/// An expression with its names looked up among the clafers of a model, from the clafer of `this`.
///
/// A name is replaced by steps or by a variable, a step by a name by one into clafers; all that is new stands at the place of
/// the name. What is not found stays as it is, and the first refusal tells of it: 62 for a name that is not found, 63 for one
/// that is ambiguous, 66 for `this` at top level and for a `parent` of nodes that have none. Each part is visited once.
pub fn looked_up(
    alloc: Global,
    known: &Known,
    scope: &Scope,
    expr: &Expr,
) -> Result<Looked, NoMemory>
    requires this_in { IsTrue (is_below (length known.now.model.now.clafers) scope.now.within.this) }
    requires closed { IsTrue (is_closed known.now.model.now.clafers) }
    requires parents_first { IsTrue (each known.now.model.now.clafers (follows_parent known.now.model.now.clafers)) }
    requires few { length known.now.model.now.clafers < 2 ^ 32 }
    requires table { IsTableOf known.now.model.now.clafers known.now.table.now }
    ensures expr { IfOk result (λ l. tree l.expr ≡ spec.looked_up known.now.model.now.clafers (tree expr.now) scope.now) }
    ensures kind { IfOk result (λ l. l.kind ≡ kind known.now.model.now.clafers (spec.looked_up known.now.model.now.clafers (tree expr.now) scope.now) scope.now.within) }
    ensures refused { IfOk result (λ l. l.refused ≡ spec.refusal known.now.model.now.clafers (tree expr.now) scope.now) }
{
    let at = expr.at;
    match &expr.form {
        Form::Literal(value) => literal(alloc, at, *value),
        Form::This => this(alloc, at, scope.within.this),
        Form::Variable(number) => variable(alloc, &scope.within, at, *number),
        Form::Clafer(number) => clafer(alloc, at, *number),
        Form::Name(written) => name(alloc, known, scope, at, written),
        Form::Join(a, written) => {
            let a = looked_up(alloc, known, scope, a.get())?;
            join(alloc, known, &scope.within, at, a, written)
        }
        Form::Step { of, into, follow } => {
            let of = looked_up(alloc, known, scope, of.get())?;
            step(alloc, at, of, into.copy(alloc)?, *follow)
        }
        Form::Parent(a) => {
            let a = looked_up(alloc, known, scope, a.get())?;
            parent(alloc, &known.model.clafers, at, a)
        }
        Form::Dref(a) => {
            let a = looked_up(alloc, known, scope, a.get())?;
            dref(alloc, &known.model.clafers, at, a)
        }
        Form::Union(a, b) => {
            let a = looked_up(alloc, known, scope, a.get())?;
            let b = looked_up(alloc, known, scope, b.get())?;
            union(alloc, at, a, b)
        }
        Form::Minus(a, b) => {
            let a = looked_up(alloc, known, scope, a.get())?;
            let b = looked_up(alloc, known, scope, b.get())?;
            minus(alloc, &known.model.clafers, at, a, b)
        }
        Form::Meet(a, b) => {
            let a = looked_up(alloc, known, scope, a.get())?;
            let b = looked_up(alloc, known, scope, b.get())?;
            meet(alloc, &known.model.clafers, at, a, b)
        }
        Form::If(test, a, b) => {
            let test = looked_up(alloc, known, scope, test.get())?;
            let a = looked_up(alloc, known, scope, a.get())?;
            let b = looked_up(alloc, known, scope, b.get())?;
            choice(alloc, at, test, a, b)
        }
        Form::Not(a) => {
            let a = looked_up(alloc, known, scope, a.get())?;
            not(alloc, at, a)
        }
        Form::Card(a) => {
            let a = looked_up(alloc, known, scope, a.get())?;
            card(alloc, at, a)
        }
        Form::Sum(a) => {
            let a = looked_up(alloc, known, scope, a.get())?;
            sum(alloc, at, a)
        }
        Form::Neg(a) => {
            let a = looked_up(alloc, known, scope, a.get())?;
            neg(alloc, at, a)
        }
        Form::Some(a) => {
            let a = looked_up(alloc, known, scope, a.get())?;
            some(alloc, at, a)
        }
        Form::No(a) => {
            let a = looked_up(alloc, known, scope, a.get())?;
            no(alloc, at, a)
        }
        Form::One(a) => {
            let a = looked_up(alloc, known, scope, a.get())?;
            one(alloc, at, a)
        }
        Form::Lone(a) => {
            let a = looked_up(alloc, known, scope, a.get())?;
            lone(alloc, at, a)
        }
        Form::And(a, b) => {
            let a = looked_up(alloc, known, scope, a.get())?;
            let b = looked_up(alloc, known, scope, b.get())?;
            and(alloc, at, a, b)
        }
        Form::Or(a, b) => {
            let a = looked_up(alloc, known, scope, a.get())?;
            let b = looked_up(alloc, known, scope, b.get())?;
            or(alloc, at, a, b)
        }
        Form::Xor(a, b) => {
            let a = looked_up(alloc, known, scope, a.get())?;
            let b = looked_up(alloc, known, scope, b.get())?;
            xor(alloc, at, a, b)
        }
        Form::Implies(a, b) => {
            let a = looked_up(alloc, known, scope, a.get())?;
            let b = looked_up(alloc, known, scope, b.get())?;
            implies(alloc, at, a, b)
        }
        Form::Iff(a, b) => {
            let a = looked_up(alloc, known, scope, a.get())?;
            let b = looked_up(alloc, known, scope, b.get())?;
            iff(alloc, at, a, b)
        }
        Form::Add(a, b) => {
            let a = looked_up(alloc, known, scope, a.get())?;
            let b = looked_up(alloc, known, scope, b.get())?;
            add(alloc, at, a, b)
        }
        Form::Sub(a, b) => {
            let a = looked_up(alloc, known, scope, a.get())?;
            let b = looked_up(alloc, known, scope, b.get())?;
            sub(alloc, at, a, b)
        }
        Form::Mul(a, b) => {
            let a = looked_up(alloc, known, scope, a.get())?;
            let b = looked_up(alloc, known, scope, b.get())?;
            mul(alloc, at, a, b)
        }
        Form::Less(a, b) => {
            let a = looked_up(alloc, known, scope, a.get())?;
            let b = looked_up(alloc, known, scope, b.get())?;
            less(alloc, at, a, b)
        }
        Form::LessEqual(a, b) => {
            let a = looked_up(alloc, known, scope, a.get())?;
            let b = looked_up(alloc, known, scope, b.get())?;
            less_equal(alloc, at, a, b)
        }
        Form::Greater(a, b) => {
            let a = looked_up(alloc, known, scope, a.get())?;
            let b = looked_up(alloc, known, scope, b.get())?;
            greater(alloc, at, a, b)
        }
        Form::GreaterEqual(a, b) => {
            let a = looked_up(alloc, known, scope, a.get())?;
            let b = looked_up(alloc, known, scope, b.get())?;
            greater_equal(alloc, at, a, b)
        }
        Form::Equal(a, b) => {
            let a = looked_up(alloc, known, scope, a.get())?;
            let b = looked_up(alloc, known, scope, b.get())?;
            equal(alloc, &known.model.clafers, at, a, b)
        }
        Form::In(a, b) => {
            let a = looked_up(alloc, known, scope, a.get())?;
            let b = looked_up(alloc, known, scope, b.get())?;
            within(alloc, &known.model.clafers, at, a, b)
        }
        Form::Quant {
            word,
            disj,
            names,
            over,
            body,
        } => {
            let over = looked_up(alloc, known, scope, over.get())?;
            let inner = bind(alloc, scope, names, over.kind)?;
            let body = looked_up(alloc, known, &inner, body.get())?;
            quantifier(
                alloc,
                at,
                *word,
                *disj,
                names,
                over.expr,
                over.refused,
                body,
            )
        }
    }
}
