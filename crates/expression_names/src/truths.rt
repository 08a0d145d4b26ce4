//! Truth values of looked-up parts.

ghost use Rattle.std.specs.Prelude.{◌≡◌, Some, IfOk};
ghost use Rattle.clf_tree.specs.declared.kind.Kind.TheVariants as kinds;
ghost use Rattle.clf_tree.specs.Tree as e;
ghost use Rattle.clf_tree.specs.Tree.{tree};
ghost use Rattle.expression_names.specs.LookedUp as spec;

use crate::looked::{Looked, sooner};
use clf_base::{NoMemory, Span};
use clf_tree::{Expr, Form, Kind};
use sqlite_items::Boxed;
use std::alloc::Global;

pub fn not(alloc: Global, at: Span, a: Looked) -> Result<Looked, NoMemory>
    ensures expr { IfOk result (λ l. tree l.expr ≡ e.Not at (tree a.expr)) }
    ensures kind { IfOk result (λ l. l.kind ≡ Some kinds.Truth) }
    ensures refused { IfOk result (λ l. l.refused ≡ a.refused) }
{
    let form = Form::Not(a.expr);
    Ok(Looked {
        expr: Boxed::new(alloc, Expr { at, form })?,
        kind: Some(Kind::Truth),
        refused: a.refused,
    })
}

pub fn some(alloc: Global, at: Span, a: Looked) -> Result<Looked, NoMemory>
    ensures expr { IfOk result (λ l. tree l.expr ≡ e.Some at (tree a.expr)) }
    ensures kind { IfOk result (λ l. l.kind ≡ Some kinds.Truth) }
    ensures refused { IfOk result (λ l. l.refused ≡ a.refused) }
{
    let form = Form::Some(a.expr);
    Ok(Looked {
        expr: Boxed::new(alloc, Expr { at, form })?,
        kind: Some(Kind::Truth),
        refused: a.refused,
    })
}

pub fn no(alloc: Global, at: Span, a: Looked) -> Result<Looked, NoMemory>
    ensures expr { IfOk result (λ l. tree l.expr ≡ e.No at (tree a.expr)) }
    ensures kind { IfOk result (λ l. l.kind ≡ Some kinds.Truth) }
    ensures refused { IfOk result (λ l. l.refused ≡ a.refused) }
{
    let form = Form::No(a.expr);
    Ok(Looked {
        expr: Boxed::new(alloc, Expr { at, form })?,
        kind: Some(Kind::Truth),
        refused: a.refused,
    })
}

pub fn one(alloc: Global, at: Span, a: Looked) -> Result<Looked, NoMemory>
    ensures expr { IfOk result (λ l. tree l.expr ≡ e.One at (tree a.expr)) }
    ensures kind { IfOk result (λ l. l.kind ≡ Some kinds.Truth) }
    ensures refused { IfOk result (λ l. l.refused ≡ a.refused) }
{
    let form = Form::One(a.expr);
    Ok(Looked {
        expr: Boxed::new(alloc, Expr { at, form })?,
        kind: Some(Kind::Truth),
        refused: a.refused,
    })
}

pub fn lone(alloc: Global, at: Span, a: Looked) -> Result<Looked, NoMemory>
    ensures expr { IfOk result (λ l. tree l.expr ≡ e.Lone at (tree a.expr)) }
    ensures kind { IfOk result (λ l. l.kind ≡ Some kinds.Truth) }
    ensures refused { IfOk result (λ l. l.refused ≡ a.refused) }
{
    let form = Form::Lone(a.expr);
    Ok(Looked {
        expr: Boxed::new(alloc, Expr { at, form })?,
        kind: Some(Kind::Truth),
        refused: a.refused,
    })
}

pub fn and(alloc: Global, at: Span, a: Looked, b: Looked) -> Result<Looked, NoMemory>
    ensures expr { IfOk result (λ l. tree l.expr ≡ e.And at (tree a.expr) (tree b.expr)) }
    ensures kind { IfOk result (λ l. l.kind ≡ Some kinds.Truth) }
    ensures refused { IfOk result (λ l. l.refused ≡ spec.sooner a.refused b.refused) }
{
    let form = Form::And(a.expr, b.expr);
    Ok(Looked {
        expr: Boxed::new(alloc, Expr { at, form })?,
        kind: Some(Kind::Truth),
        refused: sooner(a.refused, b.refused),
    })
}

pub fn or(alloc: Global, at: Span, a: Looked, b: Looked) -> Result<Looked, NoMemory>
    ensures expr { IfOk result (λ l. tree l.expr ≡ e.Or at (tree a.expr) (tree b.expr)) }
    ensures kind { IfOk result (λ l. l.kind ≡ Some kinds.Truth) }
    ensures refused { IfOk result (λ l. l.refused ≡ spec.sooner a.refused b.refused) }
{
    let form = Form::Or(a.expr, b.expr);
    Ok(Looked {
        expr: Boxed::new(alloc, Expr { at, form })?,
        kind: Some(Kind::Truth),
        refused: sooner(a.refused, b.refused),
    })
}

pub fn xor(alloc: Global, at: Span, a: Looked, b: Looked) -> Result<Looked, NoMemory>
    ensures expr { IfOk result (λ l. tree l.expr ≡ e.Xor at (tree a.expr) (tree b.expr)) }
    ensures kind { IfOk result (λ l. l.kind ≡ Some kinds.Truth) }
    ensures refused { IfOk result (λ l. l.refused ≡ spec.sooner a.refused b.refused) }
{
    let form = Form::Xor(a.expr, b.expr);
    Ok(Looked {
        expr: Boxed::new(alloc, Expr { at, form })?,
        kind: Some(Kind::Truth),
        refused: sooner(a.refused, b.refused),
    })
}

pub fn implies(alloc: Global, at: Span, a: Looked, b: Looked) -> Result<Looked, NoMemory>
    ensures expr { IfOk result (λ l. tree l.expr ≡ e.Implies at (tree a.expr) (tree b.expr)) }
    ensures kind { IfOk result (λ l. l.kind ≡ Some kinds.Truth) }
    ensures refused { IfOk result (λ l. l.refused ≡ spec.sooner a.refused b.refused) }
{
    let form = Form::Implies(a.expr, b.expr);
    Ok(Looked {
        expr: Boxed::new(alloc, Expr { at, form })?,
        kind: Some(Kind::Truth),
        refused: sooner(a.refused, b.refused),
    })
}

pub fn iff(alloc: Global, at: Span, a: Looked, b: Looked) -> Result<Looked, NoMemory>
    ensures expr { IfOk result (λ l. tree l.expr ≡ e.Iff at (tree a.expr) (tree b.expr)) }
    ensures kind { IfOk result (λ l. l.kind ≡ Some kinds.Truth) }
    ensures refused { IfOk result (λ l. l.refused ≡ spec.sooner a.refused b.refused) }
{
    let form = Form::Iff(a.expr, b.expr);
    Ok(Looked {
        expr: Boxed::new(alloc, Expr { at, form })?,
        kind: Some(Kind::Truth),
        refused: sooner(a.refused, b.refused),
    })
}

pub fn less(alloc: Global, at: Span, a: Looked, b: Looked) -> Result<Looked, NoMemory>
    ensures expr { IfOk result (λ l. tree l.expr ≡ e.Less at (tree a.expr) (tree b.expr)) }
    ensures kind { IfOk result (λ l. l.kind ≡ Some kinds.Truth) }
    ensures refused { IfOk result (λ l. l.refused ≡ spec.sooner a.refused b.refused) }
{
    let form = Form::Less(a.expr, b.expr);
    Ok(Looked {
        expr: Boxed::new(alloc, Expr { at, form })?,
        kind: Some(Kind::Truth),
        refused: sooner(a.refused, b.refused),
    })
}

pub fn less_equal(alloc: Global, at: Span, a: Looked, b: Looked) -> Result<Looked, NoMemory>
    ensures expr { IfOk result (λ l. tree l.expr ≡ e.LessEqual at (tree a.expr) (tree b.expr)) }
    ensures kind { IfOk result (λ l. l.kind ≡ Some kinds.Truth) }
    ensures refused { IfOk result (λ l. l.refused ≡ spec.sooner a.refused b.refused) }
{
    let form = Form::LessEqual(a.expr, b.expr);
    Ok(Looked {
        expr: Boxed::new(alloc, Expr { at, form })?,
        kind: Some(Kind::Truth),
        refused: sooner(a.refused, b.refused),
    })
}

pub fn greater(alloc: Global, at: Span, a: Looked, b: Looked) -> Result<Looked, NoMemory>
    ensures expr { IfOk result (λ l. tree l.expr ≡ e.Greater at (tree a.expr) (tree b.expr)) }
    ensures kind { IfOk result (λ l. l.kind ≡ Some kinds.Truth) }
    ensures refused { IfOk result (λ l. l.refused ≡ spec.sooner a.refused b.refused) }
{
    let form = Form::Greater(a.expr, b.expr);
    Ok(Looked {
        expr: Boxed::new(alloc, Expr { at, form })?,
        kind: Some(Kind::Truth),
        refused: sooner(a.refused, b.refused),
    })
}

pub fn greater_equal(alloc: Global, at: Span, a: Looked, b: Looked) -> Result<Looked, NoMemory>
    ensures expr { IfOk result (λ l. tree l.expr ≡ e.GreaterEqual at (tree a.expr) (tree b.expr)) }
    ensures kind { IfOk result (λ l. l.kind ≡ Some kinds.Truth) }
    ensures refused { IfOk result (λ l. l.refused ≡ spec.sooner a.refused b.refused) }
{
    let form = Form::GreaterEqual(a.expr, b.expr);
    Ok(Looked {
        expr: Boxed::new(alloc, Expr { at, form })?,
        kind: Some(Kind::Truth),
        refused: sooner(a.refused, b.refused),
    })
}
