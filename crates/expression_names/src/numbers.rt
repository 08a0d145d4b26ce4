//! Integers of looked-up parts.

ghost use Rattle.std.specs.Prelude.{◌≡◌, Some, IfOk};
ghost use Rattle.clf_tree.specs.declared.kind.Kind.TheVariants as kinds;
ghost use Rattle.clf_tree.specs.Tree as e;
ghost use Rattle.clf_tree.specs.Tree.{tree};
ghost use Rattle.expression_names.specs.LookedUp as spec;

use crate::looked::{Looked, sooner};
use clf_base::{NoMemory, Span};
use clf_tree::{Expr, Form, Kind};
use sqlite_items::Boxed;
use std::alloc::Global;

pub fn card(alloc: Global, at: Span, a: Looked) -> Result<Looked, NoMemory>
    ensures expr { IfOk result (λ l. tree l.expr ≡ e.Card at (tree a.expr)) }
    ensures kind { IfOk result (λ l. l.kind ≡ Some kinds.Integer) }
    ensures refused { IfOk result (λ l. l.refused ≡ a.refused) }
{
    let form = Form::Card(a.expr);
    Ok(Looked {
        expr: Boxed::new(alloc, Expr { at, form })?,
        kind: Some(Kind::Integer),
        refused: a.refused,
    })
}

pub fn sum(alloc: Global, at: Span, a: Looked) -> Result<Looked, NoMemory>
    ensures expr { IfOk result (λ l. tree l.expr ≡ e.Sum at (tree a.expr)) }
    ensures kind { IfOk result (λ l. l.kind ≡ Some kinds.Integer) }
    ensures refused { IfOk result (λ l. l.refused ≡ a.refused) }
{
    let form = Form::Sum(a.expr);
    Ok(Looked {
        expr: Boxed::new(alloc, Expr { at, form })?,
        kind: Some(Kind::Integer),
        refused: a.refused,
    })
}

pub fn neg(alloc: Global, at: Span, a: Looked) -> Result<Looked, NoMemory>
    ensures expr { IfOk result (λ l. tree l.expr ≡ e.Neg at (tree a.expr)) }
    ensures kind { IfOk result (λ l. l.kind ≡ Some kinds.Integer) }
    ensures refused { IfOk result (λ l. l.refused ≡ a.refused) }
{
    let form = Form::Neg(a.expr);
    Ok(Looked {
        expr: Boxed::new(alloc, Expr { at, form })?,
        kind: Some(Kind::Integer),
        refused: a.refused,
    })
}

pub fn add(alloc: Global, at: Span, a: Looked, b: Looked) -> Result<Looked, NoMemory>
    ensures expr { IfOk result (λ l. tree l.expr ≡ e.Add at (tree a.expr) (tree b.expr)) }
    ensures kind { IfOk result (λ l. l.kind ≡ Some kinds.Integer) }
    ensures refused { IfOk result (λ l. l.refused ≡ spec.sooner a.refused b.refused) }
{
    let form = Form::Add(a.expr, b.expr);
    Ok(Looked {
        expr: Boxed::new(alloc, Expr { at, form })?,
        kind: Some(Kind::Integer),
        refused: sooner(a.refused, b.refused),
    })
}

pub fn sub(alloc: Global, at: Span, a: Looked, b: Looked) -> Result<Looked, NoMemory>
    ensures expr { IfOk result (λ l. tree l.expr ≡ e.Sub at (tree a.expr) (tree b.expr)) }
    ensures kind { IfOk result (λ l. l.kind ≡ Some kinds.Integer) }
    ensures refused { IfOk result (λ l. l.refused ≡ spec.sooner a.refused b.refused) }
{
    let form = Form::Sub(a.expr, b.expr);
    Ok(Looked {
        expr: Boxed::new(alloc, Expr { at, form })?,
        kind: Some(Kind::Integer),
        refused: sooner(a.refused, b.refused),
    })
}

pub fn mul(alloc: Global, at: Span, a: Looked, b: Looked) -> Result<Looked, NoMemory>
    ensures expr { IfOk result (λ l. tree l.expr ≡ e.Mul at (tree a.expr) (tree b.expr)) }
    ensures kind { IfOk result (λ l. l.kind ≡ Some kinds.Integer) }
    ensures refused { IfOk result (λ l. l.refused ≡ spec.sooner a.refused b.refused) }
{
    let form = Form::Mul(a.expr, b.expr);
    Ok(Looked {
        expr: Boxed::new(alloc, Expr { at, form })?,
        kind: Some(Kind::Integer),
        refused: sooner(a.refused, b.refused),
    })
}
