//! Sets of nodes of looked-up parts, and what is said of two of them.

ghost use Rattle.std.specs.Prelude.{◌≡◌, ◌<◌, ◌^◌, Some, length, IfOk, IsTrue};
ghost use Rattle.std.specs.Option.{option_map, option_and_then};
ghost use Rattle.clf_tree.specs.Hierarchy.{is_closed};
ghost use Rattle.clf_tree.specs.declared.kind.Kind.TheVariants as kinds;
ghost use Rattle.clf_tree.specs.Kinds as kinds_spec;
ghost use Rattle.clf_tree.specs.Tree as e;
ghost use Rattle.clf_tree.specs.Tree.{tree};
ghost use Rattle.expression_names.specs.LookedUp as spec;

use crate::looked::{Looked, sooner};
use clf_base::{List, NoMemory, Refusal, Span};
use clf_tree::{
    Clafer, Expr, Form, Kind, Title, Word, copy_titles, dref_kind, if_kind, left_kind, reading_of,
    union_kind,
};
use sqlite_items::Boxed;
use std::alloc::Global;

/// `dref`.
pub fn dref(alloc: Global, clafers: &List<Clafer>, at: Span, a: Looked) -> Result<Looked, NoMemory>
    ensures expr { IfOk result (λ l. tree l.expr ≡ e.Dref at (tree a.expr)) }
    ensures kind { IfOk result (λ l. l.kind ≡ kinds_spec.dref_kind clafers.now a.kind) }
    ensures refused { IfOk result (λ l. l.refused ≡ a.refused) }
{
    let kind = dref_kind(alloc, clafers, a.kind)?;
    let form = Form::Dref(a.expr);
    Ok(Looked {
        expr: Boxed::new(alloc, Expr { at, form })?,
        kind,
        refused: a.refused,
    })
}

pub fn union(alloc: Global, at: Span, a: Looked, b: Looked) -> Result<Looked, NoMemory>
    ensures expr { IfOk result (λ l. tree l.expr ≡ e.Union at (tree a.expr) (tree b.expr)) }
    ensures kind { IfOk result (λ l. l.kind ≡ kinds_spec.union_kind a.kind b.kind) }
    ensures refused { IfOk result (λ l. l.refused ≡ spec.sooner a.refused b.refused) }
{
    let kind = union_kind(a.kind, b.kind)?;
    let form = Form::Union(a.expr, b.expr);
    Ok(Looked {
        expr: Boxed::new(alloc, Expr { at, form })?,
        kind,
        refused: sooner(a.refused, b.refused),
    })
}

pub fn minus(
    alloc: Global,
    clafers: &List<Clafer>,
    at: Span,
    a: Looked,
    b: Looked,
) -> Result<Looked, NoMemory>
    requires closed { IsTrue (is_closed clafers.now) }
    requires few { length clafers.now < 2 ^ 32 }
    ensures expr { IfOk result (λ l. tree l.expr ≡ e.Minus at (tree a.expr) (tree b.expr)) }
    ensures kind { IfOk result (λ l. l.kind ≡ kinds_spec.left_kind clafers.now a.kind b.kind) }
    ensures refused { IfOk result (λ l. l.refused ≡ spec.sooner a.refused b.refused) }
{
    let kind = left_kind(clafers, a.kind, b.kind);
    let form = Form::Minus(a.expr, b.expr);
    Ok(Looked {
        expr: Boxed::new(alloc, Expr { at, form })?,
        kind,
        refused: sooner(a.refused, b.refused),
    })
}

pub fn meet(
    alloc: Global,
    clafers: &List<Clafer>,
    at: Span,
    a: Looked,
    b: Looked,
) -> Result<Looked, NoMemory>
    requires closed { IsTrue (is_closed clafers.now) }
    requires few { length clafers.now < 2 ^ 32 }
    ensures expr { IfOk result (λ l. tree l.expr ≡ e.Meet at (tree a.expr) (tree b.expr)) }
    ensures kind { IfOk result (λ l. l.kind ≡ kinds_spec.left_kind clafers.now a.kind b.kind) }
    ensures refused { IfOk result (λ l. l.refused ≡ spec.sooner a.refused b.refused) }
{
    let kind = left_kind(clafers, a.kind, b.kind);
    let form = Form::Meet(a.expr, b.expr);
    Ok(Looked {
        expr: Boxed::new(alloc, Expr { at, form })?,
        kind,
        refused: sooner(a.refused, b.refused),
    })
}

/// A choice of two branches.
pub fn choice(
    alloc: Global,
    at: Span,
    test: Looked,
    a: Looked,
    b: Looked,
) -> Result<Looked, NoMemory>
    ensures expr { IfOk result (λ l. tree l.expr ≡ e.If at (tree test.expr) (tree a.expr) (tree b.expr)) }
    ensures kind { IfOk result (λ l. l.kind ≡ option_and_then (λ k. option_map (kinds_spec.branch_kind k) b.kind) a.kind) }
    ensures refused { IfOk result (λ l. l.refused ≡ spec.sooner (spec.sooner test.refused a.refused) b.refused) }
{
    let kind = if_kind(a.kind, b.kind)?;
    let form = Form::If(test.expr, a.expr, b.expr);
    Ok(Looked {
        expr: Boxed::new(alloc, Expr { at, form })?,
        kind,
        refused: sooner(sooner(test.refused, a.refused), b.refused),
    })
}

fn compared_kind(
    alloc: Global,
    clafers: &List<Clafer>,
    a: Option<Kind>,
    b: Option<Kind>,
) -> Result<Option<Kind>, NoMemory>
    requires closed { IsTrue (is_closed clafers.now) }
    requires few { length clafers.now < 2 ^ 32 }
    ensures { IfOk result (λ k. k ≡ kinds_spec.compared_kind clafers.now a b) }
{
    match &a {
        Some(Kind::Nodes(_)) => match &b {
            Some(Kind::Nodes(_)) => match reading_of(alloc, clafers, &a, &b)? {
                Some(_) => Ok(Some(Kind::Truth)),
                None => Ok(None),
            },
            _ => Ok(Some(Kind::Truth)),
        },
        _ => Ok(Some(Kind::Truth)),
    }
}

pub fn equal(
    alloc: Global,
    clafers: &List<Clafer>,
    at: Span,
    a: Looked,
    b: Looked,
) -> Result<Looked, NoMemory>
    requires closed { IsTrue (is_closed clafers.now) }
    requires few { length clafers.now < 2 ^ 32 }
    ensures expr { IfOk result (λ l. tree l.expr ≡ e.Equal at (tree a.expr) (tree b.expr)) }
    ensures kind { IfOk result (λ l. l.kind ≡ kinds_spec.compared_kind clafers.now a.kind b.kind) }
    ensures refused { IfOk result (λ l. l.refused ≡ spec.sooner a.refused b.refused) }
{
    let kind = compared_kind(alloc, clafers, a.kind, b.kind)?;
    let form = Form::Equal(a.expr, b.expr);
    Ok(Looked {
        expr: Boxed::new(alloc, Expr { at, form })?,
        kind,
        refused: sooner(a.refused, b.refused),
    })
}

pub fn within(
    alloc: Global,
    clafers: &List<Clafer>,
    at: Span,
    a: Looked,
    b: Looked,
) -> Result<Looked, NoMemory>
    requires closed { IsTrue (is_closed clafers.now) }
    requires few { length clafers.now < 2 ^ 32 }
    ensures expr { IfOk result (λ l. tree l.expr ≡ e.In at (tree a.expr) (tree b.expr)) }
    ensures kind { IfOk result (λ l. l.kind ≡ kinds_spec.compared_kind clafers.now a.kind b.kind) }
    ensures refused { IfOk result (λ l. l.refused ≡ spec.sooner a.refused b.refused) }
{
    let kind = compared_kind(alloc, clafers, a.kind, b.kind)?;
    let form = Form::In(a.expr, b.expr);
    Ok(Looked {
        expr: Boxed::new(alloc, Expr { at, form })?,
        kind,
        refused: sooner(a.refused, b.refused),
    })
}

/// A quantifier over looked-up nodes, in which this is refused.
pub fn quantifier(
    alloc: Global,
    at: Span,
    word: Word,
    disj: bool,
    names: &List<Title>,
    over: Boxed<Expr>,
    inside: Option<Refusal>,
    body: Looked,
) -> Result<Looked, NoMemory>
    ensures expr { IfOk result (λ l. tree l.expr ≡ e.Quant at word disj names.now (tree over) (tree body.expr)) }
    ensures kind { IfOk result (λ l. l.kind ≡ Some kinds.Truth) }
    ensures refused { IfOk result (λ l. l.refused ≡ spec.sooner inside body.refused) }
{
    let form = Form::Quant {
        word,
        disj,
        names: copy_titles(alloc, names)?,
        over,
        body: body.expr,
    };
    Ok(Looked {
        expr: Boxed::new(alloc, Expr { at, form })?,
        kind: Some(Kind::Truth),
        refused: sooner(inside, body.refused),
    })
}
