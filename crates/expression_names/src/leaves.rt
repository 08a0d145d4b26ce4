//! What has no name to look up.

ghost use Rattle.std.specs.Prelude.{◌≡◌, [], ◌∷◌, None, Some, IfOk};
ghost use Rattle.std.specs.Option.{option_map};
ghost use Rattle.clf_tree.specs.declared.kind.Kind.TheVariants as kinds;
ghost use Rattle.clf_tree.specs.Lists.{from_end};
ghost use Rattle.clf_tree.specs.Tree as e;
ghost use Rattle.clf_tree.specs.Tree.{tree};

use crate::looked::Looked;
use clf_base::{List, NoMemory, Span};
use clf_tree::{Expr, Form, Kind, Within, this_kind, variable_kind};
use sqlite_items::Boxed;
use std::alloc::Global;

pub fn literal(alloc: Global, at: Span, value: u32) -> Result<Looked, NoMemory>
    ensures expr { IfOk result (λ l. tree l.expr ≡ e.Literal at value) }
    ensures kind { IfOk result (λ l. l.kind ≡ Some kinds.Integer) }
    ensures refused { IfOk result (λ l. l.refused ≡ None) }
{
    let form = Form::Literal(value);
    Ok(Looked {
        expr: Boxed::new(alloc, Expr { at, form })?,
        kind: Some(Kind::Integer),
        refused: None,
    })
}

pub fn variable(alloc: Global, within: &Within, at: Span, variable: u32) -> Result<Looked, NoMemory>
    ensures expr { IfOk result (λ l. tree l.expr ≡ e.Variable at variable) }
    ensures kind { IfOk result (λ l. l.kind ≡ option_map (λ ks. kinds.Nodes ks) (from_end within.now.bound variable)) }
    ensures refused { IfOk result (λ l. l.refused ≡ None) }
{
    let kind = variable_kind(alloc, within, variable)?;
    let form = Form::Variable(variable);
    Ok(Looked {
        expr: Boxed::new(alloc, Expr { at, form })?,
        kind,
        refused: None,
    })
}

pub fn clafer(alloc: Global, at: Span, clafer: u32) -> Result<Looked, NoMemory>
    ensures expr { IfOk result (λ l. tree l.expr ≡ e.Clafer at clafer) }
    ensures kind { IfOk result (λ l. l.kind ≡ Some (kinds.Nodes (clafer ∷ []))) }
    ensures refused { IfOk result (λ l. l.refused ≡ None) }
{
    let kind = this_kind(alloc, Some(clafer))?;
    let form = Form::Clafer(clafer);
    Ok(Looked {
        expr: Boxed::new(alloc, Expr { at, form })?,
        kind,
        refused: None,
    })
}

pub fn step(
    alloc: Global,
    at: Span,
    of: Looked,
    into: List<u32>,
    follow: bool,
) -> Result<Looked, NoMemory>
    ensures expr { IfOk result (λ l. tree l.expr ≡ e.Step at (tree of.expr) into follow) }
    ensures kind { IfOk result (λ l. l.kind ≡ Some (kinds.Nodes into)) }
    ensures refused { IfOk result (λ l. l.refused ≡ of.refused) }
{
    let kind = Some(Kind::Nodes(into.copy(alloc)?));
    let form = Form::Step {
        of: of.expr,
        into,
        follow,
    };
    Ok(Looked {
        expr: Boxed::new(alloc, Expr { at, form })?,
        kind,
        refused: of.refused,
    })
}
