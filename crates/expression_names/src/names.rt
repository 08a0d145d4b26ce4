//! Names, and steps by names, as steps.

ghost use Rattle.std.specs.Prelude.{◌≡◌, ◌<◌, ◌^◌, [], ◌∷◌, None, Some, length, IfOk, IsTrue};
ghost use Rattle.std.specs.Option.{option_or, option_map};
ghost use Rattle.clf_tree.specs.Hierarchy.{is_below, is_closed};
ghost use Rattle.clf_tree.specs.Named.{each, follows_parent};
ghost use Rattle.clf_tree.specs.declared.kind.Kind.TheVariants as kinds;
ghost use Rattle.clf_tree.specs.Kinds as kinds_spec;
ghost use Rattle.clf_tree.specs.Kinds.{kind};
ghost use Rattle.clf_tree.specs.Tree as e;
ghost use Rattle.clf_tree.specs.Tree.{tree};
ghost use Rattle.name_resolver.specs.Steps as steps;
ghost use Rattle.name_tables.specs.Tables.{IsTableOf};
ghost use Rattle.expression_names.specs.LookedUp as spec;

use crate::looked::{Looked, or_own};
use crate::scope::{Scope, variable};
use clf_base::{List, NoMemory, Refusal, Span};
use clf_tree::{
    Clafer, Expr, Form, Kind, Model, Within, clafers_of, dref_kind, kind_of, parent_kind,
    parents_of, this_kind,
};
use name_resolver::{Found, Meant, steps_of};
use name_tables::{NameTable, children_named, meaning};
use refusal_order::refused;
use sqlite_items::Boxed;
use std::alloc::Global;

/// What names are looked up in: a model, and the table of its names.
#[derive(Clone, Copy)]
pub struct Known<'a> {
    pub model: &'a Model,
    pub table: &'a NameTable<'a>,
}

// The innermost variable of the name, or what it means from the clafer of `this`.
#[tactic(auto, unfolding(crate::specs::LookedUp::name_meaning))]
fn name_meaning(
    alloc: Global,
    clafers: &List<Clafer>,
    table: &NameTable,
    scope: &Scope,
    name: &List<u8>,
) -> Result<Found, NoMemory>
    requires this_in { IsTrue (is_below (length clafers.now) scope.now.within.this) }
    requires closed { IsTrue (is_closed clafers.now) }
    requires parents_first { IsTrue (each clafers.now (follows_parent clafers.now)) }
    requires few { length clafers.now < 2 ^ 32 }
    requires table { IsTableOf clafers.now table.now }
    ensures { IfOk result (λ found. found ≡ spec.name_meaning clafers.now name.now scope.now) }
{
    match variable(scope.names.as_slice(), name) {
        Some(inside) => Ok(Found::Means(Meant::Variable(inside))),
        None => {
            let found = meaning(alloc, clafers, table, scope.within.this, name)?;
            Ok(found)
        }
    }
}

// An expression with its kind.
fn with_kind(
    alloc: Global,
    model: &Model,
    within: &Within,
    expr: Expr,
    refused: Option<Refusal>,
) -> Result<Looked, NoMemory>
    requires closed { IsTrue (is_closed model.now.clafers) }
    requires few { length model.now.clafers < 2 ^ 32 }
    ensures expr { IfOk result (λ l. tree l.expr ≡ tree expr) }
    ensures kind { IfOk result (λ l. l.kind ≡ kind model.now.clafers (tree expr) within.now) }
    ensures refused { IfOk result (λ l. l.refused ≡ refused) }
{
    let kind = kind_of(alloc, model, within, &expr)?;
    Ok(Looked {
        expr: Boxed::new(alloc, expr)?,
        kind,
        refused,
    })
}

fn kept_name(alloc: Global, at: Span, name: &List<u8>, refusal: Refusal) -> Result<Looked, NoMemory>
    ensures expr { IfOk result (λ l. tree l.expr ≡ e.Name at name.now) }
    ensures kind { IfOk result (λ l. l.kind ≡ None) }
    ensures refused { IfOk result (λ l. l.refused ≡ Some refusal) }
{
    let expr = Expr {
        at,
        form: Form::Name(name.copy(alloc)?),
    };
    Ok(Looked {
        expr: Boxed::new(alloc, expr)?,
        kind: None,
        refused: Some(refusal),
    })
}

fn found_name(
    alloc: Global,
    model: &Model,
    within: &Within,
    at: Span,
    name: &List<u8>,
    found: &Found,
) -> Result<Looked, NoMemory>
    requires closed { IsTrue (is_closed model.now.clafers) }
    requires few { length model.now.clafers < 2 ^ 32 }
    ensures expr { IfOk result (λ l. tree l.expr ≡ spec.named_tree at name.now found.now) }
    ensures kind { IfOk result (λ l. l.kind ≡ kind model.now.clafers (spec.named_tree at name.now found.now) within.now) }
    ensures refused { IfOk result (λ l. l.refused ≡ spec.name_refusal at found.now) }
{
    match found {
        Found::Nothing => {
            let looked = kept_name(alloc, at, name, refused(62, at, 0))?;
            Ok(looked)
        }
        Found::Several => {
            let looked = kept_name(alloc, at, name, refused(63, at, 0))?;
            Ok(looked)
        }
        Found::Means(meant) => {
            let looked = with_kind(alloc, model, within, steps_of(alloc, at, meant)?, None)?;
            Ok(looked)
        }
    }
}

/// A name as steps, or as it stands.
pub fn name(
    alloc: Global,
    known: &Known,
    scope: &Scope,
    at: Span,
    name: &List<u8>,
) -> Result<Looked, NoMemory>
    requires this_in { IsTrue (is_below (length known.now.model.now.clafers) scope.now.within.this) }
    requires closed { IsTrue (is_closed known.now.model.now.clafers) }
    requires parents_first { IsTrue (each known.now.model.now.clafers (follows_parent known.now.model.now.clafers)) }
    requires few { length known.now.model.now.clafers < 2 ^ 32 }
    requires table { IsTableOf known.now.model.now.clafers known.now.table.now }
    ensures expr { IfOk result (λ l. tree l.expr ≡ spec.named_tree at name.now (spec.name_meaning known.now.model.now.clafers name.now scope.now)) }
    ensures kind { IfOk result (λ l. l.kind ≡ kind known.now.model.now.clafers (spec.named_tree at name.now (spec.name_meaning known.now.model.now.clafers name.now scope.now)) scope.now.within) }
    ensures refused { IfOk result (λ l. l.refused ≡ spec.name_refusal at (spec.name_meaning known.now.model.now.clafers name.now scope.now)) }
{
    let found = name_meaning(alloc, &known.model.clafers, known.table, scope, name)?;
    let looked = found_name(alloc, known.model, &scope.within, at, name, &found)?;
    Ok(looked)
}

fn this_refusal(at: Span, this: Option<u32>) -> Option<Refusal>
    ensures { result ≡ spec.this_refusal at this }
{
    match this {
        Some(_) => None,
        None => Some(refused(66, at, 0)),
    }
}

/// `this`.
pub fn this(alloc: Global, at: Span, this: Option<u32>) -> Result<Looked, NoMemory>
    ensures expr { IfOk result (λ l. tree l.expr ≡ e.This at) }
    ensures kind { IfOk result (λ l. l.kind ≡ option_map (λ c. kinds.Nodes (c ∷ [])) this) }
    ensures refused { IfOk result (λ l. l.refused ≡ spec.this_refusal at this) }
{
    let kind = this_kind(alloc, this)?;
    let expr = Expr {
        at,
        form: Form::This,
    };
    Ok(Looked {
        expr: Boxed::new(alloc, expr)?,
        kind,
        refused: this_refusal(at, this),
    })
}

/// The children that a step by a name leads into, and whether it goes by the targets.
#[derive(Drop)]
pub struct NamedStep {
    pub into: List<u32>,
    pub follow: bool,
}

fn children_of(
    alloc: Global,
    clafers: &List<Clafer>,
    table: &NameTable,
    kind: &Option<Kind>,
    name: &List<u8>,
) -> Result<List<u32>, NoMemory>
    requires closed { IsTrue (is_closed clafers.now) }
    requires few { length clafers.now < 2 ^ 32 }
    requires table { IsTableOf clafers.now table.now }
    ensures { IfOk result (λ ks. ks ≡ steps.children_named clafers.now name.now kind.now) }
{
    match kind {
        Some(Kind::Nodes(ks)) => {
            let children = children_named(alloc, clafers, table, name, ks)?;
            Ok(children)
        }
        _ => Ok(List::new(alloc)),
    }
}

fn some_into(follow: bool, into: List<u32>) -> Option<NamedStep>
    ensures { result ≡ spec.some_into follow into }
{
    if into.is_empty() {
        None
    } else {
        Some(NamedStep { into, follow })
    }
}

#[tactic(auto, unfolding(crate::specs::LookedUp::step_by))]
fn step_by(
    alloc: Global,
    clafers: &List<Clafer>,
    table: &NameTable,
    kind: Option<Kind>,
    name: &List<u8>,
) -> Result<Option<NamedStep>, NoMemory>
    requires closed { IsTrue (is_closed clafers.now) }
    requires few { length clafers.now < 2 ^ 32 }
    requires table { IsTableOf clafers.now table.now }
    ensures { IfOk result (λ o. o ≡ spec.step_by clafers.now kind name.now) }
{
    let own = children_of(alloc, clafers, table, &kind, name)?;
    if let Some(step) = some_into(false, own) {
        return Ok(Some(step));
    }
    let targets = dref_kind(alloc, clafers, kind)?;
    let further = children_of(alloc, clafers, table, &targets, name)?;
    Ok(some_into(true, further))
}

fn kept_join(alloc: Global, at: Span, of: Boxed<Expr>, name: &List<u8>) -> Result<Expr, NoMemory>
    ensures { IfOk result (λ x. tree x ≡ e.Join at (tree of) name.now) }
{
    let form = Form::Join(of, name.copy(alloc)?);
    Ok(Expr { at, form })
}

fn stepped(at: Span, of: Boxed<Expr>, step: NamedStep) -> Expr
    ensures { tree result ≡ e.Step at (tree of) step.into step.follow }
{
    let form = Form::Step {
        of,
        into: step.into,
        follow: step.follow,
    };
    Expr { at, form }
}

fn joined(
    alloc: Global,
    at: Span,
    of: Boxed<Expr>,
    name: &List<u8>,
    step: Option<NamedStep>,
) -> Result<Expr, NoMemory>
    ensures { IfOk result (λ x. tree x ≡ spec.joined_tree at (tree of) name.now step) }
{
    match step {
        Some(step) => Ok(stepped(at, of, step)),
        None => {
            let expr = kept_join(alloc, at, of, name)?;
            Ok(expr)
        }
    }
}

fn join_refusal(at: Span, step: &Option<NamedStep>) -> Option<Refusal>
    ensures { result ≡ spec.join_refusal at step.now }
{
    match step {
        Some(_) => None,
        None => Some(refused(62, at, 0)),
    }
}

/// A step by a name, or the name as it stands.
pub fn join(
    alloc: Global,
    known: &Known,
    within: &Within,
    at: Span,
    a: Looked,
    name: &List<u8>,
) -> Result<Looked, NoMemory>
    requires closed { IsTrue (is_closed known.now.model.now.clafers) }
    requires few { length known.now.model.now.clafers < 2 ^ 32 }
    requires table { IsTableOf known.now.model.now.clafers known.now.table.now }
    ensures expr { IfOk result (λ l. tree l.expr ≡ spec.joined_tree at (tree a.expr) name.now (spec.step_by known.now.model.now.clafers a.kind name.now)) }
    ensures kind { IfOk result (λ l. l.kind ≡ kind known.now.model.now.clafers (spec.joined_tree at (tree a.expr) name.now (spec.step_by known.now.model.now.clafers a.kind name.now)) within.now) }
    ensures refused { IfOk result (λ l. l.refused ≡ option_or a.refused (spec.join_refusal at (spec.step_by known.now.model.now.clafers a.kind name.now))) }
{
    let step = step_by(alloc, &known.model.clafers, known.table, a.kind, name)?;
    let refused = or_own(a.refused, join_refusal(at, &step));
    let expr = joined(alloc, at, a.expr, name, step)?;
    let looked = with_kind(alloc, known.model, within, expr, refused)?;
    Ok(looked)
}

fn has_nodes(kind: &Option<Kind>) -> bool
    ensures { result ≡ spec.has_nodes kind.now }
{
    matches!(kind, Some(Kind::Nodes(_)))
}

fn parents_refusal(at: Span, nodes: bool, parents: &List<u32>) -> Option<Refusal>
    ensures { result ≡ spec.parents_refusal at nodes parents.now }
{
    if nodes && parents.is_empty() {
        Some(refused(66, at, 0))
    } else {
        None
    }
}

/// `parent`.
pub fn parent(
    alloc: Global,
    clafers: &List<Clafer>,
    at: Span,
    a: Looked,
) -> Result<Looked, NoMemory>
    requires closed { IsTrue (is_closed clafers.now) }
    requires few { length clafers.now < 2 ^ 32 }
    ensures expr { IfOk result (λ l. tree l.expr ≡ e.Parent at (tree a.expr)) }
    ensures kind { IfOk result (λ l. l.kind ≡ kinds_spec.parent_kind (kinds_spec.parents_of clafers.now (kinds_spec.clafers_of a.kind))) }
    ensures refused { IfOk result (λ l. l.refused ≡ option_or a.refused (spec.parent_refusal clafers.now at a.kind)) }
{
    let nodes = has_nodes(&a.kind);
    let parents = parents_of(alloc, clafers, &clafers_of(alloc, a.kind))?;
    let refused = or_own(a.refused, parents_refusal(at, nodes, &parents));
    let form = Form::Parent(a.expr);
    Ok(Looked {
        expr: Boxed::new(alloc, Expr { at, form })?,
        kind: parent_kind(parents),
        refused,
    })
}
