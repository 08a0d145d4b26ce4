//! The kind of an expression.

ghost use Rattle.std.specs.Prelude.{◌≡◌, [], ◌∷◌, ◌++◌, ◌<◌, ◌^◌, Some, length, IfOk, IsTrue};
ghost use Rattle.clf_tree.specs.Hierarchy.{is_closed};
ghost use Rattle.clf_tree.specs.Lists.{from_end};
ghost use Rattle.clf_tree.specs.Tree.{tree};
ghost use Rattle.clf_tree.specs.Kinds.{kind, clafers_of, parent_kind, parents_of, dref_kind, nodes_kind, union_kind, left_kind, compared_kind, branch_kind};
ghost use Rattle.std.specs.Option.{option_map, option_and_then};
ghost use Rattle.clf_tree.specs.declared.kind.Kind.TheVariants.{Nodes};

use crate::expr::{Expr, Form};
use crate::kind::{Kind, Within};
use crate::model::{Clafer, Model};
use crate::readings::nodes_reading;
use crate::references::{parents_of, refer_to_int, share, targets_of};
use clf_base::{List, NoMemory};
use std::alloc::Global;

fn only(alloc: Global, clafer: u32) -> Result<List<u32>, NoMemory>
    ensures { IfOk result (λ ks. ks ≡ clafer ∷ []) }
{
    let mut ks = List::new(alloc);
    ks.push(clafer)?;
    Ok(ks)
}

fn joined(mut ks: List<u32>, ls: &List<u32>) -> Result<List<u32>, NoMemory>
    ensures { IfOk result (λ both. both ≡ ks ++ ls.now) }
{
    for l in ls.as_slice() {
        ks.push(*l)?;
    }
    Ok(ks)
}

/// The kind of `this` and of the instances of a clafer: the one clafer, if there is one.
pub fn this_kind(alloc: Global, this: Option<u32>) -> Result<Option<Kind>, NoMemory>
    ensures { IfOk result (λ k. k ≡ option_map (λ c. Nodes (c ∷ [])) this) }
{
    match this {
        Some(clafer) => Ok(Some(Kind::Nodes(only(alloc, clafer)?))),
        None => Ok(None),
    }
}

/// The kind of a variable, counted from the innermost, if so many are bound. It copies the clafers.
pub fn variable_kind(
    alloc: Global,
    within: &Within,
    variable: u32,
) -> Result<Option<Kind>, NoMemory>
    ensures { IfOk result (λ k. k ≡ option_map (λ ks. Nodes ks) (from_end within.now.bound variable)) }
{
    match within.bound.as_slice().iter().rev().nth(variable as usize) {
        Some(ks) => Ok(Some(Kind::Nodes(ks.copy(alloc)?))),
        None => Ok(None),
    }
}

/// The clafers of a kind; other kinds than `Nodes` have none.
pub fn clafers_of(alloc: Global, kind: Option<Kind>) -> List<u32>
    ensures { result ≡ clafers_of kind }
{
    match kind {
        Some(Kind::Nodes(ks)) => ks,
        _ => List::new(alloc),
    }
}

/// The kind of `parent` with the given declaring parents; None where there are none.
pub fn parent_kind(parents: List<u32>) -> Option<Kind>
    ensures { result ≡ parent_kind parents }
{
    if parents.len() == 0 {
        None
    } else {
        Some(Kind::Nodes(parents))
    }
}

/// The kind of `dref`: the integers of nodes that all refer to integers, or the clafers that they all refer to; None for others.
pub fn dref_kind(
    alloc: Global,
    clafers: &List<Clafer>,
    kind: Option<Kind>,
) -> Result<Option<Kind>, NoMemory>
    ensures { IfOk result (λ k. k ≡ dref_kind clafers.now kind) }
{
    match kind {
        Some(Kind::Nodes(ks)) => {
            if refer_to_int(clafers, &ks) {
                return Ok(Some(Kind::Numbers(ks)));
            }
            match targets_of(alloc, clafers, &ks)? {
                Some(targets) => Ok(Some(Kind::Nodes(targets))),
                None => Ok(None),
            }
        }
        _ => Ok(None),
    }
}

/// The kind of a union, of the clafers of both sides; None where a side is no set of nodes. It moves the left list.
pub fn union_kind(a: Option<Kind>, b: Option<Kind>) -> Result<Option<Kind>, NoMemory>
    ensures { IfOk result (λ k. k ≡ union_kind a b) }
{
    match a {
        Some(Kind::Nodes(ks)) => match b {
            Some(Kind::Nodes(ls)) => Ok(Some(Kind::Nodes(joined(ks, &ls)?))),
            _ => Ok(None),
        },
        _ => Ok(None),
    }
}

/// The kind of `--` and `**`: that of the left side, where some clafer can be on both sides. It goes over the clafers.
pub fn left_kind(clafers: &List<Clafer>, a: Option<Kind>, b: Option<Kind>) -> Option<Kind>
    requires closed { IsTrue (is_closed clafers.now) }
    requires few { length clafers.now < 2 ^ 32 }
    ensures { result ≡ left_kind clafers.now a b }
{
    match a {
        Some(Kind::Nodes(ks)) => match b {
            Some(Kind::Nodes(ls)) => {
                if share(clafers, &ks, &ls) {
                    Some(Kind::Nodes(ks))
                } else {
                    None
                }
            }
            _ => None,
        },
        _ => None,
    }
}

fn compared_nodes(
    alloc: Global,
    clafers: &List<Clafer>,
    ks: List<u32>,
    ls: &List<u32>,
) -> Result<Option<Kind>, NoMemory>
    requires closed { IsTrue (is_closed clafers.now) }
    requires few { length clafers.now < 2 ^ 32 }
    ensures { IfOk result (λ k. k ≡ compared_kind clafers.now (Some (Nodes ks)) (Some (Nodes ls.now))) }
{
    match nodes_reading(alloc, clafers, ks, ls)? {
        Some(_) => Ok(Some(Kind::Truth)),
        None => Ok(None),
    }
}

fn compared_kind(
    alloc: Global,
    clafers: &List<Clafer>,
    a: Option<Kind>,
    b: Option<Kind>,
) -> Result<Option<Kind>, NoMemory>
    requires closed { IsTrue (is_closed clafers.now) }
    requires few { length clafers.now < 2 ^ 32 }
    ensures { IfOk result (λ k. k ≡ compared_kind clafers.now a b) }
{
    match a {
        Some(Kind::Nodes(ks)) => match b {
            Some(Kind::Nodes(ls)) => compared_nodes(alloc, clafers, ks, &ls),
            _ => Ok(Some(Kind::Truth)),
        },
        _ => Ok(Some(Kind::Truth)),
    }
}

fn branch_kind(a: Kind, b: Kind) -> Result<Kind, NoMemory>
    ensures { IfOk result (λ k. k ≡ branch_kind a b) }
{
    match a {
        Kind::Truth => Ok(Kind::Truth),
        Kind::Nodes(ks) => match b {
            Kind::Truth => Ok(Kind::Truth),
            Kind::Nodes(ls) => Ok(Kind::Nodes(joined(ks, &ls)?)),
            Kind::Integer => Ok(Kind::Integer),
            Kind::Numbers(_) => Ok(Kind::Integer),
        },
        Kind::Integer => Ok(number_branch(b)),
        Kind::Numbers(_) => Ok(number_branch(b)),
    }
}

fn number_branch(b: Kind) -> Kind
    ensures { result ≡ branch_kind Kind.Integer b }
{
    match b {
        Kind::Truth => Kind::Truth,
        _ => Kind::Integer,
    }
}

/// The kind of a choice by the kinds of its branches: a truth value where one is, else an integer where one is a number, else the
/// nodes of both.
pub fn if_kind(a: Option<Kind>, b: Option<Kind>) -> Result<Option<Kind>, NoMemory>
    ensures { IfOk result (λ k. k ≡ option_and_then (λ x. option_map (branch_kind x) b) a) }
{
    match a {
        Some(a) => match b {
            Some(b) => Ok(Some(branch_kind(a, b)?)),
            None => Ok(None),
        },
        None => Ok(None),
    }
}

/// The kind of an expression, if it has one.
///
/// A step, a literal and an arithmetic form cost a constant; `parent`, `--`, `**` and a comparison of nodes go over the clafers.
pub fn kind_of(
    alloc: Global,
    model: &Model,
    within: &Within,
    expr: &Expr,
) -> Result<Option<Kind>, NoMemory>
    requires closed { IsTrue (is_closed model.now.clafers) }
    requires few { length model.now.clafers < 2 ^ 32 }
    ensures { IfOk result (λ k. k ≡ kind model.now.clafers (tree expr.now) within.now) }
{
    match &expr.form {
        Form::Literal(_)
        | Form::Card(_)
        | Form::Sum(_)
        | Form::Neg(_)
        | Form::Add(_, _)
        | Form::Sub(_, _)
        | Form::Mul(_, _) => Ok(Some(Kind::Integer)),
        Form::This => this_kind(alloc, within.this),
        Form::Variable(variable) => variable_kind(alloc, within, *variable),
        Form::Clafer(clafer) => this_kind(alloc, Some(*clafer)),
        Form::Name(_) | Form::Join(_, _) => Ok(None),
        Form::Step { into, .. } => Ok(Some(Kind::Nodes(into.copy(alloc)?))),
        Form::Parent(a) => {
            let below = clafers_of(alloc, kind_of(alloc, model, within, a.get())?);
            Ok(parent_kind(parents_of(alloc, &model.clafers, &below)?))
        }
        Form::Dref(a) => dref_kind(
            alloc,
            &model.clafers,
            kind_of(alloc, model, within, a.get())?,
        ),
        Form::Union(a, b) => union_kind(
            kind_of(alloc, model, within, a.get())?,
            kind_of(alloc, model, within, b.get())?,
        ),
        Form::Minus(a, b) | Form::Meet(a, b) => Ok(left_kind(
            &model.clafers,
            kind_of(alloc, model, within, a.get())?,
            kind_of(alloc, model, within, b.get())?,
        )),
        Form::Equal(a, b) | Form::In(a, b) => compared_kind(
            alloc,
            &model.clafers,
            kind_of(alloc, model, within, a.get())?,
            kind_of(alloc, model, within, b.get())?,
        ),
        Form::If(_, a, b) => if_kind(
            kind_of(alloc, model, within, a.get())?,
            kind_of(alloc, model, within, b.get())?,
        ),
        _ => Ok(Some(Kind::Truth)),
    }
}
