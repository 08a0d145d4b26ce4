//! Copies of expressions.
#![tactic(auto)]

ghost use Rattle.std.specs.Prelude.{◌≡◌, IfOk};

use clf_base::NoMemory;
use clf_tree::{Expr, Form, copy_titles};
use sqlite_items::Boxed;
use std::alloc::Global;

#[cycle(copy)]
fn copy_boxed(alloc: Global, expr: &Boxed<Expr>) -> Result<Boxed<Expr>, NoMemory>
    ensures { IfOk result (λ copy. copy ≡ expr.now) }
{
    Ok(Boxed::new(alloc, copy_expr(alloc, expr.get())?)?)
}

/// An equal expression. It costs a node for each node.
#[cycle(copy)]
pub fn copy_expr(alloc: Global, expr: &Expr) -> Result<Expr, NoMemory>
    ensures { IfOk result (λ copy. copy ≡ expr.now) }
{
    Ok(Expr {
        at: expr.at,
        form: copy_form(alloc, &expr.form)?,
    })
}

#[cycle(copy)]
fn copy_form(alloc: Global, form: &Form) -> Result<Form, NoMemory>
    ensures { IfOk result (λ copy. copy ≡ form.now) }
{
    match form {
        Form::Literal(n) => Ok(Form::Literal(*n)),
        Form::This => Ok(Form::This),
        Form::Variable(n) => Ok(Form::Variable(*n)),
        Form::Clafer(n) => Ok(Form::Clafer(*n)),
        Form::Name(name) => Ok(Form::Name(name.copy(alloc)?)),
        Form::Join(e, name) => Ok(Form::Join(copy_boxed(alloc, e)?, name.copy(alloc)?)),
        Form::Step { of, into, follow } => Ok(Form::Step {
            of: copy_boxed(alloc, of)?,
            into: into.copy(alloc)?,
            follow: *follow,
        }),
        Form::Parent(e) => Ok(Form::Parent(copy_boxed(alloc, e)?)),
        Form::Dref(e) => Ok(Form::Dref(copy_boxed(alloc, e)?)),
        Form::Union(a, b) => Ok(Form::Union(copy_boxed(alloc, a)?, copy_boxed(alloc, b)?)),
        Form::Minus(a, b) => Ok(Form::Minus(copy_boxed(alloc, a)?, copy_boxed(alloc, b)?)),
        Form::Meet(a, b) => Ok(Form::Meet(copy_boxed(alloc, a)?, copy_boxed(alloc, b)?)),
        Form::If(c, a, b) => Ok(Form::If(
            copy_boxed(alloc, c)?,
            copy_boxed(alloc, a)?,
            copy_boxed(alloc, b)?,
        )),
        Form::Not(e) => Ok(Form::Not(copy_boxed(alloc, e)?)),
        Form::And(a, b) => Ok(Form::And(copy_boxed(alloc, a)?, copy_boxed(alloc, b)?)),
        Form::Or(a, b) => Ok(Form::Or(copy_boxed(alloc, a)?, copy_boxed(alloc, b)?)),
        Form::Xor(a, b) => Ok(Form::Xor(copy_boxed(alloc, a)?, copy_boxed(alloc, b)?)),
        Form::Implies(a, b) => Ok(Form::Implies(copy_boxed(alloc, a)?, copy_boxed(alloc, b)?)),
        Form::Iff(a, b) => Ok(Form::Iff(copy_boxed(alloc, a)?, copy_boxed(alloc, b)?)),
        Form::Card(e) => Ok(Form::Card(copy_boxed(alloc, e)?)),
        Form::Sum(e) => Ok(Form::Sum(copy_boxed(alloc, e)?)),
        Form::Neg(e) => Ok(Form::Neg(copy_boxed(alloc, e)?)),
        Form::Add(a, b) => Ok(Form::Add(copy_boxed(alloc, a)?, copy_boxed(alloc, b)?)),
        Form::Sub(a, b) => Ok(Form::Sub(copy_boxed(alloc, a)?, copy_boxed(alloc, b)?)),
        Form::Mul(a, b) => Ok(Form::Mul(copy_boxed(alloc, a)?, copy_boxed(alloc, b)?)),
        Form::Less(a, b) => Ok(Form::Less(copy_boxed(alloc, a)?, copy_boxed(alloc, b)?)),
        Form::LessEqual(a, b) => Ok(Form::LessEqual(copy_boxed(alloc, a)?, copy_boxed(alloc, b)?)),
        Form::Greater(a, b) => Ok(Form::Greater(copy_boxed(alloc, a)?, copy_boxed(alloc, b)?)),
        Form::GreaterEqual(a, b) => Ok(Form::GreaterEqual(
            copy_boxed(alloc, a)?,
            copy_boxed(alloc, b)?,
        )),
        Form::Equal(a, b) => Ok(Form::Equal(copy_boxed(alloc, a)?, copy_boxed(alloc, b)?)),
        Form::In(a, b) => Ok(Form::In(copy_boxed(alloc, a)?, copy_boxed(alloc, b)?)),
        Form::Some(e) => Ok(Form::Some(copy_boxed(alloc, e)?)),
        Form::No(e) => Ok(Form::No(copy_boxed(alloc, e)?)),
        Form::One(e) => Ok(Form::One(copy_boxed(alloc, e)?)),
        Form::Lone(e) => Ok(Form::Lone(copy_boxed(alloc, e)?)),
        Form::Quant {
            word,
            disj,
            names,
            over,
            body,
        } => Ok(Form::Quant {
            word: *word,
            disj: *disj,
            names: copy_titles(alloc, names)?,
            over: copy_boxed(alloc, over)?,
            body: copy_boxed(alloc, body)?,
        }),
    }
}
