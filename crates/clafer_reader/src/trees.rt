//! The trees of expressions.

ghost use Rattle.std.specs.Prelude.{◌≡◌, IfOk};
ghost use Rattle.clf_tree.specs.declared.expr.Form.TheVariants as form;
ghost use Rattle.clafer_grammar.specs.Trees as trees;

use clafer_grammar::operators::{Infix, Prefix};
use clf_base::{List, NoMemory, Span};
use clf_tree::{Expr, Form, Title, TokenKind, Word};
use sqlite_items::Boxed;
use std::alloc::Global;

/// The title of a name at a place.
pub(crate) fn title(alloc: Global, name: &List<u8>, at: Span) -> Result<Title, NoMemory>
    ensures { IfOk result (λ made. made ≡ trees.title name.now at) }
{
    let name = name.copy(alloc)?;
    Ok(Title { name, at })
}

/// The expression of a name.
pub(crate) fn name_tree(name: Title) -> Expr
    ensures { result ≡ trees.name_tree name }
{
    let Title { name, at } = name;
    Expr {
        at,
        form: Form::Name(name),
    }
}

/// `this`, in a box.
fn this_at(alloc: Global, at: Span) -> Result<Boxed<Expr>, NoMemory>
    ensures { IfOk result (λ made. made ≡ trees.node at form.This) }
{
    let of = Boxed::new(
        alloc,
        Expr {
            at,
            form: Form::This,
        },
    )?;
    Ok(of)
}

/// The expression of an operand of one token that is no name.
pub(crate) fn atom_tree(alloc: Global, kind: &TokenKind, at: Span) -> Result<Option<Expr>, NoMemory>
    ensures { IfOk result (λ made. made ≡ trees.atom_tree kind.now at) }
{
    match kind {
        TokenKind::Number(value) => Ok(Some(Expr {
            at,
            form: Form::Literal(*value),
        })),
        TokenKind::Word(Word::This) => Ok(Some(Expr {
            at,
            form: Form::This,
        })),
        TokenKind::Word(Word::Parent) => {
            let this = this_at(alloc, at)?;
            Ok(Some(Expr {
                at,
                form: Form::Parent(this),
            }))
        }
        TokenKind::Word(Word::Dref) => {
            let this = this_at(alloc, at)?;
            Ok(Some(Expr {
                at,
                form: Form::Dref(this),
            }))
        }
        _ => Ok(None),
    }
}

/// An expression, a dot and a name.
fn join_tree(alloc: Global, of: Expr, name: &List<u8>, at: Span) -> Result<Expr, NoMemory>
    ensures { IfOk result (λ made. made ≡ trees.node at (form.Join of name.now)) }
{
    let name = name.copy(alloc)?;
    let of = Boxed::new(alloc, of)?;
    Ok(Expr {
        at,
        form: Form::Join(of, name),
    })
}

/// An expression, a dot and a token.
pub(crate) fn field_tree(
    alloc: Global,
    of: Expr,
    kind: &TokenKind,
    at: Span,
) -> Result<Option<Expr>, NoMemory>
    ensures { IfOk result (λ made. made ≡ trees.field_tree of kind.now at) }
{
    match kind {
        TokenKind::Name(name) => Ok(Some(join_tree(alloc, of, name, at)?)),
        TokenKind::Word(Word::Parent) => {
            let of = Boxed::new(alloc, of)?;
            Ok(Some(Expr {
                at,
                form: Form::Parent(of),
            }))
        }
        TokenKind::Word(Word::Dref) => {
            let of = Boxed::new(alloc, of)?;
            Ok(Some(Expr {
                at,
                form: Form::Dref(of),
            }))
        }
        _ => {
            drop(of);
            Ok(None)
        }
    }
}

fn prefix_form(op: Prefix, of: Boxed<Expr>) -> Form
    ensures { result ≡ trees.prefix_form op of }
{
    match op {
        Prefix::Not => Form::Not(of),
        Prefix::Neg => Form::Neg(of),
        Prefix::Card => Form::Card(of),
        Prefix::Sum => Form::Sum(of),
        Prefix::Some => Form::Some(of),
        Prefix::No => Form::No(of),
        Prefix::One => Form::One(of),
        Prefix::Lone => Form::Lone(of),
    }
}

/// An operator before its operand.
pub(crate) fn prefix_tree(alloc: Global, op: Prefix, at: Span, of: Expr) -> Result<Expr, NoMemory>
    ensures { IfOk result (λ made. made ≡ trees.prefix_tree op at of) }
{
    let of = Boxed::new(alloc, of)?;
    Ok(Expr {
        at,
        form: prefix_form(op, of),
    })
}

fn infix_form(op: Infix, left: Boxed<Expr>, right: Boxed<Expr>) -> Form
    ensures { result ≡ trees.infix_form op left right }
{
    match op {
        Infix::Iff => Form::Iff(left, right),
        Infix::Implies => Form::Implies(left, right),
        Infix::Or => Form::Or(left, right),
        Infix::Xor => Form::Xor(left, right),
        Infix::And => Form::And(left, right),
        Infix::Equal | Infix::NotEqual => Form::Equal(left, right),
        Infix::Less => Form::Less(left, right),
        Infix::LessEqual => Form::LessEqual(left, right),
        Infix::Greater => Form::Greater(left, right),
        Infix::GreaterEqual => Form::GreaterEqual(left, right),
        Infix::In | Infix::NotIn => Form::In(left, right),
        Infix::Add => Form::Add(left, right),
        Infix::Sub => Form::Sub(left, right),
        Infix::Mul => Form::Mul(left, right),
        Infix::Union => Form::Union(left, right),
        Infix::Minus => Form::Minus(left, right),
        Infix::Meet => Form::Meet(left, right),
    }
}

/// Two expressions, each in a box.
fn boxed_pair(
    alloc: Global,
    left: Expr,
    right: Expr,
) -> Result<(Boxed<Expr>, Boxed<Expr>), NoMemory>
    ensures { IfOk result (λ pair. pair ≡ (left, right)) }
{
    let right = Boxed::new(alloc, right)?;
    let left = Boxed::new(alloc, left)?;
    Ok((left, right))
}

/// An operator between its operands, without the negation of `!=` and `not in`.
fn plain_infix(
    alloc: Global,
    op: Infix,
    at: Span,
    left: Expr,
    right: Expr,
) -> Result<Expr, NoMemory>
    ensures { IfOk result (λ made. made ≡ trees.node at (trees.infix_form op left right)) }
{
    let (left, right) = boxed_pair(alloc, left, right)?;
    Ok(Expr {
        at,
        form: infix_form(op, left, right),
    })
}

/// An operator between its operands.
pub(crate) fn infix_tree(
    alloc: Global,
    op: Infix,
    at: Span,
    left: Expr,
    right: Expr,
) -> Result<Expr, NoMemory>
    ensures { IfOk result (λ made. made ≡ trees.infix_tree op at left right) }
{
    let whole = plain_infix(alloc, op, at, left, right)?;
    match op {
        Infix::NotEqual | Infix::NotIn => prefix_tree(alloc, Prefix::Not, at, whole),
        _ => Ok(whole),
    }
}

/// A choice of two expressions.
pub(crate) fn if_tree(
    alloc: Global,
    at: Span,
    condition: Expr,
    yes: Expr,
    no: Expr,
) -> Result<Expr, NoMemory>
    ensures { IfOk result (λ made. made ≡ trees.if_tree at condition yes no) }
{
    let (yes, no) = boxed_pair(alloc, yes, no)?;
    let condition = Boxed::new(alloc, condition)?;
    Ok(Expr {
        at,
        form: Form::If(condition, yes, no),
    })
}

/// A quantified expression.
pub(crate) fn quant_tree(
    alloc: Global,
    at: Span,
    word: Word,
    disj: bool,
    names: List<Title>,
    over: Expr,
    body: Expr,
) -> Result<Expr, NoMemory>
    ensures { IfOk result (λ made. made ≡ trees.quant_tree at word disj names over body) }
{
    let (over, body) = boxed_pair(alloc, over, body)?;
    Ok(Expr {
        at,
        form: Form::Quant {
            word,
            disj,
            names,
            over,
            body,
        },
    })
}
