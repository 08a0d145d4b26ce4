//! Expressions.

use crate::token::{Title, Word};
use clf_base::{List, Span};
use sqlite_items::Boxed;

/// An expression, with its place.
#[cycle(expr)]
#[derive(Drop)]
pub struct Expr {
    pub at: Span,
    pub form: Form,
}

/// What an expression is.
#[cycle(expr)]
#[derive(Drop)]
pub enum Form {
    Literal(u32),
    This,
    Variable(u32),
    Clafer(u32),
    Name(List<u8>),
    Join(Boxed<Expr>, List<u8>),
    Step {
        of: Boxed<Expr>,
        into: List<u32>,
        follow: bool,
    },
    Parent(Boxed<Expr>),
    Dref(Boxed<Expr>),
    Union(Boxed<Expr>, Boxed<Expr>),
    Minus(Boxed<Expr>, Boxed<Expr>),
    Meet(Boxed<Expr>, Boxed<Expr>),
    If(Boxed<Expr>, Boxed<Expr>, Boxed<Expr>),
    Not(Boxed<Expr>),
    And(Boxed<Expr>, Boxed<Expr>),
    Or(Boxed<Expr>, Boxed<Expr>),
    Xor(Boxed<Expr>, Boxed<Expr>),
    Implies(Boxed<Expr>, Boxed<Expr>),
    Iff(Boxed<Expr>, Boxed<Expr>),
    Card(Boxed<Expr>),
    Sum(Boxed<Expr>),
    Neg(Boxed<Expr>),
    Add(Boxed<Expr>, Boxed<Expr>),
    Sub(Boxed<Expr>, Boxed<Expr>),
    Mul(Boxed<Expr>, Boxed<Expr>),
    Less(Boxed<Expr>, Boxed<Expr>),
    LessEqual(Boxed<Expr>, Boxed<Expr>),
    Greater(Boxed<Expr>, Boxed<Expr>),
    GreaterEqual(Boxed<Expr>, Boxed<Expr>),
    Equal(Boxed<Expr>, Boxed<Expr>),
    In(Boxed<Expr>, Boxed<Expr>),
    Some(Boxed<Expr>),
    No(Boxed<Expr>),
    One(Boxed<Expr>),
    Lone(Boxed<Expr>),
    Quant {
        word: Word,
        disj: bool,
        names: List<Title>,
        over: Boxed<Expr>,
        body: Boxed<Expr>,
    },
}
