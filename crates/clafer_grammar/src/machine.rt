//! The state of the reader: the constructs that are open, and what was read last.

use crate::heads::{Head, Lead, Stage};
use crate::operators::{Infix, Prefix};
use clf_base::{List, Span};
use clf_tree::{Expr, Item, Start, Title, Word};

/// A construct that is open, with the parts that it has so far.
#[derive(Drop)]
pub enum Frame {
    /// An operator, with its left operand.
    Binary(Span, Infix, Expr),
    /// An operator before its operand.
    Unary(Span, Prefix),
    /// `(`.
    Paren,
    /// `if`.
    Condition(Span),
    /// `if` and `then`, with the condition.
    Consequence(Span, Expr),
    /// `if`, `then` and `else`, with the condition and the first branch.
    Alternative(Span, Expr, Expr),
    /// A quantifier up to its `:`.
    Range(Span, Word, bool, List<Title>),
    /// A quantifier up to its `|`, with what its variables range over.
    Body(Span, Word, bool, List<Title>, Expr),
    /// `[`, with the items before it and its expressions.
    Bracket(List<Item>, Span, List<Expr>),
    /// `<<` and its word, with the items before it.
    Goal(List<Item>, Span, bool),
    /// A clafer's head and `=`, with the items before it.
    Start(List<Item>, Head, Span),
    /// A clafer's block, with the items before the clafer.
    Block(List<Item>, Head, Option<Start>),
}

/// What was read last.
#[derive(Drop)]
pub enum Mode {
    /// Whole items of the innermost body.
    Items(List<Item>),
    /// What stands before a clafer's name, after these items.
    Lead(List<Item>, Lead),
    /// A clafer's head, after these items.
    Head(List<Item>, Head, Stage),
    /// `enum`.
    Enum(List<Item>, Span),
    /// An enum's name.
    EnumTitle(List<Item>, Span, Title),
    /// An enum up to the `=` or `|` before its next member.
    Member(List<Item>, Span, Title, List<Title>),
    /// An enum up to a member.
    Members(List<Item>, Span, Title, List<Title>),
    /// `<<`.
    Goal(List<Item>, Span),
    /// A sign or a word after which an operand comes.
    Operand,
    /// The `not` of `not in`.
    In,
    /// A quantifier up to where its next variable comes.
    Names(Span, Word, bool, List<Title>),
    /// A quantifier up to a variable.
    Listed(Span, Word, bool, List<Title>),
    /// A name as an operand.
    Named(Title),
    /// An expression of this level.
    Value(Expr, u8),
    /// An expression and a dot.
    Field(Expr),
    /// All items, and the end.
    Done(List<Item>),
}
