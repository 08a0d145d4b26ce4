//! Kinds of expressions.

use clf_base::List;

/// What an expression can have as its value: a truth value, an integer, or nodes, each of which is-a one of the listed
/// clafers. `Numbers` has in place of its nodes the integers that they refer to.
#[derive(Debug, Drop)]
pub enum Kind {
    Truth,
    Integer,
    Nodes(List<u32>),
    Numbers(List<u32>),
}

/// The clafer of `this`, and the clafers of the kind of each bound variable, the innermost last.
#[derive(Debug, Drop)]
pub struct Within {
    pub this: Option<u32>,
    pub bound: List<List<u32>>,
}

/// How the two sides of `=` and `in` are compared: by their values, or by their nodes, each side as it is or as its `dref`.
#[derive(Clone, Copy, Debug, PartialEq, Eq)]
pub enum Reading {
    ByValues,
    ByNodes { left_dref: bool, right_dref: bool },
}
