//! Relational expressions: constraints and goals without kinds, inheritance and implied readings.

use crate::model::Clafer;
use clf_base::List;
use sqlite_items::Boxed;

/// How many of the tuples of a quantifier have to pass.
#[derive(Clone, Copy, Debug, PartialEq, Eq)]
pub enum Quantifier {
    All,
    Some,
    One,
    Lone,
}

/// A set of nodes with the concrete clafers that they can have, ascending; a number with its width in bits, in two's complement;
/// or a truth value.
///
/// Bound nodes are counted from the innermost, which is number 0. `Every` is all nodes of its clafers that are in the instance,
/// `Down` those of them whose parent is in `of`; in no other form do the clafers enter the meaning.
#[cycle(core_expr)]
#[derive(Drop)]
pub enum CoreExpr {
    Bound {
        clafers: List<u32>,
        variable: usize,
    },
    Every {
        clafers: List<u32>,
    },
    Down {
        clafers: List<u32>,
        of: Boxed<CoreExpr>,
    },
    Up {
        clafers: List<u32>,
        of: Boxed<CoreExpr>,
    },
    Follow {
        clafers: List<u32>,
        of: Boxed<CoreExpr>,
    },
    Union {
        clafers: List<u32>,
        left: Boxed<CoreExpr>,
        right: Boxed<CoreExpr>,
    },
    Minus {
        clafers: List<u32>,
        left: Boxed<CoreExpr>,
        right: Boxed<CoreExpr>,
    },
    Meet {
        clafers: List<u32>,
        left: Boxed<CoreExpr>,
        right: Boxed<CoreExpr>,
    },
    ChooseNodes {
        clafers: List<u32>,
        test: Boxed<CoreExpr>,
        then: Boxed<CoreExpr>,
        other: Boxed<CoreExpr>,
    },
    Const {
        width: u32,
        value: i64,
    },
    Count {
        width: u32,
        of: Boxed<CoreExpr>,
    },
    Total {
        width: u32,
        of: Boxed<CoreExpr>,
    },
    Neg {
        width: u32,
        of: Boxed<CoreExpr>,
    },
    Add {
        width: u32,
        left: Boxed<CoreExpr>,
        right: Boxed<CoreExpr>,
    },
    Mul {
        width: u32,
        left: Boxed<CoreExpr>,
        right: Boxed<CoreExpr>,
    },
    ChooseNumber {
        width: u32,
        test: Boxed<CoreExpr>,
        then: Boxed<CoreExpr>,
        other: Boxed<CoreExpr>,
    },
    Not(Boxed<CoreExpr>),
    And(Boxed<CoreExpr>, Boxed<CoreExpr>),
    Or(Boxed<CoreExpr>, Boxed<CoreExpr>),
    Xor(Boxed<CoreExpr>, Boxed<CoreExpr>),
    ChooseTruth(Boxed<CoreExpr>, Boxed<CoreExpr>, Boxed<CoreExpr>),
    SameNodes(Boxed<CoreExpr>, Boxed<CoreExpr>),
    WithinNodes(Boxed<CoreExpr>, Boxed<CoreExpr>),
    SameValues(Boxed<CoreExpr>, Boxed<CoreExpr>),
    WithinValues(Boxed<CoreExpr>, Boxed<CoreExpr>),
    Less(Boxed<CoreExpr>, Boxed<CoreExpr>),
    AtLeast(u32, Boxed<CoreExpr>),
    AtMost(u32, Boxed<CoreExpr>),
    Exactly(u32, Boxed<CoreExpr>),
    Quant {
        word: Quantifier,
        disj: bool,
        names: usize,
        over: Boxed<CoreExpr>,
        body: Boxed<CoreExpr>,
    },
}

/// A model whose constraints and goals are relational: one truth for each constraint and one number for each goal, in order.
#[derive(Drop)]
pub struct CoreModel {
    pub clafers: List<Clafer>,
    pub truths: List<CoreExpr>,
    pub goals: List<CoreExpr>,
}
