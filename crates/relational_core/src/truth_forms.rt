//! Truth values of finished parts.

ghost use Rattle.std.specs.Prelude.{◌≡◌, ◌<◌, ◌^◌, length, IfOk, IsTrue};
ghost use Rattle.clf_tree.specs.Hierarchy.{is_closed};
ghost use Rattle.clf_tree.specs.Core as Core;
ghost use Rattle.clf_tree.specs.Core.{core};
ghost use Rattle.relational_core.specs.Lowered.{as_truth, as_number, never, quant, same, part, through};

use crate::node_forms::through;
use crate::sides::{Pair, Side, Sides, counted_pair, plain, tested, tested_pair};
use clf_base::{List, NoMemory};
use clf_tree::{Clafer, CoreExpr, Quantifier, Reading, Scopes, Word};
use sqlite_items::Boxed;
use std::alloc::Global;

pub fn negation(alloc: Global, side: Side) -> Result<CoreExpr, NoMemory>
    ensures { IfOk result (λ r. core r ≡ Core.Not (as_truth side.kind (core side.expr))) }
{
    let test = tested(alloc, side)?;
    Ok(CoreExpr::Not(test))
}

pub fn conjunction(alloc: Global, sides: Sides) -> Result<CoreExpr, NoMemory>
    ensures { IfOk result (λ r. core r ≡ Core.And (as_truth sides.left.kind (core sides.left.expr)) (as_truth sides.right.kind (core sides.right.expr))) }
{
    let Pair { left, right } = tested_pair(alloc, sides)?;
    Ok(CoreExpr::And(left, right))
}

pub fn disjunction(alloc: Global, sides: Sides) -> Result<CoreExpr, NoMemory>
    ensures { IfOk result (λ r. core r ≡ Core.Or (as_truth sides.left.kind (core sides.left.expr)) (as_truth sides.right.kind (core sides.right.expr))) }
{
    let Pair { left, right } = tested_pair(alloc, sides)?;
    Ok(CoreExpr::Or(left, right))
}

pub fn exclusion(alloc: Global, sides: Sides) -> Result<CoreExpr, NoMemory>
    ensures { IfOk result (λ r. core r ≡ Core.Xor (as_truth sides.left.kind (core sides.left.expr)) (as_truth sides.right.kind (core sides.right.expr))) }
{
    let Pair { left, right } = tested_pair(alloc, sides)?;
    Ok(CoreExpr::Xor(left, right))
}

pub fn implication(alloc: Global, sides: Sides) -> Result<CoreExpr, NoMemory>
    ensures { IfOk result (λ r. core r ≡ Core.Or (Core.Not (as_truth sides.left.kind (core sides.left.expr))) (as_truth sides.right.kind (core sides.right.expr))) }
{
    let Pair { left, right } = tested_pair(alloc, sides)?;
    let refuted = Boxed::new(alloc, CoreExpr::Not(left))?;
    Ok(CoreExpr::Or(refuted, right))
}

pub fn equivalence(alloc: Global, sides: Sides) -> Result<CoreExpr, NoMemory>
    ensures { IfOk result (λ r. core r ≡ Core.Not (Core.Xor (as_truth sides.left.kind (core sides.left.expr)) (as_truth sides.right.kind (core sides.right.expr)))) }
{
    let Pair { left, right } = tested_pair(alloc, sides)?;
    let differ = Boxed::new(alloc, CoreExpr::Xor(left, right))?;
    Ok(CoreExpr::Not(differ))
}

pub fn less(alloc: Global, sides: Sides) -> Result<CoreExpr, NoMemory>
    ensures { IfOk result (λ r. core r ≡ Core.Less (as_number sides.left.kind sides.left.bounds (core sides.left.expr)) (as_number sides.right.kind sides.right.bounds (core sides.right.expr))) }
{
    let Pair { left, right } = counted_pair(alloc, sides)?;
    Ok(CoreExpr::Less(left, right))
}

pub fn greater(alloc: Global, sides: Sides) -> Result<CoreExpr, NoMemory>
    ensures { IfOk result (λ r. core r ≡ Core.Less (as_number sides.right.kind sides.right.bounds (core sides.right.expr)) (as_number sides.left.kind sides.left.bounds (core sides.left.expr))) }
{
    let Pair { left, right } = counted_pair(alloc, sides)?;
    Ok(CoreExpr::Less(right, left))
}

pub fn not_less(alloc: Global, sides: Sides) -> Result<CoreExpr, NoMemory>
    ensures { IfOk result (λ r. core r ≡ Core.Not (Core.Less (as_number sides.left.kind sides.left.bounds (core sides.left.expr)) (as_number sides.right.kind sides.right.bounds (core sides.right.expr)))) }
{
    let Pair { left, right } = counted_pair(alloc, sides)?;
    let less = Boxed::new(alloc, CoreExpr::Less(left, right))?;
    Ok(CoreExpr::Not(less))
}

pub fn not_greater(alloc: Global, sides: Sides) -> Result<CoreExpr, NoMemory>
    ensures { IfOk result (λ r. core r ≡ Core.Not (Core.Less (as_number sides.right.kind sides.right.bounds (core sides.right.expr)) (as_number sides.left.kind sides.left.bounds (core sides.left.expr)))) }
{
    let Pair { left, right } = counted_pair(alloc, sides)?;
    let greater = Boxed::new(alloc, CoreExpr::Less(right, left))?;
    Ok(CoreExpr::Not(greater))
}

/// More than no node.
pub fn some(side: Side) -> CoreExpr
    ensures { core result ≡ Core.AtLeast 1 (core side.expr) }
{
    CoreExpr::AtLeast(1, plain(side))
}

pub fn none(side: Side) -> CoreExpr
    ensures { core result ≡ Core.Exactly 0 (core side.expr) }
{
    CoreExpr::Exactly(0, plain(side))
}

pub fn one(side: Side) -> CoreExpr
    ensures { core result ≡ Core.Exactly 1 (core side.expr) }
{
    CoreExpr::Exactly(1, plain(side))
}

pub fn lone(side: Side) -> CoreExpr
    ensures { core result ≡ Core.AtMost 1 (core side.expr) }
{
    CoreExpr::AtMost(1, plain(side))
}

/// Two sets of nodes, each read as its targets where so asked for.
fn followed(
    alloc: Global,
    clafers: &List<Clafer>,
    scopes: &Scopes,
    left_dref: bool,
    right_dref: bool,
    sides: Sides,
) -> Result<Pair, NoMemory>
    requires closed { IsTrue (is_closed clafers.now) }
    requires few { length clafers.now < 2 ^ 32 }
    ensures left { IfOk result (λ r. core r.left ≡ through clafers.now scopes.now left_dref (core sides.left.expr)) }
    ensures right { IfOk result (λ r. core r.right ≡ through clafers.now scopes.now right_dref (core sides.right.expr)) }
{
    let Sides { left, right } = sides;
    let left = through(alloc, clafers, scopes, left_dref, plain(left))?;
    let right = through(alloc, clafers, scopes, right_dref, plain(right))?;
    Ok(Pair { left, right })
}

fn as_they_are(sides: Sides) -> Pair
    ensures left { result.left ≡ sides.left.expr }
    ensures right { result.right ≡ sides.right.expr }
{
    let Sides { left, right } = sides;
    Pair {
        left: plain(left),
        right: plain(right),
    }
}

/// Whether two sides are the same, as they are read.
pub fn same(
    alloc: Global,
    clafers: &List<Clafer>,
    scopes: &Scopes,
    reading: Option<Reading>,
    sides: Sides,
) -> Result<CoreExpr, NoMemory>
    requires closed { IsTrue (is_closed clafers.now) }
    requires few { length clafers.now < 2 ^ 32 }
    ensures { IfOk result (λ r. core r ≡ same clafers.now scopes.now reading (core sides.left.expr) (core sides.right.expr)) }
{
    match reading {
        Some(
            Reading::ByNodes {
                left_dref,
                right_dref,
            },
        ) => {
            let pair = followed(alloc, clafers, scopes, left_dref, right_dref, sides)?;
            let Pair { left, right } = pair;
            Ok(CoreExpr::SameNodes(left, right))
        }
        _ => {
            let Pair { left, right } = as_they_are(sides);
            Ok(CoreExpr::SameValues(left, right))
        }
    }
}

/// Whether the left side is a part of the right one, as they are read.
pub fn part(
    alloc: Global,
    clafers: &List<Clafer>,
    scopes: &Scopes,
    reading: Option<Reading>,
    sides: Sides,
) -> Result<CoreExpr, NoMemory>
    requires closed { IsTrue (is_closed clafers.now) }
    requires few { length clafers.now < 2 ^ 32 }
    ensures { IfOk result (λ r. core r ≡ part clafers.now scopes.now reading (core sides.left.expr) (core sides.right.expr)) }
{
    match reading {
        Some(
            Reading::ByNodes {
                left_dref,
                right_dref,
            },
        ) => {
            let pair = followed(alloc, clafers, scopes, left_dref, right_dref, sides)?;
            Ok(CoreExpr::WithinNodes(pair.left, pair.right))
        }
        _ => {
            let pair = as_they_are(sides);
            Ok(CoreExpr::WithinValues(pair.left, pair.right))
        }
    }
}

fn never(alloc: Global) -> Result<CoreExpr, NoMemory>
    ensures { IfOk result (λ r. core r ≡ never) }
{
    let nothing = CoreExpr::Every {
        clafers: List::new(alloc),
    };
    Ok(CoreExpr::AtLeast(1, Boxed::new(alloc, nothing)?))
}

fn tuples(
    word: Quantifier,
    disj: bool,
    names: usize,
    over: Boxed<CoreExpr>,
    body: Boxed<CoreExpr>,
) -> CoreExpr
    ensures { core result ≡ Core.Quant word disj names (core over) (core body) }
{
    CoreExpr::Quant {
        word,
        disj,
        names,
        over,
        body,
    }
}

/// As many tuples of nodes as the word asks for; with another word it is never true.
pub fn quantified(
    alloc: Global,
    word: Word,
    disj: bool,
    names: usize,
    over: Boxed<CoreExpr>,
    body: Boxed<CoreExpr>,
) -> Result<CoreExpr, NoMemory>
    ensures { IfOk result (λ r. core r ≡ quant word disj names (core over) (core body)) }
{
    match word {
        Word::All => Ok(tuples(Quantifier::All, disj, names, over, body)),
        Word::Some => Ok(tuples(Quantifier::Some, disj, names, over, body)),
        Word::One => Ok(tuples(Quantifier::One, disj, names, over, body)),
        Word::Lone => Ok(tuples(Quantifier::Lone, disj, names, over, body)),
        Word::No => {
            let some = tuples(Quantifier::Some, disj, names, over, body);
            Ok(CoreExpr::Not(Boxed::new(alloc, some)?))
        }
        _ => never(alloc),
    }
}
