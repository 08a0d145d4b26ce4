//! Sets of nodes, each with the clafers that its parts leave possible.

ghost use Rattle.std.specs.Prelude.{◌≡◌, ◌<◌, ◌^◌, [], length, IfOk, IsTrue};
ghost use Rattle.std.specs.Option.{option_map_or};
ghost use Rattle.clf_tree.specs.Lists.{from_end};
ghost use Rattle.clf_tree.specs.Hierarchy.{is_closed};
ghost use Rattle.clf_tree.specs.Core.{core};
ghost use Rattle.clf_tree.specs.CoreSoundness.{sort, clafers_in};
ghost use Rattle.relational_core.specs.Lowered.{every, down, up, follow, union, minus, meet, choose_nodes, dref, through, bound_node};

use crate::clafer_lists::{both_of, children_of, either_of, instances_of, parents_of, targets_of};
use clf_base::{List, NoMemory};
use clf_tree::{Clafer, CoreExpr, Kind, Scopes};
use sqlite_items::Boxed;
use std::alloc::Global;

/// The clafers of a node form; another form has none.
pub fn listed(expr: &CoreExpr) -> &[u32]
    ensures { result.now ≡ clafers_in (sort (core expr.now)) }
{
    match expr {
        CoreExpr::Bound { clafers, .. }
        | CoreExpr::Every { clafers }
        | CoreExpr::Down { clafers, .. }
        | CoreExpr::Up { clafers, .. }
        | CoreExpr::Follow { clafers, .. }
        | CoreExpr::Union { clafers, .. }
        | CoreExpr::Minus { clafers, .. }
        | CoreExpr::Meet { clafers, .. }
        | CoreExpr::ChooseNodes { clafers, .. } => clafers.as_slice(),
        _ => &[],
    }
}

/// All nodes that are-a one of the given clafers.
pub fn every(
    alloc: Global,
    clafers: &List<Clafer>,
    scopes: &Scopes,
    ks: &List<u32>,
) -> Result<Boxed<CoreExpr>, NoMemory>
    requires closed { IsTrue (is_closed clafers.now) }
    requires few { length clafers.now < 2 ^ 32 }
    ensures { IfOk result (λ r. core r ≡ every clafers.now scopes.now ks.now) }
{
    let found = instances_of(alloc, clafers, scopes, ks)?;
    Ok(Boxed::new(alloc, CoreExpr::Every { clafers: found })?)
}

/// The nodes of the given clafers whose parents are among others.
pub fn down(
    alloc: Global,
    clafers: &List<Clafer>,
    scopes: &Scopes,
    into: &List<u32>,
    of: Boxed<CoreExpr>,
) -> Result<Boxed<CoreExpr>, NoMemory>
    requires closed { IsTrue (is_closed clafers.now) }
    requires few { length clafers.now < 2 ^ 32 }
    ensures { IfOk result (λ r. core r ≡ down clafers.now scopes.now into.now (core of)) }
{
    let found = children_of(alloc, clafers, scopes, into, listed(of.get()))?;
    Ok(Boxed::new(alloc, CoreExpr::Down { clafers: found, of })?)
}

/// The parents of nodes.
pub fn up(
    alloc: Global,
    clafers: &List<Clafer>,
    scopes: &Scopes,
    of: Boxed<CoreExpr>,
) -> Result<Boxed<CoreExpr>, NoMemory>
    requires closed { IsTrue (is_closed clafers.now) }
    requires few { length clafers.now < 2 ^ 32 }
    ensures { IfOk result (λ r. core r ≡ up clafers.now scopes.now (core of)) }
{
    let found = parents_of(alloc, clafers, scopes, listed(of.get()))?;
    Ok(Boxed::new(alloc, CoreExpr::Up { clafers: found, of })?)
}

/// The targets of nodes.
pub fn follow(
    alloc: Global,
    clafers: &List<Clafer>,
    scopes: &Scopes,
    of: Boxed<CoreExpr>,
) -> Result<Boxed<CoreExpr>, NoMemory>
    requires closed { IsTrue (is_closed clafers.now) }
    requires few { length clafers.now < 2 ^ 32 }
    ensures { IfOk result (λ r. core r ≡ follow clafers.now scopes.now (core of)) }
{
    let found = targets_of(alloc, clafers, scopes, listed(of.get()))?;
    Ok(Boxed::new(alloc, CoreExpr::Follow { clafers: found, of })?)
}

/// The nodes of both.
pub fn union(
    alloc: Global,
    clafers: &List<Clafer>,
    scopes: &Scopes,
    left: Boxed<CoreExpr>,
    right: Boxed<CoreExpr>,
) -> Result<Boxed<CoreExpr>, NoMemory>
    requires { length clafers.now < 2 ^ 32 }
    ensures { IfOk result (λ r. core r ≡ union clafers.now scopes.now (core left) (core right)) }
{
    let found = either_of(
        alloc,
        clafers,
        scopes,
        listed(left.get()),
        listed(right.get()),
    )?;
    let union = CoreExpr::Union {
        clafers: found,
        left,
        right,
    };
    Ok(Boxed::new(alloc, union)?)
}

/// The nodes of the left side that are not on the right one.
pub fn minus(
    alloc: Global,
    left: Boxed<CoreExpr>,
    right: Boxed<CoreExpr>,
) -> Result<Boxed<CoreExpr>, NoMemory>
    ensures { IfOk result (λ r. core r ≡ minus (core left) (core right)) }
{
    let found = List::from_slice(alloc, listed(left.get()))?;
    let minus = CoreExpr::Minus {
        clafers: found,
        left,
        right,
    };
    Ok(Boxed::new(alloc, minus)?)
}

/// The nodes that are on both sides.
pub fn meet(
    alloc: Global,
    clafers: &List<Clafer>,
    scopes: &Scopes,
    left: Boxed<CoreExpr>,
    right: Boxed<CoreExpr>,
) -> Result<Boxed<CoreExpr>, NoMemory>
    requires { length clafers.now < 2 ^ 32 }
    ensures { IfOk result (λ r. core r ≡ meet clafers.now scopes.now (core left) (core right)) }
{
    let found = both_of(
        alloc,
        clafers,
        scopes,
        listed(left.get()),
        listed(right.get()),
    )?;
    let meet = CoreExpr::Meet {
        clafers: found,
        left,
        right,
    };
    Ok(Boxed::new(alloc, meet)?)
}

/// One of two sets.
pub fn choose_nodes(
    alloc: Global,
    clafers: &List<Clafer>,
    scopes: &Scopes,
    test: Boxed<CoreExpr>,
    then: Boxed<CoreExpr>,
    other: Boxed<CoreExpr>,
) -> Result<Boxed<CoreExpr>, NoMemory>
    requires { length clafers.now < 2 ^ 32 }
    ensures { IfOk result (λ r. core r ≡ choose_nodes clafers.now scopes.now (core test) (core then) (core other)) }
{
    let found = either_of(
        alloc,
        clafers,
        scopes,
        listed(then.get()),
        listed(other.get()),
    )?;
    let choice = CoreExpr::ChooseNodes {
        clafers: found,
        test,
        then,
        other,
    };
    Ok(Boxed::new(alloc, choice)?)
}

/// A `dref` of the given kind: of integers it is the nodes that have them.
pub fn dref(
    alloc: Global,
    clafers: &List<Clafer>,
    scopes: &Scopes,
    kind: &Option<Kind>,
    of: Boxed<CoreExpr>,
) -> Result<Boxed<CoreExpr>, NoMemory>
    requires closed { IsTrue (is_closed clafers.now) }
    requires few { length clafers.now < 2 ^ 32 }
    ensures { IfOk result (λ r. core r ≡ dref clafers.now scopes.now kind.now (core of)) }
{
    match kind {
        Some(Kind::Numbers(_)) => Ok(of),
        _ => follow(alloc, clafers, scopes, of),
    }
}

/// A side that is read as its targets where `is_followed`.
pub fn through(
    alloc: Global,
    clafers: &List<Clafer>,
    scopes: &Scopes,
    is_followed: bool,
    of: Boxed<CoreExpr>,
) -> Result<Boxed<CoreExpr>, NoMemory>
    requires closed { IsTrue (is_closed clafers.now) }
    requires few { length clafers.now < 2 ^ 32 }
    ensures { IfOk result (λ r. core r ≡ through clafers.now scopes.now is_followed (core of)) }
{
    if !is_followed {
        return Ok(of);
    }
    follow(alloc, clafers, scopes, of)
}

fn listed_at(alloc: Global, lists: &List<List<u32>>, variable: usize) -> Result<List<u32>, NoMemory>
    ensures { IfOk result (λ found. found ≡ option_map_or (λ ks. ks) (from_end lists.now variable) []) }
{
    match lists.as_slice().iter().rev().nth(variable) {
        Some(listed) => Ok(listed.copy(alloc)?),
        None => Ok(List::new(alloc)),
    }
}

/// The node that is bound at a place from the innermost on, of the clafers listed there.
pub fn bound_node(
    alloc: Global,
    lists: &List<List<u32>>,
    variable: usize,
) -> Result<Boxed<CoreExpr>, NoMemory>
    ensures { IfOk result (λ r. core r ≡ bound_node lists.now variable) }
{
    let clafers = listed_at(alloc, lists, variable)?;
    Ok(Boxed::new(alloc, CoreExpr::Bound { clafers, variable })?)
}
