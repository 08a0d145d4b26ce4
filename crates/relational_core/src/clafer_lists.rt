//! The clafers that the nodes of a form can have: concrete ones with a scope, ascending.

ghost use Rattle.std.specs.Prelude.{◌≡◌, ◌&&◌, ◌||◌, ◌<◌, ◌^◌, length, IfOk, IsTrue};
ghost use Rattle.std.specs.List.{list_any};
ghost use Rattle.clf_tree.specs.Lists.{has};
ghost use Rattle.clf_tree.specs.Hierarchy.{is_closed, is_a, is_one_of, target_of};
ghost use Rattle.clf_tree.specs.Nodes.{scope_of};
ghost use Rattle.relational_core.specs.Lowered.{is_possible, can_hold, can_reach, instances_of, children_of, parents_of, targets_of, either_of, both_of};

use clf_base::{List, NoMemory};
use clf_tree::{Clafer, Scopes, is_a, is_one_of, reference_of};
use std::alloc::Global;

fn scope_of(scopes: &Scopes, clafer: u32) -> u32
    ensures { result ≡ scope_of scopes.now clafer }
{
    match scopes.of.as_slice().get(clafer as usize) {
        Some(most) => *most,
        None => 0,
    }
}

fn is_possible(clafers: &List<Clafer>, scopes: &Scopes, clafer: u32) -> bool
    requires { clafer < length clafers.now }
    ensures { result ≡ is_possible clafers.now scopes.now clafer }
{
    !clafers.get(clafer as usize).is_abstract && scope_of(scopes, clafer) > 0
}

#[tactic(auto, using(crate::proofs::Beyond::itself_alone))]
fn is_a_any(clafers: &List<Clafer>, low: u32, high: u32) -> bool
    requires { IsTrue (is_closed clafers.now) }
    ensures { result ≡ is_a clafers.now low high }
{
    if (low as usize) < clafers.len() {
        return is_a(clafers, low, high);
    }
    high == low
}

/// Whether an instance of one clafer can be the parent of an instance of the other.
fn can_hold(clafers: &List<Clafer>, parent: u32, child: u32) -> bool
    requires { IsTrue (is_closed clafers.now) }
    ensures { result ≡ can_hold clafers.now parent child }
{
    match clafers.as_slice().get(child as usize) {
        Some(here) => match here.parent {
            Some(declared) => is_a_any(clafers, parent, declared),
            None => false,
        },
        None => false,
    }
}

fn target_of(clafers: &List<Clafer>, clafer: u32) -> Option<u32>
    ensures { result ≡ target_of clafers.now clafer }
{
    match reference_of(clafers, clafer) {
        Some(reference) => reference.to,
        None => None,
    }
}

/// Whether an instance of one clafer can have an instance of the other as its target.
fn can_reach(clafers: &List<Clafer>, from: u32, target: u32) -> bool
    requires { IsTrue (is_closed clafers.now) }
    ensures { result ≡ can_reach clafers.now from target }
{
    match target_of(clafers, from) {
        Some(declared) => is_a_any(clafers, target, declared),
        None => false,
    }
}

fn has(listed: &[u32], clafer: u32) -> bool
    ensures { result ≡ has listed.now clafer }
{
    listed.iter().any(|other| clafer == *other)
}

fn is_instance(clafers: &List<Clafer>, scopes: &Scopes, ks: &List<u32>, clafer: u32) -> bool
    requires within { clafer < length clafers.now }
    requires closed { IsTrue (is_closed clafers.now) }
    ensures { result ≡ (is_possible clafers.now scopes.now clafer && is_one_of clafers.now ks.now clafer) }
{
    is_possible(clafers, scopes, clafer) && is_one_of(clafers, ks, clafer)
}

/// Those that are-a one of the given clafers. It goes over the clafers.
#[tactic(auto, using(crate::proofs::Numbers::child_steps))]
pub fn instances_of(
    alloc: Global,
    clafers: &List<Clafer>,
    scopes: &Scopes,
    ks: &List<u32>,
) -> Result<List<u32>, NoMemory>
    requires closed { IsTrue (is_closed clafers.now) }
    requires few { length clafers.now < 2 ^ 32 }
    ensures { IfOk result (λ found. found ≡ instances_of clafers.now scopes.now ks.now) }
{
    let mut found = List::new(alloc);
    for number in 0..clafers.len() {
        if is_instance(clafers, scopes, ks, number as u32) {
            found.push(number as u32)?;
        }
    }
    Ok(found)
}

fn is_below(clafers: &List<Clafer>, parents: &[u32], clafer: u32) -> bool
    requires { IsTrue (is_closed clafers.now) }
    ensures { result ≡ list_any (λ p. can_hold clafers.now p clafer) parents.now }
{
    parents
        .iter()
        .any(|parent| can_hold(clafers, *parent, clafer))
}

fn is_child(
    clafers: &List<Clafer>,
    scopes: &Scopes,
    ks: &List<u32>,
    parents: &[u32],
    clafer: u32,
) -> bool
    requires within { clafer < length clafers.now }
    requires closed { IsTrue (is_closed clafers.now) }
    ensures { result ≡ (is_possible clafers.now scopes.now clafer && (is_one_of clafers.now ks.now clafer && list_any (λ p. can_hold clafers.now p clafer) parents.now)) }
{
    if !is_possible(clafers, scopes, clafer) {
        return false;
    }
    if !is_one_of(clafers, ks, clafer) {
        return false;
    }
    is_below(clafers, parents, clafer)
}

/// Those that are-a one of the given clafers and can be below a node of one of the listed ones.
#[tactic(auto, using(crate::proofs::Numbers::child_steps))]
pub fn children_of(
    alloc: Global,
    clafers: &List<Clafer>,
    scopes: &Scopes,
    ks: &List<u32>,
    parents: &[u32],
) -> Result<List<u32>, NoMemory>
    requires closed { IsTrue (is_closed clafers.now) }
    requires few { length clafers.now < 2 ^ 32 }
    ensures { IfOk result (λ found. found ≡ children_of clafers.now scopes.now ks.now parents.now) }
{
    let mut found = List::new(alloc);
    for number in 0..clafers.len() {
        if is_child(clafers, scopes, ks, parents, number as u32) {
            found.push(number as u32)?;
        }
    }
    Ok(found)
}

fn is_above(clafers: &List<Clafer>, children: &[u32], clafer: u32) -> bool
    requires { IsTrue (is_closed clafers.now) }
    ensures { result ≡ list_any (can_hold clafers.now clafer) children.now }
{
    children
        .iter()
        .any(|child| can_hold(clafers, clafer, *child))
}

fn holds_some(clafers: &List<Clafer>, scopes: &Scopes, children: &[u32], clafer: u32) -> bool
    requires within { clafer < length clafers.now }
    requires closed { IsTrue (is_closed clafers.now) }
    ensures { result ≡ (is_possible clafers.now scopes.now clafer && list_any (can_hold clafers.now clafer) children.now) }
{
    is_possible(clafers, scopes, clafer) && is_above(clafers, children, clafer)
}

/// Those that can be the parent of a node of one of the listed clafers.
#[tactic(auto, using(crate::proofs::Numbers::child_steps))]
pub fn parents_of(
    alloc: Global,
    clafers: &List<Clafer>,
    scopes: &Scopes,
    children: &[u32],
) -> Result<List<u32>, NoMemory>
    requires closed { IsTrue (is_closed clafers.now) }
    requires few { length clafers.now < 2 ^ 32 }
    ensures { IfOk result (λ found. found ≡ parents_of clafers.now scopes.now children.now) }
{
    let mut found = List::new(alloc);
    for number in 0..clafers.len() {
        if holds_some(clafers, scopes, children, number as u32) {
            found.push(number as u32)?;
        }
    }
    Ok(found)
}

fn is_target(clafers: &List<Clafer>, from: &[u32], clafer: u32) -> bool
    requires { IsTrue (is_closed clafers.now) }
    ensures { result ≡ list_any (λ x. can_reach clafers.now x clafer) from.now }
{
    from.iter()
        .any(|source| can_reach(clafers, *source, clafer))
}

fn is_reached(clafers: &List<Clafer>, scopes: &Scopes, from: &[u32], clafer: u32) -> bool
    requires within { clafer < length clafers.now }
    requires closed { IsTrue (is_closed clafers.now) }
    ensures { result ≡ (is_possible clafers.now scopes.now clafer && list_any (λ x. can_reach clafers.now x clafer) from.now) }
{
    is_possible(clafers, scopes, clafer) && is_target(clafers, from, clafer)
}

/// Those that can be the target of a node of one of the listed clafers.
#[tactic(auto, using(crate::proofs::Numbers::child_steps))]
pub fn targets_of(
    alloc: Global,
    clafers: &List<Clafer>,
    scopes: &Scopes,
    from: &[u32],
) -> Result<List<u32>, NoMemory>
    requires closed { IsTrue (is_closed clafers.now) }
    requires few { length clafers.now < 2 ^ 32 }
    ensures { IfOk result (λ found. found ≡ targets_of clafers.now scopes.now from.now) }
{
    let mut found = List::new(alloc);
    for number in 0..clafers.len() {
        if is_reached(clafers, scopes, from, number as u32) {
            found.push(number as u32)?;
        }
    }
    Ok(found)
}

fn is_in_either(
    clafers: &List<Clafer>,
    scopes: &Scopes,
    left: &[u32],
    right: &[u32],
    clafer: u32,
) -> bool
    requires { clafer < length clafers.now }
    ensures { result ≡ (is_possible clafers.now scopes.now clafer && (has left.now clafer || has right.now clafer)) }
{
    is_possible(clafers, scopes, clafer) && (has(left, clafer) || has(right, clafer))
}

/// Those that are listed in one of two lists.
#[tactic(auto, using(crate::proofs::Numbers::child_steps))]
pub fn either_of(
    alloc: Global,
    clafers: &List<Clafer>,
    scopes: &Scopes,
    left: &[u32],
    right: &[u32],
) -> Result<List<u32>, NoMemory>
    requires { length clafers.now < 2 ^ 32 }
    ensures { IfOk result (λ found. found ≡ either_of clafers.now scopes.now left.now right.now) }
{
    let mut found = List::new(alloc);
    for number in 0..clafers.len() {
        if is_in_either(clafers, scopes, left, right, number as u32) {
            found.push(number as u32)?;
        }
    }
    Ok(found)
}

fn is_in_both(
    clafers: &List<Clafer>,
    scopes: &Scopes,
    left: &[u32],
    right: &[u32],
    clafer: u32,
) -> bool
    requires { clafer < length clafers.now }
    ensures { result ≡ (is_possible clafers.now scopes.now clafer && (has left.now clafer && has right.now clafer)) }
{
    is_possible(clafers, scopes, clafer) && (has(left, clafer) && has(right, clafer))
}

/// Those that are listed in both of two lists.
#[tactic(auto, using(crate::proofs::Numbers::child_steps))]
pub fn both_of(
    alloc: Global,
    clafers: &List<Clafer>,
    scopes: &Scopes,
    left: &[u32],
    right: &[u32],
) -> Result<List<u32>, NoMemory>
    requires { length clafers.now < 2 ^ 32 }
    ensures { IfOk result (λ found. found ≡ both_of clafers.now scopes.now left.now right.now) }
{
    let mut found = List::new(alloc);
    for number in 0..clafers.len() {
        if is_in_both(clafers, scopes, left, right, number as u32) {
            found.push(number as u32)?;
        }
    }
    Ok(found)
}
