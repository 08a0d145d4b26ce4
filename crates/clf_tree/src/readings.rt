//! How the two sides of `=` and `in` are compared.

ghost use Rattle.std.specs.Prelude.{◌≡◌, ◌++◌, ◌<◌, ◌^◌, length, Some, IfOk, IsTrue};
ghost use Rattle.clf_tree.specs.Hierarchy.{is_closed};
ghost use Rattle.clf_tree.specs.Kinds.{node_reading, reading, reading_of, shared};
ghost use Rattle.clf_tree.specs.declared.kind.Kind.TheVariants.{Nodes};

use crate::kind::{Kind, Reading};
use crate::model::Clafer;
use crate::references::{refer_to_int, share, targets_of};
use clf_base::{List, NoMemory};
use std::alloc::Global;

fn shared(clafers: &List<Clafer>, xs: &Option<List<u32>>, ys: &Option<List<u32>>) -> bool
    requires closed { IsTrue (is_closed clafers.now) }
    requires few { length clafers.now < 2 ^ 32 }
    ensures { result ≡ shared clafers.now xs.now ys.now }
{
    match xs {
        Some(ks) => match ys {
            Some(ls) => share(clafers, ks, ls),
            None => false,
        },
        None => false,
    }
}

fn by_nodes(left_dref: bool, right_dref: bool) -> Option<Reading>
    ensures { result ≡ Some (Reading.ByNodes left_dref right_dref) }
{
    Some(Reading::ByNodes {
        left_dref,
        right_dref,
    })
}

fn node_reading(
    alloc: Global,
    clafers: &List<Clafer>,
    ks: List<u32>,
    ls: List<u32>,
) -> Result<Option<Reading>, NoMemory>
    requires closed { IsTrue (is_closed clafers.now) }
    requires few { length clafers.now < 2 ^ 32 }
    ensures { IfOk result (λ r. r ≡ node_reading clafers.now ks ls) }
{
    if share(clafers, &ks, &ls) {
        return Ok(by_nodes(false, false));
    }
    let left_targets = targets_of(alloc, clafers, &ks)?;
    let right_targets = targets_of(alloc, clafers, &ls)?;
    if shared(clafers, &left_targets, &Some(ls)) {
        return Ok(by_nodes(true, false));
    }
    if shared(clafers, &Some(ks), &right_targets) {
        return Ok(by_nodes(false, true));
    }
    if shared(clafers, &left_targets, &right_targets) {
        return Ok(by_nodes(true, true));
    }
    Ok(None)
}

/// The reading of two sets of nodes.
pub(crate) fn nodes_reading(
    alloc: Global,
    clafers: &List<Clafer>,
    ks: List<u32>,
    ls: &List<u32>,
) -> Result<Option<Reading>, NoMemory>
    requires closed { IsTrue (is_closed clafers.now) }
    requires few { length clafers.now < 2 ^ 32 }
    ensures { IfOk result (λ r. r ≡ reading clafers.now (Nodes ks) (Nodes ls.now)) }
{
    let mut both = ks.copy(alloc)?;
    both.extend(ls.as_slice())?;
    if refer_to_int(clafers, &both) {
        return Ok(Some(Reading::ByValues));
    }
    node_reading(alloc, clafers, ks, ls.copy(alloc)?)
}

fn reading(
    alloc: Global,
    clafers: &List<Clafer>,
    left: &Kind,
    right: &Kind,
) -> Result<Option<Reading>, NoMemory>
    requires closed { IsTrue (is_closed clafers.now) }
    requires few { length clafers.now < 2 ^ 32 }
    ensures { IfOk result (λ r. r ≡ reading clafers.now left.now right.now) }
{
    match left {
        Kind::Truth => Ok(None),
        Kind::Nodes(ks) => match right {
            Kind::Truth => Ok(None),
            Kind::Nodes(ls) => nodes_reading(alloc, clafers, ks.copy(alloc)?, ls),
            _ => Ok(Some(Reading::ByValues)),
        },
        _ => match right {
            Kind::Truth => Ok(None),
            _ => Ok(Some(Reading::ByValues)),
        },
    }
}

/// How two sides of the given kinds are compared; None where they have no reading.
pub fn reading_of(
    alloc: Global,
    clafers: &List<Clafer>,
    left: &Option<Kind>,
    right: &Option<Kind>,
) -> Result<Option<Reading>, NoMemory>
    requires closed { IsTrue (is_closed clafers.now) }
    requires few { length clafers.now < 2 ^ 32 }
    ensures { IfOk result (λ r. r ≡ reading_of clafers.now left.now right.now) }
{
    match left {
        Some(a) => match right {
            Some(b) => reading(alloc, clafers, a, b),
            None => Ok(None),
        },
        None => Ok(None),
    }
}
