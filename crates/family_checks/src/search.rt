//! Whether a clafer contains itself, from owner to owner.

ghost use Rattle.std.specs.Prelude.{◌≡◌, ◌<◌, ◌^◌, length, IfOk, IsTrue};
ghost use Rattle.std.specs.List.{list_any};
ghost use Rattle.clf_tree.specs.Lists.{has};
ghost use Rattle.clf_tree.specs.Hierarchy.{is_closed, owners};
ghost use Rattle.clf_tree.specs.Named.{owners_of, contains_itself};

use crate::certificate::parent_of;
use clf_base::{List, NoMemory};
use clf_tree::{Clafer, is_a, owners};
use std::alloc::Global;

fn has(clafers: &List<u32>, clafer: u32) -> bool
    ensures { result ≡ has clafers.now clafer }
{
    clafers.as_slice().iter().any(|other| clafer == *other)
}

#[tactic(auto, using(crate::proofs::Owners::owner_facts))]
fn is_owner(clafers: &List<Clafer>, owner: u32, of: u32) -> bool
    requires owner_in { owner < length clafers.now }
    requires closed { IsTrue (is_closed clafers.now) }
    ensures { result ≡ has (owners clafers.now of) owner }
{
    match parent_of(clafers, of) {
        None => false,
        Some(parent) => {
            if clafers.get(owner as usize).is_abstract {
                return false;
            }
            is_a(clafers, owner, parent)
        }
    }
}

fn owns_one(clafers: &List<Clafer>, of: &List<u32>, owner: u32) -> bool
    requires owner_in { owner < length clafers.now }
    requires closed { IsTrue (is_closed clafers.now) }
    ensures { result ≡ list_any (λ d. has (owners clafers.now d) owner) of.now }
{
    of.as_slice()
        .iter()
        .any(|clafer| is_owner(clafers, owner, *clafer))
}

#[tactic(auto, using(crate::proofs::Numbers::number_steps))]
fn owners_of(alloc: Global, clafers: &List<Clafer>, of: &List<u32>) -> Result<List<u32>, NoMemory>
    requires closed { IsTrue (is_closed clafers.now) }
    requires few { length clafers.now < 2 ^ 32 }
    ensures { IfOk result (λ found. found ≡ owners_of clafers.now of.now) }
{
    let mut found = List::new(alloc);
    for number in 0..clafers.len() {
        if owns_one(clafers, of, number as u32) {
            found.push(number as u32)?;
        }
    }
    Ok(found)
}

/// Whether going from owner to owner leads back to the clafer. It goes from the owners of all that is reached to their owners, as
/// often as it takes to come back.
pub fn contains_itself(alloc: Global, clafers: &List<Clafer>, clafer: u32) -> Result<bool, NoMemory>
    requires clafer_in { clafer < length clafers.now }
    requires closed { IsTrue (is_closed clafers.now) }
    requires few { length clafers.now < 2 ^ 32 }
    ensures { IfOk result (λ met. met ≡ contains_itself clafers.now clafer) }
{
    let mut reached = owners(alloc, clafers, clafer)?;
    for _step in 0..clafers.len() {
        if has(&reached, clafer) {
            return Ok(true);
        }
        reached = owners_of(alloc, clafers, &reached)?;
    }
    Ok(has(&reached, clafer))
}
