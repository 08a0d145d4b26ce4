//! Children that have the name of an inherited child.

ghost use Rattle.std.specs.Prelude.{◌≡◌, ◌<◌, ◌^◌, ◌&&◌, ℕ, List as Seq, Option, Some, length, nat_eq, bytes_eq, IfOk};
ghost use Rattle.std.specs.Option.{option_eq};
ghost use Rattle.std.specs.List.{list_any};
ghost use Rattle.std.specs.HashSet.{contains_by};
ghost use Rattle.clf_tree.specs.Hierarchy.{with_supers};
ghost use Rattle.clf_tree.specs.Named.{repeats_inherited};
ghost use Rattle.family_checks.specs.Families.{stands_at};

use crate::certificate::{parent_of, super_of};
use clf_base::{List, NoMemory};
use clf_tree::Clafer;
use std::alloc::Global;
use std::collections::HashSet;

/// The names of all clafers, each beside the clafer that it is declared under.
pub fn declared_names<'a>(
    alloc: Global,
    clafers: &'a List<Clafer>,
) -> Result<HashSet<(Option<u32>, &'a [u8])>, NoMemory>
    ensures { IfOk result (λ names. (p : Option ℕ) (n : Seq ℕ) → contains_by (λ k. option_eq nat_eq p k.0 && bytes_eq n k.1.now) names ≡ list_any (stands_at p n) clafers.now) }
{
    let mut names = HashSet::new(alloc);
    for number in 0..clafers.len() {
        let clafer = clafers.get(number);
        names.insert((clafer.parent, clafer.title.name.as_slice()))?;
    }
    Ok(names)
}

fn is_declared(names: &HashSet<(Option<u32>, &[u8])>, parent: u32, name: &[u8]) -> bool
    ensures { result ≡ contains_by (λ k. option_eq nat_eq (Some parent) k.0 && bytes_eq name.now k.1.now) names.now }
{
    names.contains(&(Some(parent), name))
}

// Whether a clafer or one above it declares a child of the name.
fn has_child(
    clafers: &List<Clafer>,
    names: &HashSet<(Option<u32>, &[u8])>,
    clafer: u32,
    name: &[u8],
) -> bool
    ensures { result ≡ list_any (λ q. contains_by (λ k. option_eq nat_eq (Some q) k.0 && bytes_eq name.now k.1.now) names.now) (with_supers clafers.now clafer) }
{
    let mut current = clafer;
    for _step in 0..clafers.len() {
        if is_declared(names, current, name) {
            return true;
        }
        match super_of(clafers, current) {
            Some(above) => current = above,
            None => return false,
        }
    }
    is_declared(names, current, name)
}

#[tactic(auto, using(crate::proofs::Repeats::repeat_facts))]
/// Whether the parent of a clafer inherits a child of its name. It takes one look-up for each clafer above its parent.
pub fn repeats_inherited(
    clafers: &List<Clafer>,
    names: &HashSet<(Option<u32>, &[u8])>,
    clafer: u32,
) -> bool
    requires clafer_in { clafer < length clafers.now }
    requires known { (p : Option ℕ) (n : Seq ℕ) → contains_by (λ k. option_eq nat_eq p k.0 && bytes_eq n k.1.now) names.now ≡ list_any (stands_at p n) clafers.now }
    ensures { result ≡ repeats_inherited clafers.now clafer }
{
    let here = clafers.get(clafer as usize);
    match here.parent {
        None => false,
        Some(parent) => match super_of(clafers, parent) {
            None => false,
            Some(above) => has_child(clafers, names, above, here.title.name.as_slice()),
        },
    }
}
