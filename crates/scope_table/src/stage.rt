//! The scopes of a model, or the first refusal.

ghost use Rattle.std.specs.Prelude.{◌≡◌, [], ◌<◌, ◌≤◌, ◌^◌, ◌&&◌, List, length, sum, get_or, nat_lt, None, is_none, IfOk, IfErr, OnOk};
ghost use Rattle.std.specs.Option.{option_to_list};
ghost use Rattle.std.specs.List.{flat_map};
ghost use Rattle.clf_tree.specs.Lists.{numbers_below};
ghost use Rattle.clf_tree.specs.declared.model.Clafer.{Clafer};
ghost use Rattle.clf_tree.specs.declared.scopes.Given.{Given};
ghost use Rattle.scope_table.specs.Largest.{told};
ghost use Rattle.scope_table.specs.Refusals.{range_refusals, large_refusals, sum_refusals, refusals, IsFirst, AreScopes, Explains};
ghost use Rattle.scope_table.specs.Fitting.{Fit};
ghost use Rattle.scope_table.specs.Steps.{IsGiven, AreLargest};

use crate::given::{given_scopes, refused, refused_at_all};
use crate::largest::largest;
use crate::totals::told;
use clf_base::{Fault, List, NoMemory, Refusal};
use clf_tree::{Clafer, Given, Scopes, Typed};
use std::alloc::Global;

fn range_refusal(given: &Given) -> Option<Refusal>
    ensures { option_to_list result ≡ range_refusals given.now }
{
    if given.high < given.low || given.low < -32768 || 32767 < given.high {
        return Some(refused_at_all(85, 0));
    }
    None
}

/// Whether the scope of a clafer is above 256 and isn't given.
fn is_large(table: &[Option<u64>], of: &[u64], clafer: usize) -> bool
    requires known { clafer < length table.now }
    requires long { clafer < length of.now }
    ensures { result ≡ (is_none (get_or table.now clafer None) && nat_lt 256 (get_or of.now clafer 0)) }
{
    if table[clafer].is_some() {
        return false;
    }
    of[clafer] > 256
}

/// The first of the scopes above 256 that aren't given.
fn large_refusal(clafers: &[Clafer], table: &[Option<u64>], of: &[u64]) -> Option<Refusal>
    requires known { length table.now ≡ length clafers.now }
    requires long { length of.now ≡ length clafers.now }
    ensures { (given : Given) → IsGiven clafers.now given.scopes table.now → AreLargest clafers.now given of.now → IsFirst (flat_map (large_refusals clafers.now given) (numbers_below (length clafers.now))) result }
{
    for clafer in 0..clafers.len() {
        if is_large(table, of, clafer) {
            return Some(refused(83, clafers[clafer].title.at, of[clafer]));
        }
    }
    None
}

fn sum_of(of: &[u64]) -> u64
    ensures { result ≡ told (sum of.now) }
{
    let mut total = 0;
    for most in of {
        total = told(most.saturating_add(total));
    }
    total
}

fn sum_refusal(of: &[u64]) -> Option<Refusal>
    ensures { (clafers : List Clafer) (given : Given) → length of.now ≡ length clafers → AreLargest clafers given of.now → option_to_list result ≡ sum_refusals clafers given }
{
    let total = sum_of(of);
    if total > 2048 {
        return Some(refused_at_all(84, total));
    }
    None
}

fn narrowed(alloc: Global, of: &[u64]) -> Result<List<u32>, NoMemory>
    requires few { told (sum of.now) ≤ 2048 }
    ensures { IfOk result (λ narrow. narrow ≡ of.now) }
{
    let mut narrow = List::new(alloc);
    for most in of {
        narrow.push(*most as u32)?;
    }
    Ok(narrow)
}

/// The scopes of a model: the one that is given, or what multiplicities and the scopes of the owners make.
///
/// The first refusal is answered: 85 where the range of integers is empty or passes 16 bits; then for each given scope in turn 80 where
/// its path names no clafer, 81 where it names an abstract one, 82 where it names one that was given before, each with the place in the
/// list counted from 1, and 83 with the scope where it is above 256; then 83 at the title of the first clafer whose scope is above 256;
/// then 84 with the sum where it is above 2,048. Linear in the model for each given scope, and for each of the rounds, of which there
/// are as many as owners stand above one another.
pub fn scopes(alloc: Global, model: &Typed, given: &Given) -> Result<Scopes, Fault>
    requires few { length model.now.clafers < 2 ^ 32 }
    ensures accepted { OnOk result (refusals model.now.clafers given.now ≡ []) }
    ensures scopes { IfOk result (λ scopes. AreScopes model.now.clafers given.now scopes) }
    ensures fit { IfOk result (λ scopes. Fit model.now.clafers scopes.of) }
    ensures cause { IfErr result (λ fault. Explains model.now.clafers given.now fault) }
{
    let clafers = &model.model().clafers;
    if let Some(refusal) = range_refusal(given) {
        return Err(Fault::Refused(refusal));
    }
    let table = given_scopes(alloc, clafers.as_slice(), given.scopes.as_slice())?;
    let of = largest(alloc, clafers, given, table.as_slice())?;
    if let Some(refusal) = large_refusal(clafers.as_slice(), table.as_slice(), of.as_slice()) {
        return Err(Fault::Refused(refusal));
    }
    if let Some(refusal) = sum_refusal(of.as_slice()) {
        return Err(Fault::Refused(refusal));
    }
    let of = narrowed(alloc, of.as_slice())?;
    Ok(Scopes {
        of,
        low: given.low,
        high: given.high,
    })
}
