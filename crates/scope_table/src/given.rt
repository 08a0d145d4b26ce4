//! The scopes that are given.

ghost use Rattle.std.specs.Prelude.{◌≡◌, [], ◌<◌, ◌^◌, List, length, IfOk, IfErr, OnOk};
ghost use Rattle.clf_tree.specs.declared.scopes.GivenScope.{GivenScope};
ghost use Rattle.scope_table.specs.Refusals.{given_refusals, refused, nowhere, IsFirstOf};
ghost use Rattle.scope_table.specs.Steps.{IsGiven, IsOwnOrRefused};

use crate::paths::named_by;
use clf_base::{Fault, List, NoMemory, Refusal, Span};
use clf_tree::{Clafer, GivenScope};
use std::alloc::Global;

/// A refusal at a place, and at no place.
pub fn refused(code: u16, at: Span, value: u64) -> Refusal
    ensures { result ≡ refused code at value }
{
    Refusal { code, at, value }
}

pub fn refused_at_all(code: u16, value: u64) -> Refusal
    ensures { result ≡ refused code nowhere value }
{
    refused(code, Span { line: 0, column: 0 }, value)
}

/// The clafer of a given scope, after so many before it, or why it is refused.
fn clafer_of(
    clafers: &[Clafer],
    table: &[Option<u64>],
    place: usize,
    given: &GivenScope,
) -> Result<u32, Refusal>
    requires few { length clafers.now < 2 ^ 32 }
    requires long { length table.now ≡ length clafers.now }
    requires short { place < 2 ^ 63 }
    ensures { (before : List GivenScope) → length before ≡ place → IsGiven clafers.now before table.now → IsOwnOrRefused clafers.now before given.now result }
{
    let Some(clafer) = named_by(clafers, given.path.as_slice()) else {
        return Err(refused_at_all(80, place as u64 + 1));
    };
    if clafers[clafer as usize].is_abstract {
        return Err(refused_at_all(81, place as u64 + 1));
    }
    if table[clafer as usize].is_some() {
        return Err(refused_at_all(82, place as u64 + 1));
    }
    if given.most > 256 {
        return Err(refused_at_all(83, given.most));
    }
    Ok(clafer)
}

/// The scope that is given to each clafer, or the first refusal of a given scope.
pub fn given_scopes(
    alloc: Global,
    clafers: &[Clafer],
    given: &[GivenScope],
) -> Result<Vec<Option<u64>>, Fault>
    requires few { length clafers.now < 2 ^ 32 }
    ensures accepted { OnOk result (given_refusals clafers.now [] given.now ≡ []) }
    ensures table { IfOk result (λ table. IsGiven clafers.now given.now table.items) }
    ensures long { IfOk result (λ table. length table.items ≡ length clafers.now) }
    ensures cause { IfErr result (λ fault. IsFirstOf (given_refusals clafers.now [] given.now) fault) }
{
    let mut table = vec![in alloc; None; clafers.len()]?;
    for place in 0..given.len() {
        match clafer_of(clafers, table.as_slice(), place, &given[place]) {
            Ok(clafer) => table[clafer as usize] = Some(given[place].most),
            Err(refusal) => return Err(Fault::Refused(refusal)),
        }
    }
    Ok(table)
}
