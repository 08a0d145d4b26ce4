//! What a name means from a clafer, by the table.

ghost use Rattle.std.specs.Prelude.{◌≡◌, ◌<◌, ◌^◌, ℕ, List as Seq, Some, length, IfOk, IfSome, IsTrue, MatchOption};
ghost use Rattle.clf_tree.specs.Named.{each, follows_parent};
ghost use Rattle.name_resolver.specs.LookUp.{IsNearest};
ghost use Rattle.name_resolver.specs.Outwards.{Means, at_top};
ghost use Rattle.name_resolver.specs.Meaning.{meaning_of};
ghost use Rattle.name_resolver.specs.declared.nearest.Nearest.TheVariants as nearest;
ghost use Rattle.name_tables.specs.Tables.{IsEntry, IsTableOf};

use crate::reach::parent_of;
use crate::table::{NameEntry, NameTable};
use crate::ways_down::{label_below, way_down};
use clf_base::{List, NoMemory};
use clf_tree::Clafer;
use name_resolver::{Found, Meant};
use std::alloc::Global;

// What is found below a clafer, if anything.
fn below(
    alloc: Global,
    clafers: &List<Clafer>,
    entry: &NameEntry,
    clafer: u32,
    out: u32,
) -> Result<Option<Found>, NoMemory>
    ensures { IfOk result (λ r. (name : Seq ℕ) → IsEntry clafers.now name entry.now → MatchOption r (IsNearest clafers.now clafer name nearest.Nothing) (λ found. Means clafers.now name (Some clafer) out found)) }
{
    let Some(label) = label_below(clafers, &entry.labels, clafer) else {
        return Ok(None);
    };
    if label.only.is_none() {
        return Ok(Some(Found::Several));
    }
    let way = way_down(alloc, clafers, &entry.labels, clafer, label.steps)?;
    Ok(Some(Found::Means(Meant::Below { out, way })))
}

fn at_top(clafers: &List<Clafer>, entry: &NameEntry) -> Found
    ensures { (name : Seq ℕ) → IsEntry clafers.now name entry.now → result ≡ at_top clafers.now name }
{
    match entry.top {
        Some(clafer) => Found::Means(Meant::Top(clafer)),
        None => Found::Nothing,
    }
}

// Context by context outwards.
fn found_outwards(
    alloc: Global,
    clafers: &List<Clafer>,
    entry: &NameEntry,
    context: Option<u32>,
) -> Result<Found, NoMemory>
    requires context_in { IfSome context (λ c. c < length clafers.now) }
    requires parents_first { IsTrue (each clafers.now (follows_parent clafers.now)) }
    requires few { length clafers.now < 2 ^ 32 }
    ensures { IfOk result (λ found. (name : Seq ℕ) → IsEntry clafers.now name entry.now → Means clafers.now name context 0 found) }
{
    let mut current = context;
    let mut out = 0;
    while let Some(clafer) = current {
        if let Some(found) = below(alloc, clafers, entry, clafer, out)? {
            return Ok(found);
        }
        current = parent_of(clafers, clafer);
        out += 1;
    }
    Ok(at_top(clafers, entry))
}

// What a name means; a name of no clafer means nothing.
fn found(
    alloc: Global,
    clafers: &List<Clafer>,
    table: &NameTable,
    context: Option<u32>,
    name: &List<u8>,
) -> Result<Found, NoMemory>
    requires context_in { IfSome context (λ c. c < length clafers.now) }
    requires parents_first { IsTrue (each clafers.now (follows_parent clafers.now)) }
    requires few { length clafers.now < 2 ^ 32 }
    requires table { IsTableOf clafers.now table.now }
    ensures { IfOk result (λ found. Means clafers.now name.now context 0 found) }
{
    match table.entries.get(&name.as_slice()) {
        None => Ok(Found::Nothing),
        Some(entry) => {
            let found = found_outwards(alloc, clafers, entry, context)?;
            Ok(found)
        }
    }
}

/// What a name means from a context clafer, or at top level.
///
/// The clafers below the context are searched first, then those below its declaring parent, and so outwards; at last the clafers
/// at top level. It reads the table at each of these contexts and at what is above it, and goes over no other clafer.
pub fn meaning(
    alloc: Global,
    clafers: &List<Clafer>,
    table: &NameTable,
    context: Option<u32>,
    name: &List<u8>,
) -> Result<Found, NoMemory>
    requires context_in { IfSome context (λ c. c < length clafers.now) }
    requires parents_first { IsTrue (each clafers.now (follows_parent clafers.now)) }
    requires few { length clafers.now < 2 ^ 32 }
    requires table { IsTableOf clafers.now table.now }
    ensures by_ways { IfOk result (λ found. Means clafers.now name.now context 0 found) }
    ensures is_one { IfOk result (λ found. found ≡ meaning_of clafers.now context name.now) }
{
    let found = found(alloc, clafers, table, context, name)?;
    Ok(found)
}
