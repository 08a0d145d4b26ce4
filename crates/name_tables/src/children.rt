//! The children of a name of several clafers, by the table.

ghost use Rattle.std.specs.Prelude.{◌≡◌, ◌<◌, ◌^◌, ◌++◌, [], ◌∷◌, ℕ, List as Seq, true, length, IfOk, IfSome, IsTrue};
ghost use Rattle.std.specs.List.Sorted.{IsStrictlyIncreasing};
ghost use Rattle.clf_tree.specs.Hierarchy.{is_closed};
ghost use Rattle.clf_tree.specs.Lists.{has};
ghost use Rattle.name_resolver.specs.Levels.{named, step_down};
ghost use Rattle.name_tables.specs.Children as spec;
ghost use Rattle.name_tables.specs.Children.{AreChildren};
ghost use Rattle.name_tables.specs.Tables.{IsEntry, IsTableOf};

use crate::label::Label;
use crate::table::{NameEntry, NameTable};
use crate::ways_down::label_below;
use clf_base::{List, NoMemory};
use clf_tree::Clafer;
use name_resolver::{Nearest, children_named as children_by_scan};
use std::alloc::Global;

// The children among what a label tells of all that is below.
fn told(label: Option<Label>) -> Nearest
    ensures { result ≡ spec.told label }
{
    let Some(label) = label else {
        return Nearest::Nothing;
    };
    if label.steps != 1 {
        return Nearest::Nothing;
    }
    match label.only {
        Some(child) => Nearest::Only(child),
        None => Nearest::Several,
    }
}

// Adds the child of a clafer, if it has one; false where it has several.
fn add_child(
    clafers: &List<Clafer>,
    entry: &NameEntry,
    clafer: u32,
    found: &mut Vec<u32>,
) -> Result<bool, NoMemory>
    ensures { IfOk result (λ all. all ≡ true → (name ks : Seq ℕ) → IsEntry clafers.now name entry.now → AreChildren clafers.now name ks found.old.items → AreChildren clafers.now name (ks ++ clafer ∷ []) found.new.items) }
{
    match told(label_below(clafers, &entry.labels, clafer)) {
        Nearest::Nothing => Ok(true),
        Nearest::Only(child) => {
            found.push(child)?;
            Ok(true)
        }
        Nearest::Several => Ok(false),
    }
}

// It goes up from each of the clafers, and stops at one that has several children of the name.
fn children_told(
    alloc: Global,
    clafers: &List<Clafer>,
    entry: &NameEntry,
    ks: &[u32],
) -> Result<Option<Vec<u32>>, NoMemory>
    ensures { IfOk result (λ found. (name : Seq ℕ) → IsEntry clafers.now name entry.now → IfSome found (λ ds. AreChildren clafers.now name ks.now ds.items)) }
{
    let mut found = Vec::new(alloc);
    for clafer in ks {
        if !add_child(clafers, entry, *clafer, &mut found)? {
            return Ok(None);
        }
    }
    Ok(Some(found))
}

// A name of no clafer has no children.
fn told_by_table(
    alloc: Global,
    clafers: &List<Clafer>,
    table: &NameTable,
    name: &List<u8>,
    ks: &List<u32>,
) -> Result<Option<Vec<u32>>, NoMemory>
    requires table { IsTableOf clafers.now table.now }
    ensures { IfOk result (λ found. IfSome found (λ ds. AreChildren clafers.now name.now ks.now ds.items)) }
{
    match table.entries.get(&name.as_slice()) {
        None => Ok(Some(Vec::new(alloc))),
        Some(entry) => {
            let found = children_told(alloc, clafers, entry, ks.as_slice())?;
            Ok(found)
        }
    }
}

// The same numbers in their order, each once.
fn in_order(numbers: Vec<u32>) -> List<u32>
    ensures rises { IsStrictlyIncreasing result }
    ensures same { (e : ℕ) → has result e ≡ has numbers.items e }
{
    let mut rising = numbers;
    rising.sort_unstable();
    rising.dedup();
    List::from_vec(rising)
}

/// The children of a name of the given clafers, in the order of the model.
///
/// It reads the table at each of the given clafers and at what is above it. Only where one of them has two children of the name,
/// which in a model that is accepted none has, it goes over all clafers once.
pub fn children_named(
    alloc: Global,
    clafers: &List<Clafer>,
    table: &NameTable,
    name: &List<u8>,
    ks: &List<u32>,
) -> Result<List<u32>, NoMemory>
    requires closed { IsTrue (is_closed clafers.now) }
    requires few { length clafers.now < 2 ^ 32 }
    requires table { IsTableOf clafers.now table.now }
    ensures { IfOk result (λ found. found ≡ named clafers.now name.now (step_down clafers.now ks.now)) }
{
    match told_by_table(alloc, clafers, table, name, ks)? {
        Some(found) => Ok(in_order(found)),
        None => {
            let found = children_by_scan(alloc, clafers, name, ks)?;
            Ok(found)
        }
    }
}
