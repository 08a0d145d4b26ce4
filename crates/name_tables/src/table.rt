//! The table of the names of a model.

ghost use Rattle.std.specs.Prelude.{◌≡◌, ◌+◌, ◌<◌, ◌^◌, ◌++◌, [], ◌∷◌, ℕ, List as Seq, Some, cond, length, slice_get, bytes_eq, is_none, IfOk, OnOk, IsTrue};
ghost use Rattle.std.specs.List.{filter};
ghost use Rattle.std.specs.HashMap.{get_by};
ghost use Rattle.clf_tree.specs.Hierarchy.{is_closed, parent_of};
ghost use Rattle.name_tables.specs.Tables.{AreHeirs, HasEntries, IsEntry, IsTableOf, listed, named_among};

use crate::heirs::nested_heirs;
use crate::label::Label;
use crate::reach::parent_of;
use crate::search::labels_of;
use clf_base::{List, NoMemory};
use clf_tree::Clafer;
use std::alloc::Global;
use std::collections::HashMap;

/// From where the clafers of a name are reached, and the first of them at top level.
#[derive(Drop)]
pub struct NameEntry {
    pub labels: HashMap<u32, Label>,
    pub top: Option<u32>,
}

/// For each name of a model from where its clafers are reached.
#[derive(Drop)]
pub struct NameTable<'a> {
    pub entries: HashMap<&'a [u8], NameEntry>,
}

fn or_empty(alloc: Global, group: Option<List<u32>>) -> List<u32>
    ensures { result ≡ listed group }
{
    match group {
        Some(group) => group,
        None => List::new(alloc),
    }
}

fn add_named<'a>(
    alloc: Global,
    groups: &mut HashMap<&'a [u8], List<u32>>,
    name: &'a [u8],
    clafer: u32,
) -> Result<(), NoMemory>
    ensures { OnOk result ((q : Seq ℕ) → listed (get_by (λ k. bytes_eq q k.now) groups.new) ≡ cond (bytes_eq q name.now) (listed (get_by (λ k. bytes_eq q k.now) groups.old) ++ clafer ∷ []) (listed (get_by (λ k. bytes_eq q k.now) groups.old))) }
{
    let mut group = or_empty(alloc, groups.remove(&name));
    group.push(clafer)?;
    groups.insert(name, group)?;
    Ok(())
}

// The clafers of each name, in the order of the model.
fn by_name<'a>(
    alloc: Global,
    clafers: &'a List<Clafer>,
) -> Result<HashMap<&'a [u8], List<u32>>, NoMemory>
    requires few { length clafers.now < 2 ^ 32 }
    ensures { IfOk result (λ groups. (q : Seq ℕ) → listed (get_by (λ k. bytes_eq q k.now) groups) ≡ named_among clafers.now q (length clafers.now)) }
{
    let mut groups = HashMap::new(alloc);
    for clafer in 0..clafers.len() {
        let name = clafers.get(clafer).title.name.as_slice();
        add_named(alloc, &mut groups, name, clafer as u32)?;
    }
    Ok(groups)
}

// The first of the given clafers that is at top level.
fn first_at_top(clafers: &List<Clafer>, named: &[u32]) -> Option<u32>
    ensures { result ≡ slice_get (filter (λ c. is_none (parent_of clafers.now c)) named.now) 0 }
{
    for clafer in named {
        if parent_of(clafers, *clafer).is_none() {
            return Some(*clafer);
        }
    }
    None
}

fn entry_of(
    alloc: Global,
    clafers: &List<Clafer>,
    heirs: &[List<u32>],
    named: &[u32],
) -> Result<NameEntry, NoMemory>
    requires heirs { AreHeirs clafers.now (length clafers.now) heirs.now }
    requires closed { IsTrue (is_closed clafers.now) }
    requires few { length clafers.now < 2 ^ 32 }
    ensures { IfOk result (λ entry. (name : Seq ℕ) → named.now ≡ named_among clafers.now name (length clafers.now) → IsEntry clafers.now name entry) }
{
    let labels = labels_of(alloc, clafers, heirs, named)?;
    let top = first_at_top(clafers, named);
    Ok(NameEntry { labels, top })
}

fn listed<'b>(groups: &'b HashMap<&[u8], List<u32>>, name: &'b [u8]) -> &'b [u32]
    ensures { result.now ≡ listed (get_by (λ k. bytes_eq name.now k.now) groups.now) }
{
    match groups.get(&name) {
        Some(group) => group.as_slice(),
        None => &[],
    }
}

// Enters the name of a clafer, if it has no entry.
fn add_entry<'a>(
    alloc: Global,
    clafers: &'a List<Clafer>,
    heirs: &[List<u32>],
    groups: &HashMap<&[u8], List<u32>>,
    clafer: u32,
    entries: &mut HashMap<&'a [u8], NameEntry>,
) -> Result<(), NoMemory>
    requires clafer_in { clafer < length clafers.now }
    requires heirs { AreHeirs clafers.now (length clafers.now) heirs.now }
    requires groups { (q : Seq ℕ) → listed (get_by (λ k. bytes_eq q k.now) groups.now) ≡ named_among clafers.now q (length clafers.now) }
    requires closed { IsTrue (is_closed clafers.now) }
    requires few { length clafers.now < 2 ^ 32 }
    ensures { OnOk result (HasEntries clafers.now clafer (λ q. get_by (λ k. bytes_eq q k.now) entries.old) → HasEntries clafers.now (clafer + 1) (λ q. get_by (λ k. bytes_eq q k.now) entries.new)) }
{
    let name = clafers.get(clafer as usize).title.name.as_slice();
    if entries.contains_key(&name) {
        return Ok(());
    }
    let entry = entry_of(alloc, clafers, heirs, listed(groups, name))?;
    entries.insert(name, entry)?;
    Ok(())
}

impl<'a> NameTable<'a> {
    /// The table of the clafers of a model, whose supers are looked up.
    ///
    /// For each name it goes outwards from the clafers of the name, to each clafer under which something is declared that leads to one
    /// of them; and takes, for each of these, as long as it has heirs that are declared under another clafer. The memory is that of
    /// a label for each name and each clafer under which the name is reached.
    pub fn build(alloc: Global, clafers: &'a List<Clafer>) -> Result<NameTable<'a>, NoMemory>
        requires closed { IsTrue (is_closed clafers.now) }
        requires few { length clafers.now < 2 ^ 32 }
        ensures { IfOk result (λ table. IsTableOf clafers.now table) }
    {
        let heirs = nested_heirs(alloc, clafers)?;
        let groups = by_name(alloc, clafers)?;
        let mut entries = HashMap::new(alloc);
        for clafer in 0..clafers.len() {
            add_entry(
                alloc,
                clafers,
                heirs.as_slice(),
                &groups,
                clafer as u32,
                &mut entries,
            )?;
        }
        Ok(NameTable { entries })
    }
}
