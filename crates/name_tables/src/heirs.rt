//! The clafers that are-a each clafer.

ghost use Rattle.std.specs.Prelude.{◌≡◌, ◌+◌, ◌<◌, ◌^◌, ◌||◌, ◌&&◌, ◌==◌, [], ℕ, length, vec_len, get_or, replicate, IfOk, OnOk, IsTrue};
ghost use Rattle.clf_tree.specs.Hierarchy.{is_closed, is_a};
ghost use Rattle.clf_tree.specs.Lists.{has};
ghost use Rattle.name_tables.specs.Tables.{AreHeirs};

use clf_base::{List, NoMemory};
use clf_tree::Clafer;
use std::alloc::Global;

fn push_heir(heirs: &mut Vec<List<u32>>, clafer: u32, heir: u32) -> Result<(), NoMemory>
    requires clafer_in { clafer < vec_len heirs.old }
    ensures sized { vec_len heirs.new ≡ vec_len heirs.old }
    ensures added { OnOk result ((p m : ℕ) → has (get_or heirs.new.items p []) m ≡ (has (get_or heirs.old.items p []) m || (p == clafer && m == heir))) }
{
    heirs[clafer as usize].push(heir)?;
    Ok(())
}

// Enters a clafer for itself and all above it.
fn add_heir(clafers: &List<Clafer>, heir: u32, heirs: &mut Vec<List<u32>>) -> Result<(), NoMemory>
    requires heir_in { heir < length clafers.now }
    requires closed { IsTrue (is_closed clafers.now) }
    requires sized { vec_len heirs.old ≡ length clafers.now }
    ensures sized { vec_len heirs.new ≡ length clafers.now }
    ensures added { OnOk result ((p m : ℕ) → has (get_or heirs.new.items p []) m ≡ (has (get_or heirs.old.items p []) m || (is_a clafers.now heir p && m == heir))) }
{
    let mut current = heir;
    for _step in 0..clafers.len() {
        push_heir(heirs, current, heir)?;
        match clafers.get(current as usize).above {
            Some(above) => current = above,
            None => return Ok(()),
        }
    }
    push_heir(heirs, current, heir)?;
    Ok(())
}

fn empty_lists(alloc: Global, count: usize) -> Result<Vec<List<u32>>, NoMemory>
    ensures { IfOk result (λ lists. lists.items ≡ replicate count []) }
{
    let mut lists = Vec::new(alloc);
    for _made in 0..count {
        lists.push(List::new(alloc))?;
    }
    Ok(lists)
}

// Enters a clafer that is declared under another one.
fn add_nested(
    clafers: &List<Clafer>,
    clafer: u32,
    heirs: &mut Vec<List<u32>>,
) -> Result<(), NoMemory>
    requires clafer_in { clafer < length clafers.now }
    requires closed { IsTrue (is_closed clafers.now) }
    requires sized { vec_len heirs.old ≡ length clafers.now }
    ensures sized { vec_len heirs.new ≡ length clafers.now }
    ensures added { OnOk result (AreHeirs clafers.now clafer heirs.old.items → AreHeirs clafers.now (clafer + 1) heirs.new.items) }
{
    if clafers.get(clafer as usize).parent.is_none() {
        return Ok(());
    }
    add_heir(clafers, clafer, heirs)?;
    Ok(())
}

/// For each clafer the ones that are-a it and are declared under another one, in the order of the model.
///
/// It goes up from each clafer once.
pub fn nested_heirs(alloc: Global, clafers: &List<Clafer>) -> Result<Vec<List<u32>>, NoMemory>
    requires closed { IsTrue (is_closed clafers.now) }
    requires few { length clafers.now < 2 ^ 32 }
    ensures { IfOk result (λ heirs. AreHeirs clafers.now (length clafers.now) heirs.items) }
{
    let mut heirs = empty_lists(alloc, clafers.len())?;
    for clafer in 0..clafers.len() {
        add_nested(clafers, clafer as u32, &mut heirs)?;
    }
    Ok(heirs)
}
