//! Instances from texts.

ghost use Rattle.std.specs.Prelude.{◌≡◌, [], length, map, IfOk, IsTrue};
ghost use Rattle.std.specs.Option.{option_map, option_and_then};
ghost use Rattle.clf_tree.specs.Lists.{numbers_below};
ghost use Rattle.clf_tree.specs.Hierarchy.{is_closed};
ghost use Rattle.clf_tree.specs.Named.{IsNamed};
ghost use Rattle.instance_text.specs.Lines as depths;
ghost use Rattle.instance_text.specs.Names as shown;
ghost use Rattle.instance_text.specs.Read.{FindsShown};
ghost use Rattle.instance_text.specs.Reading as spec;

use crate::entries::{are_placed, entries_of, instance_of, sorted};
use crate::lines::lines_read;
use crate::names::push_clafer;
use crate::tree::show;
use clf_base::{List, NoMemory};
use clf_tree::{Clafer, Entry, Instance, Model};
use std::alloc::Global;

/// How each clafer is shown.
#[tactic(auto, using(crate::proofs::Namesakes::shown_more))]
fn shown_clafers(alloc: Global, clafers: &[Clafer]) -> Result<List<List<u8>>, NoMemory>
    ensures { IfOk result (λ names. names ≡ map (shown.shown_clafer clafers.now) (numbers_below (length clafers.now))) }
{
    let mut names = List::new(alloc);
    for clafer in 0..clafers.len() {
        let mut name = List::new(alloc);
        push_clafer(&mut name, clafers, clafer)?;
        names.push(name)?;
    }
    Ok(names)
}

/// The entries of the lines of a text, if it has such lines.
fn entries_read(
    alloc: Global,
    names: &[List<u8>],
    text: &[u8],
) -> Result<Option<Vec<Entry>>, NoMemory>
    ensures { IfOk result (λ found. option_map (λ es. es.items) found ≡ option_and_then (depths.entries_below []) (spec.lines_read (length text.now) names.now text.now)) }
{
    match lines_read(alloc, names, text)? {
        None => Ok(None),
        Some(lines) => entries_of(alloc, lines.as_slice()),
    }
}

/// The instance again, if its entries can stand in a tree and the text is its own.
fn checked(
    alloc: Global,
    model: &Model,
    text: &[u8],
    instance: Instance,
) -> Result<Option<Instance>, NoMemory>
    requires closed { IsTrue (is_closed model.now.clafers) }
    ensures { IfOk result (λ found. option_map (λ i. i.entries) found ≡ spec.checked model.now text.now instance.entries) }
{
    if !are_placed(&model.clafers, instance.entries.as_slice()) {
        return Ok(None);
    }
    let shown = show(alloc, model, &instance)?;
    if shown.as_slice() != text {
        return Ok(None);
    }
    Ok(Some(instance))
}

/// What `read` finds; it takes any model in which the clafers that are named are there.
pub(crate) fn find(alloc: Global, model: &Model, text: &[u8]) -> Result<Option<Instance>, NoMemory>
    requires closed { IsTrue (is_closed model.now.clafers) }
    ensures { IfOk result (λ found. IsNamed model.now → FindsShown model.now text.now (option_map (λ i. i.entries) found)) }
{
    let names = shown_clafers(alloc, model.clafers.as_slice())?;
    match entries_read(alloc, names.as_slice(), text)? {
        None => Ok(None),
        Some(entries) => {
            let sorted = sorted(entries);
            let instance = instance_of(alloc, sorted.as_slice())?;
            let found = checked(alloc, model, text, instance)?;
            Ok(found)
        }
    }
}

/// The instance whose text this is: a tree of the model for which `show` gives these bytes. None where there is no such instance.
///
/// It goes over the clafers for each line, and it shows what it read, which goes over the entries for each node.
pub fn read(alloc: Global, model: &Model, text: &[u8]) -> Result<Option<Instance>, NoMemory>
    requires named { IsNamed model.now }
    ensures { IfOk result (λ found. FindsShown model.now text.now (option_map (λ i. i.entries) found)) }
{
    let found = find(alloc, model, text)?;
    Ok(found)
}
