//! The lists of a report, with a comma between each two parts.

ghost use Rattle.std.specs.Prelude.{◌≡◌, ◌++◌, map, length, IfOk, OnOk};
ghost use Rattle.std.specs.List.{filter};
ghost use Rattle.clf_tree.specs.Lists.{numbers_below};
ghost use Rattle.clf_tree.specs.Hierarchy as hierarchy;
ghost use Rattle.report_json.specs.Json as spec;
ghost use Rattle.report_json.specs.Commas.{comma};

use crate::order::in_tree_order;
use crate::values::{push_entry, push_integer, push_scope};
use clf_base::{List, NoMemory};
use clf_tree::{Clafer, Entry, Point, Scopes};
use std::alloc::Global;

/// Writes the comma before the part at a place.
fn push_comma(text: &mut List<u8>, at: usize) -> Result<(), NoMemory>
    ensures { OnOk result (text.new ≡ text.old ++ comma at) }
{
    if at == 0 {
        return Ok(());
    }
    text.extend(b",")
}

fn push_entries(
    alloc: Global,
    text: &mut List<u8>,
    clafers: &[Clafer],
    entries: &[Entry],
) -> Result<(), NoMemory>
    requires { spec.HaveNames clafers.now }
    ensures { OnOk result (text.new ≡ text.old ++ spec.commas (map (spec.entry_json clafers.now) entries.now)) }
{
    for at in 0..entries.len() {
        push_comma(text, at)?;
        push_entry(alloc, text, clafers, &entries[at])?;
    }
    Ok(())
}

fn push_vector(alloc: Global, text: &mut List<u8>, values: &[i128]) -> Result<(), NoMemory>
    ensures { OnOk result (text.new ≡ text.old ++ spec.commas (map spec.value_json values.now)) }
{
    for at in 0..values.len() {
        push_comma(text, at)?;
        push_integer(alloc, text, values[at])?;
    }
    Ok(())
}

/// Writes an instance and its vector.
pub(crate) fn push_point(
    alloc: Global,
    text: &mut List<u8>,
    clafers: &[Clafer],
    entries: &[Entry],
    values: &[i128],
) -> Result<(), NoMemory>
    requires { spec.HaveNames clafers.now }
    ensures { OnOk result (text.new ≡ text.old ++ spec.point_json clafers.now entries.now values.now) }
{
    let nodes = in_tree_order(alloc, entries)?;
    text.extend(b"{\"nodes\":[")?;
    push_entries(alloc, text, clafers, nodes.as_slice())?;
    text.extend(b"],\"vector\":[")?;
    push_vector(alloc, text, values)?;
    text.extend(b"]}")?;
    Ok(())
}

fn push_witnessed(
    alloc: Global,
    text: &mut List<u8>,
    clafers: &[Clafer],
    point: &Point,
) -> Result<(), NoMemory>
    requires { spec.HaveNames clafers.now }
    ensures { OnOk result (text.new ≡ text.old ++ spec.witnessed_json clafers.now point.now) }
{
    let entries = point.witness.entries.as_slice();
    push_point(
        alloc,
        text,
        clafers,
        entries,
        point.vector.values.as_slice(),
    )
}

/// Writes the points of a front. At a time it takes memory for one point's nodes.
pub(crate) fn push_points(
    alloc: Global,
    text: &mut List<u8>,
    clafers: &[Clafer],
    points: &[Point],
) -> Result<(), NoMemory>
    requires { spec.HaveNames clafers.now }
    ensures { OnOk result (text.new ≡ text.old ++ spec.commas (map (spec.witnessed_json clafers.now) points.now)) }
{
    for at in 0..points.len() {
        push_comma(text, at)?;
        push_witnessed(alloc, text, clafers, &points[at])?;
    }
    Ok(())
}

fn is_concrete(clafers: &[Clafer], clafer: usize) -> bool
    ensures { result ≡ hierarchy.is_concrete clafers.now clafer }
{
    match clafers.get(clafer) {
        Some(found) => !found.is_abstract,
        None => false,
    }
}

/// The concrete clafers.
fn concrete(alloc: Global, clafers: &[Clafer]) -> Result<List<usize>, NoMemory>
    ensures { IfOk result (λ list. list ≡ filter (hierarchy.is_concrete clafers.now) (numbers_below (length clafers.now))) }
{
    let mut list = List::new(alloc);
    for clafer in 0..clafers.len() {
        if is_concrete(clafers, clafer) {
            list.push(clafer)?;
        }
    }
    Ok(list)
}

fn push_each_scope(
    alloc: Global,
    text: &mut List<u8>,
    clafers: &[Clafer],
    scopes: &Scopes,
    list: &[usize],
) -> Result<(), NoMemory>
    requires { spec.HaveNames clafers.now }
    ensures { OnOk result (text.new ≡ text.old ++ spec.commas (map (spec.scope_json clafers.now scopes.now) list.now)) }
{
    for at in 0..list.len() {
        push_comma(text, at)?;
        push_scope(alloc, text, clafers, scopes, list[at])?;
    }
    Ok(())
}

/// Writes the paths and scopes of the concrete clafers.
pub(crate) fn push_scopes(
    alloc: Global,
    text: &mut List<u8>,
    clafers: &[Clafer],
    scopes: &Scopes,
) -> Result<(), NoMemory>
    requires { spec.HaveNames clafers.now }
    ensures { OnOk result (text.new ≡ text.old ++ spec.scopes_json clafers.now scopes.now) }
{
    let list = concrete(alloc, clafers)?;
    push_each_scope(alloc, text, clafers, scopes, list.as_slice())
}
