//! The bits that show an instance.

ghost use Rattle.std.specs.Prelude.{◌≡◌, ◌++◌, ◌+◌, ◌<◌, ◌^◌, ℤ, Bool, false, Some, length, map, is_some, nat_lt, List as Seq, IfOk, OnOk, IsTrue};
ghost use Rattle.std.specs.List.{All, list_all};
ghost use Rattle.std.specs.Option.{option_map_or, option_and_then};
ghost use Rattle.clf_tree.specs.declared.instance.Entry.{Entry as AnEntry};
ghost use Rattle.clf_tree.specs.Nodes.{same_node, target_node, entry_of, is_within, is_tree};
ghost use Rattle.integer_bits.specs.Numbers.{FitsBits};
ghost use Rattle.clf_tree.specs.Shape.{has_shape};
ghost use Rattle.set_bits.specs.Fitting.{Fits, slot, value_width};
ghost use Rattle.set_bits.specs.Showing.{Shows, ties, target_integer};
ghost use Rattle.shown_instance.specs.Packed.{aligned, is_between};
ghost use Rattle.instance_decoder.specs.Packing.{next_of, taken, end_at, end_in, AddsNumbers, integer_in_table};

use crate::integers::widths_suffice;
use crate::numbers::push_integer;
use clf_base::{List, NoMemory};
use clf_tree::{CoreModel, Entry, Instance, Node, Scopes, Target};
use set_bits::{Edge, Layout, SlotBits};
use shown_instance::{
    aligned_entries_are_found, edges_lie_between_slots, integers_are_in_range,
    one_list_of_bits_shows, packed_bits_show,
};
use std::alloc::Global;

/// What ties a node to another one.
#[derive(Clone, Copy)]
pub(crate) enum Tie {
    Parent,
    Target,
}

fn same_node(m: Node, n: Node) -> bool
    ensures { result ≡ same_node m n }
{
    m.clafer == n.clafer && m.number == n.number
}

// The next entry, if it is that of the node.
fn next_of(entries: &List<Entry>, next: usize, node: Node) -> Option<Entry>
    ensures { result ≡ next_of entries.now next node }
{
    match entries.as_slice().get(next) {
        Some(entry) => {
            if same_node(node, entry.node) {
                Some(*entry)
            } else {
                None
            }
        }
        None => None,
    }
}

// The place of the entry after this one, if this one was taken.
fn after(next: usize, entry: Option<Entry>) -> usize
    requires { next + 1 < 2 ^ 64 }
    ensures { result ≡ next + taken entry }
{
    match entry {
        Some(_) => next + 1,
        None => next,
    }
}

// The entry of each slot, in one pass over both.
fn by_slot(
    alloc: Global,
    slots: &List<Node>,
    entries: &List<Entry>,
) -> Result<List<Option<Entry>>, NoMemory>
    ensures { IfOk result (λ table. table ≡ aligned slots.now entries.now) }
{
    let mut table = List::new(alloc);
    let mut next: usize = 0;
    for at in 0..slots.len() {
        let entry = next_of(entries, next, *slots.get(at));
        table.push(entry)?;
        next = after(next, entry);
    }
    Ok(table)
}

// Whether each slot has an entry.
fn push_lives(table: &List<Option<Entry>>, bits: &mut List<bool>) -> Result<(), NoMemory>
    ensures { OnOk result (bits.new ≡ bits.old ++ map is_some table.now) }
{
    for at in 0..table.len() {
        bits.push(table.get(at).is_some())?;
    }
    Ok(())
}

// The node to which an entry is tied.
fn end_at(tie: Tie, entry: Option<Entry>) -> Option<Node>
    ensures { result ≡ end_at tie entry }
{
    match entry {
        Some(entry) => match tie {
            Tie::Parent => entry.parent,
            Tie::Target => match entry.target {
                Some(Target::Node(node)) => Some(node),
                _ => None,
            },
        },
        None => None,
    }
}

fn is_end(node: Node, end: Option<Node>) -> bool
    ensures { result ≡ option_map_or (same_node node) end false }
{
    match end {
        Some(end) => same_node(node, end),
        None => false,
    }
}

// Whether each edge leads to the node to which that of its slot is tied.
fn push_ties(
    slots: &List<Node>,
    table: &List<Option<Entry>>,
    tie: Tie,
    edges: &List<Edge>,
    bits: &mut List<bool>,
) -> Result<(), NoMemory>
    requires between { IsTrue (list_all (is_between slots.now) edges.now) }
    requires sized { length table.now ≡ length slots.now }
    ensures { OnOk result ((entries : Seq AnEntry) → table.now ≡ map (entry_of entries) slots.now → bits.new ≡ bits.old ++ ties (end_in tie entries) slots.now edges.now) }
{
    for at in 0..edges.len() {
        let edge = *edges.get(at);
        let entry = *table.get(edge.from as usize);
        let node = *slots.get(edge.to as usize);
        bits.push(is_end(node, end_at(tie, entry)))?;
    }
    Ok(())
}

// The integer to which an entry refers.
fn integer_at(entry: Option<Entry>) -> Option<i64>
    ensures { result ≡ option_and_then target_integer entry }
{
    match entry {
        Some(entry) => match entry.target {
            Some(Target::Int(value)) => Some(value),
            _ => None,
        },
        None => None,
    }
}

// The bits of the integers, slot by slot.
fn push_numbers(
    slots: &List<Node>,
    table: &List<Option<Entry>>,
    values: &List<SlotBits>,
    bits: &mut List<bool>,
) -> Result<(), NoMemory>
    requires inside { IsTrue (list_all (λ v. nat_lt v.slot (length slots.now)) values.now) }
    requires sized { length table.now ≡ length slots.now }
    requires some { All (λ v. 0 < length v.bits) values.now }
    requires fits { All (λ v. (z : ℤ) → integer_in_table table.now v.slot ≡ Some z → FitsBits (length v.bits) z) values.now }
    ensures { OnOk result ((entries : Seq AnEntry) → table.now ≡ map (entry_of entries) slots.now → AddsNumbers entries slots.now values.now bits.old bits.new) }
{
    for at in 0..values.len() {
        let value = values.get(at);
        let entry = *table.get(value.slot as usize);
        let integer = integer_at(entry);
        push_integer(integer, value.bits.len(), bits)?;
    }
    Ok(())
}

/// The bits that show an instance, in the order of the layout's bits.
///
/// They alone show it. It goes once over slots, entries, edges and integers.
pub fn pack(
    alloc: Global,
    core: &CoreModel,
    scopes: &Scopes,
    layout: &Layout,
    instance: &Instance,
) -> Result<List<bool>, NoMemory>
    requires fits { Fits core.now.clafers scopes.now layout.now }
    requires within { IsTrue (is_within core.now.clafers scopes.now instance.now.entries) }
    requires tree { IsTrue (is_tree core.now.clafers instance.now.entries) }
    requires shape { IsTrue (has_shape core.now.clafers scopes.now instance.now.entries) }
    ensures shows { IfOk result (λ bits. Shows core.now.clafers scopes.now layout.now bits instance.now.entries) }
    ensures alone { IfOk result (λ bits. (others : Seq Bool) → Shows core.now.clafers scopes.now layout.now others instance.now.entries → others ≡ bits) }
{
    aligned_entries_are_found();
    edges_lie_between_slots();
    integers_are_in_range();
    packed_bits_show();
    one_list_of_bits_shows();
    widths_suffice(scopes.low, scopes.high);
    let table = by_slot(alloc, &layout.slots, &instance.entries)?;
    let mut bits = List::new(alloc);
    push_lives(&table, &mut bits)?;
    push_ties(
        &layout.slots,
        &table,
        Tie::Parent,
        &layout.parents,
        &mut bits,
    )?;
    push_ties(
        &layout.slots,
        &table,
        Tie::Target,
        &layout.targets,
        &mut bits,
    )?;
    push_numbers(&layout.slots, &table, &layout.values, &mut bits)?;
    Ok(bits)
}
