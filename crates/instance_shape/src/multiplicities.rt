//! Whether the multiplicities and the group cardinalities of a clafer hold.

ghost use Rattle.std.specs.Prelude.{◌≡◌, ◌==◌, ◌&&◌, ◌||◌, false, not, count_by, length, IsTrue};
ghost use Rattle.std.specs.List.{list_all};
ghost use Rattle.std.specs.Option.{option_map_or};
ghost use Rattle.clf_tree.specs.Hierarchy.{is_a, is_closed, parent_of};
ghost use Rattle.clf_tree.specs.Kinds.{is_child};
ghost use Rattle.clf_tree.specs.Shape.{allows, instances, is_child_of, meets_group, meets_times};

use crate::hierarchy::{is_a, parent_of};
use clf_base::List;
use clf_tree::{Clafer, Entry, Interval, Node};
use instance_tables::Tables;

fn allows(interval: Interval, number: usize) -> bool
    ensures { result ≡ allows interval number }
{
    if number < interval.low as usize {
        return false;
    }
    match interval.high {
        Some(high) => number <= high as usize,
        None => true,
    }
}

fn count_instances(clafers: &List<Clafer>, nodes: &[Node], clafer: u32) -> usize
    requires closed { IsTrue (is_closed clafers.now) }
    ensures { result ≡ count_by (λ n. is_a clafers.now n.clafer clafer) nodes.now }
{
    let mut count = 0;
    for node in nodes {
        if is_a(clafers, node.clafer, clafer) {
            count += 1;
        }
    }
    count
}

fn count_declared(clafers: &List<Clafer>, nodes: &[Node], clafer: u32) -> usize
    ensures { result ≡ count_by (λ n. is_child clafers.now clafer n.clafer) nodes.now }
{
    let mut count = 0;
    for node in nodes {
        if parent_of(clafers, node.clafer) == Some(clafer) {
            count += 1;
        }
    }
    count
}

fn count_all(clafers: &List<Clafer>, entries: &[Entry], clafer: u32) -> usize
    requires closed { IsTrue (is_closed clafers.now) }
    ensures { result ≡ count_by (λ e. is_a clafers.now e.node.clafer clafer) entries.now }
{
    let mut count = 0;
    for entry in entries {
        if is_a(clafers, entry.node.clafer, clafer) {
            count += 1;
        }
    }
    count
}

fn are_allowed(clafers: &List<Clafer>, entries: &[Entry], clafer: u32, times: Interval) -> bool
    requires closed { IsTrue (is_closed clafers.now) }
    ensures { result ≡ allows times (length (instances clafers.now entries.now clafer)) }
{
    allows(times, count_all(clafers, entries, clafer))
}

/// Whether the instances of a nested clafer below one instance of its parent are as many as it asks for.
#[tactic(auto, using(crate::proofs::Counts::count_steps))]
fn allows_below(
    clafers: &List<Clafer>,
    tables: &Tables,
    entry: &Entry,
    clafer: u32,
    times: Interval,
) -> bool
    requires closed { IsTrue (is_closed clafers.now) }
    ensures { result ≡ allows times (count_by (is_child_of entry.now) (instances clafers.now tables.now.entries clafer)) }
{
    allows(
        times,
        count_instances(clafers, tables.below(entry.node), clafer),
    )
}

fn is_met_below(
    clafers: &List<Clafer>,
    tables: &Tables,
    entry: &Entry,
    parent: u32,
    clafer: u32,
    times: Interval,
) -> bool
    requires closed { IsTrue (is_closed clafers.now) }
    ensures { result ≡ (not (is_a clafers.now entry.now.node.clafer parent) || allows times (count_by (is_child_of entry.now) (instances clafers.now tables.now.entries clafer))) }
{
    !is_a(clafers, entry.node.clafer, parent) || allows_below(clafers, tables, entry, clafer, times)
}

fn are_met_below(
    clafers: &List<Clafer>,
    tables: &Tables,
    parent: u32,
    clafer: u32,
    times: Interval,
) -> bool
    requires closed { IsTrue (is_closed clafers.now) }
    ensures { result ≡ list_all (λ e. not (is_a clafers.now e.node.clafer parent) || allows times (count_by (is_child_of e) (instances clafers.now tables.now.entries clafer))) tables.now.entries }
{
    tables.entries.as_slice().iter().all(|entry| is_met_below(
        clafers, tables, entry, parent, clafer, times,
    ))
}

/// Whether the instances of a clafer are as many as it asks for, below each instance of its parent, or in all.
fn meets_times(clafers: &List<Clafer>, tables: &Tables, clafer: u32, of: &Clafer) -> bool
    requires closed { IsTrue (is_closed clafers.now) }
    ensures { result ≡ meets_times clafers.now tables.now.entries clafer of.now }
{
    match of.parent {
        Some(parent) => are_met_below(clafers, tables, parent, clafer, of.times),
        None => are_allowed(clafers, tables.entries.as_slice(), clafer, of.times),
    }
}

#[tactic(auto, using(crate::proofs::Counts::count_steps))]
fn allows_group(
    clafers: &List<Clafer>,
    tables: &Tables,
    entry: &Entry,
    clafer: u32,
    group: Interval,
) -> bool
    ensures { result ≡ allows group (count_by (λ x. is_child_of entry.now x && option_map_or (λ p. p == clafer) (parent_of clafers.now x.node.clafer) false) tables.now.entries) }
{
    allows(
        group,
        count_declared(clafers, tables.below(entry.node), clafer),
    )
}

fn is_group_met(
    clafers: &List<Clafer>,
    tables: &Tables,
    entry: &Entry,
    clafer: u32,
    group: Interval,
) -> bool
    requires closed { IsTrue (is_closed clafers.now) }
    ensures { result ≡ (not (is_a clafers.now entry.now.node.clafer clafer) || allows group (count_by (λ x. is_child_of entry.now x && option_map_or (λ p. p == clafer) (parent_of clafers.now x.node.clafer) false) tables.now.entries)) }
{
    !is_a(clafers, entry.node.clafer, clafer) || allows_group(clafers, tables, entry, clafer, group)
}

fn are_groups_met(clafers: &List<Clafer>, tables: &Tables, clafer: u32, group: Interval) -> bool
    requires closed { IsTrue (is_closed clafers.now) }
    ensures { result ≡ list_all (λ e. not (is_a clafers.now e.node.clafer clafer) || allows group (count_by (λ x. is_child_of e x && option_map_or (λ p. p == clafer) (parent_of clafers.now x.node.clafer) false) tables.now.entries)) tables.now.entries }
{
    tables.entries.as_slice().iter().all(|entry| is_group_met(
        clafers, tables, entry, clafer, group,
    ))
}

fn meets_group(clafers: &List<Clafer>, tables: &Tables, clafer: u32, of: &Clafer) -> bool
    requires closed { IsTrue (is_closed clafers.now) }
    ensures { result ≡ meets_group clafers.now tables.now.entries clafer of.now }
{
    are_groups_met(clafers, tables, clafer, of.group)
}

/// Whether the multiplicity and the group cardinality of a clafer hold. It goes over the entries, and over the children of each
/// instance of the clafer and of its parent.
pub fn meets_bounds(clafers: &List<Clafer>, tables: &Tables, clafer: u32, of: &Clafer) -> bool
    requires closed { IsTrue (is_closed clafers.now) }
    ensures { result ≡ (meets_times clafers.now tables.now.entries clafer of.now && meets_group clafers.now tables.now.entries clafer of.now) }
{
    meets_times(clafers, tables, clafer, of) && meets_group(clafers, tables, clafer, of)
}
