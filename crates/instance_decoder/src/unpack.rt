//! The instance that the bits of a layout show.

ghost use Rattle.std.specs.Prelude.{◌≡◌, ◌<◌, ◌≤◌, Bool, slice_get, All, length, IfOk, List as Seq, vec_len};
ghost use Rattle.std.specs.Option.{option_and_then};
ghost use Rattle.clf_tree.specs.declared.instance.Entry.{Entry as AnEntry};
ghost use Rattle.set_bits.specs.Fitting.{Fits};
ghost use Rattle.set_bits.specs.Showing.{Shows};
ghost use Rattle.shown_instance.specs.Shown.{is_live, leads_to, integer_at, target_of, entry_at, shown};
ghost use Rattle.instance_decoder.specs.Tables.{HoldsEnds, HoldsIntegers};

use crate::integers::{bit, widths_are_few};
use crate::tables::{ends, integers};
use clf_base::{List, NoMemory};
use clf_tree::{CoreModel, Entry, Instance, Node, Scopes, Target};
use set_bits::Layout;
use shown_instance::the_told_instance_alone_is_shown;
use std::alloc::Global;

fn is_live(layout: &Layout, bits: &[bool], slot: usize) -> bool
    ensures { result ≡ is_live layout.now bits.now slot }
{
    match layout.live.as_slice().get(slot) {
        Some(wire) => bit(bits, *wire),
        None => false,
    }
}

// What the bits say of each slot.
#[derive(Drop)]
struct Told {
    parents: Vec<Option<u32>>,
    targets: Vec<Option<u32>>,
    integers: Vec<Option<i64>>,
}

fn node_at(slots: &List<Node>, end: Option<u32>) -> Option<Node>
    ensures { result ≡ option_and_then (λ j. slice_get slots.now j) end }
{
    match end {
        Some(slot) => match slots.as_slice().get(slot as usize) {
            Some(node) => Some(*node),
            None => None,
        },
        None => None,
    }
}

fn target_of(node: Option<Node>, integer: Option<i64>) -> Option<Target>
    ensures { result ≡ target_of node integer }
{
    match node {
        Some(node) => Some(Target::Node(node)),
        None => match integer {
            Some(value) => Some(Target::Int(value)),
            None => None,
        },
    }
}

fn entry_at(layout: &Layout, told: &Told, slot: usize) -> Entry
    requires within { slot < length layout.now.slots }
    requires parents_sized { vec_len told.now.parents ≡ length layout.now.slots }
    requires targets_sized { vec_len told.now.targets ≡ length layout.now.slots }
    requires integers_sized { vec_len told.now.integers ≡ length layout.now.slots }
    ensures { (bits : Seq Bool) → HoldsEnds bits layout.now.parents told.now.parents.items → HoldsEnds bits layout.now.targets told.now.targets.items → HoldsIntegers bits layout.now.values told.now.integers.items → result ≡ entry_at layout.now bits slot }
{
    let node = *layout.slots.get(slot);
    let parent = node_at(&layout.slots, told.parents[slot]);
    let target = node_at(&layout.slots, told.targets[slot]);
    Entry {
        node,
        parent,
        target: target_of(target, told.integers[slot]),
    }
}

// The entries that the bits tell.
#[tactic(auto, using(crate::proofs::Told::told_kept, crate::proofs::Told::told_dropped))]
fn entries(alloc: Global, layout: &Layout, bits: &[bool]) -> Result<List<Entry>, NoMemory>
    requires { All (λ v. length v.bits ≤ 64) layout.now.values }
    ensures { IfOk result (λ es. es ≡ shown layout.now bits.now) }
{
    let count = layout.slots.len();
    let told = Told {
        parents: ends(alloc, bits, &layout.parents, count)?,
        targets: ends(alloc, bits, &layout.targets, count)?,
        integers: integers(alloc, bits, &layout.values, count)?,
    };
    let mut entries = List::new(alloc);
    for slot in 0..count {
        if is_live(layout, bits, slot) {
            entries.push(entry_at(layout, &told, slot))?;
        }
    }
    Ok(entries)
}

/// The instance that the bits show, in one pass over slots, edges and integers.
///
/// The bits are those of the layout's inputs, in their order. They show this instance and no other.
pub fn decode(
    alloc: Global,
    core: &CoreModel,
    scopes: &Scopes,
    layout: &Layout,
    bits: &[bool],
) -> Result<Instance, NoMemory>
    requires fits { Fits core.now.clafers scopes.now layout.now }
    requires shows { (entries : Seq AnEntry) × Shows core.now.clafers scopes.now layout.now bits.now entries }
    ensures shown { IfOk result (λ instance. Shows core.now.clafers scopes.now layout.now bits.now instance.entries) }
    ensures alone { IfOk result (λ instance. (entries : Seq AnEntry) → Shows core.now.clafers scopes.now layout.now bits.now entries → entries ≡ instance.entries) }
{
    the_told_instance_alone_is_shown();
    widths_are_few(scopes.low, scopes.high);
    let entries = entries(alloc, layout, bits)?;
    Ok(Instance { entries })
}
