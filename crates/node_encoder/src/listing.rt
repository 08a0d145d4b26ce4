//! Sets cut to some clafers.

ghost use Rattle.std.specs.Prelude.{◌≡◌, ◌++◌, ◌∷◌, [], slice_get, IfOk, OnOk, List as Items};
ghost use Rattle.std.specs.Option.{option_map};
ghost use Rattle.std.specs.List.{filter};
ghost use Rattle.clf_tree.specs.Lists.{has};
ghost use Rattle.told_constraints.specs.Told.{is_listed};
ghost use Rattle.node_encoder.specs.Listing.{IsCutTo};

use clf_base::{List, NoMemory};
use set_bits::{Layout, Member};
use std::alloc::Global;

// The clafer of a slot.
fn clafer_of(layout: &Layout, slot: u32) -> Option<u32>
    ensures { result ≡ option_map (λ n. n.clafer) (slice_get layout.now.slots slot) }
{
    match layout.slots.as_slice().get(slot as usize) {
        Some(node) => Some(node.clafer),
        None => None,
    }
}

// Whether a clafer is one of some.
fn is_one_of(ks: &[u32], clafer: u32) -> bool
    ensures { result ≡ has ks.now clafer }
{
    ks.iter().any(|other| clafer == *other)
}

/// Whether a slot is there, and of one of the clafers.
pub(crate) fn is_listed(layout: &Layout, ks: &[u32], slot: u32) -> bool
    ensures { result ≡ is_listed layout.now ks.now slot }
{
    match clafer_of(layout, slot) {
        Some(clafer) => is_one_of(ks, clafer),
        None => false,
    }
}

// Adds a member, if it is of the clafers.
fn push_member(
    layout: &Layout,
    ks: &[u32],
    member: Member,
    found: &mut List<Member>,
) -> Result<(), NoMemory>
    ensures { OnOk result (found.new ≡ found.old ++ filter (λ m. is_listed layout.now ks.now m.slot) (member ∷ [])) }
{
    if !is_listed(layout, ks, member.slot) {
        return Ok(());
    }
    found.push(member)?;
    Ok(())
}

// The members that are of the clafers.
fn listed_members(
    alloc: Global,
    layout: &Layout,
    ks: &[u32],
    set: &List<Member>,
) -> Result<List<Member>, NoMemory>
    ensures { IfOk result (λ r. r ≡ filter (λ m. is_listed layout.now ks.now m.slot) set.now) }
{
    let mut found = List::new(alloc);
    for at in 0..set.len() {
        let member = *set.get(at);
        push_member(layout, ks, member, &mut found)?;
    }
    Ok(found)
}

/// A set cut to clafers: its members of the listed ones. It adds no wire.
pub(crate) fn cut_to(
    alloc: Global,
    layout: &Layout,
    ks: &[u32],
    set: &List<Member>,
) -> Result<List<Member>, NoMemory>
    ensures { IfOk result (IsCutTo layout.now ks.now set.now) }
{
    let found = listed_members(alloc, layout, ks, set)?;
    Ok(found)
}
