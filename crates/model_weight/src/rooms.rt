//! How many nodes each clafer of a model can have, in tables.

ghost use Rattle.std.specs.Prelude.{◌≡◌, ℕ, ◌∷◌, ◌+◌, ◌<◌, ◌^◌, [], not, get_or, length, nat_eq, IfOk, IsTrue, if◌then◌else◌};
ghost use Rattle.clf_tree.specs.Hierarchy.{is_closed, with_supers};
ghost use Rattle.clf_tree.specs.Named.{each, inherits_itself};
ghost use Rattle.clf_tree.specs.Nodes.{scope_of};
ghost use Rattle.clf_tree.specs.Intervals.{room};
ghost use Rattle.int_widths.specs.Weight.{child_room};
ghost use Rattle.model_weight.specs.Sums.{held, added, AreRoomsBelow, AreChildrenBelow, HoldsRooms, HoldsChildren};

use clf_base::{List, NoMemory};
use clf_tree::{Clafer, Scopes};
use int_widths::room;
use std::alloc::Global;

/// The clafers of a model with their scopes, and tables of the sums of scopes that are asked for each of them.
#[derive(Drop)]
pub struct Rooms<'a> {
    pub clafers: &'a List<Clafer>,
    pub scopes: &'a Scopes,
    nodes: Vec<u64>,
    children: Vec<u64>,
    pub ghost closed: { IsTrue (is_closed clafers.now) },
    pub ghost few: { length clafers.now < 2 ^ 32 },
    ghost rooms: { HoldsRooms clafers.now scopes.now nodes.items },
    ghost below: { HoldsChildren clafers.now scopes.now children.items },
}

fn scope_at(scopes: &Scopes, clafer: usize) -> u32
    ensures { result ≡ scope_of scopes.now clafer }
{
    match scopes.of.as_slice().get(clafer) {
        Some(most) => *most,
        None => 0,
    }
}

fn item_at(sums: &[u64], clafer: u32) -> u64
    ensures { result ≡ get_or sums.now clafer 0 }
{
    match sums.get(clafer as usize) {
        Some(sum) => *sum,
        None => 0,
    }
}

fn add_to(sums: &mut [u64], clafer: u32, more: u64)
    requires within { clafer < length sums.old }
    ensures value { (c : ℕ) → get_or sums.new c 0 ≡ (if nat_eq clafer c then held (get_or sums.old c 0 + more) else get_or sums.old c 0) }
    ensures long { length sums.new ≡ length sums.old }
{
    sums[clafer as usize] = sums[clafer as usize].saturating_add(more);
}

/// Adds to the sum of a clafer and of each above it.
fn add_above(sums: &mut [u64], clafers: &List<Clafer>, clafer: u32, more: u64)
    requires within { clafer < length clafers.now }
    requires closed { IsTrue (is_closed clafers.now) }
    requires long { length sums.old ≡ length clafers.now }
    ensures added { (c : ℕ) → get_or sums.new c 0 ≡ added (with_supers clafers.now clafer) more c (get_or sums.old c 0) }
    ensures long { length sums.new ≡ length sums.old }
{
    let mut current = clafer;
    for _step in 0..clafers.len() {
        add_to(sums, current, more);
        match clafers.get(current as usize).above {
            Some(above) => current = above,
            None => return,
        }
    }
    add_to(sums, current, more);
}

/// Adds the scope of a clafer, where it is concrete, to the rooms of those that it is-a, once those before it are added.
fn add_room(sums: &mut [u64], clafers: &List<Clafer>, scopes: &Scopes, clafer: usize)
    requires within { clafer < length clafers.now }
    requires closed { IsTrue (is_closed clafers.now) }
    requires acyclic { IsTrue (each clafers.now (λ c. not (inherits_itself clafers.now c))) }
    requires few { length clafers.now < 2 ^ 32 }
    requires long { length sums.old ≡ length clafers.now }
    ensures below { AreRoomsBelow clafers.now scopes.now clafer sums.old → AreRoomsBelow clafers.now scopes.now (clafer + 1) sums.new }
    ensures small { scope_of scopes.now clafer < 2 ^ 32 }
    ensures long { length sums.new ≡ length sums.old }
{
    let scope = scope_at(scopes, clafer);
    if clafers.get(clafer).is_abstract {
        return;
    }
    add_above(sums, clafers, clafer as u32, scope as u64);
}

/// Of each clafer the sum of the scopes of the concrete clafers that are-a it. Each clafer goes to those above it.
fn node_sums(alloc: Global, clafers: &List<Clafer>, scopes: &Scopes) -> Result<Vec<u64>, NoMemory>
    requires closed { IsTrue (is_closed clafers.now) }
    requires acyclic { IsTrue (each clafers.now (λ c. not (inherits_itself clafers.now c))) }
    requires few { length clafers.now < 2 ^ 32 }
    ensures { IfOk result (λ sums. HoldsRooms clafers.now scopes.now sums.items) }
{
    let mut sums = vec![in alloc; 0; clafers.len()]?;
    for clafer in 0..clafers.len() {
        add_room(sums.as_mut_slice(), clafers, scopes, clafer);
    }
    Ok(sums)
}

/// Adds the scope of a clafer to the sum of the one that it is declared under, once those before it are added.
fn add_child(sums: &mut [u64], clafers: &List<Clafer>, scopes: &Scopes, clafer: usize)
    requires within { clafer < length clafers.now }
    requires closed { IsTrue (is_closed clafers.now) }
    requires long { length sums.old ≡ length clafers.now }
    ensures below { AreChildrenBelow clafers.now scopes.now clafer sums.old → AreChildrenBelow clafers.now scopes.now (clafer + 1) sums.new }
    ensures small { scope_of scopes.now clafer < 2 ^ 32 }
    ensures long { length sums.new ≡ length sums.old }
{
    let scope = scope_at(scopes, clafer);
    match clafers.get(clafer).parent {
        Some(parent) => add_to(sums, parent, scope as u64),
        None => return,
    }
}

/// Of each clafer the sum of the scopes of the clafers that are declared directly under it.
fn child_sums(alloc: Global, clafers: &List<Clafer>, scopes: &Scopes) -> Result<Vec<u64>, NoMemory>
    requires closed { IsTrue (is_closed clafers.now) }
    requires few { length clafers.now < 2 ^ 32 }
    ensures { IfOk result (λ sums. HoldsChildren clafers.now scopes.now sums.items) }
{
    let mut sums = vec![in alloc; 0; clafers.len()]?;
    for clafer in 0..clafers.len() {
        add_child(sums.as_mut_slice(), clafers, scopes, clafer);
    }
    Ok(sums)
}

impl Rooms<'_> {
    /// The tables of clafers without a cycle of inheritance. Each clafer goes to those above it.
    pub fn new<'a>(
        alloc: Global,
        clafers: &'a List<Clafer>,
        scopes: &'a Scopes,
    ) -> Result<Rooms<'a>, NoMemory>
        requires closed { IsTrue (is_closed clafers.now) }
        requires acyclic { IsTrue (each clafers.now (λ c. not (inherits_itself clafers.now c))) }
        requires few { length clafers.now < 2 ^ 32 }
        ensures clafers { IfOk result (λ rooms. rooms.clafers.now ≡ clafers.now) }
        ensures scopes { IfOk result (λ rooms. rooms.scopes.now ≡ scopes.now) }
    {
        let nodes = node_sums(alloc, clafers, scopes)?;
        let children = child_sums(alloc, clafers, scopes)?;
        Ok(Rooms {
            clafers,
            scopes,
            nodes,
            children,
        })
    }

    /// How many nodes can be an instance of a clafer.
    pub fn of(&self, clafer: u32) -> u64
        ensures { result ≡ room self.now.clafers.now self.now.scopes.now (clafer ∷ []) }
    {
        item_at(self.nodes.as_slice(), clafer)
    }

    /// How many nodes can be an instance of a clafer that is declared directly under one.
    pub fn below(&self, clafer: u32) -> u64
        ensures { result ≡ child_room self.now.clafers.now self.now.scopes.now clafer }
    {
        item_at(self.children.as_slice(), clafer)
    }

    /// How many nodes can be an instance of one of some clafers. It goes over all clafers where they are several.
    #[tactic(auto, using(crate::proofs::RoomSums::only_one))]
    pub fn of_all(&self, ks: &List<u32>) -> u64
        ensures { result ≡ room self.now.clafers.now self.now.scopes.now ks.now }
    {
        if ks.len() == 1 {
            return self.of(*ks.get(0));
        }
        room(self.clafers, self.scopes, ks)
    }

    /// How many instances a clafer has itself.
    pub fn scope_of(&self, clafer: u32) -> u64
        ensures { result ≡ scope_of self.now.scopes.now clafer }
    {
        scope_at(self.scopes, clafer as usize) as u64
    }
}
