//! A walk over the forest of supers: nothing is known of it until it is looked at.

ghost use Rattle.std.specs.Prelude.{◌<◌, ◌^◌, length};

use crate::certificate::{parent_of, super_of};
use clf_base::{List, NoMemory};
use clf_tree::Clafer;
use std::alloc::Global;

/// When each clafer is entered and left, the nested clafers in the order in which their parents are entered, and the place of
/// each in that order.
#[derive(Drop)]
pub struct Tour {
    pub enter: Vec<u32>,
    pub leave: Vec<u32>,
    pub order: List<u32>,
    pub place: Vec<u32>,
}

// The heirs of each clafer and the clafers declared under each, in chains.
#[derive(Drop)]
struct Chains {
    first_heir: Vec<Option<u32>>,
    next_heir: Vec<Option<u32>>,
    first_child: Vec<Option<u32>>,
    next_child: Vec<Option<u32>>,
}

fn link(links: &[Option<u32>], clafer: u32) -> Option<u32> {
    match links.get(clafer as usize) {
        Some(next) => *next,
        None => None,
    }
}

fn set_link(links: &mut [Option<u32>], clafer: u32, to: Option<u32>) {
    if (clafer as usize) < links.len() {
        links[clafer as usize] = to;
    }
}

fn write(turns: &mut [u32], clafer: u32, turn: u32) {
    if (clafer as usize) < turns.len() {
        turns[clafer as usize] = turn;
    }
}

fn make_chains(alloc: Global, clafers: &List<Clafer>) -> Result<Chains, NoMemory>
    requires few { length clafers.now < 2 ^ 32 }
{
    let mut first_heir = vec![in alloc; None; clafers.len()]?;
    let mut next_heir = vec![in alloc; None; clafers.len()]?;
    let mut first_child = vec![in alloc; None; clafers.len()]?;
    let mut next_child = vec![in alloc; None; clafers.len()]?;
    for number in 0..clafers.len() {
        let clafer = number as u32;
        if let Some(above) = super_of(clafers, clafer) {
            let next = link(&first_heir, above);
            set_link(&mut next_heir, clafer, next);
            set_link(&mut first_heir, above, Some(clafer));
        }
        if let Some(parent) = parent_of(clafers, clafer) {
            let next = link(&first_child, parent);
            set_link(&mut next_child, clafer, next);
            set_link(&mut first_child, parent, Some(clafer));
        }
    }
    Ok(Chains {
        first_heir,
        next_heir,
        first_child,
        next_child,
    })
}

// The clafers declared under one come next in the order.
fn add_children(tour: &mut Tour, chains: &Chains, parent: u32) -> Result<(), NoMemory> {
    let mut current = link(&chains.first_child, parent);
    for _step in 0..chains.next_child.len() {
        match current {
            None => break,
            Some(child) => {
                let place = u32::try_from(tour.order.len()).unwrap_or(u32::MAX);
                write(&mut tour.place, child, place);
                tour.order.push(child)?;
                current = link(&chains.next_child, child);
            }
        }
    }
    Ok(())
}

// Where the walk goes on from a clafer that it leaves: to the next heir of its super, or to its super, which it leaves too.
fn go_on(clafers: &List<Clafer>, chains: &Chains, clafer: u32) -> (Option<u32>, bool) {
    match link(&chains.next_heir, clafer) {
        Some(next) => (Some(next), true),
        None => (super_of(clafers, clafer), false),
    }
}

// Walks over all that inherits from a clafer, and gives the number of the last turn.
fn walk_from(
    clafers: &List<Clafer>,
    chains: &Chains,
    tour: &mut Tour,
    root: u32,
    turn: u32,
) -> Result<u32, NoMemory> {
    let mut turn = turn;
    let mut current = Some(root);
    let mut enters = true;
    for _step in 0..usize::saturating_add(clafers.len(), clafers.len()) {
        let Some(clafer) = current else {
            return Ok(turn);
        };
        if enters {
            turn = u32::saturating_add(turn, 1);
            write(&mut tour.enter, clafer, turn);
            add_children(tour, chains, clafer)?;
            enters = link(&chains.first_heir, clafer).is_some();
            if enters {
                current = link(&chains.first_heir, clafer);
            }
        } else {
            write(&mut tour.leave, clafer, turn);
            (current, enters) = go_on(clafers, chains, clafer);
        }
    }
    Ok(turn)
}

/// A walk over the forest of supers, in time linear in the clafers.
pub fn walk_supers(alloc: Global, clafers: &List<Clafer>) -> Result<Tour, NoMemory>
    requires few { length clafers.now < 2 ^ 32 }
{
    let chains = make_chains(alloc, clafers)?;
    let mut tour = Tour {
        enter: vec![in alloc; 0u32; clafers.len()]?,
        leave: vec![in alloc; 0u32; clafers.len()]?,
        order: List::new(alloc),
        place: vec![in alloc; 0u32; clafers.len()]?,
    };
    let mut turn = 0;
    for number in 0..clafers.len() {
        if super_of(clafers, number as u32).is_none() {
            turn = walk_from(clafers, &chains, &mut tour, number as u32, turn)?;
        }
    }
    Ok(tour)
}
