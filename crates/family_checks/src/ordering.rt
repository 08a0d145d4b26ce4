//! Proposals of heights, by what has to be known before: nothing is known of them until they are looked at.
//!
//! The height of a clafer is known once all heirs of its parent are, and the heirs of a clafer once it is itself and the heirs of
//! all that inherit from it directly.

ghost use Rattle.std.specs.Prelude.{◌<◌, ◌^◌, length};

use crate::certificate::{is_concrete, parent_of, super_of};
use clf_base::{List, NoMemory};
use clf_tree::Clafer;
use std::alloc::Global;

/// Of each clafer its own height, and the greatest of its heirs.
#[derive(Drop)]
pub struct Heights {
    pub own: Vec<u32>,
    pub heirs: Vec<u32>,
}

// What waits for what: how many heights each greatest one waits for, and the clafers declared under each, in a chain.
#[derive(Drop)]
struct Waits {
    pending: Vec<u32>,
    first_child: Vec<Option<u32>>,
    next_child: Vec<Option<u32>>,
}

fn read(heights: &[u32], clafer: u32) -> u32 {
    match heights.get(clafer as usize) {
        Some(height) => *height,
        None => 0,
    }
}

fn write(heights: &mut [u32], clafer: u32, height: u32) {
    if (clafer as usize) < heights.len() {
        heights[clafer as usize] = height;
    }
}

fn link(links: &[Option<u32>], clafer: u32) -> Option<u32> {
    match links.get(clafer as usize) {
        Some(next) => *next,
        None => None,
    }
}

fn set_link(links: &mut [Option<u32>], clafer: u32, to: Option<u32>) {
    if (clafer as usize) < links.len() {
        links[clafer as usize] = to;
    }
}

fn count_waits(alloc: Global, clafers: &List<Clafer>) -> Result<Waits, NoMemory>
    requires few { length clafers.now < 2 ^ 32 }
{
    let mut pending = vec![in alloc; 1u32; clafers.len()]?;
    let mut first_child = vec![in alloc; None; clafers.len()]?;
    let mut next_child = vec![in alloc; None; clafers.len()]?;
    for number in 0..clafers.len() {
        let clafer = number as u32;
        if let Some(above) = super_of(clafers, clafer) {
            let more = u32::saturating_add(read(&pending, above), 1);
            write(&mut pending, above, more);
        }
        if let Some(parent) = parent_of(clafers, clafer) {
            let next = link(&first_child, parent);
            set_link(&mut next_child, clafer, next);
            set_link(&mut first_child, parent, Some(clafer));
        }
    }
    Ok(Waits {
        pending,
        first_child,
        next_child,
    })
}

// The clafers declared under one get the next height.
fn raise_children(
    waiting: &Waits,
    own: &mut [u32],
    known: &mut List<u32>,
    parent: u32,
    height: u32,
) -> Result<(), NoMemory> {
    let mut current = link(&waiting.first_child, parent);
    for _step in 0..own.len() {
        match current {
            None => break,
            Some(child) => {
                write(own, child, height);
                known.push(child)?;
                current = link(&waiting.next_child, child);
            }
        }
    }
    Ok(())
}

// Goes up while all that a clafer waits for is known.
fn settle(
    clafers: &List<Clafer>,
    waiting: &mut Waits,
    heights: &mut Heights,
    known: &mut List<u32>,
    from: u32,
) -> Result<(), NoMemory> {
    let mut current = from;
    let mut height = read(&heights.own, from);
    for _step in 0..clafers.len() {
        height = u32::max(height, read(&heights.heirs, current));
        write(&mut heights.heirs, current, height);
        let left = u32::saturating_sub(read(&waiting.pending, current), 1);
        write(&mut waiting.pending, current, left);
        if left > 0 {
            return Ok(());
        }
        let next = u32::saturating_add(height, 1);
        raise_children(waiting, &mut heights.own, known, current, next)?;
        match super_of(clafers, current) {
            Some(above) => current = above,
            None => return Ok(()),
        }
    }
    Ok(())
}

// What is never known is as high as can be.
fn leave_high(waiting: &Waits, heights: &mut Heights) {
    for number in 0..heights.heirs.len() {
        match waiting.pending.get(number) {
            Some(left) if *left > 0 => heights.heirs[number] = u32::MAX,
            _ => {}
        }
    }
}

fn tops(alloc: Global, clafers: &List<Clafer>, own: &mut [u32]) -> Result<List<u32>, NoMemory>
    requires few { length clafers.now < 2 ^ 32 }
{
    let mut known = List::new(alloc);
    for number in 0..clafers.len() {
        if parent_of(clafers, number as u32).is_none() {
            write(own, number as u32, 1);
            known.push(number as u32)?;
        }
    }
    Ok(known)
}

/// Heights in the order of owners, in time linear in the clafers. A clafer from which owners lead into a cycle stands as high as
/// can be.
pub fn ordered_heights(alloc: Global, clafers: &List<Clafer>) -> Result<Heights, NoMemory>
    requires few { length clafers.now < 2 ^ 32 }
{
    let mut waiting = count_waits(alloc, clafers)?;
    let mut heights = Heights {
        own: vec![in alloc; u32::MAX; clafers.len()]?,
        heirs: vec![in alloc; 0u32; clafers.len()]?,
    };
    let mut known = tops(alloc, clafers, &mut heights.own)?;
    for _step in 0..clafers.len() {
        match known.pop() {
            None => break,
            Some(clafer) => settle(clafers, &mut waiting, &mut heights, &mut known, clafer)?,
        }
    }
    leave_high(&waiting, &mut heights);
    Ok(heights)
}

// Marks what is reached by one more step: the parents of reached clafers, their heirs, and the concrete ones among these.
fn reach_more(clafers: &List<Clafer>, from: u32, heights: &mut Heights) -> bool
    requires few { length clafers.now < 2 ^ 32 }
{
    let mut grew = false;
    for number in 0..clafers.len() {
        let clafer = number as u32;
        if clafer == from || read(&heights.own, clafer) == 0 {
            if let Some(parent) = parent_of(clafers, clafer) {
                grew = grew || read(&heights.heirs, parent) > 0;
                write(&mut heights.heirs, parent, 0);
            }
        }
        if let Some(above) = super_of(clafers, clafer) {
            if read(&heights.heirs, above) == 0 && read(&heights.heirs, clafer) > 0 {
                grew = true;
                write(&mut heights.heirs, clafer, 0);
            }
        }
        if is_concrete(clafers, clafer)
            && read(&heights.heirs, clafer) == 0
            && read(&heights.own, clafer) > 0
        {
            grew = true;
            write(&mut heights.own, clafer, 0);
        }
    }
    grew
}

/// Heights of two steps: 0 for the clafers to which owners lead from the given one, 1 for the others. It goes over the clafers
/// until nothing is new.
pub fn reached_heights(
    alloc: Global,
    clafers: &List<Clafer>,
    from: u32,
) -> Result<Heights, NoMemory>
    requires few { length clafers.now < 2 ^ 32 }
{
    let mut heights = Heights {
        own: vec![in alloc; 1u32; clafers.len()]?,
        heirs: vec![in alloc; 1u32; clafers.len()]?,
    };
    for _step in 0..clafers.len() {
        if !reach_more(clafers, from, &mut heights) {
            break;
        }
    }
    Ok(heights)
}
