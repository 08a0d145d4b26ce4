//! Ranks of clafers: from 1 on, each higher than that of the super; 0 where the way up comes to no end.

ghost use Rattle.std.specs.Prelude.{◌≡◌, ◌<◌, ◌^◌, length, vec_len, IfOk, IsTrue};
ghost use Rattle.clf_tree.specs.Hierarchy.{super_of};
ghost use Rattle.super_linker.specs.Ranks.{rank_of, FallsAt, Fall};

use clf_base::{List, NoMemory};
use clf_tree::Clafer;
use std::alloc::Global;

/// The super of a clafer.
pub fn super_of(clafers: &List<Clafer>, clafer: u32) -> Option<u32>
    ensures { result ≡ super_of clafers.now clafer }
{
    match clafers.as_slice().get(clafer as usize) {
        Some(here) => here.above,
        None => None,
    }
}

/// The rank of a clafer.
pub fn rank_of(ranks: &[u32], clafer: u32) -> u32
    ensures { result ≡ rank_of ranks.now clafer }
{
    match ranks.get(clafer as usize) {
        Some(rank) => *rank,
        None => 0,
    }
}

// Where a way up stops, and after how many clafers.
#[derive(Clone, Copy)]
struct Climb {
    steps: u32,
    stop: Option<u32>,
}

// Goes up while the clafers are new, and marks them as seen.
fn go_up(clafers: &List<Clafer>, seen: &mut [bool], from: u32) -> Climb {
    let mut steps = 0;
    let mut current = Some(from);
    for _step in 0..seen.len() {
        match current {
            Some(clafer) if (clafer as usize) < seen.len() && !seen[clafer as usize] => {
                seen[clafer as usize] = true;
                steps = u32::saturating_add(steps, 1);
                current = super_of(clafers, clafer);
            }
            _ => break,
        }
    }
    Climb {
        steps,
        stop: current,
    }
}

// Ranks the clafers on a way up, the highest one above `base`.
fn rank_way(clafers: &List<Clafer>, ranks: &mut [u32], from: u32, climb: Climb, base: u32) {
    let mut current = Some(from);
    for step in 0..climb.steps {
        match current {
            Some(clafer) if (clafer as usize) < ranks.len() => {
                ranks[clafer as usize] = u32::saturating_add(base, climb.steps - step);
                current = super_of(clafers, clafer);
            }
            _ => break,
        }
    }
}

// A proposal, of which nothing is known. Each clafer is seen twice at most.
fn proposed(alloc: Global, clafers: &List<Clafer>) -> Result<Vec<u32>, NoMemory>
    requires few { length clafers.now < 2 ^ 32 }
{
    let mut seen = vec![in alloc; false; clafers.len()]?;
    let mut ranks = vec![in alloc; 0u32; clafers.len()]?;
    for number in 0..clafers.len() {
        let climb = go_up(clafers, &mut seen, number as u32);
        match climb.stop {
            None => rank_way(clafers, &mut ranks, number as u32, climb, 0),
            Some(stop) => {
                let base = rank_of(&ranks, stop);
                if base > 0 {
                    rank_way(clafers, &mut ranks, number as u32, climb, base);
                }
            }
        }
    }
    Ok(ranks)
}

fn falls_at(clafers: &List<Clafer>, ranks: &[u32], clafer: u32) -> bool
    ensures { IsTrue result → FallsAt clafers.now ranks.now clafer }
{
    match super_of(clafers, clafer) {
        None => true,
        Some(above) => {
            let rank = rank_of(ranks, clafer);
            let higher = rank_of(ranks, above);
            rank == 0 || (higher > 0 && higher < rank)
        }
    }
}

fn all_fall(clafers: &List<Clafer>, ranks: &[u32]) -> bool
    requires few { length clafers.now < 2 ^ 32 }
    requires sized { length ranks.now ≡ length clafers.now }
    ensures { IsTrue result → Fall clafers.now ranks.now }
{
    for number in 0..clafers.len() {
        if !falls_at(clafers, ranks, number as u32) {
            return false;
        }
    }
    true
}

#[tactic(auto, using(crate::proofs::Falling::no_ranks))]
/// Ranks that fall from each clafer to its super, in time linear in the clafers; those on a cycle and below one have none.
pub fn super_ranks(alloc: Global, clafers: &List<Clafer>) -> Result<Vec<u32>, NoMemory>
    requires few { length clafers.now < 2 ^ 32 }
    ensures { IfOk result (λ ranks. Fall clafers.now ranks.items) }
{
    let ranks = proposed(alloc, clafers)?;
    if ranks.len() == clafers.len() && all_fall(clafers, &ranks) {
        return Ok(ranks);
    }
    let none = Vec::new(alloc);
    Ok(none)
}
