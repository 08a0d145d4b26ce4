//! Where an expression stands: what is bound there.

ghost use Rattle.std.specs.Prelude.{◌≡◌, ◌++◌, replicate, IfOk};
ghost use Rattle.clf_tree.specs.Kinds.{bind_kinds};

use clf_base::{List, NoMemory};
use clf_tree::Within;
use std::alloc::Global;

/// The kinds of `this` and of the variables, and for each of them the clafers that its node can have: that of `this` first, the
/// innermost variable last.
#[derive(Drop)]
pub struct Place {
    pub within: Within,
    pub lists: List<List<u32>>,
}

fn copies(alloc: Global, lists: &List<List<u32>>) -> Result<List<List<u32>>, NoMemory>
    ensures { IfOk result (λ all. all ≡ lists.now) }
{
    let mut all = List::new(alloc);
    for list in lists.as_slice() {
        all.push(list.copy(alloc)?)?;
    }
    Ok(all)
}

fn extended(
    alloc: Global,
    lists: &List<List<u32>>,
    more: &[u32],
    names: usize,
) -> Result<List<List<u32>>, NoMemory>
    ensures { IfOk result (λ all. all ≡ lists.now ++ replicate names more.now) }
{
    let mut all = copies(alloc, lists)?;
    for _name in 0..names {
        all.push(List::from_slice(alloc, more)?)?;
    }
    Ok(all)
}

/// The place within a quantifier of so many names over nodes of the kind `ks` and of the listed clafers. It copies what is bound.
pub fn inside(
    alloc: Global,
    place: &Place,
    ks: &List<u32>,
    listed: &[u32],
    names: usize,
) -> Result<Place, NoMemory>
    ensures within { IfOk result (λ inner. inner.within ≡ bind_kinds ks.now names place.now.within) }
    ensures lists { IfOk result (λ inner. inner.lists ≡ place.now.lists ++ replicate names listed.now) }
{
    let bound = extended(alloc, &place.within.bound, ks.as_slice(), names)?;
    let lists = extended(alloc, &place.lists, listed, names)?;
    let within = Within {
        this: place.within.this,
        bound,
    };
    Ok(Place { within, lists })
}
