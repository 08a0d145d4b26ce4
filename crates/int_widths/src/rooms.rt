//! How many nodes a kind can have.

ghost use Rattle.std.specs.Prelude.{◌≡◌, ◌&&◌, ◌<◌, ◌^◌, length, IsTrue, if◌then◌else◌};
ghost use Rattle.clf_tree.specs.Hierarchy.{is_closed, is_concrete, is_one_of};
ghost use Rattle.clf_tree.specs.Nodes.{scope_of};
ghost use Rattle.clf_tree.specs.Intervals.{room};

use clf_base::List;
use clf_tree::{Clafer, Scopes, is_one_of};

fn scope_of(scopes: &Scopes, clafer: u32) -> u32
    ensures { result ≡ scope_of scopes.now clafer }
{
    match scopes.of.as_slice().get(clafer as usize) {
        Some(most) => *most,
        None => 0,
    }
}

fn counts(clafers: &List<Clafer>, ks: &List<u32>, clafer: u32) -> bool
    requires within { clafer < length clafers.now }
    requires closed { IsTrue (is_closed clafers.now) }
    ensures { result ≡ (is_concrete clafers.now clafer && is_one_of clafers.now ks.now clafer) }
{
    !clafers.get(clafer as usize).is_abstract && is_one_of(clafers, ks, clafer)
}

fn counted(clafers: &List<Clafer>, scopes: &Scopes, ks: &List<u32>, clafer: u32) -> u32
    requires within { clafer < length clafers.now }
    requires closed { IsTrue (is_closed clafers.now) }
    ensures { result ≡ (if is_concrete clafers.now clafer && is_one_of clafers.now ks.now clafer then scope_of scopes.now clafer else 0) }
{
    if counts(clafers, ks, clafer) {
        return scope_of(scopes, clafer);
    }
    0
}

/// The sum of the scopes of the concrete clafers that are-a one of the given ones. It goes over the clafers.
#[tactic(auto, using(crate::proofs::ScopeSums::room_more))]
pub fn room(clafers: &List<Clafer>, scopes: &Scopes, ks: &List<u32>) -> u64
    requires closed { IsTrue (is_closed clafers.now) }
    requires few { length clafers.now < 2 ^ 32 }
    ensures { result ≡ room clafers.now scopes.now ks.now }
{
    let mut total: u64 = 0;
    for clafer in 0..clafers.len() {
        total += counted(clafers, scopes, ks, clafer as u32) as u64;
    }
    total
}
