//! What is known of a number that may name a clafer.

ghost use Rattle.std.specs.Prelude.{◌≡◌, IsTrue};
ghost use Rattle.clf_tree.specs.Hierarchy.{is_a, is_closed, is_concrete, parent_of};

use clf_base::List;
use clf_tree::{Clafer, is_a as is_below};

/// Whether it names a concrete clafer.
pub fn is_concrete(clafers: &List<Clafer>, clafer: u32) -> bool
    ensures { result ≡ is_concrete clafers.now clafer }
{
    match clafers.as_slice().get(clafer as usize) {
        Some(found) => !found.is_abstract,
        None => false,
    }
}

/// The clafer under which it is declared.
pub fn parent_of(clafers: &List<Clafer>, clafer: u32) -> Option<u32>
    ensures { result ≡ parent_of clafers.now clafer }
{
    match clafers.as_slice().get(clafer as usize) {
        Some(found) => found.parent,
        None => None,
    }
}

/// Whether it is-a `high`; a number that names no clafer is-a itself alone.
#[tactic(auto, using(crate::proofs::Beyond::is_a_beyond))]
pub fn is_a(clafers: &List<Clafer>, low: u32, high: u32) -> bool
    requires closed { IsTrue (is_closed clafers.now) }
    ensures { result ≡ is_a clafers.now low high }
{
    if (low as usize) < clafers.len() {
        return is_below(clafers, low, high);
    }
    high == low
}
