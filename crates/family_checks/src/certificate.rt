//! Heights that don't rise from a clafer to its owners.

ghost use Rattle.std.specs.Prelude.{◌≡◌, ◌<◌, ◌≤◌, ◌^◌, ℕ, Some, true, length, IsTrue};
ghost use Rattle.clf_tree.specs.Hierarchy.{super_of, parent_of, is_concrete};
ghost use Rattle.family_checks.specs.Heights.{height_of, RiseAt, Rise, StandsAbove};

use clf_base::List;
use clf_tree::Clafer;

/// The super of a clafer.
pub fn super_of(clafers: &List<Clafer>, clafer: u32) -> Option<u32>
    ensures { result ≡ super_of clafers.now clafer }
{
    match clafers.as_slice().get(clafer as usize) {
        Some(here) => here.above,
        None => None,
    }
}

/// The clafer under which a clafer is declared.
pub fn parent_of(clafers: &List<Clafer>, clafer: u32) -> Option<u32>
    ensures { result ≡ parent_of clafers.now clafer }
{
    match clafers.as_slice().get(clafer as usize) {
        Some(here) => here.parent,
        None => None,
    }
}

/// Whether a clafer is concrete.
pub fn is_concrete(clafers: &List<Clafer>, clafer: u32) -> bool
    ensures { result ≡ is_concrete clafers.now clafer }
{
    match clafers.as_slice().get(clafer as usize) {
        Some(here) => !here.is_abstract,
        None => false,
    }
}

/// The height of a clafer.
pub fn height_of(heights: &[u32], clafer: u32) -> u32
    ensures { result ≡ height_of heights.now clafer }
{
    match heights.get(clafer as usize) {
        Some(height) => *height,
        None => 0,
    }
}

fn is_below_parent(clafers: &List<Clafer>, own: &[u32], heirs: &[u32], clafer: u32) -> bool
    ensures { IsTrue result → (p : ℕ) → parent_of clafers.now clafer ≡ Some p → height_of heirs.now p ≤ height_of own.now clafer }
{
    match parent_of(clafers, clafer) {
        None => true,
        Some(parent) => height_of(heirs, parent) <= height_of(own, clafer),
    }
}

fn is_heir(clafers: &List<Clafer>, own: &[u32], heirs: &[u32], clafer: u32) -> bool
    ensures { IsTrue result → is_concrete clafers.now clafer ≡ true → height_of own.now clafer ≤ height_of heirs.now clafer }
{
    if !is_concrete(clafers, clafer) {
        return true;
    }
    height_of(own, clafer) <= height_of(heirs, clafer)
}

fn has_heirs_of_super(clafers: &List<Clafer>, heirs: &[u32], clafer: u32) -> bool
    ensures { IsTrue result → (s : ℕ) → super_of clafers.now clafer ≡ Some s → height_of heirs.now clafer ≤ height_of heirs.now s }
{
    match super_of(clafers, clafer) {
        None => true,
        Some(above) => height_of(heirs, clafer) <= height_of(heirs, above),
    }
}

fn rise_at(clafers: &List<Clafer>, own: &[u32], heirs: &[u32], clafer: u32) -> bool
    ensures { IsTrue result → RiseAt clafers.now own.now heirs.now clafer }
{
    if !is_below_parent(clafers, own, heirs, clafer) {
        return false;
    }
    if !is_heir(clafers, own, heirs, clafer) {
        return false;
    }
    has_heirs_of_super(clafers, heirs, clafer)
}

/// Whether they are such heights, by one look at each clafer.
pub fn all_rise(clafers: &List<Clafer>, own: &[u32], heirs: &[u32]) -> bool
    requires few { length clafers.now < 2 ^ 32 }
    ensures { IsTrue result → Rise clafers.now own.now heirs.now }
{
    for number in 0..clafers.len() {
        if !rise_at(clafers, own, heirs, number as u32) {
            return false;
        }
    }
    true
}

/// Whether all owners of a clafer are lower than it.
pub fn stands_above(clafers: &List<Clafer>, own: &[u32], heirs: &[u32], clafer: u32) -> bool
    ensures { IsTrue result → StandsAbove clafers.now own.now heirs.now clafer }
{
    match parent_of(clafers, clafer) {
        None => true,
        Some(parent) => height_of(heirs, parent) < height_of(own, clafer),
    }
}
