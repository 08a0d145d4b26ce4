//! Which clafers have to have different targets.

ghost use Rattle.std.specs.Prelude.{◌≡◌, []};
ghost use Rattle.clf_tree.specs.Shape.{is_set};
ghost use Rattle.shown_instance.specs.Distinct.{allows_two, tells_apart};
ghost use Rattle.shape_encoder.specs.Comparing.{may_be_two, is_counted, is_paired};

use crate::placement::parent_of;
use clf_base::List;
use clf_tree::{Clafer, Interval, reference_of};

// Whether the multiplicity allows for two.
fn allows_two(times: Interval) -> bool
    ensures { result ≡ allows_two times }
{
    match times.high {
        Some(high) => high > 1,
        None => true,
    }
}

// Whether the reference of a clafer is of set kind.
fn is_set(clafers: &List<Clafer>, clafer: u32) -> bool
    ensures { result ≡ is_set clafers.now [] clafer }
{
    match reference_of(clafers, clafer) {
        Some(reference) => !reference.bag,
        None => false,
    }
}

// Whether two instances of a clafer can have one parent, or none.
fn may_be_two(clafers: &List<Clafer>, clafer: u32) -> bool
    ensures { result ≡ may_be_two clafers.now clafer }
{
    match clafers.as_slice().get(clafer as usize) {
        Some(here) => here.parent.is_none() || allows_two(here.times),
        None => true,
    }
}

// Whether two instances of a clafer that have one parent, or none, may not have one target.
pub(crate) fn tells_apart(clafers: &List<Clafer>, clafer: u32) -> bool
    ensures { result ≡ tells_apart clafers.now clafer }
{
    if !is_set(clafers, clafer) {
        return false;
    }
    may_be_two(clafers, clafer)
}

// Whether a nested clafer has to have different targets below a parent.
pub(crate) fn is_paired(clafers: &List<Clafer>, clafer: u32) -> bool
    ensures { result ≡ is_paired clafers.now clafer }
{
    if !tells_apart(clafers, clafer) {
        return false;
    }
    parent_of(clafers, clafer).is_some()
}

// Whether a clafer stands at top level and has to have different targets.
pub(crate) fn is_counted(clafers: &List<Clafer>, clafer: u32) -> bool
    ensures { result ≡ is_counted clafers.now clafer }
{
    if !tells_apart(clafers, clafer) {
        return false;
    }
    parent_of(clafers, clafer).is_none()
}
