//! What is known of a set that keeps to clafers, and of which sort a form is.

ghost use Rattle.std.specs.Prelude.{◌≡◌, ◌≤◌, length};
ghost use Rattle.clf_tree.specs.Core.{core};
ghost use Rattle.clf_tree.specs.CoreSoundness.{Nodes, is_number, sort};
ghost use Rattle.clf_tree.specs.CoreWeights.{most_nodes};
ghost use Rattle.set_bits.specs.Sets.{AscendFrom};
ghost use Rattle.node_encoder.specs.Listing.{AreBelow, AreListed};

use clf_base::List;
use clf_tree::CoreExpr;
use node_encoder::{Ground, listed_sets_are_few, listed_slots_are_there};
use set_bits::Member;

/// A set that keeps to clafers has no more members than those can have nodes, and its slots are there.
pub(crate) fn listed_members_are_few(ground: &Ground<'_>, ks: &[u32], set: &List<Member>)
    requires ascending { AscendFrom 0 set.now }
    requires listed { AreListed ground.now.layout.now ks.now set.now }
    ensures few { length set.now ≤ most_nodes ground.now.scopes.now (Nodes ks.now) }
    ensures below { AreBelow (length ground.now.layout.now.slots) set.now }
{
    listed_sets_are_few();
    listed_slots_are_there();
}

/// Whether a form is a number.
pub(crate) fn is_numeric(expr: &CoreExpr) -> bool
    ensures { result ≡ is_number (sort (core expr.now)) }
{
    match expr {
        CoreExpr::Const { .. }
        | CoreExpr::Count { .. }
        | CoreExpr::Total { .. }
        | CoreExpr::Neg { .. }
        | CoreExpr::Add { .. }
        | CoreExpr::Mul { .. }
        | CoreExpr::ChooseNumber { .. } => true,
        _ => false,
    }
}
