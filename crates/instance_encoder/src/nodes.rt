//! The slots: all nodes within the scopes.

ghost use Rattle.std.specs.Prelude.{◌≡◌, ◌++◌, ◌<◌, ◌≤◌, ◌^◌, length, nat_lt, sum, IfOk, OnOk, IsTrue};
ghost use Rattle.std.specs.List.{list_all};
ghost use Rattle.set_bits.specs.Fitting.{nodes_below, nodes_within};

use clf_base::{List, NoMemory};
use clf_tree::{Clafer, Node, Scopes};
use std::alloc::Global;

// Adds the nodes of a clafer.
#[tactic(auto, using(crate::proofs::Slots::nodes_more))]
fn push_nodes(slots: &mut List<Node>, clafer: u32, scope: u32) -> Result<(), NoMemory>
    ensures { OnOk result (slots.new ≡ slots.old ++ nodes_below clafer scope) }
{
    for number in 0..scope {
        slots.push(Node { clafer, number })?;
    }
    Ok(())
}

// The nodes within the scopes, clafer by clafer.
#[tactic(auto, using(crate::proofs::Slots::slots_more))]
fn all_nodes(alloc: Global, clafers: &List<Clafer>, scopes: &Scopes) -> Result<List<Node>, NoMemory>
    requires fitting { length scopes.now.of ≡ length clafers.now }
    requires few { length clafers.now < 2 ^ 32 }
    ensures { IfOk result (λ s. s ≡ nodes_within clafers.now scopes.now) }
{
    let mut slots = List::new(alloc);
    for clafer in 0..clafers.len() {
        let scope = *scopes.of.get(clafer);
        push_nodes(&mut slots, clafer as u32, scope)?;
    }
    Ok(slots)
}

/// The nodes within the scopes, in order.
pub(crate) fn slots(
    alloc: Global,
    clafers: &List<Clafer>,
    scopes: &Scopes,
) -> Result<List<Node>, NoMemory>
    requires fitting { length scopes.now.of ≡ length clafers.now }
    requires few_clafers { length clafers.now < 2 ^ 32 }
    requires few { sum scopes.now.of ≤ 2048 }
    ensures nodes { IfOk result (λ s. s ≡ nodes_within clafers.now scopes.now) }
    ensures known { IfOk result (λ s. IsTrue (list_all (λ n. nat_lt n.clafer (length clafers.now)) s)) }
    ensures total { IfOk result (λ s. length s ≤ sum scopes.now.of) }
    ensures few { IfOk result (λ s. length s ≤ 2048) }
{
    let slots = all_nodes(alloc, clafers, scopes)?;
    Ok(slots)
}
