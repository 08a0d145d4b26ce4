//! The slots of nodes.

ghost use Rattle.std.specs.Prelude.{◌≡◌, ◌<◌, ◌≤◌, length, map, IfOk};
ghost use Rattle.std.specs.Option.{IfSome};
ghost use Rattle.clf_tree.specs.Lists.{numbers_below};
ghost use Rattle.instance_tables.specs.Slots.{first_slot, slot_of};

use clf_base::{List, NoMemory};
use clf_tree::Node;
use std::alloc::Global;

/// The numbering of the nodes within the scopes, in the order of the model.
#[derive(Drop)]
pub struct Slots {
    pub scopes: List<u32>,
    pub first: List<u32>,
    pub count: u32,
    pub ghost numbered: { first ≡ map (first_slot scopes) (numbers_below (length scopes)) },
    pub ghost counted: { count ≡ first_slot scopes (length scopes) },
}

impl Slots {
    /// The numbering for the scopes of the clafers.
    #[tactic(auto, using(crate::proofs::Numbering::slot_steps))]
    pub fn new(alloc: Global, scopes: &List<u32>) -> Result<Slots, NoMemory>
        requires { first_slot scopes.now (length scopes.now) ≤ 2048 }
        ensures { IfOk result (λ slots. slots.scopes ≡ scopes.now) }
    {
        let mut first = List::new(alloc);
        let mut count: u32 = 0;
        for scope in scopes.as_slice() {
            first.push(count)?;
            count += *scope;
        }
        Ok(Slots {
            scopes: scopes.copy(alloc)?,
            first,
            count,
        })
    }

    /// The slot of a node; None where its number is not below the scope of its clafer.
    #[tactic(auto, using(crate::proofs::Numbering::slot_steps))]
    pub fn of(&self, node: Node) -> Option<usize>
        ensures value { result ≡ slot_of self.now.scopes node }
        ensures below { IfSome result (λ slot. slot < self.now.count) }
    {
        let clafer = node.clafer as usize;
        let scopes = self.scopes.as_slice();
        if clafer < scopes.len() && node.number < scopes[clafer] {
            let first = self.first.as_slice()[clafer] as usize;
            Some(first + node.number as usize)
        } else {
            None
        }
    }
}
