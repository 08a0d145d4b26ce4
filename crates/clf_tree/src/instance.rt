//! Instances of a model.

ghost use Rattle.std.specs.Prelude.{◌≡◌, [], ◌∷◌, ◌++◌, IsTrue, OnOk, OnErr};
ghost use Rattle.std.specs.List.{list_all};
ghost use Rattle.clf_tree.specs.Nodes.{is_ordered, is_before};

use clf_base::{List, NoMemory};
use std::alloc::Global;

/// An instance of a clafer: the clafer by its number in the model, and a number below the clafer's scope.
#[derive(Clone, Copy, Debug, PartialEq, Eq)]
pub struct Node {
    pub clafer: u32,
    pub number: u32,
}

/// What a node refers to.
#[derive(Clone, Copy, Debug, PartialEq, Eq)]
pub enum Target {
    Int(i64),
    Node(Node),
}

/// A node of an instance, its parent and its target.
#[derive(Clone, Copy, Debug, PartialEq, Eq)]
pub struct Entry {
    pub node: Node,
    pub parent: Option<Node>,
    pub target: Option<Target>,
}

/// An instance: its entries in the order of their nodes, no node twice, which the type keeps.
#[derive(Drop)]
pub struct Instance {
    pub entries: List<Entry>,
    pub ghost ordered: { IsTrue (is_ordered entries) },
}

impl Instance {
    /// The empty instance, which takes no memory.
    pub fn new(alloc: Global) -> Instance
        ensures { result.entries ≡ [] }
    {
        Instance {
            entries: List::new(alloc),
        }
    }

    /// Adds an entry whose node is above all there. Where memory is wanting the instance is as before.
    #[tactic(auto, using(crate::proofs::Ordered::each_two_push))]
    pub fn add(&mut self, entry: Entry) -> Result<(), NoMemory>
        requires { IsTrue (list_all (λ e. is_before e.node entry.node) self.old.entries) }
        ensures ok { OnOk result (self.new.entries ≡ self.old.entries ++ entry ∷ []) }
        ensures err { OnErr result (self.new.entries ≡ self.old.entries) }
    {
        self.entries.push(entry)?;
        Ok(())
    }
}
