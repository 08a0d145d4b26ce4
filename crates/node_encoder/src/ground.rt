//! What the expressions of a model stand on.

ghost use Rattle.std.specs.Prelude.{◌≡◌, IfOk, map};
ghost use Rattle.set_bits.specs.Fitting.{Fits};
ghost use Rattle.told_constraints.specs.Told.{turned};
ghost use Rattle.node_encoder.specs.Tables.{AreBySlot, AreByClafer, AreIntegers};

use crate::tables::{edges_from, edges_to, places_of_integers, slots_of_clafers};
use clf_base::{List, NoMemory};
use clf_tree::{CoreModel, Scopes};
use set_bits::{Edge, Layout};
use std::alloc::Global;

/// What the expressions of a model stand on: the model, its scopes and the layout, with tables that are made once.
#[derive(Drop)]
pub struct Ground<'a> {
    pub core: &'a CoreModel,
    pub scopes: &'a Scopes,
    pub layout: &'a Layout,
    /// By slot: the edges to its children, to its parents and to its targets.
    pub children: Vec<List<Edge>>,
    pub parents: Vec<List<Edge>>,
    pub targets: Vec<List<Edge>>,
    /// By clafer: its slots, ascending.
    pub instances: Vec<List<u32>>,
    /// By slot: the place of its integer among the layout's values.
    pub integers: Vec<Option<usize>>,
    pub ghost fits: { Fits core.now.clafers scopes.now layout.now },
    pub ghost children_are: { AreBySlot (map turned layout.now.parents) children.items },
    pub ghost parents_are: { AreBySlot layout.now.parents parents.items },
    pub ghost targets_are: { AreBySlot layout.now.targets targets.items },
    pub ghost instances_are: { AreByClafer layout.now instances.items },
    pub ghost integers_are: { AreIntegers layout.now integers.items },
}

impl<'a> Ground<'a> {
    /// Builds the tables, in one pass over slots, edges and integers.
    pub fn new(
        alloc: Global,
        core: &'a CoreModel,
        scopes: &'a Scopes,
        layout: &'a Layout,
    ) -> Result<Ground<'a>, NoMemory>
        requires { Fits core.now.clafers scopes.now layout.now }
        ensures core { IfOk result (λ g. g.core.now ≡ core.now) }
        ensures scopes { IfOk result (λ g. g.scopes.now ≡ scopes.now) }
        ensures layout { IfOk result (λ g. g.layout.now ≡ layout.now) }
    {
        let children = edges_to(alloc, &layout.parents)?;
        let parents = edges_from(alloc, &layout.parents)?;
        let targets = edges_from(alloc, &layout.targets)?;
        let instances = slots_of_clafers(alloc, layout)?;
        let integers = places_of_integers(alloc, layout)?;
        Ok(Ground {
            core,
            scopes,
            layout,
            children,
            parents,
            targets,
            instances,
            integers,
        })
    }
}
