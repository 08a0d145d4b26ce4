//! Whether set references tell nodes apart.

ghost use Rattle.std.specs.Prelude.{◌≡◌, ◌+◌, ◌^◌, ◌<◌, ◌≤◌, Bool, length, IfOk, All, List as Items};
ghost use Rattle.bool_circuit.specs.Circuit.{wire_value, IsWireOf, Extends};
ghost use Rattle.bool_circuit.specs.declared.circuit.TheConstants.{MOST_WIRES};
ghost use Rattle.shape_encoder.specs.Reading.{IsLaid};
ghost use Rattle.clf_tree.specs.declared.model.Clafer.{Clafer as AClafer};
ghost use Rattle.clf_tree.specs.declared.scopes.Scopes.{Scopes};
ghost use Rattle.set_bits.specs.declared.layout.Layout.{Layout as ALayout};
ghost use Rattle.set_bits.specs.Fitting.{Fits};
ghost use Rattle.shown_instance.specs.Distinct.{have_sets};
ghost use Rattle.shape_encoder.specs.Comparing.{IsOrdered, sets_cost, pairs_sets_cost};

use crate::equality::integers_are_different;
use crate::joining::edges_of_slots;
use crate::targets::targets_differ;
use crate::twins::Ties;
use bool_circuit::{Circuit, MOST_WIRES, Wire};
use clf_base::NoMemory;
use clf_tree::CoreModel;
use set_bits::Layout;
use std::alloc::Global;

/// A wire that is true exactly where no two slots that have to have different targets have one: slots of a clafer whose reference is of set
/// kind, which have one parent, or are of a top-level clafer. A nested clafer with at most one instance below a parent takes no wires, since
/// its multiplicity says so already.
///
/// At top level the edges to a target are counted. The slots of a nested clafer are compared two by two, or counted for each parent and target,
/// whichever takes fewer wires; integers are compared two by two. Only slots of one clafer are compared. The time is at most that of clafers
/// times slots, of a row of slots for each parent below which slots are counted, and of the wires.
pub fn have_sets(
    alloc: Global,
    circuit: &mut Circuit,
    core: &CoreModel,
    layout: &Layout,
) -> Result<Wire, NoMemory>
    requires few { length core.now.clafers < 2 ^ 32 }
    requires laid { IsLaid circuit.old layout.now }
    requires ordered { IsOrdered core.now.clafers layout.now }
    requires room { length circuit.old + sets_cost core.now.clafers layout.now ≤ MOST_WIRES }
    ensures wire { IfOk result (IsWireOf circuit.new) }
    ensures value { IfOk result (λ w. (bits : Items Bool) → wire_value circuit.new w bits ≡ have_sets core.now.clafers layout.now bits) }
    ensures extends { Extends circuit.old circuit.new (sets_cost core.now.clafers layout.now) }
{
    let parents = edges_of_slots(alloc, &layout.parents, layout.slots.len())?;
    let targets = edges_of_slots(alloc, &layout.targets, layout.slots.len())?;
    let ties = Ties { parents, targets };
    let nodes = targets_differ(alloc, circuit, &core.clafers, layout, &ties)?;
    let integers = integers_are_different(alloc, circuit, &core.clafers, layout, &ties.parents)?;
    let both = circuit.and(nodes, integers)?;
    Ok(both)
}

/// The target edges of a layout that fits lead from slots, in the order of their ends, and slots are of clafers of the model.
pub fn layouts_that_fit_are_ordered()
    ensures { (clafers : Items AClafer) (scopes : Scopes) (layout : ALayout) → Fits clafers scopes layout → IsOrdered clafers layout }
{}

/// Set references take no more wires than if the slots of each nested clafer were compared two by two.
pub fn sets_take_few_wires()
    ensures { (clafers : Items AClafer) (layout : ALayout) → sets_cost clafers layout ≤ pairs_sets_cost clafers layout }
{}
