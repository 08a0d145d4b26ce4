//! That canonical slots show canonical instances, and that their test is within the weight.

ghost use Rattle.std.specs.Prelude.{◌≡◌, ◌+◌, ◌≤◌, Bool, List as Items, length, map, sum, int_le, IsTrue};
ghost use Rattle.bool_circuit.specs.declared.circuit.TheConstants.{MOST_WIRES};
ghost use Rattle.clf_tree.specs.declared.model.Clafer.{Clafer};
ghost use Rattle.clf_tree.specs.declared.model.Model.{Model};
ghost use Rattle.clf_tree.specs.declared.scopes.Scopes.{Scopes};
ghost use Rattle.clf_tree.specs.declared.instance.Entry.{Entry};
ghost use Rattle.clf_tree.specs.Lists.{numbers_below};
ghost use Rattle.clf_tree.specs.Named.{each, has_right_super};
ghost use Rattle.clf_tree.specs.Nodes.{is_tree};
ghost use Rattle.clf_tree.specs.Shape.{has_shape};
ghost use Rattle.int_widths.specs.Weight.{weight_at, model_weight};
ghost use Rattle.set_bits.specs.declared.layout.Layout.{Layout};
ghost use Rattle.set_bits.specs.Fitting.{Fits, size};
ghost use Rattle.set_bits.specs.Showing.{Shows};
ghost use Rattle.shown_instance.specs.Consistent.{abstract_are_empty};
ghost use Rattle.shown_instance.specs.Shaped.{is_shaped};
ghost use Rattle.shown_instance.specs.Shown.{shown};
ghost use Rattle.instance_encoder.specs.Shaping.{shape_cost};
ghost use Rattle.canonical_instances.specs.Canonical.{is_canonical};
ghost use Rattle.canonical_encoder.specs.Slots.{are_canonical, canonical_cost};

use bool_circuit::MOST_WIRES;
use instance_encoder::shapes_are_within_the_weight;

/// At bits that show a tree of the right shape, the test of the slots is the test of the instance: of the one that the bits tell, and of
/// each one that they show.
pub fn canonical_slots_show_canonical_instances()
    ensures told { (clafers : Items Clafer) (scopes : Scopes) (layout : Layout) (bits : Items Bool) → Fits clafers scopes layout
        → IsTrue (is_shaped clafers scopes layout bits)
        → are_canonical clafers layout bits ≡ is_canonical clafers (shown layout bits) }
    ensures shown { (clafers : Items Clafer) (scopes : Scopes) (layout : Layout) (bits : Items Bool) (entries : Items Entry)
        → Fits clafers scopes layout → Shows clafers scopes layout bits entries → IsTrue (is_tree clafers entries)
        → IsTrue (has_shape clafers scopes entries) → are_canonical clafers layout bits ≡ is_canonical clafers entries }
{}

/// A layout, its shape and the test of canonical slots take no more wires than the weight of the model has for its clafers, and seven; and
/// where the model weighs 8,000,000 at most, no more than a circuit can hold. Supers are abstract and stand at top level, abstract clafers
/// have the scope 0, and the range of integers is not empty.
pub fn canonical_shapes_are_within_the_weight()
    ensures weight { (clafers : Items Clafer) (scopes : Scopes) (layout : Layout) → Fits clafers scopes layout
        → IsTrue (abstract_are_empty clafers scopes) → IsTrue (each clafers (has_right_super clafers))
        → IsTrue (int_le scopes.low scopes.high)
        → size layout + shape_cost clafers scopes layout + canonical_cost layout
        ≤ sum (map (weight_at clafers scopes) (numbers_below (length clafers))) + 7 }
    ensures room { (model : Model) (scopes : Scopes) (layout : Layout) → Fits model.clafers scopes layout
        → IsTrue (abstract_are_empty model.clafers scopes) → IsTrue (each model.clafers (has_right_super model.clafers))
        → IsTrue (int_le scopes.low scopes.high) → model_weight scopes model ≤ 8000000
        → size layout + shape_cost model.clafers scopes layout + canonical_cost layout ≤ MOST_WIRES }
{
    shapes_are_within_the_weight();
}
