//! How many wires a layout and its shape take.

ghost use Rattle.std.specs.Prelude.{◌+◌, ◌≤◌, List as Items, length, map, sum, int_le, IsTrue};
ghost use Rattle.bool_circuit.specs.declared.circuit.TheConstants.{MOST_WIRES};
ghost use Rattle.clf_tree.specs.declared.model.Clafer.{Clafer};
ghost use Rattle.clf_tree.specs.declared.model.Model.{Model};
ghost use Rattle.clf_tree.specs.declared.scopes.Scopes.{Scopes};
ghost use Rattle.clf_tree.specs.Lists.{numbers_below};
ghost use Rattle.clf_tree.specs.Named.{each, has_right_super};
ghost use Rattle.int_widths.specs.Weight.{weight_at, model_weight};
ghost use Rattle.set_bits.specs.declared.layout.Layout.{Layout};
ghost use Rattle.set_bits.specs.Fitting.{Fits, size};
ghost use Rattle.shown_instance.specs.Consistent.{abstract_are_empty};
ghost use Rattle.instance_encoder.specs.Shaping.{shape_cost, slots_room};

use bool_circuit::MOST_WIRES;
use shape_encoder::sets_take_few_wires;

/// A layout and its shape take no more wires than the weight of the model has for its clafers, and seven; and where the model weighs 8,000,000
/// at most, no more than a circuit can hold. Wires for a test of which slots are used, twelve for each parent edge and five for each slot, are
/// within it too. Supers are abstract and stand at top level, abstract clafers have the scope 0, and the range of
/// integers is not empty.
///
/// For a concrete clafer with s instances, which have p parents and t targets, or bits of an integer, to choose from, the weight has
/// 32·s·(p + t + 2) for inputs, consistency, parents, targets, and set references at top level; where two of its instances may have one parent
/// and have to differ, 4·s·s·(p + t + 2) for their pairs; and for its multiplicity, with a bound u, 8·s·(u + 1) below each parent. An abstract
/// clafer counts its heirs, and a group the children of all kinds.
pub fn shapes_are_within_the_weight()
    ensures weight { (clafers : Items Clafer) (scopes : Scopes) (layout : Layout) → Fits clafers scopes layout → IsTrue (abstract_are_empty clafers scopes) → IsTrue (each clafers (has_right_super clafers)) → IsTrue (int_le scopes.low scopes.high) → size layout + shape_cost clafers scopes layout + slots_room layout ≤ sum (map (weight_at clafers scopes) (numbers_below (length clafers))) + 7 }
    ensures room { (model : Model) (scopes : Scopes) (layout : Layout) → Fits model.clafers scopes layout → IsTrue (abstract_are_empty model.clafers scopes) → IsTrue (each model.clafers (has_right_super model.clafers)) → IsTrue (int_le scopes.low scopes.high) → model_weight scopes model ≤ 8000000 → size layout + shape_cost model.clafers scopes layout + slots_room layout ≤ MOST_WIRES }
{
    sets_take_few_wires();
}
