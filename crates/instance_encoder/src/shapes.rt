//! Whether bits show an instance of the right shape.

ghost use Rattle.std.specs.Prelude.{◌≡◌, ◌+◌, ◌<◌, ◌≤◌, ◌^◌, ◌↔◌, Bool, not, length, IfOk, IsTrue, All, List as Items};
ghost use Rattle.bool_circuit.specs.Circuit.{wire_value, IsWireOf, Extends};
ghost use Rattle.bool_circuit.specs.declared.circuit.TheConstants.{MOST_WIRES};
ghost use Rattle.clf_tree.specs.Hierarchy.{is_closed};
ghost use Rattle.clf_tree.specs.Named.{each, contains_itself};
ghost use Rattle.set_bits.specs.Fitting.{Fits, IsRead, size};
ghost use Rattle.shown_instance.specs.Consistent.{abstract_are_empty};
ghost use Rattle.shown_instance.specs.Shaped.{is_shaped, ShowsShaped};
ghost use Rattle.shape_encoder.specs.Comparing.{IsOrdered};
ghost use Rattle.shape_encoder.specs.Reading.{IsLaid};
ghost use Rattle.instance_encoder.specs.Shaping.{rules_cost, shape_cost};

use bool_circuit::{Circuit, MOST_WIRES, Wire};
use clf_base::NoMemory;
use clf_tree::{CoreModel, Scopes};
use set_bits::Layout;
use shape_encoder::{
    consistent, have_bounds, have_parents, have_sets, have_targets, layouts_that_fit_are_laid,
    layouts_that_fit_are_ordered,
};
use shown_instance::shaped_bits_show_a_tree;
use std::alloc::Global;

// Whether each of the five rules is met.
fn meets_each_rule(
    alloc: Global,
    circuit: &mut Circuit,
    core: &CoreModel,
    scopes: &Scopes,
    layout: &Layout,
) -> Result<Wire, NoMemory>
    requires closed { IsTrue (is_closed core.now.clafers) }
    requires few_clafers { length core.now.clafers < 2 ^ 32 }
    requires laid { IsLaid circuit.old layout.now }
    requires ordered { IsOrdered core.now.clafers layout.now }
    requires children { All (λ e. e.from < length layout.now.slots) layout.now.parents }
    requires owners { All (λ e. e.to < length layout.now.slots) layout.now.parents }
    requires parents { All (λ e. e.to < length layout.now.live) layout.now.parents }
    requires targets { All (λ e. e.to < length layout.now.live) layout.now.targets }
    requires room { length circuit.old + rules_cost core.now.clafers scopes.now layout.now ≤ MOST_WIRES }
    ensures wire { IfOk result (IsWireOf circuit.new) }
    ensures value { IfOk result (λ w. (bits : Items Bool) → wire_value circuit.new w bits ≡ is_shaped core.now.clafers scopes.now layout.now bits) }
    ensures extends { Extends circuit.old circuit.new (rules_cost core.now.clafers scopes.now layout.now) }
{
    let shown = consistent(alloc, circuit, scopes, layout)?;
    let placed = have_parents(alloc, circuit, core, layout)?;
    let referring = have_targets(alloc, circuit, core, layout)?;
    let counted = have_bounds(alloc, circuit, core, layout)?;
    let distinct = have_sets(alloc, circuit, core, layout)?;
    let tree = circuit.and(shown, placed)?;
    let linked = circuit.and(tree, referring)?;
    let bounded = circuit.and(linked, counted)?;
    let right = circuit.and(bounded, distinct)?;
    Ok(right)
}

// Whether all rules are met. Where there are no slots, there are no edges and no integers either, so the bounds alone are asked.
fn meets_rules(
    alloc: Global,
    circuit: &mut Circuit,
    core: &CoreModel,
    scopes: &Scopes,
    layout: &Layout,
) -> Result<Wire, NoMemory>
    requires closed { IsTrue (is_closed core.now.clafers) }
    requires few_clafers { length core.now.clafers < 2 ^ 32 }
    requires fits { Fits core.now.clafers scopes.now layout.now }
    requires laid { IsLaid circuit.old layout.now }
    requires ordered { IsOrdered core.now.clafers layout.now }
    requires children { All (λ e. e.from < length layout.now.slots) layout.now.parents }
    requires owners { All (λ e. e.to < length layout.now.slots) layout.now.parents }
    requires parents { All (λ e. e.to < length layout.now.live) layout.now.parents }
    requires targets { All (λ e. e.to < length layout.now.live) layout.now.targets }
    requires room { length circuit.old + shape_cost core.now.clafers scopes.now layout.now ≤ MOST_WIRES }
    ensures wire { IfOk result (IsWireOf circuit.new) }
    ensures value { IfOk result (λ w. (bits : Items Bool) → wire_value circuit.new w bits ≡ is_shaped core.now.clafers scopes.now layout.now bits) }
    ensures extends { Extends circuit.old circuit.new (shape_cost core.now.clafers scopes.now layout.now) }
{
    if layout.slots.is_empty() {
        let bounded = have_bounds(alloc, circuit, core, layout)?;
        return Ok(bounded);
    }
    let right = meets_each_rule(alloc, circuit, core, scopes, layout)?;
    Ok(right)
}

/// A wire that is true exactly where the bits of a layout show an instance that is a tree of the right shape.
///
/// At all bits, of any number, its value is `is_shaped`, a test of the bits; `shaped_bits_show_a_tree` is the law of what the test says.
///
/// It is the conjunction of five rules, each a wire that is exact at all bits: the bits show some instance, nodes have their parents and
/// their targets, they are as many as multiplicities and groups allow, and set references tell them apart. A layout without slots is asked
/// for the numbers alone. The model may have no clafer that contains itself, and abstract clafers have the scope 0.
///
/// The layout and its shape take no more wires than the weight of the model has for its clafers, and seven more, so they fit into a circuit
/// where the model weighs 8,000,000 at most: `shapes_are_within_the_weight` is the law. The time grows with the number of wires, with the
/// clafers times the slots, with the clafers times the clafers, and with the slots times the slots where set references are counted.
pub fn shape(
    alloc: Global,
    circuit: &mut Circuit,
    core: &CoreModel,
    scopes: &Scopes,
    layout: &Layout,
) -> Result<Wire, NoMemory>
    requires closed { IsTrue (is_closed core.now.clafers) }
    requires few_clafers { length core.now.clafers < 2 ^ 32 }
    requires acyclic { IsTrue (each core.now.clafers (λ c. not (contains_itself core.now.clafers c))) }
    requires empty { IsTrue (abstract_are_empty core.now.clafers scopes.now) }
    requires fits { Fits core.now.clafers scopes.now layout.now }
    requires read { IsRead circuit.old (size layout.now) }
    requires room { length circuit.old + shape_cost core.now.clafers scopes.now layout.now ≤ MOST_WIRES }
    ensures wire { IfOk result (IsWireOf circuit.new) }
    ensures value { IfOk result (λ w. (bits : Items Bool) → wire_value circuit.new w bits ≡ is_shaped core.now.clafers scopes.now layout.now bits) }
    ensures shape { IfOk result (λ w. (bits : Items Bool) → length bits ≡ size layout.now → IsTrue (wire_value circuit.new w bits) ↔ ShowsShaped core.now.clafers scopes.now layout.now bits) }
    ensures extends { Extends circuit.old circuit.new (shape_cost core.now.clafers scopes.now layout.now) }
{
    layouts_that_fit_are_laid();
    layouts_that_fit_are_ordered();
    shaped_bits_show_a_tree();
    let right = meets_rules(alloc, circuit, core, scopes, layout)?;
    Ok(right)
}
