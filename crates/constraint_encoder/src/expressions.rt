//! Relational expressions as wires, form by form.

ghost use Rattle.std.specs.Prelude.{◌+◌, ◌*◌, ◌++◌, ◌≤◌, not, length, IfOk, IsTrue};
ghost use Rattle.std.specs.List.{All};
ghost use Rattle.bool_circuit.specs.Circuit.{Extends};
ghost use Rattle.bool_circuit.specs.declared.circuit.TheConstants.{MOST_WIRES};
ghost use Rattle.clf_tree.specs.Core.{core};
ghost use Rattle.clf_tree.specs.CoreSoundness.{is_number, is_set, is_test, sort};
ghost use Rattle.clf_tree.specs.CoreWeights.{core_weight};
ghost use Rattle.shape_encoder.specs.Reading.{IsLaid};
ghost use Rattle.told_constraints.specs.Formed.{is_formed};
ghost use Rattle.constraint_encoder.specs.Encoded.{AreTestsOf, IsNodesOf, IsNumberOf, IsSideOf, IsTruthOf};
ghost use Rattle.constraint_encoder.specs.Operands.{has_two_numbers, has_two_sets, has_two_truths, left_of, right_of};
ghost use Rattle.constraint_encoder.specs.Operands.{is_aggregate, is_amount, is_arithmetic, is_join, is_node_choice, is_node_test};
ghost use Rattle.constraint_encoder.specs.Operands.{is_order, is_quantified, is_step, is_value_test};

use crate::bound::Bound;
use crate::kept::{is_numeric, listed_members_are_few};
use crate::operands::{
    choice_is_formed, numbers_are_formed, quantifier_is_formed, sets_are_formed, sides_are_formed,
    step_is_formed, tests_have_room, truths_are_formed,
};
use crate::weights::{
    counts_are_within, orders_are_within, products_are_within, ranges_are_within, sides_are_within,
    steps_are_within, tests_are_within, totals_are_within, tuples_are_within, values_are_within,
};
use bool_circuit::{Circuit, MOST_WIRES, Wire};
use clf_base::{List, NoMemory};
use clf_tree::CoreExpr;
use integer_bits::Part;
use node_encoder::Ground;
use quantifier_encoder::{Tuple, as_many, quantified_tuples_are_tried, tuples_of, tuples_stay};
use set_bits::Member;
use std::alloc::Global;

// The wires of two truths.
#[derive(Clone, Copy)]
struct TwoTruths {
    left: Wire,
    right: Wire,
}

// The sets of two node forms.
#[derive(Drop)]
struct TwoSets {
    left: List<Member>,
    right: List<Member>,
}

// The wires of two numbers.
#[derive(Drop)]
struct TwoNumbers {
    left: List<Wire>,
    right: List<Wire>,
}

// The two truths of a connective, and those that are chosen from.
#[cycle(encode)]
#[tactic(auto, using(crate::proofs::Staying::laid_stays, crate::proofs::Staying::truth_stays))]
fn two_truths(
    alloc: Global,
    circuit: &mut Circuit,
    ground: &Ground<'_>,
    expr: &CoreExpr,
    bound: &Bound,
) -> Result<TwoTruths, NoMemory>
    requires form { IsTrue (has_two_truths (core expr.now)) }
    requires formed { IsTrue (is_formed (core expr.now) (length bound.now)) }
    requires laid { IsLaid circuit.old ground.now.layout.now }
    requires room { length circuit.old
        + (core_weight ground.now.scopes.now (left_of (core expr.now))
        + core_weight ground.now.scopes.now (right_of (core expr.now))) ≤ MOST_WIRES }
    ensures left { IfOk result (λ r. IsTruthOf circuit.new ground.now.layout.now (left_of (core expr.now)) bound.now r.left) }
    ensures right { IfOk result (λ r. IsTruthOf circuit.new ground.now.layout.now (right_of (core expr.now)) bound.now r.right) }
    ensures extends { Extends circuit.old circuit.new
        (core_weight ground.now.scopes.now (left_of (core expr.now))
        + core_weight ground.now.scopes.now (right_of (core expr.now))) }
{
    match expr {
        CoreExpr::And(a, b)
        | CoreExpr::Or(a, b)
        | CoreExpr::Xor(a, b)
        | CoreExpr::ChooseTruth(_, a, b) => {
            let first = a.get();
            let second = b.get();
            truths_are_formed(ground, expr, first, second, bound);
            let left = encode_truth(alloc, circuit, ground, first, bound)?;
            let right = encode_truth(alloc, circuit, ground, second, bound)?;
            Ok(TwoTruths { left, right })
        }
        _ => unreachable!(),
    }
}

// The two sets of a form that has two.
#[cycle(encode)]
#[tactic(auto, using(crate::proofs::Staying::laid_stays, crate::proofs::Staying::nodes_stay))]
fn two_sets(
    alloc: Global,
    circuit: &mut Circuit,
    ground: &Ground<'_>,
    expr: &CoreExpr,
    bound: &Bound,
) -> Result<TwoSets, NoMemory>
    requires form { IsTrue (has_two_sets (core expr.now)) }
    requires formed { IsTrue (is_formed (core expr.now) (length bound.now)) }
    requires laid { IsLaid circuit.old ground.now.layout.now }
    requires room { length circuit.old
        + (core_weight ground.now.scopes.now (left_of (core expr.now))
        + core_weight ground.now.scopes.now (right_of (core expr.now))) ≤ MOST_WIRES }
    ensures left { IfOk result (λ r.
        IsNodesOf circuit.new ground.now.scopes.now ground.now.layout.now (left_of (core expr.now)) bound.now r.left) }
    ensures right { IfOk result (λ r.
        IsNodesOf circuit.new ground.now.scopes.now ground.now.layout.now (right_of (core expr.now)) bound.now r.right) }
    ensures extends { Extends circuit.old circuit.new
        (core_weight ground.now.scopes.now (left_of (core expr.now))
        + core_weight ground.now.scopes.now (right_of (core expr.now))) }
{
    match expr {
        CoreExpr::Union {
            left: a,
            right: b,
            ..
        }
        | CoreExpr::Minus {
            left: a,
            right: b,
            ..
        }
        | CoreExpr::Meet {
            left: a,
            right: b,
            ..
        }
        | CoreExpr::ChooseNodes {
            then: a,
            other: b,
            ..
        }
        | CoreExpr::SameNodes(a, b)
        | CoreExpr::WithinNodes(a, b) => {
            let first = a.get();
            let second = b.get();
            sets_are_formed(ground, expr, first, second, bound);
            let left = encode_nodes(alloc, circuit, ground, first, bound)?;
            let right = encode_nodes(alloc, circuit, ground, second, bound)?;
            Ok(TwoSets { left, right })
        }
        _ => unreachable!(),
    }
}

// The two numbers of a form that has two.
#[cycle(encode)]
#[tactic(auto, using(crate::proofs::Staying::laid_stays, crate::proofs::Staying::number_stays))]
fn two_numbers(
    alloc: Global,
    circuit: &mut Circuit,
    ground: &Ground<'_>,
    expr: &CoreExpr,
    bound: &Bound,
) -> Result<TwoNumbers, NoMemory>
    requires form { IsTrue (has_two_numbers (core expr.now)) }
    requires formed { IsTrue (is_formed (core expr.now) (length bound.now)) }
    requires laid { IsLaid circuit.old ground.now.layout.now }
    requires room { length circuit.old
        + (core_weight ground.now.scopes.now (left_of (core expr.now))
        + core_weight ground.now.scopes.now (right_of (core expr.now))) ≤ MOST_WIRES }
    ensures left { IfOk result (λ r.
        IsNumberOf circuit.new ground.now.scopes.now ground.now.layout.now (left_of (core expr.now)) bound.now r.left) }
    ensures right { IfOk result (λ r.
        IsNumberOf circuit.new ground.now.scopes.now ground.now.layout.now (right_of (core expr.now)) bound.now r.right) }
    ensures extends { Extends circuit.old circuit.new
        (core_weight ground.now.scopes.now (left_of (core expr.now))
        + core_weight ground.now.scopes.now (right_of (core expr.now))) }
{
    match expr {
        CoreExpr::Add {
            left: a,
            right: b,
            ..
        }
        | CoreExpr::Mul {
            left: a,
            right: b,
            ..
        }
        | CoreExpr::ChooseNumber {
            then: a,
            other: b,
            ..
        }
        | CoreExpr::Less(a, b) => {
            let first = a.get();
            let second = b.get();
            numbers_are_formed(ground, expr, first, second, bound);
            let left = encode_number(alloc, circuit, ground, first, bound)?;
            let right = encode_number(alloc, circuit, ground, second, bound)?;
            Ok(TwoNumbers { left, right })
        }
        _ => unreachable!(),
    }
}

// The integers of a side of `=` or `in`, with a wire more than the side itself.
#[cycle(encode)]
#[tactic(auto, using(crate::proofs::Sides::one_value, crate::proofs::Sides::node_values, crate::proofs::Sides::else_set))]
fn side(
    alloc: Global,
    circuit: &mut Circuit,
    ground: &Ground<'_>,
    expr: &CoreExpr,
    bound: &Bound,
) -> Result<List<Part>, NoMemory>
    requires form { IsTrue (not (is_test (sort (core expr.now)))) }
    requires formed { IsTrue (is_formed (core expr.now) (length bound.now)) }
    requires laid { IsLaid circuit.old ground.now.layout.now }
    requires room { length circuit.old + (core_weight ground.now.scopes.now (core expr.now) + 1) ≤ MOST_WIRES }
    ensures side { IfOk result (IsSideOf circuit.new ground.now.scopes.now ground.now.layout.now (core expr.now) bound.now) }
    ensures extends { Extends circuit.old circuit.new (core_weight ground.now.scopes.now (core expr.now) + 1) }
{
    if is_numeric(expr) {
        let number = encode_number(alloc, circuit, ground, expr, bound)?;
        let parts = number_encoder::part_of(alloc, circuit, number)?;
        Ok(parts)
    } else {
        let set = encode_nodes(alloc, circuit, ground, expr, bound)?;
        let parts = number_encoder::parts_of(alloc, circuit, ground, &set)?;
        Ok(parts)
    }
}

// Whether two sets of nodes are the same, or one is within the other.
#[cycle(encode)]
#[tactic(auto, using(crate::proofs::Forms::same_told, crate::proofs::Forms::within_told))]
fn node_test(
    alloc: Global,
    circuit: &mut Circuit,
    ground: &Ground<'_>,
    expr: &CoreExpr,
    bound: &Bound,
) -> Result<Wire, NoMemory>
    requires form { IsTrue (is_node_test (core expr.now)) }
    requires formed { IsTrue (is_formed (core expr.now) (length bound.now)) }
    requires laid { IsLaid circuit.old ground.now.layout.now }
    requires room { length circuit.old + core_weight ground.now.scopes.now (core expr.now) ≤ MOST_WIRES }
    ensures truth { IfOk result (IsTruthOf circuit.new ground.now.layout.now (core expr.now) bound.now) }
    ensures extends { Extends circuit.old circuit.new (core_weight ground.now.scopes.now (core expr.now)) }
{
    match expr {
        CoreExpr::SameNodes(_, _) => {
            let sets = two_sets(alloc, circuit, ground, expr, bound)?;
            let wire = node_encoder::same_nodes(alloc, circuit, &sets.left, &sets.right)?;
            Ok(wire)
        }
        CoreExpr::WithinNodes(_, _) => {
            let sets = two_sets(alloc, circuit, ground, expr, bound)?;
            let wire = node_encoder::within_nodes(alloc, circuit, &sets.left, &sets.right)?;
            Ok(wire)
        }
        _ => unreachable!(),
    }
}

// How many nodes a set has, against a number.
#[cycle(encode)]
#[tactic(auto, using(crate::proofs::Forms::at_least_told, crate::proofs::Forms::at_most_told, crate::proofs::Forms::exactly_told))]
fn amount(
    alloc: Global,
    circuit: &mut Circuit,
    ground: &Ground<'_>,
    expr: &CoreExpr,
    bound: &Bound,
) -> Result<Wire, NoMemory>
    requires form { IsTrue (is_amount (core expr.now)) }
    requires formed { IsTrue (is_formed (core expr.now) (length bound.now)) }
    requires laid { IsLaid circuit.old ground.now.layout.now }
    requires room { length circuit.old + core_weight ground.now.scopes.now (core expr.now) ≤ MOST_WIRES }
    ensures truth { IfOk result (IsTruthOf circuit.new ground.now.layout.now (core expr.now) bound.now) }
    ensures extends { Extends circuit.old circuit.new (core_weight ground.now.scopes.now (core expr.now)) }
{
    match expr {
        CoreExpr::AtLeast(k, of) => {
            let set = encode_nodes(alloc, circuit, ground, of.get(), bound)?;
            let wire = node_encoder::at_least(alloc, circuit, &set, *k)?;
            Ok(wire)
        }
        CoreExpr::AtMost(k, of) => {
            let set = encode_nodes(alloc, circuit, ground, of.get(), bound)?;
            let wire = node_encoder::at_most(alloc, circuit, &set, *k)?;
            Ok(wire)
        }
        CoreExpr::Exactly(k, of) => {
            let set = encode_nodes(alloc, circuit, ground, of.get(), bound)?;
            let wire = node_encoder::exactly(alloc, circuit, &set, *k)?;
            Ok(wire)
        }
        _ => unreachable!(),
    }
}

// Whether two sides have the same integers, or one has only those of the other.
#[cycle(encode)]
#[tactic(auto, using(crate::proofs::Staying::laid_stays, crate::proofs::Staying::side_stays))]
fn value_test(
    alloc: Global,
    circuit: &mut Circuit,
    ground: &Ground<'_>,
    expr: &CoreExpr,
    bound: &Bound,
) -> Result<Wire, NoMemory>
    requires form { IsTrue (is_value_test (core expr.now)) }
    requires formed { IsTrue (is_formed (core expr.now) (length bound.now)) }
    requires laid { IsLaid circuit.old ground.now.layout.now }
    requires room { length circuit.old + core_weight ground.now.scopes.now (core expr.now) ≤ MOST_WIRES }
    ensures truth { IfOk result (IsTruthOf circuit.new ground.now.layout.now (core expr.now) bound.now) }
    ensures extends { Extends circuit.old circuit.new (core_weight ground.now.scopes.now (core expr.now)) }
{
    match expr {
        CoreExpr::SameValues(a, b) => {
            let first = a.get();
            let second = b.get();
            sides_are_formed(ground, expr, first, second, bound);
            sides_are_within(ground, first, second);
            let left = side(alloc, circuit, ground, first, bound)?;
            let right = side(alloc, circuit, ground, second, bound)?;
            values_are_within(ground, first, second, &left, &right);
            let wire = number_encoder::same_values(alloc, circuit, &left, &right)?;
            Ok(wire)
        }
        CoreExpr::WithinValues(a, b) => {
            let first = a.get();
            let second = b.get();
            sides_are_formed(ground, expr, first, second, bound);
            sides_are_within(ground, first, second);
            let left = side(alloc, circuit, ground, first, bound)?;
            let right = side(alloc, circuit, ground, second, bound)?;
            values_are_within(ground, first, second, &left, &right);
            let wire = number_encoder::within_values(alloc, circuit, &left, &right)?;
            Ok(wire)
        }
        _ => unreachable!(),
    }
}

// Whether one number is less than another.
#[cycle(encode)]
fn order(
    alloc: Global,
    circuit: &mut Circuit,
    ground: &Ground<'_>,
    expr: &CoreExpr,
    bound: &Bound,
) -> Result<Wire, NoMemory>
    requires form { IsTrue (is_order (core expr.now)) }
    requires formed { IsTrue (is_formed (core expr.now) (length bound.now)) }
    requires laid { IsLaid circuit.old ground.now.layout.now }
    requires room { length circuit.old + core_weight ground.now.scopes.now (core expr.now) ≤ MOST_WIRES }
    ensures truth { IfOk result (IsTruthOf circuit.new ground.now.layout.now (core expr.now) bound.now) }
    ensures extends { Extends circuit.old circuit.new (core_weight ground.now.scopes.now (core expr.now)) }
{
    match expr {
        CoreExpr::Less(a, b) => {
            let numbers = two_numbers(alloc, circuit, ground, expr, bound)?;
            orders_are_within(ground, a.get(), b.get(), &numbers.left, &numbers.right);
            let wire = integer_bits::less(alloc, circuit, &numbers.left, &numbers.right)?;
            Ok(wire)
        }
        _ => unreachable!(),
    }
}

// The body of a quantifier at a tuple.
#[cycle(encode)]
fn test_at(
    alloc: Global,
    circuit: &mut Circuit,
    ground: &Ground<'_>,
    tuple: &Tuple,
    body: &CoreExpr,
    bound: &Bound,
) -> Result<Wire, NoMemory>
    requires truth { IsTrue (is_test (sort (core body.now))) }
    requires formed { IsTrue (is_formed (core body.now) (length bound.now + length tuple.now.slots)) }
    requires laid { IsLaid circuit.old ground.now.layout.now }
    requires room { length circuit.old + core_weight ground.now.scopes.now (core body.now) ≤ MOST_WIRES }
    ensures truth { IfOk result (IsTruthOf circuit.new ground.now.layout.now (core body.now) (bound.now ++ tuple.now.slots)) }
    ensures extends { Extends circuit.old circuit.new (core_weight ground.now.scopes.now (core body.now)) }
{
    let inner = bound.with(alloc, tuple.slots.as_slice())?;
    let wire = encode_truth(alloc, circuit, ground, body, &inner)?;
    Ok(wire)
}

// The body of a quantifier at each tuple.
#[cycle(encode)]
#[tactic(auto, using(crate::proofs::Staying::laid_stays))]
fn tests_at(
    alloc: Global,
    circuit: &mut Circuit,
    ground: &Ground<'_>,
    tuples: &[Tuple],
    body: &CoreExpr,
    bound: &Bound,
) -> Result<List<Wire>, NoMemory>
    requires truth { IsTrue (is_test (sort (core body.now))) }
    requires formed { All (λ t. IsTrue (is_formed (core body.now) (length bound.now + length t.slots))) tuples.now }
    requires laid { IsLaid circuit.old ground.now.layout.now }
    requires room { length circuit.old + length tuples.now * core_weight ground.now.scopes.now (core body.now) ≤ MOST_WIRES }
    ensures tests { IfOk result (AreTestsOf circuit.new ground.now.layout.now (core body.now) bound.now tuples.now) }
    ensures extends { Extends circuit.old circuit.new (length tuples.now * core_weight ground.now.scopes.now (core body.now)) }
{
    let mut tests = List::new(alloc);
    for tuple in tuples {
        let wire = test_at(alloc, circuit, ground, tuple, body, bound)?;
        tests.push(wire)?;
    }
    Ok(tests)
}

// Whether as many of the tuples of a set pass as a quantifier asks for.
#[cycle(encode)]
#[tactic(auto, using(crate::proofs::Staying::laid_stays))]
fn quantified(
    alloc: Global,
    circuit: &mut Circuit,
    ground: &Ground<'_>,
    expr: &CoreExpr,
    bound: &Bound,
) -> Result<Wire, NoMemory>
    requires form { IsTrue (is_quantified (core expr.now)) }
    requires formed { IsTrue (is_formed (core expr.now) (length bound.now)) }
    requires laid { IsLaid circuit.old ground.now.layout.now }
    requires room { length circuit.old + core_weight ground.now.scopes.now (core expr.now) ≤ MOST_WIRES }
    ensures truth { IfOk result (IsTruthOf circuit.new ground.now.layout.now (core expr.now) bound.now) }
    ensures extends { Extends circuit.old circuit.new (core_weight ground.now.scopes.now (core expr.now)) }
{
    match expr {
        CoreExpr::Quant {
            word,
            disj,
            names,
            over,
            body,
        } => {
            let range = over.get();
            let tested = body.get();
            quantifier_is_formed(ground, expr, *word, *disj, *names, range, tested, bound);
            ranges_are_within(ground, *word, *names, range, tested);
            let set = encode_nodes(alloc, circuit, ground, range, bound)?;
            tuples_are_within(ground, *word, *names, range, tested, &set);
            let tuples = tuples_of(alloc, circuit, &set, *disj, *names)?;
            tests_are_within(ground, *word, *names, range, tested, &set, &tuples);
            let each = tuples.as_slice();
            tests_have_room(ground, circuit, tested, bound, *names, &tuples, each);
            let tests = tests_at(alloc, circuit, ground, each, tested, bound)?;
            tuples_stay();
            quantified_tuples_are_tried();
            let wire = as_many(alloc, circuit, *word, &tuples, &tests)?;
            Ok(wire)
        }
        _ => unreachable!(),
    }
}

// A connective of two truths, or the one of two that a test chooses.
#[cycle(encode)]
#[tactic(auto, using(crate::proofs::Staying::laid_stays, crate::proofs::Staying::truth_stays))]
fn connective(
    alloc: Global,
    circuit: &mut Circuit,
    ground: &Ground<'_>,
    expr: &CoreExpr,
    bound: &Bound,
) -> Result<Wire, NoMemory>
    requires form { IsTrue (has_two_truths (core expr.now)) }
    requires formed { IsTrue (is_formed (core expr.now) (length bound.now)) }
    requires laid { IsLaid circuit.old ground.now.layout.now }
    requires room { length circuit.old + core_weight ground.now.scopes.now (core expr.now) ≤ MOST_WIRES }
    ensures truth { IfOk result (IsTruthOf circuit.new ground.now.layout.now (core expr.now) bound.now) }
    ensures extends { Extends circuit.old circuit.new (core_weight ground.now.scopes.now (core expr.now)) }
{
    match expr {
        CoreExpr::And(_, _) => {
            let truths = two_truths(alloc, circuit, ground, expr, bound)?;
            let wire = circuit.and(truths.left, truths.right)?;
            Ok(wire)
        }
        CoreExpr::Or(_, _) => {
            let truths = two_truths(alloc, circuit, ground, expr, bound)?;
            let wire = circuit.or(truths.left, truths.right)?;
            Ok(wire)
        }
        CoreExpr::Xor(_, _) => {
            let truths = two_truths(alloc, circuit, ground, expr, bound)?;
            let wire = circuit.xor(truths.left, truths.right)?;
            Ok(wire)
        }
        CoreExpr::ChooseTruth(test, _, _) => {
            let chooser = test.get();
            choice_is_formed(ground, expr, chooser, bound);
            let pick = encode_truth(alloc, circuit, ground, chooser, bound)?;
            let truths = two_truths(alloc, circuit, ground, expr, bound)?;
            let wire = circuit.choose(pick, truths.left, truths.right)?;
            Ok(wire)
        }
        _ => unreachable!(),
    }
}

// The nodes that a step leads to: children, parents or targets.
#[cycle(encode)]
#[tactic(auto, using(crate::proofs::Staying::laid_stays, crate::proofs::Staying::truth_stays, crate::proofs::Forms::step_told))]
fn step(
    alloc: Global,
    circuit: &mut Circuit,
    ground: &Ground<'_>,
    expr: &CoreExpr,
    bound: &Bound,
) -> Result<List<Member>, NoMemory>
    requires form { IsTrue (is_step (core expr.now)) }
    requires formed { IsTrue (is_formed (core expr.now) (length bound.now)) }
    requires laid { IsLaid circuit.old ground.now.layout.now }
    requires room { length circuit.old + core_weight ground.now.scopes.now (core expr.now) ≤ MOST_WIRES }
    ensures nodes { IfOk result (IsNodesOf circuit.new ground.now.scopes.now ground.now.layout.now (core expr.now) bound.now) }
    ensures extends { Extends circuit.old circuit.new (core_weight ground.now.scopes.now (core expr.now)) }
{
    match expr {
        CoreExpr::Down { clafers, of } => {
            let ks = clafers.as_slice();
            let start = of.get();
            step_is_formed(ground, expr, start, bound);
            let from = encode_nodes(alloc, circuit, ground, start, bound)?;
            steps_are_within(ground, ks, start, &from);
            let set = node_encoder::down(alloc, circuit, ground, ks, &from)?;
            listed_members_are_few(ground, ks, &set);
            Ok(set)
        }
        CoreExpr::Up { clafers, of } => {
            let ks = clafers.as_slice();
            let start = of.get();
            step_is_formed(ground, expr, start, bound);
            let from = encode_nodes(alloc, circuit, ground, start, bound)?;
            steps_are_within(ground, ks, start, &from);
            let set = node_encoder::up(alloc, circuit, ground, ks, &from)?;
            listed_members_are_few(ground, ks, &set);
            Ok(set)
        }
        CoreExpr::Follow { clafers, of } => {
            let ks = clafers.as_slice();
            let start = of.get();
            step_is_formed(ground, expr, start, bound);
            let from = encode_nodes(alloc, circuit, ground, start, bound)?;
            steps_are_within(ground, ks, start, &from);
            let set = node_encoder::follow(alloc, circuit, ground, ks, &from)?;
            listed_members_are_few(ground, ks, &set);
            Ok(set)
        }
        _ => unreachable!(),
    }
}

// The union, the difference or the meet of two sets of nodes.
#[cycle(encode)]
#[tactic(auto, using(crate::proofs::Staying::laid_stays, crate::proofs::Staying::truth_stays, crate::proofs::Forms::step_told))]
fn joined_sets(
    alloc: Global,
    circuit: &mut Circuit,
    ground: &Ground<'_>,
    expr: &CoreExpr,
    bound: &Bound,
) -> Result<List<Member>, NoMemory>
    requires form { IsTrue (is_join (core expr.now)) }
    requires formed { IsTrue (is_formed (core expr.now) (length bound.now)) }
    requires laid { IsLaid circuit.old ground.now.layout.now }
    requires room { length circuit.old + core_weight ground.now.scopes.now (core expr.now) ≤ MOST_WIRES }
    ensures nodes { IfOk result (IsNodesOf circuit.new ground.now.scopes.now ground.now.layout.now (core expr.now) bound.now) }
    ensures extends { Extends circuit.old circuit.new (core_weight ground.now.scopes.now (core expr.now)) }
{
    match expr {
        CoreExpr::Union { clafers, .. } => {
            let ks = clafers.as_slice();
            let sets = two_sets(alloc, circuit, ground, expr, bound)?;
            let set = node_encoder::union(alloc, circuit, ground, ks, &sets.left, &sets.right)?;
            listed_members_are_few(ground, ks, &set);
            Ok(set)
        }
        CoreExpr::Minus { clafers, .. } => {
            let ks = clafers.as_slice();
            let sets = two_sets(alloc, circuit, ground, expr, bound)?;
            let set = node_encoder::minus(alloc, circuit, ground, ks, &sets.left, &sets.right)?;
            listed_members_are_few(ground, ks, &set);
            Ok(set)
        }
        CoreExpr::Meet { clafers, .. } => {
            let ks = clafers.as_slice();
            let sets = two_sets(alloc, circuit, ground, expr, bound)?;
            let set = node_encoder::meet(alloc, circuit, ground, ks, &sets.left, &sets.right)?;
            listed_members_are_few(ground, ks, &set);
            Ok(set)
        }
        _ => unreachable!(),
    }
}

// The one of two sets of nodes that a test chooses.
#[cycle(encode)]
#[tactic(auto, using(crate::proofs::Staying::laid_stays, crate::proofs::Staying::truth_stays, crate::proofs::Forms::step_told))]
fn chosen_set(
    alloc: Global,
    circuit: &mut Circuit,
    ground: &Ground<'_>,
    expr: &CoreExpr,
    bound: &Bound,
) -> Result<List<Member>, NoMemory>
    requires form { IsTrue (is_node_choice (core expr.now)) }
    requires formed { IsTrue (is_formed (core expr.now) (length bound.now)) }
    requires laid { IsLaid circuit.old ground.now.layout.now }
    requires room { length circuit.old + core_weight ground.now.scopes.now (core expr.now) ≤ MOST_WIRES }
    ensures nodes { IfOk result (IsNodesOf circuit.new ground.now.scopes.now ground.now.layout.now (core expr.now) bound.now) }
    ensures extends { Extends circuit.old circuit.new (core_weight ground.now.scopes.now (core expr.now)) }
{
    match expr {
        CoreExpr::ChooseNodes { clafers, test, .. } => {
            let ks = clafers.as_slice();
            let chooser = test.get();
            choice_is_formed(ground, expr, chooser, bound);
            let pick = encode_truth(alloc, circuit, ground, chooser, bound)?;
            let sets = two_sets(alloc, circuit, ground, expr, bound)?;
            let set = node_encoder::choose_nodes(
                alloc,
                circuit,
                ground,
                ks,
                pick,
                &sets.left,
                &sets.right,
            )?;
            listed_members_are_few(ground, ks, &set);
            Ok(set)
        }
        _ => unreachable!(),
    }
}

// How many nodes a set has, or the sum of their integers.
#[cycle(encode)]
#[tactic(auto, using(crate::proofs::Staying::laid_stays, crate::proofs::Forms::count_told, crate::proofs::Forms::total_told))]
fn aggregate(
    alloc: Global,
    circuit: &mut Circuit,
    ground: &Ground<'_>,
    expr: &CoreExpr,
    bound: &Bound,
) -> Result<List<Wire>, NoMemory>
    requires form { IsTrue (is_aggregate (core expr.now)) }
    requires formed { IsTrue (is_formed (core expr.now) (length bound.now)) }
    requires laid { IsLaid circuit.old ground.now.layout.now }
    requires room { length circuit.old + core_weight ground.now.scopes.now (core expr.now) ≤ MOST_WIRES }
    ensures number { IfOk result (IsNumberOf circuit.new ground.now.scopes.now ground.now.layout.now (core expr.now) bound.now) }
    ensures extends { Extends circuit.old circuit.new (core_weight ground.now.scopes.now (core expr.now)) }
{
    match expr {
        CoreExpr::Count { width, of } => {
            let set = encode_nodes(alloc, circuit, ground, of.get(), bound)?;
            counts_are_within(ground, *width, of.get(), &set);
            let number = number_encoder::count_members(alloc, circuit, &set, *width)?;
            Ok(number)
        }
        CoreExpr::Total { width, of } => {
            let set = encode_nodes(alloc, circuit, ground, of.get(), bound)?;
            totals_are_within(ground, *width, of.get(), &set);
            let number = number_encoder::total(alloc, circuit, ground, &set, *width)?;
            Ok(number)
        }
        _ => unreachable!(),
    }
}

// The sum or the product of two numbers.
#[cycle(encode)]
#[tactic(auto, using(crate::proofs::Staying::laid_stays))]
fn arithmetic(
    alloc: Global,
    circuit: &mut Circuit,
    ground: &Ground<'_>,
    expr: &CoreExpr,
    bound: &Bound,
) -> Result<List<Wire>, NoMemory>
    requires form { IsTrue (is_arithmetic (core expr.now)) }
    requires formed { IsTrue (is_formed (core expr.now) (length bound.now)) }
    requires laid { IsLaid circuit.old ground.now.layout.now }
    requires room { length circuit.old + core_weight ground.now.scopes.now (core expr.now) ≤ MOST_WIRES }
    ensures number { IfOk result (IsNumberOf circuit.new ground.now.scopes.now ground.now.layout.now (core expr.now) bound.now) }
    ensures extends { Extends circuit.old circuit.new (core_weight ground.now.scopes.now (core expr.now)) }
{
    match expr {
        CoreExpr::Add { width, .. } => {
            let numbers = two_numbers(alloc, circuit, ground, expr, bound)?;
            let sum = integer_bits::add(alloc, circuit, &numbers.left, &numbers.right, *width)?;
            Ok(sum)
        }
        CoreExpr::Mul { width, .. } => {
            let numbers = two_numbers(alloc, circuit, ground, expr, bound)?;
            products_are_within(*width);
            let product = integer_bits::multiply(
                alloc,
                circuit,
                &numbers.left,
                &numbers.right,
                *width,
            )?;
            Ok(product)
        }
        _ => unreachable!(),
    }
}

/// The wire of a truth.
#[cycle(encode)]
#[tactic(auto, using(crate::proofs::Staying::laid_stays, crate::proofs::Staying::truth_stays))]
pub(crate) fn encode_truth(
    alloc: Global,
    circuit: &mut Circuit,
    ground: &Ground<'_>,
    expr: &CoreExpr,
    bound: &Bound,
) -> Result<Wire, NoMemory>
    requires form { IsTrue (is_test (sort (core expr.now))) }
    requires formed { IsTrue (is_formed (core expr.now) (length bound.now)) }
    requires laid { IsLaid circuit.old ground.now.layout.now }
    requires room { length circuit.old + core_weight ground.now.scopes.now (core expr.now) ≤ MOST_WIRES }
    ensures truth { IfOk result (IsTruthOf circuit.new ground.now.layout.now (core expr.now) bound.now) }
    ensures extends { Extends circuit.old circuit.new (core_weight ground.now.scopes.now (core expr.now)) }
{
    match expr {
        CoreExpr::Not(a) => {
            let of = encode_truth(alloc, circuit, ground, a.get(), bound)?;
            let wire = circuit.not(of)?;
            Ok(wire)
        }
        CoreExpr::And(_, _)
        | CoreExpr::Or(_, _)
        | CoreExpr::Xor(_, _)
        | CoreExpr::ChooseTruth(_, _, _) => {
            let wire = connective(alloc, circuit, ground, expr, bound)?;
            Ok(wire)
        }
        CoreExpr::SameNodes(_, _) | CoreExpr::WithinNodes(_, _) => {
            let wire = node_test(alloc, circuit, ground, expr, bound)?;
            Ok(wire)
        }
        CoreExpr::SameValues(_, _) | CoreExpr::WithinValues(_, _) => {
            let wire = value_test(alloc, circuit, ground, expr, bound)?;
            Ok(wire)
        }
        CoreExpr::Less(_, _) => {
            let wire = order(alloc, circuit, ground, expr, bound)?;
            Ok(wire)
        }
        CoreExpr::AtLeast(_, _) | CoreExpr::AtMost(_, _) | CoreExpr::Exactly(_, _) => {
            let wire = amount(alloc, circuit, ground, expr, bound)?;
            Ok(wire)
        }
        CoreExpr::Quant { .. } => {
            let wire = quantified(alloc, circuit, ground, expr, bound)?;
            Ok(wire)
        }
        _ => unreachable!(),
    }
}

/// The set of a node form.
#[cycle(encode)]
#[tactic(auto, using(crate::proofs::Staying::laid_stays, crate::proofs::Staying::truth_stays, crate::proofs::Forms::step_told))]
pub(crate) fn encode_nodes(
    alloc: Global,
    circuit: &mut Circuit,
    ground: &Ground<'_>,
    expr: &CoreExpr,
    bound: &Bound,
) -> Result<List<Member>, NoMemory>
    requires form { IsTrue (is_set (sort (core expr.now))) }
    requires formed { IsTrue (is_formed (core expr.now) (length bound.now)) }
    requires laid { IsLaid circuit.old ground.now.layout.now }
    requires room { length circuit.old + core_weight ground.now.scopes.now (core expr.now) ≤ MOST_WIRES }
    ensures nodes { IfOk result (IsNodesOf circuit.new ground.now.scopes.now ground.now.layout.now (core expr.now) bound.now) }
    ensures extends { Extends circuit.old circuit.new (core_weight ground.now.scopes.now (core expr.now)) }
{
    match expr {
        CoreExpr::Bound { clafers, variable } => {
            let ks = clafers.as_slice();
            let slot = bound.from_end(*variable);
            let set = node_encoder::bound_node(alloc, circuit, ground, ks, slot)?;
            listed_members_are_few(ground, ks, &set);
            Ok(set)
        }
        CoreExpr::Every { clafers } => {
            let ks = clafers.as_slice();
            let set = node_encoder::every(alloc, ground, ks)?;
            listed_members_are_few(ground, ks, &set);
            Ok(set)
        }
        CoreExpr::Down { .. } | CoreExpr::Up { .. } | CoreExpr::Follow { .. } => {
            let set = step(alloc, circuit, ground, expr, bound)?;
            Ok(set)
        }
        CoreExpr::Union { .. } | CoreExpr::Minus { .. } | CoreExpr::Meet { .. } => {
            let set = joined_sets(alloc, circuit, ground, expr, bound)?;
            Ok(set)
        }
        CoreExpr::ChooseNodes { .. } => {
            let set = chosen_set(alloc, circuit, ground, expr, bound)?;
            Ok(set)
        }
        _ => unreachable!(),
    }
}

/// The wires of a number.
#[cycle(encode)]
#[tactic(auto, using(crate::proofs::Staying::laid_stays, crate::proofs::Staying::truth_stays))]
pub(crate) fn encode_number(
    alloc: Global,
    circuit: &mut Circuit,
    ground: &Ground<'_>,
    expr: &CoreExpr,
    bound: &Bound,
) -> Result<List<Wire>, NoMemory>
    requires form { IsTrue (is_number (sort (core expr.now))) }
    requires formed { IsTrue (is_formed (core expr.now) (length bound.now)) }
    requires laid { IsLaid circuit.old ground.now.layout.now }
    requires room { length circuit.old + core_weight ground.now.scopes.now (core expr.now) ≤ MOST_WIRES }
    ensures number { IfOk result (IsNumberOf circuit.new ground.now.scopes.now ground.now.layout.now (core expr.now) bound.now) }
    ensures extends { Extends circuit.old circuit.new (core_weight ground.now.scopes.now (core expr.now)) }
{
    match expr {
        CoreExpr::Const { width, value } => {
            let number = number_encoder::constant(alloc, circuit, *width, *value)?;
            Ok(number)
        }
        CoreExpr::Count { .. } | CoreExpr::Total { .. } => {
            let number = aggregate(alloc, circuit, ground, expr, bound)?;
            Ok(number)
        }
        CoreExpr::Neg { width, of } => {
            let number = encode_number(alloc, circuit, ground, of.get(), bound)?;
            let opposite = integer_bits::negate(alloc, circuit, &number, *width)?;
            Ok(opposite)
        }
        CoreExpr::Add { .. } | CoreExpr::Mul { .. } => {
            let number = arithmetic(alloc, circuit, ground, expr, bound)?;
            Ok(number)
        }
        CoreExpr::ChooseNumber { width, test, .. } => {
            let chooser = test.get();
            choice_is_formed(ground, expr, chooser, bound);
            let pick = encode_truth(alloc, circuit, ground, chooser, bound)?;
            let numbers = two_numbers(alloc, circuit, ground, expr, bound)?;
            let chosen = integer_bits::choose(
                alloc,
                circuit,
                pick,
                &numbers.left,
                &numbers.right,
                *width,
            )?;
            Ok(chosen)
        }
        _ => unreachable!(),
    }
}
