//! The value of an expression.

ghost use Rattle.std.specs.Prelude.{◌≡◌, ◌<◌, ◌≤◌, ◌^◌, ◌++◌, [], length, IfOk, IsTrue};
ghost use Rattle.clf_tree.specs.Hierarchy.{is_closed};
ghost use Rattle.clf_tree.specs.Tree.{tree};
ghost use Rattle.clf_tree.specs.Meaning.{is_true, nodes, number};
ghost use Rattle.model_evaluator.specs.Asked.{agrees, found_in};
ghost use Rattle.model_evaluator.specs.Computed.{computed};
ghost use Rattle.model_evaluator.specs.Forms.{is_arithmetic, is_choice, is_comparison, is_connective, is_count, is_order, is_quantified, is_set_operation};
ghost use Rattle.model_evaluator.specs.Parts.{asked};
ghost use Rattle.model_evaluator.specs.Values.{meant};

use crate::arithmetic::{difference, opposite, product, sum};
use crate::asked::{agrees, enough, looks_for, settled};
use crate::binding::{Place, bound_node, tried, with_bound};
use crate::forms::{equal_at, meet_of, minus_of, parents_of, part_at, step_from, union_of};
use crate::kinds_at::{choice_at, dref_at, within_quantifier};
use crate::node_sets::{instances_of, node_list};
use crate::value::{Value, count, is_true, nodes, number};
use clf_base::{List, NoMemory};
use clf_tree::{Expr, Form, Model, Node, Within, Word};
use instance_tables::Tables;
use std::alloc::Global;

/// Whether the body is as wanted with a tuple bound.
#[cycle(evaluate)]
fn is_found(
    alloc: Global,
    model: &Model,
    tables: &Tables,
    within: &Within,
    place: &Place,
    tuple: &List<Node>,
    body: &Expr,
    wanted: bool,
) -> Result<bool, NoMemory>
    requires closed { IsTrue (is_closed model.now.clafers) }
    requires few { length model.now.clafers < 2 ^ 32 }
    ensures { IfOk result (λ b. b ≡ agrees wanted (is_true (computed model.now.clafers tables.now.entries (tree body.now) (record { within = within.now; this = place.now.this; bound = place.now.bound ++ tuple.now })))) }
{
    let inner = with_bound(alloc, place, tuple.as_slice())?;
    let value = value_of(alloc, model, tables, within, &inner, body)?;
    Ok(agrees(wanted, is_true(&value)))
}

/// Counts the tuples with which the body is as wanted, up to so many.
#[cycle(evaluate)]
#[tactic(auto, using(crate::proofs::Decided::found_steps))]
fn found_among(
    alloc: Global,
    model: &Model,
    tables: &Tables,
    within: &Within,
    place: &Place,
    tuples: &[List<Node>],
    body: &Expr,
    wanted: bool,
    limit: usize,
) -> Result<usize, NoMemory>
    requires closed { IsTrue (is_closed model.now.clafers) }
    requires few { length model.now.clafers < 2 ^ 32 }
    requires some { 0 < limit }
    ensures fewer { IfOk result (λ n. n < limit → n ≡ found_in wanted (λ ns. is_true (computed model.now.clafers tables.now.entries (tree body.now) (record { within = within.now; this = place.now.this; bound = place.now.bound ++ ns }))) tuples.now) }
    ensures reached { IfOk result (λ n. limit ≤ n → limit ≤ found_in wanted (λ ns. is_true (computed model.now.clafers tables.now.entries (tree body.now) (record { within = within.now; this = place.now.this; bound = place.now.bound ++ ns }))) tuples.now) }
{
    let mut found = 0;
    for tuple in tuples {
        if is_found(alloc, model, tables, within, place, tuple, body, wanted)? {
            found += 1;
            if found >= limit {
                return Ok(found);
            }
        }
    }
    Ok(found)
}

/// Whether as many tuples pass as the word asks for.
#[cycle(evaluate)]
fn asks(
    alloc: Global,
    model: &Model,
    tables: &Tables,
    within: &Within,
    place: &Place,
    tuples: &[List<Node>],
    body: &Expr,
    word: Word,
) -> Result<bool, NoMemory>
    requires closed { IsTrue (is_closed model.now.clafers) }
    requires few { length model.now.clafers < 2 ^ 32 }
    ensures { IfOk result (λ b. b ≡ asked word (λ inner ns. is_true (computed model.now.clafers tables.now.entries (tree body.now) (record { within = inner; this = place.now.this; bound = place.now.bound ++ ns }))) within.now tuples.now) }
{
    let found = found_among(
        alloc,
        model,
        tables,
        within,
        place,
        tuples,
        body,
        looks_for(word),
        enough(word),
    )?;
    Ok(settled(word, found))
}

#[cycle(evaluate)]
fn quantified(
    alloc: Global,
    model: &Model,
    tables: &Tables,
    within: &Within,
    place: &Place,
    expr: &Expr,
) -> Result<Value, NoMemory>
    requires closed { IsTrue (is_closed model.now.clafers) }
    requires few { length model.now.clafers < 2 ^ 32 }
    requires form { IsTrue (is_quantified (tree expr.now)) }
    ensures { IfOk result (λ v. meant v ≡ computed model.now.clafers tables.now.entries (tree expr.now) (record { within = within.now; this = place.now.this; bound = place.now.bound })) }
{
    match &expr.form {
        Form::Quant {
            word,
            disj,
            names,
            over,
            body,
        } => {
            let value = value_of(alloc, model, tables, within, place, over.get())?;
            let over_nodes = nodes(alloc, value);
            let tuples = tried(alloc, *disj, names.len(), over_nodes.as_slice())?;
            let inner = within_quantifier(alloc, model, within, over.get(), names.len())?;
            let holds = asks(
                alloc,
                model,
                tables,
                &inner,
                place,
                tuples.as_slice(),
                body.get(),
                *word,
            )?;
            Ok(Value::Truth(holds))
        }
        _ => unreachable!(),
    }
}

#[cycle(evaluate)]
fn truth_of(
    alloc: Global,
    model: &Model,
    tables: &Tables,
    within: &Within,
    place: &Place,
    expr: &Expr,
) -> Result<bool, NoMemory>
    requires closed { IsTrue (is_closed model.now.clafers) }
    requires few { length model.now.clafers < 2 ^ 32 }
    ensures { IfOk result (λ b. b ≡ is_true (computed model.now.clafers tables.now.entries (tree expr.now) (record { within = within.now; this = place.now.this; bound = place.now.bound }))) }
{
    let value = value_of(alloc, model, tables, within, place, expr)?;
    Ok(is_true(&value))
}

#[cycle(evaluate)]
fn number_of(
    alloc: Global,
    model: &Model,
    tables: &Tables,
    within: &Within,
    place: &Place,
    expr: &Expr,
) -> Result<i128, NoMemory>
    requires closed { IsTrue (is_closed model.now.clafers) }
    requires few { length model.now.clafers < 2 ^ 32 }
    ensures { IfOk result (λ z. z ≡ number [] tables.now.entries (computed model.now.clafers tables.now.entries (tree expr.now) (record { within = within.now; this = place.now.this; bound = place.now.bound }))) }
{
    let value = value_of(alloc, model, tables, within, place, expr)?;
    Ok(number(tables, &value))
}

#[cycle(evaluate)]
fn count_of(
    alloc: Global,
    model: &Model,
    tables: &Tables,
    within: &Within,
    place: &Place,
    expr: &Expr,
) -> Result<usize, NoMemory>
    requires closed { IsTrue (is_closed model.now.clafers) }
    requires few { length model.now.clafers < 2 ^ 32 }
    ensures { IfOk result (λ n. n ≡ length (nodes (computed model.now.clafers tables.now.entries (tree expr.now) (record { within = within.now; this = place.now.this; bound = place.now.bound })))) }
{
    let value = value_of(alloc, model, tables, within, place, expr)?;
    Ok(count(&value))
}

/// A connective: the right side is read only where the left one leaves it open.
#[cycle(evaluate)]
fn connective(
    alloc: Global,
    model: &Model,
    tables: &Tables,
    within: &Within,
    place: &Place,
    expr: &Expr,
) -> Result<Value, NoMemory>
    requires closed { IsTrue (is_closed model.now.clafers) }
    requires few { length model.now.clafers < 2 ^ 32 }
    requires form { IsTrue (is_connective (tree expr.now)) }
    ensures { IfOk result (λ v. meant v ≡ computed model.now.clafers tables.now.entries (tree expr.now) (record { within = within.now; this = place.now.this; bound = place.now.bound })) }
{
    match &expr.form {
        Form::Not(a) => Ok(Value::Truth(!truth_of(alloc, model, tables, within, place, a.get())?)),
        Form::And(a, b) => {
            if !truth_of(alloc, model, tables, within, place, a.get())? {
                return Ok(Value::Truth(false));
            }
            Ok(Value::Truth(truth_of(alloc, model, tables, within, place, b.get())?))
        }
        Form::Or(a, b) => {
            if truth_of(alloc, model, tables, within, place, a.get())? {
                return Ok(Value::Truth(true));
            }
            Ok(Value::Truth(truth_of(alloc, model, tables, within, place, b.get())?))
        }
        Form::Xor(a, b) => {
            let a = truth_of(alloc, model, tables, within, place, a.get())?;
            let b = truth_of(alloc, model, tables, within, place, b.get())?;
            Ok(Value::Truth(a != b))
        }
        Form::Implies(a, b) => {
            if !truth_of(alloc, model, tables, within, place, a.get())? {
                return Ok(Value::Truth(true));
            }
            Ok(Value::Truth(truth_of(alloc, model, tables, within, place, b.get())?))
        }
        Form::Iff(a, b) => {
            let a = truth_of(alloc, model, tables, within, place, a.get())?;
            let b = truth_of(alloc, model, tables, within, place, b.get())?;
            Ok(Value::Truth(a == b))
        }
        _ => unreachable!(),
    }
}

#[cycle(evaluate)]
fn choice(
    alloc: Global,
    model: &Model,
    tables: &Tables,
    within: &Within,
    place: &Place,
    expr: &Expr,
) -> Result<Value, NoMemory>
    requires closed { IsTrue (is_closed model.now.clafers) }
    requires few { length model.now.clafers < 2 ^ 32 }
    requires form { IsTrue (is_choice (tree expr.now)) }
    ensures { IfOk result (λ v. meant v ≡ computed model.now.clafers tables.now.entries (tree expr.now) (record { within = within.now; this = place.now.this; bound = place.now.bound })) }
{
    match &expr.form {
        Form::If(test, a, b) => {
            if truth_of(alloc, model, tables, within, place, test.get())? {
                let branch = value_of(alloc, model, tables, within, place, a.get())?;
                return choice_at(alloc, model, tables, within, expr, branch);
            }
            let branch = value_of(alloc, model, tables, within, place, b.get())?;
            choice_at(alloc, model, tables, within, expr, branch)
        }
        _ => unreachable!(),
    }
}

#[cycle(evaluate)]
fn set_operation(
    alloc: Global,
    model: &Model,
    tables: &Tables,
    within: &Within,
    place: &Place,
    expr: &Expr,
) -> Result<Value, NoMemory>
    requires closed { IsTrue (is_closed model.now.clafers) }
    requires few { length model.now.clafers < 2 ^ 32 }
    requires form { IsTrue (is_set_operation (tree expr.now)) }
    ensures { IfOk result (λ v. meant v ≡ computed model.now.clafers tables.now.entries (tree expr.now) (record { within = within.now; this = place.now.this; bound = place.now.bound })) }
{
    match &expr.form {
        Form::Union(a, b) => {
            let a = value_of(alloc, model, tables, within, place, a.get())?;
            let b = value_of(alloc, model, tables, within, place, b.get())?;
            union_of(alloc, tables, a, b)
        }
        Form::Minus(a, b) => {
            let a = value_of(alloc, model, tables, within, place, a.get())?;
            let b = value_of(alloc, model, tables, within, place, b.get())?;
            minus_of(alloc, tables, a, b)
        }
        Form::Meet(a, b) => {
            let a = value_of(alloc, model, tables, within, place, a.get())?;
            let b = value_of(alloc, model, tables, within, place, b.get())?;
            meet_of(alloc, tables, a, b)
        }
        _ => unreachable!(),
    }
}

#[cycle(evaluate)]
fn arithmetic(
    alloc: Global,
    model: &Model,
    tables: &Tables,
    within: &Within,
    place: &Place,
    expr: &Expr,
) -> Result<Value, NoMemory>
    requires closed { IsTrue (is_closed model.now.clafers) }
    requires few { length model.now.clafers < 2 ^ 32 }
    requires form { IsTrue (is_arithmetic (tree expr.now)) }
    ensures { IfOk result (λ v. meant v ≡ computed model.now.clafers tables.now.entries (tree expr.now) (record { within = within.now; this = place.now.this; bound = place.now.bound })) }
{
    match &expr.form {
        Form::Neg(a) => Ok(Value::Integer(opposite(number_of(
            alloc,
            model,
            tables,
            within,
            place,
            a.get(),
        )?))),
        Form::Add(a, b) => {
            let a = number_of(alloc, model, tables, within, place, a.get())?;
            let b = number_of(alloc, model, tables, within, place, b.get())?;
            Ok(Value::Integer(sum(a, b)))
        }
        Form::Sub(a, b) => {
            let a = number_of(alloc, model, tables, within, place, a.get())?;
            let b = number_of(alloc, model, tables, within, place, b.get())?;
            Ok(Value::Integer(difference(a, b)))
        }
        Form::Mul(a, b) => {
            let a = number_of(alloc, model, tables, within, place, a.get())?;
            let b = number_of(alloc, model, tables, within, place, b.get())?;
            Ok(Value::Integer(product(a, b)))
        }
        _ => unreachable!(),
    }
}

#[cycle(evaluate)]
fn order(
    alloc: Global,
    model: &Model,
    tables: &Tables,
    within: &Within,
    place: &Place,
    expr: &Expr,
) -> Result<Value, NoMemory>
    requires closed { IsTrue (is_closed model.now.clafers) }
    requires few { length model.now.clafers < 2 ^ 32 }
    requires form { IsTrue (is_order (tree expr.now)) }
    ensures { IfOk result (λ v. meant v ≡ computed model.now.clafers tables.now.entries (tree expr.now) (record { within = within.now; this = place.now.this; bound = place.now.bound })) }
{
    match &expr.form {
        Form::Less(a, b) => {
            let a = number_of(alloc, model, tables, within, place, a.get())?;
            let b = number_of(alloc, model, tables, within, place, b.get())?;
            Ok(Value::Truth(a < b))
        }
        Form::LessEqual(a, b) => {
            let a = number_of(alloc, model, tables, within, place, a.get())?;
            let b = number_of(alloc, model, tables, within, place, b.get())?;
            Ok(Value::Truth(a <= b))
        }
        Form::Greater(a, b) => {
            let a = number_of(alloc, model, tables, within, place, a.get())?;
            let b = number_of(alloc, model, tables, within, place, b.get())?;
            Ok(Value::Truth(b < a))
        }
        Form::GreaterEqual(a, b) => {
            let a = number_of(alloc, model, tables, within, place, a.get())?;
            let b = number_of(alloc, model, tables, within, place, b.get())?;
            Ok(Value::Truth(b <= a))
        }
        _ => unreachable!(),
    }
}

#[cycle(evaluate)]
fn comparison(
    alloc: Global,
    model: &Model,
    tables: &Tables,
    within: &Within,
    place: &Place,
    expr: &Expr,
) -> Result<Value, NoMemory>
    requires closed { IsTrue (is_closed model.now.clafers) }
    requires few { length model.now.clafers < 2 ^ 32 }
    requires form { IsTrue (is_comparison (tree expr.now)) }
    ensures { IfOk result (λ v. meant v ≡ computed model.now.clafers tables.now.entries (tree expr.now) (record { within = within.now; this = place.now.this; bound = place.now.bound })) }
{
    match &expr.form {
        Form::Equal(a, b) => {
            let left = value_of(alloc, model, tables, within, place, a.get())?;
            let right = value_of(alloc, model, tables, within, place, b.get())?;
            equal_at(alloc, model, tables, within, a.get(), b.get(), left, right)
        }
        Form::In(a, b) => {
            let left = value_of(alloc, model, tables, within, place, a.get())?;
            let right = value_of(alloc, model, tables, within, place, b.get())?;
            part_at(alloc, model, tables, within, a.get(), b.get(), left, right)
        }
        _ => unreachable!(),
    }
}

#[cycle(evaluate)]
fn counted(
    alloc: Global,
    model: &Model,
    tables: &Tables,
    within: &Within,
    place: &Place,
    expr: &Expr,
) -> Result<Value, NoMemory>
    requires closed { IsTrue (is_closed model.now.clafers) }
    requires few { length model.now.clafers < 2 ^ 32 }
    requires form { IsTrue (is_count (tree expr.now)) }
    ensures { IfOk result (λ v. meant v ≡ computed model.now.clafers tables.now.entries (tree expr.now) (record { within = within.now; this = place.now.this; bound = place.now.bound })) }
{
    match &expr.form {
        Form::Card(a) => Ok(Value::Integer(
            count_of(alloc, model, tables, within, place, a.get())? as i128,
        )),
        Form::Some(a) => Ok(Value::Truth(
            count_of(alloc, model, tables, within, place, a.get())? > 0,
        )),
        Form::No(a) => Ok(Value::Truth(
            count_of(alloc, model, tables, within, place, a.get())? == 0,
        )),
        Form::One(a) => Ok(Value::Truth(
            count_of(alloc, model, tables, within, place, a.get())? == 1,
        )),
        Form::Lone(a) => Ok(Value::Truth(
            count_of(alloc, model, tables, within, place, a.get())? <= 1,
        )),
        _ => unreachable!(),
    }
}

/// The value of an expression at a place, as `computed` defines it. A kind is asked for where a form depends on it.
#[cycle(evaluate)]
pub fn value_of(
    alloc: Global,
    model: &Model,
    tables: &Tables,
    within: &Within,
    place: &Place,
    expr: &Expr,
) -> Result<Value, NoMemory>
    requires closed { IsTrue (is_closed model.now.clafers) }
    requires few { length model.now.clafers < 2 ^ 32 }
    ensures { IfOk result (λ v. meant v ≡ computed model.now.clafers tables.now.entries (tree expr.now) (record { within = within.now; this = place.now.this; bound = place.now.bound })) }
{
    match &expr.form {
        Form::Literal(number) => Ok(Value::Integer(*number as i128)),
        Form::This => Ok(Value::Nodes(node_list(alloc, place.this)?)),
        Form::Variable(variable) => Ok(Value::Nodes(node_list(
            alloc,
            bound_node(place, *variable),
        )?)),
        Form::Clafer(clafer) => Ok(Value::Nodes(instances_of(
            alloc,
            &model.clafers,
            tables.entries.as_slice(),
            *clafer,
        )?)),
        Form::Name(_) | Form::Join(_, _) => Ok(Value::Nodes(List::new(alloc))),
        Form::Step { of, into, follow } => step_from(
            alloc,
            &model.clafers,
            tables,
            into,
            *follow,
            value_of(alloc, model, tables, within, place, of.get())?,
        ),
        Form::Parent(a) => parents_of(
            alloc,
            tables,
            value_of(alloc, model, tables, within, place, a.get())?,
        ),
        Form::Dref(a) => dref_at(
            alloc,
            model,
            tables,
            within,
            expr,
            value_of(alloc, model, tables, within, place, a.get())?,
        ),
        Form::Union(_, _) | Form::Minus(_, _) | Form::Meet(_, _) => set_operation(
            alloc, model, tables, within, place, expr,
        ),
        Form::If(_, _, _) => choice(alloc, model, tables, within, place, expr),
        Form::Not(_)
        | Form::And(_, _)
        | Form::Or(_, _)
        | Form::Xor(_, _)
        | Form::Implies(_, _)
        | Form::Iff(_, _) => connective(alloc, model, tables, within, place, expr),
        Form::Sum(a) => Ok(Value::Integer(number_of(
            alloc,
            model,
            tables,
            within,
            place,
            a.get(),
        )?)),
        Form::Neg(_) | Form::Add(_, _) | Form::Sub(_, _) | Form::Mul(_, _) => arithmetic(
            alloc, model, tables, within, place, expr,
        ),
        Form::Less(_, _) | Form::LessEqual(_, _) | Form::Greater(_, _) | Form::GreaterEqual(_, _) =>
            order(alloc, model, tables, within, place, expr),
        Form::Equal(_, _) | Form::In(_, _) => comparison(alloc, model, tables, within, place, expr),
        Form::Card(_) | Form::Some(_) | Form::No(_) | Form::One(_) | Form::Lone(_) => counted(
            alloc, model, tables, within, place, expr,
        ),
        Form::Quant { .. } => quantified(alloc, model, tables, within, place, expr),
    }
}
