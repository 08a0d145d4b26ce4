ghost use Rattle.std.specs.Prelude.{◌≡◌};
ghost use Rattle.std.specs.List.{list_all};
ghost use Rattle.std.specs.Option.{option_and_then};
ghost use Rattle.clf_tree.specs.Hierarchy.{is_below, is_closed, names_below};
ghost use Rattle.clf_tree.specs.Nodes.{is_before};

use crate::evaluator::{goal_values, rules_hold};
use crate::{holds, vector};
use clf_base::{List, Span};
use clf_tree::{
    Clafer, Entry, Expr, Form, Goal, Instance, Interval, Model, Named, Node, Reference, Rule,
    Scopes, Target, Title, Typed, Word,
};
use instance_shape::is_within;
use instance_tables::Tables;
use sqlite_items::Boxed;
use std::alloc::{AllocError, Global};
use std::test::Fail;

const HERE: Span = Span { line: 0, column: 0 };

fn clafer(alloc: Global, parent: Option<u32>, refers: bool) -> Clafer {
    Clafer {
        title: Title {
            name: List::new(alloc),
            at: HERE,
        },
        is_abstract: false,
        parent,
        above: None,
        group: Interval { low: 0, high: None },
        times: Interval { low: 0, high: None },
        reference: if refers {
            Some(Reference {
                at: HERE,
                bag: true,
                to: None,
            })
        } else {
            None
        },
    }
}

fn boxed(alloc: Global, form: Form) -> Result<Boxed<Expr>, AllocError> {
    Boxed::new(alloc, Expr { at: HERE, form })
}

fn rule(context: Option<u32>, form: Form) -> Rule {
    Rule {
        context,
        body: Expr { at: HERE, form },
    }
}

// The clafer below `this`.
fn below(alloc: Global, clafer: u32) -> Result<Boxed<Expr>, Fail> {
    let into = List::from_slice(alloc, &[clafer])?;
    let of = boxed(alloc, Form::This)?;
    Ok(boxed(
        alloc,
        Form::Step {
            of,
            into,
            follow: false,
        },
    )?)
}

// a, below it b and c, and v -> int at top level
fn model_of(alloc: Global, rules: List<Rule>) -> Result<Model, Fail> {
    let mut clafers = List::new(alloc);
    clafers.push(clafer(alloc, None, false))?;
    clafers.push(clafer(alloc, Some(0), false))?;
    clafers.push(clafer(alloc, Some(0), false))?;
    clafers.push(clafer(alloc, None, true))?;
    Ok(Model {
        clafers,
        rules,
        goals: List::new(alloc),
    })
}

fn is_below(n: usize, clafer: Option<u32>) -> bool
    ensures { result ≡ is_below n clafer }
{
    match clafer {
        Some(number) => (number as usize) < n,
        None => true,
    }
}

fn target(reference: Option<Reference>) -> Option<u32>
    ensures { result ≡ option_and_then (λ r. r.to) reference }
{
    match reference {
        Some(reference) => reference.to,
        None => None,
    }
}

fn names_below(n: usize, clafer: &Clafer) -> bool
    ensures { result ≡ names_below n clafer.now }
{
    is_below(n, clafer.parent) && is_below(n, clafer.above) && is_below(n, target(clafer.reference))
}

fn is_closed(clafers: &List<Clafer>) -> bool
    ensures { result ≡ is_closed clafers.now }
{
    clafers
        .as_slice()
        .iter()
        .all(|clafer| names_below(clafers.len(), clafer))
}

fn is_before(m: Node, n: Node) -> bool
    ensures { result ≡ is_before m n }
{
    m.clafer < n.clafer || (m.clafer == n.clafer && m.number < n.number)
}

fn comes_last(instance: &Instance, node: Node) -> bool
    ensures { result ≡ list_all (λ e. is_before e.node node) instance.now.entries }
{
    instance
        .entries
        .as_slice()
        .iter()
        .all(|entry| is_before(entry.node, node))
}

fn add(instance: &mut Instance, clafer: u32, number: u32, value: Option<i64>) -> Result<(), Fail> {
    let node = Node { clafer, number };
    let above = Node {
        clafer: 0,
        number: 0,
    };
    let nested = (clafer == 1 || clafer == 2) && value.is_none();
    if comes_last(instance, node) {
        instance.add(Entry {
            node,
            parent: if nested { Some(above) } else { None },
            target: match value {
                Some(value) => Some(Target::Int(value)),
                None => None,
            },
        })?;
    }
    Ok(())
}

fn numbers(alloc: Global, values: &[i64]) -> Result<Instance, Fail> {
    let mut instance = Instance::new(alloc);
    let mut number = 0;
    for value in values {
        if number < 4 {
            add(&mut instance, 3, number, Some(*value))?;
            number += 1;
        }
    }
    Ok(instance)
}

// Whether the constraints hold, where the instance is within four nodes for each clafer.
fn hold(alloc: Global, model: &Model, instance: &Instance) -> Result<Option<bool>, Fail> {
    let scopes = Scopes {
        of: List::from_slice(alloc, &[4, 4, 4, 4])?,
        low: -32768,
        high: 32767,
    };
    if !is_closed(&model.clafers) || model.clafers.len() > 4 {
        return Ok(None);
    }
    if !is_within(&model.clafers, &scopes, instance) {
        return Ok(None);
    }
    let tables = Tables::build(alloc, model, &scopes, instance)?;
    let all = rules_hold(alloc, model, &tables, model.rules.as_slice())?;
    Ok(Some(all))
}

// The values of the goals, where the instance is within four nodes for each clafer.
fn values(alloc: Global, model: &Model, instance: &Instance) -> Result<Option<List<i128>>, Fail> {
    let scopes = Scopes {
        of: List::from_slice(alloc, &[4, 4, 4, 4])?,
        low: -2048,
        high: 2047,
    };
    if !is_closed(&model.clafers) || model.clafers.len() > 4 {
        return Ok(None);
    }
    if !is_within(&model.clafers, &scopes, instance) {
        return Ok(None);
    }
    let tables = Tables::build(alloc, model, &scopes, instance)?;
    let found = goal_values(alloc, model, &tables, model.goals.as_slice())?;
    Ok(Some(found))
}

fn implication(alloc: Global) -> Result<Model, Fail> {
    let left = below(alloc, 1)?;
    let right = below(alloc, 2)?;
    let mut rules = List::new(alloc);
    rules.push(rule(Some(0), Form::Implies(left, right)))?;
    model_of(alloc, rules)
}

#[test]
fn an_option_implies_another(rt: HostRuntime) -> Result<(), Fail> {
    let alloc = rt.alloc();
    let model = implication(alloc)?;
    let mut instance = Instance::new(alloc);
    add(&mut instance, 0, 0, None)?;
    add(&mut instance, 1, 0, None)?;
    assert_eq!(rt; hold(alloc, &model, &instance)?, Some(false));
    add(&mut instance, 2, 0, None)?;
    assert_eq!(rt; hold(alloc, &model, &instance)?, Some(true));
    Ok(())
}

// sum v = 10, or v = 5
fn equation(alloc: Global, sum: bool, value: u32) -> Result<Model, Fail> {
    let nodes = boxed(alloc, Form::Clafer(3))?;
    let left = if sum {
        boxed(alloc, Form::Sum(nodes))?
    } else {
        nodes
    };
    let right = boxed(alloc, Form::Literal(value))?;
    let mut rules = List::new(alloc);
    rules.push(rule(None, Form::Equal(left, right)))?;
    model_of(alloc, rules)
}

// v * v = value
fn product(alloc: Global, value: u32) -> Result<Model, Fail> {
    let first = boxed(alloc, Form::Clafer(3))?;
    let second = boxed(alloc, Form::Clafer(3))?;
    let left = boxed(alloc, Form::Mul(first, second))?;
    let right = boxed(alloc, Form::Literal(value))?;
    let mut rules = List::new(alloc);
    rules.push(rule(None, Form::Equal(left, right)))?;
    model_of(alloc, rules)
}

#[test]
fn a_sum_has_one_value_for_each_node(rt: HostRuntime) -> Result<(), Fail> {
    let alloc = rt.alloc();
    let fives = numbers(alloc, &[5, 5])?;
    let others = numbers(alloc, &[5, 6])?;
    let none = Instance::new(alloc);
    let sum = equation(alloc, true, 10)?;
    assert_eq!(rt; hold(alloc, &sum, &fives)?, Some(true));
    let value = equation(alloc, false, 5)?;
    assert_eq!(rt; hold(alloc, &value, &fives)?, Some(true));
    assert_eq!(rt; hold(alloc, &value, &others)?, Some(false));
    let square = product(alloc, 1073676289)?;
    assert_eq!(rt;
        hold(alloc, &square, &numbers(alloc, &[32767])?)?,
        Some(true)
    );
    assert_eq!(rt; hold(alloc, &square, &fives)?, Some(false));
    assert_eq!(rt; hold(alloc, &equation(alloc, true, 0)?, &none)?, Some(true));
    assert_eq!(rt;
        hold(alloc, &equation(alloc, false, 0)?, &none)?,
        Some(false)
    );
    Ok(())
}

// WORD disj p; q : v | p = q
fn quantifier(alloc: Global, word: Word, disj: bool) -> Result<Model, Fail> {
    let over = boxed(alloc, Form::Clafer(3))?;
    let left = boxed(alloc, Form::Variable(1))?;
    let right = boxed(alloc, Form::Variable(0))?;
    let body = boxed(alloc, Form::Equal(left, right))?;
    let mut names = List::new(alloc);
    names.push(Title {
        name: List::new(alloc),
        at: HERE,
    })?;
    names.push(Title {
        name: List::new(alloc),
        at: HERE,
    })?;
    let mut rules = List::new(alloc);
    rules.push(rule(
        None,
        Form::Quant {
            word,
            disj,
            names,
            over,
            body,
        },
    ))?;
    model_of(alloc, rules)
}

#[test]
fn disjoint_variables_have_different_nodes(rt: HostRuntime) -> Result<(), Fail> {
    let alloc = rt.alloc();
    let others = numbers(alloc, &[5, 6])?;
    let some = quantifier(alloc, Word::Some, true)?;
    assert_eq!(rt; hold(alloc, &some, &others)?, Some(false));
    assert_eq!(rt; hold(alloc, &some, &numbers(alloc, &[5, 5])?)?, Some(true));
    let any = quantifier(alloc, Word::Some, false)?;
    assert_eq!(rt; hold(alloc, &any, &others)?, Some(true));
    let lone = quantifier(alloc, Word::Lone, false)?;
    assert_eq!(rt; hold(alloc, &lone, &others)?, Some(false));
    assert_eq!(rt; hold(alloc, &lone, &Instance::new(alloc))?, Some(true));
    Ok(())
}

fn sum_of(alloc: Global, least: bool, clafer: u32) -> Result<Goal, Fail> {
    let nodes = boxed(alloc, Form::Clafer(clafer))?;
    Ok(Goal {
        at: HERE,
        least,
        body: Expr {
            at: HERE,
            form: Form::Sum(nodes),
        },
    })
}

// cost -> int and gain -> int, with the least sum of the first and the greatest of the second wanted
fn costs_and_gains(alloc: Global) -> Result<Model, Fail> {
    let mut clafers = List::new(alloc);
    clafers.push(clafer(alloc, None, true))?;
    clafers.push(clafer(alloc, None, true))?;
    let mut goals = List::new(alloc);
    goals.push(sum_of(alloc, true, 0)?)?;
    goals.push(sum_of(alloc, false, 1)?)?;
    Ok(Model {
        clafers,
        rules: List::new(alloc),
        goals,
    })
}

// The costs and gains of hd, gps and camera.
fn phone(alloc: Global) -> Result<Instance, Fail> {
    let mut instance = Instance::new(alloc);
    for (number, cost) in [7, 3, 5].iter().enumerate() {
        add(&mut instance, 0, number as u32, Some(*cost))?;
    }
    for (number, gain) in [6, 2, 4].iter().enumerate() {
        add(&mut instance, 1, number as u32, Some(*gain))?;
    }
    Ok(instance)
}

#[test]
fn a_vector_has_the_goals_in_order(rt: HostRuntime) -> Result<(), Fail> {
    let alloc = rt.alloc();
    match values(alloc, &costs_and_gains(alloc)?, &phone(alloc)?)? {
        Some(found) => assert_eq!(rt; found.as_slice(), [15, 12].as_slice()),
        None => assert!(rt; false),
    }
    Ok(())
}

#[test]
fn a_model_without_clafers_is_satisfied(rt: HostRuntime) -> Result<(), Fail> {
    let alloc = rt.alloc();
    let model = Model {
        clafers: List::new(alloc),
        rules: List::new(alloc),
        goals: List::new(alloc),
    };
    let scopes = Scopes {
        of: List::new(alloc),
        low: 0,
        high: 0,
    };
    let typed = Typed::new(Named::new(model));
    let instance = Instance::new(alloc);
    assert!(rt; holds(alloc, &typed, &scopes, &instance)?);
    assert!(rt; vector(alloc, &typed, &scopes, &instance)?.values.is_empty());
    Ok(())
}
