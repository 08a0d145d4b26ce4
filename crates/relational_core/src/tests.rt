ghost use Rattle.std.specs.Prelude.{◌≡◌, ◌<◌, ◌^◌, length, IsTrue};
ghost use Rattle.std.specs.Option.{option_and_then};
ghost use Rattle.clf_tree.specs.Hierarchy.{is_below, is_closed, names_below};

use crate::lower;
use crate::lowering::lower_all;
use crate::number_forms::{literal, multiple, opposite};
use crate::sides::Sides;
use clf_base::{List, Span};
use clf_tree::{
    Clafer, CoreExpr, Expr, Form, Interval, Model, Named, Quantifier, Reference, Rule, Scopes,
    Title, Typed,
};
use sqlite_items::Boxed;
use std::alloc::{AllocError, Global};
use std::test::Fail;

const HERE: Span = Span { line: 0, column: 0 };

fn clafer(alloc: Global, parent: Option<u32>) -> Clafer {
    Clafer {
        title: Title {
            name: List::new(alloc),
            at: HERE,
        },
        is_abstract: false,
        parent,
        above: None,
        group: Interval { low: 0, high: None },
        times: Interval { low: 0, high: None },
        reference: None,
    }
}

fn boxed(alloc: Global, form: Form) -> Result<Boxed<Expr>, AllocError> {
    Boxed::new(alloc, Expr { at: HERE, form })
}

// The clafer below `this`.
fn below(alloc: Global, clafer: u32) -> Result<Boxed<Expr>, Fail> {
    let mut into = List::new(alloc);
    into.push(clafer)?;
    let of = boxed(alloc, Form::This)?;
    Ok(boxed(
        alloc,
        Form::Step {
            of,
            into,
            follow: false,
        },
    )?)
}

// a, below it b and c, and in a the rule b => c
fn implied(alloc: Global) -> Result<Model, Fail> {
    let mut clafers = List::new(alloc);
    clafers.push(clafer(alloc, None))?;
    clafers.push(clafer(alloc, Some(0)))?;
    clafers.push(clafer(alloc, Some(0)))?;
    let left = below(alloc, 1)?;
    let right = below(alloc, 2)?;
    let mut rules = List::new(alloc);
    rules.push(Rule {
        context: Some(0),
        body: Expr {
            at: HERE,
            form: Form::Implies(left, right),
        },
    })?;
    Ok(Model {
        clafers,
        rules,
        goals: List::new(alloc),
    })
}

fn ones(alloc: Global, number: usize) -> Result<Scopes, Fail> {
    let mut of = List::new(alloc);
    for _clafer in 0..number {
        of.push(1)?;
    }
    Ok(Scopes {
        of,
        low: 0,
        high: 1,
    })
}

fn is_below(n: usize, clafer: Option<u32>) -> bool
    ensures { result ≡ is_below n clafer }
{
    match clafer {
        Some(number) => (number as usize) < n,
        None => true,
    }
}

fn target(reference: Option<Reference>) -> Option<u32>
    ensures { result ≡ option_and_then (λ r. r.to) reference }
{
    match reference {
        Some(reference) => reference.to,
        None => None,
    }
}

fn names_below(n: usize, clafer: &Clafer) -> bool
    ensures { result ≡ names_below n clafer.now }
{
    is_below(n, clafer.parent) && is_below(n, clafer.above) && is_below(n, target(clafer.reference))
}

fn is_closed(clafers: &List<Clafer>) -> bool
    ensures { result ≡ is_closed clafers.now }
{
    clafers
        .as_slice()
        .iter()
        .all(|clafer| names_below(clafers.len(), clafer))
}

// The clafers of the nodes that are more than none.
fn those(expr: &CoreExpr) -> &[u32] {
    match expr {
        CoreExpr::AtLeast(1, of) => match of.get() {
            CoreExpr::Down { clafers, .. } => clafers.as_slice(),
            _ => &[],
        },
        CoreExpr::Not(of) => match of.get() {
            CoreExpr::AtLeast(1, of) => match of.get() {
                CoreExpr::Down { clafers, .. } => clafers.as_slice(),
                _ => &[],
            },
            _ => &[],
        },
        _ => &[],
    }
}

// What is true of each node: the clafers of the two sides of an `or`.
fn sides(expr: &CoreExpr) -> (&[u32], &[u32]) {
    match expr {
        CoreExpr::Quant {
            word: Quantifier::All,
            names: 1,
            body,
            ..
        } => match body.get() {
            CoreExpr::Or(left, right) => (those(left.get()), those(right.get())),
            _ => (&[], &[]),
        },
        _ => (&[], &[]),
    }
}

#[test]
fn an_option_implies_another_below_each_node(rt: HostRuntime) -> Result<(), Fail> {
    let alloc = rt.alloc();
    let model = implied(alloc)?;
    let scopes = ones(alloc, 3)?;
    assert!(rt; model.clafers.len() == 3 && is_closed(&model.clafers));
    let core = lower_all(alloc, &model, &scopes)?;
    assert_eq!(rt; core.truths.len(), 1);
    let (left, right) = sides(core.truths.get(0));
    assert_eq!(rt; left, [1].as_slice());
    assert_eq!(rt; right, [2].as_slice());
    Ok(())
}

#[test]
fn a_model_without_constraints_has_no_truths(rt: HostRuntime) -> Result<(), Fail> {
    let alloc = rt.alloc();
    let model = Model {
        clafers: List::new(alloc),
        rules: List::new(alloc),
        goals: List::new(alloc),
    };
    let scopes = Scopes {
        of: List::new(alloc),
        low: 0,
        high: 0,
    };
    let typed = Typed::new(Named::new(model));
    let core = lower(alloc, &typed, &scopes)?;
    assert!(rt; core.clafers.is_empty());
    Ok(())
}

#[test]
fn constants_are_folded(rt: HostRuntime) -> Result<(), Fail> {
    let alloc = rt.alloc();
    let left = literal(alloc, 2)?;
    let right = literal(alloc, 3)?;
    let product = multiple(alloc, Sides { left, right })?;
    let opposite = opposite(alloc, product)?;
    match opposite.expr.get() {
        CoreExpr::Const { width, value } => {
            assert_eq!(rt; *width, 4);
            assert_eq!(rt; *value, -6);
        }
        _ => assert!(rt; false),
    }
    Ok(())
}
