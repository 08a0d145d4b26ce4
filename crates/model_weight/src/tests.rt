ghost use Rattle.std.specs.Prelude.{◌≡◌, ◌<◌, ◌^◌, not, length, IfOk, IsTrue};
ghost use Rattle.std.specs.Option.{option_and_then};
ghost use Rattle.clf_tree.specs.Hierarchy.{is_below, names_below, is_closed};
ghost use Rattle.clf_tree.specs.Named.{each, inherits_itself};

use crate::model::model_known;
use crate::weigh;
use clf_base::{List, NoMemory, Refusal, Span};
use clf_tree::{
    Clafer, Expr, Form, Interval, Model, Named, Reference, Rule, Scopes, Title, Typed, Word,
};
use sqlite_items::Boxed;
use std::alloc::Global;
use std::test::Fail;

fn at(line: u32, column: u32) -> Span {
    Span { line, column }
}

fn scopes(alloc: Global, of: &[u32]) -> Result<Scopes, NoMemory> {
    Ok(Scopes {
        of: List::from_slice(alloc, of)?,
        low: -2048,
        high: 2047,
    })
}

fn title(alloc: Global) -> Title {
    Title {
        name: List::new(alloc),
        at: at(1, 1),
    }
}

// A clafer at top level, with so many instances.
fn top(alloc: Global, number: u32, reference: Option<Reference>) -> Clafer {
    Clafer {
        title: title(alloc),
        is_abstract: false,
        parent: None,
        above: None,
        group: Interval { low: 0, high: None },
        times: Interval {
            low: number,
            high: Some(number),
        },
        reference,
    }
}

fn alone(alloc: Global, clafer: Clafer) -> Result<Model, NoMemory> {
    let mut clafers = List::new(alloc);
    clafers.push(clafer)?;
    Ok(Model {
        clafers,
        rules: List::new(alloc),
        goals: List::new(alloc),
    })
}

fn with_rule(alloc: Global, clafer: Clafer, body: Expr) -> Result<Model, NoMemory> {
    let mut model = alone(alloc, clafer)?;
    model.rules.push(Rule {
        context: None,
        body,
    })?;
    Ok(model)
}

fn variable(number: u32) -> Expr {
    Expr {
        at: at(2, 20),
        form: Form::Variable(number),
    }
}

fn two_are_equal(alloc: Global) -> Result<Expr, NoMemory> {
    let left = Boxed::new(alloc, variable(2))?;
    let right = Boxed::new(alloc, variable(1))?;
    Ok(Expr {
        at: at(2, 22),
        form: Form::Equal(left, right),
    })
}

// For all p, q and r of the clafer, p is q.
fn all_equal(alloc: Global) -> Result<Expr, NoMemory> {
    let mut names = List::new(alloc);
    names.push(title(alloc))?;
    names.push(title(alloc))?;
    names.push(title(alloc))?;
    let instances = Expr {
        at: at(2, 17),
        form: Form::Clafer(0),
    };
    let over = Boxed::new(alloc, instances)?;
    let body = Boxed::new(alloc, two_are_equal(alloc)?)?;
    Ok(Expr {
        at: at(2, 3),
        form: Form::Quant {
            word: Word::All,
            disj: false,
            names,
            over,
            body,
        },
    })
}

// The product of an expression and the integer of the clafer, its sign at this column.
fn times_number(alloc: Global, left: Expr, column: u8) -> Result<Expr, NoMemory> {
    let number = Expr {
        at: at(3, column as u32 + 2),
        form: Form::Clafer(0),
    };
    let left = Boxed::new(alloc, left)?;
    let right = Boxed::new(alloc, number)?;
    Ok(Expr {
        at: at(3, column as u32),
        form: Form::Mul(left, right),
    })
}

fn doubled(alloc: Global, left: Expr, column: u8) -> Result<Expr, NoMemory> {
    let two = Expr {
        at: at(3, column as u32 + 2),
        form: Form::Literal(2),
    };
    let left = Boxed::new(alloc, left)?;
    let right = Boxed::new(alloc, two)?;
    Ok(Expr {
        at: at(3, column as u32),
        form: Form::Mul(left, right),
    })
}

fn is_zero(alloc: Global, left: Expr, column: u8) -> Result<Expr, NoMemory> {
    let zero = Expr {
        at: at(3, column as u32 + 2),
        form: Form::Literal(0),
    };
    let left = Boxed::new(alloc, left)?;
    let right = Boxed::new(alloc, zero)?;
    Ok(Expr {
        at: at(3, column as u32),
        form: Form::Equal(left, right),
    })
}

// The fourth power of the integer of the clafer.
fn fourth_power(alloc: Global) -> Result<Expr, NoMemory> {
    let number = Expr {
        at: at(3, 3),
        form: Form::Clafer(0),
    };
    let square = times_number(alloc, number, 5)?;
    let cube = times_number(alloc, square, 9)?;
    times_number(alloc, cube, 13)
}

fn is_below(n: usize, clafer: Option<u32>) -> bool
    ensures { result ≡ is_below n clafer }
{
    match clafer {
        Some(number) => (number as usize) < n,
        None => true,
    }
}

fn target(reference: Option<Reference>) -> Option<u32>
    ensures { result ≡ option_and_then (λ r. r.to) reference }
{
    match reference {
        Some(reference) => reference.to,
        None => None,
    }
}

fn names_below(n: usize, clafer: &Clafer) -> bool
    ensures { result ≡ names_below n clafer.now }
{
    is_below(n, clafer.parent) && is_below(n, clafer.above) && is_below(n, target(clafer.reference))
}

fn is_closed(clafers: &List<Clafer>) -> bool
    ensures { result ≡ is_closed clafers.now }
{
    clafers
        .as_slice()
        .iter()
        .all(|clafer| names_below(clafers.len(), clafer))
}

/// Whether it is one clafer without a super.
#[tactic(auto, using(crate::proofs::Alone::inherits_nothing))]
fn is_alone(clafers: &List<Clafer>) -> bool
    ensures few { IsTrue result → length clafers.now < 2 ^ 32 }
    ensures acyclic { IsTrue result → IsTrue (each clafers.now (λ c. not (inherits_itself clafers.now c))) }
{
    if clafers.len() != 1 {
        return false;
    }
    clafers.get(0).above.is_none()
}

#[test]
fn nothing_weighs_eight(rt: HostRuntime) -> Result<(), Fail> {
    let alloc = rt.alloc();
    let model = Typed::new(Named::new(Model {
        clafers: List::new(alloc),
        rules: List::new(alloc),
        goals: List::new(alloc),
    }));
    assert_eq!(rt; weigh(alloc, &model, &scopes(alloc, &[])?)?, 8);
    Ok(())
}

#[test]
fn one_clafer_weighs_89(rt: HostRuntime) -> Result<(), Fail> {
    let alloc = rt.alloc();
    let model = alone(alloc, top(alloc, 1, None))?;
    assert!(rt; is_alone(&model.clafers) && is_closed(&model.clafers));
    let known = model_known(alloc, &model, &scopes(alloc, &[1])?)?;
    assert_eq!(rt; known.weight, 89);
    Ok(())
}

#[test]
fn three_variables_over_many_nodes_are_heavy(rt: HostRuntime) -> Result<(), Fail> {
    let alloc = rt.alloc();
    let model = with_rule(alloc, top(alloc, 256, None), all_equal(alloc)?)?;
    assert!(rt; is_alone(&model.clafers) && is_closed(&model.clafers));
    let known = model_known(alloc, &model, &scopes(alloc, &[256])?)?;
    assert_eq!(rt; known.weight, 153_713_396_002);
    assert_eq!(rt; known.wide, None);
    Ok(())
}

#[test]
fn a_fourth_power_doubled_is_too_wide(rt: HostRuntime) -> Result<(), Fail> {
    let alloc = rt.alloc();
    let reference = Reference {
        at: at(1, 3),
        bag: false,
        to: None,
    };
    let body = is_zero(alloc, doubled(alloc, fourth_power(alloc)?, 17)?, 21)?;
    let model = with_rule(alloc, top(alloc, 1, Some(reference)), body)?;
    assert!(rt; is_alone(&model.clafers) && is_closed(&model.clafers));
    let mut range = scopes(alloc, &[1])?;
    range.low = -32768;
    range.high = 32767;
    let known = model_known(alloc, &model, &range)?;
    let wide = Refusal {
        code: 90,
        at: at(3, 17),
        value: 63,
    };
    assert_eq!(rt; known.wide, Some(wide));
    Ok(())
}
