ghost use Rattle.std.specs.Prelude.{◌≡◌, ◌≤◌, sum};
ghost use Rattle.std.specs.Option.{option_and_then};
ghost use Rattle.clf_tree.specs.Hierarchy.{is_below, is_closed, names_below};

use crate::layout;
use bool_circuit::Circuit;
use clf_base::{List, NoMemory, Span};
use clf_tree::{Clafer, CoreModel, Interval, Reference, Scopes, Title};
use set_bits::Layout;
use std::alloc::Global;
use std::test::Fail;

const HERE: Span = Span { line: 0, column: 0 };

// ---- what the layouts are made of

fn clafer(
    alloc: Global,
    is_abstract: bool,
    parent: Option<u32>,
    above: Option<u32>,
    reference: Option<Reference>,
) -> Clafer {
    Clafer {
        title: Title {
            name: List::new(alloc),
            at: HERE,
        },
        is_abstract,
        parent,
        above,
        group: Interval { low: 0, high: None },
        times: Interval { low: 0, high: None },
        reference,
    }
}

fn refers(to: Option<u32>) -> Option<Reference> {
    Some(Reference {
        at: HERE,
        bag: false,
        to,
    })
}

fn core(alloc: Global, clafers: List<Clafer>) -> CoreModel
    ensures { result.clafers ≡ clafers }
{
    CoreModel {
        clafers,
        truths: List::new(alloc),
        goals: List::new(alloc),
    }
}

fn is_below(n: usize, clafer: Option<u32>) -> bool
    ensures { result ≡ is_below n clafer }
{
    match clafer {
        Some(clafer) => (clafer as usize) < n,
        None => true,
    }
}

fn target(reference: Option<Reference>) -> Option<u32>
    ensures { result ≡ option_and_then (λ r. r.to) reference }
{
    match reference {
        Some(reference) => reference.to,
        None => None,
    }
}

fn names_below(n: usize, clafer: &Clafer) -> bool
    ensures { result ≡ names_below n clafer.now }
{
    is_below(n, clafer.parent) && is_below(n, clafer.above) && is_below(n, target(clafer.reference))
}

fn is_closed(clafers: &List<Clafer>) -> bool
    ensures { result ≡ is_closed clafers.now }
{
    clafers
        .as_slice()
        .iter()
        .all(|clafer| names_below(clafers.len(), clafer))
}

// The layout of a model within the scopes, if these fit, and the number of wires of its circuit.
fn laid_out(
    alloc: Global,
    clafers: List<Clafer>,
    scopes: &Scopes,
) -> Result<Option<(Layout, u32)>, NoMemory>
    requires { sum scopes.now.of ≤ 2048 }
{
    let model = core(alloc, clafers);
    if model.clafers.len() != scopes.of.len() || model.clafers.len() > 2048 {
        return Ok(None);
    }
    if !is_closed(&model.clafers) {
        return Ok(None);
    }
    let mut circuit = Circuit::new(alloc);
    let layout = layout(alloc, &mut circuit, &model, scopes)?;
    Ok(Some((layout, circuit.len())))
}

// ---- a small model

// abstract part, under it cost -> int; engine and wheel are parts; use -> part
fn parts(alloc: Global) -> Result<List<Clafer>, NoMemory> {
    let mut clafers = List::new(alloc);
    clafers.push(clafer(alloc, true, None, None, None))?;
    clafers.push(clafer(alloc, false, Some(0), None, refers(None)))?;
    clafers.push(clafer(alloc, false, None, Some(0), None))?;
    clafers.push(clafer(alloc, false, None, Some(0), None))?;
    clafers.push(clafer(alloc, false, None, None, refers(Some(0))))?;
    Ok(clafers)
}

#[test]
fn a_child_of_an_abstract_clafer_can_be_under_each_heir(rt: HostRuntime) -> Result<(), Fail> {
    let alloc = rt.alloc();
    let scopes = Scopes {
        of: List::from_slice(alloc, &[0, 1, 1, 2, 1])?,
        low: -2048,
        high: 2047,
    };
    let Some((layout, wires)) = laid_out(alloc, parts(alloc)?, &scopes)? else {
        assert!(rt; false);
        return Ok(());
    };
    // cost, engine, two wheels, use
    assert_eq!(rt; layout.slots.len(), 5);
    // cost under the engine and each wheel
    assert_eq!(rt; layout.parents.len(), 3);
    // use refers to the engine or a wheel
    assert_eq!(rt; layout.targets.len(), 3);
    // one integer of twelve bits
    assert_eq!(rt; layout.values.len(), 1);
    assert_eq!(rt; layout.values.get(0).bits.len(), 12);
    assert_eq!(rt; wires, 5 + 3 + 3 + 12);
    Ok(())
}
