ghost use Rattle.std.specs.Prelude.{◌≡◌, ◌<◌, ◌^◌, length, IsTrue};
ghost use Rattle.std.specs.Option.{option_and_then};
ghost use Rattle.clf_tree.specs.Hierarchy.{is_below, is_closed, names_below};

use crate::{
    Clafer, Entry, Expr, Form, Instance, Interval, Kind, Model, Node, Reading, Reference, Sign,
    Title, Token, TokenKind, Within, copy_titles, is_a, kind_of, owners, reading_of, sign_of,
};
use clf_base::{List, Span};
use sqlite_items::Boxed;
use std::alloc::{AllocError, Global};
use std::test::Fail;

const HERE: Span = Span { line: 0, column: 0 };

fn clafer(alloc: Global, parent: Option<u32>, above: Option<u32>, is_abstract: bool) -> Clafer {
    Clafer {
        title: Title {
            name: List::new(alloc),
            at: HERE,
        },
        is_abstract,
        parent,
        above,
        group: Interval { low: 0, high: None },
        times: Interval { low: 0, high: None },
        reference: None,
    }
}

// abstract Part, under it cost -> int; lens : Part, case : Part
fn parts(alloc: Global) -> Result<Model, Fail> {
    let mut clafers = List::new(alloc);
    clafers.push(clafer(alloc, None, None, true))?;
    let mut cost = clafer(alloc, Some(0), None, false);
    cost.reference = Some(Reference {
        at: HERE,
        bag: false,
        to: None,
    });
    clafers.push(cost)?;
    clafers.push(clafer(alloc, None, Some(0), false))?;
    clafers.push(clafer(alloc, None, Some(0), false))?;
    Ok(Model {
        clafers,
        rules: List::new(alloc),
        goals: List::new(alloc),
    })
}

fn boxed(alloc: Global, form: Form) -> Result<Boxed<Expr>, AllocError> {
    Boxed::new(alloc, Expr { at: HERE, form })
}

fn is_below(n: usize, clafer: Option<u32>) -> bool
    ensures { result ≡ is_below n clafer }
{
    match clafer {
        Some(number) => (number as usize) < n,
        None => true,
    }
}

fn target(reference: Option<Reference>) -> Option<u32>
    ensures { result ≡ option_and_then (λ r. r.to) reference }
{
    match reference {
        Some(reference) => reference.to,
        None => None,
    }
}

fn names_below(n: usize, clafer: &Clafer) -> bool
    ensures { result ≡ names_below n clafer.now }
{
    is_below(n, clafer.parent) && is_below(n, clafer.above) && is_below(n, target(clafer.reference))
}

fn is_closed(clafers: &List<Clafer>) -> bool
    ensures { result ≡ is_closed clafers.now }
{
    clafers
        .as_slice()
        .iter()
        .all(|clafer| names_below(clafers.len(), clafer))
}

#[test]
fn an_inherited_child_has_an_owner_for_each_heir(rt: HostRuntime) -> Result<(), Fail> {
    let alloc = rt.alloc();
    let model = parts(alloc)?;
    assert!(rt; model.clafers.len() == 4 && is_closed(&model.clafers));
    assert!(rt; is_a(&model.clafers, 2, 0));
    assert!(rt; !is_a(&model.clafers, 0, 2));
    let found = owners(alloc, &model.clafers, 1)?;
    assert_eq!(rt; found.as_slice(), [2, 3].as_slice());
    Ok(())
}

// The kind of an expression at top level.
fn kind_outside(alloc: Global, model: &Model, form: Form) -> Result<Option<Kind>, Fail>
    requires closed { IsTrue (is_closed model.now.clafers) }
    requires few { length model.now.clafers < 2 ^ 32 }
{
    let within = Within {
        this: None,
        bound: List::new(alloc),
    };
    Ok(kind_of(alloc, model, &within, &Expr { at: HERE, form })?)
}

#[test]
fn kinds_follow_references(rt: HostRuntime) -> Result<(), Fail> {
    let alloc = rt.alloc();
    let model = parts(alloc)?;
    assert!(rt; model.clafers.len() == 4 && is_closed(&model.clafers));
    let step = Form::Step {
        of: boxed(alloc, Form::Clafer(2))?,
        into: List::from_slice(alloc, &[1])?,
        follow: false,
    };
    let costs = kind_outside(alloc, &model, step)?;
    assert!(rt; matches!(&costs, Some(Kind::Nodes(ks)) if ks.as_slice() == [1].as_slice()));
    let dref = kind_outside(alloc, &model, Form::Dref(boxed(alloc, Form::Clafer(1))?))?;
    assert!(rt; matches!(&dref, Some(Kind::Numbers(_))));
    let parents = kind_outside(alloc, &model, Form::Parent(boxed(alloc, Form::Clafer(1))?))?;
    assert!(rt; matches!(&parents, Some(Kind::Nodes(ks)) if ks.as_slice() == [0].as_slice()));
    let unshared = Form::Equal(
        boxed(alloc, Form::Clafer(2))?,
        boxed(alloc, Form::Clafer(3))?,
    );
    assert!(rt; kind_outside(alloc, &model, unshared)?.is_none());
    let reading = reading_of(alloc, &model.clafers, &costs, &costs)?;
    assert_eq!(rt; reading, Some(Reading::ByValues));
    Ok(())
}

#[test]
fn instances_and_copies_are_made(rt: HostRuntime) -> Result<(), Fail> {
    let alloc = rt.alloc();
    let mut instance = Instance::new(alloc);
    let entry = Entry {
        node: Node {
            clafer: 0,
            number: 0,
        },
        parent: None,
        target: None,
    };
    instance.add(entry)?;
    assert_eq!(rt; instance.entries.as_slice(), [entry].as_slice());
    let mut titles = List::new(alloc);
    titles.push(Title {
        name: List::from_slice(alloc, b"a")?,
        at: HERE,
    })?;
    assert_eq!(rt; copy_titles(alloc, &titles)?.len(), 1);
    assert_eq!(rt; sign_of(b"->>"), Some(Sign::BagArrow));
    let token = Token {
        kind: TokenKind::Name(List::from_slice(alloc, b"a")?),
        at: HERE,
        from: 0,
        to: 1,
    };
    assert_eq!(rt; token.copy(alloc)?.to, 1);
    Ok(())
}
