ghost use Rattle.std.specs.Prelude.{◌≡◌, ◌+◌, IfOk};
ghost use Rattle.clafer_desugar.specs.PlainModel.{count_item, count_items, count_declared};

use crate::plain;
use clf_base::{Fault, List, NoMemory, Refusal, Span};
use clf_tree::{Declared, Expr, Form, Interval, Item, Module, Start, Title};
use sqlite_items::Boxed;
use std::alloc::Global;
use std::test::Fail;

fn at(line: u32, column: u32) -> Span {
    Span { line, column }
}

fn title(alloc: Global, name: &[u8], place: Span) -> Result<Title, NoMemory> {
    Ok(Title {
        name: List::from_slice(alloc, name)?,
        at: place,
    })
}

// A clafer with these items below it.
#[tactic(auto, using(crate::proofs::Counts::count_steps))]
fn clafer(alloc: Global, name: &[u8], place: Span, items: List<Item>) -> Result<Declared, NoMemory>
    ensures { IfOk result (λ d. count_declared d ≡ 1 + count_items items) }
{
    Ok(Declared {
        at: place,
        is_abstract: false,
        group: None,
        title: title(alloc, name, place)?,
        above: None,
        reference: None,
        times: None,
        start: None,
        items,
    })
}

fn none(alloc: Global) -> List<Item>
    ensures { count_items result ≡ 0 }
{
    List::new(alloc)
}

fn one(alloc: Global, a: Declared) -> Result<List<Item>, NoMemory>
    ensures { IfOk result (λ items. count_items items ≡ count_declared a) }
{
    let mut items = List::new(alloc);
    items.push(Item::Clafer(Boxed::new(alloc, a)?))?;
    Ok(items)
}

fn two(alloc: Global, a: Declared, b: Declared) -> Result<List<Item>, NoMemory>
    ensures { IfOk result (λ items. count_items items ≡ count_declared a + count_declared b) }
{
    let mut items = one(alloc, a)?;
    items.push(Item::Clafer(Boxed::new(alloc, b)?))?;
    Ok(items)
}

fn refusal(code: u16, at: Span, value: u64) -> Option<Fault> {
    Some(Fault::Refused(Refusal { code, at, value }))
}

#[test]
fn a_name_may_stand_below_itself(rt: HostRuntime) -> Result<(), Fail> {
    let alloc = rt.alloc();
    let inner = clafer(alloc, b"a", at(2, 5), none(alloc))?;
    let outer = clafer(alloc, b"a", at(1, 1), one(alloc, inner)?)?;
    let text = Module {
        items: one(alloc, outer)?,
    };
    let model = plain(alloc, &text).ok().ok_or("refused")?;
    assert_eq!(rt; model.clafers.len(), 2);
    assert_eq!(rt; model.clafers.get(1).parent, Some(0));
    Ok(())
}

#[test]
fn a_name_may_not_stand_beside_itself(rt: HostRuntime) -> Result<(), Fail> {
    let alloc = rt.alloc();
    let first = clafer(alloc, b"a", at(1, 1), none(alloc))?;
    let second = clafer(alloc, b"a", at(2, 1), none(alloc))?;
    let text = Module {
        items: two(alloc, first, second)?,
    };
    assert_eq!(rt; plain(alloc, &text).err(), refusal(51, at(2, 1), 0));
    Ok(())
}

// a 3..2
fn many(alloc: Global) -> Result<Declared, NoMemory>
    ensures { IfOk result (λ d. count_declared d ≡ 1) }
{
    let mut a = clafer(alloc, b"a", at(1, 1), none(alloc))?;
    a.times = Some(Interval {
        low: 3,
        high: Some(2),
    });
    Ok(a)
}

#[test]
fn a_low_bound_above_the_high_one_is_refused(rt: HostRuntime) -> Result<(), Fail> {
    let alloc = rt.alloc();
    let many = many(alloc)?;
    let text = Module {
        items: one(alloc, many)?,
    };
    assert_eq!(rt; plain(alloc, &text).err(), refusal(50, at(1, 1), 3));
    Ok(())
}

fn number(value: u32, at: Span) -> Expr {
    Expr {
        at,
        form: Form::Literal(value),
    }
}

// xor a = 7 with b below it
fn choice(alloc: Global) -> Result<Declared, NoMemory>
    ensures { IfOk result (λ d. count_declared d ≡ 2) }
{
    let b = clafer(alloc, b"b", at(2, 5), none(alloc))?;
    let mut a = clafer(alloc, b"a", at(1, 5), one(alloc, b)?)?;
    a.group = Some(Interval {
        low: 1,
        high: Some(1),
    });
    a.start = Some(Start {
        at: at(1, 7),
        body: number(7, at(1, 9)),
    });
    Ok(a)
}

#[test]
fn a_clafer_in_a_group_may_be_left_out(rt: HostRuntime) -> Result<(), Fail> {
    let alloc = rt.alloc();
    let text = Module {
        items: one(alloc, choice(alloc)?)?,
    };
    let model = plain(alloc, &text).ok().ok_or("refused")?;
    assert_eq!(rt; model.clafers.len(), 2);
    let one = Some(1);
    assert_eq!(rt; model.clafers.get(0).times, Interval { low: 1, high: one });
    assert_eq!(rt; model.clafers.get(1).times, Interval { low: 0, high: one });
    assert_eq!(rt; model.rules.len(), 1);
    assert_eq!(rt; model.rules.get(0).context, Some(0));
    assert_eq!(rt; model.rules.get(0).body.at, at(1, 7));
    Ok(())
}

// enum a = b
fn enumeration(alloc: Global) -> Result<List<Item>, NoMemory>
    ensures { IfOk result (λ items. count_items items ≡ 2) }
{
    let mut members = List::new(alloc);
    members.push(title(alloc, b"b", at(1, 10))?)?;
    let item = Item::Enum {
        at: at(1, 1),
        title: title(alloc, b"a", at(1, 6))?,
        members,
    };
    let mut items = List::new(alloc);
    items.push(item)?;
    Ok(items)
}

#[test]
fn a_member_of_an_enum_inherits_from_it(rt: HostRuntime) -> Result<(), Fail> {
    let alloc = rt.alloc();
    let text = Module {
        items: enumeration(alloc)?,
    };
    let model = plain(alloc, &text).ok().ok_or("refused")?;
    assert_eq!(rt; model.clafers.len(), 2);
    assert!(rt; model.clafers.get(0).is_abstract);
    let above = model.clafers.get(1).above.as_ref().ok_or("no super")?;
    assert_eq!(rt; above.name.as_slice(), b"a".as_slice());
    Ok(())
}
