//! The walk over the items of a text that adds clafer by clafer, rule by rule and goal by goal.

ghost use Rattle.std.specs.Prelude.{◌≡◌, ◌<◌, ◌^◌, ◌+◌, [], length, OnOk, IfOk, Some, None, true, false};
ghost use Rattle.clafer_desugar.specs.PlainModel.{any, group_of, times_of, is_grouping, starts_with, with_clafer, with_rule, with_rules, with_start, with_goal, enum_clafer, member_clafer, with_members, add_item, add_declared, add_items, count_item, count_declared, count_items};
ghost use Rattle.clafer_desugar.specs.PlainModel as plain_model;

use clf_base::{List, NoMemory, Span};
use clf_tree::{
    Declared, Expr, Form, Goal, Interval, Item, Module, Plain, PlainClafer, Pointer, Rule, Start,
    Title,
};
use expression_copies::copy_expr;
use sqlite_items::Boxed;
use std::alloc::Global;

fn any() -> Interval
    ensures { result ≡ any }
{
    Interval { low: 0, high: None }
}

fn group_of(written: Option<Interval>) -> Interval
    ensures { result ≡ group_of written }
{
    match written {
        Some(group) => group,
        None => any(),
    }
}

fn is_grouping(group: Interval) -> bool
    ensures { result ≡ is_grouping group }
{
    !(group.low == 0 && group.high.is_none())
}

fn times_of(written: Option<Interval>, is_abstract: bool, grouped: bool) -> Interval
    ensures { result ≡ times_of written is_abstract grouped }
{
    match written {
        Some(times) => times,
        None => {
            if is_abstract {
                any()
            } else if grouped {
                Interval {
                    low: 0,
                    high: Some(1),
                }
            } else {
                Interval {
                    low: 1,
                    high: Some(1),
                }
            }
        }
    }
}

fn copy_title(alloc: Global, title: &Option<Title>) -> Result<Option<Title>, NoMemory>
    ensures { IfOk result (λ copy. copy ≡ title.now) }
{
    match title {
        Some(title) => Ok(Some(title.copy(alloc)?)),
        None => Ok(None),
    }
}

fn copy_pointer(alloc: Global, pointer: &Option<Pointer>) -> Result<Option<Pointer>, NoMemory>
    ensures { IfOk result (λ copy. copy ≡ pointer.now) }
{
    match pointer {
        Some(pointer) => Ok(Some(Pointer {
            at: pointer.at,
            bag: pointer.bag,
            to: copy_title(alloc, &pointer.to)?,
        })),
        None => Ok(None),
    }
}

/// `this.dref = body`.
fn starts_with(alloc: Global, start: &Start) -> Result<Expr, NoMemory>
    ensures { IfOk result (λ body. body ≡ starts_with start.now) }
{
    let this = Expr {
        at: start.at,
        form: Form::This,
    };
    let target = Expr {
        at: start.at,
        form: Form::Dref(Boxed::new(alloc, this)?),
    };
    let body = Boxed::new(alloc, copy_expr(alloc, &start.body)?)?;
    Ok(Expr {
        at: start.at,
        form: Form::Equal(Boxed::new(alloc, target)?, body),
    })
}

fn with_clafer(plain: &mut Plain, clafer: PlainClafer) -> Result<(), NoMemory>
    ensures { OnOk result (plain.new ≡ with_clafer clafer plain.old) }
{
    plain.clafers.push(clafer)?;
    Ok(())
}

fn with_rule(plain: &mut Plain, context: Option<u32>, body: Expr) -> Result<(), NoMemory>
    ensures { OnOk result (plain.new ≡ with_rule context body plain.old) }
{
    plain.rules.push(Rule { context, body })?;
    Ok(())
}

#[tactic(auto, using(crate::proofs::Counts::count_steps))]
fn with_rules(
    alloc: Global,
    plain: &mut Plain,
    context: Option<u32>,
    bodies: &List<Expr>,
) -> Result<(), NoMemory>
    ensures all { OnOk result (plain.new ≡ with_rules context bodies.now plain.old) }
    ensures counted { OnOk result (length plain.new.clafers ≡ length plain.old.clafers) }
{
    for body in bodies.as_slice() {
        with_rule(plain, context, copy_expr(alloc, body)?)?;
    }
    Ok(())
}

fn with_start(
    alloc: Global,
    plain: &mut Plain,
    context: Option<u32>,
    start: &Option<Start>,
) -> Result<(), NoMemory>
    ensures { OnOk result (plain.new ≡ with_start context start.now plain.old) }
{
    match start {
        Some(start) => with_rule(plain, context, starts_with(alloc, start)?),
        None => Ok(()),
    }
}

fn with_goal(
    alloc: Global,
    plain: &mut Plain,
    at: Span,
    least: bool,
    body: &Expr,
) -> Result<(), NoMemory>
    ensures { OnOk result (plain.new ≡ with_goal (record { at = at; least = least; body = body.now }) plain.old) }
{
    plain.goals.push(Goal {
        at,
        least,
        body: copy_expr(alloc, body)?,
    })?;
    Ok(())
}

fn enum_clafer(alloc: Global, plain: &mut Plain, at: Span, title: &Title) -> Result<(), NoMemory>
    ensures { OnOk result (plain.new ≡ enum_clafer at title.now plain.old) }
{
    let clafer = PlainClafer {
        at,
        title: title.copy(alloc)?,
        is_abstract: true,
        parent: None,
        above: None,
        group: any(),
        times: any(),
        reference: None,
    };
    with_clafer(plain, clafer)
}

fn member_clafer(
    alloc: Global,
    plain: &mut Plain,
    above: &Title,
    title: &Title,
) -> Result<(), NoMemory>
    ensures { OnOk result (plain.new ≡ member_clafer above.now title.now plain.old) }
{
    let clafer = PlainClafer {
        at: title.at,
        title: title.copy(alloc)?,
        is_abstract: false,
        parent: None,
        above: Some(above.copy(alloc)?),
        group: any(),
        times: Interval {
            low: 1,
            high: Some(1),
        },
        reference: None,
    };
    with_clafer(plain, clafer)
}

#[tactic(auto, using(crate::proofs::Counts::count_steps))]
fn with_members(
    alloc: Global,
    plain: &mut Plain,
    above: &Title,
    titles: &List<Title>,
) -> Result<(), NoMemory>
    ensures all { OnOk result (plain.new ≡ with_members above.now titles.now plain.old) }
    ensures counted { OnOk result (length plain.new.clafers ≡ length plain.old.clafers + length titles.now) }
{
    for title in titles.as_slice() {
        member_clafer(alloc, plain, above, title)?;
    }
    Ok(())
}

#[tactic(auto, using(crate::proofs::Counts::count_steps))]
#[cycle(walk)]
fn add_declared(
    alloc: Global,
    plain: &mut Plain,
    declared: &Declared,
    parent: Option<u32>,
    grouped: bool,
) -> Result<(), NoMemory>
    requires few { length plain.old.clafers + count_declared declared.now < 2 ^ 32 }
    ensures all { OnOk result (plain.new ≡ add_declared declared.now parent grouped plain.old) }
    ensures counted { OnOk result (length plain.new.clafers ≡ length plain.old.clafers + count_declared declared.now) }
{
    let number = plain.clafers.len() as u32;
    let group = group_of(declared.group);
    let clafer = PlainClafer {
        at: declared.at,
        title: declared.title.copy(alloc)?,
        is_abstract: declared.is_abstract,
        parent,
        above: copy_title(alloc, &declared.above)?,
        group,
        times: times_of(declared.times, declared.is_abstract, grouped),
        reference: copy_pointer(alloc, &declared.reference)?,
    };
    with_clafer(plain, clafer)?;
    with_start(alloc, plain, Some(number), &declared.start)?;
    for item in declared.items.as_slice() {
        add_item(alloc, plain, item, Some(number), is_grouping(group))?;
    }
    Ok(())
}

#[tactic(auto, using(crate::proofs::Counts::count_steps))]
#[cycle(walk)]
fn add_item(
    alloc: Global,
    plain: &mut Plain,
    item: &Item,
    parent: Option<u32>,
    grouped: bool,
) -> Result<(), NoMemory>
    requires few { length plain.old.clafers + count_item item.now < 2 ^ 32 }
    ensures all { OnOk result (plain.new ≡ add_item item.now parent grouped plain.old) }
    ensures counted { OnOk result (length plain.new.clafers ≡ length plain.old.clafers + count_item item.now) }
{
    match item {
        Item::Clafer(declared) => add_declared(alloc, plain, declared.get(), parent, grouped),
        Item::Enum { at, title, members } => {
            enum_clafer(alloc, plain, *at, title)?;
            with_members(alloc, plain, title, members)
        }
        Item::Constraint { parts, .. } => with_rules(alloc, plain, parent, parts),
        Item::Goal { at, least, body } => with_goal(alloc, plain, *at, *least, body),
    }
}

/// The plain model of a text.
pub fn plain_of(alloc: Global, text: &Module) -> Result<Plain, NoMemory>
    requires few { count_items text.now.items < 2 ^ 32 }
    ensures { IfOk result (λ plain. plain ≡ plain_model.plain_of text.now) }
{
    let mut plain = Plain {
        clafers: List::new(alloc),
        rules: List::new(alloc),
        goals: List::new(alloc),
    };
    for item in text.items.as_slice() {
        add_item(alloc, &mut plain, item, None, false)?;
    }
    Ok(plain)
}
