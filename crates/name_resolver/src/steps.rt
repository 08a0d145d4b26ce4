//! How what a name means is written as steps.

ghost use Rattle.std.specs.Prelude.{◌≡◌, ◌<◌, ◌^◌, [], ◌∷◌, length, IfOk, IsTrue, Some, None, true, false};
ghost use Rattle.std.specs.Option.{option_map};
ghost use Rattle.clf_tree.specs.Hierarchy.{is_closed};
ghost use Rattle.clf_tree.specs.Tree.{tree};
ghost use Rattle.name_resolver.specs.Steps.{outwards, downwards, step, to_parent, steps_of};
ghost use Rattle.name_resolver.specs.Levels.{named, step_down};

use crate::levels::step_down;
use crate::nearest::is_named;
use clf_base::{List, NoMemory, Span};
use clf_tree::{Clafer, Expr, Form};
use sqlite_items::Boxed;
use std::alloc::Global;

/// What a name means: a variable, counted from the innermost; a way down from so many parents up; or a clafer at top level.
#[derive(Debug, Drop)]
pub enum Meant {
    Variable(u32),
    Below { out: u32, way: List<u32> },
    Top(u32),
}

fn to_parent(alloc: Global, at: Span, of: Expr) -> Result<Expr, NoMemory>
    ensures { IfOk result (λ x. tree x ≡ to_parent at (tree of)) }
{
    Ok(Expr {
        at,
        form: Form::Parent(Boxed::new(alloc, of)?),
    })
}

fn outwards(alloc: Global, at: Span, out: u32, from: Expr) -> Result<Expr, NoMemory>
    ensures { IfOk result (λ x. tree x ≡ outwards at out (tree from)) }
{
    let mut expr = from;
    for _step in 0..out {
        expr = to_parent(alloc, at, expr)?;
    }
    Ok(expr)
}

fn step(alloc: Global, at: Span, of: Expr, into: List<u32>, follow: bool) -> Result<Expr, NoMemory>
    ensures { IfOk result (λ x. tree x ≡ step at (tree of) into follow) }
{
    Ok(Expr {
        at,
        form: Form::Step {
            of: Boxed::new(alloc, of)?,
            into,
            follow,
        },
    })
}

// The list of one clafer.
fn only(alloc: Global, clafer: u32) -> Result<List<u32>, NoMemory>
    ensures { IfOk result (λ ks. ks ≡ clafer ∷ []) }
{
    let mut ks = List::new(alloc);
    ks.push(clafer)?;
    Ok(ks)
}

fn downwards(alloc: Global, at: Span, way: &List<u32>, from: Expr) -> Result<Expr, NoMemory>
    ensures { IfOk result (λ x. tree x ≡ downwards at way.now (tree from)) }
{
    let mut expr = from;
    for clafer in way.as_slice() {
        expr = step(alloc, at, expr, only(alloc, *clafer)?, false)?;
    }
    Ok(expr)
}

/// What a name means, as steps.
pub fn steps_of(alloc: Global, at: Span, meant: &Meant) -> Result<Expr, NoMemory>
    ensures { IfOk result (λ x. tree x ≡ steps_of at meant.now) }
{
    match meant {
        Meant::Variable(variable) => Ok(Expr {
            at,
            form: Form::Variable(*variable),
        }),
        Meant::Below { out, way } => {
            let this = Expr {
                at,
                form: Form::This,
            };
            let from = outwards(alloc, at, *out, this)?;
            downwards(alloc, at, way, from)
        }
        Meant::Top(clafer) => Ok(Expr {
            at,
            form: Form::Clafer(*clafer),
        }),
    }
}

/// The children of a name of the given clafers, in the order of the model. It goes over all clafers.
#[tactic(auto, using(crate::proofs::Among::named_steps))]
pub fn children_named(
    alloc: Global,
    clafers: &List<Clafer>,
    name: &List<u8>,
    ks: &List<u32>,
) -> Result<List<u32>, NoMemory>
    requires closed { IsTrue (is_closed clafers.now) }
    requires few { length clafers.now < 2 ^ 32 }
    ensures { IfOk result (λ found. found ≡ named clafers.now name.now (step_down clafers.now ks.now)) }
{
    let next = step_down(alloc, clafers, ks)?;
    let mut found = List::new(alloc);
    for child in next.as_slice() {
        if is_named(clafers, name, *child) {
            found.push(*child)?;
        }
    }
    Ok(found)
}
