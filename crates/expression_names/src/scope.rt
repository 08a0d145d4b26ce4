//! The variables that an expression sees.

ghost use Rattle.std.specs.Prelude.{◌≡◌, ◌++◌, length, IfOk};
ghost use Rattle.clf_tree.specs.Kinds as kinds;
ghost use Rattle.expression_names.specs.Scopes as spec;

use clf_base::{List, NoMemory};
use clf_tree::{Kind, Title, Within, clafers_of, copy_titles};
use std::alloc::Global;

/// The variables around an expression by their names, the innermost last, with the clafer of `this` and those of the variables.
#[derive(Debug, Drop)]
pub struct Scope {
    pub names: List<Title>,
    pub within: Within,
}

fn if_named(title: &Title, name: &List<u8>, inside: usize) -> Option<u32>
    ensures { result ≡ spec.if_named name.now title.now inside }
{
    if title.name.as_slice() != name.as_slice() {
        return None;
    }
    if inside > u32::MAX as usize {
        return None;
    }
    Some(inside as u32)
}

/// The innermost variable of a name, counted from the innermost one of all.
#[tactic(auto, using(crate::proofs::Variables::variable_steps))]
pub fn variable(names: &[Title], name: &List<u8>) -> Option<u32>
    ensures { result ≡ spec.variable names.now name.now }
{
    let mut found = None;
    for at in 0..names.len() {
        found = if_named(&names[at], name, names.len() - 1 - at).or(found);
    }
    found
}

fn names_within(
    alloc: Global,
    names: &List<Title>,
    more: &List<Title>,
) -> Result<List<Title>, NoMemory>
    ensures { IfOk result (λ all. all ≡ names.now ++ more.now) }
{
    let mut all = copy_titles(alloc, names)?;
    for title in more.as_slice() {
        all.push(title.copy(alloc)?)?;
    }
    Ok(all)
}

fn kinds_within(
    alloc: Global,
    within: &Within,
    ks: &List<u32>,
    names: usize,
) -> Result<Within, NoMemory>
    ensures { IfOk result (λ inner. inner ≡ kinds.bind_kinds ks.now names within.now) }
{
    let mut bound = List::new(alloc);
    for kind in within.bound.as_slice() {
        bound.push(kind.copy(alloc)?)?;
    }
    for _name in 0..names {
        bound.push(ks.copy(alloc)?)?;
    }
    Ok(Within {
        this: within.this,
        bound,
    })
}

/// Within a quantifier of these names over nodes of a kind. It copies what is bound.
#[tactic(auto, unfolding(crate::specs::Scopes::bind))]
pub fn bind(
    alloc: Global,
    scope: &Scope,
    names: &List<Title>,
    kind: Option<Kind>,
) -> Result<Scope, NoMemory>
    ensures bound { IfOk result (λ inner. inner ≡ spec.bind names.now kind scope.now) }
    ensures this { IfOk result (λ inner. inner.within.this ≡ scope.now.within.this) }
{
    let ks = clafers_of(alloc, kind);
    let within = kinds_within(alloc, &scope.within, &ks, names.len())?;
    Ok(Scope {
        names: names_within(alloc, &scope.names, names)?,
        within,
    })
}
