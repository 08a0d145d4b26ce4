//! Sets of nodes of finished parts, with their kinds.

ghost use Rattle.std.specs.Prelude.{◌≡◌, ◌&&◌, ◌<◌, ◌^◌, Some, None, [], ◌∷◌, length, IfOk, IsTrue};
ghost use Rattle.std.specs.Option.{option_map};
ghost use Rattle.clf_tree.specs.Hierarchy.{is_closed};
ghost use Rattle.clf_tree.specs.Lists.{from_end};
ghost use Rattle.clf_tree.specs.Core.{core};
ghost use Rattle.clf_tree.specs.Kinds.{clafers_of, parent_kind, parents_of, dref_kind, union_kind, left_kind, compared_kind, reading_of};
ghost use Rattle.clf_tree.specs.declared.kind.Kind.TheVariants as kinds;
ghost use Rattle.relational_core.specs.Lowered.{every, down, up, union, minus, meet, dref, through, bound_node, same, part, kind_interval};
ghost use Rattle.relational_core.specs.Choices.{is_set_kind};

use crate::node_forms::{bound_node, down, dref, every, meet, minus, through, union, up};
use crate::places::Place;
use crate::sides::{Side, Sides, set_side};
use crate::truth_forms::{part, same};
use clf_base::{List, NoMemory};
use clf_tree::{
    Clafer, Kind, Reading, Scopes, clafers_of, dref_kind, left_kind, parent_kind, parents_of,
    reading_of, this_kind, union_kind, variable_kind,
};
use sqlite_items::Boxed;
use std::alloc::Global;

/// The node of `this`, which is bound before all variables.
pub fn this_side(
    alloc: Global,
    clafers: &List<Clafer>,
    scopes: &Scopes,
    place: &Place,
) -> Result<Side, NoMemory>
    requires closed { IsTrue (is_closed clafers.now) }
    requires few { length clafers.now < 2 ^ 32 }
    ensures kind { IfOk result (λ r. r.kind ≡ option_map (λ c. kinds.Nodes (c ∷ [])) place.now.within.this) }
    ensures bounds { IfOk result (λ r. r.bounds ≡ kind_interval clafers.now scopes.now r.kind) }
    ensures expr { IfOk result (λ r. core r.expr ≡ bound_node place.now.lists (length place.now.within.bound)) }
{
    let expr = bound_node(alloc, &place.lists, place.within.bound.len())?;
    let kind = this_kind(alloc, place.within.this)?;
    Ok(set_side(clafers, scopes, kind, expr))
}

/// The node of a variable, counted from the innermost.
pub fn variable_side(
    alloc: Global,
    clafers: &List<Clafer>,
    scopes: &Scopes,
    place: &Place,
    variable: u32,
) -> Result<Side, NoMemory>
    requires closed { IsTrue (is_closed clafers.now) }
    requires few { length clafers.now < 2 ^ 32 }
    ensures kind { IfOk result (λ r. r.kind ≡ option_map (λ ks. kinds.Nodes ks) (from_end place.now.within.bound variable)) }
    ensures bounds { IfOk result (λ r. r.bounds ≡ kind_interval clafers.now scopes.now r.kind) }
    ensures expr { IfOk result (λ r. core r.expr ≡ bound_node place.now.lists variable) }
{
    let expr = bound_node(alloc, &place.lists, variable as usize)?;
    let kind = variable_kind(alloc, &place.within, variable)?;
    Ok(set_side(clafers, scopes, kind, expr))
}

/// All instances of a clafer.
pub fn clafer_side(
    alloc: Global,
    clafers: &List<Clafer>,
    scopes: &Scopes,
    clafer: u32,
) -> Result<Side, NoMemory>
    requires closed { IsTrue (is_closed clafers.now) }
    requires few { length clafers.now < 2 ^ 32 }
    ensures kind { IfOk result (λ r. r.kind ≡ Some (kinds.Nodes (clafer ∷ []))) }
    ensures bounds { IfOk result (λ r. r.bounds ≡ kind_interval clafers.now scopes.now r.kind) }
    ensures expr { IfOk result (λ r. core r.expr ≡ every clafers.now scopes.now (clafer ∷ [])) }
{
    let mut only = List::new(alloc);
    only.push(clafer)?;
    let expr = every(alloc, clafers, scopes, &only)?;
    Ok(set_side(clafers, scopes, Some(Kind::Nodes(only)), expr))
}

/// A name that is not looked up has no kind and no node.
pub fn unknown_side(
    alloc: Global,
    clafers: &List<Clafer>,
    scopes: &Scopes,
) -> Result<Side, NoMemory>
    requires closed { IsTrue (is_closed clafers.now) }
    requires few { length clafers.now < 2 ^ 32 }
    ensures kind { IfOk result (λ r. r.kind ≡ None) }
    ensures bounds { IfOk result (λ r. r.bounds ≡ kind_interval clafers.now scopes.now r.kind) }
    ensures expr { IfOk result (λ r. core r.expr ≡ every clafers.now scopes.now []) }
{
    let nothing = List::new(alloc);
    let expr = every(alloc, clafers, scopes, &nothing)?;
    Ok(set_side(clafers, scopes, None, expr))
}

pub fn step_side(
    alloc: Global,
    clafers: &List<Clafer>,
    scopes: &Scopes,
    of: Side,
    into: &List<u32>,
    is_followed: bool,
) -> Result<Side, NoMemory>
    requires closed { IsTrue (is_closed clafers.now) }
    requires few { length clafers.now < 2 ^ 32 }
    ensures kind { IfOk result (λ r. r.kind ≡ Some (kinds.Nodes into.now)) }
    ensures bounds { IfOk result (λ r. r.bounds ≡ kind_interval clafers.now scopes.now r.kind) }
    ensures expr { IfOk result (λ r. core r.expr ≡ down clafers.now scopes.now into.now (through clafers.now scopes.now is_followed (core of.expr))) }
{
    let Side {
        kind: _,
        bounds: _,
        expr,
    } = of;
    let from = through(alloc, clafers, scopes, is_followed, expr)?;
    let expr = down(alloc, clafers, scopes, into, from)?;
    let kind = Some(Kind::Nodes(into.copy(alloc)?));
    Ok(set_side(clafers, scopes, kind, expr))
}

fn parents_kind(
    alloc: Global,
    clafers: &List<Clafer>,
    kind: Option<Kind>,
) -> Result<Option<Kind>, NoMemory>
    requires closed { IsTrue (is_closed clafers.now) }
    requires few { length clafers.now < 2 ^ 32 }
    ensures { IfOk result (λ k. k ≡ parent_kind (parents_of clafers.now (clafers_of kind))) }
{
    let parents = parents_of(alloc, clafers, &clafers_of(alloc, kind))?;
    Ok(parent_kind(parents))
}

pub fn parent_side(
    alloc: Global,
    clafers: &List<Clafer>,
    scopes: &Scopes,
    of: Side,
) -> Result<Side, NoMemory>
    requires closed { IsTrue (is_closed clafers.now) }
    requires few { length clafers.now < 2 ^ 32 }
    ensures kind { IfOk result (λ r. r.kind ≡ parent_kind (parents_of clafers.now (clafers_of of.kind))) }
    ensures bounds { IfOk result (λ r. r.bounds ≡ kind_interval clafers.now scopes.now r.kind) }
    ensures expr { IfOk result (λ r. core r.expr ≡ up clafers.now scopes.now (core of.expr)) }
{
    let Side {
        kind,
        bounds: _,
        expr,
    } = of;
    let expr = up(alloc, clafers, scopes, expr)?;
    let kind = parents_kind(alloc, clafers, kind)?;
    Ok(set_side(clafers, scopes, kind, expr))
}

pub fn dref_side(
    alloc: Global,
    clafers: &List<Clafer>,
    scopes: &Scopes,
    of: Side,
) -> Result<Side, NoMemory>
    requires closed { IsTrue (is_closed clafers.now) }
    requires few { length clafers.now < 2 ^ 32 }
    ensures kind { IfOk result (λ r. r.kind ≡ dref_kind clafers.now of.kind) }
    ensures bounds { IfOk result (λ r. r.bounds ≡ kind_interval clafers.now scopes.now r.kind) }
    ensures expr { IfOk result (λ r. core r.expr ≡ dref clafers.now scopes.now (dref_kind clafers.now of.kind) (core of.expr)) }
{
    let Side {
        kind,
        bounds: _,
        expr,
    } = of;
    let kind = dref_kind(alloc, clafers, kind)?;
    let expr = dref(alloc, clafers, scopes, &kind, expr)?;
    Ok(set_side(clafers, scopes, kind, expr))
}

/// The two expressions, and the kind of `+` on sets.
pub fn union_side(
    alloc: Global,
    clafers: &List<Clafer>,
    scopes: &Scopes,
    sides: Sides,
) -> Result<Side, NoMemory>
    requires closed { IsTrue (is_closed clafers.now) }
    requires few { length clafers.now < 2 ^ 32 }
    ensures kind { IfOk result (λ r. r.kind ≡ union_kind sides.left.kind sides.right.kind) }
    ensures bounds { IfOk result (λ r. r.bounds ≡ kind_interval clafers.now scopes.now r.kind) }
    ensures expr { IfOk result (λ r. core r.expr ≡ union clafers.now scopes.now (core sides.left.expr) (core sides.right.expr)) }
{
    let Sides { left, right } = sides;
    let expr = union(alloc, clafers, scopes, left.expr, right.expr)?;
    let kind = union_kind(left.kind, right.kind)?;
    Ok(set_side(clafers, scopes, kind, expr))
}

pub fn minus_side(
    alloc: Global,
    clafers: &List<Clafer>,
    scopes: &Scopes,
    sides: Sides,
) -> Result<Side, NoMemory>
    requires closed { IsTrue (is_closed clafers.now) }
    requires few { length clafers.now < 2 ^ 32 }
    ensures kind { IfOk result (λ r. r.kind ≡ left_kind clafers.now sides.left.kind sides.right.kind) }
    ensures bounds { IfOk result (λ r. r.bounds ≡ kind_interval clafers.now scopes.now r.kind) }
    ensures expr { IfOk result (λ r. core r.expr ≡ minus (core sides.left.expr) (core sides.right.expr)) }
{
    let Sides { left, right } = sides;
    let expr = minus(alloc, left.expr, right.expr)?;
    let kind = left_kind(clafers, left.kind, right.kind);
    Ok(set_side(clafers, scopes, kind, expr))
}

pub fn meet_side(
    alloc: Global,
    clafers: &List<Clafer>,
    scopes: &Scopes,
    sides: Sides,
) -> Result<Side, NoMemory>
    requires closed { IsTrue (is_closed clafers.now) }
    requires few { length clafers.now < 2 ^ 32 }
    ensures kind { IfOk result (λ r. r.kind ≡ left_kind clafers.now sides.left.kind sides.right.kind) }
    ensures bounds { IfOk result (λ r. r.bounds ≡ kind_interval clafers.now scopes.now r.kind) }
    ensures expr { IfOk result (λ r. core r.expr ≡ meet clafers.now scopes.now (core sides.left.expr) (core sides.right.expr)) }
{
    let Sides { left, right } = sides;
    let expr = meet(alloc, clafers, scopes, left.expr, right.expr)?;
    let kind = left_kind(clafers, left.kind, right.kind);
    Ok(set_side(clafers, scopes, kind, expr))
}

fn are_sets(left: &Option<Kind>, right: &Option<Kind>) -> bool
    ensures { result ≡ (is_set_kind left.now && is_set_kind right.now) }
{
    matches!(left, Some(Kind::Nodes(_))) && matches!(right, Some(Kind::Nodes(_)))
}

/// The kind of `=` and `in`, which have none where two sets of nodes have no reading.
#[tactic(auto, using(crate::proofs::Comparing::compared))]
fn compared_kind(
    clafers: &List<Clafer>,
    left: &Option<Kind>,
    right: &Option<Kind>,
    reading: Option<Reading>,
) -> Option<Kind>
    requires { reading ≡ reading_of clafers.now left.now right.now }
    ensures { result ≡ compared_kind clafers.now left.now right.now }
{
    if reading.is_none() && are_sets(left, right) {
        return None;
    }
    Some(Kind::Truth)
}

pub fn same_side(
    alloc: Global,
    clafers: &List<Clafer>,
    scopes: &Scopes,
    sides: Sides,
) -> Result<Side, NoMemory>
    requires closed { IsTrue (is_closed clafers.now) }
    requires few { length clafers.now < 2 ^ 32 }
    ensures kind { IfOk result (λ r. r.kind ≡ compared_kind clafers.now sides.left.kind sides.right.kind) }
    ensures bounds { IfOk result (λ r. r.bounds ≡ kind_interval clafers.now scopes.now r.kind) }
    ensures expr { IfOk result (λ r. core r.expr ≡ same clafers.now scopes.now (reading_of clafers.now sides.left.kind sides.right.kind) (core sides.left.expr) (core sides.right.expr)) }
{
    let reading = reading_of(alloc, clafers, &sides.left.kind, &sides.right.kind)?;
    let kind = compared_kind(clafers, &sides.left.kind, &sides.right.kind, reading);
    let expr = same(alloc, clafers, scopes, reading, sides)?;
    let boxed = Boxed::new(alloc, expr)?;
    Ok(set_side(clafers, scopes, kind, boxed))
}

pub fn part_side(
    alloc: Global,
    clafers: &List<Clafer>,
    scopes: &Scopes,
    sides: Sides,
) -> Result<Side, NoMemory>
    requires closed { IsTrue (is_closed clafers.now) }
    requires few { length clafers.now < 2 ^ 32 }
    ensures kind { IfOk result (λ r. r.kind ≡ compared_kind clafers.now sides.left.kind sides.right.kind) }
    ensures bounds { IfOk result (λ r. r.bounds ≡ kind_interval clafers.now scopes.now r.kind) }
    ensures expr { IfOk result (λ r. core r.expr ≡ part clafers.now scopes.now (reading_of clafers.now sides.left.kind sides.right.kind) (core sides.left.expr) (core sides.right.expr)) }
{
    let reading = reading_of(alloc, clafers, &sides.left.kind, &sides.right.kind)?;
    let kind = compared_kind(clafers, &sides.left.kind, &sides.right.kind, reading);
    let expr = part(alloc, clafers, scopes, reading, sides)?;
    let boxed = Boxed::new(alloc, expr)?;
    Ok(set_side(clafers, scopes, kind, boxed))
}
