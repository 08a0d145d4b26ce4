//! The target of one clafer.

ghost use Rattle.std.specs.Prelude.{◌≡◌, ◌<◌, ◌^◌, length, IfOk, IsTrue};
ghost use Rattle.clf_tree.specs.Hierarchy.{is_below, is_closed};
ghost use Rattle.clf_tree.specs.Named.{each, follows_parent};
ghost use Rattle.name_resolver.specs.Meaning.{meaning_of};
ghost use Rattle.name_tables.specs.Tables.{IsTableOf};
ghost use Rattle.target_finder.specs.Targets as spec;

use clf_base::{List, NoMemory, Refusal, Span};
use clf_tree::{Clafer, Pointer, Title};
use name_resolver::{Found, Meant};
use name_tables::{NameTable, meaning};
use refusal_order::refused;
use std::alloc::Global;

/// The clafer that a reference refers to, if it names one that is found, and what is refused of it.
#[derive(Clone, Copy, Debug, PartialEq, Eq)]
pub struct Target {
    pub clafer: Option<u32>,
    pub refused: Option<Refusal>,
}

fn end_of(meant: &Meant) -> Option<u32>
    ensures { result ≡ spec.end_of meant.now }
{
    match meant {
        Meant::Variable(_) => None,
        Meant::Below { way, .. } => way.as_slice().last().copied(),
        Meant::Top(clafer) => Some(*clafer),
    }
}

fn found_target(at: Span, found: &Found) -> Target
    ensures clafer { result.clafer ≡ spec.clafer_of found.now }
    ensures refused { result.refused ≡ spec.refusal_of at found.now }
{
    match found {
        Found::Nothing => Target {
            clafer: None,
            refused: Some(refused(67, at, 0)),
        },
        Found::Several => Target {
            clafer: None,
            refused: Some(refused(63, at, 0)),
        },
        Found::Means(meant) => Target {
            clafer: end_of(meant),
            refused: None,
        },
    }
}

fn named_target(
    alloc: Global,
    clafers: &List<Clafer>,
    table: &NameTable,
    parent: Option<u32>,
    title: &Title,
) -> Result<Target, NoMemory>
    requires parent_in { IsTrue (is_below (length clafers.now) parent) }
    requires closed { IsTrue (is_closed clafers.now) }
    requires parents_first { IsTrue (each clafers.now (follows_parent clafers.now)) }
    requires few { length clafers.now < 2 ^ 32 }
    requires table { IsTableOf clafers.now table.now }
    ensures clafer { IfOk result (λ t. t.clafer ≡ spec.clafer_of (meaning_of clafers.now parent title.now.name)) }
    ensures refused { IfOk result (λ t. t.refused ≡ spec.refusal_of title.now.at (meaning_of clafers.now parent title.now.name)) }
{
    let found = meaning(alloc, clafers, table, parent, &title.name)?;
    Ok(found_target(title.at, &found))
}

/// The target of a reference whose clafer is declared under `parent`.
pub fn find_target(
    alloc: Global,
    clafers: &List<Clafer>,
    table: &NameTable,
    parent: Option<u32>,
    reference: &Option<Pointer>,
) -> Result<Target, NoMemory>
    requires parent_in { IsTrue (is_below (length clafers.now) parent) }
    requires closed { IsTrue (is_closed clafers.now) }
    requires parents_first { IsTrue (each clafers.now (follows_parent clafers.now)) }
    requires few { length clafers.now < 2 ^ 32 }
    requires table { IsTableOf clafers.now table.now }
    ensures clafer { IfOk result (λ t. t.clafer ≡ spec.target_from clafers.now parent reference.now) }
    ensures refused { IfOk result (λ t. t.refused ≡ spec.refusal_from clafers.now parent reference.now) }
{
    if let Some(pointer) = reference {
        if let Some(title) = &pointer.to {
            return named_target(alloc, clafers, table, parent, title);
        }
    }
    Ok(Target {
        clafer: None,
        refused: None,
    })
}
