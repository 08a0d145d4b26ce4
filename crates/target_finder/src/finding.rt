//! The targets of a model.

ghost use Rattle.std.specs.Prelude.{◌≡◌, ◌<◌, ◌^◌, None, length, map, IfOk, IfErr, OnOk, IsTrue};
ghost use Rattle.std.specs.List.{list_all};
ghost use Rattle.std.specs.Option.{option_map};
ghost use Rattle.clf_tree.specs.Hierarchy.{is_below, is_closed};
ghost use Rattle.clf_tree.specs.Named.{each, follows_parent};
ghost use Rattle.refusal_order.specs.Order.{first_refusal};
ghost use Rattle.name_tables.specs.Tables.{IsTableOf};
ghost use Rattle.target_finder.specs.Targets as spec;
ghost use Rattle.target_finder.specs.Targets.{target_refusals, targeted, Explains};

use crate::one_target::find_target;
use clf_base::{Fault, List, NoMemory, Refusal};
use clf_tree::{Clafer, PlainClafer, Reference};
use name_resolver::{means_one, means_there};
use name_tables::NameTable;
use refusal_order::with_refusal;
use std::alloc::Global;

// The targets one by one, and the first refusal of them.
#[derive(Drop)]
struct Targets {
    clafers: List<Option<u32>>,
    refused: Option<Refusal>,
}

fn sooner(first: Option<Refusal>, second: Option<Refusal>) -> Option<Refusal>
    ensures { result ≡ spec.sooner first second }
{
    match second {
        None => first,
        Some(refusal) => with_refusal(first, refusal),
    }
}

#[tactic(auto, using(crate::proofs::Going::going_steps), unfolding(crate::specs::Targets::target_refusals))]
fn all_targets(
    alloc: Global,
    clafers: &List<Clafer>,
    table: &NameTable,
    plain: &[PlainClafer],
) -> Result<Targets, NoMemory>
    requires parents_in { IsTrue (list_all (λ k. is_below (length clafers.now) k.parent) plain.now) }
    requires closed { IsTrue (is_closed clafers.now) }
    requires parents_first { IsTrue (each clafers.now (follows_parent clafers.now)) }
    requires few { length clafers.now < 2 ^ 32 }
    requires table { IsTableOf clafers.now table.now }
    ensures clafers { IfOk result (λ t. t.clafers ≡ map (spec.target_of clafers.now) plain.now) }
    ensures refused { IfOk result (λ t. t.refused ≡ first_refusal (target_refusals clafers.now plain.now)) }
{
    let mut found = List::new(alloc);
    let mut refused = None;
    for clafer in plain {
        let one = find_target(alloc, clafers, table, clafer.parent, &clafer.reference)?;
        found.push(one.clafer)?;
        refused = sooner(refused, one.refused);
    }
    Ok(Targets {
        clafers: found,
        refused,
    })
}

// The targets by a table of the names that is made for them.
fn targets_of(
    alloc: Global,
    clafers: &List<Clafer>,
    plain: &[PlainClafer],
) -> Result<Targets, NoMemory>
    requires parents_in { IsTrue (list_all (λ k. is_below (length clafers.now) k.parent) plain.now) }
    requires closed { IsTrue (is_closed clafers.now) }
    requires parents_first { IsTrue (each clafers.now (follows_parent clafers.now)) }
    requires few { length clafers.now < 2 ^ 32 }
    ensures clafers { IfOk result (λ t. t.clafers ≡ map (spec.target_of clafers.now) plain.now) }
    ensures refused { IfOk result (λ t. t.refused ≡ first_refusal (target_refusals clafers.now plain.now)) }
{
    let table = NameTable::build(alloc, clafers)?;
    let targets = all_targets(alloc, clafers, &table, plain)?;
    Ok(targets)
}

fn refers_to(target: Option<u32>, reference: Option<Reference>) -> Option<Reference>
    ensures { result ≡ option_map (spec.refers_to target) reference }
{
    match reference {
        Some(reference) => Some(Reference {
            at: reference.at,
            bag: reference.bag,
            to: target,
        }),
        None => None,
    }
}

fn with_target(alloc: Global, target: Option<u32>, clafer: &Clafer) -> Result<Clafer, NoMemory>
    ensures { IfOk result (λ k. k ≡ spec.with_target target clafer.now) }
{
    Ok(Clafer {
        title: clafer.title.copy(alloc)?,
        is_abstract: clafer.is_abstract,
        parent: clafer.parent,
        above: clafer.above,
        group: clafer.group,
        times: clafer.times,
        reference: refers_to(target, clafer.reference),
    })
}

#[tactic(auto, using(crate::proofs::Going::going_steps))]
fn with_targets(
    alloc: Global,
    targets: &[Option<u32>],
    clafers: &[Clafer],
) -> Result<List<Clafer>, NoMemory>
    requires { length targets.now ≡ length clafers.now }
    ensures { IfOk result (λ all. all ≡ spec.with_targets targets.now clafers.now) }
{
    let mut all = List::new(alloc);
    for at in 0..clafers.len() {
        all.push(with_target(alloc, targets[at], &clafers[at])?)?;
    }
    Ok(all)
}

/// The clafers of a model, whose supers are looked up, with the targets of their references.
///
/// The model is refused by the earliest place of a target that is not found, with 67, or is ambiguous, with 63. The table
/// of names is made once; then each target costs what [`name_tables::meaning`] costs.
pub fn find_targets(
    alloc: Global,
    clafers: &List<Clafer>,
    plain: &List<PlainClafer>,
) -> Result<List<Clafer>, Fault>
    requires as_many { length plain.now ≡ length clafers.now }
    requires parents_in { IsTrue (list_all (λ k. is_below (length clafers.now) k.parent) plain.now) }
    requires closed { IsTrue (is_closed clafers.now) }
    requires parents_first { IsTrue (each clafers.now (follows_parent clafers.now)) }
    requires few { length clafers.now < 2 ^ 32 }
    ensures accepted { OnOk result (first_refusal (target_refusals clafers.now plain.now) ≡ None) }
    ensures found { IfOk result (λ all. all ≡ targeted clafers.now plain.now) }
    ensures known { IfOk result (λ all. IsTrue (is_closed all)) }
    ensures cause { IfErr result (λ fault. Explains clafers.now plain.now fault) }
{
    let targets = targets_of(alloc, clafers, plain.as_slice())?;
    match targets.refused {
        Some(refusal) => Err(Fault::Refused(refusal)),
        None => {
            means_one();
            means_there();
            let all = with_targets(alloc, targets.clafers.as_slice(), clafers.as_slice())?;
            Ok(all)
        }
    }
}
