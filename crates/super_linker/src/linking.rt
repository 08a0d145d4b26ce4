//! Clafers with their supers looked up.

ghost use Rattle.std.specs.Prelude.{◌≡◌, ◌<◌, ◌^◌, length, IfOk};
ghost use Rattle.std.specs.Option.{option_map};
ghost use Rattle.super_linker.specs.Supers.{unlinked, with_super, linked};

use crate::table::{super_named, super_table};
use clf_base::{List, NoMemory};
use clf_tree::{Clafer, PlainClafer, Pointer, Reference};
use std::alloc::Global;

fn unlinked(reference: &Option<Pointer>) -> Option<Reference>
    ensures { result ≡ option_map unlinked reference.now }
{
    match reference {
        Some(pointer) => Some(Reference {
            at: pointer.at,
            bag: pointer.bag,
            to: None,
        }),
        None => None,
    }
}

fn with_super(alloc: Global, clafer: &PlainClafer, above: Option<u32>) -> Result<Clafer, NoMemory>
    ensures { IfOk result (λ made. made ≡ with_super above clafer.now) }
{
    Ok(Clafer {
        title: clafer.title.copy(alloc)?,
        is_abstract: clafer.is_abstract,
        parent: clafer.parent,
        above,
        group: clafer.group,
        times: clafer.times,
        reference: unlinked(&clafer.reference),
    })
}

/// The clafers with their supers looked up, by one look-up each in a table of names.
pub fn with_supers(alloc: Global, clafers: &List<PlainClafer>) -> Result<List<Clafer>, NoMemory>
    requires few { length clafers.now < 2 ^ 32 }
    ensures { IfOk result (λ made. made ≡ linked clafers.now) }
{
    let table = super_table(alloc, clafers)?;
    let mut made = List::new(alloc);
    for number in 0..clafers.len() {
        let clafer = clafers.get(number);
        let above = super_named(&table, &clafer.above);
        made.push(with_super(alloc, clafer, above)?)?;
    }
    Ok(made)
}
