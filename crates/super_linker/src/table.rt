//! The abstract clafers at top level, by name.

ghost use Rattle.std.specs.Prelude.{◌≡◌, ◌<◌, ◌^◌, ℕ, List as Seq, Some, cond, length, bytes_eq, IfOk, OnOk};
ghost use Rattle.std.specs.Option.{option_and_then};
ghost use Rattle.std.specs.HashMap.{get_by};
ghost use Rattle.super_linker.specs.Supers.{is_super_named, super_number};

use clf_base::{List, NoMemory};
use clf_tree::{PlainClafer, Title};
use std::alloc::Global;
use std::collections::HashMap;

// Enters a clafer where it is abstract and at top level, in place of a later one of its name.
fn enter<'a>(
    table: &mut HashMap<&'a [u8], u32>,
    clafer: &'a PlainClafer,
    number: u32,
) -> Result<(), NoMemory>
    ensures { OnOk result ((n : Seq ℕ) → get_by (λ k. bytes_eq n k.now) table.new ≡ cond (is_super_named n clafer.now) (Some number) (get_by (λ k. bytes_eq n k.now) table.old)) }
{
    if !clafer.is_abstract {
        return Ok(());
    }
    if clafer.parent.is_some() {
        return Ok(());
    }
    table.insert(clafer.title.name.as_slice(), number)?;
    Ok(())
}

/// The number of each abstract clafer at top level, by its name; of several of a name the first. It takes one look-up a clafer.
pub fn super_table<'a>(
    alloc: Global,
    clafers: &'a List<PlainClafer>,
) -> Result<HashMap<&'a [u8], u32>, NoMemory>
    requires few { length clafers.now < 2 ^ 32 }
    ensures { IfOk result (λ table. (n : Seq ℕ) → get_by (λ k. bytes_eq n k.now) table ≡ super_number clafers.now n) }
{
    let mut table = HashMap::new(alloc);
    let mut left = clafers.len();
    while left > 0 {
        left -= 1;
        enter(&mut table, clafers.get(left), left as u32)?;
    }
    Ok(table)
}

/// The number in the table of the super that a clafer names.
pub fn super_named(table: &HashMap<&[u8], u32>, above: &Option<Title>) -> Option<u32>
    ensures { result ≡ option_and_then (λ t. get_by (λ k. bytes_eq t.name k.now) table.now) above.now }
{
    match above {
        Some(title) => table.get(&title.name.as_slice()).copied(),
        None => None,
    }
}
