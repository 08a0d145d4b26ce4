//! A learned clause, with its literals in ascending order.
ghost use Rattle.std.specs.Prelude.{ℕ, ◌≡◌, IfOk};
ghost use Rattle.cdcl_search.specs.Derivations.{IsClauseOf};

use clause_store::{Clause, Literal};
use clf_base::{List, NoMemory};
use std::alloc::Global;

/// The clause of literals that are told by their codes, in any order and maybe more than once.
pub fn ascending(alloc: Global, codes: &[u32]) -> Result<Clause, NoMemory>
    ensures { IfOk result (λ clause. IsClauseOf codes.now clause) }
{
    let mut sorted = Vec::from_slice(alloc, codes)?;
    sorted.sort_unstable();
    let mut literals = List::new(alloc);
    let mut next = 0u64;
    for code in sorted.as_slice() {
        if u64::from(*code) >= next {
            literals.push(Literal { code: *code })?;
            next = u64::from(*code) + 1;
        }
    }
    Ok(Clause::new(literals))
}
