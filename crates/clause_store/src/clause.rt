ghost use Rattle.std.specs.Prelude.{ℕ, ◌≡◌, ◌+◌, ◌*◌, ◌<◌, ◌≤◌, ◌^◌, ◌↔◌, IsTrue, IfOk, if◌then◌else◌};
ghost use Rattle.clause_store.specs.Literals.{IsAscending, HasVariablesBelow, variable_of};

use crate::kept::Kept;
use clf_base::{List, NoMemory};
use std::alloc::Global;
use std::marker::Model;

/// A literal of a variable: its code is twice the variable, plus 1 where it is negated.
#[derive(Clone, Copy, Debug, PartialEq, Eq)]
pub struct Literal {
    pub code: u32,
}

impl Literal {
    /// The literal that is true where the variable has the value.
    pub fn of(variable: u32, value: bool) -> Literal
        requires { variable < 2 ^ 31 }
        ensures { result.code ≡ 2 * variable + (if value then 0 else 1) }
    {
        Literal {
            code: 2 * variable + u32::from(!value),
        }
    }

    /// The variable of the literal.
    pub fn variable(self) -> u32
        ensures { result ≡ variable_of self }
    {
        self.code / 2
    }
}

/// A clause: literals by ascending codes, none of them twice. Contracts see it as their list.
///
/// A clause of up to five literals keeps them in place, so that a list of such clauses is read in
/// one walk over adjacent memory; a longer one keeps them in an allocation of its own.
#[derive(Drop)]
pub struct Clause {
    kept: Kept,
}

impl Model for Clause {
    ghost use Rattle.std.specs.Prelude.{List as ItemList};
    ghost use Rattle.clause_store.specs.declared.clause.Literal.{Literal};
    ghost use Rattle.clause_store.specs.Literals.{IsAscending};
    ghost use Rattle.clause_store.specs.Kept.{kept_literals, IsSized};

    ghost Value = { ItemList Literal };

    ghost view = { λ c. kept_literals c.kept };

    ghost invariant = { λ c. IsSized c.kept × IsAscending (kept_literals c.kept) };
}

impl Clause {
    /// The clause of a list of literals, which takes no memory.
    pub fn new(literals: List<Literal>) -> Clause
        requires { IsAscending literals }
        ensures { result ≡ literals }
    {
        match Kept::in_place(literals.as_slice()) {
            Some(kept) => Clause { kept },
            None => Clause {
                kept: Kept::Long(literals),
            },
        }
    }

    /// The clause of literals that are copied. Up to five take no memory.
    pub fn from_slice(alloc: Global, literals: &[Literal]) -> Result<Clause, NoMemory>
        requires { IsAscending literals.now }
        ensures { IfOk result (λ clause. clause ≡ literals.now) }
    {
        match Kept::in_place(literals) {
            Some(kept) => Ok(Clause { kept }),
            None => {
                let copied = List::from_slice(alloc, literals)?;
                Ok(Clause {
                    kept: Kept::Long(copied),
                })
            }
        }
    }

    /// The literals, by ascending codes.
    pub fn literals(&self) -> &[Literal]
        ensures value { result.now ≡ self.now }
        ensures ascending { IsAscending self.now }
    {
        self.kept.literals()
    }
}

/// The least number above every variable of a clause: its last literal has the greatest.
pub(crate) fn variables_of(literals: &[Literal]) -> u32
    requires { IsAscending literals.now }
    ensures above { HasVariablesBelow result literals.now }
    ensures least { (n : ℕ) → HasVariablesBelow n literals.now → result ≤ n }
    ensures few { result ≤ 2 ^ 31 }
{
    match literals.len().checked_sub(1) {
        Some(last) => literals[last].code / 2 + 1,
        None => 0,
    }
}

/// Whether literals ascend, as those of a clause do.
pub fn is_ascending(literals: &[Literal]) -> bool
    ensures { IsTrue result ↔ IsAscending literals.now }
{
    for at in 1..literals.len() {
        if literals[at].code <= literals[at - 1].code {
            return false;
        }
    }
    true
}
