ghost use Rattle.std.specs.Prelude.{ℕ, ◌≡◌, ◌<◌, ◌≤◌, ◌^◌, [], ◌∷◌, ◌++◌, ◌↔◌, All, IsTrue, length, true, false, slice_set, slice_index_or, OnOk, OnErr};
ghost use Rattle.clause_store.specs.Literals.{HasVariablesBelow};
ghost use Rattle.clause_store.specs.Store.{clause_at};

use crate::clause::{Clause, variables_of};
use clf_base::NoMemory;
use std::alloc::Global;
use std::marker::Model;

/// A store of clauses, each live or retired. Contracts see it as the list of its clauses, and
/// beside it the list that says of each whether it is live.
#[derive(Drop)]
pub struct Clauses {
    clauses: Vec<Clause>,
    live: Vec<bool>,
    variables: u32,
}

impl Model for Clauses {
    ghost use Rattle.clause_store.specs.Store.{Store, IsStore};

    ghost Value = { Store };

    ghost view = { λ c. record { clauses = c.clauses.items; live = c.live.items } };

    ghost invariant = { λ c. IsStore c.clauses.items c.live.items c.variables };
}

impl Clauses {
    /// An empty store, which takes no memory.
    pub fn new(alloc: Global) -> Clauses
        ensures clauses { result.clauses ≡ [] }
        ensures live { result.live ≡ [] }
    {
        Clauses {
            clauses: Vec::new(alloc),
            live: Vec::new(alloc),
            variables: 0,
        }
    }

    /// How many clauses there are, live or retired.
    pub fn len(&self) -> u32
        ensures value { result ≡ length self.now.clauses }
        ensures few { length self.now.clauses ≤ 2147483647 }
        ensures flags { length self.now.live ≡ length self.now.clauses }
    {
        self.clauses.len() as u32
    }

    /// Whether there is no clause.
    pub fn is_empty(&self) -> bool
        ensures { IsTrue result ↔ (self.now.clauses ≡ []) }
    {
        self.clauses.is_empty()
    }

    /// The least number above every variable of the clauses, live or retired. It is kept, not computed.
    pub fn variables(&self) -> u32
        ensures above { All (HasVariablesBelow result) self.now.clauses }
        ensures least { (n : ℕ) → All (HasVariablesBelow n) self.now.clauses → result ≤ n }
        ensures few { result ≤ 2 ^ 31 }
    {
        self.variables
    }

    /// The clause with a number, live or retired.
    pub fn get(&self, at: u32) -> &Clause
        requires { at < length self.now.clauses }
        ensures { result.now ≡ clause_at self.now.clauses at }
    {
        &self.clauses[at as usize]
    }

    /// Whether a clause is live.
    pub fn live(&self, at: u32) -> bool
        requires { at < length self.now.clauses }
        ensures { result ≡ slice_index_or self.now.live at false }
    {
        self.live[at as usize]
    }

    /// Puts a clause at the end, which makes it live. Where memory is wanting it is dropped, and the
    /// store is as before.
    pub fn push(&mut self, clause: Clause) -> Result<(), NoMemory>
        requires { length self.old.clauses < 2147483647 }
        ensures clauses { OnOk result (self.new.clauses ≡ self.old.clauses ++ clause ∷ []) }
        ensures live { OnOk result (self.new.live ≡ self.old.live ++ true ∷ []) }
        ensures err { OnErr result (self.new ≡ self.old) }
    {
        let variables = variables_of(clause.literals());
        self.live.reserve(1)?;
        self.clauses.push(clause)?;
        self.live.push(true)?;
        self.variables = self.variables.max(variables);
        Ok(())
    }

    /// Retires a clause. It keeps its number and its literals.
    pub fn retire(&mut self, at: u32)
        requires { at < length self.old.clauses }
        ensures clauses { self.new.clauses ≡ self.old.clauses }
        ensures live { self.new.live ≡ slice_set self.old.live at false }
    {
        self.live[at as usize] = false;
    }

    /// Makes a clause live again.
    pub fn revive(&mut self, at: u32)
        requires { at < length self.old.clauses }
        ensures clauses { self.new.clauses ≡ self.old.clauses }
        ensures live { self.new.live ≡ slice_set self.old.live at true }
    {
        self.live[at as usize] = true;
    }
}
