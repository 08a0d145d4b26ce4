use crate::drawn::drawn;
use crate::pigeons::pigeons;
use anyhow::Result;
use clause_store::Clauses;
use std::alloc::Global;
use std::fmt;

/// Clauses that the solver is asked about.
#[derive(Clone, Copy)]
pub enum Question {
    /// One pigeon more than there are holes.
    Pigeons { holes: u32 },
    /// Clauses of three literals that a seed decides.
    Drawn { variables: u32, seed: u64 },
}

impl Question {
    /// The clauses.
    pub fn clauses(self, alloc: Global) -> Result<Clauses> {
        match self {
            Question::Pigeons { holes } => pigeons(alloc, holes),
            Question::Drawn { variables, seed } => drawn(alloc, variables, seed),
        }
    }
}

impl fmt::Display for Question {
    fn fmt<W: fmt::Write>(&self, f: &mut fmt::Formatter<W>) -> fmt::Result {
        match self {
            Question::Pigeons { holes } => {
                write!(f, "{} pigeons in {holes} holes", holes.wrapping_add(1))
            }
            Question::Drawn { variables, seed } => {
                write!(f, "{variables} variables by seed {seed}")
            }
        }
    }
}
