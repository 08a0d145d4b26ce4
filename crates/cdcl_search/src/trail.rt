//! The assignment, in the order in which it was made.
ghost use Rattle.std.specs.Prelude.{ℕ, ◌≡◌, ◌+◌, ◌*◌, ◌/◌, ◌<◌, ◌≤◌, ◌^◌, length, get_or};
ghost use Rattle.cdcl_search.specs.Literals.{flip};
ghost use Rattle.cdcl_search.specs.Trails.{IsTrail, Agree, AllBelow};
ghost use Rattle.cdcl_search.specs.States.{IsAssigned, IsStatus};
ghost use Rattle.cdcl_search.specs.Learnings.{IsUndone};

pub const OPEN: u8 = 0;

pub const TRUE: u8 = 1;

pub const FALSE: u8 = 2;

/// The opposite literal.
pub fn flipped(literal: u32) -> u32
    requires { literal + 1 < 2 ^ 32 }
    ensures { result ≡ flip literal }
{
    if literal % 2 == 0 {
        literal + 1
    } else {
        literal - 1
    }
}

/// What a clause says under an assignment.
pub enum Status {
    /// Each literal is false.
    AllFalse,
    /// This literal is open, and each other one is false.
    Unit(u32),
    /// Nothing follows.
    Other,
}

/// The values of the literals, and the literals that were made true, in order.
#[derive(Drop)]
pub struct Trail {
    pub values: Vec<u8>,
    pub places: Vec<u32>,
    pub reasons: Vec<u32>,
    pub literals: Vec<u32>,
    pub count: usize,
    pub limits: Vec<u32>,
}

impl Trail {
    /// Makes an open literal true, for a reason.
    pub fn assign(&mut self, literal: u32, reason: u32)
        requires trail { IsTrail self.old.values.items self.old.places.items self.old.literals.items self.old.count }
        requires reasons { length self.old.reasons.items ≡ length self.old.literals.items }
        requires few { 2 * length self.old.literals.items < 2 ^ 32 }
        requires within { literal < 2 * length self.old.literals.items }
        requires open { get_or self.old.values.items literal 0 ≡ 0 }
        ensures { IsAssigned self.old self.new literal reason }
    {
        let variable = (literal / 2) as usize;
        self.values[literal as usize] = TRUE;
        self.values[flipped(literal) as usize] = FALSE;
        self.places[variable] = self.count as u32;
        self.reasons[variable] = reason;
        self.literals[self.count] = literal;
        self.count += 1;
    }

    /// What the clause says.
    pub fn status(&self, clause: &[u32]) -> Status
        requires trail { IsTrail self.now.values.items self.now.places.items self.now.literals.items self.now.count }
        requires within { AllBelow clause.now (2 * length self.now.literals.items) }
        ensures { IsStatus self.now clause.now result }
    {
        let mut only = None;
        for literal in clause {
            let value = self.values[*literal as usize];
            if value == TRUE {
                return Status::Other;
            }
            if value == OPEN {
                match only {
                    None => only = Some(*literal),
                    Some(first) => {
                        if first != *literal {
                            return Status::Other;
                        }
                    }
                }
            }
        }
        match only {
            None => Status::AllFalse,
            Some(literal) => Status::Unit(literal),
        }
    }

    /// Takes back what was made true at a place and after it.
    pub fn undo_to(&mut self, place: usize)
        requires trail { IsTrail self.old.values.items self.old.places.items self.old.literals.items self.old.count }
        requires few { 2 * length self.old.literals.items < 2 ^ 32 }
        requires within { place ≤ self.old.count }
        ensures { IsUndone self.old self.new place }
    {
        while self.count > place {
            self.count -= 1;
            let literal = self.literals[self.count];
            self.values[literal as usize] = OPEN;
            self.values[flipped(literal) as usize] = OPEN;
        }
    }
}
