ghost use Rattle.std.specs.Prelude.{◌≡◌, ◌<◌, ◌≤◌, ◌↔◌, length, IsNone, IfSome};
ghost use Rattle.clause_store.specs.Kept.{kept_literals, IsSized};

use crate::clause::Literal;
use clf_base::List;

/// How many literals a clause keeps in place.
const IN_PLACE: usize = 5;

/// Where a clause keeps its literals.
#[derive(Drop)]
pub enum Kept {
    /// The first `count` of these literals.
    Short {
        literals: [Literal; IN_PLACE],
        count: u32,
    },
    Long(List<Literal>),
}

impl Kept {
    /// Few literals, kept in place; nothing where they are too many for that.
    pub fn in_place(literals: &[Literal]) -> Option<Kept>
        ensures many { IsNone result ↔ (5 < length literals.now) }
        ensures kept { IfSome result (λ kept. (kept_literals kept ≡ literals.now) × IsSized kept) }
    {
        let count = literals.len();
        if count > IN_PLACE {
            return None;
        }
        let mut places = [Literal { code: 0 }; IN_PLACE];
        for (at, literal) in literals.iter().enumerate() {
            places[at] = *literal;
        }
        Some(Kept::Short {
            literals: places,
            count: count as u32,
        })
    }

    /// The literals that are kept.
    pub fn literals(&self) -> &[Literal]
        requires { IsSized self.now }
        ensures { result.now ≡ kept_literals self.now }
    {
        match self {
            Kept::Short { literals, count } => &literals[..*count as usize],
            Kept::Long(literals) => literals.as_slice(),
        }
    }
}
