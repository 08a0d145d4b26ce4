//! What a question leaves.

use crate::claims::Claim;
use clause_store::{Clauses, Literal};
use clf_base::List;
use clf_tree::Question;

/// What a spent or a closed question leaves: the question, the clauses that pose it, the literals of its parts, and the claim.
///
/// Without their last clause, with any choice of the parts as units, the clauses can be satisfied exactly where the chosen model has an
/// instance whose vector the chosen question admits. The parts are the structure, the constraints, the found vectors and, where there is
/// one, the vector to improve; the structure always is chosen.
#[derive(Drop)]
pub struct Spending {
    pub question: Question,
    pub clauses: Clauses,
    pub parts: List<Literal>,
    pub claim: Claim,
}
