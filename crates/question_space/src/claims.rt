//! Answers to questions.

use clause_store::Derivation;
use clf_tree::Instance;

/// The claim of an answer: a derivation over the first `given` clauses of the space.
#[derive(Drop)]
pub struct Claim {
    pub given: u32,
    pub derivation: Derivation,
}

/// The answer to a question.
#[derive(Drop)]
pub enum Answer {
    /// This instance satisfies the model, and the question admits its vector.
    Found(Instance),
    /// There is none: the claim refutes the clauses.
    Empty(Claim),
    /// The budget is spent on the new results of the claim.
    Spent(Claim),
}
