//! What a search for a front hands out.

use clf_tree::{Front, Question};
use question_space::Claim;

/// The last question of a search, with what was shown or spent on it.
#[derive(Drop)]
pub struct Halt {
    pub question: Question,
    pub claim: Claim,
}

/// A front as far as it was found, and the last question where the search finished or a budget was spent.
///
/// `questions` is how many questions were asked, for programs that measure: no contract speaks of it.
#[derive(Drop)]
pub struct Searched {
    pub front: Front,
    pub halt: Option<Halt>,
    pub questions: u64,
}
