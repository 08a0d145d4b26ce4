//! What is reported of an accepted model.

use clf_tree::{Front, Instance};

/// What is reported of an accepted model: an instance; that there is none; that the budget of the one question was spent; or a front,
/// as far as it was found.
#[derive(Drop)]
pub enum Outcome {
    One(Instance),
    NoInstance,
    OneSpent,
    Front(Front),
}
