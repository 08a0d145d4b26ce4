//! Whether a question admits a vector.

ghost use Rattle.std.specs.Prelude.{◌≡◌};
ghost use Rattle.std.specs.List.{list_all};
ghost use Rattle.clf_tree.specs.Front.{is_better_somewhere, admits};

use crate::comparing::{dominates, is_better_somewhere};
use clf_tree::{Question, Vector, Ways};

/// Whether the vector is better somewhere than each found one, and dominates the one to improve, if there is one.
/// It takes no memory.
pub fn admits(question: &Question, vector: &Vector, ways: &Ways) -> bool
    ensures { result ≡ admits ways.now.least question.now vector.now.values }
{
    if !is_outside(question.found.as_slice(), vector, ways) {
        return false;
    }
    match &question.improve {
        Some(improve) => dominates(vector, improve, ways),
        None => true,
    }
}

/// Whether the vector is better somewhere than each found one.
fn is_outside(found: &[Vector], vector: &Vector, ways: &Ways) -> bool
    ensures { result ≡ list_all (λ f. is_better_somewhere ways.now.least vector.now.values f.values) found.now }
{
    for other in found {
        if !is_better_somewhere(ways, vector, other) {
            return false;
        }
    }
    true
}
