//! Two vectors compared, goal by goal.

ghost use Rattle.std.specs.Prelude.{◌≡◌, min, length};
ghost use Rattle.clf_tree.specs.Front.{better, is_better_somewhere, dominates, before};

use clf_base::List;
use clf_tree::{Vector, Ways};

/// Whether `x` is better than `y`, where the least or the greatest is wanted.
fn better(least: bool, x: &i128, y: &i128) -> bool
    ensures { result ≡ better least x.now y.now }
{
    if least { *x < *y } else { *y < *x }
}

/// How many goals have a value in both vectors.
fn shared(ways: &List<bool>, a: &List<i128>, b: &List<i128>) -> usize
    ensures { result ≡ min (length ways.now) (min (length a.now) (length b.now)) }
{
    ways.len().min(a.len().min(b.len()))
}

/// Whether some goal is better in `a` than in `b`. Vectors of other lengths than the goals are compared as far as all go.
pub fn is_better_somewhere(ways: &Ways, a: &Vector, b: &Vector) -> bool
    ensures { result ≡ is_better_somewhere ways.now.least a.now.values b.now.values }
{
    has_better(&ways.least, &a.values, &b.values)
}

fn has_better(ways: &List<bool>, a: &List<i128>, b: &List<i128>) -> bool
    ensures { result ≡ is_better_somewhere ways.now a.now b.now }
{
    for at in 0..shared(ways, a, b) {
        if better(*ways.get(at), a.get(at), b.get(at)) {
            return true;
        }
    }
    false
}

/// Whether `a` is at least as good as `b` in every goal, and better in one. It takes no memory.
pub fn dominates(a: &Vector, b: &Vector, ways: &Ways) -> bool
    ensures { result ≡ dominates ways.now.least a.now.values b.now.values }
{
    if is_better_somewhere(ways, b, a) {
        return false;
    }
    is_better_somewhere(ways, a, b)
}

/// Whether `a` is better than `b` in the first goal in which they differ. It takes no memory.
pub fn before(a: &Vector, b: &Vector, ways: &Ways) -> bool
    ensures { result ≡ before ways.now.least a.now.values b.now.values }
{
    comes_first(&ways.least, &a.values, &b.values)
}

fn comes_first(ways: &List<bool>, a: &List<i128>, b: &List<i128>) -> bool
    ensures { result ≡ before ways.now a.now b.now }
{
    for at in 0..shared(ways, a, b) {
        let x = a.get(at);
        let y = b.get(at);
        let least = *ways.get(at);
        if better(least, x, y) {
            return true;
        }
        if better(least, y, x) {
            return false;
        }
    }
    false
}
