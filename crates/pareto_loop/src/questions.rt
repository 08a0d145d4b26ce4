//! Questions beyond points.

ghost use Rattle.std.specs.Prelude.{◌≡◌, length, map, IfOk};
ghost use Rattle.goal_vectors.specs.Points.{vectors_of, found_of};

use clf_base::{List, NoMemory};
use clf_tree::{Point, Question, Vector};
use std::alloc::Global;

/// Copies of the vectors of points, in their order.
fn vectors(alloc: Global, points: &[Point]) -> Result<List<Vector>, NoMemory>
    ensures { IfOk result (λ found. map (λ f. f.values) found ≡ vectors_of points.now) }
{
    let mut found = List::new(alloc);
    for point in points {
        let values = point.vector.values.copy(alloc)?;
        found.push(Vector { values })?;
    }
    Ok(found)
}

/// The question for a vector that is better somewhere than each point, and that dominates the one to improve, if there is one.
pub(crate) fn question(
    alloc: Global,
    points: &[Point],
    improve: Option<Vector>,
) -> Result<Question, NoMemory>
    ensures found { IfOk result (λ q. found_of q ≡ vectors_of points.now) }
    ensures count { IfOk result (λ q. length q.found ≡ length points.now) }
    ensures improve { IfOk result (λ q. q.improve ≡ improve) }
{
    let found = vectors(alloc, points)?;
    Ok(Question { found, improve })
}
