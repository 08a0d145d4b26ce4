//! What look-up leaves.

ghost use Rattle.model_resolver.specs.Leaving.{LeavesNothing};

use name_resolver::{means_one, means_there};

/// Where nothing is refused in an expression of a text, no name is left in it.
pub fn leaves_nothing()
    ensures { LeavesNothing }
{
    means_one();
    means_there();
}
