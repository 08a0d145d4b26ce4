//! What is known of a looked-up expression.

ghost use Rattle.std.specs.Prelude.{◌≡◌};
ghost use Rattle.std.specs.Option.{option_or};
ghost use Rattle.expression_names.specs.LookedUp as spec;

use clf_base::Refusal;
use clf_tree::{Expr, Kind};
use refusal_order::with_refusal;
use sqlite_items::Boxed;

/// An expression whose names are looked up, its kind, if it has one, and the first refusal in it.
#[derive(Drop)]
pub struct Looked {
    pub expr: Boxed<Expr>,
    pub kind: Option<Kind>,
    pub refused: Option<Refusal>,
}

/// The first of two refusals, where there are any.
pub fn sooner(first: Option<Refusal>, second: Option<Refusal>) -> Option<Refusal>
    ensures { result ≡ spec.sooner first second }
{
    match second {
        None => first,
        Some(refusal) => with_refusal(first, refusal),
    }
}

/// What is refused in the parts, and where that is nothing, of the expression itself.
pub fn or_own(parts: Option<Refusal>, own: Option<Refusal>) -> Option<Refusal>
    ensures { result ≡ option_or parts own }
{
    match parts {
        Some(refusal) => Some(refusal),
        None => own,
    }
}
