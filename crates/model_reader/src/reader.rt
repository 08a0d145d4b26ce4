//! A model that is read.

ghost use Rattle.std.specs.Prelude.{◌≡◌, ◌<◌, ◌≤◌, ◌^◌, None, length, IsTrue};
ghost use Rattle.scope_table.specs.Fitting.{Fit};
ghost use Rattle.int_widths.specs.Narrow.{is_narrow_model};
ghost use Rattle.int_widths.specs.Weight.{model_weight};
ghost use Rattle.model_weight.specs.Refusals.{refusal};
ghost use Rattle.model_reader.specs.Ranges.{has_range};

use clf_tree::{Scopes, Typed};

/// A model in which each operand fits its position, how many instances each of its clafers may have, and its weight.
///
/// The type keeps that its parts belong together: the scopes fit the model, nothing is refused of its goals, its integers and its
/// weight, and the weight is that of both. So it is at most 8,000,000, and each integer needs no more than 62 bits.
#[derive(Drop)]
pub struct Read {
    pub model: Typed,
    pub scopes: Scopes,
    pub weight: u64,
    pub ghost few: { length model.clafers < 2 ^ 32 },
    pub ghost fit: { Fit model.clafers scopes.of },
    pub ghost narrow: { IsTrue (is_narrow_model scopes model) },
    pub ghost range: { IsTrue (has_range scopes) },
    pub ghost accepted: { refusal scopes model ≡ None },
    pub ghost weighs: { weight ≡ model_weight scopes model },
    pub ghost light: { weight ≤ 8000000 },
}
