//! Where the bytes of a report go.

ghost use Rattle.std.specs.Prelude.{◌<◌, ◌≤◌, List, ℕ, length, IfOk};
ghost use Rattle.std.specs.declared.option.Option.{Option};
ghost use Rattle.std.specs.Io.KnownBytes.{WriteAppends};
ghost use Rattle.clf_base.specs.Causes.{HasCause};

use crate::Failed;

/// A sink for bytes. A call fails only where the count of its faults rises, or stands at its last value.
pub trait Sink {
    /// The bytes that were written, where the sink tells them.
    ghost held: { Self → Option (List ℕ) };

    /// How often a write has failed.
    ghost faults: { Self → ℕ };

    /// Takes at least one byte from the front of `piece`, and answers how many.
    fn write(&mut self, piece: &[u8]) -> Result<usize, Failed>
        requires { 0 < length piece.now }
        ensures bound { IfOk result (λ n. (1 ≤ n) × (n ≤ length piece.now)) }
        ensures bytes { WriteAppends (held self.old) (held self.new) result piece.now }
        ensures cause { HasCause (faults self.old) (faults self.new) result };
}
