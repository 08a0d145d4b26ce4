//! Where the bytes of a model come from.

ghost use Rattle.std.specs.Prelude.{◌<◌, List, ℕ, length};
ghost use Rattle.std.specs.declared.option.Option.{Option};
ghost use Rattle.std.specs.Io.{ReadsAtMost};
ghost use Rattle.std.specs.Io.KnownBytes.{ReadConsumes};
ghost use Rattle.clf_base.specs.Causes.{HasCause};

use crate::Failed;

/// A source of bytes. A call fails only where the count of its faults rises, or stands at its last value.
pub trait Source {
    /// The bytes that reads will give from here on, where the source tells them.
    ghost rest: { Self → Option (List ℕ) };

    /// How often a read has failed.
    ghost faults: { Self → ℕ };

    /// Reads the next bytes into the front of `out`, and answers how many: none only at the end.
    fn read(&mut self, out: &mut [u8]) -> Result<usize, Failed>
        requires { 0 < length out.old }
        ensures bound { ReadsAtMost result out.new }
        ensures bytes { ReadConsumes (rest self.old) (rest self.new) result out.new }
        ensures cause { HasCause (faults self.old) (faults self.new) result };
}
