//! The trusted edge: a reader and a writer of std as a source and a sink. They tell nothing of bytes.

ghost use Rattle.std.specs.Prelude.{◌≡◌, ◌<◌, ◌≤◌, length, IfOk, IfSome, None};
ghost use Rattle.std.specs.Io.{ReadsAtMost};
ghost use Rattle.std.specs.Io.KnownBytes.{ReadConsumes, WriteAppends};
ghost use Rattle.clf_base.specs.Causes.{HasCause, CountsFaults};

use crate::{Failed, Sink, Source};
use std::io::{Read, Write};

/// A reader of std as a source.
#[derive(Drop)]
pub struct StdSource<R> {
    reader: R,
    faults: u64,
}

impl<R: Read + Drop> StdSource<R> {
    /// A source that reads from `reader`, with no fault so far.
    pub fn new(reader: R) -> StdSource<R>
        ensures { result.faults ≡ 0 }
    {
        StdSource { reader, faults: 0 }
    }
}

impl<R: Read + Drop> Source for StdSource<R> {
    ghost rest = { λ _. None };

    ghost faults = { λ s. s.faults };

    fn read(&mut self, out: &mut [u8]) -> Result<usize, Failed>
        requires { 0 < length out.old }
        ensures bound { ReadsAtMost result out.new }
        ensures bytes { ReadConsumes None None result out.new }
        ensures cause { HasCause self.old.faults self.new.faults result }
        ensures counts { CountsFaults self.old.faults self.new.faults result }
    {
        let faults = self.faults;
        match self.reader.read(out) {
            Ok(count) => Ok(count),
            Err(_) => {
                self.faults = faults.saturating_add(1);
                Err(Failed)
            }
        }
    }
}

/// A writer of std as a sink. Each write is flushed.
#[derive(Drop)]
pub struct StdSink<W> {
    writer: W,
    faults: u64,
}

impl<W: Write + Drop> StdSink<W> {
    /// A sink that writes to `writer`, with no fault so far.
    pub fn new(writer: W) -> StdSink<W>
        ensures { result.faults ≡ 0 }
    {
        StdSink { writer, faults: 0 }
    }
}

impl<W: Write + Drop> Sink for StdSink<W> {
    ghost held = { λ _. None };

    ghost faults = { λ s. s.faults };

    fn write(&mut self, piece: &[u8]) -> Result<usize, Failed>
        requires { 0 < length piece.now }
        ensures bound { IfOk result (λ n. (1 ≤ n) × (n ≤ length piece.now)) }
        ensures bytes { WriteAppends None None result piece.now }
        ensures cause { HasCause self.old.faults self.new.faults result }
        ensures counts { CountsFaults self.old.faults self.new.faults result }
    {
        let faults = self.faults;
        match write_and_flush(&mut self.writer, piece) {
            Some(count) => Ok(count),
            None => {
                self.faults = faults.saturating_add(1);
                Err(Failed)
            }
        }
    }
}

// Writes the front of a piece and flushes it. Taking nothing is a fault.
fn write_and_flush<W: Write + Drop>(writer: &mut W, piece: &[u8]) -> Option<usize>
    ensures { IfSome result (λ n. (1 ≤ n) × (n ≤ length piece.now)) }
{
    match writer.write(piece) {
        Ok(0) | Err(_) => None,
        Ok(count) => match writer.flush() {
            Ok(()) => Some(count),
            Err(_) => None,
        },
    }
}
