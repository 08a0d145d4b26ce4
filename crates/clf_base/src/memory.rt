//! A source and a sink over memory, which fail at the calls that a list names.

ghost use Rattle.std.specs.Prelude.{◌≡◌, ◌<◌, ◌≤◌, ◌⊎◌, ◌↔◌, [], length, min, Contains, IfOk, IsErr, Some};
ghost use Rattle.std.specs.Io.{ReadsAtMost};
ghost use Rattle.std.specs.Io.KnownBytes.{ReadConsumes, WriteAppends};
ghost use Rattle.clf_base.specs.Causes.{HasCause, CountsFaults};
ghost use Rattle.clf_base.specs.Memory.{given_count, taken_count, IsNextCall, IsNextSinkCall};

use crate::{Failed, List, NoMemory, Sink, Source};
use std::alloc::Global;
use std::marker::Model;

/// A source over bytes in memory.
///
/// Calls are counted from 0; the count stays at its last value.
#[derive(Drop)]
pub struct MemorySource {
    bytes: List<u8>,
    at: usize,
    step: usize,
    failing: List<u64>,
    call: u64,
    faults: u64,
}

impl Model for MemorySource {
    ghost use Rattle.std.specs.Prelude.{◌<◌, ◌≤◌, drop, length};
    ghost use Rattle.clf_base.specs.Memory.{SourceState};

    ghost Value = { SourceState };

    ghost view = { λ s. record { rest = drop s.at s.bytes; step = s.step; failing = s.failing; call = s.call; faults = s.faults } };

    ghost invariant = { λ s. (s.at ≤ length s.bytes) × (0 < s.step) };
}

impl MemorySource {
    /// A source of these bytes, which gives at most `step` of them a call and fails at each call that `failing` names,
    /// counted from 0.
    pub fn new(bytes: List<u8>, step: usize, failing: List<u64>) -> MemorySource
        requires { 0 < step }
        ensures { result ≡ record { rest = bytes; step = step; failing = failing; call = 0; faults = 0 } }
    {
        MemorySource {
            bytes,
            at: 0,
            step,
            failing,
            call: 0,
            faults: 0,
        }
    }
}

impl Source for MemorySource {
    ghost rest = { λ s. Some s.rest };

    ghost faults = { λ s. s.faults };

    fn read(&mut self, out: &mut [u8]) -> Result<usize, Failed>
        requires { 0 < length out.old }
        ensures bound { ReadsAtMost result out.new }
        ensures bytes { ReadConsumes (Some self.old.rest) (Some self.new.rest) result out.new }
        ensures cause { HasCause self.old.faults self.new.faults result }
        ensures count { IfOk result (λ n. n ≡ given_count self.old (length out.old)) }
        ensures fails { IsErr result ↔ Contains self.old.failing self.old.call }
        ensures counts { CountsFaults self.old.faults self.new.faults result }
        ensures next { IsNextCall self.old self.new }
    {
        let call = self.call;
        self.call = call.saturating_add(1);
        if self.failing.as_slice().contains(&call) {
            self.faults = self.faults.saturating_add(1);
            return Err(Failed);
        }
        let rest = &self.bytes.as_slice()[self.at..];
        let count = self.step.min(out.len()).min(rest.len());
        out[..count].copy_from_slice(&rest[..count]);
        self.at += count;
        Ok(count)
    }
}

/// A sink over memory that was taken when it was made, so that no write takes any.
///
/// Calls are counted from 0; the count stays at its last value.
#[derive(Drop)]
pub struct MemorySink {
    bytes: Vec<u8>,
    used: usize,
    step: usize,
    failing: List<u64>,
    call: u64,
    faults: u64,
}

impl Model for MemorySink {
    ghost use Rattle.std.specs.Prelude.{◌<◌, ◌≤◌, take, length, vec_len};
    ghost use Rattle.clf_base.specs.Memory.{SinkState};

    ghost Value = { SinkState };

    ghost view = { λ s. record { held = take s.used s.bytes.items; room = length s.bytes.items; step = s.step; failing = s.failing; call = s.call; faults = s.faults } };

    ghost invariant = { λ s. (s.used ≤ length s.bytes.items) × (0 < s.step) };
}

impl MemorySink {
    /// A sink with room for `room` bytes, which takes at most `step` of them a call and fails at each call that `failing`
    /// names, counted from 0, and where it is full.
    pub fn new(
        alloc: Global,
        room: usize,
        step: usize,
        failing: List<u64>,
    ) -> Result<MemorySink, NoMemory>
        requires { 0 < step }
        ensures { IfOk result (λ sink. sink ≡ record { held = []; room = room; step = step; failing = failing; call = 0; faults = 0 }) }
    {
        let bytes = vec![in alloc; 0; room]?;
        Ok(MemorySink {
            bytes,
            used: 0,
            step,
            failing,
            call: 0,
            faults: 0,
        })
    }

    /// The bytes that it holds.
    pub fn bytes(&self) -> &[u8]
        ensures { result.now ≡ self.now.held }
    {
        &self.bytes[..self.used]
    }
}

impl Sink for MemorySink {
    ghost held = { λ s. Some s.held };

    ghost faults = { λ s. s.faults };

    fn write(&mut self, piece: &[u8]) -> Result<usize, Failed>
        requires { 0 < length piece.now }
        ensures bound { IfOk result (λ n. (1 ≤ n) × (n ≤ length piece.now)) }
        ensures bytes { WriteAppends (Some self.old.held) (Some self.new.held) result piece.now }
        ensures cause { HasCause self.old.faults self.new.faults result }
        ensures count { IfOk result (λ n. n ≡ taken_count self.old (length piece.now)) }
        ensures fails { IsErr result ↔ (Contains self.old.failing self.old.call ⊎ (length self.old.held ≡ self.old.room)) }
        ensures counts { CountsFaults self.old.faults self.new.faults result }
        ensures next { IsNextSinkCall self.old self.new }
    {
        let call = self.call;
        self.call = call.saturating_add(1);
        let room = self.bytes.len() - self.used;
        if self.failing.as_slice().contains(&call) || room == 0 {
            self.faults = self.faults.saturating_add(1);
            return Err(Failed);
        }
        let count = self.step.min(piece.len()).min(room);
        self.bytes[self.used..self.used + count].copy_from_slice(&piece[..count]);
        self.used += count;
        Ok(count)
    }
}
