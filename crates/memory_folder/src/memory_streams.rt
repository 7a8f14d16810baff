// Streams and a clock in memory, of which the listed calls fail.
ghost use Rattle.std.specs.Prelude.{◌≡◌, ◌≤◌, ◌++◌, ◌↔◌, ℕ, List, [], Some, length, drop, take, IfOk, OnErr, OnOk, IsErrOf};
ghost use Rattle.acct_outside.specs.Faults.{CountsEach, CountsFailure, NotesFault, no_faults};
ghost use Rattle.acct_outside.specs.Streams.{Takes};
ghost use Rattle.acct_text.specs.Limits.{last_day};

use crate::failing::Failing;
use acct_outside::{Clock, ClockFault, Sink, SinkFault, Source, SourceFault};
use acct_text::Bytes;
use std::alloc::Global;

/// A source of bytes in memory.
#[derive(Drop)]
pub struct MemorySource {
    alloc: Global,
    text: Bytes,
    taken: usize,
    failing: Failing,
    ghost within: { taken ≤ length text },
}

impl MemorySource {
    ghost use Rattle.memory_folder.specs.MemoryStreams.{Fails, left_of, source_calls, source_faults, no_calls, with_next};

    /// A source of these bytes, of which these calls of `take` fail, counted from 1.
    pub fn new(alloc: Global, text: Bytes, failing: Vec<u64>) -> Self
        ensures left { left_of result ≡ text }
        ensures calls { source_calls result ≡ no_calls failing.items }
        ensures faults { source_faults result ≡ no_faults }
    {
        MemorySource {
            alloc,
            text,
            taken: 0,
            failing: Failing::new(failing),
        }
    }
}

impl Source for MemorySource {
    ghost use Rattle.std.specs.Prelude.{Some};
    ghost use Rattle.memory_folder.specs.MemoryStreams.{Fails, left_of, source_calls, source_faults, no_calls, with_next, source_moment};

    ghost moment = { source_moment };

    fn take(&mut self, room: usize) -> Result<Bytes, SourceFault>
        ensures room { IfOk result (λ piece. length piece ≤ room) }
        ensures left { Takes room result (left_of self.old) (left_of self.new) }
        ensures fails { IsErrOf result SourceFault.Failed ↔ Fails (source_calls self.old) }
        ensures calls { source_calls self.new ≡ with_next (source_calls self.old) }
        ensures faults { NotesFault SourceFault.Failed (source_faults self.old)
            (source_faults self.new) result }
    {
        if self.failing.next() {
            return Err(SourceFault::Failed);
        }
        let left = &self.text.as_slice()[self.taken..];
        let piece = front(left, room);
        match Bytes::of(self.alloc, piece) {
            Ok(bytes) => {
                self.taken += piece.len();
                Ok(bytes)
            }
            Err(_) => Err(SourceFault::Memory),
        }
    }

    fn faults(&self) -> u64 {
        self.failing.faults
    }
}

// The front of the text, as much as there is room for.
fn front(text: &[u8], room: usize) -> &[u8]
    ensures { result.now ≡ take room text.now }
{
    if room < text.len() {
        &text[..room]
    } else {
        text
    }
}

/// A sink that holds what was put. A failed put takes nothing of its piece.
#[derive(Drop)]
pub struct MemorySink {
    held: Bytes,
    failing: Failing,
}

impl MemorySink {
    ghost use Rattle.memory_folder.specs.MemoryStreams.{Fails, held_of, sink_calls, sink_faults, no_calls, with_next};

    /// A sink that holds nothing yet, of which these calls of `put` fail, counted from 1.
    pub fn new(alloc: Global, failing: Vec<u64>) -> Self
        ensures held { held_of result ≡ [] }
        ensures calls { sink_calls result ≡ no_calls failing.items }
        ensures faults { sink_faults result ≡ 0 }
    {
        MemorySink {
            held: Bytes::new(alloc),
            failing: Failing::new(failing),
        }
    }

    /// What was put.
    pub fn held(&self) -> &Bytes
        ensures { result.now ≡ held_of self.now }
    {
        &self.held
    }
}

impl Sink for MemorySink {
    ghost use Rattle.std.specs.Prelude.{Some};
    ghost use Rattle.memory_folder.specs.MemoryStreams.{Fails, held_of, sink_calls, sink_faults, no_calls, with_next, sink_moment};

    ghost moment = { sink_moment };

    fn put(&mut self, piece: &[u8]) -> Result<(), SinkFault>
        ensures ok { OnOk result (held_of self.new ≡ held_of self.old ++ piece.now) }
        ensures err { OnErr result (held_of self.new ≡ held_of self.old) }
        ensures fails { IsErrOf result SinkFault.Failed ↔ Fails (sink_calls self.old) }
        ensures calls { sink_calls self.new ≡ with_next (sink_calls self.old) }
        ensures faults { CountsFailure SinkFault.Failed (sink_faults self.old)
            (sink_faults self.new) result }
        ensures each { CountsEach SinkFault.Failed (sink_faults self.old)
            (sink_faults self.new) result }
    {
        if self.failing.next() {
            return Err(SinkFault::Failed);
        }
        match self.held.push(piece) {
            Ok(()) => Ok(()),
            Err(_) => Err(SinkFault::Memory),
        }
    }

    fn faults(&self) -> u64 {
        self.failing.faults
    }
}

/// A clock that gives one day.
#[derive(Drop)]
pub struct MemoryClock {
    day: u32,
    gave: Option<u32>,
    failing: Failing,
    ghost in_calendar: { day ≤ last_day },
}

impl MemoryClock {
    ghost use Rattle.memory_folder.specs.MemoryStreams.{Fails, clock_calls, clock_faults, clock_day, given_of, no_calls, with_next};

    /// A clock of this day, counted from 1970-01-01 and at most 2,932,896, of which these calls of
    /// `day` fail, counted from 1.
    pub fn new(day: u32, failing: Vec<u64>) -> Self
        requires { day ≤ last_day }
        ensures day { clock_day result ≡ day }
        ensures calls { clock_calls result ≡ no_calls failing.items }
        ensures faults { clock_faults result ≡ no_faults }
    {
        MemoryClock {
            day,
            gave: None,
            failing: Failing::new(failing),
        }
    }
}

impl Clock for MemoryClock {
    ghost use Rattle.std.specs.Prelude.{Some};
    ghost use Rattle.memory_folder.specs.MemoryStreams.{Fails, clock_calls, clock_faults, clock_day, given_of, no_calls, with_next, clock_moment};

    ghost moment = { clock_moment };

    fn day(&mut self) -> Result<u32, ClockFault>
        ensures day { IfOk result (λ day. day ≡ clock_day self.old) }
        ensures given { IfOk result (λ day. given_of self.new ≡ Some day) }
        ensures err { OnErr result (given_of self.new ≡ given_of self.old) }
        ensures stays { clock_day self.new ≡ clock_day self.old }
        ensures fails { IsErrOf result ClockFault.Failed ↔ Fails (clock_calls self.old) }
        ensures calls { clock_calls self.new ≡ with_next (clock_calls self.old) }
        ensures faults { NotesFault ClockFault.Failed (clock_faults self.old)
            (clock_faults self.new) result }
    {
        if self.failing.next() {
            return Err(ClockFault::Failed);
        }
        self.gave = Some(self.day);
        Ok(self.day)
    }

    fn faults(&self) -> u64 {
        self.failing.faults
    }
}
