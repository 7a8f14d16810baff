// The streams and the clock.
ghost use Rattle.std.specs.Prelude.{◌≡◌, ◌≤◌, Some, length, IfOk, IfSome, OnErr};
ghost use Rattle.acct_outside.specs.Faults.{CountsFailure, NotesFault};
ghost use Rattle.acct_text.specs.Limits.{last_day};
ghost use Rattle.acct_outside.specs.Streams.{ClockMoment, SinkMoment, SourceMoment, WhereBytesTold, Takes, Puts};

use acct_text::Bytes;

/// Why a source gave nothing.
#[derive(Clone, Copy)]
pub enum SourceFault {
    /// Its count of faults rose.
    Failed,
    /// There was no memory for the bytes.
    Memory,
}

/// Why a sink didn't take a piece.
#[derive(Clone, Copy)]
pub enum SinkFault {
    /// Its count of faults rose.
    Failed,
    /// There was no memory for the piece.
    Memory,
}

/// Why a clock gave no day.
#[derive(Clone, Copy, Debug, PartialEq, Eq)]
pub enum ClockFault {
    /// Its count of faults rose.
    Failed,
}

/// Where input comes from.
pub trait Source {
    /// What the source has left, where it tells, how often it has failed, and whether its last take
    /// did.
    ghost moment: { Self → SourceMoment };

    /// The next bytes, as many as there is room for at most. An empty piece is the end, where there
    /// was room. At `Failed` the count of faults rose by one, up to its end; it stays at every other
    /// result. At each fault what is left stays.
    fn take(&mut self, room: usize) -> Result<Bytes, SourceFault>
        ensures room { IfOk result (λ piece. length piece ≤ room) }
        ensures left { WhereBytesTold (moment self.old).left (moment self.new).left
            (Takes room result) }
        ensures faults { NotesFault SourceFault.Failed (moment self.old).faults
            (moment self.new).faults result };

    /// How often the source has failed.
    fn faults(&self) -> u64
        ensures { result ≡ (moment self.now).faults.count };
}

/// Where output goes.
pub trait Sink {
    /// What the sink holds, where it tells, and how often it has failed.
    ghost moment: { Self → SinkMoment };

    /// Adds a piece. At `Failed` the count of faults rose, and the sink holds a front of the piece more;
    /// at `Memory` it holds what it held.
    fn put(&mut self, piece: &[u8]) -> Result<(), SinkFault>
        ensures holds { WhereBytesTold (moment self.old).holds (moment self.new).holds
            (Puts piece.now result) }
        ensures faults { CountsFailure SinkFault.Failed (moment self.old).faults
            (moment self.new).faults result };

    /// How often the sink has failed.
    fn faults(&self) -> u64
        ensures { result ≡ (moment self.now).faults };
}

/// What day it is, counted from 1970-01-01.
pub trait Clock {
    /// The day that the clock last gave, the day that each call gives, where it tells one, how often
    /// it has failed, and whether its last call did.
    ghost moment: { Self → ClockMoment };

    /// The day, at most 2,932,896 (9999-12-31). At `Failed` the count of faults rose by one, up to its
    /// end, and the day that was last given stays; where a day is given the count stays.
    fn day(&mut self) -> Result<u32, ClockFault>
        ensures day { IfOk result (λ day. day ≤ last_day) }
        ensures given { IfOk result (λ day. (moment self.new).gave ≡ Some day) }
        ensures err { OnErr result ((moment self.new).gave ≡ (moment self.old).gave) }
        ensures always { IfOk result (λ day. IfSome (moment self.old).always (λ told. day ≡ told)) }
        ensures stays { (moment self.new).always ≡ (moment self.old).always }
        ensures faults { NotesFault ClockFault.Failed (moment self.old).faults
            (moment self.new).faults result };

    /// How often the clock has failed.
    fn faults(&self) -> u64
        ensures { result ≡ (moment self.now).faults.count };
}
