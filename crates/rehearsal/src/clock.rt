// The clock of a rehearsal, on which the day never changes.
use acct_outside::{Clock, ClockFault};

/// The day of each command, which is 2024-10-04.
const DAY: u32 = 20_000;

/// A clock that always gives the day of a rehearsal, and remembers whether it was asked.
#[derive(Drop)]
pub(crate) struct RehearsalClock {
    asked: bool,
}

impl RehearsalClock {
    /// A clock that wasn't asked yet.
    pub(crate) fn new() -> Self {
        RehearsalClock { asked: false }
    }
}

impl Clock for RehearsalClock {
    ghost use Rattle.rehearsal.specs.Clock.{clock_moment};

    ghost moment = { clock_moment };

    fn day(&mut self) -> Result<u32, ClockFault> {
        self.asked = true;
        Ok(DAY)
    }

    fn faults(&self) -> u64 {
        0
    }
}
