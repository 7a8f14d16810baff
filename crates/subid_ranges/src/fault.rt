// Why ranges weren't changed.
use std::alloc::AllocError;
use thiserror::Error;

/// Why no range was allotted, added or taken away. The ranges are as before.
#[derive(Clone, Copy, Debug, PartialEq, Eq, Drop, Error)]
pub enum RangeFault {
    /// No place within the bounds is free for so many IDs.
    #[error("no free range")]
    NoGap,
    /// The line whose range has an ID in common with the new one, counted from 1 over all lines.
    #[error("the range meets line {0}")]
    Overlap(usize),
    /// The first ID passes the last, or the last is none that a user can have.
    #[error("the range is none")]
    BadRange,
    /// There was no memory for the change.
    #[error("out of memory")]
    Memory,
}

impl From<AllocError> for RangeFault {
    ghost use Rattle.std.specs.Prelude.{◌≡◌};
    ghost use Rattle.subid_ranges.specs.declared.fault.RangeFault.TheVariants.{Memory};

    ghost from_gives = { λ _ fault. fault ≡ Memory };

    fn from(_error: AllocError) -> RangeFault {
        RangeFault::Memory
    }
}
