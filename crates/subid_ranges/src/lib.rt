//! The ranges of subordinate IDs of users: where a new one fits, and the lines that a range comes
//! into or goes out of (useradd(8), usermod(8), subuid(5), subgid(5)).
//!
//! `Ranges` holds the bytes of the file, and as runs the numbers that its ranges take: a gap is
//! found by these, and lines are searched only for the one that a refused range meets. Other text
//! is never touched, and a line that loses no ID keeps its bytes. After a refusal and after want of
//! memory all lines are as before the call.
//!
//! `RangeNumbers` has these runs without the lines: for a file whose ranges come and go one after
//! another, of which no pass is taken over the lines.
#![tactic(auto)]

mod fault;
mod gathered;
mod owned;
mod range_line;
mod range_numbers;
mod ranges;
mod taken;

pub use fault::RangeFault;
pub use owned::OwnedRanges;
pub use range_numbers::RangeNumbers;
pub use ranges::Ranges;
pub use taken::free_gap_in;
