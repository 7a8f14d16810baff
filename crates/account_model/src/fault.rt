//! Why a line is no record of its table (passwd(5), shadow(5), group(5), gshadow(5), subuid(5)).
use thiserror::Error;

/// The first fault of a line, in the order of the variants. Fields are counted from 1.
#[derive(Clone, Copy, Debug, PartialEq, Eq, Drop, Error)]
pub enum LineFault {
    /// The line has this number of fields, and its table another.
    #[error("a line of {0} fields")]
    FieldCount(usize),
    /// This field is the first that isn't a number in its bounds.
    #[error("field {0} is no number in its bounds")]
    BadNumber(usize),
    /// The first field is empty.
    #[error("the name is empty")]
    EmptyName,
    /// A count of subordinate IDs is 0, or the last of them passes 4294967294.
    #[error("the range is empty or passes the greatest ID")]
    BadRange,
}
