//! What becomes of the lines of a file that changes.

/// What becomes of a line, from the old file to the new one.
#[derive(Clone, Copy, Debug, PartialEq, Eq, Drop)]
pub enum Fate {
    /// It stands in both files.
    Kept,
    /// It stands in the old file alone.
    Gone,
    /// It stands in the new file alone.
    New,
}
