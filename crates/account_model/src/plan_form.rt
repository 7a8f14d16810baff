//! What a plan tells of a change that isn't made.

/// How a plan tells what its command would change.
#[derive(Clone, Copy, Debug, PartialEq, Eq, Drop)]
pub enum PlanForm {
    /// A line for each table that would change, with its size before and after.
    Sizes,
    /// The changes as a unified diff of the tables' files.
    Diff,
    /// One JSON object: the status, what is printed, the new IDs and ranges, and the sizes.
    Json,
}
