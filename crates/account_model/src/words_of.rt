//! Where words stand that ask for something.

/// Whose words are read.
#[derive(Clone, Copy, Debug, PartialEq, Eq, Drop)]
pub enum WordsOf {
    /// Those of a command: any tool, and its folder by `-P`.
    Command,
    /// Those of a line of a batch: a tool that changes tables, in the batch's own folder.
    Line,
}
