//! What is wrong with the words of a command, or with a line of a batch.
use std::alloc::AllocError;

/// The first fault of a list of words or of a line, in the order of the variants but for `Memory`.
///
/// The place of a word is counted from 0, where the tool's name stands. Of `UnknownOption` to
/// `TooMany` the one of the lowest place is the first.
#[derive(Clone, Copy, Debug, PartialEq, Eq, Drop)]
pub enum WordFault {
    /// A line of a batch ends in a carriage return. It is no fault of a command's own words.
    LineEnd,
    /// The quote in this column of a line of a batch, in bytes counted from 1, isn't closed in the line.
    /// It is no fault of a command's own words.
    Unclosed(usize),
    /// The word at this place is the first past the 512th, or of more than 4,096 bytes.
    WordLimit(usize),
    /// There is no word.
    NoTool,
    /// Word 0 names no tool.
    UnknownTool,
    /// The word at this place has an option that the tool doesn't take.
    UnknownOption(usize),
    /// The option of the last word, which is at this place, takes a value and has none.
    MissingValue(usize),
    /// The word at this place gives a value to an option that takes none.
    UnexpectedValue(usize),
    /// The word at this place is one operand more than the tool takes.
    TooMany(usize),
    /// Neither `-P` nor `--root` is given.
    NoPrefix,
    /// The last value of these is empty.
    EmptyPrefix,
    /// An operand is missing.
    TooFew,
    /// The options break this rule of the tool, counted from 1, and none before it.
    Clash(u32),
    /// There was no memory to read the words. It is the fault of no words.
    Memory,
}

impl From<AllocError> for WordFault {
    ghost use Rattle.std.specs.Prelude.{◌≡◌};
    ghost use Rattle.account_model.specs.declared.word_fault.WordFault.TheVariants.{Memory};

    ghost from_gives = { λ _ fault. fault ≡ Memory };

    fn from(_: AllocError) -> Self {
        WordFault::Memory
    }
}
