// Why a command can't start.
use option_words::WordFault;
use std::alloc::AllocError;

/// Why no session starts of a command's words and input.
#[derive(Clone, Copy, Debug, Drop)]
pub enum StartFault {
    /// The first fault of the words, or `Memory`.
    Words(WordFault),
    /// This line of a batch's input, counted from 1, is the first that isn't skipped and asks for
    /// nothing: its first fault.
    Line(u32, WordFault),
}

impl From<WordFault> for StartFault {
    ghost use Rattle.std.specs.Prelude.{◌≡◌};
    ghost use Rattle.suite_session.specs.declared.start_fault.StartFault.TheVariants.{Words};

    ghost from_gives = { λ found fault. fault ≡ Words found };

    fn from(found: WordFault) -> Self {
        StartFault::Words(found)
    }
}

impl From<AllocError> for StartFault {
    ghost use Rattle.std.specs.Prelude.{◌≡◌};
    ghost use Rattle.account_model.specs.declared.word_fault.WordFault.TheVariants.{Memory};
    ghost use Rattle.suite_session.specs.declared.start_fault.StartFault.TheVariants.{Words};

    ghost from_gives = { λ _ fault. fault ≡ Words Memory };

    fn from(_: AllocError) -> Self {
        StartFault::Words(WordFault::Memory)
    }
}
