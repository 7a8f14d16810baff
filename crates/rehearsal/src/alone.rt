// A command that is alone in its folder: one step of the account model.
ghost use Rattle.account_model.specs.Request.{Request};
ghost use Rattle.account_model.specs.Words.{Asks};
ghost use Rattle.memory_folder.specs.Memory.{past_of};
ghost use Rattle.suite_session.specs.Stands.{IsDecided};
ghost use Rattle.suite_course.specs.Supplies.{supplies};
ghost use Rattle.rehearsal.specs.Alone.{IsLawful, IsSuppliedStep};

use acct_outside::{Clock, Sink, Source};
use acct_text::Word;
use memory_folder::MemoryFolder;
use std::alloc::Global;
use suite_core::{Outcome, run_suite};

/// Runs a command in a folder in memory, where no other session runs meanwhile.
///
/// Where its tool decided, the words ask for something; the outcome is that of the account model's
/// answer, to the input and the day that came, on the settled files of before; the settled files
/// afterwards are those that the model makes of them, and no intent stands. A report leaves the folder as
/// it was.
pub fn run_alone<S: Source, O: Sink, E: Sink, C: Clock>(
    alloc: Global,
    words: &[Word],
    folder: &mut MemoryFolder,
    input: &mut S,
    out: &mut O,
    err: &mut E,
    clock: &mut C,
) -> Outcome
    requires { IsLawful (past_of folder.old) }
    ensures lawful { IsLawful (past_of folder.new) }
    ensures asks { IsDecided result.cause → (request : Request) × Asks words.now request }
    ensures step { (request : Request) → Asks words.now request → IsDecided result.cause →
        IsSuppliedStep request (supplies (S.moment input.old) (C.moment clock.old))
        (supplies (S.moment input.new) (C.moment clock.new))
        (past_of folder.old) (past_of folder.new) result }
{
    run_suite(alloc, words, folder, input, out, err, clock)
}
