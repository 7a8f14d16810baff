// The top call: a command from its words to its outcome.
ghost use Rattle.std.specs.Prelude.{◌≡◌};
ghost use Rattle.suite_course.specs.Streams.{streams};
ghost use Rattle.suite_course.specs.Supplies.{supplies};
ghost use Rattle.suite_core.specs.Top.{RefusesFaulty, RunsAsked, TakesNone};

use crate::deciding::Suite;
use acct_outside::{Clock, Folder, Sink, Source};
use acct_text::Word;
use option_words::read_words;
use std::alloc::Global;
use suite_answers::Outcome;
use suite_course::{refuse_words, run_request};

/// Carries out the command that the words ask for on the account files of DIR/etc: it takes the lock,
/// carries out what an earlier command left, lets the tool decide, commits a change in one step with
/// backups, and frees the lock. Its output goes to `out`, its message to `err`.
///
/// The outcome's cause tells each error. Words that ask for nothing call nothing but the streams.
/// chpasswd(8), chgpasswd(8) and a batch take their input to the end, and no other tool takes any; each
/// line of a batch that isn't skipped must ask for something; then each tool asks for the day. Without
/// these the folder isn't called. Where the folder tells its history, and that was lawful, it stays so
/// whatever other sessions do in between, and the answer is the tool's on the files at the place of the
/// command's lock.
///
/// A report and a plan take no lock and change nothing. A plan has the status and the message of its
/// command on the files at the place that it shows, and tells behind what that prints what would change.
///
/// A command that is alone, where no lock and no intent stands in its way and nothing outside fails,
/// has no other answer than its tool's on the files of its entry, or that there was no memory.
pub fn run_suite<F: Folder, S: Source, O: Sink, E: Sink, C: Clock>(
    alloc: Global,
    words: &[Word],
    folder: &mut F,
    input: &mut S,
    out: &mut O,
    err: &mut E,
    clock: &mut C,
) -> Outcome
    ensures syntax { RefusesFaulty words.now (folder.new ≡ folder.old) (input.new ≡ input.old)
        (clock.new ≡ clock.old) (streams (O.moment out.old) (E.moment err.old))
        (streams (O.moment out.new) (E.moment err.new)) result }
    ensures ran { RunsAsked words.now (folder.new ≡ folder.old)
        (supplies (S.moment input.old) (C.moment clock.old))
        (supplies (S.moment input.new) (C.moment clock.new))
        (F.moment folder.old) (F.moment folder.new)
        (streams (O.moment out.old) (E.moment err.old))
        (streams (O.moment out.new) (E.moment err.new)) result }
    ensures no_input { TakesNone words.now (input.new ≡ input.old) }
{
    match read_words(alloc, words) {
        Ok(parsed) => run_request::<Suite, F, S, O, E, C>(
            alloc, words, parsed, folder, input, out, err, clock,
        ),
        Err(fault) => refuse_words(alloc, words, fault, out, err),
    }
}
