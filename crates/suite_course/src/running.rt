// A command that asks for something: it is supplied, enters the folder, and its session runs there.
ghost use Rattle.std.specs.Prelude.{◌≡◌, ◌⊎◌, ◌≤◌, ℕ, false, Some, IfOk, IsErr};
ghost use Rattle.acct_text.specs.Bytes.{Bytes as Text};
ghost use Rattle.acct_outside.specs.Journal.{Reply, enters, was_refused};
ghost use Rattle.acct_outside.specs.Moment.{Narrows, Notes};
ghost use Rattle.account_model.specs.Words.{Asks};
ghost use Rattle.option_words.specs.Parsed.{request_in};
ghost use Rattle.suite_session.specs.declared.session.Phase.TheVariants.{Waiting};
ghost use Rattle.suite_session.specs.Runner.{LinesAsk, question};
ghost use Rattle.suite_course.specs.Asked.{AsksThere};
ghost use Rattle.suite_course.specs.Course.{Finished};
ghost use Rattle.suite_course.specs.Streams.{streams};
ghost use Rattle.suite_course.specs.Supplies.{AreSupplied, reads_input, supplies};
ghost use Rattle.suite_course.specs.Top.{EndsUnsupplied};

use crate::course::finish;
use crate::ending::{end, tell};
use crate::supplies::{Supplied, supply};
use acct_outside::{Clock, CommitStage, Folder, Sink, Source};
use acct_text::Word;
use option_words::Parsed;
use std::alloc::{AllocError, Global};
use suite_answers::Outcome;
use suite_session::{Session, Tools, memory_answer};

/// Carries out what the words ask for, by these tools: it takes the input, asks the clock, enters the
/// folder, turns a session to its answer and serves the streams.
///
/// The outcome's cause tells each error. Without its input or its day, and where a line of a batch asks
/// for nothing, the folder isn't called.
pub fn run_request<T: Tools, F: Folder, S: Source, O: Sink, E: Sink, C: Clock>(
    alloc: Global,
    words: &[Word],
    parsed: Parsed,
    folder: &mut F,
    input: &mut S,
    out: &mut O,
    err: &mut E,
    clock: &mut C,
) -> Outcome
    requires { Asks words.now (request_in parsed) }
    ensures ran { ((folder.new ≡ folder.old) × EndsUnsupplied parsed.tool
        (supplies (S.moment input.old) (C.moment clock.old))
        (supplies (S.moment input.new) (C.moment clock.new))
        (streams (O.moment out.old) (E.moment err.old))
        (streams (O.moment out.new) (E.moment err.new)) result)
        ⊎ ((text : Text) × (day : ℕ) × AreSupplied parsed.tool
        (supplies (S.moment input.old) (C.moment clock.old))
        (supplies (S.moment input.new) (C.moment clock.new)) text day
        × Finished (question words.now (request_in parsed) text day) (F.moment folder.old)
        (F.moment folder.new) (streams (O.moment out.old) (E.moment err.old))
        (streams (O.moment out.new) (E.moment err.new)) result
        × AsksThere (question words.now (request_in parsed) text day)
        (F.moment folder.old).journal (F.moment folder.new).journal) }
    ensures no_input { reads_input parsed.tool ≡ false → input.new ≡ input.old }
{
    let tool = parsed.tool;
    let supplied = match supply(alloc, tool, input, clock) {
        Ok(supplied) => supplied,
        Err(lack) => return tell(alloc, tool, lack, out, err),
    };
    match enter::<T, F>(alloc, words, parsed, supplied, folder) {
        Ok(session) => finish(tool, session, folder, out, err),
        Err(_) => end(
            Some(tool),
            memory_answer(alloc, CommitStage::Before),
            out,
            err,
        ),
    }
}

// Enters the folder, and makes the session that is to run there. The error says that memory ran out.
fn enter<T: Tools, F: Folder>(
    alloc: Global,
    words: &[Word],
    parsed: Parsed,
    supplied: Supplied,
    folder: &mut F,
) -> Result<Session<T>, AllocError>
    requires asks { Asks words.now (request_in parsed) }
    requires lines_ask { LinesAsk parsed.tool supplied.input }
    ensures session { IfOk result (λ session. session
        ≡ Waiting (question words.now (request_in parsed) supplied.input supplied.day)) }
    ensures told { (F.moment folder.new).told ≡ (F.moment folder.old).told }
    ensures narrows { Narrows (F.moment folder.old).admits (F.moment folder.new).admits }
    ensures never_falls { (F.moment folder.old).faults ≤ (F.moment folder.new).faults }
    ensures named { (reply : Reply) × Notes (F.moment folder.old) (F.moment folder.new)
        (enters parsed.prefix reply) × (reply ≡ was_refused → IsErr result) }
{
    if folder.enter(&parsed.prefix).is_err() {
        return Err(AllocError);
    }
    Session::of(alloc, words, parsed, supplied.input, supplied.day)
}
