// The course of a session: it is turned to its answer, the streams are served, and it answers.
ghost use Rattle.std.specs.Prelude.{◌≡◌, List, Some, Err, IfSome, IsSome};
ghost use Rattle.acct_outside.specs.declared.streams.SinkFault.{SinkFault as Fault};
ghost use Rattle.suite_session.specs.declared.session.Phase.TheVariants.{Waiting};
ghost use Rattle.suite_session.specs.Runner.{Question};
ghost use Rattle.suite_session.specs.Belongs.{Belongs};
ghost use Rattle.suite_session.specs.Session.{IsToPut, IsWaiting, answer_of};
ghost use Rattle.acct_outside.specs.Journal.{Entry};
ghost use Rattle.suite_course.specs.Asked.{MakesCalls};
ghost use Rattle.suite_course.specs.Course.{Concludes, Finished, phase_after};
ghost use Rattle.suite_course.specs.Streams.{Serves, streams};

use crate::streams::serve;
use acct_outside::{Folder, Sink, SinkFault};
use option_words::Tool;
use suite_answers::Outcome;
use suite_session::{Session, Tools};

/// Turns the session to its answer, serves the streams, and lets it answer.
pub(crate) fn finish<T: Tools, F: Folder, O: Sink, E: Sink>(
    tool: Tool,
    mut session: Session<T>,
    folder: &mut F,
    out: &mut O,
    err: &mut E,
) -> Outcome
    requires { IsWaiting session }
    ensures finished { (asked : Question) → session ≡ Waiting asked → tool ≡ asked.request.tool →
        Finished asked (F.moment folder.old) (F.moment folder.new)
        (streams (O.moment out.old) (E.moment err.old))
        (streams (O.moment out.new) (E.moment err.new)) result }
    ensures asks { (calls : List Entry) ×
        MakesCalls calls (F.moment folder.old).journal (F.moment folder.new).journal }
{
    while session.is_going() {
        session.turn(folder);
    }
    let put = put_answer(tool, &session, out, err);
    conclude(after_streams(session, put), folder)
}

// Serves the streams with the session's answer.
fn put_answer<T: Tools, O: Sink, E: Sink>(
    tool: Tool,
    session: &Session<T>,
    out: &mut O,
    err: &mut E,
) -> Result<(), SinkFault>
    ensures { IfSome (answer_of session.now) (λ given. Serves (Some tool) given
        (streams (O.moment out.old) (E.moment err.old))
        (streams (O.moment out.new) (E.moment err.new)) result) }
{
    match session.answer() {
        Some(answer) => serve(Some(tool), answer, out, err),
        None => Ok(()),
    }
}

// The session as the streams left it.
fn after_streams<T: Tools>(mut session: Session<T>, put: Result<(), SinkFault>) -> Session<T>
    requires { (fault : Fault) → put ≡ Err fault → IsToPut session }
    ensures { result ≡ phase_after put session }
{
    if let Err(fault) = put {
        session.output_failed(fault);
    }
    session
}

// Lets the session answer, and gives its outcome.
fn conclude<T: Tools, F: Folder>(mut session: Session<T>, folder: &mut F) -> Outcome
    requires belongs { Belongs (F.moment folder.old) session }
    requires answers { IsSome (answer_of session) }
    ensures { Concludes (F.moment folder.old) (F.moment folder.new) session result }
{
    session.turn(folder);
    session.into_outcome()
}
