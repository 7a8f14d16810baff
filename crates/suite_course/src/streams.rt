// What an answer puts on the streams: the whole output, then the whole message.
ghost use Rattle.std.specs.Prelude.{◌≡◌, ◌≢◌, [], Err};
ghost use Rattle.acct_outside.specs.Faults.{CountsFailure};
ghost use Rattle.acct_outside.specs.Streams.{WhereBytesTold};
ghost use Rattle.acct_outside.specs.declared.streams.SinkFault.{SinkFault as Fault};
ghost use Rattle.suite_answers.specs.Fronts.{PutsFront};
ghost use Rattle.suite_course.specs.Streams.{Serves, memory_stage, streams, text_of};

use acct_outside::{CommitStage, Sink, SinkFault};
use option_words::Tool;
use suite_answers::{Answer, Cause, put_memory_text};

/// Puts the output of an answer on `out` and then its message on `err`. `Memory` tells itself in
/// pieces that take no memory, by the tool, or by `accounts` where there is none.
///
/// After a fault nothing further is put.
pub(crate) fn serve<O: Sink, E: Sink>(
    tool: Option<Tool>,
    answer: &Answer,
    out: &mut O,
    err: &mut E,
) -> Result<(), SinkFault>
    ensures { Serves tool answer.now (streams (O.moment out.old) (E.moment err.old))
        (streams (O.moment out.new) (E.moment err.new)) result }
{
    put_text(out, answer.out.as_slice())?;
    put_message(tool, answer, err)
}

// Puts the message of an answer.
#[tactic(auto, using(crate::proofs::StreamsLemmas::memory_message_some))]
fn put_message<E: Sink>(tool: Option<Tool>, answer: &Answer, err: &mut E) -> Result<(), SinkFault>
    ensures holds { WhereBytesTold (E.moment err.old).holds (E.moment err.new).holds
        (PutsFront (text_of tool answer.now) result) }
    ensures some { (fault : Fault) → result ≡ Err fault → text_of tool answer.now ≢ [] }
    ensures faults { CountsFailure SinkFault.Failed (E.moment err.old).faults
        (E.moment err.new).faults result }
{
    match memory_stage(answer) {
        Some(stage) => put_memory_text(err, tool, stage),
        None => put_text(err, answer.err.as_slice()),
    }
}

// The stage of an answer that there is no memory, none of any other.
fn memory_stage(answer: &Answer) -> Option<CommitStage>
    ensures { result ≡ memory_stage answer.now.outcome.cause }
{
    match answer.outcome.cause {
        Cause::Memory(stage) => Some(stage),
        _ => None,
    }
}

// Puts the text in one piece, and none where it is empty.
fn put_text<S: Sink>(sink: &mut S, text: &[u8]) -> Result<(), SinkFault>
    ensures holds { WhereBytesTold (S.moment sink.old).holds (S.moment sink.new).holds
        (PutsFront text.now result) }
    ensures some { (fault : Fault) → result ≡ Err fault → text.now ≢ [] }
    ensures faults { CountsFailure SinkFault.Failed (S.moment sink.old).faults
        (S.moment sink.new).faults result }
{
    if text.is_empty() {
        return Ok(());
    }
    sink.put(text)
}
