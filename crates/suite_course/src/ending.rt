// How a command ends that doesn't run: the streams are served with the reason, and no session begins.
ghost use Rattle.std.specs.Prelude.{◌≡◌, ◌⊎◌, Some, IfOk};
ghost use Rattle.account_model.specs.PlanWords.{command_words};
ghost use Rattle.account_model.specs.declared.word_fault.WordFault.{WordFault as Fault};
ghost use Rattle.suite_answers.specs.declared.answer.Answer.{Answer as Given};
ghost use Rattle.suite_answers.specs.Answers.{told_words};
ghost use Rattle.suite_session.specs.Answers.{after_streams, memory_answer};
ghost use Rattle.suite_course.specs.Streams.{streams};
ghost use Rattle.suite_course.specs.Supplies.{told_lack};
ghost use Rattle.suite_course.specs.Top.{PutsAnswer, EndsEarly, named_tool};

use crate::streams::serve;
use crate::supplies::Lack;
use acct_outside::{CommitStage, Sink, SinkFault};
use acct_text::Word;
use option_words::{Tool, WordFault, command_words};
use std::alloc::{AllocError, Global};
use suite_answers::{Answer, Outcome};
use suite_session::{memory_answer, outcome_after};

/// Tells the first fault of the words, and calls nothing but the streams; in a plan's words places count
/// from those of its command. `Memory` is told where it was the fault, and where there is none for the
/// text.
pub fn refuse_words<O: Sink, E: Sink>(
    alloc: Global,
    words: &[Word],
    fault: WordFault,
    out: &mut O,
    err: &mut E,
) -> Outcome
    ensures { (answer : Given) →
        (fault ≡ Fault.Memory) ⊎ (answer ≡ told_words (command_words words.now) fault) →
        EndsEarly (named_tool words.now) answer (streams (O.moment out.old) (E.moment err.old))
        (streams (O.moment out.new) (E.moment err.new)) result }
{
    end(
        named_tool(words),
        answer_to_words(alloc, command_words(words), fault),
        out,
        err,
    )
}

// The answer to the first fault of the words, or that there is no memory.
fn answer_to_words(alloc: Global, words: &[Word], fault: WordFault) -> Answer
    ensures { (result ≡ memory_answer CommitStage.Before)
        ⊎ ((fault ≡ Fault.Memory → ⊥) × (result ≡ told_words words.now fault)) }
{
    if matches!(&fault, WordFault::Memory) {
        return memory_answer(alloc, CommitStage::Before);
    }
    match Answer::of_words(alloc, words, fault) {
        Ok(answer) => answer,
        Err(_) => memory_answer(alloc, CommitStage::Before),
    }
}

// The tool that the first word names, of a plan the first behind its form.
fn named_tool(words: &[Word]) -> Option<Tool>
    ensures { result ≡ named_tool words.now }
{
    Tool::named(command_words(words).first()?.as_slice())
}

/// Tells why the command doesn't run.
pub(crate) fn tell<O: Sink, E: Sink>(
    alloc: Global,
    tool: Tool,
    lack: Lack,
    out: &mut O,
    err: &mut E,
) -> Outcome
    ensures { EndsEarly (Some tool) (told_lack tool lack)
        (streams (O.moment out.old) (E.moment err.old))
        (streams (O.moment out.new) (E.moment err.new)) result }
{
    let answer = match answer_to_lack(alloc, tool, lack) {
        Ok(answer) => answer,
        Err(_) => memory_answer(alloc, CommitStage::Before),
    };
    end(Some(tool), answer, out, err)
}

// The answer to what the command lacks. The error says that memory ran out for its text.
fn answer_to_lack(alloc: Global, tool: Tool, lack: Lack) -> Result<Answer, AllocError>
    ensures { IfOk result (λ answer. answer ≡ told_lack tool lack) }
{
    match lack {
        Lack::Supply(cause) => Answer::of_cause(alloc, tool, cause),
        Lack::Line(faulty) => Answer::of_line(
            alloc,
            faulty.number,
            faulty.words.as_slice(),
            faulty.fault,
        ),
    }
}

/// Serves the streams with an answer, and gives the outcome that they leave.
pub(crate) fn end<O: Sink, E: Sink>(
    tool: Option<Tool>,
    answer: Answer,
    out: &mut O,
    err: &mut E,
) -> Outcome
    ensures { PutsAnswer tool answer (streams (O.moment out.old) (E.moment err.old))
        (streams (O.moment out.new) (E.moment err.new)) result }
{
    let put = serve(tool, &answer, out, err);
    left_by(put, answer)
}

// The outcome of an answer that the streams left so.
fn left_by(put: Result<(), SinkFault>, answer: Answer) -> Outcome
    ensures { result ≡ (after_streams put answer).outcome }
{
    match put {
        Ok(()) => answer.outcome,
        Err(fault) => {
            let stage = answer.outcome.cause.stage();
            drop(answer);
            outcome_after(fault, stage)
        }
    }
}
