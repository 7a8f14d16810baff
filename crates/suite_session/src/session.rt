// A session: what it was asked, and how far it has come.
ghost use Rattle.std.specs.Prelude.{◌≡◌, ◌≤◌, ◌<◌, Some, None, IfOk, IfErr, IsSome, is_none, length};
ghost use Rattle.std.specs.Option.{option_copied};
ghost use Rattle.acct_text.specs.Limits.{last_day, table_limit};
ghost use Rattle.account_model.specs.Words.{Asks};
ghost use Rattle.option_words.specs.Parsed.{request_in};
ghost use Rattle.suite_session.specs.Runner.{LinesAsk};
ghost use Rattle.suite_session.specs.Belongs.{Belongs};
ghost use Rattle.suite_session.specs.Session.{CantStart, IsStarted, IsToPut, answer_of, outcome_of, output_failed, phase_left, state_failed};
ghost use Rattle.suite_session.specs.Turning.{KeepsOthers, SessionTurns};
ghost use Rattle.suite_session.specs.Answers.{after_fault, left_by, status_left};

use crate::runner::{Question, Runner, copy_words, faulty_line, memory_answer};
use crate::start_fault::StartFault;
use crate::state::State;
use crate::tools::Tools;
use crate::turning::turned;
use acct_outside::{CommitStage, Folder, SinkFault};
use acct_text::{Bytes, Word};
use option_words::{Parsed, Tool, read_words};
use std::alloc::{AllocError, Global};
use std::marker::{Model, PhantomData};
use std::mem;
use suite_answers::{Answer, Cause, MEMORY_STATUS, OUTPUT_FAULT_STATUS, Outcome};

/// How far a session has come.
#[derive(Drop)]
pub(crate) enum Phase {
    /// It hasn't begun.
    Waiting(Question),
    /// It has begun, and stands in a state.
    Begun(Runner, State),
    /// It has answered.
    Over(Runner, Answer),
    /// Its begin gave no token, so it has nothing to call. The tool is the one that was asked for.
    Unbegun(Tool, Answer),
}

/// A session of a command of these tools, which makes one call of the folder a turn.
#[derive(Drop)]
pub struct Session<T: Tools> {
    pub(crate) alloc: Global,
    pub(crate) phase: Phase,
    tools: PhantomData<T>,
}

impl<T: Tools> Model for Session<T> {
    ghost use Rattle.suite_session.specs.declared.session.Phase.{Phase as HowFar};

    ghost Value = { HowFar };

    ghost view = { λ session. session.phase };
}

impl<T: Tools> Session<T> {
    /// A session that was asked this and hasn't begun. The input has at most 16 MiB. The day is counted
    /// from 1970-01-01, and at most 2,932,896 (9999-12-31).
    ///
    /// The error is the first fault of the words, or `Memory`; then the first line of a batch's input
    /// that isn't skipped and asks for nothing, with its first fault.
    pub fn start(alloc: Global, words: &[Word], input: Bytes, day: u32) -> Result<Self, StartFault>
        requires within { length input ≤ table_limit }
        requires in_time { day ≤ last_day }
        ensures started { IfOk result (IsStarted (record {
          words = words.now;
          input = input;
          day = day;
        })) }
        ensures fault { IfErr result (CantStart words.now input) }
    {
        let parsed = read_words(alloc, words)?;
        if let Some(faulty) = faulty_line(alloc, parsed.tool, &input)? {
            return Err(StartFault::Line(faulty.number, faulty.fault));
        }
        Ok(Session::of(alloc, words, parsed, input, day)?)
    }

    /// The session of words that were read, and of a batch's lines too. The error says that memory ran
    /// out for a copy of the words.
    pub fn of(
        alloc: Global,
        words: &[Word],
        parsed: Parsed,
        input: Bytes,
        day: u32,
    ) -> Result<Self, AllocError>
        requires asks { Asks words.now (request_in parsed) }
        requires lines_ask { LinesAsk parsed.tool input }
        requires within { length input ≤ table_limit }
        requires in_time { day ≤ last_day }
        ensures { IfOk result (λ session. session ≡ Phase.Waiting (record {
          command = record { words = words.now; input = input; day = day };
          request = request_in parsed;
        })) }
    {
        Ok(Session {
            alloc,
            phase: Phase::Waiting(Question {
                words: copy_words(alloc, words)?,
                parsed,
                input,
                day,
            }),
            tools: PhantomData,
        })
    }

    /// Its answer, once no call but that of the answer is left; none before.
    pub fn answer(&self) -> Option<&Answer>
        ensures { option_copied result ≡ answer_of self.now }
    {
        match &self.phase {
            Phase::Begun(_, State::Answering(answer))
            | Phase::Over(_, answer)
            | Phase::Unbegun(_, answer) => Some(answer),
            _ => None,
        }
    }

    /// Whether calls are left before that of the answer.
    pub fn is_going(&self) -> bool
        ensures { result ≡ is_none (answer_of self.now) }
    {
        self.answer().is_none()
    }

    /// Makes the session's next call of the folder; none once it has answered.
    ///
    /// A fault of the folder, and want of memory, become its answer. The session belongs to the folder
    /// still, and so does every other one, so sessions can be turned in any order.
    pub fn turn<F: Folder>(&mut self, folder: &mut F)
        requires { Belongs (F.moment folder.old) self.old }
        ensures turns { SessionTurns (F.moment folder.old) (F.moment folder.new) self.old self.new }
        ensures belongs { Belongs (F.moment folder.new) self.new }
        ensures others { KeepsOthers (F.moment folder.old) (F.moment folder.new) self.old self.new }
        ensures nearer { answer_of self.old ≡ None → phase_left self.new < phase_left self.old }
        ensures ends { IsSome (answer_of self.old) → IsSome (outcome_of self.new) }
    {
        let alloc = self.alloc;
        // No other call sees what stands here meanwhile.
        let meanwhile = no_phase(alloc);
        let phase = mem::replace(&mut self.phase, meanwhile);
        let next = turned::<T, F>(alloc, phase, folder);
        // What stood here meanwhile has empty texts, so nothing is lost where it is forgotten.
        mem::forget(mem::replace(&mut self.phase, next));
    }
}

impl<T: Tools> Session<T> {
    /// Says that a stream failed, or found no memory, when it was to take the session's answer: this
    /// becomes the cause, at the stage that was reached, and the texts stay.
    pub fn output_failed(&mut self, fault: SinkFault)
        requires to_put { IsToPut self.old }
        ensures { self.new ≡ output_failed fault self.old }
    {
        let meanwhile = no_phase(self.alloc);
        let next = failed_phase(fault, mem::replace(&mut self.phase, meanwhile));
        mem::forget(mem::replace(&mut self.phase, next));
    }

    /// The outcome of a session that has no call left.
    pub fn into_outcome(self) -> Outcome
        requires { IsSome (outcome_of self) }
        ensures { outcome_of self ≡ Some result }
    {
        match self.phase {
            Phase::Over(_runner, answer) => answer.outcome,
            Phase::Unbegun(_tool, answer) => answer.outcome,
            _ => unreachable!(),
        }
    }
}

// What stands in a session's place while its phase is taken out.
fn no_phase(alloc: Global) -> Phase {
    Phase::Unbegun(Tool::Useradd, memory_answer(alloc, CommitStage::Before))
}

// The phase after a fault of a stream.
fn failed_phase(fault: SinkFault, phase: Phase) -> Phase
    ensures { result ≡ output_failed fault phase }
{
    match phase {
        Phase::Waiting(asked) => Phase::Waiting(asked),
        Phase::Begun(runner, state) => Phase::Begun(runner, failed_state(fault, state)),
        Phase::Over(runner, answer) => Phase::Over(runner, answer),
        Phase::Unbegun(tool, answer) => Phase::Unbegun(tool, failed_answer(fault, answer)),
    }
}

// The state after a fault of a stream, which changes an answer alone.
fn failed_state(fault: SinkFault, state: State) -> State
    ensures { result ≡ state_failed fault state }
{
    match state {
        State::Answering(answer) => State::Answering(failed_answer(fault, answer)),
        state => state,
    }
}

// The answer after a fault of a stream: its texts stay.
fn failed_answer(fault: SinkFault, answer: Answer) -> Answer
    ensures { result ≡ after_fault fault answer }
{
    let Answer { outcome, out, err } = answer;
    let stage = outcome.cause.stage();
    drop(outcome);
    Answer {
        outcome: outcome_after(fault, stage),
        out,
        err,
    }
}

/// The outcome after a fault of a stream, at a stage of the commit.
pub fn outcome_after(fault: SinkFault, stage: CommitStage) -> Outcome
    ensures { result ≡ record { status = status_left fault; cause = left_by fault stage } }
{
    match fault {
        SinkFault::Failed => Outcome {
            status: OUTPUT_FAULT_STATUS,
            cause: Cause::OutputFault(stage),
        },
        SinkFault::Memory => Outcome {
            status: MEMORY_STATUS,
            cause: Cause::Memory(stage),
        },
    }
}
