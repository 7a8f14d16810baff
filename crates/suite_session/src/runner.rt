// What a session that has begun carries from its begin to its answer.
ghost use Rattle.std.specs.Prelude.{◌≡◌, ◌≤◌, length, IfOk};
ghost use Rattle.acct_text.specs.Limits.{last_day, table_limit};
ghost use Rattle.account_model.specs.Request.{is_report};
ghost use Rattle.account_model.specs.SeenFiles.{read_tables};
ghost use Rattle.account_model.specs.Words.{Asks};
ghost use Rattle.option_words.specs.Parsed.{request_in};
ghost use Rattle.suite_session.specs.Answers.{given_for, IsTold, memory_answer};
ghost use Rattle.suite_session.specs.Runner.{FindsFaulty, LinesAsk};

use acct_outside::{CommitStage, Token};
use acct_text::{Bytes, Tab, Word};
use option_words::{FaultyLine, Parsed, Tool, first_faulty};
use std::alloc::{AllocError, Global};
use std::marker::Model;
use suite_answers::{Answer, Cause, MEMORY_STATUS, Outcome};

/// What a session was asked: its words with what they ask for, its input, and the day.
#[derive(Drop)]
pub struct Question {
    pub(crate) words: Vec<Word>,
    pub(crate) parsed: Parsed,
    pub(crate) input: Bytes,
    /// Counted from 1970-01-01, at most 2,932,896 (9999-12-31).
    pub(crate) day: u32,
}

impl Model for Question {
    ghost use Rattle.option_words.specs.Parsed.{request_in};
    ghost use Rattle.suite_session.specs.Runner.{Question as Posed, IsPosed, question};

    ghost Value = { Posed };

    ghost view = { λ asked. record {
      command = record { words = asked.words.items; input = asked.input; day = asked.day };
      request = request_in asked.parsed;
    } };

    ghost invariant = { λ asked. IsPosed
        (question asked.words.items (request_in asked.parsed) asked.input asked.day) };
}

/// A session that has begun.
#[derive(Drop)]
pub(crate) struct Runner {
    pub(crate) token: Token,
    pub(crate) asked: Question,
}

impl Model for Runner {
    ghost use Rattle.suite_session.specs.Runner.{Runner as Begun};

    ghost Value = { Begun };

    ghost view = { λ runner. record { token = runner.token; asked = runner.asked } };
}

impl Question {
    /// What the words ask for.
    pub fn parsed(&self) -> &Parsed
        ensures { request_in result.now ≡ self.now.request }
    {
        &self.parsed
    }

    /// The tool that was asked for.
    pub fn tool(&self) -> Tool
        ensures value { result ≡ self.now.request.tool }
        ensures asks { Asks self.now.command.words self.now.request }
    {
        self.parsed.tool
    }

    /// Whether it asks for a report, as `pwck -r`, or for a plan: neither takes a lock or changes
    /// anything.
    pub(crate) fn is_report(&self) -> bool
        ensures { result ≡ is_report self.now.request }
    {
        self.parsed.is_report()
    }

    /// The tables on which its answer rests.
    pub(crate) fn read_tables(&self) -> &'static [Tab]
        ensures { result.now ≡ read_tables self.now.request }
    {
        self.parsed.read_tables()
    }

    /// The input, which is empty for a tool that reads none. Each line of a batch's that isn't skipped
    /// asks for something.
    pub fn input(&self) -> &Bytes
        ensures value { result.now ≡ self.now.command.input }
        ensures within { length result.now ≤ table_limit }
        ensures lines_ask { LinesAsk self.now.request.tool result.now }
    {
        &self.input
    }

    /// The day, counted from 1970-01-01.
    pub fn day(&self) -> u32
        ensures value { result ≡ self.now.command.day }
        ensures in_time { result ≤ last_day }
    {
        self.day
    }

    /// The answer to a cause that is no tool's; where its text finds no memory, that of want of
    /// memory at its stage.
    pub(crate) fn tell(&self, alloc: Global, cause: Cause) -> Answer
        ensures { IsTold self.now.request.tool cause result }
    {
        let stage = cause.stage();
        match self.try_to_tell(alloc, cause) {
            Ok(answer) => answer,
            Err(_) => memory_answer(alloc, stage),
        }
    }

    /// The answer to a cause that is no tool's. The error says that memory ran out for its text.
    pub fn try_to_tell(&self, alloc: Global, cause: Cause) -> Result<Answer, AllocError>
        ensures { IfOk result (λ answer. answer ≡ given_for self.now.request.tool cause) }
    {
        match cause {
            Cause::Memory(stage) => Ok(memory_answer(alloc, stage)),
            cause => Answer::of_cause(alloc, self.tool(), cause),
        }
    }
}

/// The first line of a batch's input that isn't skipped and asks for nothing; none where each of them
/// asks for something, and for any other tool. The input has at most 16 MiB.
pub fn faulty_line(
    alloc: Global,
    tool: Tool,
    input: &Bytes,
) -> Result<Option<FaultyLine>, AllocError>
    requires { length input.now ≤ table_limit }
    ensures { IfOk result (FindsFaulty tool input.now) }
{
    if tool.row().input.has_commands() {
        first_faulty(alloc, input)
    } else {
        Ok(None)
    }
}

/// The answer that there is no memory, at a stage of the commit. It takes none.
pub fn memory_answer(alloc: Global, stage: CommitStage) -> Answer
    ensures { result ≡ memory_answer stage }
{
    Answer {
        outcome: Outcome {
            status: MEMORY_STATUS,
            cause: Cause::Memory(stage),
        },
        out: Bytes::new(alloc),
        err: Bytes::new(alloc),
    }
}

/// A copy of the words.
pub(crate) fn copy_words(alloc: Global, words: &[Word]) -> Result<Vec<Word>, AllocError>
    ensures { IfOk result (λ copied. copied.items ≡ words.now) }
{
    let mut copied = Vec::new(alloc);
    for word in words {
        copied.push(Word::of(alloc, word.as_slice())?)?;
    }
    Ok(copied)
}
