// What a command answers: its outcome, with the texts for the two streams.
ghost use Rattle.std.specs.Prelude.{◌≡◌, IfOk};
ghost use Rattle.account_model.specs.WordMessages.{faulty_tool};
ghost use Rattle.suite_answers.specs.Answers.{says, answer_for, told_line, told_words};

use crate::{Cause, Outcome, message};
use account_model::{Tool, WordFault};
use acct_outside::CommitStage;
use acct_text::{Bytes, Word};
use std::alloc::{AllocError, Global};
use tool_answers::{
    faulty_tool, line_fault_message, syntax_status, word_fault_message, word_fault_status,
};

/// What a command answers.
#[derive(Drop)]
pub struct Answer {
    /// The status, and why.
    pub outcome: Outcome,
    /// The bytes for the output stream.
    pub out: Bytes,
    /// The bytes for the error stream.
    pub err: Bytes,
}

impl Answer {
    /// The answer of a tool to a cause that is none of its own decisions and no fault of words: no
    /// output, and one line on the error stream; none for `OutputFault`.
    ///
    /// For `Changed`, `Same`, `Refused`, `RefusedLine`, `Syntax` and `BatchSyntax` the status and the
    /// texts are empty here: they come with the decision and with the words.
    pub fn of_cause(alloc: Global, tool: Tool, cause: Cause) -> Result<Self, AllocError>
        ensures { IfOk result (λ answer. answer ≡ answer_for tool cause) }
    {
        let err = message::of_cause(alloc, tool, &cause)?;
        let status = cause.status(tool);
        Ok(Answer::saying(alloc, status, cause, err))
    }

    /// The answer to a list of words with this first fault: no output, and one line on the error
    /// stream, of the tool or, where no tool is known, of `accounts`.
    ///
    /// The cause is `Syntax` with the fault, and `Memory` where there was no memory for the words.
    pub fn of_words(alloc: Global, words: &[Word], fault: WordFault) -> Result<Self, AllocError>
        ensures { IfOk result (λ answer. answer ≡ told_words words.now fault) }
    {
        let status = word_fault_status(words, fault);
        if fault == WordFault::Memory {
            let cause = Cause::Memory(CommitStage::Before);
            let err = message::line_of(alloc, faulty_tool(words, fault), &cause)?;
            return Ok(Answer::saying(alloc, status, cause, err));
        }
        let err = word_fault_message(alloc, words, fault)?;
        Ok(Answer::saying(alloc, status, Cause::Syntax(fault), err))
    }

    /// The answer to a batch whose first line that asks for nothing has this number, counted from 1,
    /// these words and this first fault: no output, and one line on the error stream.
    pub fn of_line(
        alloc: Global,
        number: u32,
        words: &[Word],
        fault: WordFault,
    ) -> Result<Self, AllocError>
        ensures { IfOk result (λ answer. answer ≡ told_line (record {
          number = number;
          words = words.now;
          fault = fault;
        })) }
    {
        let err = line_fault_message(alloc, number, words, fault)?;
        let status = syntax_status(Tool::Batch);
        let cause = Cause::BatchSyntax(number, fault);
        Ok(Answer::saying(alloc, status, cause, err))
    }

    // An answer with this cause and this line, and no output.
    fn saying(alloc: Global, status: u8, cause: Cause, err: Bytes) -> Self
        ensures { result ≡ says cause status err }
    {
        Answer {
            outcome: Outcome { status, cause },
            out: Bytes::new(alloc),
            err,
        }
    }
}
