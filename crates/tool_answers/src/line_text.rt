// What a batch says of one of its lines, which count from 1. The texts are this suite's own.
ghost use Rattle.std.specs.Prelude.{◌≡◌, IfOk, OnOk};
ghost use Rattle.account_model.specs.Messages.{line_refusal_text, line_text, message};
ghost use Rattle.account_model.specs.WordMessages.{line_fault_message};

use crate::{push_line, refusal_text, word_fault_text};
use account_model::{Refusal, Tool, WordFault};
use acct_text::Piece::{Number, Text};
use acct_text::{Bytes, Word};
use std::alloc::{AllocError, Global};

/// The line on the error stream of a batch in which the tool of this line refuses.
pub fn line_refusal_message(
    alloc: Global,
    number: u32,
    tool: Tool,
    refusal: &Refusal,
) -> Result<Bytes, AllocError>
    ensures { IfOk result (λ line. line ≡
        message Tool.Batch (line_refusal_text number tool refusal.now)) }
{
    let reason = refusal_text(alloc, tool, refusal)?;
    let text = Bytes::made_of(
        alloc,
        &[
            Text(b"line "),
            Number(u64::from(number)),
            Text(b": "),
            Text(tool.name().as_bytes()),
            Text(b": "),
            Text(reason.as_slice()),
        ],
    )?;
    batch_message(alloc, text.as_slice())
}

/// The line on the error stream of a batch whose line of this number has these words, none where it
/// can't be split, and asks for nothing by this fault.
pub fn line_fault_message(
    alloc: Global,
    number: u32,
    words: &[Word],
    fault: WordFault,
) -> Result<Bytes, AllocError>
    ensures { IfOk result (λ line. line ≡ line_fault_message (record {
      number = number;
      words = words.now;
      fault = fault;
    })) }
{
    let reason = word_fault_text(alloc, words, fault)?;
    let text = Bytes::made_of(
        alloc,
        &[
            Text(b"line "),
            Number(u64::from(number)),
            Text(b": "),
            Text(reason.as_slice()),
        ],
    )?;
    batch_message(alloc, text.as_slice())
}

// The line on the error stream in which a batch says the text.
fn batch_message(alloc: Global, text: &[u8]) -> Result<Bytes, AllocError>
    ensures { IfOk result (λ line. line ≡ message Tool.Batch text.now) }
{
    let mut line = Bytes::new(alloc);
    push_line(&mut line, Some(Tool::Batch), text)?;
    Ok(line)
}
