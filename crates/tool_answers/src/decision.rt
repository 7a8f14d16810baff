// What a command decides on given files.
ghost use Rattle.std.specs.Prelude.{◌≡◌, [], IfOk};
ghost use Rattle.account_model.specs.Messages.{messages as messages_of};
ghost use Rattle.tool_answers.specs.Decisions.{decision_by, line_refusal_output, refusal_output};

use crate::{line_refusal_message, messages, push_line, refusal_status, refusal_text};
use account_model::{Refusal, Tool};
use acct_text::{Bytes, Names, NewTables};
use std::alloc::{AllocError, Global};

/// What a command prints, and the status with which it ends.
#[derive(Drop)]
pub struct Output {
    /// The status, 0 to 255.
    pub status: u8,
    /// The bytes for the output stream.
    pub out: Bytes,
    /// The bytes for the error stream.
    pub err: Bytes,
}

impl Output {
    /// That of a tool that prints nothing, with status 0. It allocates nothing.
    pub fn silent(alloc: Global) -> Self
        ensures { result ≡ record { status = 0; out = []; err = [] } }
    {
        Output::shown(alloc, Bytes::new(alloc))
    }

    /// That of a tool that shows this and tells nothing beside, with status 0. It allocates nothing.
    pub fn shown(alloc: Global, out: Bytes) -> Self
        ensures { result ≡ record { status = 0; out = out; err = [] } }
    {
        Output {
            status: 0,
            out,
            err: Bytes::new(alloc),
        }
    }

    /// That of a tool that tells these notices alone, a line for each, with status 0.
    pub fn noticed(alloc: Global, tool: Tool, notices: &Names) -> Result<Self, AllocError>
        ensures { IfOk result (λ output.
            output ≡ record { status = 0; out = []; err = messages_of tool notices.now }) }
    {
        Ok(Output {
            status: 0,
            out: Bytes::new(alloc),
            err: messages(alloc, tool, notices)?,
        })
    }
}

/// What a command decides on the files of the tables.
#[derive(Drop)]
pub enum Decision {
    /// These tables, of which there is one at least, get other bytes. The others stay as they are.
    Change(NewTables, Output),
    /// All tables stay as they are.
    Same(Output),
    /// The command can't be done, for this cause. All tables stay as they are.
    Refuse(Refusal, Output),
    /// The command of this line of a batch can't be done, for this cause; lines count from 1. All
    /// tables stay as they are, and so does what the lines before it would have changed.
    RefuseLine(u32, Refusal, Output),
}

/// The decision by the tables that differ: all stay where none does.
pub fn decision_by(tables: NewTables, output: Output) -> Decision
    ensures { result ≡ decision_by tables output }
{
    if tables.as_slice().is_empty() {
        Decision::Same(output)
    } else {
        Decision::Change(tables, output)
    }
}

/// The decision of a tool that refuses: all tables stay, and one line on the error stream tells why,
/// with the status that the tool's page has for it.
pub fn refuse(alloc: Global, tool: Tool, refusal: Refusal) -> Result<Decision, AllocError>
    ensures { IfOk result (λ decision. decision ≡
        Decision.Refuse refusal (refusal_output tool refusal)) }
{
    let text = refusal_text(alloc, tool, &refusal)?;
    let mut err = Bytes::new(alloc);
    push_line(&mut err, Some(tool), text.as_slice())?;
    let output = Output {
        status: refusal_status(tool, &refusal),
        out: Bytes::new(alloc),
        err,
    };
    Ok(Decision::Refuse(refusal, output))
}

/// The decision of a batch in which the tool of this line refuses, counted from 1: all tables stay,
/// and one line on the error stream tells which line refuses and why, with the status of its tool.
pub fn refuse_line(
    alloc: Global,
    number: u32,
    tool: Tool,
    refusal: Refusal,
) -> Result<Decision, AllocError>
    ensures { IfOk result (λ decision. decision ≡ Decision.RefuseLine number refusal
        (line_refusal_output (record { number = number; tool = tool; refusal = refusal }))) }
{
    let output = Output {
        status: refusal_status(tool, &refusal),
        out: Bytes::new(alloc),
        err: line_refusal_message(alloc, number, tool, &refusal)?,
    };
    Ok(Decision::RefuseLine(number, refusal, output))
}
