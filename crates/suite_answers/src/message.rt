// The line that a tool says of a cause, on the error stream.
ghost use Rattle.std.specs.Prelude.{◌≡◌, IfOk};
ghost use Rattle.account_model.specs.Messages.{line_by};
ghost use Rattle.suite_answers.specs.Answers.{message_of};
ghost use Rattle.suite_answers.specs.Reasons.{reason_text};

use crate::Cause;
use crate::reason::reason_text;
use account_model::Tool;
use acct_text::Bytes;
use std::alloc::{AllocError, Global};
use tool_answers::push_line;

/// What the tool says of the cause; empty where it says nothing.
pub(crate) fn of_cause(alloc: Global, tool: Tool, cause: &Cause) -> Result<Bytes, AllocError>
    ensures { IfOk result (λ text. text ≡ message_of tool cause.now) }
{
    match cause {
        Cause::Changed | Cause::Same | Cause::Refused(_) => Ok(Bytes::new(alloc)),
        Cause::RefusedLine(..) | Cause::OutputFault(_) => Ok(Bytes::new(alloc)),
        Cause::Syntax(_) | Cause::BatchSyntax(..) => Ok(Bytes::new(alloc)),
        _ => line_of(alloc, Some(tool), cause),
    }
}

/// The line with the reason, of the tool or, where none is known, of `accounts`.
pub(crate) fn line_of(alloc: Global, tool: Option<Tool>, cause: &Cause) -> Result<Bytes, AllocError>
    ensures { IfOk result (λ text. text ≡ line_by tool (reason_text cause.now)) }
{
    let reason = reason_text(alloc, cause)?;
    let mut line = Bytes::new(alloc);
    push_line(&mut line, tool, reason.as_slice())?;
    Ok(line)
}
