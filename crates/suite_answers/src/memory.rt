// The line of `Memory`, which is put in pieces that take no memory to make.
ghost use Rattle.acct_outside.specs.Faults.{CountsFailure};
ghost use Rattle.acct_outside.specs.Streams.{WhereBytesTold};
ghost use Rattle.suite_answers.specs.Reasons.{memory_message};
ghost use Rattle.suite_answers.specs.Fronts.{PutsFront};

use crate::reason::stage_text;
use account_model::Tool;
use acct_outside::{CommitStage, Sink, SinkFault};
use tool_answers::speaker;

/// Puts the line of want of memory at a stage: of the tool, or of `accounts` where none is known.
///
/// At `Failed` and at `Memory`, which are the sink's, it holds a front of the line more.
pub fn put_memory_text<E: Sink>(
    err: &mut E,
    tool: Option<Tool>,
    stage: CommitStage,
) -> Result<(), SinkFault>
    ensures holds { WhereBytesTold (E.moment err.old).holds (E.moment err.new).holds
        (PutsFront (memory_message tool stage) result) }
    ensures faults { CountsFailure SinkFault.Failed (E.moment err.old).faults
        (E.moment err.new).faults result }
{
    err.put(speaker(tool))?;
    err.put(b": ")?;
    err.put(stage_text(stage))?;
    err.put(b": want of memory\n")
}
