// What a command decides, by what its tool answers.
ghost use Rattle.std.specs.Prelude.{◌≡◌, ◌≤◌, length, IfOk};
ghost use Rattle.acct_text.specs.Limits.{last_day, table_limit};
ghost use Rattle.login_defs.specs.Held.{IsHeld};
ghost use Rattle.option_words.specs.Parsed.{request_in};
ghost use Rattle.suite_tools.specs.Deciding.{CommandDecides};

use crate::Decision;
use crate::answer::{Answered, answer_of};
use crate::change::decide_edits;
use crate::lines::decide_lines;
use crate::opening::tables_for;
use account_model::tools_are_written;
use acct_text::{Bytes, Files};
use command_values::Asked;
use login_defs::Defs;
use option_words::Parsed;
use std::alloc::{AllocError, Global};
use table_edits::Tables;
use tool_answers::{ToolFault, refuse};

/// What the command decides on these files, by the settings and the day, in days since 1970-01-01.
/// The input is that of chpasswd(8) or chgpasswd(8), or the lines of a batch, of at most 16,777,216 bytes.
/// An absent passwd or group has no records here; the fault is for the caller to find before.
pub fn decide(
    alloc: Global,
    parsed: &Parsed,
    input: &Bytes,
    files: &Files,
    defs: &Defs,
    day: u32,
) -> Result<Decision, AllocError>
    requires small { length input.now ≤ table_limit }
    requires held { IsHeld defs.now }
    requires in_time { day ≤ last_day }
    ensures { IfOk result
        (CommandDecides defs.now day (request_in parsed.now) input.now files.now) }
{
    let asked = &Asked::of(parsed);
    let text = input.as_slice();
    let tables = tables_for(alloc, asked, text, files)?;
    tools_are_written();
    match answer_of(alloc, asked, text, files, &Tables::of(&tables), defs, day) {
        Ok(Answered::Edits(script, output)) => {
            decide_edits(alloc, asked.tool(), files, tables, &script, output)
        }
        Ok(Answered::Decides(decision)) => Ok(decision),
        Ok(Answered::Lines) => {
            decide_lines(alloc, asked.has(b'e'), input, files, tables, defs, day)
        }
        Err(ToolFault::Refused(refusal)) => refuse(alloc, asked.tool(), refusal),
        Err(ToolFault::Memory) => Err(AllocError),
    }
}
