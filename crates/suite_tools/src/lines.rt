// What a batch decides: line by line, each on what the lines before it have written.
ghost use Rattle.std.specs.Prelude.{◌≡◌, ◌≤◌, length, IfOk};
ghost use Rattle.acct_text.specs.Limits.{last_day, table_limit};
ghost use Rattle.login_defs.specs.Held.{IsHeld};
ghost use Rattle.suite_tools.specs.Deciding.{LinesDecideUnder};

use crate::opening::index_for_lines;
use crate::written::Written;
use acct_text::{Bytes, Files};
use carried_tables::CarriedTables;
use login_defs::Defs;
use option_words::BatchLines;
use std::alloc::{AllocError, Global};
use tool_answers::{Decision, refuse_line};

/// What a batch decides on these files, which the tables are, by the lines of its input, which has at most 16,777,216
/// bytes, by the settings and the day, in days since 1970-01-01: the first line that refuses refuses
/// the batch with its number, and else the tables become what the last line leaves. A line that asks
/// for nothing is left out; that fault is for the caller to find before. Where the batch is to ensure
/// what its lines say, a line that is done already is passed by.
pub(crate) fn decide_lines(
    alloc: Global,
    ensuring: bool,
    input: &Bytes,
    files: &Files,
    mut tables: CarriedTables,
    defs: &Defs,
    day: u32,
) -> Result<Decision, AllocError>
    requires are { tables ≡ files.now }
    requires small { length input.now ≤ table_limit }
    requires held { IsHeld defs.now }
    requires in_time { day ≤ last_day }
    ensures { IfOk result (LinesDecideUnder ensuring defs.now day input.now files.now) }
{
    index_for_lines(alloc, input.as_slice(), &mut tables)?;
    let mut written = Written::nothing(alloc, tables);
    let mut lines = BatchLines::of(alloc, input.as_slice());
    'lines: while let Some(line) = lines.next_request()? {
        if let Some(refusal) = written.carry_out(alloc, ensuring, &line, files, defs, day)? {
            return refuse_line(alloc, line.number, line.parsed.tool, refusal);
        }
    }
    written.decision(alloc, files)
}
