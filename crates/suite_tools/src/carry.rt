// What a line of a batch does with the tables.
ghost use Rattle.std.specs.Prelude.{◌≡◌, ◌≤◌, [], true};
ghost use Rattle.acct_text.specs.Limits.{last_day};
ghost use Rattle.account_model.specs.Words.{is_for_lines};
ghost use Rattle.login_defs.specs.Held.{IsHeld};
ghost use Rattle.suite_tools.specs.Carrying.{CarriesUnder};

use crate::Output;
use crate::answer::{Answered, answer_of};
use account_model::tools_are_written;
use acct_text::Files;
use carried_tables::{CarriedTables, TouchedTables};
use command_values::Asked;
use login_defs::Defs;
use std::alloc::Global;
use table_edits::Tables;
use tool_answers::ToolFault;

/// What a line prints that is carried out, and the tables that may differ then.
#[derive(Drop)]
pub(crate) struct Carried {
    pub(crate) output: Output,
    pub(crate) touched: TouchedTables,
}

/// Carries out what a line asks for on the tables, by the settings and the day, in days since
/// 1970-01-01, and gives what its tool prints, with the tables that it touches. The files are those of
/// before the batch.
///
/// At `Refused` the tool refuses, and the tables are as before. At `Memory` a part may be carried out.
pub(crate) fn carry_out(
    alloc: Global,
    asked: &Asked,
    files: &Files,
    tables: &mut CarriedTables,
    defs: &Defs,
    day: u32,
) -> Result<Carried, ToolFault>
    requires held { IsHeld defs.now }
    requires in_time { day ≤ last_day }
    requires for_lines { is_for_lines asked.now.tool ≡ true }
    ensures { CarriesUnder defs.now day asked.now [] tables.old tables.new result }
{
    match answer_of(alloc, asked, b"", files, &Tables::of(tables), defs, day)? {
        Answered::Edits(script, output) => {
            tools_are_written();
            let touched = tables.carry_out(alloc, &script)?;
            Ok(Carried { output, touched })
        }
        // No line names a batch, or a tool that looks through whole tables.
        Answered::Decides(_) | Answered::Lines => unreachable!(),
    }
}
