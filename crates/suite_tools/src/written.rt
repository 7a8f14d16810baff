// What the lines of a batch have written so far.
ghost use Rattle.std.specs.Prelude.{◌≡◌, ◌≤◌, ◌++◌, List, true, IfOk, OnOk};
ghost use Rattle.acct_text.specs.Limits.{last_day};
ghost use Rattle.account_model.specs.Batch.{is_done, line_outcome, nothing_on};
ghost use Rattle.account_model.specs.Settings.{Setting};
ghost use Rattle.account_model.specs.Words.{is_for_lines};
ghost use Rattle.login_defs.specs.Held.{HasSettings, IsHeld};
ghost use Rattle.tool_answers.specs.Decisions.{written_decision};
ghost use Rattle.carried_tables.specs.Changes.{StandWhere, UneditedStay};
ghost use Rattle.suite_tools.specs.Writing.{IsWrittenBehind, seen_written};

use crate::carry::carry_out;
use crate::change::decide_change;
use account_model::{Done, Refusal, Tool};
use acct_text::{Bytes, Files};
use carried_tables::{CarriedTables, TouchedTables};
use command_values::Asked;
use login_defs::Defs;
use option_words::LineRequest;
use std::alloc::{AllocError, Global};
use tool_answers::{Decision, Output, ToolFault};

// The status of a batch whose lines are all carried out, whatever theirs are.
const CARRIED_OUT: u8 = 0;

/// The tables that the lines so far leave, carried from line to line, with those that may differ from the
/// first, and what these lines print.
#[derive(Drop)]
pub(crate) struct Written<'a> {
    tables: CarriedTables<'a>,
    touched: TouchedTables,
    out: Bytes,
    err: Bytes,
}

impl<'a> Written<'a> {
    /// What no lines leave of these tables.
    pub(crate) fn nothing(alloc: Global, tables: CarriedTables<'a>) -> Self
        ensures { seen_written result ≡ nothing_on tables.entry }
    {
        Written {
            tables,
            touched: TouchedTables::NONE,
            out: Bytes::new(alloc),
            err: Bytes::new(alloc),
        }
    }

    /// Carries out what a line asks for behind those that have written this, or tells why its tool
    /// refuses.
    ///
    /// A line that is done already is passed by, where that is wanted. Where it refuses all stays as it
    /// was written; at `AllocError` a part of the line may be written. The files are those of before the
    /// batch.
    pub(crate) fn carry_out(
        &mut self,
        alloc: Global,
        ensuring: bool,
        line: &LineRequest,
        files: &Files,
        defs: &Defs,
        day: u32,
    ) -> Result<Option<Refusal>, AllocError>
        requires held { IsHeld defs.now }
        requires in_time { day ≤ last_day }
        requires for_lines { is_for_lines line.now.request.tool ≡ true }
        requires left { UneditedStay self.old.touched files.now self.old.tables }
        ensures written { IfOk result (λ refusal.
            (settings : List Setting) → HasSettings defs.now settings
            → IsWrittenBehind line.now.request.tool (seen_written self.old) (seen_written self.new)
            refusal (line_outcome ensuring line.now.request day settings self.old.tables)) }
        ensures left { OnOk result (UneditedStay self.new.touched files.now self.new.tables) }
    {
        let asked = &Asked::of(&line.parsed);
        match carry_out(alloc, asked, files, &mut self.tables, defs, day) {
            Ok(carried) => {
                self.touched = self.touched.joined(carried.touched);
                self.print(&carried.output)?;
                Ok(None)
            }
            Err(ToolFault::Refused(refusal)) if ensuring && is_done(line.parsed.tool, &refusal) => {
                Ok(None)
            }
            Err(ToolFault::Refused(refusal)) => Ok(Some(refusal)),
            Err(ToolFault::Memory) => Err(AllocError),
        }
    }

    // Prints what a line prints, behind the others. At `AllocError` a part of it may be there.
    fn print(&mut self, output: &Output) -> Result<(), AllocError>
        ensures { OnOk result (self.new ≡ record self.old {
          out = self.old.out ++ output.now.out;
          err = self.old.err ++ output.now.err;
        }) }
    {
        self.out.push(output.out.as_slice())?;
        self.err.push(output.err.as_slice())
    }

    /// What is decided where no line follows: the tables that differ from the first files get their
    /// bytes.
    pub(crate) fn decision(self, alloc: Global, first: &Files) -> Result<Decision, AllocError>
        requires stand { StandWhere first.now self.tables }
        requires left { UneditedStay self.touched first.now self.tables }
        ensures { IfOk result (λ decision.
            decision ≡ written_decision first.now (seen_written self.entry)) }
    {
        let Written {
            tables,
            touched,
            out,
            err,
        } = self;
        let status = CARRIED_OUT;
        let output = Output { status, out, err };
        decide_change(alloc, first, tables, touched, output)
    }
}

// Whether the tool refuses as what it is to make stands already, or what it is to remove is gone.
fn is_done(tool: Tool, refusal: &Refusal) -> bool
    ensures { result ≡ is_done tool refusal.now }
{
    matches!(
        (tool.row().done, refusal),
        (Done::UserStands, Refusal::UserExists(_))
            | (Done::GroupStands, Refusal::GroupExists(_))
            | (Done::UserGone, Refusal::NoUser(_))
            | (Done::GroupGone, Refusal::NoGroup(_))
            | (Done::MemberGone, Refusal::NotMember(..))
    )
}
