// The change that a command decides once it is carried out: the tables that differ from the files.
ghost use Rattle.std.specs.Prelude.{◌≡◌, IfOk};
ghost use Rattle.account_model.specs.WrittenScript.{IsWrittenScript};
ghost use Rattle.acct_text.specs.ChangedTables.{changed_tables};
ghost use Rattle.acct_text.specs.Files.{table_of};
ghost use Rattle.tool_answers.specs.Decisions.{decision_by};
ghost use Rattle.carried_tables.specs.Changes.{UneditedStay, StandWhere};
ghost use Rattle.carried_tables.specs.Scripts.{seen_script};
ghost use Rattle.suite_tools.specs.Carrying.{EditsDecide};

use account_model::Tool;
use acct_text::Files;
use carried_tables::{CarriedTables, TouchedTables};
use std::alloc::{AllocError, Global};
use table_edits::Script;
use tool_answers::{Decision, Output, ToolFault, decision_by, refuse};

/// What a command decides by the edits of its tool, which prints this: they are carried out on the
/// tables, which are the files.
pub(crate) fn decide_edits(
    alloc: Global,
    tool: Tool,
    files: &Files,
    mut tables: CarriedTables,
    script: &Script,
    output: Output,
) -> Result<Decision, AllocError>
    requires are { tables ≡ files.now }
    requires written { IsWrittenScript (seen_script script.now) }
    ensures { IfOk result (EditsDecide tool files.now script.now output) }
{
    match tables.carry_out(alloc, script) {
        Ok(touched) => decide_change(alloc, files, tables, touched, output),
        Err(ToolFault::Refused(refusal)) => refuse(alloc, tool, refusal),
        Err(ToolFault::Memory) => Err(AllocError),
    }
}

/// What is decided where this is printed: the tables that differ from the first files get their
/// bytes, which are taken out of those that were carried. None but these may differ.
pub(crate) fn decide_change(
    alloc: Global,
    first: &Files,
    mut tables: CarriedTables,
    touched: TouchedTables,
    output: Output,
) -> Result<Decision, AllocError>
    requires stand { StandWhere first.now tables }
    requires left { UneditedStay touched first.now tables }
    ensures { IfOk result (λ decision. decision ≡ decision_by
        (changed_tables (table_of first.now) (table_of tables.entry)) output) }
{
    let changed = tables.take_changes(alloc, first, touched)?;
    Ok(decision_by(changed, output))
}
