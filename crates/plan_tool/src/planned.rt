// The decision of a plan.
ghost use Rattle.std.specs.Prelude.{◌≡◌, ◌++◌, flat_map, IfOk, OnOk};
ghost use Rattle.account_model.specs.PlanDiff.{diff_text};
ghost use Rattle.account_model.specs.PlanTexts.{size_line, plan_text};
ghost use Rattle.plan_tool.specs.Planned.{planned_decision, planned_output};
ghost use Rattle.plan_tool.specs.SeenChanges.{changes_told, files_then, seen_change};

use crate::{PlanForm, PlannedFiles, TableChange, changes, json_told, push_diff};
use acct_text::Piece::{Number, Text};
use acct_text::{Bytes, Files};
use std::alloc::{AllocError, Global};
use tool_answers::{Decision, Output};

/// The decision of a plan on the files, by what its command decides there: no table changes, and it
/// prints in this form what would. Status, message and refusal are those of the command.
pub fn as_plan(
    alloc: Global,
    form: PlanForm,
    decision: Decision,
    files: &Files,
) -> Result<Decision, AllocError>
    ensures { IfOk result (λ plan. plan ≡ planned_decision form files.now decision) }
{
    let stay = PlannedFiles { files, news: &[] };
    match decision {
        Decision::Change(news, output) => {
            let news = news.as_slice();
            let planned = PlannedFiles { files, news };
            Ok(Decision::Same(planned_output(alloc, form, planned, output)?))
        }
        Decision::Same(output) => Ok(Decision::Same(planned_output(alloc, form, stay, output)?)),
        Decision::Refuse(refusal, output) => {
            let output = planned_output(alloc, form, stay, output)?;
            Ok(Decision::Refuse(refusal, output))
        }
        Decision::RefuseLine(number, refusal, output) => {
            let output = planned_output(alloc, form, stay, output)?;
            Ok(Decision::RefuseLine(number, refusal, output))
        }
    }
}

// What a plan prints, whose command prints this.
fn planned_output(
    alloc: Global,
    form: PlanForm,
    files: PlannedFiles<'_>,
    output: Output,
) -> Result<Output, AllocError>
    ensures { IfOk result (λ planned. planned
        ≡ planned_output form files.entry.files.now (files_then files.entry) output) }
{
    let mut output = output;
    match form {
        PlanForm::Sizes => push_sizes(alloc, &mut output.out, files)?,
        PlanForm::Diff => push_diffs(alloc, &mut output.out, files)?,
        PlanForm::Json => output.out = json_told(alloc, files, &output)?,
    }
    Ok(output)
}

// Adds the sizes of the tables that would change.
fn push_sizes(alloc: Global, out: &mut Bytes, files: PlannedFiles<'_>) -> Result<(), AllocError>
    ensures { OnOk result (out.new ≡ out.old ++ flat_map size_line (changes_told files.entry)) }
{
    let changes = changes(alloc, files)?;
    for change in changes.as_slice() {
        let line = size_line(alloc, *change)?;
        out.push(line.as_slice())?;
    }
    Ok(())
}

// Adds the diffs of the tables that would change.
fn push_diffs(alloc: Global, out: &mut Bytes, files: PlannedFiles<'_>) -> Result<(), AllocError>
    ensures { OnOk result (out.new ≡ out.old ++ flat_map diff_text (changes_told files.entry)) }
{
    let changes = changes(alloc, files)?;
    for change in changes.as_slice() {
        push_diff(alloc, out, *change)?;
    }
    Ok(())
}

// The line of a table that would change.
fn size_line(alloc: Global, change: TableChange<'_>) -> Result<Bytes, AllocError>
    ensures { IfOk result (λ line. line ≡ size_line (seen_change change.entry)) }
{
    Bytes::made_of(
        alloc,
        &[
            Text(b"would change "),
            Text(change.table.name().as_bytes()),
            Text(b" "),
            Number(change.old.len() as u64),
            Text(b" "),
            Number(change.new.len() as u64),
            Text(b"\n"),
        ],
    )
}
