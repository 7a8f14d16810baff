// The JSON object of a plan.
ghost use Rattle.std.specs.Prelude.{◌≡◌, ◌++◌, map, IfOk, OnOk};
ghost use Rattle.account_model.specs.PlanChanges.{changes};
ghost use Rattle.account_model.specs.PlanJson.{json_array, json_told, table_object};
ghost use Rattle.account_model.specs.Text.{without_last};
ghost use Rattle.acct_text.specs.Bytes.{newline};
ghost use Rattle.plan_tool.specs.SeenChanges.{change_told, changes_told, files_then, seen_change, with_new};

use crate::records::{push_array, push_new_array};
use crate::{PlannedFiles, TableChange, changes, push_string};
use account_model::{GroupRecord, PasswdRecord, SubidRecord};
use acct_text::Piece::{Number, Text};
use acct_text::{Bytes, Names, Tab, push_decimal};
use std::alloc::{AllocError, Global};
use tool_answers::Output;

/// The object of a plan, for a command that prints this.
pub(crate) fn json_told(
    alloc: Global,
    files: PlannedFiles<'_>,
    output: &Output,
) -> Result<Bytes, AllocError>
    ensures { IfOk result (λ text. text ≡ json_told files.entry.files.now (files_then files.entry)
        output.now.status output.now.out output.now.err) }
{
    let mut text = Bytes::of(alloc, b"{\"status\":")?;
    push_decimal(&mut text, u64::from(output.status))?;
    text.push(b",\"message\":")?;
    push_string(alloc, &mut text, without_newline(output.err.as_slice()))?;
    text.push(b",\"output\":")?;
    push_string(alloc, &mut text, output.out.as_slice())?;
    push_new(alloc, &mut text, files)?;
    text.push(b",\"tables\":")?;
    push_tables(alloc, &mut text, files)?;
    text.push(b"}\n")?;
    Ok(text)
}

// Adds the new users, groups and ranges.
fn push_new(alloc: Global, text: &mut Bytes, files: PlannedFiles<'_>) -> Result<(), AllocError>
    ensures { OnOk result (text.new ≡ with_new text.old (change_told files.entry)) }
{
    text.push(b",\"users\":")?;
    push_new_array::<PasswdRecord>(alloc, text, files.change(Tab::Passwd))?;
    text.push(b",\"groups\":")?;
    push_new_array::<GroupRecord>(alloc, text, files.change(Tab::Group))?;
    text.push(b",\"subuids\":")?;
    push_new_array::<SubidRecord>(alloc, text, files.change(Tab::Subuid))?;
    text.push(b",\"subgids\":")?;
    push_new_array::<SubidRecord>(alloc, text, files.change(Tab::Subgid))
}

// The text without the newline at its end.
fn without_newline(text: &[u8]) -> &[u8]
    ensures { result.now ≡ without_last newline text.now }
{
    match text.split_last() {
        Some((last, line)) => if *last == b'\n' { line } else { text },
        None => text,
    }
}

// Adds the array of the tables that would change.
fn push_tables(alloc: Global, text: &mut Bytes, files: PlannedFiles<'_>) -> Result<(), AllocError>
    ensures { OnOk result (text.new
        ≡ text.old ++ json_array (map table_object (changes_told files.entry))) }
{
    let changes = changes(alloc, files)?;
    let mut objects = Names::new(alloc);
    for change in changes.as_slice() {
        let object = table_object(alloc, *change)?;
        objects.push(object.as_slice())?;
    }
    push_array(alloc, text, &objects)
}

// A table that would change.
fn table_object(alloc: Global, change: TableChange<'_>) -> Result<Bytes, AllocError>
    ensures { IfOk result (λ text. text ≡ table_object (seen_change change.entry)) }
{
    Bytes::made_of(
        alloc,
        &[
            Text(b"{\"name\":\""),
            Text(change.table.name().as_bytes()),
            Text(b"\",\"old\":"),
            Number(change.old.len() as u64),
            Text(b",\"new\":"),
            Number(change.new.len() as u64),
            Text(b"}"),
        ],
    )
}
