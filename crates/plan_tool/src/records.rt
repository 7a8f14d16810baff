// The records of the lines that are new in a table, as objects of JSON.
ghost use Rattle.std.specs.Prelude.{◌≡◌, ◌++◌, ℕ, List, [], map, filter_map, option_map, IfOk, OnOk};
ghost use Rattle.account_model.specs.PlanJson.{new_array, new_records, json_array};
ghost use Rattle.plan_tool.specs.SeenChanges.{seen_change};
ghost use Rattle.plan_tool.specs.SeenDiff.{objects_of, seen_diff_line};

use crate::{DiffLine, Fate, TableChange, diff_lines, push_string};
use account_model::{GroupRecord, PasswdRecord, SubidRecord};
use acct_tables::{TableRecord, read_record};
use acct_text::Piece::{Number, Text};
use acct_text::{Bytes, Names, join};
use std::alloc::{AllocError, Global};

/// A record that a plan tells of where its line is new.
pub(crate) trait ToldRecord: TableRecord {
    // the record as an object
    ghost object: { Self → List ℕ };

    /// The record as an object.
    fn object(&self, alloc: Global) -> Result<Bytes, AllocError>
        ensures { IfOk result (λ text. text ≡ object self.now) };
}

impl ToldRecord for PasswdRecord {
    ghost use Rattle.account_model.specs.PlanJson.{user_object};

    ghost object = { user_object };

    fn object(&self, alloc: Global) -> Result<Bytes, AllocError> {
        let mut text = Bytes::of(alloc, b"{\"name\":")?;
        push_string(alloc, &mut text, self.name.as_slice())?;
        text.push_pieces(&[
            Text(b",\"uid\":"),
            Number(u64::from(self.uid)),
            Text(b",\"gid\":"),
            Number(u64::from(self.gid)),
            Text(b"}"),
        ])?;
        Ok(text)
    }
}

impl ToldRecord for GroupRecord {
    ghost use Rattle.account_model.specs.PlanJson.{group_object};

    ghost object = { group_object };

    fn object(&self, alloc: Global) -> Result<Bytes, AllocError> {
        let mut text = Bytes::of(alloc, b"{\"name\":")?;
        push_string(alloc, &mut text, self.name.as_slice())?;
        text.push_pieces(&[Text(b",\"gid\":"), Number(u64::from(self.gid)), Text(b"}")])?;
        Ok(text)
    }
}

impl ToldRecord for SubidRecord {
    ghost use Rattle.account_model.specs.PlanJson.{range_object};

    ghost object = { range_object };

    fn object(&self, alloc: Global) -> Result<Bytes, AllocError> {
        let mut text = Bytes::of(alloc, b"{\"owner\":")?;
        push_string(alloc, &mut text, self.owner.as_slice())?;
        text.push_pieces(&[
            Text(b",\"start\":"),
            Number(u64::from(self.first)),
            Text(b",\"count\":"),
            Number(u64::from(self.count)),
            Text(b"}"),
        ])?;
        Ok(text)
    }
}

/// Adds the array of the records of the lines that are new in a table, none where it stays. At
/// `AllocError` a front of it may have been added.
pub(crate) fn push_new_array<R: ToldRecord + Drop>(
    alloc: Global,
    out: &mut Bytes,
    change: Option<TableChange<'_>>,
) -> Result<(), AllocError>
    ensures { OnOk result (out.new
        ≡ out.old ++ new_array R.format R.object (option_map seen_change change.entry)) }
{
    let objects = match change {
        Some(change) => new_objects::<R>(alloc, change)?,
        None => Names::new(alloc),
    };
    push_array(alloc, out, &objects)
}

/// Adds the array of these values.
pub(crate) fn push_array(alloc: Global, out: &mut Bytes, values: &Names) -> Result<(), AllocError>
    ensures { OnOk result (out.new ≡ out.old ++ json_array values.now) }
{
    let values = join(alloc, b',', values)?;
    out.push_pieces(&[Text(b"["), Text(values.as_slice()), Text(b"]")])
}

// The records of the lines that are new in a table that changes.
fn new_objects<R: ToldRecord + Drop>(
    alloc: Global,
    change: TableChange<'_>,
) -> Result<Names, AllocError>
    ensures { IfOk result (λ objects. objects
        ≡ map R.object (new_records R.format (Some (seen_change change.entry)))) }
{
    let lines = diff_lines(alloc, change.old, change.new)?;
    let mut objects = Names::new(alloc);
    for line in lines.as_slice() {
        push_object::<R>(alloc, &mut objects, *line)?;
    }
    Ok(objects)
}

// Adds the object of a line that is new, where it is a record.
fn push_object<R: ToldRecord + Drop>(
    alloc: Global,
    objects: &mut Names,
    line: DiffLine<'_>,
) -> Result<(), AllocError>
    ensures { OnOk result (objects.new
        ≡ objects.old ++ objects_of R.format R.object (seen_diff_line line.entry)) }
{
    if line.fate == Fate::New {
        if let Some(found) = read_record::<R>(alloc, line.line.text)? {
            let text = found.object(alloc)?;
            objects.push(text.as_slice())?;
        }
    }
    Ok(())
}
