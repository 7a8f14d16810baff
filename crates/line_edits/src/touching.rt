// Whether an edit touches the record that a line is, and whether two edits are the same.
ghost use Rattle.std.specs.Prelude.{◌≡◌, true, false, IfOk};
ghost use Rattle.acct_text.specs.Bytes.{newline};
ghost use Rattle.acct_text.specs.Pieces.{Lacks};
ghost use Rattle.account_model.specs.Edits as model;
ghost use Rattle.account_model.specs.RecordEdits.{IsWrittenEdit};
ghost use Rattle.line_edits.specs.SeenEdits.{seen_edit};
ghost use Rattle.line_edits.specs.Touching.{touches_text};

use crate::fields::has_other_name;
use crate::{Becoming, Edit, EditedRecord};
use acct_tables::{is_named, read_record};
use std::alloc::{AllocError, Global};

/// Whether the edit surely leaves the record that the line is, if it is one, by what can be seen without
/// memory.
pub fn leaves<R: EditedRecord>(edit: &Edit<R, R::Change>, line: &[u8]) -> bool
    ensures { result ≡ true
        → touches_text R.format (seen_edit R.becomes edit.now) line.now ≡ false }
{
    match edit {
        Edit::Become(change) => R::leaves(change, line),
        Edit::Put(item) => has_other_name(line, item.name()),
        Edit::Add(_) | Edit::AddMissing(_) => true,
    }
}

/// Whether both edits surely do the same with the records of each table.
pub fn are_same<R: EditedRecord>(one: &Edit<R, R::Change>, other: &Edit<R, R::Change>) -> bool
    ensures { result ≡ true
        → seen_edit R.becomes one.now ≡ seen_edit R.becomes other.now }
{
    match (one, other) {
        (Edit::Become(change), Edit::Become(again)) => R::are_same(change, again),
        _ => false,
    }
}

/// Whether the edit touches the record that the line is; other text is never touched.
pub fn touches<R: EditedRecord + Drop>(
    alloc: Global,
    edit: &Edit<R, R::Change>,
    line: &[u8],
) -> Result<bool, AllocError>
    requires written { IsWrittenEdit R.format (seen_edit R.becomes edit.now) }
    requires one_line { Lacks newline line.now }
    ensures { IfOk result (λ touched. touched ≡
        touches_text R.format (seen_edit R.becomes edit.now) line.now) }
{
    match edit {
        Edit::Become(change) => changes::<R>(alloc, change, line),
        Edit::Put(item) => Ok(is_named::<R>(line, item.name())),
        Edit::Add(_) | Edit::AddMissing(_) => Ok(false),
    }
}

// Whether the record becomes others, or goes.
fn changes<R: EditedRecord + Drop>(
    alloc: Global,
    change: &R::Change,
    line: &[u8],
) -> Result<bool, AllocError>
    requires written { IsWrittenEdit R.format (model.Become (R.becomes change.now)) }
    requires one_line { Lacks newline line.now }
    ensures { IfOk result (λ changes. changes ≡
        touches_text R.format (model.Become (R.becomes change.now)) line.now) }
{
    let Some(item) = read_record::<R>(alloc, line)? else {
        return Ok(false);
    };
    let kept = item.print(alloc)?;
    match item.becoming(alloc, change)? {
        Becoming::Stays => Ok(false),
        Becoming::Changes(new) => Ok(new.print(alloc)?.as_slice() != kept.as_slice()),
        Becoming::Goes | Becoming::Splits(..) => Ok(true),
    }
}
