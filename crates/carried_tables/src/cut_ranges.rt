// What is left of a range by removals of IDs that follow one another (usermod(8), `-V` and `-W`;
// subuid(5), subgid(5)). It's kept as records, and printed once, behind the last removal.
ghost use Rattle.std.specs.Prelude.{◌≡◌, ◌++◌, ◌∷◌, [], flat_map, map, IfOk, IfSome, OnOk};
ghost use Rattle.std.specs.List.{AllByRecursion};
ghost use Rattle.acct_text.specs.Bytes.{newline};
ghost use Rattle.acct_text.specs.Lines.{file_bytes, line_bytes};
ghost use Rattle.acct_text.specs.Pieces.{Lacks};
ghost use Rattle.account_model.specs.Edits.{edited_by, printed_line};
ghost use Rattle.account_model.specs.RecordEdits.{IsWrittenEdit, records_edited};
ghost use Rattle.account_model.specs.Records.{subid_format};
ghost use Rattle.account_model.specs.Written.{IsWritten};
ghost use Rattle.acct_tables.specs.SeenLines.{seen_line};
ghost use Rattle.line_edits.specs.SeenEdits.{seen_edit, seen_edits};
ghost use Rattle.line_edits.specs.SubidChanges.{subid_becomes};
ghost use Rattle.carried_tables.specs.RangeRemovals.{IsLineOf, MakesRecords};

use acct_lines::{SubidRecord, TableRecord};
use acct_tables::{FileLine, read_record};
use acct_text::Bytes;
use line_edits::{Becoming, Edit, EditedRecord, SubidChange};
use std::alloc::{AllocError, Global};

/// The range that a line is, where it's the canonical line of it, with an end.
pub(crate) fn canonical_range(
    alloc: Global,
    line: &FileLine<'_>,
) -> Result<Option<SubidRecord>, AllocError>
    requires { Lacks newline line.now.text.now }
    ensures { IfOk result (λ found. IfSome found (IsLineOf (seen_line line.now))) }
{
    if !line.ended {
        return Ok(None);
    }
    let Some(range) = read_record::<SubidRecord>(alloc, line.text)? else {
        return Ok(None);
    };
    let text = range.print(alloc)?;
    if text.as_slice() != line.text {
        return Ok(None);
    }
    Ok(Some(range))
}

/// Adds the lines of what is left of a range by the edits.
pub(crate) fn push_left_of(
    alloc: Global,
    made: &mut Bytes,
    range: SubidRecord,
    edits: &[Edit<SubidRecord, SubidChange>],
) -> Result<(), AllocError>
    requires range { IsWritten subid_format range }
    requires written { AllByRecursion (IsWrittenEdit subid_format)
        (seen_edits subid_becomes edits.now) }
    requires records { AllByRecursion MakesRecords (seen_edits subid_becomes edits.now) }
    ensures { OnOk result (made.new ≡ made.old ++ file_bytes (edited_by subid_format
        (seen_edits subid_becomes edits.now) (printed_line subid_format range ∷ []))) }
{
    let ranges = ranges_left(alloc, range, edits)?;
    push_lines(alloc, made, &ranges)
}

// What is left of a range by the edits.
fn ranges_left(
    alloc: Global,
    range: SubidRecord,
    edits: &[Edit<SubidRecord, SubidChange>],
) -> Result<Vec<SubidRecord>, AllocError>
    requires range { IsWritten subid_format range }
    requires written { AllByRecursion (IsWrittenEdit subid_format)
        (seen_edits subid_becomes edits.now) }
    requires records { AllByRecursion MakesRecords (seen_edits subid_becomes edits.now) }
    ensures { IfOk result (λ left. map (printed_line subid_format) left.items
        ≡ edited_by subid_format (seen_edits subid_becomes edits.now)
        (printed_line subid_format range ∷ [])) }
{
    let mut ranges = Vec::new(alloc);
    ranges.push(range)?;
    'edits: for edit in edits {
        ranges = ranges_after(alloc, &ranges, edit)?;
    }
    Ok(ranges)
}

// What is left of ranges by an edit, which makes records of each.
fn ranges_after(
    alloc: Global,
    ranges: &[SubidRecord],
    edit: &Edit<SubidRecord, SubidChange>,
) -> Result<Vec<SubidRecord>, AllocError>
    requires written { AllByRecursion (IsWritten subid_format) ranges.now }
    requires records { MakesRecords (seen_edit subid_becomes edit.now) }
    ensures { IfOk result (λ left. left.items
        ≡ records_edited subid_format ranges.now (seen_edit subid_becomes edit.now)) }
{
    let mut left = Vec::new(alloc);
    if let Edit::Become(change) = edit {
        push_changed(alloc, &mut left, ranges, change)?;
    }
    Ok(left)
}

// Adds what becomes of ranges by a change.
fn push_changed(
    alloc: Global,
    left: &mut Vec<SubidRecord>,
    ranges: &[SubidRecord],
    change: &SubidChange,
) -> Result<(), AllocError>
    requires { AllByRecursion (IsWritten subid_format) ranges.now }
    ensures { OnOk result
        (left.new.items ≡ left.old.items ++ flat_map (subid_becomes change.now) ranges.now) }
{
    'pieces: for range in ranges {
        push_becoming(alloc, left, range, change)?;
    }
    Ok(())
}

// Adds what becomes of a range by a change.
fn push_becoming(
    alloc: Global,
    left: &mut Vec<SubidRecord>,
    range: &SubidRecord,
    change: &SubidChange,
) -> Result<(), AllocError>
    requires { IsWritten subid_format range.now }
    ensures { OnOk result (left.new.items ≡ left.old.items ++ subid_becomes change.now range.now) }
{
    match copy_of(range)?.becoming(alloc, change)? {
        Becoming::Stays => left.push(copy_of(range)?)?,
        Becoming::Changes(new) => left.push(new)?,
        Becoming::Goes => {}
        Becoming::Splits(below, above) => {
            left.push(below)?;
            left.push(above)?;
        }
    }
    Ok(())
}

// A copy of a range.
fn copy_of(range: &SubidRecord) -> Result<SubidRecord, AllocError>
    ensures { IfOk result (λ copy. copy ≡ range.now) }
{
    Ok(SubidRecord {
        owner: range.owner.copy()?,
        first: range.first,
        count: range.count,
    })
}

// Adds the canonical lines of ranges.
fn push_lines(alloc: Global, made: &mut Bytes, ranges: &[SubidRecord]) -> Result<(), AllocError>
    ensures { OnOk result
        (made.new ≡ made.old ++ file_bytes (map (printed_line subid_format) ranges.now)) }
{
    'pieces: for range in ranges {
        push_line(alloc, made, range)?;
    }
    Ok(())
}

// Adds the canonical line of a range, with an end.
fn push_line(alloc: Global, made: &mut Bytes, range: &SubidRecord) -> Result<(), AllocError>
    ensures { OnOk result
        (made.new ≡ made.old ++ line_bytes (printed_line subid_format range.now)) }
{
    let text = range.print(alloc)?;
    made.push(text.as_slice())?;
    made.push(b"\n")
}
