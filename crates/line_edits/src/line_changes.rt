// What becomes of the lines of a table's file by a change: those that it leaves are copied unread.
ghost use Rattle.std.specs.Prelude.{◌≡◌, ◌++◌, [], ◌∷◌, Some, IfOk, OnOk};
ghost use Rattle.acct_text.specs.Bytes.{newline};
ghost use Rattle.acct_text.specs.Lines.{file_bytes, line_bytes, lines_of};
ghost use Rattle.acct_text.specs.Pieces.{Lacks};
ghost use Rattle.account_model.specs.Edits.{becomes, edited, line_becomes, printed_line};
ghost use Rattle.account_model.specs.Edits as model;
ghost use Rattle.account_model.specs.RecordEdits.{IsWrittenEdit};
ghost use Rattle.account_model.specs.Written.{IsWritten};
ghost use Rattle.acct_tables.specs.SeenLines.{seen_line};

use crate::{Becoming, EditedRecord};
use acct_tables::{FileLine, Lines, read_record};
use acct_text::Bytes;
use std::alloc::{AllocError, Global};

/// The text in which each record became what the change gives of it.
pub fn changed_text<R: EditedRecord + Drop>(
    alloc: Global,
    text: &[u8],
    change: &R::Change,
) -> Result<Bytes, AllocError>
    requires { IsWrittenEdit R.format (model.Become (R.becomes change.now)) }
    ensures { IfOk result (λ bytes. bytes ≡ file_bytes
        (edited R.format (lines_of text.now) (model.Become (R.becomes change.now)))) }
{
    let mut made = Bytes::new(alloc);
    let mut left = Lines::of(text);
    'lines: while let Some(line) = left.take() {
        push_changed::<R>(alloc, &mut made, &line, change)?;
    }
    Ok(made)
}

// Adds what becomes of a line. One that the change leaves isn't read.
fn push_changed<R: EditedRecord + Drop>(
    alloc: Global,
    made: &mut Bytes,
    line: &FileLine<'_>,
    change: &R::Change,
) -> Result<(), AllocError>
    requires one_line { Lacks newline line.now.text.now }
    requires written { IsWrittenEdit R.format (model.Become (R.becomes change.now)) }
    ensures { OnOk result (made.new ≡ made.old
        ++ file_bytes (becomes R.format (R.becomes change.now) (seen_line line.now))) }
{
    if R::leaves(change, line.text) {
        return line.push_to(made);
    }
    match read_record::<R>(alloc, line.text)? {
        Some(item) => push_becoming(alloc, made, line, item, change),
        None => line.push_to(made),
    }
}

// Adds what becomes of the line of a record.
fn push_becoming<R: EditedRecord + Drop>(
    alloc: Global,
    made: &mut Bytes,
    line: &FileLine<'_>,
    item: R,
    change: &R::Change,
) -> Result<(), AllocError>
    requires item { IsWritten R.format item }
    requires written { IsWrittenEdit R.format (model.Become (R.becomes change.now)) }
    ensures { OnOk result (made.new ≡ made.old ++ file_bytes
        (line_becomes R.format (seen_line line.now) item (R.becomes change.now item))) }
{
    let kept = item.print(alloc)?;
    match item.becoming(alloc, change)? {
        Becoming::Stays => line.push_to(made),
        Becoming::Changes(new) => push_instead(alloc, made, line, kept.as_slice(), &new),
        Becoming::Goes => Ok(()),
        Becoming::Splits(first, second) => {
            push_new(alloc, made, &first)?;
            push_new(alloc, made, &second)
        }
    }
}

// Adds the line of a record with this canonical text, or that of another in its place, which keeps
// the line's end. The same record keeps its bytes.
fn push_instead<R: EditedRecord + Drop>(
    alloc: Global,
    made: &mut Bytes,
    line: &FileLine<'_>,
    kept: &[u8],
    new: &R,
) -> Result<(), AllocError>
    requires { IsWritten R.format new.now }
    ensures { OnOk result ((old : R) → IsWritten R.format old → R.format.print old ≡ kept.now
        → made.new ≡ made.old ++ file_bytes
        (line_becomes R.format (seen_line line.now) old (new.now ∷ []))) }
{
    let text = new.print(alloc)?;
    if text.as_slice() == kept {
        return line.push_to(made);
    }
    let changed = FileLine {
        text: text.as_slice(),
        ended: line.ended,
    };
    changed.push_to(made)
}

// Adds the line of a new record, with an end.
fn push_new<R: EditedRecord + Drop>(
    alloc: Global,
    made: &mut Bytes,
    item: &R,
) -> Result<(), AllocError>
    requires { IsWritten R.format item.now }
    ensures { OnOk result (made.new ≡ made.old ++ line_bytes (printed_line R.format item.now)) }
{
    let text = item.print(alloc)?;
    made.push(text.as_slice())?;
    made.push(b"\n")
}
