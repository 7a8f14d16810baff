// The texts that stand in a place after an edit (passwd(5), shadow(5), group(5), gshadow(5), subuid(5),
// subgid(5)). A text that the edit leaves isn't read, nor is one whose parts tell what becomes of it.
ghost use Rattle.std.specs.Prelude.{◌≡◌, ◌++◌, [], ◌∷◌, true, Some, flat_map, map, IfOk, OnOk};
ghost use Rattle.std.specs.List.{AllByRecursion};
ghost use Rattle.acct_text.specs.Bytes.{newline};
ghost use Rattle.acct_text.specs.Pieces.{Lacks};
ghost use Rattle.account_model.specs.Edits as model;
ghost use Rattle.account_model.specs.RecordEdits.{IsWrittenEdit};
ghost use Rattle.account_model.specs.Written.{IsWritten};
ghost use Rattle.line_edits.specs.Naming.{LeavesIt};
ghost use Rattle.table.specs.Changed.{text_becomes, text_instead, text_put, texts_becoming, texts_with};

use acct_tables::{TableRecord, Texts, is_named, read_record};
use acct_text::Bytes;
use line_edits::{Becoming, EditedRecord, Rewritten};
use std::alloc::{AllocError, Global};

/// Whether the change surely leaves each record that the texts are. It takes no memory.
pub(crate) fn are_left<R: EditedRecord>(mut left: Texts<'_>, change: &R::Change) -> bool
    ensures { result ≡ true → AllByRecursion (LeavesIt R.format (R.becomes change.now)) left.entry }
{
    'texts: while let Some(text) = left.take() {
        if !R::leaves(change, text) {
            return false;
        }
    }
    true
}

/// What stands in place of the texts after the change.
pub(crate) fn changed_texts<R: EditedRecord + Drop>(
    alloc: Global,
    mut left: Texts<'_>,
    change: &R::Change,
) -> Result<Vec<Bytes>, AllocError>
    requires one_line { AllByRecursion (Lacks newline) left }
    requires written { IsWrittenEdit R.format (model.Become (R.becomes change.now)) }
    ensures { IfOk result (λ made. made.items
        ≡ flat_map (texts_becoming R.format (R.becomes change.now)) left.entry) }
{
    let mut made = Vec::new(alloc);
    'texts: while let Some(text) = left.take() {
        push_becoming::<R>(alloc, &mut made, text, change)?;
    }
    Ok(made)
}

// Adds what stands in place of a text after the change.
fn push_becoming<R: EditedRecord + Drop>(
    alloc: Global,
    made: &mut Vec<Bytes>,
    text: &[u8],
    change: &R::Change,
) -> Result<(), AllocError>
    requires one_line { Lacks newline text.now }
    requires written { IsWrittenEdit R.format (model.Become (R.becomes change.now)) }
    ensures { OnOk result (made.new.items ≡ made.old.items
        ++ texts_becoming R.format (R.becomes change.now) text.now) }
{
    if R::leaves(change, text) {
        return push_text(alloc, made, text);
    }
    match R::rewritten(alloc, change, text)? {
        Some(Rewritten { kept, new }) => {
            push_instead::<R>(alloc, made, text, kept.as_slice(), new)
        }
        None => push_read::<R>(alloc, made, text, change),
    }
}

// The same, by the record that is read.
fn push_read<R: EditedRecord + Drop>(
    alloc: Global,
    made: &mut Vec<Bytes>,
    text: &[u8],
    change: &R::Change,
) -> Result<(), AllocError>
    requires one_line { Lacks newline text.now }
    requires written { IsWrittenEdit R.format (model.Become (R.becomes change.now)) }
    ensures { OnOk result (made.new.items ≡ made.old.items
        ++ texts_becoming R.format (R.becomes change.now) text.now) }
{
    match read_record::<R>(alloc, text)? {
        Some(item) => push_changed(alloc, made, text, item, change),
        None => push_text(alloc, made, text),
    }
}

// Adds what stands in place of the text of a record after the change.
fn push_changed<R: EditedRecord + Drop>(
    alloc: Global,
    made: &mut Vec<Bytes>,
    text: &[u8],
    item: R,
    change: &R::Change,
) -> Result<(), AllocError>
    requires one_line { Lacks newline text.now }
    requires reads { R.format.read text.now ≡ Some item }
    requires written { IsWrittenEdit R.format (model.Become (R.becomes change.now)) }
    ensures { OnOk result (made.new.items ≡ made.old.items
        ++ text_becomes R.format text.now item (R.becomes change.now item)) }
{
    let kept = item.print(alloc)?;
    match item.becoming(alloc, change)? {
        Becoming::Stays => push_text(alloc, made, text),
        Becoming::Changes(new) => {
            push_instead::<R>(alloc, made, text, kept.as_slice(), new.print(alloc)?)
        }
        Becoming::Goes => Ok(()),
        Becoming::Splits(first, second) => push_two(alloc, made, &first, &second),
    }
}

// Adds the text, or in place of that of a record with this canonical text the new one of another. The
// same record keeps its bytes.
fn push_instead<R: TableRecord>(
    alloc: Global,
    made: &mut Vec<Bytes>,
    text: &[u8],
    kept: &[u8],
    new: Bytes,
) -> Result<(), AllocError>
    ensures { OnOk result ((old item : R)
        → IsWritten R.format old → IsWritten R.format item
        → R.format.print old ≡ kept.now → new ≡ R.format.print item
        → made.new.items ≡ made.old.items ++ text_instead R.format text.now old item ∷ []) }
{
    if new.as_slice() == kept {
        return push_text(alloc, made, text);
    }
    made.push(new)?;
    Ok(())
}

// Adds the texts of two new records.
fn push_two<R: TableRecord>(
    alloc: Global,
    made: &mut Vec<Bytes>,
    first: &R,
    second: &R,
) -> Result<(), AllocError>
    ensures { OnOk result (made.new.items ≡ made.old.items
        ++ map R.format.print (first.now ∷ second.now ∷ [])) }
{
    made.push(first.print(alloc)?)?;
    made.push(second.print(alloc)?)?;
    Ok(())
}

// Adds a text as it is.
fn push_text(alloc: Global, made: &mut Vec<Bytes>, text: &[u8]) -> Result<(), AllocError>
    ensures { OnOk result (made.new.items ≡ made.old.items ++ text.now ∷ []) }
{
    made.push(Bytes::of(alloc, text)?)?;
    Ok(())
}

/// The texts with the record in place of the first of its name.
pub(crate) fn texts_with<R: TableRecord + Drop>(
    alloc: Global,
    mut left: Texts<'_>,
    item: &R,
) -> Result<Vec<Bytes>, AllocError>
    requires one_line { AllByRecursion (Lacks newline) left }
    requires written { IsWritten R.format item.now }
    ensures { IfOk result (λ made. made.items ≡ texts_with R.format item.now left.entry) }
{
    let mut made = Vec::new(alloc);
    'texts: while let Some(text) = left.take() {
        if is_named::<R>(text, item.name()) {
            push_put(alloc, &mut made, text, item)?;
            push_others(alloc, &mut made, left)?;
            return Ok(made);
        }
        push_text(alloc, &mut made, text)?;
    }
    Ok(made)
}

// Adds the text of a record with another in its place; other text stays.
fn push_put<R: TableRecord + Drop>(
    alloc: Global,
    made: &mut Vec<Bytes>,
    text: &[u8],
    item: &R,
) -> Result<(), AllocError>
    requires one_line { Lacks newline text.now }
    requires written { IsWritten R.format item.now }
    ensures { OnOk result (made.new.items ≡ made.old.items
        ++ text_put R.format item.now text.now ∷ []) }
{
    let Some(old) = read_record::<R>(alloc, text)? else {
        return push_text(alloc, made, text);
    };
    let kept = old.print(alloc)?;
    push_instead::<R>(alloc, made, text, kept.as_slice(), item.print(alloc)?)
}

// Adds all texts.
fn push_others(alloc: Global, made: &mut Vec<Bytes>, mut left: Texts<'_>) -> Result<(), AllocError>
    ensures { OnOk result (made.new.items ≡ made.old.items ++ left.entry) }
{
    'texts: while let Some(text) = left.take() {
        push_text(alloc, made, text)?;
    }
    Ok(())
}
