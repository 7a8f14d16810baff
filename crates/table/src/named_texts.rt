// The records of a name among texts that are looked at one after another (passwd(5), shadow(5),
// group(5), gshadow(5), subuid(5), subgid(5)).
ghost use Rattle.std.specs.Prelude.{◌≡◌, ◌++◌, [], true, filter, find, is_some, nat_le, option_and_then, IfOk, IfSome, OnOk};
ghost use Rattle.std.specs.List.{cons_option, list_any};
ghost use Rattle.account_model.specs.Format.{count_named, find_named, is_named};
ghost use Rattle.acct_tables.specs.TableLines.{text_is_named};
ghost use Rattle.table.specs.TableCells.{has_named_in, records_read};

use crate::keys::KeyedRecord;
use crate::search::RecordTest;
use crate::texts_there::TextsThere;
use acct_tables::{Cells, TableRecord, Texts, is_named, read_record};
use std::alloc::{AllocError, Global};

/// The first text that is a record of the name; none where no record has it.
pub(crate) fn first_named<'a, R: TableRecord>(
    mut left: TextsThere<'a>,
    name: &[u8],
) -> Option<&'a [u8]>
    ensures found { option_and_then (λ text. R.format.read text.now) result
        ≡ find_named R.format name.now (records_read R.format left.entry) }
    ensures reads { IfSome result (λ text. is_some (R.format.read text.now) ≡ true) }
{
    'texts: while let Some(text) = left.take() {
        if is_named::<R>(text, name) {
            return Some(text);
        }
    }
    None
}

/// Whether several of the texts are records of the name.
pub(crate) fn are_several_named<R: TableRecord>(mut left: TextsThere<'_>, name: &[u8]) -> bool
    ensures { result ≡ nat_le 2 (count_named R.format name.now (records_read R.format left.entry)) }
{
    let mut is_found = false;
    'texts: while let Some(text) = left.take() {
        let is_one = is_named::<R>(text, name);
        if is_one && is_found {
            return true;
        }
        is_found = is_found || is_one;
    }
    false
}

/// The records of the name, in the order of the texts.
pub(crate) fn all_named<R: TableRecord + Drop>(
    alloc: Global,
    mut left: TextsThere<'_>,
    name: &[u8],
) -> Result<Vec<R>, AllocError>
    ensures { IfOk result (λ found. found.items
        ≡ filter (is_named R.format name.now) (records_read R.format left.entry)) }
{
    let mut found = Vec::new(alloc);
    'texts: while let Some(text) = left.take() {
        push_named(alloc, &mut found, text, name)?;
    }
    Ok(found)
}

/// Adds the record that the text is, if it is one and has the name.
pub(crate) fn push_named<R: TableRecord + Drop>(
    alloc: Global,
    found: &mut Vec<R>,
    text: &[u8],
    name: &[u8],
) -> Result<(), AllocError>
    ensures { OnOk result (found.new.items ≡ found.old.items
        ++ filter (is_named R.format name.now) (cons_option (R.format.read text.now) [])) }
{
    if !is_named::<R>(text, name) {
        return Ok(());
    }
    if let Some(item) = read_record::<R>(alloc, text)? {
        if item.name() == name {
            found.push(item)?;
        }
    }
    Ok(())
}

/// The first record among the texts that passes the test.
pub(crate) fn first_accepted<R: KeyedRecord + Drop, T: RecordTest<R>>(
    alloc: Global,
    mut left: TextsThere<'_>,
    test: &T,
) -> Result<Option<R>, AllocError>
    ensures { IfOk result (λ found.
        found ≡ find (T.accepts test.now) (records_read R.format left.entry)) }
{
    'texts: while let Some(text) = left.take() {
        if test.passes(text) {
            return read_record(alloc, text);
        }
    }
    Ok(None)
}

/// Whether a record among the texts has the name.
pub(crate) fn has_named<R: TableRecord>(mut left: Texts<'_>, name: &[u8]) -> bool
    ensures { result ≡ list_any (text_is_named R.format name.now) left.entry }
{
    'texts: while let Some(text) = left.take() {
        if is_named::<R>(text, name) {
            return true;
        }
    }
    false
}

/// Whether a record in one of the places has the name.
pub(crate) fn has_in_one<R: TableRecord>(mut left: Cells<'_>, name: &[u8]) -> bool
    ensures { result ≡ list_any (has_named_in R.format name.now) left.entry }
{
    'cells: while let Some(cell) = left.take() {
        if has_named::<R>(cell.texts, name) {
            return true;
        }
    }
    false
}
