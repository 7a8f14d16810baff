// A table that is carried from command to command, as the lines of its file (passwd(5), shadow(5),
// group(5), gshadow(5), subuid(5), subgid(5)).
ghost use Rattle.std.specs.Prelude.{◌≡◌, ◌∷◌, [], false, Some, filter, find, is_some, nat_le, unwrap_or, IfOk, IfSome, OnOk};
ghost use Rattle.acct_text.specs.Lines.{file_bytes, lines_of};
ghost use Rattle.account_model.specs.Edits.{edited_by};
ghost use Rattle.account_model.specs.Edits.Edit.{Become};
ghost use Rattle.account_model.specs.Format.{count_named, find_named, has_named, is_named};
ghost use Rattle.account_model.specs.Tables.{table_records};
ghost use Rattle.line_edits.specs.SeenEdits.{seen_edits};
ghost use Rattle.table.specs.TableEdits.{AreEditedIn, AreWritten, multiple_by, table_by};

use crate::keyed_cells::KeyedCells;
use crate::keys::KeyedRecord;
use crate::last_edits::{LastEdits, have_same};
use crate::search::RecordTest;
use acct_tables::{FileText, MANY};
use acct_text::Bytes;
use line_edits::Edit;
use std::alloc::{AllocError, Global};
use std::marker::Model;

/// What edits of a table meet, before they are made.
#[derive(Drop)]
pub struct Checked {
    /// The name of the first record that they touch and whose name has several records.
    pub multiple: Option<Bytes>,
    /// The places of all lines that the only one of them changes, where such are told.
    pub places: Vec<usize>,
}

/// A table of the records R: the lines of its file, of which each call takes a pass, until an index of them
/// is asked for. Then look-ups and edits by name take no pass over the lines, nor do others that have a
/// key. Contracts see it as the bytes of its file, and none where the file is absent.
pub struct Table<'a, R: KeyedRecord> {
    // none where the file is absent
    lines: Option<KeyedCells<'a, R>>,
}

// One call for what may be there, so that who holds tables has few ways through them.
impl<'a, R: KeyedRecord + Drop> Drop for Table<'a, R> {
    fn drop(self) {
        let Table { lines: _ } = self;
    }
}

impl<'a, R: KeyedRecord> Model for Table<'a, R> {
    ghost use Rattle.std.specs.Prelude.{ℕ, List, Option, option_map, IfSome};
    ghost use Rattle.acct_text.specs.Lines.{file_bytes};
    ghost use Rattle.acct_tables.specs.Cells.{lines_now};
    ghost use Rattle.acct_tables.specs.SeenLines.{AreOfFile};

    ghost Value = { Option (List ℕ) };

    ghost view = { λ table. option_map (λ cells. file_bytes (lines_now cells)) table.lines };

    ghost invariant = { λ table. IfSome table.lines (λ cells. AreOfFile (lines_now cells)) };
}

impl<'a, R: KeyedRecord + Drop> Table<'a, R> {
    /// The table of a file that is kept elsewhere, which is absent where there is none.
    pub fn lent(alloc: Global, file: &'a Option<Bytes>) -> Self
        ensures { result ≡ file.now }
    {
        match file {
            Some(text) => Table::of(alloc, FileText::lent(text.as_slice())),
            None => Table { lines: None },
        }
    }

    /// The table of this file, which is absent where there is none.
    pub fn owning(alloc: Global, file: Option<Bytes>) -> Self
        ensures { result ≡ file }
    {
        match file {
            Some(text) => Table::of(alloc, FileText::own(text)),
            None => Table { lines: None },
        }
    }

    // The table of a file with these bytes.
    fn of(alloc: Global, text: FileText<'a>) -> Self
        ensures { result ≡ Some text.entry }
    {
        Table {
            lines: Some(KeyedCells::of(alloc, text)),
        }
    }

    /// Makes the index, in one pass, unless there is one. At `AllocError` the table is as before.
    pub fn index(&mut self, alloc: Global) -> Result<(), AllocError>
        ensures { self.new ≡ self.old }
    {
        match &mut self.lines {
            Some(cells) => cells.index(alloc),
            None => Ok(()),
        }
    }

    /// Whether there is a file.
    pub fn is_there(&self) -> bool
        ensures { result ≡ is_some self.now }
    {
        self.lines.is_some()
    }

    /// The bytes of the file, of which an absent one has none. They are lent where they are kept, and else
    /// made in a pass over the lines.
    pub fn seen(&self) -> Result<FileText<'_>, AllocError>
        ensures { IfOk result (λ text. text ≡ unwrap_or self.now []) }
    {
        match &self.lines {
            Some(cells) => cells.seen(),
            None => Ok(FileText::lent(b"")),
        }
    }

    /// Takes the file out; the table is absent then. Bytes that it owns are moved, unless they are made
    /// of the lines, and those that are lent are copied.
    pub fn take(&mut self) -> Result<Option<Bytes>, AllocError>
        ensures { IfOk result (λ file. file ≡ self.old) }
    {
        match self.lines.take() {
            Some(cells) => Ok(Some(cells.into_bytes()?)),
            None => Ok(None),
        }
    }

    /// The first record that has the name. By an index it takes no pass over the lines.
    pub fn find(&self, alloc: Global, name: &[u8]) -> Result<Option<R>, AllocError>
        ensures { IfOk result (λ found.
            found ≡ find_named R.format name.now (table_records R.format self.now)) }
    {
        match &self.lines {
            Some(cells) => cells.find(alloc, name),
            None => Ok(None),
        }
    }

    /// Whether a record has the name. It takes no memory, and by an index no pass over the lines.
    pub fn has(&self, name: &[u8]) -> bool
        ensures { result ≡ has_named R.format name.now (table_records R.format self.now) }
    {
        match &self.lines {
            Some(cells) => cells.has(name),
            None => false,
        }
    }

    /// Whether several records have the name, which are found as by `find`.
    pub fn has_several(&self, alloc: Global, name: &[u8]) -> Result<bool, AllocError>
        ensures { IfOk result (λ are. are ≡ nat_le 2
            (count_named R.format name.now (table_records R.format self.now))) }
    {
        match &self.lines {
            Some(cells) => cells.has_several(alloc, name),
            None => Ok(false),
        }
    }

    /// The records of the name, in the order of lines. By an index it takes no pass over them.
    pub fn all_named(&self, alloc: Global, name: &[u8]) -> Result<Vec<R>, AllocError>
        ensures { IfOk result (λ found. found.items
            ≡ filter (is_named R.format name.now) (table_records R.format self.now)) }
    {
        match &self.lines {
            Some(cells) => cells.all_named(alloc, name),
            None => Ok(Vec::new(alloc)),
        }
    }

    /// The first record that passes the test. By an index it takes no pass over the lines where the test
    /// has a key.
    pub fn first_passing<T: RecordTest<R>>(
        &self,
        alloc: Global,
        test: &T,
    ) -> Result<Option<R>, AllocError>
        ensures { IfOk result (λ found.
            found ≡ find (T.accepts test.now) (table_records R.format self.now)) }
    {
        match &self.lines {
            Some(cells) => cells.first_passing(alloc, test),
            None => Ok(None),
        }
    }

    /// What the edits meet, before they are made. For `MANY` edits, and for one that may touch so many lines,
    /// the index is made. By an index it takes no pass over the lines where each edit has a key.
    pub fn check(
        &mut self,
        alloc: Global,
        edits: &[Edit<R, R::Change>],
    ) -> Result<Checked, AllocError>
        requires { AreWritten R.format R.becomes edits.now }
        ensures multiple { IfOk result (λ checked. checked.multiple ≡
            multiple_by R.format R.becomes edits.now (table_records R.format self.old)) }
        ensures places { IfOk result (λ checked.
            AreEditedIn R.format (seen_edits R.becomes edits.now) self.old checked.places.items) }
        ensures same { self.new ≡ self.old }
    {
        match &mut self.lines {
            Some(cells) => cells.check(alloc, edits),
            None => Ok(Checked {
                multiple: None,
                places: Vec::new(alloc),
            }),
        }
    }

    /// Carries the edits out as `edit` does, one change in these places alone, where such are told.
    pub fn edit_at(
        &mut self,
        alloc: Global,
        edits: &[Edit<R, R::Change>],
        places: &[usize],
    ) -> Result<bool, AllocError>
        requires written { AreWritten R.format R.becomes edits.now }
        requires places { AreEditedIn R.format (seen_edits R.becomes edits.now) self.old places.now }
        ensures edited { OnOk result
            (self.new ≡ table_by R.format R.becomes edits.now self.old) }
        ensures same { IfOk result (λ differ. differ ≡ false → self.new ≡ self.old) }
    {
        let Some(change) = only_change::<R>(edits) else {
            return self.edit(alloc, edits);
        };
        let Some(mut cells) = self.lines.take() else {
            return Ok(false);
        };
        let differ = cells.change_at_told(alloc, change, places)?;
        cells.renew(alloc)?;
        self.lines = Some(cells);
        Ok(differ)
    }

    /// Carries the edits out, in their order, and tells whether lines may differ then. By an index those
    /// that have a key, or concern records of one name, take no pass over the lines; for `MANY` edits it is
    /// made. An edit isn't made that does the same as one of the last, where these left all lines. At
    /// `AllocError` the table is gone.
    pub fn edit(&mut self, alloc: Global, edits: &[Edit<R, R::Change>]) -> Result<bool, AllocError>
        requires { AreWritten R.format R.becomes edits.now }
        ensures edited { OnOk result
            (self.new ≡ table_by R.format R.becomes edits.now self.old) }
        ensures same { IfOk result (λ differ. differ ≡ false → self.new ≡ self.old) }
    {
        let Some(mut cells) = self.lines.take() else {
            return Ok(false);
        };
        if edits.len() >= MANY {
            cells.index(alloc)?;
        }
        let mut differ = false;
        let mut idle = LastEdits::none();
        'edits: for edit in edits {
            if have_same::<R>(&idle, edit) {
                continue;
            }
            let differs = cells.edit(alloc, edit)?;
            cells.renew(alloc)?;
            idle = idle.unless(differs, edit);
            differ = differ || differs;
        }
        self.lines = Some(cells);
        Ok(differ)
    }
}

// The change that is the only edit of a list.
fn only_change<R: KeyedRecord>(edits: &[Edit<R, R::Change>]) -> Option<&R::Change>
    ensures { IfSome result (λ change.
        seen_edits R.becomes edits.now ≡ Become (R.becomes change.now) ∷ []) }
{
    match edits {
        [Edit::Become(change)] => Some(change),
        _ => None,
    }
}

/// The bytes of a file after the edits, in their order: the lines that they don't touch keep their bytes.
pub fn edited_text<R: KeyedRecord + Drop>(
    alloc: Global,
    text: &[u8],
    edits: &[Edit<R, R::Change>],
) -> Result<Bytes, AllocError>
    requires { AreWritten R.format R.becomes edits.now }
    ensures { IfOk result (λ bytes. bytes ≡ file_bytes
        (edited_by R.format (seen_edits R.becomes edits.now) (lines_of text.now))) }
{
    let mut table: Table<'_, R> = Table::of(alloc, FileText::lent(text));
    table.edit(alloc, edits)?;
    match table.take()? {
        Some(bytes) => Ok(bytes),
        None => Ok(Bytes::new(alloc)),
    }
}
