// The lines of a table's file with an index of where records may have a key: what is found in them
// (passwd(5), shadow(5), group(5), gshadow(5), subuid(5), subgid(5)). A look-up reads the texts in the
// places that the index tells of its key, as no other text is a record with the key.
ghost use Rattle.std.specs.Prelude.{◌≡◌, filter, find, nat_le, IfOk, IfSome, OnOk};
ghost use Rattle.std.specs.List.{list_any};
ghost use Rattle.acct_text.specs.Lines.{file_bytes, lines_of};
ghost use Rattle.account_model.specs.Format.{count_named, find_named, has_named, is_named, records_of};
ghost use Rattle.acct_tables.specs.SeenLines.{AreOfFile};
ghost use Rattle.acct_tables.specs.Cells.{cells_from, lines_now};
ghost use Rattle.table.specs.TableCells.{has_named_at};

use crate::gathering::gathered;
use crate::key_names::own_key;
use crate::keys::KeyedRecord;
use crate::named_texts::{
    all_named, are_several_named, first_accepted, first_named, has_in_one, has_named,
};
use crate::search::{RecordTest, first_passing};
use crate::texts_there::TextsThere;
use acct_tables::{
    FileText, KeyPlaces, LineFile, ListedPlaces, find_record, has_record, has_several_records,
    read_record,
};
use acct_text::Bytes;
use std::alloc::{AllocError, Global};
use std::marker::{Model, PhantomData};

/// The lines of a table of the records R, with an index of the places where records may have a key.
/// Contracts see what stands in each place.
pub(crate) struct KeyedCells<'a, R: KeyedRecord> {
    pub(crate) file: LineFile<'a>,
    pub(crate) keys: KeyPlaces,
    // so many bytes had the file
    bytes: usize,
    // edits came to so many places by keys
    pub(crate) worn: usize,
    record: PhantomData<R>,
}

// One call, so that who holds the lines has few ways through them.
impl<'a, R: KeyedRecord + Drop> Drop for KeyedCells<'a, R> {
    fn drop(self) {
        let KeyedCells {
            file: _,
            keys: _,
            bytes: _,
            worn: _,
            record: _,
        } = self;
    }
}

impl<'a, R: KeyedRecord> Model for KeyedCells<'a, R> {
    ghost use Rattle.std.specs.Prelude.{List};
    ghost use Rattle.acct_tables.specs.declared.cell.Cell.{Cell};
    ghost use Rattle.acct_tables.specs.KeyPlaces.{told_places};
    ghost use Rattle.table.specs.TableCells.{AreKept};

    ghost Value = { List Cell };

    ghost view = { λ t. t.file };

    ghost invariant = { λ t. AreKept R.format R.keys (told_places t.keys) t.file };
}

impl<'a, R: KeyedRecord + Drop> KeyedCells<'a, R> {
    /// The lines of a file with these bytes, of which nothing is looked at: a call takes a pass over them.
    pub(crate) fn of(alloc: Global, text: FileText<'a>) -> Self
        ensures { result ≡ cells_from 0 (lines_of text.entry) }
    {
        let bytes = text.as_slice().len();
        KeyedCells {
            file: LineFile::of(alloc, text),
            keys: KeyPlaces::untold(alloc),
            bytes,
            worn: 0,
            record: PhantomData,
        }
    }

    /// Makes the index, in one pass, unless there is one.
    pub(crate) fn index(&mut self, alloc: Global) -> Result<(), AllocError>
        ensures { self.new ≡ self.old }
    {
        if self.keys.tells() {
            return Ok(());
        }
        let keys = gathered::<R>(alloc, &self.file, self.bytes)?;
        self.keys = keys;
        Ok(())
    }

    /// Makes the lines anew from their bytes where it is time: without an index after each edit, as marks
    /// tell places in a text; with one now and then, without the places where no text is left. That takes
    /// no longer than the edits by keys did that came to places since the lines were made.
    pub(crate) fn renew(&mut self, alloc: Global) -> Result<(), AllocError>
        ensures { OnOk result
            (AreOfFile (lines_now self.old) → lines_now self.new ≡ lines_now self.old) }
    {
        if !self.is_worn() {
            return Ok(());
        }
        let text = self.seen()?.into_bytes(alloc)?;
        let mut made = KeyedCells::of(alloc, FileText::own(text));
        if self.keys.tells() {
            made.index(alloc)?;
        }
        *self = made;
        Ok(())
    }

    // Whether texts were put or added, and so often that the lines are made anew.
    fn is_worn(&self) -> bool {
        self.file.kept_text().is_none() && (!self.keys.tells() || self.worn > self.bytes / 64 + 64)
    }

    /// The bytes of the lines, one behind the other, lent where they are kept.
    pub(crate) fn seen(&self) -> Result<FileText<'_>, AllocError>
        ensures { IfOk result (λ text. text ≡ file_bytes (lines_now self.now)) }
    {
        self.file.seen()
    }

    /// The same bytes, given away.
    pub(crate) fn into_bytes(self) -> Result<Bytes, AllocError>
        ensures { IfOk result (λ bytes. bytes ≡ file_bytes (lines_now self.entry)) }
    {
        let KeyedCells {
            file,
            keys: _,
            bytes: _,
            worn: _,
            record: _,
        } = self;
        file.into_bytes()
    }

    /// The bytes where no text was put or added and there is no index, so that a call takes a pass.
    pub(crate) fn passed_text(&self) -> Option<&[u8]>
        ensures { IfSome result (λ text. lines_of text.now ≡ lines_now self.now) }
    {
        if self.keys.tells() {
            return None;
        }
        self.file.kept_text()
    }

    /// The first record that has the name. By an index it takes no pass over the lines.
    pub(crate) fn find(&self, alloc: Global, name: &[u8]) -> Result<Option<R>, AllocError>
        ensures { IfOk result (λ found. found
            ≡ find_named R.format name.now (records_of R.format (lines_now self.now))) }
    {
        if let Some(text) = self.passed_text() {
            return find_record(alloc, text, name);
        }
        let places = self.places_of(alloc, name)?;
        match first_named::<R>(TextsThere::of(&self.file, places.as_slice()), name) {
            Some(text) => read_record(alloc, text),
            None => Ok(None),
        }
    }

    /// Whether a record has the name. It takes no memory, and by an index no pass over the lines.
    pub(crate) fn has(&self, name: &[u8]) -> bool
        ensures { result ≡ has_named R.format name.now (records_of R.format (lines_now self.now)) }
    {
        if let Some(text) = self.passed_text() {
            return has_record::<R>(text, name);
        }
        match self.keys.listed(own_key(name)) {
            Some(listed) => self.has_at_one(name, listed),
            None => has_in_one::<R>(self.file.cells(), name),
        }
    }

    // Whether a record in one of the places has the name.
    fn has_at_one(&self, name: &[u8], mut left: ListedPlaces<'_>) -> bool
        ensures { result ≡ list_any (has_named_at R.format name.now self.now) left.entry }
    {
        'places: while let Some(place) = left.take() {
            if self.has_named_at(name, place) {
                return true;
            }
        }
        false
    }

    /// Whether a record in a place has the name.
    pub(crate) fn has_named_at(&self, name: &[u8], place: usize) -> bool
        ensures { result ≡ has_named_at R.format name.now self.now place }
    {
        match self.file.cell(place) {
            Some(cell) => has_named::<R>(cell.texts, name),
            None => false,
        }
    }

    /// Whether several records have the name, which are found as by `find`.
    pub(crate) fn has_several(&self, alloc: Global, name: &[u8]) -> Result<bool, AllocError>
        ensures { IfOk result (λ are. are ≡ nat_le 2
            (count_named R.format name.now (records_of R.format (lines_now self.now)))) }
    {
        if let Some(text) = self.passed_text() {
            return Ok(has_several_records::<R>(text, name));
        }
        let places = self.places_of(alloc, name)?;
        let texts = TextsThere::of(&self.file, places.as_slice());
        Ok(are_several_named::<R>(texts, name))
    }

    /// The records of the name, in the order of lines. By an index it takes no pass over them.
    pub(crate) fn all_named(&self, alloc: Global, name: &[u8]) -> Result<Vec<R>, AllocError>
        ensures { IfOk result (λ found. found.items
            ≡ filter (is_named R.format name.now) (records_of R.format (lines_now self.now))) }
    {
        let places = self.places_of(alloc, name)?;
        all_named(alloc, TextsThere::of(&self.file, places.as_slice()), name)
    }

    /// The first record that passes the test. By an index it takes no pass over the lines where the test
    /// has a key, and else it reads those with its number alone.
    pub(crate) fn first_passing<T: RecordTest<R>>(
        &self,
        alloc: Global,
        test: &T,
    ) -> Result<Option<R>, AllocError>
        requires { AreOfFile (lines_now self.now) }
        ensures { IfOk result (λ found. found
            ≡ find (T.accepts test.now) (records_of R.format (lines_now self.now))) }
    {
        match test.key() {
            Some(key) if self.keys.tells() => {
                let places = self.reached(alloc, key)?;
                first_accepted(alloc, TextsThere::of(&self.file, places.as_slice()), test)
            }
            _ => first_passing(alloc, self.seen()?.as_slice(), test),
        }
    }
}
