// The intent of one command: how it is made of a change, its text, and its reading.
ghost use Rattle.std.specs.Prelude.{◌≡◌, ◌++◌, ◌+◌, ℕ, Some, IsTrue, IfOk, IfErr, OnOk, find, length, slice_get};
ghost use Rattle.std.specs.Option.{option_copied};
ghost use Rattle.acct_text.specs.Contents.{IsChange};
ghost use Rattle.acct_text.specs.Tables.{same_table};
ghost use Rattle.acct_text.specs.Files.{table_of};
ghost use Rattle.acct_text.specs.ChangedTables.{changed_bytes};
ghost use Rattle.intent_file.specs.Intent.{ReadsIntent, intent_listing, intent_of, intent_text, is_allowed, is_lock_number, listed_in, table_part};
ghost use Rattle.acct_outside.specs.Pieces.{pieces_of};
ghost use Rattle.intent_file.specs.Parts.{TellsFault};
ghost use Rattle.intent_file.specs.Pieces.{intent_pieces, lines_around};

use crate::cursor::Cursor;
use crate::header::{header_of, push_table_line};
use crate::{IntentFault, Version};
use acct_outside::{piece_at, piece_count};
use acct_text::{Bytes, Files, NewTable, Tab};
use std::alloc::{AllocError, Global};
use std::marker::Model;

/// What one command commits as one file: the number of the lock under which it was made, and the
/// tables that it changes, with all of their new bytes. It is made in version 2, and keeps the
/// version that it was read in.
#[derive(Drop)]
pub struct Intent {
    version: Version,
    number: u64,
    tables: Vec<NewTable>,
    /// The texts around the bytes of the tables.
    lines: Vec<Bytes>,
}

impl Model for Intent {
    ghost use Rattle.std.specs.Prelude.{◌≡◌, true};
    ghost use Rattle.intent_file.specs.Intent.{Intended, is_allowed};
    ghost use Rattle.intent_file.specs.Pieces.{intent_lines};

    ghost Value = { Intended };

    ghost view = { λ intent. record {
      version = intent.version;
      number = intent.number;
      tables = intent.tables.items;
    } };

    ghost invariant = { λ intent.
        let is : Intended = record {
          version = intent.version;
          number = intent.number;
          tables = intent.tables.items;
        } in
        (is_allowed is ≡ true) × (intent.lines.items ≡ intent_lines is) };
}

impl Intent {
    /// The intent of a change of the old files to the new ones, made under the lock of this number,
    /// from 1 to 999999999999999999. It lists each table that differs, in the fixed order.
    ///
    /// A change leaves the same tables absent, none with more than 16,777,216 bytes, and at least
    /// one differs. The error says that memory ran out.
    pub fn new(alloc: Global, number: u64, old: &Files, new: &Files) -> Result<Self, AllocError>
        requires number { IsTrue (is_lock_number number) }
        requires change { IsChange (table_of old.now) (table_of new.now) }
        ensures value { IfOk result (λ intent.
            intent ≡ intent_of number (table_of old.now) (table_of new.now)) }
        ensures reads { IfOk result (λ intent. ReadsIntent (intent_text intent) intent) }
    {
        let mut tables = Vec::new(alloc);
        'tables: for table in Tab::all() {
            if let Some(bytes) = changed_bytes(table, old, new) {
                let bytes = Bytes::of(alloc, bytes.as_slice())?;
                tables.push(NewTable { table, bytes })?;
            }
        }
        Intent::of(alloc, number, tables)
    }

    /// The intent of these tables, which are at least one, in the fixed order and within their limit,
    /// under a lock's number. It keeps their bytes, and copies none.
    ///
    /// The error says that memory ran out.
    pub fn of(alloc: Global, number: u64, tables: Vec<NewTable>) -> Result<Self, AllocError>
        requires { IsTrue (is_allowed (intent_listing number tables.items)) }
        ensures value { IfOk result (λ intent. intent ≡ intent_listing number tables.items) }
        ensures reads { IfOk result (λ intent. ReadsIntent (intent_text intent) intent) }
    {
        Intent::in_version(alloc, Version::Two, number, tables)
    }

    // The same in a version.
    fn in_version(
        alloc: Global,
        version: Version,
        number: u64,
        tables: Vec<NewTable>,
    ) -> Result<Self, AllocError>
        requires { IsTrue (is_allowed (
            record { version = version; number = number; tables = tables.items })) }
        ensures value { IfOk result (λ intent.
            intent ≡ record { version = version; number = number; tables = tables.items }) }
        ensures reads { IfOk result (λ intent. ReadsIntent (intent_text intent) intent) }
    {
        let header = header_of(alloc, version, number, &tables)?;
        let lines = lines_of(alloc, header, &tables)?;
        Ok(Intent {
            version,
            number,
            tables,
            lines,
        })
    }

    /// The text of the intent in its version, which reads back. The error says that memory ran out.
    pub fn print(&self, alloc: Global) -> Result<Bytes, AllocError>
        ensures text { IfOk result (λ text. text ≡ intent_text self.now) }
        ensures reads { IfOk result (λ text. ReadsIntent text self.now) }
    {
        let mut text = header_of(alloc, self.version, self.number, &self.tables)?;
        'tables: for table in &self.tables {
            push_table(&mut text, table)?;
        }
        text.push(b"end\n")?;
        Ok(text)
    }

    /// How many pieces the text of the intent has.
    pub fn piece_count(&self) -> usize
        ensures { result ≡ length (intent_pieces self.now) }
    {
        let mut count = 0;
        for line in &self.lines {
            count += piece_count(line.as_slice());
        }
        for table in &self.tables {
            count += piece_count(table.bytes.as_slice());
        }
        count
    }

    /// The piece of the text at the place, counted from 0, and none past the last. It takes no
    /// memory: a piece is a part of a table, or the text between two.
    pub fn piece(&self, place: usize) -> Option<&[u8]>
        ensures { option_copied result ≡ slice_get (intent_pieces self.now) place }
    {
        let mut place = place;
        let mut lines = self.lines.iter();
        'tables: for table in &self.tables {
            let line = lines.next()?;
            match piece_or_rest(line.as_slice(), place) {
                Ok(piece) => return Some(piece),
                Err(rest) => place = rest,
            }
            match piece_or_rest(table.bytes.as_slice(), place) {
                Ok(piece) => return Some(piece),
                Err(rest) => place = rest,
            }
        }
        let end = lines.next()?;
        piece_or_rest(end.as_slice(), place).ok()
    }

    /// The intent that the text reads as, in its version. It goes over the text once, and copies each table once.
    ///
    /// At `Part` the text is no intent's: its parts stand up to this one, which doesn't. At `Memory`
    /// memory ran out.
    pub fn read(alloc: Global, text: &[u8]) -> Result<Self, IntentFault>
        ensures read { IfOk result (ReadsIntent text.now) }
        ensures damaged { IfErr result (TellsFault text.now) }
    {
        let mut cursor = Cursor::new(text);
        let header = cursor.header().ok_or(IntentFault::Part(0))?;
        let tables = cursor.tables(alloc, header.count)?;
        if !cursor.is_at_end() {
            return Err(IntentFault::Part(header.count + 1));
        }
        let intent = Intent::in_version(alloc, header.version, header.number, tables)?;
        Ok(intent)
    }

    /// The tables that the intent lists, in the fixed order.
    pub fn tables(&self) -> &[NewTable]
        ensures { result.now ≡ self.now.tables }
    {
        &self.tables
    }

    /// The tables that the intent lists, in the fixed order, without a copy of their bytes.
    pub fn into_tables(self) -> Vec<NewTable>
        ensures { result.items ≡ self.tables }
    {
        self.tables
    }

    /// The bytes that the intent lists for the table, and none where it doesn't list it.
    pub fn table(&self, of: Tab) -> Option<&Bytes>
        ensures { option_copied result ≡ listed_in self.now.tables of }
    {
        let listed = find_listed(&self.tables, of)?;
        Some(&listed.bytes)
    }
}

// The table among these that is the wanted one.
fn find_listed(tables: &[NewTable], of: Tab) -> Option<&NewTable>
    ensures { option_copied result ≡ find (λ listed. same_table listed.table of) tables.now }
{
    tables.iter().find(|listed| listed.is_for(of))
}

// The new bytes of the table, where they differ from the old.
fn changed_bytes<'new>(table: Tab, old: &Files, new: &'new Files) -> Option<&'new Bytes>
    ensures { option_copied result
        ≡ changed_bytes (table_of old.now table) (table_of new.now table) }
{
    let bytes = new.table(table)?;
    match old.table(table) {
        Some(old) if old.as_slice() == bytes.as_slice() => None,
        _ => Some(bytes),
    }
}

// The texts around the bytes of the tables, behind the header in front of the first.
fn lines_of(alloc: Global, header: Bytes, tables: &[NewTable]) -> Result<Vec<Bytes>, AllocError>
    ensures { IfOk result (λ lines. lines.items ≡ lines_around header tables.now) }
{
    let mut lines = Vec::new(alloc);
    let mut line = header;
    'tables: for table in tables {
        push_table_line(&mut line, table)?;
        lines.push(line)?;
        line = Bytes::of(alloc, b"\n")?;
    }
    line.push(b"end\n")?;
    lines.push(line)?;
    Ok(lines)
}

// Adds the part of a table.
fn push_table(text: &mut Bytes, table: &NewTable) -> Result<(), AllocError>
    ensures { OnOk result (text.new ≡ text.old ++ table_part table.now) }
{
    push_table_line(text, table)?;
    text.push(table.bytes.as_slice())?;
    text.push(b"\n")
}

// The piece of the text at the place, or the place behind all of its pieces.
fn piece_or_rest(text: &[u8], place: usize) -> Result<&[u8], usize>
    ensures piece { IfOk result (λ piece.
        slice_get (pieces_of text.now) place ≡ Some piece.now) }
    ensures rest { IfErr result (λ rest. place ≡ length (pieces_of text.now) + rest) }
{
    let count = piece_count(text);
    if place < count {
        Ok(piece_at(text, place))
    } else {
        Err(place - count)
    }
}
