// A cursor over the text of an intent, which takes one part after the other.
//
// Where a call answers none, the text has no such part there, and the cursor is of no more use.
ghost use Rattle.std.specs.Prelude.{◌≡◌, ◌≤◌, ◌<◌, ◌↔◌, true, IsTrue, IfOk, IfErr, ⊤, decimal, find, bytes_eq};
ghost use Rattle.std.specs.Option.{option_copied};
ghost use Rattle.acct_text.specs.Bytes.{newline, zero_digit};
ghost use Rattle.acct_text.specs.Pieces.{Lacks};
ghost use Rattle.intent_file.specs.Intent.{table_part, end_part, is_in_order, version_of};
ghost use Rattle.acct_text.specs.Tables.{table_name, all_tables};
ghost use Rattle.intent_file.specs.Cursor.{TakesValue, TakesBefore, TakesTables, TellsLack, ReadsAs, HasLeadingZero, IsBetween, HasLength, word_part, number_part, name_part, version_part, count_part, comes_behind};
ghost use Rattle.intent_file.specs.Parts.{IsHeader, MayBeListed, header_part};

use crate::{IntentFault, Version};
use acct_outside::GREATEST_LOCK;
use acct_text::{Bytes, NewTable, TABLE_LIMIT, Tab, cut_once, read_decimal};
use std::alloc::{AllocError, Global};
use std::marker::Model;

/// What a header says, but for the number of the bytes that follow it.
#[derive(Clone, Copy)]
pub struct Header {
    /// The version of the text.
    pub version: Version,
    /// The number of the lock, from 1 to 999999999999999999.
    pub number: u64,
    /// How many tables follow, from 1 to 6.
    pub count: u32,
}

/// A table part, its bytes still in the text.
#[derive(Drop)]
pub struct TablePart<'text> {
    table: Tab,
    bytes: &'text [u8],
}

impl<'text> Model for TablePart<'text> {
    ghost use Rattle.acct_text.specs.declared.new_tables.NewTable.{NewTable};

    ghost Value = { NewTable };

    ghost view = { λ part. record { table = part.table; bytes = part.bytes.now } };
}

impl TablePart<'_> {
    /// The table with a copy of its bytes. The error says that memory ran out.
    pub fn copy(&self, alloc: Global) -> Result<NewTable, AllocError>
        ensures { IfOk result (λ table. table ≡ self.now) }
    {
        Ok(NewTable {
            table: self.table,
            bytes: Bytes::of(alloc, self.bytes)?,
        })
    }
}

/// What is left of a text.
#[derive(Drop)]
pub struct Cursor<'text> {
    rest: &'text [u8],
}

impl<'text> Model for Cursor<'text> {
    ghost use Rattle.std.specs.Prelude.{ℕ, List};

    ghost Value = { List ℕ };

    ghost view = { λ cursor. cursor.rest.now };
}

impl<'text> Cursor<'text> {
    /// A cursor at the start of a text.
    pub fn new(text: &'text [u8]) -> Self
        ensures { result ≡ text.now }
    {
        Cursor { rest: text }
    }

    // Takes the bytes before the first `end`, and the end.
    fn word(&mut self, end: u8) -> Option<&'text [u8]>
        ensures { TakesValue (Lacks end) (word_part end) self.old (option_copied result) self.new }
    {
        let cut = cut_once(end, self.rest)?;
        self.rest = cut.behind;
        Some(cut.before)
    }

    // Takes these bytes.
    fn literal(&mut self, text: &[u8]) -> Option<()>
        ensures { TakesValue (λ _. ⊤) (λ _. text.now) self.old result self.new }
    {
        self.rest = self.rest.strip_prefix(text)?;
        Some(())
    }

    // Takes so many bytes.
    fn bytes(&mut self, size: usize) -> Option<&'text [u8]>
        ensures { TakesValue (HasLength size) (λ bytes. bytes) self.old (option_copied result)
            self.new }
    {
        let (bytes, rest) = self.rest.split_at_checked(size)?;
        self.rest = rest;
        Some(bytes)
    }

    // Takes a number within the bounds, in decimal without leading zeros, and the end behind it.
    fn number(&mut self, end: u8, least: u64, greatest: u64) -> Option<u64>
        requires { end < zero_digit }
        ensures { TakesValue (IsBetween least greatest) (number_part end) self.old result self.new }
    {
        let digits = self.word(end)?;
        number_written(digits, least, greatest)
    }

    // Takes the name of a table, and a blank.
    fn table(&mut self) -> Option<Tab>
        ensures { TakesValue (λ _. ⊤) name_part self.old result self.new }
    {
        let name = self.word(b' ')?;
        table_named(name)
    }

    // Takes the first words of a header, up to its version.
    fn version(&mut self) -> Option<Version>
        ensures { TakesValue (λ _. ⊤) version_part self.old result self.new }
    {
        self.literal(b"accounts-intent ")?;
        let number = self.number(b' ', 1, 2)?;
        Some(version_of(number))
    }

    // Takes the number of the bytes that follow it, and a newline.
    fn total(&mut self) -> Option<()>
        ensures { TakesBefore (λ _. ⊤) (λ total _. number_part newline total)
            self.old result self.new }
    {
        let digits = self.word(b'\n')?;
        let total = self.rest.len() as u64;
        number_written(digits, total, total)?;
        Some(())
    }

    // Takes the number of the tables, and what ends the header in the version.
    fn count(&mut self, version: Version) -> Option<u64>
        ensures { TakesBefore (IsBetween 1 6) (count_part version) self.old result self.new }
    {
        match version {
            Version::One => self.number(b'\n', 1, 6),
            Version::Two => {
                let count = self.number(b' ', 1, 6)?;
                self.total()?;
                Some(count)
            }
        }
    }

    /// Takes the header. In version 2 it is one only if as many bytes follow as it says.
    pub fn header(&mut self) -> Option<Header>
        ensures { TakesBefore IsHeader header_part self.old result self.new }
    {
        let version = self.version()?;
        let number = self.number(b' ', 1, GREATEST_LOCK)?;
        let count = self.count(version)?;
        Some(Header {
            version,
            number,
            count: count as u32,
        })
    }

    /// Takes the part of a table that may stand behind these.
    pub fn next_table(&mut self, before: &[NewTable]) -> Option<TablePart<'text>>
        requires { is_in_order before.now ≡ true }
        ensures { TakesValue (MayBeListed before.now) table_part self.old result self.new }
    {
        let table = self.table()?;
        if !comes_behind(table, before) {
            return None;
        }
        let length = self.number(b'\n', 0, TABLE_LIMIT)?;
        let bytes = self.bytes(length as usize)?;
        self.literal(b"\n")?;
        Some(TablePart { table, bytes })
    }

    /// Takes so many table parts, each table with a copy of its bytes.
    ///
    /// At `Part` the table of that number, from 1, isn't there or may not stand behind those before
    /// it; at `Memory` memory ran out.
    pub fn tables(&mut self, alloc: Global, count: u32) -> Result<Vec<NewTable>, IntentFault>
        ensures taken { IfOk result (λ tables. TakesTables self.old count tables.items self.new) }
        ensures damaged { IfErr result (TellsLack self.old count) }
    {
        let mut tables = Vec::new(alloc);
        'parts: for place in 0..count {
            let next = self
                .next_table(&tables)
                .ok_or(IntentFault::Part(place + 1))?;
            tables.push(next.copy(alloc)?)?;
        }
        Ok(tables)
    }

    /// Whether nothing but the end is left.
    pub fn is_at_end(&self) -> bool
        ensures { IsTrue result ↔ (self.now ≡ end_part) }
    {
        self.rest == b"end\n".as_slice()
    }
}

// The version of this number, and version 2 for another number.
fn version_of(number: u64) -> Version
    ensures { result ≡ version_of number }
{
    if number == 1 {
        Version::One
    } else {
        Version::Two
    }
}

// The number within the bounds that the digits write without leading zeros.
fn number_written(digits: &[u8], least: u64, greatest: u64) -> Option<u64>
    ensures { ReadsAs (IsBetween least greatest) decimal digits.now result }
{
    if has_leading_zero(digits) {
        return None;
    }
    let number = read_decimal(digits, greatest).ok()?;
    if number < least { None } else { Some(number) }
}

// Whether there are more digits than one, and the first is `0`.
fn has_leading_zero(digits: &[u8]) -> bool
    ensures { IsTrue result ↔ HasLeadingZero digits.now }
{
    digits.len() > 1 && digits[0] == b'0'
}

// The table with this name.
fn table_named(name: &[u8]) -> Option<Tab>
    ensures { result ≡ find (λ table. bytes_eq (table_name table) name.now) all_tables }
{
    Tab::all()
        .iter()
        .copied()
        .find(|table| table.name().as_bytes() == name)
}

// Whether the table comes later in the fixed order than the last of these.
fn comes_behind(table: Tab, before: &[NewTable]) -> bool
    ensures { result ≡ comes_behind table before.now }
{
    match before.last() {
        Some(last) => last.table < table,
        None => true,
    }
}
