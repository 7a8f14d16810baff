// The line at the head of an intent's text (docs/OPERATING.md, "The intent").
ghost use Rattle.std.specs.Prelude.{◌≡◌, ◌++◌, true, IfOk, OnOk, length};
ghost use Rattle.intent_file.specs.Intent.{body, header_of, is_in_order, is_within_limit, table_part, total_word, version_number};
ghost use Rattle.intent_file.specs.Pieces.{table_line};

use crate::Version;
use acct_text::{Bytes, NewTable, push_decimal};
use std::alloc::{AllocError, Global};

impl Version {
    // The number of the version in the header.
    fn number(self) -> u64
        ensures { result ≡ version_number self }
    {
        match self {
            Version::One => 1,
            Version::Two => 2,
        }
    }
}

/// The header of an intent of these tables.
pub fn header_of(
    alloc: Global,
    version: Version,
    number: u64,
    tables: &[NewTable],
) -> Result<Bytes, AllocError>
    requires in_order { is_in_order tables.now ≡ true }
    requires within_limit { is_within_limit tables.now ≡ true }
    ensures { IfOk result (λ text. text ≡ header_of version number tables.now) }
{
    let mut text = Bytes::of(alloc, b"accounts-intent ")?;
    push_decimal(&mut text, version.number())?;
    text.push(b" ")?;
    push_decimal(&mut text, number)?;
    text.push(b" ")?;
    push_decimal(&mut text, tables.len() as u64)?;
    push_total(alloc, &mut text, version, tables)?;
    text.push(b"\n")?;
    Ok(text)
}

// Adds what the version says of the bytes that follow the header.
fn push_total(
    alloc: Global,
    text: &mut Bytes,
    version: Version,
    tables: &[NewTable],
) -> Result<(), AllocError>
    requires in_order { is_in_order tables.now ≡ true }
    requires within_limit { is_within_limit tables.now ≡ true }
    ensures { OnOk result (text.new ≡ text.old ++ total_word version (length (body tables.now))) }
{
    match version {
        Version::One => Ok(()),
        Version::Two => {
            let total = total_of(alloc, tables)?;
            text.push(b" ")?;
            push_decimal(text, total)
        }
    }
}

// How many bytes follow the header.
fn total_of(alloc: Global, tables: &[NewTable]) -> Result<u64, AllocError>
    requires in_order { is_in_order tables.now ≡ true }
    requires within_limit { is_within_limit tables.now ≡ true }
    ensures { IfOk result (λ total. total ≡ length (body tables.now)) }
{
    let mut total = b"end\n".len() as u64;
    'tables: for table in tables {
        total += part_length(alloc, table)?;
    }
    Ok(total)
}

// How many bytes the part of a table has.
fn part_length(alloc: Global, table: &NewTable) -> Result<u64, AllocError>
    ensures { IfOk result (λ total. total ≡ length (table_part table.now)) }
{
    let mut line = Bytes::of(alloc, b"")?;
    push_table_line(&mut line, table)?;
    let bytes = table.bytes.as_slice().len() as u64;
    Ok(line.as_slice().len() as u64 + bytes + 1)
}

/// Adds the line in front of the bytes of a table.
pub fn push_table_line(text: &mut Bytes, table: &NewTable) -> Result<(), AllocError>
    ensures { OnOk result (text.new ≡ text.old ++ table_line table.now) }
{
    text.push(table.table.name().as_bytes())?;
    text.push(b" ")?;
    push_decimal(text, table.bytes.as_slice().len() as u64)?;
    text.push(b"\n")
}
