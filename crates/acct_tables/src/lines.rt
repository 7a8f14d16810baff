// The lines of a table's file, one after another, each where it stands in the file's bytes.
ghost use Rattle.std.specs.Prelude.{◌≡◌, ◌++◌, [], ◌∷◌, Some, true, is_some, nat_le, option_and_then, IfOk, IfSome, MatchOption, OnErr, OnOk};
ghost use Rattle.acct_text.specs.Bytes.{newline};
ghost use Rattle.acct_text.specs.Lines.{file_bytes, line_bytes, lines_of};
ghost use Rattle.acct_text.specs.Pieces.{Lacks};
ghost use Rattle.account_model.specs.Edits.{with_line};
ghost use Rattle.account_model.specs.Format.{count_named, find_named, has_named, records_of};
ghost use Rattle.account_model.specs.Written.{IsWritten};
ghost use Rattle.acct_tables.specs.SeenLines.{end_for, missing_end, seen_line};
ghost use Rattle.account_model.specs.Tables.{table_lines};

use crate::line::{is_named, read_record};
use crate::name_search::from_name;
use acct_lines::TableRecord;
use acct_text::{Bytes, cut_once};
use std::alloc::{AllocError, Global};
use std::marker::Model;

/// A line of a file, where it stands in the file's bytes.
#[derive(Clone, Copy)]
pub struct FileLine<'a> {
    /// Its bytes, without its newline.
    pub text: &'a [u8],
    /// Whether a newline stands behind it; only the last line of a file may lack one.
    pub ended: bool,
}

impl<'a> FileLine<'a> {
    /// Adds the bytes of the line, with its newline. At `AllocError` the text may have a part of it.
    pub fn push_to(&self, text: &mut Bytes) -> Result<(), AllocError>
        ensures { OnOk result (text.new ≡ text.old ++ line_bytes (seen_line self.now)) }
    {
        text.push(self.text)?;
        if self.ended {
            text.push(b"\n")?;
        }
        Ok(())
    }
}

/// The lines of a file that are still to be looked at. Each is cut off the file's bytes when it is
/// taken, so they need no memory. Contracts see the list of them.
#[derive(Drop)]
pub struct Lines<'a> {
    // the file's bytes from the next line on
    left: &'a [u8],
}

impl<'a> Model for Lines<'a> {
    ghost use Rattle.std.specs.Prelude.{List};
    ghost use Rattle.acct_text.specs.Lines.{Line, lines_of};

    ghost Value = { List Line };

    ghost view = { λ l. lines_of l.left.now };
}

impl<'a> Lines<'a> {
    /// All lines of a file with these bytes.
    pub fn of(text: &'a [u8]) -> Self
        ensures { result ≡ lines_of text.now }
    {
        Lines { left: text }
    }

    /// Takes the next line; none where all are taken.
    pub fn take(&mut self) -> Option<FileLine<'a>>
        ensures taken { MatchOption result (self.old ≡ [])
            (λ line. self.old ≡ seen_line line ∷ self.new) }
        ensures over { self.old ≡ [] → self.new ≡ [] }
        ensures one_line { IfSome result (λ line. Lacks newline line.text.now) }
    {
        let text = self.left;
        if text.is_empty() {
            return None;
        }
        match cut_once(b'\n', text) {
            Some(cut) => {
                self.left = cut.behind;
                Some(FileLine {
                    text: cut.before,
                    ended: true,
                })
            }
            None => {
                self.left = &[];
                Some(FileLine { text, ended: false })
            }
        }
    }

    /// The bytes of the lines that are left.
    pub fn bytes(&self) -> &'a [u8]
        ensures bytes { result.now ≡ file_bytes self.now }
        ensures lines { lines_of result.now ≡ self.now }
    {
        self.left
    }
}

/// The bytes of a table's file; an absent one has none.
pub fn text_of(file: &Option<Bytes>) -> &[u8]
    ensures { lines_of result.now ≡ table_lines file.now }
{
    match file {
        Some(text) => text.as_slice(),
        None => b"",
    }
}

/// The first record of the name in a file with these bytes; none where no record has it. Only lines
/// that begin with the name are read.
pub fn find_record<R: TableRecord + Drop>(
    alloc: Global,
    text: &[u8],
    name: &[u8],
) -> Result<Option<R>, AllocError>
    ensures found { IfOk result (λ found.
        found ≡ find_named R.format name.now (records_of R.format (lines_of text.now))) }
    ensures written { IfOk result (λ found. IfSome found (IsWritten R.format)) }
{
    match line_of_name::<R>(text, name) {
        Some(line) => read_record(alloc, line),
        None => Ok(None),
    }
}

/// Whether a record of a file with these bytes has the name. It takes no memory.
pub fn has_record<R: TableRecord>(text: &[u8], name: &[u8]) -> bool
    ensures { result ≡ has_named R.format name.now (records_of R.format (lines_of text.now)) }
{
    line_of_name::<R>(text, name).is_some()
}

// The first line that reads as a record of the name; none where no record has it.
fn line_of_name<'a, R: TableRecord>(text: &'a [u8], name: &[u8]) -> Option<&'a [u8]>
    ensures found { option_and_then (λ line. R.format.read line.now) result
        ≡ find_named R.format name.now (records_of R.format (lines_of text.now)) }
    ensures reads { IfSome result (λ line. is_some (R.format.read line.now) ≡ true) }
    ensures one_line { IfSome result (λ line. Lacks newline line.now) }
{
    let mut left = Lines::of(from_name::<R>(text, name));
    'lines: while let Some(line) = left.take() {
        if is_named::<R>(line.text, name) {
            return Some(line.text);
        }
        left = Lines::of(from_name::<R>(left.bytes(), name));
    }
    None
}

/// Whether several records of a file with these bytes have the name. It takes no memory.
pub fn has_several_records<R: TableRecord>(text: &[u8], name: &[u8]) -> bool
    ensures { result ≡ nat_le 2
        (count_named R.format name.now (records_of R.format (lines_of text.now))) }
{
    let mut is_found = false;
    let mut left = Lines::of(from_name::<R>(text, name));
    'lines: while let Some(line) = left.take() {
        let is_one = is_named::<R>(line.text, name);
        if is_one && is_found {
            return true;
        }
        is_found = is_found || is_one;
        left = Lines::of(from_name::<R>(left.bytes(), name));
    }
    false
}

/// Adds a line with an end behind the last one, which gets an end where it had none. It takes no
/// pass over the lines. At `AllocError` the text is as before.
pub fn append_line(alloc: Global, text: &mut Bytes, line: &[u8]) -> Result<(), AllocError>
    ensures appended { OnOk result
        (text.new ≡ file_bytes (with_line line.now (lines_of text.old))) }
    ensures unchanged { OnErr result (text.new ≡ text.old) }
{
    let mut more = Bytes::new(alloc);
    more.push(missing_end(text.as_slice()))?;
    more.push(line)?;
    more.push(b"\n")?;
    text.push(more.as_slice())
}

// The newline that the last line of a text lacks; nothing where it has one, and without lines.
fn missing_end(text: &[u8]) -> &'static [u8]
    ensures { result.now ≡ missing_end text.now }
{
    match text.last() {
        Some(last) => end_behind(*last),
        None => b"",
    }
}

// The newline behind a last byte that is none.
fn end_behind(last: u8) -> &'static [u8]
    ensures { result.now ≡ end_for (Some last) }
{
    if last == b'\n' { b"" } else { b"\n" }
}
