// Canonical lines, each field behind those that a text has so far (passwd(5), shadow(5), group(5),
// gshadow(5)).
ghost use Rattle.std.specs.Prelude.{◌≡◌, ◌++◌, ◌∷◌, [], decimal, not, if◌then◌else◌, OnOk};
ghost use Rattle.acct_text.specs.Bytes.{colon, newline};
ghost use Rattle.acct_text.specs.Lines.{file_bytes};
ghost use Rattle.account_model.specs.Edits.{line_becomes};
ghost use Rattle.account_model.specs.Records.{print_days, print_names, read_names};
ghost use Rattle.acct_tables.specs.SeenLines.{seen_line};

use crate::secrets::AccountLine;
use account_model::{GroupRecord, GshadowRecord, PasswdRecord};
use acct_lines::{GroupLine, GshadowLine, PasswdLine, TableRecord, listed_text};
use acct_tables::FileLine;
use acct_text::Bytes;
use itoa::Buffer;
use std::alloc::{AllocError, Global};

/// A line whose record is printed with another text that opens its account.
pub(crate) trait PrintedLine<'a, R: TableRecord>: AccountLine<'a, R> {
    /// Adds the canonical line of the record with the text, without a newline.
    fn push_with(&self, alloc: Global, made: &mut Bytes, text: &[u8]) -> Result<(), AllocError>
        ensures { OnOk result (made.new ≡ made.old
            ++ R.format.print (Self.with_secret text.now (Self.shown self.now))) };
}

impl<'a> PrintedLine<'a, PasswdRecord> for PasswdLine<'a> {
    fn push_with(&self, _alloc: Global, made: &mut Bytes, text: &[u8]) -> Result<(), AllocError> {
        made.push(self.name)?;
        push_field(made, text)?;
        push_number(made, self.uid)?;
        push_number(made, self.gid)?;
        push_three(made, self.comment, self.home, self.shell)
    }
}

impl<'a> PrintedLine<'a, GroupRecord> for GroupLine<'a> {
    fn push_with(&self, alloc: Global, made: &mut Bytes, text: &[u8]) -> Result<(), AllocError> {
        made.push(self.name)?;
        push_field(made, text)?;
        push_number(made, self.gid)?;
        push_list(alloc, made, self.members)
    }
}

impl<'a> PrintedLine<'a, GshadowRecord> for GshadowLine<'a> {
    fn push_with(&self, alloc: Global, made: &mut Bytes, text: &[u8]) -> Result<(), AllocError> {
        made.push(self.name)?;
        push_field(made, text)?;
        push_list(alloc, made, self.administrators)?;
        push_list(alloc, made, self.members)
    }
}

/// Whether the record becomes another one by this text.
pub(crate) fn differs<'l, M: TableRecord, P: AccountLine<'l, M>>(account: &P, text: &[u8]) -> bool
    ensures { result ≡ not (M.format.same (P.shown account.now)
        (P.with_secret text.now (P.shown account.now))) }
{
    account.secret() != text
}

/// Adds the line of a record, which becomes that with the text.
pub(crate) fn push_text<'l, M: TableRecord, P: PrintedLine<'l, M>>(
    alloc: Global,
    made: &mut Bytes,
    account: &P,
    line: &FileLine<'l>,
    text: &[u8],
) -> Result<(), AllocError>
    ensures { OnOk result (made.new ≡ made.old
        ++ file_bytes (line_becomes M.format (seen_line line.now) (P.shown account.now)
        (P.with_secret text.now (P.shown account.now) ∷ []))) }
{
    if !differs::<M, P>(account, text) {
        return line.push_to(made);
    }
    account.push_with(alloc, made, text)?;
    push_end(made, line)
}

/// Adds the end of a line, where it has one.
pub(crate) fn push_end(made: &mut Bytes, line: &FileLine<'_>) -> Result<(), AllocError>
    ensures { OnOk result (made.new ≡ made.old ++ (if line.now.ended then newline ∷ [] else [])) }
{
    if line.ended {
        made.push(b"\n")?;
    }
    Ok(())
}

/// Adds a field of any text.
pub(crate) fn push_field(made: &mut Bytes, field: &[u8]) -> Result<(), AllocError>
    ensures { OnOk result (made.new ≡ made.old ++ colon ∷ field.now) }
{
    made.push(b":")?;
    made.push(field)
}

// Adds three fields of any text.
fn push_three(made: &mut Bytes, first: &[u8], second: &[u8], third: &[u8]) -> Result<(), AllocError>
    ensures { OnOk result (made.new ≡ made.old
        ++ colon ∷ first.now ++ colon ∷ second.now ++ colon ∷ third.now) }
{
    push_field(made, first)?;
    push_field(made, second)?;
    push_field(made, third)
}

/// Adds a number.
pub(crate) fn push_number(made: &mut Bytes, number: u32) -> Result<(), AllocError>
    ensures { OnOk result (made.new ≡ made.old ++ colon ∷ decimal number) }
{
    let mut buffer = Buffer::new();
    push_field(made, buffer.format(number).as_bytes())
}

/// Adds a number of days; an empty field where there is none (shadow(5)).
pub(crate) fn push_days(made: &mut Bytes, days: Option<u32>) -> Result<(), AllocError>
    ensures { OnOk result (made.new ≡ made.old ++ colon ∷ print_days days) }
{
    match days {
        Some(days) => push_number(made, days),
        None => made.push(b":"),
    }
}

/// Adds three numbers of days.
pub(crate) fn push_three_days(
    made: &mut Bytes,
    first: Option<u32>,
    second: Option<u32>,
    third: Option<u32>,
) -> Result<(), AllocError>
    ensures { OnOk result (made.new ≡ made.old
        ++ colon ∷ print_days first ++ colon ∷ print_days second ++ colon ∷ print_days third) }
{
    push_days(made, first)?;
    push_days(made, second)?;
    push_days(made, third)
}

/// Adds the list of names that a text is: empty names are left out.
pub(crate) fn push_list(alloc: Global, made: &mut Bytes, text: &[u8]) -> Result<(), AllocError>
    ensures { OnOk result (made.new ≡ made.old ++ colon ∷ print_names (read_names text.now)) }
{
    if text.is_empty() {
        return made.push(b":");
    }
    let list = listed_text(alloc, text)?;
    push_field(made, list.as_slice())
}
