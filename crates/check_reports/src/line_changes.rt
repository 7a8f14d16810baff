// What becomes of the lines of a table of which a change may touch every record, in one walk that keeps
// what opens their accounts, and the first name that it meets of which the table has several (pwconv(8)).
ghost use Rattle.std.specs.Prelude.{◌≡◌, ◌++◌, ◌+◌, ◌^◌, ◌<◌, ◌∷◌, [], List, IfOk, OnOk, option_map, option_to_list};
ghost use Rattle.std.specs.Option.{option_copied};
ghost use Rattle.acct_text.specs.Lines.{file_bytes, lines_of};
ghost use Rattle.account_model.specs.Format.{records_of};
ghost use Rattle.account_model.specs.Edits.{Become, becomes, edited, first_multiple, line_becomes, touches};
ghost use Rattle.account_model.specs.Tables.{table_records, table_lines};
ghost use Rattle.acct_tables.specs.NameIndex.{TellsAtMost, are_several, told};
ghost use Rattle.acct_tables.specs.SeenLines.{seen_line};
ghost use Rattle.check_reports.specs.LineChanges.{met_in};
ghost use Rattle.check_reports.specs.Secrets.{HasSecrets};
ghost use Rattle.check_reports.specs.Sorted.{IsOrderOf};

use crate::secrets::{AccountLine, Secrets};
use crate::sorting::ByPlace;
use acct_lines::TableRecord;
use acct_tables::{FileLine, Lines, text_of};
use acct_text::Bytes;
use std::alloc::{AllocError, Global};

/// A change that may touch each record of a table.
pub(crate) trait LineChange<'a, R: TableRecord, L: AccountLine<'a, R>> {
    // what a record becomes
    ghost change: { Self → R → List R };

    /// Whether the record goes, or becomes another one.
    fn touches(&self, account: &L) -> bool
        ensures { result ≡ touches R.format (Become (change self.now) ∷ []) (L.shown account.now) };

    /// Adds what becomes of the line of a record. A name that is looked up for it isn't hashed where it
    /// has this place, counted from 0, among the records of the other table.
    fn push(
        &self,
        alloc: Global,
        made: &mut Bytes,
        account: &L,
        line: &FileLine<'a>,
        place: usize,
    ) -> Result<(), AllocError>
        ensures { OnOk result (made.new ≡ made.old
            ++ file_bytes (line_becomes R.format (seen_line line.now) (L.shown account.now)
            (change self.now (L.shown account.now)))) };
}

/// What a walk over the lines of a table leaves.
#[derive(Drop)]
pub(crate) struct Walked<'a> {
    /// What opens the accounts of the records as they stood.
    pub(crate) secrets: Secrets<'a>,
    /// The bytes of what became of the lines.
    pub(crate) text: Bytes,
}

/// Walks over the lines of a table.
pub(crate) fn walk<'a, R: TableRecord, L: AccountLine<'a, R>, C: LineChange<'a, R, L>>(
    alloc: Global,
    file: &'a Option<Bytes>,
    change: &C,
) -> Result<Walked<'a>, AllocError>
    ensures secrets { IfOk result (λ walked.
        HasSecrets R.format L.secret (table_records R.format file.now) walked.secrets) }
    ensures text { IfOk result (λ walked. walked.text ≡ file_bytes
        (edited R.format (table_lines file.now) (Become (C.change change.now)))) }
{
    let text = text_of(file);
    let mut walked = Walked {
        secrets: Secrets::new::<R, L>(alloc),
        text: Bytes::with_room(alloc, text.len())?,
    };
    let mut left = Lines::of(text);
    'lines: while let Some(line) = left.take() {
        walked.pass::<R, L, C>(alloc, &line, change)?;
    }
    Ok(walked)
}

impl<'a> Walked<'a> {
    /// The bytes alone.
    pub(crate) fn into_text(self) -> Bytes
        ensures { result ≡ self.entry.text }
    {
        let Walked { secrets: _, text } = self;
        text
    }

    // Passes over a line.
    fn pass<R: TableRecord, L: AccountLine<'a, R>, C: LineChange<'a, R, L>>(
        &mut self,
        alloc: Global,
        line: &FileLine<'a>,
        change: &C,
    ) -> Result<(), AllocError>
        requires behind { TellsAtMost self.old.secrets.order.count (told self.old.secrets.order.names) }
        requires room { self.old.secrets.order.count + 1 < 2 ^ 64 }
        ensures text { OnOk result (self.new.text ≡ self.old.text
            ++ file_bytes (becomes R.format (C.change change.now) (seen_line line.now))) }
        ensures secrets { OnOk result ((records : List R)
            → HasSecrets R.format L.secret records self.old.secrets
            → HasSecrets R.format L.secret
            (records ++ option_to_list (R.format.read line.now.text.now)) self.new.secrets) }
    {
        let Some(account) = L::account_in(line.text) else {
            return line.push_to(&mut self.text);
        };
        change.push(
            alloc,
            &mut self.text,
            &account,
            line,
            self.secrets.order.count(),
        )?;
        self.secrets.add::<R, L>(&account)
    }
}

/// The name of the first record that is touched and whose name has several.
pub(crate) fn first_met<'a, R: TableRecord, L: AccountLine<'a, R>, C: LineChange<'a, R, L>>(
    alloc: Global,
    text: &'a [u8],
    order: &ByPlace<'_>,
    change: &C,
) -> Result<Option<Bytes>, AllocError>
    requires { IsOrderOf R.format (records_of R.format (lines_of text.now)) order.now }
    ensures { IfOk result (λ name. name ≡ first_multiple R.format
        (Become (C.change change.now) ∷ []) (records_of R.format (lines_of text.now))) }
{
    if order.differ() {
        return Ok(None);
    }
    let mut left = Lines::of(text);
    'lines: while let Some(line) = left.take() {
        if let Some(name) = met::<R, L, C>(order, change, line.text) {
            return Ok(Some(Bytes::of(alloc, name)?));
        }
    }
    Ok(None)
}

// The name of the record that the line is, where that is touched and has one of several.
fn met<'a, R: TableRecord, L: AccountLine<'a, R>, C: LineChange<'a, R, L>>(
    order: &ByPlace<'_>,
    change: &C,
    line: &'a [u8],
) -> Option<&'a [u8]>
    ensures { (records : List R) → IsOrderOf R.format records order.now
        → option_copied result ≡ met_in R.format (C.change change.now) records line.now }
{
    let account = L::account_in(line)?;
    if !change.touches(&account) {
        return None;
    }
    let name = account.name();
    if order.has_several(name) {
        return Some(name);
    }
    None
}
