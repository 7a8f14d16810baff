// A line cut into its fields where they stand, and read field by field. Fields are counted from 1.
ghost use Rattle.std.specs.Prelude.{◌≡◌, ◌++◌, [], ◌∷◌, Some, IfOk, MatchOption, OnOk, bytes_eq, length};
ghost use Rattle.std.specs.Option.{option_or};
ghost use Rattle.std.specs.Result.{result_err};
ghost use Rattle.account_model.specs.Faults.{name_fault};
ghost use Rattle.account_model.specs.Records.{read_count, read_days, read_id, read_names};
ghost use Rattle.account_model.specs.Text.{is_listed, nonempty};
ghost use Rattle.acct_text.specs.Numbers.{number_within};
ghost use Rattle.acct_text.specs.Pieces.{fields_of};
ghost use Rattle.acct_lines.specs.Fields.{IsOtherCount, IsFieldRead, IsFieldTaken, fields_left};
ghost use Rattle.account_model.specs.Naming.{first_field as first_of};

use account_model::{GREATEST_DAYS, GREATEST_ID, LineFault};
use acct_text::{Names, cut_once, read_decimal};
use memchr::memchr_iter;
use std::alloc::{AllocError, Global};

/// How far the fields of a line are taken, each a part of the line.
#[derive(Clone, Copy, Drop)]
pub(crate) enum Fields<'a> {
    /// The part of the line that holds the fields behind those that were taken.
    Left(&'a [u8]),
    /// All are taken.
    Taken,
    /// One was to be taken where none was left.
    Missing,
}

impl<'a> Fields<'a> {
    /// Takes the next field; an empty one where none is left.
    pub(crate) fn take(&mut self) -> &'a [u8]
        ensures { IsFieldTaken (fields_left self.old) result.now (fields_left self.new) }
    {
        let Fields::Left(rest) = *self else {
            *self = Fields::Missing;
            return &[];
        };
        match cut_once(b':', rest) {
            Some(cut) => {
                *self = Fields::Left(cut.behind);
                cut.before
            }
            None => {
                *self = Fields::Taken;
                rest
            }
        }
    }

    /// Ends the taking of the line's fields: the fault is their number, where more or fewer were
    /// taken. They are counted then alone.
    pub(crate) fn end(self, line: &[u8]) -> Reading
        ensures { MatchOption result.fault (fields_left self.entry ≡ Some [])
            (IsOtherCount line.now (fields_left self.entry)) }
    {
        match self {
            Fields::Taken => Reading { fault: None },
            _ => Reading {
                fault: Some(LineFault::FieldCount(field_count(line))),
            },
        }
    }
}

// The number of fields of a line.
fn field_count(line: &[u8]) -> usize
    ensures { result ≡ length (fields_of line.now) }
{
    memchr_iter(b':', line).count() + 1
}

/// What the fields of a line tell as they are read, one after another: its first fault.
#[derive(Drop)]
pub(crate) struct Reading {
    /// The first fault, if one came.
    pub(crate) fault: Option<LineFault>,
}

impl Reading {
    ghost use Rattle.account_model.specs.declared.fault.LineFault.TheVariants.{BadNumber};

    /// The UID, the GID or the first subordinate ID that the field at a place is.
    pub(crate) fn id(&mut self, place: usize, field: &[u8]) -> u32
        ensures { IsFieldRead (read_id field.now) (BadNumber place) self.old.fault self.new.fault
            result }
    {
        self.number(place, field, GREATEST_ID)
    }

    /// The number of subordinate IDs that the field at a place is, before the range is tested.
    pub(crate) fn count(&mut self, place: usize, field: &[u8]) -> u32
        ensures { IsFieldRead (read_count field.now) (BadNumber place) self.old.fault self.new.fault
            result }
    {
        self.number(place, field, GREATEST_ID + 1)
    }

    /// The number of days that the field at a place is: none where it is empty or `-1` (shadow(5)).
    pub(crate) fn days(&mut self, place: usize, field: &[u8]) -> Option<u32>
        ensures { IsFieldRead (read_days field.now) (BadNumber place) self.old.fault self.new.fault
            result }
    {
        if field.is_empty() || field == b"-1".as_slice() {
            return None;
        }
        Some(self.number(place, field, GREATEST_DAYS))
    }

    // The number, of at most `greatest`, that the field at a place is; 0 where it is none.
    fn number(&mut self, place: usize, field: &[u8], greatest: u32) -> u32
        ensures { IsFieldRead (number_within greatest field.now) (BadNumber place) self.old.fault
            self.new.fault result }
    {
        match read_decimal(field, u64::from(greatest)) {
            Ok(number) => number as u32,
            Err(_) => {
                self.fault = self.fault.or(Some(LineFault::BadNumber(place)));
                0
            }
        }
    }

    /// Ends the reading with the first field, a name, which may not be empty. The fault is the first
    /// that came, or else `EmptyName`.
    pub(crate) fn finish(self, name: &[u8]) -> Result<(), LineFault>
        ensures { result_err result ≡ option_or self.fault (name_fault (name.now ∷ [])) }
    {
        match self.fault {
            Some(first) => Err(first),
            None if name.is_empty() => Err(LineFault::EmptyName),
            None => Ok(()),
        }
    }
}

/// The text in front of the first colon of a line, and the whole line where it has none. Where the
/// line is a record, this is its name.
pub fn first_field(line: &[u8]) -> &[u8]
    ensures { result.now ≡ first_of line.now }
{
    match cut_once(b':', line) {
        Some(cut) => cut.before,
        None => line,
    }
}

/// Whether the text in front of the first colon of a line is this one. A line that begins otherwise
/// isn't searched for its colon.
pub fn has_first_field(line: &[u8], text: &[u8]) -> bool
    ensures { result ≡ bytes_eq (first_of line.now) text.now }
{
    if !line.starts_with(text) {
        return false;
    }
    first_field(line) == text
}

/// The names between the commas of a text (group(5), gshadow(5)); empty ones are left out.
pub fn cut_names(alloc: Global, text: &[u8]) -> Result<Names, AllocError>
    ensures { IfOk result (λ names. names ≡ read_names text.now) }
{
    let mut names = Names::new(alloc);
    let mut rest = text;
    'names: while let Some(cut) = cut_once(b',', rest) {
        push_name(&mut names, cut.before)?;
        rest = cut.behind;
    }
    push_name(&mut names, rest)?;
    Ok(names)
}

// Adds a name that isn't empty.
fn push_name(names: &mut Names, name: &[u8]) -> Result<(), AllocError>
    ensures { OnOk result (names.new ≡ names.old ++ nonempty (name.now ∷ [])) }
{
    if !name.is_empty() {
        names.push(name)?;
    }
    Ok(())
}

/// Whether the name is one of those between the commas of a text (group(5), gshadow(5)). It takes no
/// memory.
pub fn lists(text: &[u8], name: &[u8]) -> bool
    ensures { result ≡ is_listed name.now (read_names text.now) }
{
    let mut rest = text;
    'names: while let Some(cut) = cut_once(b',', rest) {
        if is_name(cut.before, name) {
            return true;
        }
        rest = cut.behind;
    }
    is_name(rest, name)
}

// Whether a piece of a list, which may be empty, is the name.
fn is_name(piece: &[u8], name: &[u8]) -> bool
    ensures { result ≡ is_listed name.now (nonempty (piece.now ∷ [])) }
{
    !piece.is_empty() && name == piece
}
