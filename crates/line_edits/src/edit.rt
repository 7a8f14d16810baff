// The edits of a table as data, and what a record has so that edits can be made of it.
ghost use Rattle.std.specs.Prelude.{◌≡◌, true, List, [], ◌∷◌, None, IfOk, IfSome};
ghost use Rattle.account_model.specs.Written.{IsWritten};
ghost use Rattle.acct_tables.specs.Marks.{marks_in};
ghost use Rattle.line_edits.specs.Naming.{AreMarksOf, LeavesIt, TouchesOnly, names_in};
ghost use Rattle.line_edits.specs.Rewriting.{IsRewritten};
ghost use Rattle.line_edits.specs.SeenEdits.{records_in};

use crate::fields::has_other_name;
use acct_lines::TableRecord;
use acct_tables::Marks;
use acct_text::Bytes;
use std::alloc::{AllocError, Global};

/// What becomes of a record, in its place.
#[derive(Drop)]
pub enum Becoming<R> {
    /// The record stays, and its line keeps its bytes.
    Stays,
    /// The record becomes this one.
    Changes(R),
    /// The record goes, with its line.
    Goes,
    /// The record becomes these two.
    Splits(R, R),
}

/// The canonical texts of a record, before and after a change.
#[derive(Drop)]
pub struct Rewritten {
    /// That of before.
    pub kept: Bytes,
    /// That of after.
    pub new: Bytes,
}

/// The names of the records that a change may touch.
#[derive(Clone, Copy)]
pub enum ChangedNames<'e> {
    /// This one.
    One(&'e [u8]),
    /// These.
    Each(&'e [Vec<u8>]),
}

/// One edit of a table of the records R, of which C tells what becomes.
#[derive(Drop)]
pub enum Edit<R, C> {
    /// Each record becomes what the change gives of it.
    Become(C),
    /// The record goes behind the last line.
    Add(R),
    /// The same where no record has its name.
    AddMissing(R),
    /// The first record of its name becomes this one; where there is none, it is added.
    Put(R),
}

/// A record of a table that edits change.
pub trait EditedRecord: TableRecord {
    /// What a command does with such records.
    type Change: Drop;

    // the records that a record becomes by a change
    ghost becomes: { Self.Change → Self → List Self };

    /// What becomes of the record by the change.
    fn becoming(self, alloc: Global, change: &Self::Change) -> Result<Becoming<Self>, AllocError>
        requires { IsWritten Self.format self }
        ensures { IfOk result (λ becoming. records_in self becoming ≡ becomes change.now self) };

    /// The canonical texts of the record that the line is, before and after the change, where the
    /// parts of the line tell them; none where they don't, and where the line is no record.
    fn rewritten(
        _alloc: Global,
        _change: &Self::Change,
        _line: &[u8],
    ) -> Result<Option<Rewritten>, AllocError>
        ensures { IfOk result (λ texts. IfSome texts
            (IsRewritten Self.format (becomes _change.now) _line.now)) }
    {
        Ok(None)
    }

    /// Whether both changes surely make the same of each record.
    fn are_same(_one: &Self::Change, _other: &Self::Change) -> bool
        ensures { result ≡ true → becomes _one.now ≡ becomes _other.now }
    {
        false
    }

    /// The only name of which the change may touch records; none where it may touch others.
    fn only_name(change: &Self::Change) -> Option<&[u8]>
        ensures { IfSome result (λ name.
            TouchesOnly Self.format (becomes change.now) (name.now ∷ [])) };

    /// The names of all records that the change may touch, where it has no only one; none where it may
    /// touch records of any name.
    fn several_names(_change: &Self::Change) -> Option<ChangedNames<'_>>
        ensures { IfSome result (λ names.
            TouchesOnly Self.format (becomes _change.now) (names_in names)) }
    {
        None
    }

    /// Marks of which the line of each record has one that the change may touch, where it has no only
    /// name; none where no such marks are known, or they are many.
    fn other_marks(_change: &Self::Change) -> Option<Marks<'_>>
        ensures { IfSome result (λ marks.
            AreMarksOf Self.format (becomes _change.now) (marks_in marks)) }
    {
        None
    }

    /// Whether the change surely leaves the record that the line is, if it is one, by its fields.
    fn leaves_fields(_change: &Self::Change, _line: &[u8]) -> bool
        ensures { result ≡ true → LeavesIt Self.format (becomes _change.now) _line.now }
    {
        false
    }

    /// Whether the change surely leaves the record that the line is, if it is one, by what can be seen
    /// without memory.
    fn leaves(change: &Self::Change, line: &[u8]) -> bool
        ensures { result ≡ true → LeavesIt Self.format (becomes change.now) line.now }
    {
        match Self::only_name(change) {
            Some(name) if has_other_name(line, name) => true,
            _ => Self::leaves_fields(change, line),
        }
    }

    /// Marks of which the line of each record has one that the change may touch; none where no such
    /// marks are known, or they are many.
    fn marks(change: &Self::Change) -> Option<Marks<'_>>
        ensures { IfSome result (λ marks.
            AreMarksOf Self.format (becomes change.now) (marks_in marks)) }
    {
        match Self::only_name(change) {
            Some(name) => Some(Marks::one(name)),
            None => Self::other_marks(change),
        }
    }

    /// The names of all records that the change may touch, whatever becomes of them; none where it may
    /// touch records of any name.
    fn touched_names(change: &Self::Change) -> Option<ChangedNames<'_>>
        ensures { IfSome result (λ names.
            TouchesOnly Self.format (becomes change.now) (names_in names)) }
    {
        match Self::only_name(change) {
            Some(name) => Some(ChangedNames::One(name)),
            None => Self::several_names(change),
        }
    }

    // an empty line is no record
    ghost no_blank: { Self.TableRecord.format.read [] ≡ None };
}
