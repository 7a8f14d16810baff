// The lines of a table, and the first record among them that passes a test.
ghost use Rattle.std.specs.Prelude.{◌≡◌, Bool, find, IfOk, IfSome};
ghost use Rattle.acct_text.specs.Lines.{lines_of};
ghost use Rattle.account_model.specs.Format.{records_of};
ghost use Rattle.table.specs.Accepting.{IsKeyOf, IsNumberOf, is_accepted};

use crate::keys::KeyedRecord;
use acct_lines::{GroupLine, GroupRecord, PasswdLine, PasswdRecord};
use acct_tables::{Lines, from_mark, read_record};
use itoa::Buffer;
use std::alloc::{AllocError, Global};

/// A test of the records R, made on a line where it stands.
pub trait RecordTest<R: KeyedRecord> {
    // whether a record passes
    ghost accepts: { Self → R → Bool };

    /// A number whose decimal text the line of each record has that passes.
    fn number(&self) -> u32
        ensures { IsNumberOf R.format (accepts self.now) result };

    /// A key that each record has which passes; none where no such key is known.
    fn key(&self) -> Option<u64>
        ensures { IfSome result (IsKeyOf R.keys (accepts self.now)) };

    /// Whether the line is a record that passes. It takes no memory.
    fn passes(&self, line: &[u8]) -> bool
        ensures { result ≡ is_accepted (accepts self.now) (R.format.read line.now) };
}

/// That a user or a group has the GID.
#[derive(Clone, Copy)]
pub struct OfGid {
    pub gid: u32,
}

impl RecordTest<PasswdRecord> for OfGid {
    ghost use Rattle.std.specs.Prelude.{◌==◌};

    ghost accepts = { λ test user. user.gid == test.gid };

    fn number(&self) -> u32 {
        self.gid
    }

    fn key(&self) -> Option<u64> {
        Some(u64::from(self.gid))
    }

    fn passes(&self, line: &[u8]) -> bool {
        match PasswdLine::read(line) {
            Ok(user) => user.gid == self.gid,
            Err(_) => false,
        }
    }
}

impl RecordTest<GroupRecord> for OfGid {
    ghost use Rattle.std.specs.Prelude.{◌==◌};

    ghost accepts = { λ test group. group.gid == test.gid };

    fn number(&self) -> u32 {
        self.gid
    }

    fn key(&self) -> Option<u64> {
        None
    }

    fn passes(&self, line: &[u8]) -> bool {
        match GroupLine::read(line) {
            Ok(group) => group.gid == self.gid,
            Err(_) => false,
        }
    }
}

/// The first record of a file with these bytes that passes the test. Only lines with its number are read.
pub(crate) fn first_passing<R: KeyedRecord + Drop, T: RecordTest<R>>(
    alloc: Global,
    text: &[u8],
    test: &T,
) -> Result<Option<R>, AllocError>
    ensures { IfOk result (λ found.
        found ≡ find (T.accepts test.now) (records_of R.format (lines_of text.now))) }
{
    let mut buffer = Buffer::new();
    let number = buffer.format(test.number()).as_bytes();
    let mut left = Lines::of(from_mark(text, number));
    'lines: while let Some(line) = left.take() {
        if test.passes(line.text) {
            return read_record(alloc, line.text);
        }
        left = Lines::of(from_mark(left.bytes(), number));
    }
    Ok(None)
}
