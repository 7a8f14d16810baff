// The IDs that users and groups have by their records (passwd(5), group(5)).
ghost use Rattle.std.specs.Prelude.{◌≡◌, ◌++◌, ℕ, [], map, option_map, IfOk, OnOk};
ghost use Rattle.std.specs.List.{cons_option};
ghost use Rattle.acct_text.specs.Lines.{lines_of};
ghost use Rattle.account_model.specs.Format.{records_of};

use crate::lines::Lines;
use acct_lines::{GroupLine, GroupRecord, PasswdLine, PasswdRecord, TableRecord};
use std::alloc::{AllocError, Global};

/// A record with an ID of its own.
pub trait NumberedRecord: TableRecord {
    // its ID
    ghost id_of: { Self → ℕ };

    /// Its ID.
    fn id(&self) -> u32
        ensures { result ≡ id_of self.now };

    /// The UID of the user or the GID of the group that the line is; none where it is other text.
    fn id_in(line: &[u8]) -> Option<u32>
        ensures { result ≡ option_map id_of (Self.format.read line.now) };
}

impl NumberedRecord for PasswdRecord {
    ghost id_of = { λ user. user.uid };

    fn id(&self) -> u32 {
        self.uid
    }

    fn id_in(line: &[u8]) -> Option<u32> {
        match PasswdLine::read(line) {
            Ok(user) => Some(user.uid),
            Err(_) => None,
        }
    }
}

impl NumberedRecord for GroupRecord {
    ghost id_of = { λ group. group.gid };

    fn id(&self) -> u32 {
        self.gid
    }

    fn id_in(line: &[u8]) -> Option<u32> {
        match GroupLine::read(line) {
            Ok(group) => Some(group.gid),
            Err(_) => None,
        }
    }
}

/// The IDs of all records of a file with these bytes, in the order of lines.
pub fn listed_ids<R: NumberedRecord>(alloc: Global, text: &[u8]) -> Result<Vec<u32>, AllocError>
    ensures { IfOk result (λ ids.
        ids.items ≡ map R.id_of (records_of R.format (lines_of text.now))) }
{
    let mut ids = Vec::new(alloc);
    let mut left = Lines::of(text);
    'lines: while let Some(line) = left.take() {
        note_id::<R>(&mut ids, line.text)?;
    }
    Ok(ids)
}

// Adds the ID of the record that the line is; other text has none.
fn note_id<R: NumberedRecord>(ids: &mut Vec<u32>, line: &[u8]) -> Result<(), AllocError>
    ensures { OnOk result (ids.new.items
        ≡ ids.old.items ++ cons_option (option_map R.id_of (R.format.read line.now)) []) }
{
    let Some(id) = R::id_in(line) else {
        return Ok(());
    };
    ids.push(id)?;
    Ok(())
}
