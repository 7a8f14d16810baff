// Users with another name that a user shares an ID with (userdel(8)).
ghost use Rattle.std.specs.Prelude.{◌≡◌, true, None, IfOk, find};
ghost use Rattle.account_model.specs.Users.{other_users};
ghost use Rattle.acct_lines.specs.Shown.{passwd_shown};
ghost use Rattle.user_removal.specs.Others.{has_id};

use account_model::PasswdRecord;
use acct_lines::PasswdLine;
use std::alloc::{AllocError, Global};
use table::RecordTest;
use table_edits::Tables;

/// An ID of a user.
#[derive(Clone, Copy)]
pub(crate) enum AccountId {
    /// The user's own.
    Uid(u32),
    /// That of its primary group.
    Gid(u32),
}

/// The first user with another name that has the ID. Where carried tables surely have none, it takes no
/// pass.
pub(crate) fn first_other(
    alloc: Global,
    tables: &Tables,
    name: &[u8],
    id: AccountId,
) -> Result<Option<PasswdRecord>, AllocError>
    ensures { IfOk result (λ found.
        found ≡ find (has_id id) (other_users name.now tables.now)) }
{
    let lacks = lacks_other(alloc, tables, name, id)?;
    if lacks {
        return Ok(None);
    }
    tables.first_user(alloc, &OtherWith { name, id })
}

// Whether surely no user with another name has the ID; of a GID nothing is told, as its users are found
// by their places.
fn lacks_other(
    alloc: Global,
    tables: &Tables,
    name: &[u8],
    id: AccountId,
) -> Result<bool, AllocError>
    ensures { IfOk result (λ lacks. lacks ≡ true
        → find (has_id id) (other_users name.now tables.now) ≡ None) }
{
    match id {
        AccountId::Uid(uid) => tables.lacks_other_of_uid(alloc, name, uid),
        AccountId::Gid(_) => Ok(false),
    }
}

// That a user has another name, and the ID.
#[derive(Clone, Copy)]
struct OtherWith<'a> {
    name: &'a [u8],
    id: AccountId,
}

impl<'a> RecordTest<PasswdRecord> for OtherWith<'a> {
    ghost use Rattle.user_removal.specs.Others.{is_other_with};

    ghost accepts = { λ test user. is_other_with test.name.now test.id user };

    fn number(&self) -> u32 {
        match self.id {
            AccountId::Uid(uid) => uid,
            AccountId::Gid(gid) => gid,
        }
    }

    fn key(&self) -> Option<u64> {
        match self.id {
            AccountId::Uid(_) => None,
            AccountId::Gid(gid) => Some(u64::from(gid)),
        }
    }

    fn passes(&self, line: &[u8]) -> bool {
        match PasswdLine::read(line) {
            Ok(user) => user.name != self.name && has_id(&user, self.id),
            Err(_) => false,
        }
    }
}

// Whether the user has the ID.
fn has_id(user: &PasswdLine<'_>, id: AccountId) -> bool
    ensures { result ≡ has_id id (passwd_shown user.now) }
{
    match id {
        AccountId::Uid(uid) => user.uid == uid,
        AccountId::Gid(gid) => user.gid == gid,
    }
}
