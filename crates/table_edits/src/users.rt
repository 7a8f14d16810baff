// Users that a command looks for in passwd(5). An absent table has none.
ghost use Rattle.std.specs.Prelude.{◌≡◌, ◌≤◌, ◌==◌, true, None, find, not, IfOk, IsSomeAnd};
ghost use Rattle.std.specs.Option.{option_copied};
ghost use Rattle.account_model.specs.Ids.{is_used, used_uids as uids_of};
ghost use Rattle.account_model.specs.Records.{passwd_format};
ghost use Rattle.account_model.specs.Refusals.{missing_user, missing_users};
ghost use Rattle.account_model.specs.Tables.{passwd_records};
ghost use Rattle.account_model.specs.Users.{find_user, has_user, other_users};
ghost use Rattle.carried_tables.specs.KeptIds.{ids_in, table_counts};
ghost use Rattle.id_choice.specs.Used.{AreThoseOf};
ghost use Rattle.table_edits.specs.Stopping.{StopsBy};

use crate::Tables;
use account_model::Refusal;
use acct_lines::PasswdRecord;
use acct_text::{Bytes, Names};
use carried_tables::IdsInUse;
use std::alloc::{AllocError, Global};
use table::{OfGid, RecordTest};
use tool_answers::ToolFault;

impl<'a> Tables<'a> {
    /// The first user whose primary group has the GID. Where the places of primary groups are known it
    /// takes no pass.
    pub fn user_of_gid(&self, alloc: Global, gid: u32) -> Result<Option<PasswdRecord>, AllocError>
        ensures { IfOk result (λ found.
            found ≡ find (λ user. user.gid == gid) (passwd_records self.now)) }
    {
        self.first_user(alloc, &OfGid { gid })
    }

    /// Whether surely no user with another name has the UID. It takes no pass; where the used UIDs
    /// aren't known it tells nothing.
    pub fn lacks_other_of_uid(
        &self,
        alloc: Global,
        name: &[u8],
        uid: u32,
    ) -> Result<bool, AllocError>
        ensures { IfOk result (λ lacks. lacks ≡ true
            → find (λ user. user.uid == uid) (other_users name.now self.now) ≡ None) }
    {
        if self.is_uid_alone(uid) {
            return self.is_of_uid(alloc, name, uid);
        }
        Ok(false)
    }

    // Whether surely no two users have the UID.
    fn is_uid_alone(&self, uid: u32) -> bool
        ensures { result ≡ true
            → table_counts passwd_format (λ user. user.uid) self.now.passwd uid ≤ 1 }
    {
        self.carried.passwd().is_alone(uid)
    }

    // Whether the user of the name has the UID.
    fn is_of_uid(&self, alloc: Global, name: &[u8], uid: u32) -> Result<bool, AllocError>
        ensures { IfOk result (λ is. is ≡ true
            → IsSomeAnd (find_user name.now self.now) (λ user. (user.uid == uid) ≡ true)) }
    {
        match self.user_named(alloc, name)? {
            Some(user) => Ok(user.uid == uid),
            None => Ok(false),
        }
    }

    /// The first user that passes the test.
    pub fn first_user<T: RecordTest<PasswdRecord>>(
        &self,
        alloc: Global,
        test: &T,
    ) -> Result<Option<PasswdRecord>, AllocError>
        ensures { IfOk result (λ found.
            found ≡ find (T.accepts test.now) (passwd_records self.now)) }
    {
        self.carried.passwd().table().first_passing(alloc, test)
    }

    /// Whether a user has the UID. It gathers no UIDs.
    pub fn is_uid_used(&self, alloc: Global, uid: u32) -> Result<bool, AllocError>
        ensures { IfOk result (λ used. used ≡ is_used (uids_of self.now) uid) }
    {
        self.carried.passwd().has_id(alloc, uid)
    }

    /// The UIDs of all users.
    pub fn used_uids(&self, alloc: Global) -> Result<IdsInUse<'a>, AllocError>
        ensures { IfOk result (λ used. AreThoseOf (ids_in used) (uids_of self.now)) }
    {
        self.carried.passwd().used(alloc)
    }

    /// Refuses a name that no user has: `NoUser`.
    pub fn check_user(&self, alloc: Global, name: &[u8]) -> Result<(), ToolFault>
        ensures { StopsBy (missing_user name.now self.now) result }
    {
        if self.has_user(name) {
            return Ok(());
        }
        Err(no_user(alloc, name)?)
    }

    /// Refuses the first of the names that no user has: `NoUser`.
    pub fn check_users(&self, alloc: Global, names: &Names) -> Result<(), ToolFault>
        ensures { StopsBy (missing_users names.now self.now) result }
    {
        match self.first_unknown(names.as_slice()) {
            Some(name) => Err(no_user(alloc, name.as_slice())?),
            None => Ok(()),
        }
    }

    // The first of the names that no user has.
    fn first_unknown<'n>(&self, names: &'n [Bytes]) -> Option<&'n Bytes>
        ensures { option_copied result ≡ find (λ name. not (has_user name self.now)) names.now }
    {
        names.iter().find(|name| !self.has_user(name.as_slice()))
    }
}

// The fault that tells that no user has the name.
fn no_user(alloc: Global, name: &[u8]) -> Result<ToolFault, AllocError>
    ensures { IfOk result (λ fault. fault ≡ ToolFault.Refused (Refusal.NoUser name.now)) }
{
    Ok(ToolFault::Refused(Refusal::NoUser(Bytes::of(alloc, name)?)))
}
