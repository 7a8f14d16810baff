// What the tools do with records of passwd (passwd(5)).
ghost use Rattle.std.specs.Prelude.{◌≡◌, ◌==◌, Some, OnOk};
ghost use Rattle.line_edits.specs.PasswdChanges.{passwd_after, with_user_fields};

use crate::fields::set_given;
use crate::{Becoming, EditedRecord, HashChange, PrimaryGroup};
use acct_lines::{PasswdLine, PasswdRecord, TableRecord};
use acct_tables::Marks;
use acct_text::Bytes;
use std::alloc::{AllocError, Global};

/// What is done with a record of passwd.
#[derive(Drop)]
pub enum PasswdAct {
    /// The password field becomes this one.
    SetPassword(Bytes),
    /// The user gets the primary group of the GID.
    SetGid(u32),
    /// The password field changes so, where it holds the hash.
    ChangePassword(HashChange),
    /// The fields become these, as far as they are given.
    SetFields(UserFields),
}

/// Fields of a record of passwd that a tool sets. One that is none stays as it is.
pub struct UserFields {
    /// The name of the user.
    pub name: Option<Bytes>,
    /// The UID.
    pub uid: Option<u32>,
    /// The GID of the primary group.
    pub gid: Option<u32>,
    /// The comment, which is mostly the full name.
    pub comment: Option<Bytes>,
    /// The home folder.
    pub home: Option<Bytes>,
    /// The shell, or empty.
    pub shell: Option<Bytes>,
}

// One call for what may be given, so that who makes a change has few ways through it.
impl Drop for UserFields {
    fn drop(self) {
        let UserFields {
            name: _,
            uid: _,
            gid: _,
            comment: _,
            home: _,
            shell: _,
        } = self;
    }
}

/// What becomes of the records of passwd.
#[derive(Drop)]
pub enum PasswdChange {
    /// The act is done with the records of the name. Others stay.
    Named(Bytes, PasswdAct),
    /// The act is done with the records of the primary group. Others stay.
    OfGroup(PrimaryGroup, PasswdAct),
    /// The records of the name go.
    Remove(Bytes),
}

impl EditedRecord for PasswdRecord {
    ghost use Rattle.std.specs.Prelude.{refl};
    ghost use Rattle.line_edits.specs.PasswdChanges.{passwd_becomes};

    type Change = PasswdChange;

    ghost becomes = { passwd_becomes };

    fn becoming(
        mut self,
        alloc: Global,
        change: &PasswdChange,
    ) -> Result<Becoming<Self>, AllocError> {
        match change {
            PasswdChange::Named(name, act) if self.name() == name.as_slice() => {
                act_on(alloc, &mut self, act)?;
            }
            PasswdChange::OfGroup(group, act) if self.gid == group.gid() => {
                act_on(alloc, &mut self, act)?;
            }
            PasswdChange::Remove(name) if self.name() == name.as_slice() => return Ok(
                Becoming::Goes,
            ),
            _ => return Ok(Becoming::Stays),
        }
        Ok(Becoming::Changes(self))
    }

    fn only_name(change: &PasswdChange) -> Option<&[u8]> {
        match change {
            PasswdChange::Named(name, _) | PasswdChange::Remove(name) => Some(name.as_slice()),
            PasswdChange::OfGroup(..) => None,
        }
    }

    fn other_marks(change: &PasswdChange) -> Option<Marks<'_>> {
        match change {
            PasswdChange::OfGroup(group, _) => Some(Marks::one(group.digits())),
            _ => None,
        }
    }

    fn leaves_fields(change: &PasswdChange, line: &[u8]) -> bool {
        match change {
            PasswdChange::OfGroup(group, _) => match PasswdLine::read(line) {
                Ok(user) => user.gid != group.gid(),
                Err(_) => false,
            },
            _ => false,
        }
    }

    ghost no_blank = { refl };
}

// Does the act with the record. At `AllocError` it may have some of the fields that are given.
fn act_on(alloc: Global, user: &mut PasswdRecord, act: &PasswdAct) -> Result<(), AllocError>
    ensures { OnOk result (user.new ≡ passwd_after act.now user.old) }
{
    match act {
        PasswdAct::SetPassword(password) => user.password = password.copy()?,
        PasswdAct::SetGid(gid) => user.gid = *gid,
        PasswdAct::ChangePassword(change) => user.password = change.of(alloc, &user.password)?,
        PasswdAct::SetFields(fields) => return set_fields(user, fields),
    }
    Ok(())
}

// Puts the fields that are given into the record. At `AllocError` it may have some of them.
fn set_fields(user: &mut PasswdRecord, fields: &UserFields) -> Result<(), AllocError>
    ensures { OnOk result (user.new ≡ with_user_fields fields.now user.old) }
{
    user.uid = fields.uid.unwrap_or(user.uid);
    user.gid = fields.gid.unwrap_or(user.gid);
    set_given(&mut user.name, &fields.name)?;
    set_given(&mut user.comment, &fields.comment)?;
    set_given(&mut user.home, &fields.home)?;
    set_given(&mut user.shell, &fields.shell)
}
