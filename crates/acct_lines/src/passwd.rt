// The records of passwd (passwd(5)).
ghost use Rattle.std.specs.Prelude.{◌≡◌, Some, IfOk, MatchResult};
ghost use Rattle.account_model.specs.Faults.{passwd_fault};
ghost use Rattle.account_model.specs.Records.{passwd_format};

use crate::fields::Fields;
use crate::walks::{copy_field, copy_fields, print_field, print_fields, read_fields};
use crate::{LineFault, PasswdRecord, ReadFault, TableRecord, parts};
use acct_text::{Bytes, Names, join_fields};
use std::alloc::{AllocError, Global};

// The fields of a line, in their order (passwd(5)).
macro_rules! passwd_fields {
    ($walk:ident, $($with:tt)+) => {
        $walk! {
            $($with)+;
            name,
            password: text,
            uid: id(3),
            gid: id(4),
            comment: text,
            home: text,
            shell: text,
        }
    };
}

/// A line of passwd, read where it stands: its texts are parts of the line.
#[derive(Clone, Copy)]
pub struct PasswdLine<'a> {
    /// The name of the user.
    pub name: &'a [u8],
    /// The password field, mostly `x`.
    pub password: &'a [u8],
    /// The UID.
    pub uid: u32,
    /// The GID of the primary group.
    pub gid: u32,
    /// The comment, which is mostly the full name.
    pub comment: &'a [u8],
    /// The home folder.
    pub home: &'a [u8],
    /// The shell, or empty.
    pub shell: &'a [u8],
}

impl<'a> PasswdLine<'a> {
    ghost use Rattle.acct_lines.specs.Shown.{passwd_shown};

    /// The record that the line is, without its newline. It takes no memory, and its faults come in
    /// the order of `LineFault`.
    pub fn read(line: &'a [u8]) -> Result<Self, LineFault>
        ensures { MatchResult result
            (λ shown. passwd_format.read line.now ≡ Some (passwd_shown shown))
            (λ first. passwd_fault line.now ≡ Some first) }
    {
        Ok(passwd_fields!(read_fields, line as PasswdLine))
    }

    /// A copy of the record that the line shows.
    pub fn copied(&self, alloc: Global) -> Result<PasswdRecord, AllocError>
        ensures { IfOk result (λ copy. copy ≡ passwd_shown self.now) }
    {
        Ok(passwd_fields!(copy_fields, self as PasswdRecord in alloc))
    }
}

impl TableRecord for PasswdRecord {
    ghost use Rattle.account_model.specs.Records.{passwd_format};
    ghost use Rattle.account_model.specs.Faults.{passwd_fault};
    ghost use Rattle.account_model.proofs.FormatLaws.{passwd-is_format};
    ghost use Rattle.account_model.proofs.NamingLaws.{passwd-names_first};

    ghost format = { passwd_format };

    ghost fault = { passwd_fault };

    fn read(alloc: Global, line: &[u8]) -> Result<Self, ReadFault> {
        Ok(PasswdLine::read(line)?.copied(alloc)?)
    }

    fn fault(line: &[u8]) -> Option<LineFault> {
        PasswdLine::read(line).err()
    }

    fn print(&self, alloc: Global) -> Result<Bytes, AllocError> {
        passwd_fields!(print_fields, self in alloc)
    }

    fn name(&self) -> &[u8] {
        self.name.as_slice()
    }

    ghost is_line_format = { passwd-is_format };

    ghost names_first = { passwd-names_first };
}
