// The records of group (group(5)).
ghost use Rattle.std.specs.Prelude.{◌≡◌, [], ◌∷◌, Some, IfOk, MatchResult, decimal};
ghost use Rattle.acct_text.specs.Pieces.{line_of};
ghost use Rattle.account_model.specs.Faults.{group_fault};
ghost use Rattle.account_model.specs.Records.{group_format};

use crate::fields::Fields;
use crate::parts::push_field;
use crate::walks::{copy_field, copy_fields, print_field, print_fields, read_fields};
use crate::{GroupRecord, LineFault, ReadFault, TableRecord, cut_names, parts};
use acct_text::{Bytes, Names, join_fields, push_decimal};
use std::alloc::{AllocError, Global};

// The fields of a line, in their order (group(5)).
macro_rules! group_fields {
    ($walk:ident, $($with:tt)+) => {
        $walk! {
            $($with)+;
            name,
            password: text,
            gid: id(3),
            members: names,
        }
    };
}

/// A line of group, read where it stands: its texts are parts of the line.
#[derive(Clone, Copy)]
pub struct GroupLine<'a> {
    /// The name of the group.
    pub name: &'a [u8],
    /// The password field.
    pub password: &'a [u8],
    /// The GID.
    pub gid: u32,
    /// The members, with commas between them.
    pub members: &'a [u8],
}

impl<'a> GroupLine<'a> {
    ghost use Rattle.acct_lines.specs.Shown.{group_shown};

    /// The record that the line is, without its newline. It takes no memory, and its faults come in
    /// the order of `LineFault`.
    pub fn read(line: &'a [u8]) -> Result<Self, LineFault>
        ensures { MatchResult result
            (λ shown. group_format.read line.now ≡ Some (group_shown shown))
            (λ first. group_fault line.now ≡ Some first) }
    {
        Ok(group_fields!(read_fields, line as GroupLine))
    }

    /// A copy of the record that the line shows.
    pub fn copied(&self, alloc: Global) -> Result<GroupRecord, AllocError>
        ensures { IfOk result (λ copy. copy ≡ group_shown self.now) }
    {
        Ok(group_fields!(copy_fields, self as GroupRecord in alloc))
    }

    /// The canonical line of the group with such a text for the list of its members.
    pub fn printed_with(&self, alloc: Global, members: &[u8]) -> Result<Bytes, AllocError>
        ensures { IfOk result (λ line. line ≡ line_of
            (self.now.name.now ∷ self.now.password.now ∷ decimal self.now.gid ∷ members.now ∷ [])) }
    {
        let mut line = Bytes::of(alloc, self.name)?;
        push_field(&mut line, self.password)?;
        line.push(b":")?;
        push_decimal(&mut line, u64::from(self.gid))?;
        push_field(&mut line, members)?;
        Ok(line)
    }
}

impl TableRecord for GroupRecord {
    ghost use Rattle.account_model.specs.Records.{group_format};
    ghost use Rattle.account_model.specs.Faults.{group_fault};
    ghost use Rattle.account_model.proofs.FormatLaws.{group-is_format};
    ghost use Rattle.account_model.proofs.NamingLaws.{group-names_first};

    ghost format = { group_format };

    ghost fault = { group_fault };

    fn read(alloc: Global, line: &[u8]) -> Result<Self, ReadFault> {
        Ok(GroupLine::read(line)?.copied(alloc)?)
    }

    fn fault(line: &[u8]) -> Option<LineFault> {
        GroupLine::read(line).err()
    }

    fn print(&self, alloc: Global) -> Result<Bytes, AllocError> {
        group_fields!(print_fields, self in alloc)
    }

    fn name(&self) -> &[u8] {
        self.name.as_slice()
    }

    ghost is_line_format = { group-is_format };

    ghost names_first = { group-names_first };
}
