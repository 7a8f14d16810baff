// The records of gshadow (gshadow(5)).
ghost use Rattle.std.specs.Prelude.{◌≡◌, [], ◌∷◌, Some, IfOk, MatchResult};
ghost use Rattle.acct_text.specs.Pieces.{line_of};
ghost use Rattle.account_model.specs.Faults.{gshadow_fault};
ghost use Rattle.account_model.specs.Records.{gshadow_format};

use crate::fields::Fields;
use crate::parts::push_field;
use crate::walks::{copy_field, copy_fields, print_field, print_fields, read_fields};
use crate::{GshadowRecord, LineFault, ReadFault, TableRecord, cut_names, parts};
use acct_text::{Bytes, Names, join_fields};
use std::alloc::{AllocError, Global};

// The fields of a line, in their order (gshadow(5)).
macro_rules! gshadow_fields {
    ($walk:ident, $($with:tt)+) => {
        $walk! {
            $($with)+;
            name,
            password: text,
            administrators: names,
            members: names,
        }
    };
}

/// A line of gshadow, read where it stands: its texts are parts of the line.
#[derive(Clone, Copy)]
pub struct GshadowLine<'a> {
    /// The name of the group.
    pub name: &'a [u8],
    /// The hash of the group's password, or a mark that there is none.
    pub password: &'a [u8],
    /// The administrators, with commas between them.
    pub administrators: &'a [u8],
    /// The members, with commas between them.
    pub members: &'a [u8],
}

impl<'a> GshadowLine<'a> {
    ghost use Rattle.acct_lines.specs.Shown.{gshadow_shown};

    /// The record that the line is, without its newline. It takes no memory, and its faults come in
    /// the order of `LineFault`.
    pub fn read(line: &'a [u8]) -> Result<Self, LineFault>
        ensures { MatchResult result
            (λ shown. gshadow_format.read line.now ≡ Some (gshadow_shown shown))
            (λ first. gshadow_fault line.now ≡ Some first) }
    {
        Ok(gshadow_fields!(read_fields, line as GshadowLine))
    }

    /// A copy of the record that the line shows.
    pub fn copied(&self, alloc: Global) -> Result<GshadowRecord, AllocError>
        ensures { IfOk result (λ copy. copy ≡ gshadow_shown self.now) }
    {
        Ok(gshadow_fields!(copy_fields, self as GshadowRecord in alloc))
    }

    /// The canonical line of the group with such texts for its two lists.
    pub fn printed_with(
        &self,
        alloc: Global,
        administrators: &[u8],
        members: &[u8],
    ) -> Result<Bytes, AllocError>
        ensures { IfOk result (λ line. line ≡ line_of
            (self.now.name.now ∷ self.now.password.now ∷ administrators.now ∷ members.now ∷ [])) }
    {
        let mut line = Bytes::of(alloc, self.name)?;
        push_field(&mut line, self.password)?;
        push_field(&mut line, administrators)?;
        push_field(&mut line, members)?;
        Ok(line)
    }
}

impl TableRecord for GshadowRecord {
    ghost use Rattle.account_model.specs.Records.{gshadow_format};
    ghost use Rattle.account_model.specs.Faults.{gshadow_fault};
    ghost use Rattle.account_model.proofs.FormatLaws.{gshadow-is_format};
    ghost use Rattle.account_model.proofs.NamingLaws.{gshadow-names_first};

    ghost format = { gshadow_format };

    ghost fault = { gshadow_fault };

    fn read(alloc: Global, line: &[u8]) -> Result<Self, ReadFault> {
        Ok(GshadowLine::read(line)?.copied(alloc)?)
    }

    fn fault(line: &[u8]) -> Option<LineFault> {
        GshadowLine::read(line).err()
    }

    fn print(&self, alloc: Global) -> Result<Bytes, AllocError> {
        gshadow_fields!(print_fields, self in alloc)
    }

    fn name(&self) -> &[u8] {
        self.name.as_slice()
    }

    ghost is_line_format = { gshadow-is_format };

    ghost names_first = { gshadow-names_first };
}
