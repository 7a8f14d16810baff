// The records of shadow (shadow(5)).
ghost use Rattle.std.specs.Prelude.{◌≡◌, Some, IfOk, MatchResult};
ghost use Rattle.account_model.specs.Faults.{shadow_fault};
ghost use Rattle.account_model.specs.Records.{shadow_format};

use crate::fields::Fields;
use crate::walks::{copy_field, copy_fields, print_field, print_fields, read_fields};
use crate::{LineFault, ReadFault, ShadowRecord, TableRecord, parts};
use acct_text::{Bytes, Names, join_fields};
use std::alloc::{AllocError, Global};

// The fields of a line, in their order (shadow(5)).
macro_rules! shadow_fields {
    ($walk:ident, $($with:tt)+) => {
        $walk! {
            $($with)+;
            name,
            hash: text,
            last_change: days(3),
            minimum: days(4),
            maximum: days(5),
            warning: days(6),
            inactive: days(7),
            expiration: days(8),
            rest: text,
        }
    };
}

/// A line of shadow, read where it stands: its texts are parts of the line. The last change and the
/// expiration are days since 1970-01-01, the others numbers of days.
#[derive(Clone, Copy)]
pub struct ShadowLine<'a> {
    /// The name of the user.
    pub name: &'a [u8],
    /// The hash of the password, or a mark that there is none.
    pub hash: &'a [u8],
    /// The day of the last change of the password.
    pub last_change: Option<u32>,
    /// How long a password stays at least.
    pub minimum: Option<u32>,
    /// How long a password is valid.
    pub maximum: Option<u32>,
    /// How long before its end the user is warned.
    pub warning: Option<u32>,
    /// How long after its end it can still be changed.
    pub inactive: Option<u32>,
    /// The day on which the account ends.
    pub expiration: Option<u32>,
    /// The last field, which is reserved.
    pub rest: &'a [u8],
}

impl<'a> ShadowLine<'a> {
    ghost use Rattle.acct_lines.specs.Shown.{shadow_shown};

    /// The record that the line is, without its newline. It takes no memory, and its faults come in
    /// the order of `LineFault`.
    pub fn read(line: &'a [u8]) -> Result<Self, LineFault>
        ensures { MatchResult result
            (λ shown. shadow_format.read line.now ≡ Some (shadow_shown shown))
            (λ first. shadow_fault line.now ≡ Some first) }
    {
        Ok(shadow_fields!(read_fields, line as ShadowLine))
    }

    /// A copy of the record that the line shows.
    pub fn copied(&self, alloc: Global) -> Result<ShadowRecord, AllocError>
        ensures { IfOk result (λ copy. copy ≡ shadow_shown self.now) }
    {
        Ok(shadow_fields!(copy_fields, self as ShadowRecord in alloc))
    }
}

impl TableRecord for ShadowRecord {
    ghost use Rattle.account_model.specs.Records.{shadow_format};
    ghost use Rattle.account_model.specs.Faults.{shadow_fault};
    ghost use Rattle.account_model.proofs.FormatLaws.{shadow-is_format};
    ghost use Rattle.account_model.proofs.NamingLaws.{shadow-names_first};

    ghost format = { shadow_format };

    ghost fault = { shadow_fault };

    fn read(alloc: Global, line: &[u8]) -> Result<Self, ReadFault> {
        Ok(ShadowLine::read(line)?.copied(alloc)?)
    }

    fn fault(line: &[u8]) -> Option<LineFault> {
        ShadowLine::read(line).err()
    }

    fn print(&self, alloc: Global) -> Result<Bytes, AllocError> {
        shadow_fields!(print_fields, self in alloc)
    }

    fn name(&self) -> &[u8] {
        self.name.as_slice()
    }

    ghost is_line_format = { shadow-is_format };

    ghost names_first = { shadow-names_first };
}
