// The records of subuid and subgid (subuid(5), subgid(5)).
ghost use Rattle.std.specs.Prelude.{◌≡◌, Some, IfOk, MatchResult};
ghost use Rattle.account_model.specs.Faults.{subid_fault};
ghost use Rattle.account_model.specs.Records.{is_bad_range, subid_format};

use crate::fields::Fields;
use crate::walks::{copy_field, copy_fields, print_field, print_fields, read_fields};
use crate::{LineFault, ReadFault, SubidRecord, TableRecord, parts};
use account_model::GREATEST_ID;
use acct_text::{Bytes, Names, join_fields};
use std::alloc::{AllocError, Global};

// The fields of a line, in their order (subuid(5), subgid(5)).
macro_rules! subid_fields {
    ($walk:ident, $($with:tt)+) => {
        $walk! {
            $($with)+;
            owner,
            first: id(2),
            count: count(3),
        }
    };
}

/// A line of subuid or subgid, read where it stands: its owner is a part of the line, who holds
/// `count` IDs from `first` on.
#[derive(Clone, Copy)]
pub struct SubidLine<'a> {
    /// The name or the UID of the owner.
    pub owner: &'a [u8],
    /// The first ID.
    pub first: u32,
    /// The number of IDs, at least 1.
    pub count: u32,
}

impl<'a> SubidLine<'a> {
    ghost use Rattle.acct_lines.specs.Shown.{subid_shown};

    /// The record that the line is, without its newline. It takes no memory, and its faults come in
    /// the order of `LineFault`.
    pub fn read(line: &'a [u8]) -> Result<Self, LineFault>
        ensures { MatchResult result
            (λ shown. subid_format.read line.now ≡ Some (subid_shown shown))
            (λ first. subid_fault line.now ≡ Some first) }
    {
        let range = subid_fields!(read_fields, line as SubidLine);
        if is_bad_range(range.first, range.count) {
            return Err(LineFault::BadRange);
        }
        Ok(range)
    }

    /// A copy of the record that the line shows.
    pub fn copied(&self, alloc: Global) -> Result<SubidRecord, AllocError>
        ensures { IfOk result (λ copy. copy ≡ subid_shown self.now) }
    {
        Ok(subid_fields!(copy_fields, self as SubidRecord in alloc))
    }
}

impl TableRecord for SubidRecord {
    ghost use Rattle.account_model.specs.Records.{subid_format};
    ghost use Rattle.account_model.specs.Faults.{subid_fault};
    ghost use Rattle.account_model.proofs.FormatLaws.{subid-is_format};
    ghost use Rattle.account_model.proofs.NamingLaws.{subid-names_first};

    ghost format = { subid_format };

    ghost fault = { subid_fault };

    fn read(alloc: Global, line: &[u8]) -> Result<Self, ReadFault> {
        Ok(SubidLine::read(line)?.copied(alloc)?)
    }

    fn fault(line: &[u8]) -> Option<LineFault> {
        SubidLine::read(line).err()
    }

    fn print(&self, alloc: Global) -> Result<Bytes, AllocError> {
        subid_fields!(print_fields, self in alloc)
    }

    fn name(&self) -> &[u8] {
        self.owner.as_slice()
    }

    ghost is_line_format = { subid-is_format };

    ghost names_first = { subid-names_first };
}

// Whether the count is 0, or the last ID passes the greatest.
fn is_bad_range(first: u32, count: u32) -> bool
    ensures { result ≡ is_bad_range first count }
{
    count == 0 || u64::from(first) + u64::from(count) - 1 > u64::from(GREATEST_ID)
}
