// What the records of all tables share: a line is read as one, and one is printed as a line.
ghost use Rattle.std.specs.Prelude.{◌≡◌, ℕ, List, Option, Some, IfOk};
ghost use Rattle.acct_text.specs.Bytes.{newline};
ghost use Rattle.acct_text.specs.Pieces.{Lacks};
ghost use Rattle.account_model.specs.declared.fault.LineFault.{LineFault};
ghost use Rattle.account_model.specs.Format.{Format};
ghost use Rattle.account_model.specs.LineFormat.{IsLineFormat};
ghost use Rattle.account_model.specs.Written.{IsWritten};
ghost use Rattle.account_model.specs.Naming.{NamesFirst};
ghost use Rattle.acct_lines.specs.Reading.{MatchRead};

use account_model::LineFault;
use acct_text::Bytes;
use std::alloc::{AllocError, Global};
use thiserror::Error;

/// Why a line wasn't read.
#[derive(Clone, Copy, Debug, PartialEq, Eq, Drop, Error)]
pub enum ReadFault {
    /// The line is no record of the table: its first fault.
    #[error("{0}")]
    Line(LineFault),
    /// There was no memory for the record.
    #[error("out of memory")]
    Memory,
}

impl From<LineFault> for ReadFault {
    ghost use Rattle.std.specs.Prelude.{◌≡◌};
    ghost use Rattle.acct_lines.specs.declared.record.ReadFault.TheVariants.{Line};

    ghost from_gives = { λ fault read. read ≡ Line fault };

    fn from(fault: LineFault) -> ReadFault {
        ReadFault::Line(fault)
    }
}

impl From<AllocError> for ReadFault {
    ghost use Rattle.std.specs.Prelude.{◌≡◌};
    ghost use Rattle.acct_lines.specs.declared.record.ReadFault.TheVariants.{Memory};

    ghost from_gives = { λ _ read. read ≡ Memory };

    fn from(_error: AllocError) -> ReadFault {
        ReadFault::Memory
    }
}

/// A record of an account table.
pub trait TableRecord: Sized {
    // the line format of the table
    ghost format: { Format Self };

    // the first fault of a line that is no record of the table
    ghost fault: { List ℕ → Option LineFault };

    /// The record that the line is, without its newline.
    ///
    /// Faults come in the order of `LineFault`. The time is linear in the line's length.
    fn read(alloc: Global, line: &[u8]) -> Result<Self, ReadFault>
        ensures reads { MatchRead result (λ found. format.read line.now ≡ Some found)
            (λ first. fault line.now ≡ Some first) }
        ensures written { Lacks newline line.now → IfOk result (IsWritten format) };

    /// The first fault of a line that is no record of the table; none where it is one. It takes no
    /// memory.
    fn fault(line: &[u8]) -> Option<LineFault>
        ensures { result ≡ fault line.now };

    /// The canonical line of the record, without a newline: numbers have no leading zeros, and an
    /// empty number of shadow(5) is empty.
    fn print(&self, alloc: Global) -> Result<Bytes, AllocError>
        ensures { IfOk result (λ line. line ≡ format.print self.now) };

    /// The first field, by which a line is found: the name, or the owner of a range.
    fn name(&self) -> &[u8]
        ensures { result.now ≡ format.name self.now };

    // records are told apart, and what was read is printed so that it is read again
    ghost is_line_format: { IsLineFormat format fault };

    // the name of a record is the first field of its line
    ghost names_first: { NamesFirst format };
}
