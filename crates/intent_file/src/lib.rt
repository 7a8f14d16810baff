//! The text of an intent: the changed tables of one command, committed as one file.
#![tactic(auto)]

ghost use Rattle.intent_file.specs.Laws.{EachTextReadsOrFails, FirstFaultIsOne, ReadingIsUnique};
ghost use Rattle.intent_file.specs.Pieces.{IntentInPieces};

mod cursor;
mod header;
mod intent;

pub use acct_text::NewTable;
pub use intent::Intent;
use std::alloc::{AllocError, AllocFailed};
use thiserror::Error;

/// How the text of an intent is laid out. A new intent is in version 2; both are read.
#[derive(Clone, Copy)]
pub enum Version {
    /// The header says how many tables follow it.
    One,
    /// It also says how many bytes follow it, so that a text that was cut has no header.
    Two,
}

/// Why a text couldn't be read as an intent.
#[derive(Clone, Copy, Debug, PartialEq, Eq, Error)]
pub enum IntentFault {
    /// The first part that doesn't stand, counted from 0: the header, each table that it counts,
    /// and the end with all that follows.
    #[error("intent is damaged in part {0}")]
    Part(u32),
    /// Memory ran out.
    #[error("out of memory")]
    Memory,
}

impl From<AllocError> for IntentFault {
    ghost use Rattle.std.specs.Prelude.{◌≡◌};
    ghost use Rattle.intent_file.specs.declared.IntentFault.TheVariants.{Memory};

    ghost from_gives = { λ _ fault. fault ≡ Memory };

    fn from(_: AllocError) -> Self {
        IntentFault::Memory
    }
}

impl<T: Drop> From<AllocFailed<T>> for IntentFault {
    ghost use Rattle.std.specs.Prelude.{◌≡◌};
    ghost use Rattle.intent_file.specs.declared.IntentFault.TheVariants.{Memory};

    ghost from_gives = { λ _ fault. fault ≡ Memory };

    fn from(_: AllocFailed<T>) -> Self {
        IntentFault::Memory
    }
}

/// Bytes read as at most one intent of either version, and no text of an intent is a proper prefix
/// of another.
pub fn reading_is_unique()
    ensures { ReadingIsUnique }
{}

/// Bytes have at most one first part that doesn't stand, and none where they read as an intent.
pub fn first_fault_is_one()
    ensures { FirstFaultIsOne }
{}

/// Bytes read as an intent, or have a first part that doesn't stand.
pub fn each_text_reads_or_fails()
    ensures { EachTextReadsOrFails }
{}

/// The pieces of an intent are its text, one behind the other.
pub fn intent_in_pieces()
    ensures { IntentInPieces }
{}
