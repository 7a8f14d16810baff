//! The outside of the suite: the folder of the account files with its lock, the streams and the clock.
//!
//! `Folder` is what a session may do to the files beside other sessions: each call is one event of a
//! history, if the folder tells one, and an entry of its journal. What meets these traits stands above:
//! `memory_folder` in memory, `real_folder` on a disk.
#![tactic(auto)]

mod folder;
mod journal;
mod limits;
mod pieces;
mod streams;
mod token;

use acct_text::{Bytes, Tab};
pub use folder::Folder;
pub use journal::{Ask, Journal};
pub use limits::{GREATEST_LOCK, INTENT_LIMIT, LOCK_LIMIT};
pub use pieces::{PIECE_LIMIT, piece_at, piece_count, pieces_join};
use std::alloc::AllocError;
pub use streams::{Clock, ClockFault, Sink, SinkFault, Source, SourceFault};
pub use token::Token;

/// A name in the folder of the account files.
#[derive(Clone, Copy, PartialEq, Eq)]
pub enum Name {
    /// An account table, as `passwd`.
    Table(Tab),
    /// The table before its last change, as `passwd-`.
    Backup(Tab),
    /// The new text of a table before it is moved, as `passwd+`.
    Staged(Tab),
    /// The committed change, `accounts.intent`.
    Intent,
    /// The intent before the commit, `accounts.intent+`.
    IntentStage,
    /// A backup before it is moved, `accounts.backup+`.
    BackupStage,
    /// The text of a freed lock before it is moved, `accounts.free+`.
    FreeStage,
    /// A lock, `accounts.lock.N`, its number from 1 to 999999999999999999.
    Lock(u64),
    /// login.defs(5), which the suite never writes.
    Defs,
}

/// Whether a session still runs, as the folder tells it.
#[derive(Clone, Copy, Debug, PartialEq, Eq)]
pub enum Verdict {
    /// It may still run.
    Alive,
    /// It doesn't run.
    Dead,
}

/// What an exclusive create answers.
#[derive(Clone, Copy, PartialEq, Eq)]
pub enum Created {
    /// The lock is made.
    Done,
    /// The lock stood already, and stays as it was.
    Exists,
}

/// What a read found.
#[derive(Drop)]
pub enum Found {
    /// Nothing stands at the name.
    Absent,
    /// These bytes stand there.
    Held(Bytes),
    /// More bytes stand there than the limit of the read.
    TooLarge,
}

/// A call of the folder that makes an event, by the name of its method.
#[derive(Drop)]
pub enum Call {
    /// The begin of a session.
    Begin,
    /// A listing of the lock numbers.
    Locks,
    /// A read of a name.
    Read(Name),
    /// Whether the session of a token runs.
    Verdict(Token),
    /// A create of the lock with a number.
    Create(u64),
    /// A write of bytes at a name, in the place of what stands there.
    Write(Name, Bytes),
    /// An append of bytes behind what stands at a name.
    Append(Name, Bytes),
    /// A rename from a name to another.
    Rename(Name, Name),
    /// A removal of a name.
    Remove(Name),
    /// The session's last event, with its status.
    Answered(u8),
}

/// Why a call of the folder gave no answer.
#[derive(Clone, Copy)]
pub enum FolderFault {
    /// The folder's count of faults rose, and the call may have happened or not.
    Failed,
    /// The call found no memory, and changed nothing.
    Memory,
}

impl From<AllocError> for FolderFault {
    ghost use Rattle.std.specs.Prelude.{◌≡◌};
    ghost use Rattle.acct_outside.specs.declared.FolderFault.TheVariants.{Memory};

    ghost from_gives = { λ _ e. e ≡ Memory };

    fn from(_: AllocError) -> Self {
        FolderFault::Memory
    }
}

/// How far a command came with its commit when it stopped.
#[derive(Clone, Copy)]
pub enum CommitStage {
    /// The rename to the intent wasn't called: nothing is changed.
    Before,
    /// The rename to the intent failed: it may have happened or not.
    Unsure,
    /// The rename to the intent was done: the change stands.
    Committed,
}

/// A fault of the folder with the stage that was reached.
#[derive(Clone, Copy)]
pub struct StageFault {
    /// What came of the call.
    pub fault: FolderFault,
    /// How far the command had come.
    pub stage: CommitStage,
}
