//! The lock of the account files, taken and freed by typed steps.
//!
//! A state is spent by its one call of the folder and gives the next. What holds of the session in
//! each, by its own events alone, is in specs/Stands:
//!
//! 1. [`Looking`]: it has called nothing of the lock. `look` lists the locks.
//! 2. [`Seen`]: it knows the greatest lock. `read` reads it; `none` says that there is none.
//! 3. [`Asking`]: the greatest lock is held by another session. `ask` asks whether that still runs.
//! 4. [`Judged`]: the greatest lock is free, or its session is dead. `claim` creates the next one, and
//!    `watch` says that the session takes none.
//! 5. [`Claimed`]: it has made its lock. `confirm` lists the locks again.
//! 6. [`Loser`]: a greater lock stands. `withdraw` removes the own one.
//! 7. [`Keeper`]: its lock is the greatest, and it alone changes the account files. `clean_next`
//!    removes a lower lock, `stage_free` writes the text that frees its own.
//! 8. [`Freeing`]: the text is written. `move_free` moves it to the lock.
//! 9. [`Ended`]: the lock is free.
//!
//! A session that takes no lock finds what stood at one moment:
//!
//! 1. [`Watcher`]: the greatest lock is judged. `read_intent` reads the intent.
//! 2. [`Reading`]: `read_next` reads each table that the intent doesn't list, and login.defs. Then
//!    `confirm` lists the locks again.
//! 3. [`Shown`]: the same lock is still the greatest, so nobody kept one in between.
//!
//! No state knows what stands in the folder, so any events of other sessions may come before the
//! next call.
#![tactic(auto)]

mod claiming;
mod gathered;
mod holder;
mod judging;
mod keeping;
mod listing;
mod lock_text;
mod watching;

use acct_outside::{FolderFault, Token};
pub use claiming::{Claimed, Confirmed, Judged, Loser};
pub use gathered::IntentFound;
pub use judging::{Asking, Looking, Seen, Told};
pub use keeping::{Clean, Ended, Freeing, Keeper, Knowing, Unknown};
use std::alloc::AllocError;
pub use watching::{Reading, Shown, Watcher};

/// Why a session didn't get the lock. It made no change, but for a lock of its own.
#[derive(Drop)]
pub enum LockRefusal {
    /// The session that holds the greatest lock still runs.
    Held(Token),
    /// The greatest lock that was listed, with this number, stood no more when it was read.
    Gone(u64),
    /// Another session made the lock of this number first.
    Raced(u64),
    /// The own lock, with the first number, isn't the greatest of the second listing, which is the
    /// second number, 0 for none. Where that is greater, the own lock is removed.
    Outrun(u64, u64),
    /// The text of the lock with this number is neither that of a held lock nor that of a free one.
    Damaged(u64),
    /// The greatest lock has the last number, 999999999999999999.
    Exhausted,
}

/// Why a step didn't lead on. No call of the session is left then but its answer.
#[derive(Drop)]
pub enum LockEnd {
    /// The lock wasn't to be had.
    Refused(LockRefusal),
    /// The folder failed, or the step found no memory.
    Folder(FolderFault),
}

impl From<FolderFault> for LockEnd {
    ghost use Rattle.std.specs.Prelude.{◌≡◌};
    ghost use Rattle.lock_steps.specs.declared.LockEnd.TheVariants.{Folder};

    ghost from_gives = { λ fault end. end ≡ Folder fault };

    fn from(fault: FolderFault) -> Self {
        LockEnd::Folder(fault)
    }
}

impl From<AllocError> for LockEnd {
    ghost use Rattle.std.specs.Prelude.{◌≡◌};
    ghost use Rattle.acct_outside.specs.declared.FolderFault.TheVariants.{Memory};
    ghost use Rattle.lock_steps.specs.declared.LockEnd.TheVariants.{Folder};

    ghost from_gives = { λ _ end. end ≡ Folder Memory };

    fn from(_: AllocError) -> Self {
        LockEnd::Folder(FolderFault::Memory)
    }
}
