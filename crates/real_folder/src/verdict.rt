// Whether the holder of a lock may still run (docs/LOCK.md, "Whether the holder runs").
use crate::faults::{SystemError, about};
use crate::lock_file::{Hold, Keeping, keeping_of};
use crate::process::{Holder, Identity, Origin, Sight, origin_of, sight_of};
use acct_outside::{Token, Verdict};
use std::fs::File;
use std::rt::Files;
use std::str;

/// Whether the holder that a token names may still run, by the lock with this path and text, as the
/// session of the first token asks. The holder of a token of another form may.
pub(crate) fn verdict_of<R: Files<File = File> + AllocGlobal>(
    rt: &R,
    by: &Token,
    token: &Token,
    lock: &str,
    text: &[u8],
) -> Result<Verdict, SystemError> {
    let Some(holder) = holder_of(token) else {
        return Ok(Verdict::Alive);
    };
    if holder.hold == Hold::Text {
        return verdict_by_process(rt, holder.process);
    }
    match about(rt.alloc(), lock, keeping_of(rt, lock, text))? {
        Keeping::Moved | Keeping::Locked => Ok(Verdict::Alive),
        // Its process had the number and the start of this one, which hasn't made a lock yet.
        Keeping::Free if token.as_slice() == by.as_slice() => Ok(Verdict::Dead),
        Keeping::Free => verdict_on_free(rt, holder.process),
    }
}

/// Whether nobody can tell that the session with the token has ended, so that it may make no lock.
pub(crate) fn ends_unseen(token: &Token) -> bool {
    match holder_of(token) {
        Some(holder) => holder.ends_unseen(),
        None => false,
    }
}

// The holder that a token names, and none where it has another form.
fn holder_of(token: &Token) -> Option<Holder<'_>> {
    Holder::read(str::from_utf8(token.as_slice()).ok()?)
}

// The verdict on a holder that had its lock file locked, which is free: its process has ended, unless
// /proc shows it, as where the lock is the copy of another.
fn verdict_on_free<R: Files + AllocGlobal>(
    rt: &R,
    process: Identity<'_>,
) -> Result<Verdict, SystemError> {
    if origin_of(rt, process)? != Origin::Here {
        return Ok(Verdict::Dead);
    }
    match sight_of(rt, process)? {
        Sight::Running => Ok(Verdict::Alive),
        Sight::Ended | Sight::Hidden => Ok(Verdict::Dead),
    }
}

// The verdict on a holder of whom nothing but its process is known.
fn verdict_by_process<R: Files + AllocGlobal>(
    rt: &R,
    process: Identity<'_>,
) -> Result<Verdict, SystemError> {
    match origin_of(rt, process)? {
        Origin::Elsewhere => Ok(Verdict::Alive),
        Origin::BeforeBoot => Ok(Verdict::Dead),
        Origin::Here => match sight_of(rt, process)? {
            Sight::Ended => Ok(Verdict::Dead),
            Sight::Running | Sight::Hidden => Ok(Verdict::Alive),
        },
    }
}
