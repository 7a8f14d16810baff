// What a line says of a cause, behind the tool's name. The texts are this suite's own.
ghost use Rattle.std.specs.Prelude.{◌≡◌, ◌++◌, codes, decimal, IfOk};
ghost use Rattle.suite_answers.specs.Reasons.{reason_text, stage_text, too_large_text};

use crate::{Cause, Which};
use acct_outside::{CommitStage, Name};
use acct_text::Piece::{Number, Text};
use acct_text::{Bytes, pair};
use std::alloc::{AllocError, Global};

/// What is said of the cause; empty for one that says nothing or has no tool.
pub(crate) fn reason_text(alloc: Global, cause: &Cause) -> Result<Bytes, AllocError>
    ensures { IfOk result (λ text. text ≡ reason_text cause.now) }
{
    match cause {
        Cause::Held(token) => pair(alloc, b"accounts are locked by ", token.as_slice()),
        Cause::Gone(number) => lock(alloc, *number, b" vanished"),
        Cause::Raced(number) => lock(alloc, *number, b" was taken first"),
        Cause::Outrun(number, greater) => outrun(alloc, *number, *greater),
        Cause::LockDamaged(number) => lock(alloc, *number, b" is damaged"),
        Cause::Exhausted => Bytes::of(alloc, b"lock numbers are used up"),
        Cause::IntentDamaged(part) => intent_damaged(alloc, *part),
        Cause::TooLarge(which) => pair(alloc, which.name().as_bytes(), b" is too large"),
        Cause::NoTable(tab) => pair(alloc, tab.name().as_bytes(), b" does not exist"),
        Cause::BadSetting(line) => bad_setting(alloc, *line),
        Cause::DiskFault(stage) => pair(alloc, stage_text(*stage), b": folder fault"),
        Cause::InputFault => Bytes::of(alloc, b"input fault"),
        Cause::ClockFault => Bytes::of(alloc, b"clock fault"),
        Cause::Memory(stage) => pair(alloc, stage_text(*stage), b": want of memory"),
        _ => Ok(Bytes::new(alloc)),
    }
}

// The lock of this number came to this.
fn lock(alloc: Global, number: u64, came: &[u8]) -> Result<Bytes, AllocError>
    ensures { IfOk result (λ text. text ≡ codes "lock " ++ decimal number ++ came.now) }
{
    Bytes::made_of(alloc, &[Text(b"lock "), Number(number), Text(came)])
}

// The lock of the first number was taken while one of the second stood.
fn outrun(alloc: Global, number: u64, greater: u64) -> Result<Bytes, AllocError>
    ensures { IfOk result (λ text. text ≡
        codes "lock " ++ decimal number ++ codes " was outrun by " ++ decimal greater) }
{
    Bytes::made_of(
        alloc,
        &[
            Text(b"lock "),
            Number(number),
            Text(b" was outrun by "),
            Number(greater),
        ],
    )
}

// This part of the intent is the first that doesn't stand.
fn intent_damaged(alloc: Global, part: u32) -> Result<Bytes, AllocError>
    ensures { IfOk result (λ text. text ≡ codes "intent is damaged in part " ++ decimal part) }
{
    Bytes::made_of(
        alloc,
        &[Text(b"intent is damaged in part "), Number(u64::from(part))],
    )
}

// This line of login.defs has a number that its key doesn't allow.
fn bad_setting(alloc: Global, line: u32) -> Result<Bytes, AllocError>
    ensures { IfOk result (λ text. text ≡
        codes "login.defs line " ++ decimal line ++ codes ": bad number") }
{
    Bytes::made_of(
        alloc,
        &[
            Text(b"login.defs line "),
            Number(u64::from(line)),
            Text(b": bad number"),
        ],
    )
}

/// What a fault at the stage left of the change.
pub(crate) fn stage_text(stage: CommitStage) -> &'static [u8]
    ensures { result.now ≡ stage_text stage }
{
    match stage {
        CommitStage::Before => b"nothing was changed",
        CommitStage::Unsure => b"it isn't known whether the change was made",
        CommitStage::Committed => b"the change was made, and the next command finishes it",
    }
}

impl Which {
    // The name of what is too large, as a line has it.
    fn name(self) -> &'static str
        ensures { too_large_text self ≡ result.now ++ codes " is too large" }
    {
        match self {
            Which::Input => "input",
            Which::File(Name::Table(tab)) => tab.name(),
            Which::File(Name::Defs) => "login.defs",
            Which::File(_) => "intent",
        }
    }
}
