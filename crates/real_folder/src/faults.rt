// What the system refused an object: how often, and why it did so last.
ghost use Rattle.std.specs.Prelude.{◌≡◌, ◌≤◌, Ok, IfOk, IsSome};
ghost use Rattle.acct_outside.specs.Faults.{HasRisen, next_count};

use std::alloc::{AllocError, Global};
use std::io;

/// An error of the system, with what it was about.
#[derive(Drop)]
pub struct SystemError {
    /// The path of a file or the name of a stream. None where the reason names the subject itself, or
    /// there was no memory for the path.
    subject: Option<String>,
    reason: io::Error,
}

impl SystemError {
    /// The error of a call that was about the subject.
    pub(crate) fn new(alloc: Global, subject: &str, reason: io::Error) -> Self {
        SystemError {
            subject: String::from_str(alloc, subject).ok(),
            reason,
        }
    }

    /// What kind of error it is.
    pub(crate) fn kind(&self) -> io::ErrorKind {
        self.reason.kind()
    }

    /// The subject and the reason, as `image/etc/shadow: No space left on device`.
    pub fn text(&self, alloc: Global) -> Result<String, AllocError> {
        let reason = self.reason.to_string(alloc)?;
        let words = words_of(reason.as_str());
        match &self.subject {
            Some(subject) => format!(in alloc; "{}: {words}", subject.as_str()),
            None => String::from_str(alloc, words),
        }
    }
}

// The words of a reason, without the number of the error behind them.
fn words_of(reason: &str) -> &str {
    reason
        .split_once(" (os error ")
        .map_or(reason, |parts| parts.0)
}

impl From<io::Error> for SystemError {
    fn from(reason: io::Error) -> Self {
        SystemError {
            subject: None,
            reason,
        }
    }
}

impl From<AllocError> for SystemError {
    fn from(error: AllocError) -> Self {
        SystemError::from(io::Error::from(error))
    }
}

/// What a call about the subject gave, its error with the subject.
pub(crate) fn about<T>(alloc: Global, subject: &str, done: io::Result<T>) -> Result<T, SystemError>
    ensures { IfOk result (λ value. done ≡ Ok value) }
{
    match done {
        Ok(value) => Ok(value),
        Err(reason) => Err(SystemError::new(alloc, subject, reason)),
    }
}

/// The faults of an object. Their count stays at its end once it is there.
#[derive(Drop)]
pub(crate) struct Faults {
    /// The faults so far.
    pub count: u64,
    /// The last of them.
    pub last: Option<SystemError>,
}

impl Faults {
    /// No fault yet.
    pub(crate) fn new() -> Self
        ensures { result.count ≡ 0 }
    {
        Faults {
            count: 0,
            last: None,
        }
    }

    /// Counts a fault, and keeps its error.
    pub(crate) fn note(&mut self, error: SystemError)
        ensures counted { self.new.count ≡ next_count self.old.count }
        ensures risen { HasRisen self.old.count self.new.count }
        ensures never_falls { self.old.count ≤ self.new.count }
        ensures last { IsSome self.new.last }
    {
        self.last = Some(error);
        self.count = self.count.saturating_add(1);
    }

    /// Lets go the error of an earlier call, as the last one didn't fail.
    pub(crate) fn pass(&mut self)
        ensures { self.new ≡ record self.old { last = None } }
    {
        self.last = None;
    }
}
