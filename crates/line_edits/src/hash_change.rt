// What is done with the hash of a user (usermod(8), `-p`, `-L` and `-U`).
ghost use Rattle.std.specs.Prelude.{◌≡◌, true, IfOk};
ghost use Rattle.account_model.specs.Text.{begins_with, exclamation};
ghost use Rattle.account_model.specs.UsermodHash.{locked_hash, unlocked_hash};
ghost use Rattle.line_edits.specs.HashChanges.{hash_by};

use acct_text::Bytes;
use std::alloc::{AllocError, Global};

/// What becomes of a hash.
#[derive(Drop)]
pub enum HashChange {
    /// It becomes this one.
    Set(Bytes),
    /// It gets a leading `!`, where it has none.
    Lock,
    /// It loses one leading `!`.
    Unlock,
    /// It stays as it is.
    Keep,
}

impl HashChange {
    /// The hash after the change.
    pub(crate) fn of(&self, alloc: Global, hash: &Bytes) -> Result<Bytes, AllocError>
        ensures { IfOk result (λ new. new ≡ hash_by self.now hash.now) }
    {
        match self {
            HashChange::Set(new) => new.copy(),
            HashChange::Lock => locked(alloc, hash.as_slice()),
            HashChange::Unlock => unlocked(alloc, hash.as_slice()),
            HashChange::Keep => hash.copy(),
        }
    }

    /// Whether the hash stays as it is.
    pub(crate) fn leaves(&self, hash: &[u8]) -> bool
        ensures { result ≡ true → hash_by self.now hash.now ≡ hash.now }
    {
        match self {
            HashChange::Set(new) => new.as_slice() == hash,
            HashChange::Lock => is_locked(hash),
            HashChange::Unlock => !is_locked(hash),
            HashChange::Keep => true,
        }
    }

    /// Whether both give the same hash.
    pub(crate) fn is_same(&self, other: &HashChange) -> bool
        ensures { result ≡ true → self.now ≡ other.now }
    {
        match (self, other) {
            (HashChange::Set(hash), HashChange::Set(new)) => hash.as_slice() == new.as_slice(),
            _ => false,
        }
    }
}

// The hash with a leading `!`.
fn locked(alloc: Global, hash: &[u8]) -> Result<Bytes, AllocError>
    ensures { IfOk result (λ new. new ≡ locked_hash hash.now) }
{
    if is_locked(hash) {
        return Bytes::of(alloc, hash);
    }
    let mut new = Bytes::of(alloc, b"!")?;
    new.push(hash)?;
    Ok(new)
}

// The hash without one leading `!`.
fn unlocked(alloc: Global, hash: &[u8]) -> Result<Bytes, AllocError>
    ensures { IfOk result (λ new. new ≡ unlocked_hash hash.now) }
{
    match hash.split_first() {
        Some((first, rest)) if *first == b'!' => Bytes::of(alloc, rest),
        _ => Bytes::of(alloc, hash),
    }
}

// Whether the hash has a leading `!`.
fn is_locked(hash: &[u8]) -> bool
    ensures { result ≡ begins_with exclamation hash.now }
{
    match hash.first() {
        Some(byte) => *byte == b'!',
        None => false,
    }
}
