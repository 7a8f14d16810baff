//! A law of a password that is locked and unlocked (passwd(1)).
ghost use Rattle.account_model.specs.PasswdLaws.{LockThenUnlock};

/// `-l` and then `-u` gives back the files, byte for byte, where the user has its hash in place on
/// canonical lines, and the hash isn't empty and doesn't begin with `!`.
pub fn lock_then_unlock()
    ensures { LockThenUnlock }
{}
