// The text of a lock, read.
ghost use Rattle.std.specs.Prelude.{◌≡◌, ◌≢◌, IfOk, MatchOption};
ghost use Rattle.acct_outside.specs.Tokens.{Token as TokenText, held_text};
ghost use Rattle.lock_steps.specs.LockText.{TextSays};

use acct_outside::Token;
use std::alloc::{AllocError, Global};

/// What the text of a lock says.
#[derive(Drop)]
pub(crate) enum LockText {
    /// Its session has freed it.
    Free,
    /// This session holds it.
    Held(Token),
    /// Neither.
    Damaged,
}

impl LockText {
    /// Reads the text of a lock. The error says that memory ran out for the token.
    pub(crate) fn read(alloc: Global, text: &[u8]) -> Result<Self, AllocError>
        ensures { IfOk result (TextSays text.now) }
    {
        if text == b"free\n".as_slice() {
            return Ok(LockText::Free);
        }
        let Some(named) = named_session(text) else {
            return Ok(LockText::Damaged);
        };
        match Token::read(alloc, named)? {
            Some(token) => Ok(LockText::Held(token)),
            None => Ok(LockText::Damaged),
        }
    }
}

// What stands between `held ` and the newline, and none where the text has another form.
fn named_session(text: &[u8]) -> Option<&[u8]>
    ensures { MatchOption result ((token : TokenText) → text.now ≢ held_text token)
        (λ named. text.now ≡ held_text named.now) }
{
    text.strip_prefix(b"held ")?.strip_suffix(b"\n")
}
