// What every state carries: the token of its session, and the text that will free its lock. It is
// made before the first call, so that a keeper needs no memory to free its lock.
ghost use Rattle.std.specs.Prelude.{◌≡◌, IfOk};
ghost use Rattle.acct_outside.specs.Tokens.{free_text};

use acct_outside::Token;
use acct_text::Bytes;
use std::alloc::{AllocError, Global};

/// The token of a session, with the text of a free lock.
#[derive(Drop)]
pub(crate) struct Holder {
    pub(crate) token: Token,
    pub(crate) free: Bytes,
    ghost is_free: { free ≡ free_text },
}

impl Holder {
    /// The token with a free text of its own.
    pub(crate) fn new(alloc: Global, token: Token) -> Result<Self, AllocError>
        ensures { IfOk result (λ holder. holder.token ≡ token) }
    {
        Ok(Holder {
            token,
            free: Bytes::of(alloc, b"free\n")?,
        })
    }

    /// The token alone, of a session that takes no lock.
    pub(crate) fn into_token(self) -> Token
        ensures { result ≡ self.token }
    {
        self.token
    }
}
