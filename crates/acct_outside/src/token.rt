// The tokens of sessions.
ghost use Rattle.std.specs.Prelude.{◌≡◌, ◌≤◌, ◌↔◌, IsTrue, IfOk, MatchOption};
ghost use Rattle.acct_outside.specs.Tokens.{IsToken};

use acct_text::Bytes;
use std::alloc::{AllocError, Global};
use std::marker::Model;

/// The name of a session: 1 to 128 bytes from `!` to `~`. Contracts see a list of bytes.
#[derive(Drop)]
pub struct Token {
    text: Bytes,
}

impl Model for Token {
    ghost use Rattle.std.specs.Prelude.{List, ℕ};
    ghost use Rattle.acct_outside.specs.Tokens.{IsToken};

    ghost Value = { List ℕ };

    ghost view = { λ t. t.text };

    ghost invariant = { λ t. IsToken t.text };
}

impl Token {
    /// The token that the text is, and None exactly where it isn't one.
    pub fn read(alloc: Global, text: &[u8]) -> Result<Option<Self>, AllocError>
        ensures { IfOk result (λ found. MatchOption found (¬ (IsToken text.now))
            (λ token. (token ≡ text.now) × IsToken token)) }
    {
        if !is_token(text) {
            return Ok(None);
        }
        Ok(Some(Token {
            text: Bytes::of(alloc, text)?,
        }))
    }

    /// An equal token.
    pub fn copy(&self) -> Result<Self, AllocError>
        ensures { IfOk result (λ token. token ≡ self.now) }
    {
        Ok(Token {
            text: self.text.copy()?,
        })
    }

    /// The bytes of the token.
    pub fn as_slice(&self) -> &[u8]
        ensures value { result.now ≡ self.now }
        ensures token { IsToken self.now }
    {
        self.text.as_slice()
    }
}

// Whether the text has the length and the bytes of a token.
fn is_token(text: &[u8]) -> bool
    ensures { IsTrue result ↔ IsToken text.now }
{
    !text.is_empty() && text.len() <= 128 && text.iter().all(|byte| is_visible(*byte))
}

// Whether the byte is from `!` to `~`.
fn is_visible(byte: u8) -> bool
    ensures { IsTrue result ↔ ((0x21 ≤ byte) × (byte ≤ 0x7e)) }
{
    byte >= 0x21 && byte <= 0x7e
}
