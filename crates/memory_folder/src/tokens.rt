// The tokens that a folder in memory gives, the texts of their locks, and lists of tokens: of the sessions
// that run, and of those that are told alive.
ghost use Rattle.std.specs.Prelude.{◌≡◌, ◌<◌, ◌≤◌, ◌&&◌, true, not, bytes_eq, slice_index_or, vec_len, vec_capacity, IfOk};
ghost use Rattle.memory_folder.specs.Events.{has_token};
ghost use Rattle.memory_folder.specs.NewTokens.{numbered_token};
ghost use Rattle.acct_outside.specs.Tokens.{Token as TokenText, held_text};

use acct_outside::Token;
use acct_text::{Bytes, push_decimal};
use std::alloc::{AllocError, Global};

/// The token `mN` of the number N.
pub(crate) fn numbered_token(alloc: Global, number: u64) -> Result<Token, AllocError>
    ensures { IfOk result (λ token. token ≡ numbered_token number) }
{
    let mut text = Bytes::of(alloc, b"m")?;
    push_decimal(&mut text, number)?;
    match Token::read(alloc, text.as_slice())? {
        Some(token) => Ok(token),
        None => unreachable!(),
    }
}

/// The text of a lock that the session of the token makes: `held TOKEN` and a newline.
pub(crate) fn held_text(alloc: Global, token: &Token) -> Result<Bytes, AllocError>
    ensures { IfOk result (λ text. text ≡ held_text token.now) }
{
    let mut text = Bytes::of(alloc, b"held ")?;
    text.push(token.as_slice())?;
    text.push(b"\n")?;
    Ok(text)
}

/// Whether the token is in the list.
pub(crate) fn is_among(tokens: &Vec<Token>, token: &Token) -> bool
    ensures { result ≡ has_token token.now tokens.now.items }
{
    for other in tokens {
        if other.as_slice() == token.as_slice() {
            return true;
        }
    }
    false
}

// The first place of the token, counted from 0.
fn place_of(tokens: &Vec<Token>, token: &Token) -> usize
    requires { has_token token.now tokens.now.items ≡ true }
    ensures within { result < vec_len tokens.now }
    ensures at { bytes_eq (slice_index_or tokens.now.items result token.now) token.now ≡ true }
{
    for place in 0..tokens.len() {
        if tokens[place].as_slice() == token.as_slice() {
            return place;
        }
    }
    unreachable!()
}

/// Takes the token out of the list, and drops all that are the same.
pub(crate) fn take_token(tokens: &mut Vec<Token>, token: &Token) -> Token
    requires { has_token token.now tokens.old.items ≡ true }
    ensures value { result ≡ token.now }
    ensures rest { (other : TokenText) → has_token other tokens.new.items
        ≡ (has_token other tokens.old.items && not (bytes_eq token.now other)) }
    ensures len { vec_len tokens.new < vec_len tokens.old }
{
    let place = place_of(tokens, token);
    let taken = tokens.remove(place);
    drop_token(tokens, token);
    taken
}

/// Drops the token from the list.
pub(crate) fn drop_token(tokens: &mut Vec<Token>, token: &Token)
    ensures rest { (other : TokenText) → has_token other tokens.new.items
        ≡ (has_token other tokens.old.items && not (bytes_eq token.now other)) }
    ensures len { vec_len tokens.new ≤ vec_len tokens.old }
{
    tokens.retain(|other| other.as_slice() != token.as_slice());
}
