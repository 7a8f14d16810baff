// What is said of a word that names no tool.
ghost use Rattle.std.specs.Prelude.{◌≡◌, IfOk};
ghost use Rattle.account_model.specs.WordMessages.{is_near, near_tool, unknown_text};

use account_model::Tool;
use acct_text::Piece::Text;
use acct_text::{Bytes, pair};
use std::alloc::{AllocError, Global};

/// What is said of the word, with the first tool whose name is near it.
pub(crate) fn unknown_text(alloc: Global, word: &[u8]) -> Result<Bytes, AllocError>
    ensures { IfOk result (λ text. text ≡ unknown_text word.now) }
{
    let Some(tool) = near_tool(word) else {
        return pair(alloc, b"unknown command ", word);
    };
    let name = tool.name().as_bytes();
    Bytes::made_of(
        alloc,
        &[
            Text(b"unknown command "),
            Text(word),
            Text(b" ("),
            Text(name),
            Text(b"?)"),
        ],
    )
}

// The first tool whose name is near the word.
fn near_tool(word: &[u8]) -> Option<Tool>
    ensures { result ≡ near_tool word.now }
{
    Tool::all()
        .iter()
        .copied()
        .find(|tool| is_near(word, tool.name().as_bytes()))
}

// Whether one of two words becomes the other where one byte is put in, left out or another.
fn is_near(word: &[u8], name: &[u8]) -> bool
    ensures { result ≡ is_near word.now name.now }
{
    match (word.split_first(), name.split_first()) {
        (Some((first, behind)), Some((letter, rest))) if first == letter => is_near(behind, rest),
        (Some((_, behind)), Some((_, rest))) => behind == rest || word == rest || behind == name,
        (Some((_, rest)), None) | (None, Some((_, rest))) => rest.is_empty(),
        (None, None) => false,
    }
}
