// A text cut at each byte that separates its pieces: a file into lines, a line into fields
// (passwd(5), and likewise the other five tables); and a text cut at the first of these alone.
ghost use Rattle.std.specs.Prelude.{◌≡◌, ◌<◌, [], ◌∷◌, map, length, All, IfOk, IfSome, MatchOption};
ghost use Rattle.std.specs.List.{join_with_byte};
ghost use Rattle.acct_text.specs.Bytes.{IsWithin, part_of, places_from};
ghost use Rattle.acct_text.specs.Lines.{lines_of, texts_of};
ghost use Rattle.acct_text.specs.Pieces.{cut_at, fields_of, line_of};

use crate::{Bytes, Names};
use memchr::{memchr, memchr_iter};
use std::alloc::{AllocError, Global};

/// The start and the end of each line of a file, without its newline, counted in bytes from 0.
///
/// Bytes behind the last newline are a line as well.
pub fn lines(alloc: Global, text: &[u8]) -> Result<Vec<(usize, usize)>, AllocError>
    ensures places { IfOk result (λ places.
        places.items ≡ places_from 0 (texts_of (lines_of text.now))) }
    ensures texts { IfOk result (λ places.
        map (part_of text.now) places.items ≡ texts_of (lines_of text.now)) }
    ensures within { IfOk result (λ places. All (IsWithin text.now) places.items) }
{
    let mut places = piece_places(alloc, b'\n', text)?;
    // Behind the last newline, and in an empty file, an empty piece is no line.
    if let Some((start, end)) = places.last() {
        if start == end {
            places.pop();
        }
    }
    Ok(places)
}

/// The start and the end of each field of a line, without its colon, counted in bytes from 0.
///
/// An empty line has one field, which is empty.
pub fn fields(alloc: Global, line: &[u8]) -> Result<Vec<(usize, usize)>, AllocError>
    ensures places { IfOk result (λ places. places.items ≡ places_from 0 (fields_of line.now)) }
    ensures texts { IfOk result (λ places.
        map (part_of line.now) places.items ≡ fields_of line.now) }
    ensures within { IfOk result (λ places. All (IsWithin line.now) places.items) }
{
    piece_places(alloc, b':', line)
}

// The start and the end of each piece between these separators.
fn piece_places(
    alloc: Global,
    separator: u8,
    text: &[u8],
) -> Result<Vec<(usize, usize)>, AllocError>
    ensures { IfOk result (λ places. places.items ≡ places_from 0 (cut_at separator text.now)) }
{
    let mut places = Vec::new(alloc);
    let mut start = 0;
    for end in memchr_iter(separator, text) {
        places.push((start, end))?;
        start = end + 1;
    }
    places.push((start, text.len()))?;
    Ok(places)
}

/// The two sides of a byte in a text.
#[derive(Clone, Copy)]
pub struct Sides<'a> {
    /// What stands in front of the byte.
    pub before: &'a [u8],
    /// What stands behind it.
    pub behind: &'a [u8],
}

/// The text cut at the first byte that is this one; none where no byte is. It takes no memory.
pub fn cut_once(separator: u8, text: &[u8]) -> Option<Sides<'_>>
    ensures cut { MatchOption result (cut_at separator text.now ≡ text.now ∷ [])
        (λ cut. cut_at separator text.now ≡ cut.before.now ∷ cut_at separator cut.behind.now) }
    ensures shorter { IfSome result (λ cut. length cut.behind.now < length text.now) }
{
    match memchr(separator, text) {
        Some(end) => Some(Sides {
            before: &text[..end],
            behind: &text[end + 1..],
        }),
        None => None,
    }
}

/// The line of these fields, with a colon between each two; no fields make an empty line.
pub fn join_fields(alloc: Global, parts: &Names) -> Result<Bytes, AllocError>
    ensures { IfOk result (λ line. line ≡ line_of parts.now) }
{
    join(alloc, b':', parts)
}

/// The text of these parts, with a separator between each two; no parts make an empty text.
pub fn join(alloc: Global, separator: u8, parts: &Names) -> Result<Bytes, AllocError>
    ensures { IfOk result (λ text. text ≡ join_with_byte separator parts.now) }
{
    let mut text = Bytes::new(alloc);
    if let Some((first, rest)) = parts.as_slice().split_first() {
        text.push(first.as_slice())?;
        for part in rest {
            text.push(&[separator])?;
            text.push(part.as_slice())?;
        }
    }
    Ok(text)
}
