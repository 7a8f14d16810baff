// A text in pieces of at most 65,536 bytes, as staging files are written. They are parts of the text,
// so none takes memory.
ghost use Rattle.std.specs.Prelude.{◌≡◌, ◌^◌, ◌≤◌};
ghost use Rattle.acct_outside.specs.Pieces.{PiecesJoin, piece_at, piece_count};

/// The most bytes of a piece: 64 KiB.
pub const PIECE_LIMIT: usize = 65_536;

/// How many pieces the text has; an empty one has none.
pub fn piece_count(text: &[u8]) -> usize
    ensures value { result ≡ piece_count text.now }
    ensures few { result ≤ 2 ^ 48 }
{
    text.len().div_ceil(PIECE_LIMIT)
}

/// The piece of the text at the place, counted from 0: 65,536 bytes, or what is left of the text
/// from there. Past the end it is empty.
pub fn piece_at(text: &[u8], place: usize) -> &[u8]
    ensures { result.now ≡ piece_at place text.now }
{
    let start = place.saturating_mul(PIECE_LIMIT).min(text.len());
    let rest = &text[start..];
    &rest[..rest.len().min(PIECE_LIMIT)]
}

/// The pieces of a text, one behind the other, are the text.
pub fn pieces_join()
    ensures { PiecesJoin }
{}
