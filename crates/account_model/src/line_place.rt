//! Where the reading of a line of a batch stands.

/// Where the next byte of a line stands. A quote has the column of the byte that opened it, counted
/// from 1.
#[derive(Clone, Copy, Drop)]
pub enum LinePlace {
    /// No word has begun.
    Between,
    /// In a word, outside quotes.
    Within,
    /// Behind a `\` outside quotes.
    Escaped,
    /// Behind a `'` that isn't closed yet.
    Single(usize),
    /// Behind a `"` that isn't closed yet.
    Double(usize),
    /// Behind a `\` between two `"`.
    DoubleEscaped(usize),
    /// Behind the `#` of a comment.
    Comment,
}
