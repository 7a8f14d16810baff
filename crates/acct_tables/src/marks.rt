// Lines that are passed over at once: those without bytes of which each line that is looked for has
// some (passwd(5), and likewise the other five tables).
ghost use Rattle.std.specs.Prelude.{◌≡◌, ◌<◌, [], ◌∷◌, length};
ghost use Rattle.memchr.specs.Find.{FindsNeedle};
ghost use Rattle.acct_tables.specs.Marks.{IsFromMark, IsFromMarks, IsFrontWithout, marks_in};

use acct_text::cut_once;
use memchr::arch::all::rabinkarp;
use memchr::{memmem, memrchr};

// In so many bytes a search that is begun at once has ended before a fast one is set up.
const NEAR: usize = 128;

/// Bytes of which each line that is looked for has some.
#[derive(Clone, Copy)]
pub struct Marks<'m> {
    /// The first mark.
    pub first: &'m [u8],
    /// The other ones.
    pub others: &'m [Vec<u8>],
}

impl<'m> Marks<'m> {
    /// This mark alone.
    pub fn one(mark: &'m [u8]) -> Self
        ensures { marks_in result ≡ mark.now ∷ [] }
    {
        Marks {
            first: mark,
            others: &[],
        }
    }
}

/// The text of a file from the line on in which these bytes first stand; empty where they stand
/// nowhere.
pub fn from_mark<'a>(text: &'a [u8], mark: &[u8]) -> &'a [u8]
    ensures { IsFromMark mark.now text.now result.now }
{
    let Some(place) = first_place(text, mark) else {
        return &[];
    };
    match memrchr(b'\n', &text[..place]) {
        Some(end) => &text[end + 1..],
        None => text,
    }
}

/// The first place of a mark in a text.
pub(crate) fn first_place(text: &[u8], mark: &[u8]) -> Option<usize>
    ensures { FindsNeedle text.now mark.now 0 result }
{
    if text.len() <= NEAR {
        return rabinkarp::Finder::new(mark).find(text, mark);
    }
    memmem::find(text, mark)
}

/// The text of a file from the line on in which one of the marks first stands; empty where none
/// stands anywhere. Where marked lines are dense, each takes the time of its own bytes.
pub fn from_marks<'a>(text: &'a [u8], marks: Marks<'_>) -> &'a [u8]
    ensures { IsFromMarks (marks_in marks.entry) text.now result.now }
{
    if marks.others.is_empty() {
        return from_mark(text, marks.first);
    }
    // The first chunk is one line, and each further one is some times as great: a mark that stands
    // nowhere isn't looked for far behind a line that has another one.
    let mut left = text;
    let mut size = 0usize;
    'chunks: while !left.is_empty() {
        let chunk = chunk_of(left, size);
        let front = front_without(chunk, marks);
        left = &left[front.len()..];
        if front.len() < chunk.len() {
            return left;
        }
        size = size.saturating_mul(4).saturating_add(NEAR);
    }
    left
}

// The first lines of a text, as many as have one byte more than this size.
fn chunk_of(text: &[u8], size: usize) -> &[u8]
    ensures front { IsFrontWithout [] text.now result.now }
    ensures some { 0 < length text.now → 0 < length result.now }
{
    if text.len() <= size {
        return text;
    }
    match cut_once(b'\n', &text[size..]) {
        Some(cut) => &text[..text.len() - cut.behind.len()],
        None => text,
    }
}

// The lines of a text in front of the first that has one of the marks.
fn front_without<'a>(text: &'a [u8], marks: Marks<'_>) -> &'a [u8]
    ensures { IsFrontWithout (marks_in marks.entry) text.now result.now }
{
    let mut front = front_of(text, marks.first);
    'others: for mark in marks.others {
        front = front_of(front, mark.as_slice());
    }
    front
}

// The lines of a text in front of the first that has the mark.
fn front_of<'a>(text: &'a [u8], mark: &[u8]) -> &'a [u8]
    ensures { IsFrontWithout (mark.now ∷ []) text.now result.now }
{
    let rest = from_mark(text, mark);
    &text[..text.len() - rest.len()]
}
