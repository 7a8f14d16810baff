// The bytes of a file's lines, of which those between the places that texts were put into are copied at
// once.
ghost use Rattle.std.specs.Prelude.{◌≡◌, ◌<◌, AllPairs, map, IfOk, IfSome};
ghost use Rattle.std.specs.HashMap.{keys};
ghost use Rattle.std.specs.Vec.{vec_items};
ghost use Rattle.acct_text.specs.Lines.{file_bytes};
ghost use Rattle.acct_tables.specs.Cells.{lines_now};
ghost use Rattle.acct_tables.specs.Kept.{AreTold, IsCutAt, cells_kept, patches_of};

use crate::cell_bytes::push_lines;
use crate::cells::Cells;
use crate::line_at::begins_line;
use crate::lines::{FileLine, Lines};
use crate::patch::{Patch, cell_of};
use acct_text::Bytes;
use indexmap::IndexMap;
use memchr::memrchr;
use std::alloc::{AllocError, Global};

/// The bytes of the lines that stand now in a file with this text.
pub(crate) fn text_between(
    alloc: Global,
    text: &[u8],
    patched: &IndexMap<usize, Patch>,
    are_ended: bool,
    added: &[Vec<Bytes>],
) -> Result<Bytes, AllocError>
    ensures { IfOk result (λ bytes. bytes ≡ file_bytes (lines_now
        (cells_kept text.now are_ended (patches_of patched.now) (map vec_items added.now)))) }
{
    let places = stops(alloc, text, patched)?;
    let mut made = Bytes::with_room(alloc, text.len())?;
    let mut behind = text;
    'places: for place in places.as_slice() {
        let Some(cut) = cut_at(behind, text.len() - behind.len(), *place) else {
            break;
        };
        made.push(cut.front)?;
        push_lines(
            cell_of(*place, cut.line, patched.get(place), are_ended),
            &mut made,
        )?;
        behind = cut.behind;
    }
    let mut left = Cells {
        place: text.len() - behind.len(),
        lines: Lines::of(behind),
        patched,
        are_ended,
        added,
    };
    'cells: while let Some(cell) = left.take() {
        push_lines(cell, &mut made)?;
    }
    Ok(made)
}

// The places into which texts were put, from the first to the last, and that of the last line, as an end
// may come behind it.
fn stops(
    alloc: Global,
    text: &[u8],
    patched: &IndexMap<usize, Patch>,
) -> Result<Vec<usize>, AllocError>
    ensures told { IfOk result (λ places. AreTold (patches_of patched.now) 0 places.items) }
    ensures ascending { IfOk result (λ places.
        AllPairs (λ earlier later. earlier < later) places.items) }
{
    let mut places = keys_in(alloc, patched)?;
    places.push(last_line(text))?;
    places.sort_unstable();
    places.dedup();
    Ok(places)
}

// The place of the last line of a text.
fn last_line(text: &[u8]) -> usize {
    let Some((_, front)) = text.split_last() else {
        return 0;
    };
    match memrchr(b'\n', front) {
        Some(end) => end + 1,
        None => 0,
    }
}

// The places into which texts were put, in the order of the map.
fn keys_in(alloc: Global, patched: &IndexMap<usize, Patch>) -> Result<Vec<usize>, AllocError>
    ensures { IfOk result (λ places. places.items ≡ keys patched.now) }
{
    patched.keys().copied().collect(alloc)
}

/// A text that is cut where a line begins.
#[derive(Clone, Copy)]
pub(crate) struct Cut<'a> {
    /// The bytes of the lines in front.
    pub(crate) front: &'a [u8],
    /// The line.
    pub(crate) line: FileLine<'a>,
    /// The bytes behind it.
    pub(crate) behind: &'a [u8],
}

// A text that begins at a place, cut at another; none where no line of it begins there.
fn cut_at(text: &[u8], first: usize, place: usize) -> Option<Cut<'_>>
    ensures { IfSome result (IsCutAt first place text.now) }
{
    if place < first || place - first >= text.len() || !begins_line(text, place - first) {
        return None;
    }
    let mut left = Lines::of(&text[place - first..]);
    let line = left.take()?;
    Some(Cut {
        front: &text[..place - first],
        line,
        behind: left.bytes(),
    })
}
