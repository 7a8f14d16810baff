// What was put into the place of a line of a file, and what stands there then.
ghost use Rattle.std.specs.Prelude.{◌≡◌, ◌||◌, nat_le, map, option_map, set, slice_get, OnErr, OnOk};
ghost use Rattle.std.specs.HashMap.{IsUnchanged};
ghost use Rattle.std.specs.Option.{option_copied};
ghost use Rattle.std.specs.Vec.{vec_items};
ghost use Rattle.acct_tables.specs.Kept.{IsPut, added_texts_cell, is_ended_by, line_cell, patches_of, shown_cell};

use crate::cell::{Cell, Texts};
use crate::lines::FileLine;
use acct_text::Bytes;
use indexmap::IndexMap;
use std::alloc::AllocError;

/// What was put into a place.
#[derive(Drop)]
pub(crate) struct Patch {
    /// The texts, each a line.
    pub(crate) texts: Vec<Bytes>,
    /// Whether each has got an end, as several texts get.
    pub(crate) ended: bool,
}

/// Puts texts into a place. At `AllocError` what was put into places is as before.
pub(crate) fn put_texts(
    patched: &mut IndexMap<usize, Patch>,
    place: usize,
    texts: Vec<Bytes>,
) -> Result<(), AllocError>
    ensures put { OnOk result
        (IsPut place texts.items (patches_of patched.old) (patches_of patched.new)) }
    ensures unchanged { OnErr result (IsUnchanged patched.old patched.new) }
{
    let ended = is_ended(patched.get(&place), texts.len());
    patched.insert(place, Patch { texts, ended })?;
    Ok(())
}

/// Puts texts in place of those at a place of a list, counted from 0; none is behind the last.
pub(crate) fn put_at(all: &mut Vec<Vec<Bytes>>, at: usize, texts: Vec<Bytes>)
    ensures { map vec_items all.new.items ≡ set (map vec_items all.old.items) at texts.items }
{
    if at < all.len() {
        all[at] = texts;
    }
}

// Whether so many texts have an end each in a place into which this was put, or nothing.
fn is_ended(patch: Option<&Patch>, count: usize) -> bool
    ensures { result ≡ (is_ended_by (option_copied patch.entry) || nat_le 2 count) }
{
    match patch {
        Some(patch) => patch.ended || count >= 2,
        None => count >= 2,
    }
}

/// What stands in the place of this line of a file, into which something was put or not.
pub(crate) fn cell_of<'a>(
    place: usize,
    line: FileLine<'a>,
    patch: Option<&'a Patch>,
    are_ended: bool,
) -> Cell<'a>
    ensures { result ≡
        shown_cell are_ended (option_copied patch.entry) (line_cell place line.entry) }
{
    match patch {
        Some(patch) => Cell {
            place,
            texts: Texts::put(patch.texts.as_slice()),
            ended: line.ended || patch.ended || are_ended,
        },
        None => Cell {
            place,
            texts: Texts::one(line.text),
            ended: line.ended || are_ended,
        },
    }
}

/// What stands in the place of an added line: texts at a place of a list, counted from 0.
pub(crate) fn added_cell(added: &Vec<Vec<Bytes>>, at: usize, place: usize) -> Option<Cell<'_>>
    ensures { result ≡ option_map (added_texts_cell place)
        (slice_get (map vec_items added.now.items) at) }
{
    match added.get(at) {
        Some(texts) => Some(texts_cell(texts, place)),
        None => None,
    }
}

/// What stands in the place of an added line of these texts.
pub(crate) fn texts_cell(texts: &Vec<Bytes>, place: usize) -> Cell<'_>
    ensures { result ≡ added_texts_cell place texts.now.items }
{
    Cell {
        place,
        texts: Texts::put(texts.as_slice()),
        ended: true,
    }
}
