// The lines of a file, with what stands in the place of each (passwd(5), and likewise the other five
// tables).
ghost use Rattle.std.specs.Prelude.{◌≡◌, ◌<◌, ℕ, List, true, All, map, IfOk, IfSome, OnErr, OnOk};
ghost use Rattle.std.specs.Vec.{vec_items};
ghost use Rattle.acct_text.specs.Lines.{file_bytes, lines_of};
ghost use Rattle.acct_tables.specs.Kept.{cells_kept, patches_of};
ghost use Rattle.acct_tables.specs.Marks.{marks_in};
ghost use Rattle.acct_tables.specs.Cells.{AreMarked, ArePlaced, cell_at, cells_from, lines_now, text_added, texts_put};

use crate::cell::Cell;
use crate::cells::Cells;
use crate::file_text::FileText;
use crate::line_at::line_at;
use crate::lines::Lines;
use crate::marked::marked_in;
use crate::marks::Marks;
use crate::patch::{Patch, added_cell, cell_of, put_at, put_texts};
use crate::text_between::text_between;
use acct_text::Bytes;
use indexmap::IndexMap;
use std::alloc::{AllocError, Global};
use std::marker::Model;

/// The lines of a file, each in its place, the offset of its first byte in the file, with the texts that
/// stand there now. Contracts see the list of what stands in each place.
pub struct LineFile<'a> {
    // the file's bytes, which never change
    text: FileText<'a>,
    // what was put into the places of its lines
    patched: IndexMap<usize, Patch>,
    // the texts of each added line; the first has the place behind the last byte of the file
    added: Vec<Vec<Bytes>>,
    // whether each line has an end, as it gets where one is added
    are_ended: bool,
}

// One call for a text that may be lent, a map and many texts.
impl<'a> Drop for LineFile<'a> {
    fn drop(self) {
        let LineFile {
            text: _,
            patched: _,
            added: _,
            are_ended: _,
        } = self;
    }
}

impl<'a> Model for LineFile<'a> {
    ghost use Rattle.std.specs.Prelude.{List, map};
    ghost use Rattle.std.specs.Vec.{vec_items};
    ghost use Rattle.acct_tables.specs.declared.cell.Cell.{Cell};
    ghost use Rattle.acct_tables.specs.Kept.{cells_kept, patches_of};

    ghost Value = { List Cell };

    ghost view = { λ f. cells_kept f.text f.are_ended (patches_of f.patched)
        (map vec_items f.added.items) };
}

impl<'a> LineFile<'a> {
    /// The lines of a file with these bytes. It takes no memory; that of later edits comes from this
    /// allocator.
    pub fn of(alloc: Global, text: FileText<'a>) -> Self
        ensures { result ≡ cells_from 0 (lines_of text.entry) }
    {
        LineFile {
            text,
            patched: IndexMap::new(alloc),
            added: Vec::new(alloc),
            are_ended: false,
        }
    }

    /// What stands in the place; none where no line begins there.
    pub fn cell(&self, place: usize) -> Option<Cell<'_>>
        ensures { result ≡ cell_at place self.now }
    {
        let size = self.text.as_slice().len();
        if place >= size {
            return added_cell(&self.added, place - size, place);
        }
        match line_at(self.text.as_slice(), place) {
            Some(line) => Some(cell_of(place, line, self.patched.get(&place), self.are_ended)),
            None => None,
        }
    }

    /// Puts texts in place of those in the place, none of which stands any more then; nothing changes
    /// where no line begins there. At `AllocError` the lines are as before.
    pub fn put(&mut self, place: usize, texts: Vec<Bytes>) -> Result<(), AllocError>
        ensures put { OnOk result (self.new ≡ texts_put place texts.items self.old) }
        ensures unchanged { OnErr result (self.new ≡ self.old) }
    {
        let size = self.text.as_slice().len();
        if place < size {
            return put_texts(&mut self.patched, place, texts);
        }
        put_at(&mut self.added, place - size, texts);
        Ok(())
    }

    /// Adds a line behind the last one, each of which gets an end where it had none, and tells its
    /// place. At `AllocError` the lines are as before.
    pub fn add(&mut self, text: Bytes) -> Result<usize, AllocError>
        ensures added { IfOk result (λ place. self.new ≡ text_added place text self.old) }
        ensures behind { IfOk result (λ place. All (λ cell. cell.place < place) self.old) }
        ensures unchanged { OnErr result (self.new ≡ self.old) }
    {
        let place = self.text.as_slice().len() + self.added.len();
        let mut texts = Vec::new(*self.added.allocator());
        texts.push(text)?;
        self.added.push(texts)?;
        self.are_ended = true;
        Ok(place)
    }

    /// What stands in each place, in the order of lines. Their places go up.
    pub fn cells(&self) -> Cells<'_>
        ensures cells { result ≡ self.now }
        ensures placed { ArePlaced self.now }
    {
        Cells {
            place: 0,
            lines: Lines::of(self.text.as_slice()),
            patched: &self.patched,
            are_ended: self.are_ended,
            added: self.added.as_slice(),
        }
    }

    /// The places of the lines that have one of the marks, from the first to the last; none where texts were
    /// put or added. The lines between are passed over at once.
    pub fn marked(&self, alloc: Global, marks: Marks<'_>) -> Result<Option<Vec<usize>>, AllocError>
        ensures { IfOk result (λ places. IfSome places (λ places.
            AreMarked (marks_in marks.entry) self.now places.items)) }
    {
        match self.kept_text() {
            Some(text) => Ok(Some(marked_in(alloc, text, marks)?)),
            None => Ok(None),
        }
    }

    /// The place of each line, from the first to the last.
    pub fn places(&self, alloc: Global) -> Result<Vec<usize>, AllocError>
        ensures { IfOk result (λ places. places.items ≡ map (λ cell. cell.place) self.now) }
    {
        let mut places = Vec::new(alloc);
        let mut left = self.cells();
        'cells: while let Some(cell) = left.take() {
            places.push(cell.place)?;
        }
        Ok(places)
    }

    /// The bytes of the lines that stand now, one behind the other: lent where nothing was put or added.
    pub fn seen(&self) -> Result<FileText<'_>, AllocError>
        ensures { IfOk result (λ text. text ≡ file_bytes (lines_now self.now)) }
    {
        match self.kept_text() {
            Some(text) => Ok(FileText::lent(text)),
            None => Ok(FileText::own(self.made_text()?)),
        }
    }

    /// The same bytes, given away: those that the file owns are moved where nothing was put or added.
    pub fn into_bytes(self) -> Result<Bytes, AllocError>
        ensures { IfOk result (λ bytes. bytes ≡ file_bytes (lines_now self.entry)) }
    {
        if !are_kept(&self.patched, &self.added, self.are_ended) {
            return self.made_text();
        }
        let LineFile {
            text,
            patched: _,
            added,
            are_ended: _,
        } = self;
        text.into_bytes(*added.allocator())
    }

    // The same bytes, made of the lines.
    fn made_text(&self) -> Result<Bytes, AllocError>
        ensures { IfOk result (λ bytes. bytes ≡ file_bytes (lines_now self.now)) }
    {
        text_between(
            *self.added.allocator(),
            self.text.as_slice(),
            &self.patched,
            self.are_ended,
            self.added.as_slice(),
        )
    }

    /// The bytes of the file where nothing was put into it and nothing added.
    pub fn kept_text(&self) -> Option<&[u8]>
        ensures bytes { IfSome result (λ text. text.now ≡ file_bytes (lines_now self.now)) }
        ensures cells { IfSome result (λ text. self.now ≡ cells_from 0 (lines_of text.now)) }
    {
        if !are_kept(&self.patched, &self.added, self.are_ended) {
            return None;
        }
        Some(self.text.as_slice())
    }
}

// Whether nothing was put into places and nothing added.
fn are_kept(patched: &IndexMap<usize, Patch>, added: &Vec<Vec<Bytes>>, are_ended: bool) -> bool
    ensures { result ≡ true → (text : List ℕ) → cells_kept text are_ended (patches_of patched.now)
        (map vec_items added.now.items) ≡ cells_from 0 (lines_of text) }
{
    if are_ended || !patched.is_empty() {
        return false;
    }
    added.is_empty()
}
