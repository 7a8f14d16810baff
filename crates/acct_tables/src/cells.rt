// What stands in the places of a file's lines, one place after another.
ghost use Rattle.std.specs.Prelude.{◌≡◌, [], ◌∷◌, length, MatchOption};
ghost use Rattle.acct_text.specs.Lines.{line_bytes};
ghost use Rattle.acct_tables.specs.SeenLines.{seen_line};

use crate::cell::Cell;
use crate::lines::{FileLine, Lines};
use crate::patch::{Patch, cell_of, texts_cell};
use acct_text::Bytes;
use indexmap::IndexMap;
use std::marker::Model;

/// What stands in the places that are still to be looked at, in the order of lines: those of the file,
/// then the added ones. They need no memory. Contracts see the list of them.
#[derive(Drop)]
pub struct Cells<'a> {
    // the place of the next one
    pub(crate) place: usize,
    // the lines of the file that are left
    pub(crate) lines: Lines<'a>,
    pub(crate) patched: &'a IndexMap<usize, Patch>,
    pub(crate) are_ended: bool,
    // the texts of the added lines that are left
    pub(crate) added: &'a [Vec<Bytes>],
}

impl<'a> Model for Cells<'a> {
    ghost use Rattle.std.specs.Prelude.{List, map};
    ghost use Rattle.std.specs.Vec.{vec_items};
    ghost use Rattle.acct_tables.specs.declared.cell.Cell.{Cell};
    ghost use Rattle.acct_tables.specs.Kept.{IsRoom, cells_left, patches_of};

    ghost Value = { List Cell };

    ghost view = { λ l. cells_left l.place l.lines l.are_ended (patches_of l.patched.now)
        (map vec_items l.added.now) };

    ghost invariant = { λ l. IsRoom l.place l.lines l.added.now };
}

impl<'a> Cells<'a> {
    /// Takes what stands in the next place; none where all are taken.
    pub fn take(&mut self) -> Option<Cell<'a>>
        ensures taken { MatchOption result (self.old ≡ []) (λ cell. self.old ≡ cell ∷ self.new) }
        ensures over { self.old ≡ [] → self.new ≡ [] }
    {
        let place = self.place;
        if let Some(line) = self.lines.take() {
            self.place = place + line_size(line);
            let patched = self.patched;
            return Some(cell_of(place, line, patched.get(&place), self.are_ended));
        }
        match self.added.split_first() {
            Some((texts, rest)) => {
                self.place = place + 1;
                self.added = rest;
                Some(texts_cell(texts, place))
            }
            None => None,
        }
    }
}

// The number of bytes of a line, with its newline.
fn line_size(line: FileLine<'_>) -> usize
    ensures { result ≡ length (line_bytes (seen_line line.entry)) }
{
    if line.ended {
        line.text.len() + 1
    } else {
        line.text.len()
    }
}
