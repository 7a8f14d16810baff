// The texts in some places of a table's file, one after another (passwd(5), shadow(5), group(5),
// gshadow(5), subuid(5), subgid(5)).
ghost use Rattle.std.specs.Prelude.{◌≡◌, [], ◌∷◌, MatchOption};
ghost use Rattle.table.specs.TableCells.{texts_at, texts_there};

use acct_tables::{LineFile, Texts};
use std::marker::Model;

/// The texts in places of a file that are still to be looked at, one place after another. Contracts see
/// the list of them.
#[derive(Drop)]
pub(crate) struct TextsThere<'a> {
    // those of the place at hand
    texts: Texts<'a>,
    file: &'a LineFile<'a>,
    // the places behind it
    places: &'a [usize],
}

impl<'a> Model for TextsThere<'a> {
    ghost use Rattle.std.specs.Prelude.{ℕ, List, ◌++◌};
    ghost use Rattle.table.specs.TableCells.{texts_there};

    ghost Value = { List (List ℕ) };

    ghost view = { λ t. t.texts ++ texts_there t.file.now t.places.now };
}

impl<'a> TextsThere<'a> {
    /// All texts in the places, in their order.
    pub(crate) fn of(file: &'a LineFile<'a>, places: &'a [usize]) -> Self
        ensures { result ≡ texts_there file.now places.now }
    {
        TextsThere {
            texts: Texts::none(),
            file,
            places,
        }
    }

    /// Takes the next text; none where all are taken.
    pub(crate) fn take(&mut self) -> Option<&'a [u8]>
        ensures { MatchOption result (self.old ≡ [])
            (λ text. self.old ≡ text.now ∷ self.new) }
    {
        'places: loop {
            if let Some(text) = self.texts.take() {
                return Some(text);
            }
            let Some((place, later)) = self.places.split_first() else {
                return None;
            };
            self.texts = texts_at(self.file, *place);
            self.places = later;
        }
    }
}

// The texts in a place; none where no line is.
fn texts_at<'a>(file: &'a LineFile<'a>, place: usize) -> Texts<'a>
    ensures { result ≡ texts_at file.now place }
{
    match file.cell(place) {
        Some(cell) => cell.texts,
        None => Texts::none(),
    }
}
