// Where each text stands last among the lines of a file, found for all in one pass.
ghost use Rattle.std.specs.Prelude.{◌≡◌, IfOk};
ghost use Rattle.plan_tool.specs.SeenDiff.{Knows, place_told, reaches, seen_lines};

use acct_tables::FileLine;
use indexmap::IndexMap;
use std::alloc::{AllocError, Global};

/// The last place of each text among lines, counted from 0. A look-up takes no pass over the lines.
pub(crate) struct LinePlaces<'a> {
    places: IndexMap<&'a [u8], usize>,
}

// One call for a map, so that who holds places has few ways through them.
impl<'a> Drop for LinePlaces<'a> {
    fn drop(self) {
        let LinePlaces { places: _ } = self;
    }
}

impl<'a> LinePlaces<'a> {
    /// The places among these lines.
    pub fn of(alloc: Global, lines: &[FileLine<'a>]) -> Result<Self, AllocError>
        ensures { IfOk result (λ places. Knows (seen_lines lines.now) (place_told places)) }
    {
        let mut places = IndexMap::new(alloc);
        for (place, line) in lines.iter().enumerate() {
            places.insert(line.text, place)?;
        }
        Ok(LinePlaces { places })
    }

    /// Whether a line of the text stands at this place or behind it.
    pub fn may_stand(&self, text: &[u8], from: usize) -> bool
        ensures { result ≡ reaches from (place_told self.now text.now) }
    {
        match self.places.get(text) {
            Some(place) => from <= *place,
            None => false,
        }
    }
}
