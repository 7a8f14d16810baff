// The index of a table that is made where an edit may touch so many records that it saves time (passwd(5),
// shadow(5), group(5), gshadow(5)).
ghost use Rattle.std.specs.Prelude.{◌≡◌};

use crate::keyed_cells::KeyedCells;
use crate::keys::KeyedRecord;
use crate::texts_there::TextsThere;
use acct_tables::MANY;
use line_edits::{Edit, leaves};
use std::alloc::{AllocError, Global};

impl<'a, R: KeyedRecord + Drop> KeyedCells<'a, R> {
    /// Makes the index where the edit may touch many records in these places, of more than this name.
    pub(crate) fn index_for(
        &mut self,
        alloc: Global,
        edit: &Edit<R, R::Change>,
        name: Option<&[u8]>,
        places: &[usize],
    ) -> Result<(), AllocError>
        ensures { self.new ≡ self.old }
    {
        if name.is_some() || !are_many::<R>(TextsThere::of(&self.file, places), edit) {
            return Ok(());
        }
        self.index(alloc)
    }
}

// Whether the edit may touch many of the texts.
fn are_many<R: KeyedRecord>(mut left: TextsThere<'_>, edit: &Edit<R, R::Change>) -> bool {
    let mut count = 0;
    'texts: while let Some(text) = left.take() {
        if !leaves(edit, text) {
            count += 1;
        }
        if count == MANY {
            return true;
        }
    }
    false
}
