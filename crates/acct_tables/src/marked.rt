// The lines of a file that have marks.
ghost use Rattle.std.specs.Prelude.{IfOk};
ghost use Rattle.acct_text.specs.Lines.{lines_of};
ghost use Rattle.acct_tables.specs.Marks.{marks_in};
ghost use Rattle.acct_tables.specs.Cells.{AreMarked, cells_from};

use crate::lines::Lines;
use crate::marks::{Marks, from_marks};
use std::alloc::{AllocError, Global};

/// The places of a file's lines that have one of the marks, from the first to the last. The lines between
/// are passed over at once.
pub(crate) fn marked_in(
    alloc: Global,
    text: &[u8],
    marks: Marks<'_>,
) -> Result<Vec<usize>, AllocError>
    ensures { IfOk result (λ places.
        AreMarked (marks_in marks.entry) (cells_from 0 (lines_of text.now)) places.items) }
{
    let mut places = Vec::new(alloc);
    let mut behind = from_marks(text, marks);
    let mut left = Lines::of(behind);
    'lines: while let Some(_line) = left.take() {
        places.push(text.len() - behind.len())?;
        behind = from_marks(left.bytes(), marks);
        left = Lines::of(behind);
    }
    Ok(places)
}
