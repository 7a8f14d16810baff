// The bytes of the lines that stand in a place of a file.
ghost use Rattle.std.specs.Prelude.{◌≡◌, ◌++◌, OnOk};
ghost use Rattle.acct_text.specs.Lines.{file_bytes};
ghost use Rattle.acct_tables.specs.Cells.{cell_lines};

use crate::cell::Cell;
use crate::lines::FileLine;
use acct_text::Bytes;
use std::alloc::AllocError;

/// Adds the bytes of the lines, each with its newline. At `AllocError` the text may have a part of
/// them.
pub(crate) fn push_lines(cell: Cell<'_>, text: &mut Bytes) -> Result<(), AllocError>
    ensures { OnOk result (text.new ≡ text.old ++ file_bytes (cell_lines cell.entry)) }
{
    let ended = cell.ended;
    let mut left = cell.texts;
    'texts: while let Some(line) = left.take() {
        FileLine { text: line, ended }.push_to(text)?;
    }
    Ok(())
}
