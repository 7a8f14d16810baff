// The line of a file that begins at a place of its bytes.
ghost use Rattle.std.specs.Prelude.{◌≡◌, ◌<◌, length, option_map};
ghost use Rattle.acct_text.specs.Lines.{lines_of};
ghost use Rattle.acct_tables.specs.Cells.{cell_at, cells_from};
ghost use Rattle.acct_tables.specs.Kept as kept;

use crate::lines::{FileLine, Lines};

/// The line that begins with this byte of a file, counted from 0; none where no line does. It takes no
/// pass over the lines.
pub(crate) fn line_at(text: &[u8], place: usize) -> Option<FileLine<'_>>
    ensures { option_map (kept.line_cell place) result
        ≡ cell_at place (cells_from 0 (lines_of text.now)) }
{
    if place >= text.len() {
        return None;
    }
    if begins_line(text, place) {
        Lines::of(&text[place..]).take()
    } else {
        None
    }
}

/// Whether this byte of a file is the first one, or stands behind an end.
pub(crate) fn begins_line(text: &[u8], place: usize) -> bool
    requires { place < length text.now }
    ensures { result ≡ kept.begins_line place text.now }
{
    place == 0 || text[place - 1] == b'\n'
}
