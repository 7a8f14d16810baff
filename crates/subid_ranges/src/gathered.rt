// What is gathered of the ranges of a file, in one pass over its lines (subuid(5), subgid(5)).
ghost use Rattle.std.specs.Prelude.{◌<◌, ◌≤◌, ◌∷◌, [], List, IfOk, OnOk};
ghost use Rattle.std.specs.List.{cons_option};
ghost use Rattle.acct_lines.specs.Shown.{subid_shown};
ghost use Rattle.acct_text.specs.Bytes.{newline};
ghost use Rattle.acct_text.specs.Lines.{lines_of};
ghost use Rattle.acct_text.specs.Pieces.{Lacks};
ghost use Rattle.account_model.specs.Records.{greatest_id, last_id, subid_format};
ghost use Rattle.account_model.specs.declared.records.SubidRecord.{SubidRecord};
ghost use Rattle.subid_ranges.specs.Gathered.{GathersMore};
ghost use Rattle.subid_ranges.specs.RangeLines.{ranges_of};

use crate::range_line::range_in;
use acct_lines::SubidLine;
use acct_tables::{FileLine, Lines};
use std::alloc::{AllocError, Global};

/// What is known of ranges, to which one more is added behind them.
pub(crate) trait Gathered: Drop {
    // it is that of these ranges
    ghost is_of: { List SubidRecord → Self → Type 0 };

    /// Adds the range that a line shows. At `AllocError` nothing is known from then on.
    fn note(&mut self, alloc: Global, range: &SubidLine<'_>) -> Result<(), AllocError>
        requires some { 0 < range.now.count }
        requires last { last_id (subid_shown range.now) ≤ greatest_id }
        ensures { OnOk result (GathersMore is_of (subid_shown range.now ∷ []) self.old self.new) };
}

/// What is known of the ranges of a file with these bytes, from none on.
pub(crate) fn gather<G: Gathered>(alloc: Global, none: G, text: &[u8]) -> Result<G, AllocError>
    requires { G.is_of [] none }
    ensures { IfOk result (G.is_of (ranges_of (lines_of text.now))) }
{
    let mut known = none;
    let mut left = Lines::of(text);
    'lines: while let Some(line) = left.take() {
        note_line(alloc, &mut known, &line)?;
    }
    Ok(known)
}

// Adds the range that the line is, if it is one.
fn note_line<G: Gathered>(
    alloc: Global,
    known: &mut G,
    line: &FileLine<'_>,
) -> Result<(), AllocError>
    requires { Lacks newline line.now.text.now }
    ensures { OnOk result (GathersMore G.is_of
        (cons_option (subid_format.read line.now.text.now) []) known.old known.new) }
{
    match range_in(line.text) {
        Some(range) => known.note(alloc, &range),
        None => Ok(()),
    }
}
