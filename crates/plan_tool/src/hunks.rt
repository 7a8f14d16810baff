// The diff of a table, as `diff -u` prints it: the lines that change with three around them, in hunks.
ghost use Rattle.std.specs.Prelude.{◌≡◌, ◌++◌, ◌+◌, ◌<◌, ◌≤◌, ◌^◌, length, flat_map, OnOk};
ghost use Rattle.std.specs.List.{list_any};
ghost use Rattle.account_model.specs.PlanDiff.{diff_line_text, diff_text, end_text, hunks_text, is_shown, mark_of, range_text};
ghost use Rattle.plan_tool.specs.SeenChanges.{seen_change};
ghost use Rattle.plan_tool.specs.SeenDiff.{IsPointOf, changes_line, first_point, hunk_between, lines_in_new, lines_in_old, point_behind, seen_diff, seen_diff_line};

use crate::{DiffLine, Fate, TableChange, diff_lines};
use acct_text::Piece::{Number, Text};
use acct_text::{Bytes, push_decimal};
use std::alloc::{AllocError, Global};

/// Adds the diff of the table. At `AllocError` a front of it may have been added.
pub(crate) fn push_diff(
    alloc: Global,
    out: &mut Bytes,
    change: TableChange<'_>,
) -> Result<(), AllocError>
    ensures { OnOk result (out.new ≡ out.old ++ diff_text (seen_change change.entry)) }
{
    let name = change.table.name().as_bytes();
    out.push_pieces(&[
        Text(b"--- a/etc/"),
        Text(name),
        Text(b"\n+++ b/etc/"),
        Text(name),
        Text(b"\n"),
    ])?;
    let lines = diff_lines(alloc, change.old, change.new)?;
    push_hunks(out, lines.as_slice())
}

// A place among the lines, and how many lines of both files stand in front of it.
#[derive(Clone, Copy)]
struct Point {
    place: usize,
    old: usize,
    new: usize,
}

impl Point {
    // The place in front of all lines.
    fn first() -> Point
        ensures { result ≡ first_point }
    {
        Point {
            place: 0,
            old: 0,
            new: 0,
        }
    }

    // The place behind one more line than those in front of it.
    fn behind(self, line: DiffLine<'_>) -> Point
        requires room { self.place + 1 < 2 ^ 64 }
        requires old { self.old ≤ self.place }
        requires new { self.new ≤ self.place }
        ensures { result ≡ point_behind self (seen_diff_line line.entry) }
    {
        Point {
            place: self.place + 1,
            old: self.old + lines_in_old(line.fate),
            new: self.new + lines_in_new(line.fate),
        }
    }
}

// How many lines a line is in the old file.
fn lines_in_old(fate: Fate) -> usize
    ensures { result ≡ lines_in_old fate }
{
    match fate {
        Fate::Kept | Fate::Gone => 1,
        Fate::New => 0,
    }
}

// How many lines a line is in the new file.
fn lines_in_new(fate: Fate) -> usize
    ensures { result ≡ lines_in_new fate }
{
    match fate {
        Fate::Kept | Fate::New => 1,
        Fate::Gone => 0,
    }
}

// Adds the hunks.
fn push_hunks(out: &mut Bytes, lines: &[DiffLine<'_>]) -> Result<(), AllocError>
    ensures { OnOk result (out.new ≡ out.old ++ hunks_text (seen_diff lines.now)) }
{
    let mut start = Point::first();
    let mut here = start;
    'lines: for line in lines {
        let behind = here.behind(*line);
        if !is_shown(lines, here.place) {
            push_hunk(out, lines, start, here)?;
            start = behind;
        }
        here = behind;
    }
    push_hunk(out, lines, start, here)
}

// Whether the line at this place is shown.
fn is_shown(lines: &[DiffLine<'_>], place: usize) -> bool
    requires { place < length lines.now }
    ensures { result ≡ is_shown (seen_diff lines.now) place }
{
    let front = &lines[..(place + 4).min(lines.len())];
    has_change(&front[place.saturating_sub(3)..])
}

// Whether one of the lines is gone or new.
fn has_change(lines: &[DiffLine<'_>]) -> bool
    ensures { result ≡ list_any (λ line. changes_line line.fate) lines.now }
{
    lines.iter().any(|line| is_change(line.fate))
}

// Whether a line that becomes this is gone or new.
fn is_change(fate: Fate) -> bool
    ensures { result ≡ changes_line fate }
{
    match fate {
        Fate::Kept => false,
        Fate::Gone | Fate::New => true,
    }
}

// Adds the hunk from a point to another; nothing where no line stands between them.
fn push_hunk(
    out: &mut Bytes,
    lines: &[DiffLine<'_>],
    start: Point,
    end: Point,
) -> Result<(), AllocError>
    requires start { IsPointOf (seen_diff lines.now) start }
    requires end { IsPointOf (seen_diff lines.now) end }
    requires ordered { start.place ≤ end.place }
    ensures { OnOk result (out.new
        ≡ out.old ++ hunk_between (seen_diff lines.now) start.place end.place) }
{
    if start.place == end.place {
        return Ok(());
    }
    out.push(b"@@ -")?;
    push_range(out, start.old, end.old)?;
    out.push(b" +")?;
    push_range(out, start.new, end.new)?;
    out.push(b" @@\n")?;
    push_lines(out, &lines[start.place..end.place])?;
    Ok(())
}

// Adds the number of the first of these lines, and how many they are.
fn push_range(out: &mut Bytes, start: usize, end: usize) -> Result<(), AllocError>
    requires ordered { start ≤ end }
    requires room { end + 1 < 2 ^ 64 }
    ensures { OnOk result (out.new ≡ out.old ++ range_text start end) }
{
    let first = if end == start { start } else { start + 1 };
    push_decimal(out, first as u64)?;
    if end == start + 1 {
        return Ok(());
    }
    out.push_pieces(&[Text(b","), Number((end - start) as u64)])
}

// Adds lines with their marks.
fn push_lines(out: &mut Bytes, lines: &[DiffLine<'_>]) -> Result<(), AllocError>
    ensures { OnOk result (out.new ≡ out.old ++ flat_map diff_line_text (seen_diff lines.now)) }
{
    for line in lines {
        out.push(mark_of(line.fate))?;
        out.push(line.line.text)?;
        out.push(end_text(line.line.ended))?;
    }
    Ok(())
}

// What stands in front of a line.
fn mark_of(fate: Fate) -> &'static [u8]
    ensures { result.now ≡ mark_of fate }
{
    match fate {
        Fate::Kept => b" ",
        Fate::Gone => b"-",
        Fate::New => b"+",
    }
}

// What stands behind a line.
fn end_text(ended: bool) -> &'static [u8]
    ensures { result.now ≡ end_text ended }
{
    if ended {
        b"\n"
    } else {
        b"\n\\ No newline at end of file\n"
    }
}
