// What becomes of the lines of a table that would change: each is kept, gone or new.
ghost use Rattle.std.specs.Prelude.{◌≡◌, ◌++◌, ◌+◌, ◌<◌, ◌≤◌, ◌^◌, [], ◌∷◌, drop, length, map, position, IfOk, IfSome, OnOk};
ghost use Rattle.account_model.specs.PlanDiff.{diff_lines, fated, lines_until, same_line};
ghost use Rattle.acct_text.specs.Lines.{lines_of};
ghost use Rattle.acct_tables.specs.SeenLines.{seen_line};
ghost use Rattle.plan_tool.specs.SeenDiff.{Knows, passed_by, place_told, seen_diff, seen_lines};

use crate::{Fate, LinePlaces};
use acct_tables::{FileLine, Lines};
use std::alloc::{AllocError, Global};

/// A line of the old file, of the new one or of both.
#[derive(Clone, Copy)]
pub(crate) struct DiffLine<'a> {
    /// What becomes of it.
    pub fate: Fate,
    /// The line.
    pub line: FileLine<'a>,
}

/// What becomes of each line from a file with the old bytes to one with the new ones.
///
/// The time is linear in the lines on average, as the new ones are looked up by their hashes.
pub(crate) fn diff_lines<'a>(
    alloc: Global,
    old: &'a [u8],
    new: &'a [u8],
) -> Result<Vec<DiffLine<'a>>, AllocError>
    ensures { IfOk result (λ lines. seen_diff lines.items ≡ diff_lines old.now new.now) }
{
    let file = all_lines(alloc, new)?;
    let news = file.as_slice();
    let places = LinePlaces::of(alloc, news)?;
    let mut lines = Vec::new(alloc);
    let mut passed = 0usize;
    let mut olds = Lines::of(old);
    'olds: while let Some(line) = olds.take() {
        let found = found_behind(&places, news, passed, line);
        push_until(&mut lines, line, found, &news[passed..])?;
        passed += passed_by(found);
    }
    push_news(&mut lines, &news[passed..])?;
    Ok(lines)
}

// The place of an old line among the new ones that are left, where so many are passed by.
fn found_behind(
    places: &LinePlaces<'_>,
    news: &[FileLine<'_>],
    passed: usize,
    line: FileLine<'_>,
) -> Option<usize>
    requires known { Knows (seen_lines news.now) (place_told places.now) }
    requires inside { passed ≤ length news.now }
    ensures { result ≡ position (same_line (seen_line line.entry))
        (drop passed (seen_lines news.now)) }
{
    if places.may_stand(line.text, passed) {
        place_of(&news[passed..], line)
    } else {
        None
    }
}

// The lines of a file with these bytes.
fn all_lines<'a>(alloc: Global, text: &'a [u8]) -> Result<Vec<FileLine<'a>>, AllocError>
    ensures { IfOk result (λ lines. seen_lines lines.items ≡ lines_of text.now) }
{
    let mut lines = Vec::new(alloc);
    let mut left = Lines::of(text);
    'lines: while let Some(line) = left.take() {
        lines.push(line)?;
    }
    Ok(lines)
}

// The place of the first line with the same bytes as this one.
fn place_of(lines: &[FileLine<'_>], line: FileLine<'_>) -> Option<usize>
    ensures { result
        ≡ position (λ other. same_line (seen_line line.entry) (seen_line other)) lines.now }
{
    lines.iter().position(|other| is_same(line, *other))
}

// Whether two lines have the same bytes.
fn is_same(line: FileLine<'_>, other: FileLine<'_>) -> bool
    ensures { result ≡ same_line (seen_line line.entry) (seen_line other.entry) }
{
    line.text == other.text && line.ended == other.ended
}

// Adds an old line that is found at this place among the new ones that are left, and those in front of
// it.
fn push_until<'a>(
    lines: &mut Vec<DiffLine<'a>>,
    old: FileLine<'a>,
    found: Option<usize>,
    left: &[FileLine<'a>],
) -> Result<(), AllocError>
    requires { IfSome found (λ place. place ≤ length left.now) }
    ensures { OnOk result (seen_diff lines.new.items ≡ seen_diff lines.old.items
        ++ lines_until (seen_line old.entry) found (seen_lines left.now)) }
{
    match found {
        Some(place) => {
            push_news(lines, &left[..place])?;
            push_line(lines, Fate::Kept, old)
        }
        None => push_line(lines, Fate::Gone, old),
    }
}

// Adds a line.
fn push_line<'a>(
    lines: &mut Vec<DiffLine<'a>>,
    fate: Fate,
    line: FileLine<'a>,
) -> Result<(), AllocError>
    ensures { OnOk result (seen_diff lines.new.items
        ≡ seen_diff lines.old.items ++ fated fate (seen_line line.entry) ∷ []) }
{
    lines.push(DiffLine { fate, line })?;
    Ok(())
}

// Adds new lines.
fn push_news<'a>(lines: &mut Vec<DiffLine<'a>>, news: &[FileLine<'a>]) -> Result<(), AllocError>
    ensures { OnOk result (seen_diff lines.new.items
        ≡ seen_diff lines.old.items ++ map (fated Fate.New) (seen_lines news.now)) }
{
    for line in news {
        push_line(lines, Fate::New, *line)?;
    }
    Ok(())
}

// How many of the new lines that are left an old one passes by, with the one that it is.
fn passed_by(found: Option<usize>) -> usize
    requires { IfSome found (λ place. place + 1 < 2 ^ 64) }
    ensures { result ≡ passed_by found }
{
    match found {
        Some(place) => place + 1,
        None => 0,
    }
}
