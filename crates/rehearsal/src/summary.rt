// The summary of a rehearsal.
ghost use Rattle.std.specs.Prelude.{◌≡◌, ◌++◌, length, IfOk, OnOk};
ghost use Rattle.acct_text.specs.Lines.{lines_of};
ghost use Rattle.rehearsal.specs.Asked.{IsWithinBounds};
ghost use Rattle.rehearsal.specs.Summary.{count_line, spaced, summary_of, summary_with, summary_line};

use crate::asked::Rehearsal;
use crate::course::{Reached, course_of};
use crate::images::text_of;
use acct_text::{Bytes, Tab, lines, push_decimal};
use std::alloc::{AllocError, Global};

/// Carries out the rehearsal, and sums up what it left. The error says that memory ran out.
pub(crate) fn summary_of(alloc: Global, asked: Rehearsal) -> Result<Bytes, AllocError>
    requires { IsWithinBounds asked }
    ensures { IfOk result (λ summary. summary ≡ summary_of asked) }
{
    let last = course_of(alloc, asked)?;
    summary_with(alloc, asked.count, &last)
}

// The summary of so many commands that left this.
fn summary_with(alloc: Global, count: u64, last: &Reached) -> Result<Bytes, AllocError>
    ensures { IfOk result (λ summary. summary ≡ summary_with count last.now) }
{
    let mut summary = Bytes::new(alloc);
    push_count(&mut summary, b"commands", count)?;
    push_count(&mut summary, b"changed", last.changed)?;
    'tables: for table in Tab::all() {
        push_table(alloc, &mut summary, table, text_of(&last.files, table))?;
    }
    Ok(summary)
}

// Adds a line with a word and a number.
fn push_count(summary: &mut Bytes, word: &[u8], count: u64) -> Result<(), AllocError>
    ensures { OnOk result (summary.new ≡ summary.old ++ count_line word.now count) }
{
    summary.push(word)?;
    push_number(summary, count)?;
    summary.push(b"\n")
}

// Adds the line of a table with this text: its name, its lines and its bytes.
fn push_table(alloc: Global, summary: &mut Bytes, table: Tab, text: &[u8]) -> Result<(), AllocError>
    ensures { OnOk result (summary.new ≡ summary.old ++ summary_line table text.now) }
{
    let count = line_count(alloc, text)?;
    summary.push(table.name().as_bytes())?;
    push_number(summary, count as u64)?;
    push_number(summary, text.len() as u64)?;
    summary.push(b"\n")
}

// Adds a blank and a number.
fn push_number(summary: &mut Bytes, number: u64) -> Result<(), AllocError>
    ensures { OnOk result (summary.new ≡ summary.old ++ spaced number) }
{
    summary.push(b" ")?;
    push_decimal(summary, number)
}

// How many lines a text has; bytes behind the last newline are a line as well.
fn line_count(alloc: Global, text: &[u8]) -> Result<usize, AllocError>
    ensures { IfOk result (λ count. count ≡ length (lines_of text.now)) }
{
    let lines = lines(alloc, text)?;
    Ok(lines.len())
}
