// The report of a check: the problems of its tables, line after line (pwck(8), grpck(8), `-r`).
ghost use Rattle.std.specs.Prelude.{◌≡◌, ◌+◌, ◌^◌, ◌<◌, ◌++◌, ◌∷◌, [], List, Some, true, option_map, IfOk, OnOk};
ghost use Rattle.std.specs.Option.{option_copied};
ghost use Rattle.acct_text.specs.declared.files.Files.{Files};
ghost use Rattle.account_model.specs.declared.tool.Tool.{Tool};
ghost use Rattle.account_model.specs.Action.{reports};
ghost use Rattle.account_model.specs.Problems.{RecordProblems, at_line, duplicate_name, is_nis, problem_line, problems_of_line, table_problems};
ghost use Rattle.acct_lines.specs.Reading.{MatchRead};
ghost use Rattle.check_reports.specs.Decided.{DecidesBy};
ghost use Rattle.check_reports.specs.Known.{HasNoted, IsWhole, TellsBefore};
ghost use Rattle.check_reports.specs.Reported.{IsChecked, repeated_name, status_in, with_problems};
ghost use Rattle.check_reports.specs.Seen.{seen_problem};

use crate::decision::told;
use crate::known::NamedFile;
use crate::problem::Problem;
use crate::problems::Problems;
use acct_lines::{ReadFault, TableRecord};
use acct_tables::{Lines, NameIndex, text_of};
use acct_text::{Bytes, Tab, push_decimal};
use std::alloc::{AllocError, Global};
use tool_answers::Decision;

// The status of a report with a problem.
const BAD_ENTRIES: u8 = 2;

/// What a line is read as: the name of its record, or why it has none.
pub(crate) type NameRead<'t> = Result<&'t [u8], ReadFault>;

/// What checks the records R, by what it knows of the tables.
pub(crate) trait Checks<R: TableRecord> {
    // the problems of a record behind the earlier ones
    ghost problems: { Self → RecordProblems R };

    /// The name of the record that the line at a place is, counted from 0 over all lines. Its
    /// problems are added, but for that an earlier one has its name. At `Line` it is other text;
    /// the line is read where it stands.
    fn note<'t>(&self, found: &mut Problems<'t>, place: usize, text: &'t [u8]) -> NameRead<'t>
        ensures named { IfOk result
            (λ name. Some name.now ≡ option_map R.format.name (R.format.read text.now)) }
        ensures noted { MatchRead result
            (λ _. Some found.new ≡ option_map (λ r. found.old ++ problems self.now [] r)
            (R.format.read text.now))
            (λ first. R.fault text.now ≡ Some first) };

    // of earlier records it matters only that one has the name, which is told first
    ghost tells_repeated: { (known : Self) (earlier : List R) (r : R) → problems known earlier r
        ≡ duplicate_name R.format earlier r ++ problems known [] r };
}

/// What a line is found to be.
#[derive(Drop)]
pub(crate) struct Checked<'t> {
    // the name of its record; none at other text
    name: Option<&'t [u8]>,
    // its problems, but for that an earlier record has its name
    problems: Problems<'t>,
}

/// What a check tells: a line for each problem that is shown, table after table.
#[derive(Drop)]
pub(crate) struct Report {
    // notices aren't shown
    is_quiet: bool,
    // no line has a problem, also none that isn't shown
    is_clean: bool,
    lines: Bytes,
}

impl Report {
    /// The report of no table. Where it is to be quiet, it shows no notices (pwck(8), `-q`).
    pub(crate) fn new(alloc: Global, is_quiet: bool) -> Self
        ensures { result ≡ record { is_quiet = is_quiet; is_clean = true; lines = [] } }
    {
        Report {
            is_quiet,
            is_clean: true,
            lines: Bytes::new(alloc),
        }
    }

    /// Adds the problems of a table by what is known, line after line; an absent table has none.
    /// Its names are noted with that.
    pub(crate) fn push_table<'a, R: TableRecord, K: Checks<R>>(
        &mut self,
        alloc: Global,
        known: &K,
        table: &mut NamedFile<'a>,
        tab: Tab,
    ) -> Result<(), AllocError>
        requires { HasNoted R.format [] table.old }
        ensures told { OnOk result (self.new ≡ with_problems tab
            (table_problems R.format (K.problems known.now) table.old.file.now) self.old) }
        ensures noted { OnOk result (IsWhole R.format table.new) }
        ensures of_file { OnOk result (table.new.file ≡ table.old.file) }
    {
        let mut place = 0usize;
        let mut left = Lines::of(text_of(table.file));
        'lines: while let Some(line) = left.take() {
            let checked = checked_line::<R, K>(alloc, known, place, line.text)?;
            table.note(checked.name, place)?;
            self.push_checked::<R, K>(alloc, known, &table.names, tab, place, line.text, &checked)?;
            place += 1;
        }
        Ok(())
    }

    // Adds the problems of the line with this text at a place, counted from 0. One of NIS has none.
    fn push_checked<R: TableRecord, K: Checks<R>>(
        &mut self,
        alloc: Global,
        known: &K,
        names: &NameIndex<'_>,
        tab: Tab,
        place: usize,
        text: &[u8],
        checked: &Checked<'_>,
    ) -> Result<(), AllocError>
        requires room { place + 1 < 2 ^ 64 }
        requires checked { IsChecked R.format (K.problems known.now) text.now checked.now }
        ensures { OnOk result ((before : List R)
            → TellsBefore R.format names.now place before text.now
            → self.new ≡ with_problems tab (at_line (place + 1)
            (problems_of_line R.format (K.problems known.now) before text.now)) self.old) }
    {
        if is_nis(text) {
            return Ok(());
        }
        self.push_repeated(alloc, names, tab, place, checked.name)?;
        self.push_line(alloc, tab, place + 1, &checked.problems)
    }

    // Adds the problem that a record in front of the line at a place has its name, where it has one.
    fn push_repeated(
        &mut self,
        alloc: Global,
        names: &NameIndex<'_>,
        tab: Tab,
        place: usize,
        name: Option<&[u8]>,
    ) -> Result<(), AllocError>
        requires room { place + 1 < 2 ^ 64 }
        ensures { OnOk result (self.new ≡ with_problems tab (at_line (place + 1)
            (repeated_name names.now place (option_copied name.entry))) self.old) }
    {
        match name {
            Some(name) if names.has_before(name, place) => {
                self.push(alloc, tab, place + 1, &Problem::DuplicateName(name))
            }
            _ => Ok(()),
        }
    }

    // Adds the problems of a line, counted from 1.
    fn push_line(
        &mut self,
        alloc: Global,
        tab: Tab,
        line: usize,
        problems: &Problems,
    ) -> Result<(), AllocError>
        ensures { OnOk result (self.new ≡ with_problems tab (at_line line problems.now) self.old) }
    {
        for problem in problems.as_slice() {
            self.push(alloc, tab, line, problem)?;
        }
        Ok(())
    }

    // Adds a problem of a line, counted from 1.
    fn push(
        &mut self,
        alloc: Global,
        tab: Tab,
        line: usize,
        problem: &Problem,
    ) -> Result<(), AllocError>
        ensures { OnOk result (self.new ≡ with_problems tab
            (at_line line (seen_problem problem.now ∷ [])) self.old) }
    {
        self.is_clean = false;
        if self.is_quiet && problem.is_notice() {
            return Ok(());
        }
        push_problem(alloc, &mut self.lines, tab, line, problem)
    }

    /// What the check decides: it changes nothing, and ends with 2 where a line has a problem, a
    /// notice too, and else with 0 (pwck(8), grpck(8), "EXIT VALUES").
    pub(crate) fn told(self, alloc: Global) -> Decision
        ensures { (tool : Tool) (files : Files) → DecidesBy tool
            (reports [] (status_in self) self.lines) files result }
    {
        let status = self.status();
        told(alloc, status, self.lines)
    }

    // The status.
    fn status(&self) -> u8
        ensures { result ≡ status_in self.now }
    {
        if self.is_clean { 0 } else { BAD_ENTRIES }
    }
}

// Adds the line that tells of the problem of a line, counted from 1.
fn push_problem(
    alloc: Global,
    out: &mut Bytes,
    tab: Tab,
    line: usize,
    problem: &Problem,
) -> Result<(), AllocError>
    ensures { OnOk result (out.new ≡ out.old ++ problem_line tab
        (record { line = line; problem = seen_problem problem.now })) }
{
    let text = problem.text(alloc)?;
    out.push(tab.name().as_bytes())?;
    out.push(b":")?;
    push_decimal(out, line as u64)?;
    out.push(b": ")?;
    out.push(text.as_slice())?;
    out.push(b"\n")
}

// What the line with this text at a place is.
fn checked_line<'t, R: TableRecord, K: Checks<R>>(
    alloc: Global,
    known: &K,
    place: usize,
    text: &'t [u8],
) -> Result<Checked<'t>, AllocError>
    ensures { IfOk result (IsChecked R.format (K.problems known.now) text.now) }
{
    let mut problems = Problems::none(alloc);
    match known.note(&mut problems, place, text) {
        Ok(name) => Ok(Checked {
            name: Some(name),
            problems,
        }),
        Err(ReadFault::Line(_)) => Ok(Checked {
            name: None,
            problems: Problems::invalid_entry(alloc)?,
        }),
        Err(ReadFault::Memory) => Err(AllocError),
    }
}

// Whether the line belongs to NIS: it begins with `+` or `-`.
fn is_nis(line: &[u8]) -> bool
    ensures { result ≡ is_nis line.now }
{
    match line.first() {
        Some(byte) => *byte == b'+' || *byte == b'-',
        None => false,
    }
}
