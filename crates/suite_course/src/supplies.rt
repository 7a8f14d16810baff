// What a command takes beside its words: its input, to the end, and the day; and what it lacks.
ghost use Rattle.std.specs.Prelude.{◌≡◌, ◌≤◌, true, false, [], length, IfErr, IfOk, OnOk};
ghost use Rattle.acct_text.specs.Limits.{last_day, table_limit};
ghost use Rattle.acct_outside.specs.Streams.{WhereBytesTold};
ghost use Rattle.suite_session.specs.Runner.{LinesAsk};
ghost use Rattle.suite_course.specs.Supplies.{AreSupplied, IsOfInput, IsLacking, LacksLine, NotesInput, TakesAll, cause_of_source, reads_input, supplies};

use acct_outside::{Clock, CommitStage, Source, SourceFault};
use acct_text::{Bytes, TABLE_LIMIT};
use option_words::{FaultyLine, Tool};
use std::alloc::Global;
use suite_answers::{Cause, Which};
use suite_session::faulty_line;

/// The most bytes of an input: 16 MiB.
const INPUT_LIMIT: usize = TABLE_LIMIT as usize;

/// What a command takes beside its words.
#[derive(Drop)]
pub(crate) struct Supplied {
    /// Empty for a tool that reads none.
    pub(crate) input: Bytes,
    /// Counted from 1970-01-01, at most 2,932,896 (9999-12-31).
    pub(crate) day: u32,
    ghost within: { length input ≤ table_limit },
    ghost in_time: { day ≤ last_day },
}

/// What a command lacks that doesn't run.
#[derive(Drop)]
pub enum Lack {
    /// It has no input or no day, for this cause.
    Supply(Cause),
    /// This line of a batch asks for nothing.
    Line(FaultyLine),
}

impl From<Cause> for Lack {
    ghost use Rattle.std.specs.Prelude.{◌≡◌};
    ghost use Rattle.suite_course.specs.declared.supplies.Lack.TheVariants.{Supply};

    ghost from_gives = { λ cause lack. lack ≡ Supply cause };

    fn from(cause: Cause) -> Self {
        Lack::Supply(cause)
    }
}

/// Takes the input, for a tool that reads one, sees to it that each line of a batch asks for something,
/// and then asks the clock for the day.
///
/// The error is what the command lacks. After a fault of the source or of the clock neither is called
/// again.
pub(crate) fn supply<S: Source, C: Clock>(
    alloc: Global,
    tool: Tool,
    source: &mut S,
    clock: &mut C,
) -> Result<Supplied, Lack>
    ensures supplied { IfOk result (λ given. AreSupplied tool
        (supplies (S.moment source.old) (C.moment clock.old))
        (supplies (S.moment source.new) (C.moment clock.new)) given.input given.day) }
    ensures lacks { IfErr result (IsLacking tool
        (supplies (S.moment source.old) (C.moment clock.old))
        (supplies (S.moment source.new) (C.moment clock.new))) }
    ensures untouched { reads_input tool ≡ false → source.new ≡ source.old }
{
    let input = input_of(alloc, tool, source)?;
    lines_ask(alloc, tool, &input)?;
    match clock.day() {
        Ok(day) => Ok(Supplied { input, day }),
        Err(_) => Err(Lack::Supply(Cause::ClockFault)),
    }
}

// Sees to it that each line of a batch asks for something. The error is the first line that doesn't,
// or `Memory`.
fn lines_ask(alloc: Global, tool: Tool, input: &Bytes) -> Result<(), Lack>
    requires { length input.now ≤ table_limit }
    ensures ask { OnOk result (LinesAsk tool input.now) }
    ensures lacks { IfErr result (LacksLine tool input.now) }
{
    match faulty_line(alloc, tool, input) {
        Ok(None) => Ok(()),
        Ok(Some(faulty)) => Err(Lack::Line(faulty)),
        Err(_) => Err(Lack::Supply(Cause::Memory(CommitStage::Before))),
    }
}

// The whole input of a tool that reads one; others take nothing, and have an empty one.
fn input_of<S: Source>(alloc: Global, tool: Tool, source: &mut S) -> Result<Bytes, Cause>
    ensures all_input { reads_input tool ≡ true → WhereBytesTold (S.moment source.old).left
        (S.moment source.new).left (TakesAll result) }
    ensures no_input { reads_input tool ≡ false → IfOk result (λ input. input ≡ []) }
    ensures within { IfOk result (λ input. length input ≤ table_limit) }
    ensures lacks { IfErr result (λ cause. (reads_input tool ≡ true) × IsOfInput cause) }
    ensures faults { NotesInput result (S.moment source.old).faults
        (S.moment source.new).faults }
    ensures untouched { reads_input tool ≡ false → source.new ≡ source.old }
{
    if reads_input(tool) {
        take_all(alloc, source)
    } else {
        Ok(Bytes::new(alloc))
    }
}

// Whether the tool reads an input.
fn reads_input(tool: Tool) -> bool
    ensures { result ≡ reads_input tool }
{
    tool.row().input.is_read()
}

// Takes all that the source has left.
//
// It is too large once one byte came beyond the limit. At `InputFault` the last take failed. No more is
// taken after either.
fn take_all<S: Source>(alloc: Global, source: &mut S) -> Result<Bytes, Cause>
    ensures taken { WhereBytesTold (S.moment source.old).left (S.moment source.new).left
        (TakesAll result) }
    ensures within { IfOk result (λ input. length input ≤ table_limit) }
    ensures lacks { IfErr result IsOfInput }
    ensures faults { NotesInput result (S.moment source.old).faults
        (S.moment source.new).faults }
{
    let mut input = Bytes::new(alloc);
    'pieces: while input.as_slice().len() <= INPUT_LIMIT {
        let piece = match source.take(INPUT_LIMIT + 1 - input.as_slice().len()) {
            Ok(piece) => piece,
            Err(fault) => return Err(cause_of_source(fault)),
        };
        if piece.as_slice().is_empty() {
            return Ok(input);
        }
        if input.push(piece.as_slice()).is_err() {
            return Err(Cause::Memory(CommitStage::Before));
        }
    }
    Err(Cause::TooLarge(Which::Input))
}

// The cause of a fault of the source.
fn cause_of_source(fault: SourceFault) -> Cause
    ensures { result ≡ cause_of_source fault }
{
    match fault {
        SourceFault::Failed => Cause::InputFault,
        SourceFault::Memory => Cause::Memory(CommitStage::Before),
    }
}
