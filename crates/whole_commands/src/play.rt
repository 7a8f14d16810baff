// Commands that are run over a folder in memory, and what they tell and do, as text.
use acct_outside::{Folder, Name};
use acct_text::{Bytes, Tab, Word, push_decimal};
use memory_folder::{MemoryClock, MemoryFolder, MemorySink, MemorySource};
use std::alloc::{AllocError, Global};
use suite_core::{Outcome, run_suite};

/// The day of each command, which is 2024-10-04.
pub(crate) const DAY: u32 = 20000;

/// A stream that fails: the input at its second take, which would show its end, the others at their
/// first call.
#[derive(Clone, Copy, PartialEq, Eq)]
pub enum Failing {
    /// What chpasswd(8), chgpasswd(8) or a batch takes.
    Input,
    /// What gives the day.
    Clock,
    /// Where the output goes.
    Output,
    /// Where the message goes.
    Message,
}

/// What a command reads, what it prints to, and its clock.
pub struct Streams {
    /// What chpasswd(8), chgpasswd(8) or a batch takes.
    pub input: MemorySource,
    /// Where the output goes.
    pub out: MemorySink,
    /// Where the message goes.
    pub err: MemorySink,
    /// What gives the day.
    pub clock: MemoryClock,
}

// One call for all that it has, so that who holds it has few ways through it.
impl Drop for Streams {
    fn drop(self) {
        let Streams {
            input: _,
            out: _,
            err: _,
            clock: _,
        } = self;
    }
}

impl Streams {
    /// An input of this text, streams that hold nothing, and a clock of the day, of which one may fail.
    pub fn new(alloc: Global, input: &[u8], failing: Option<Failing>) -> Result<Self, AllocError> {
        let takes = failing_calls(alloc, failing == Some(Failing::Input), 2)?;
        let days = failing_calls(alloc, failing == Some(Failing::Clock), 1)?;
        let outputs = failing_calls(alloc, failing == Some(Failing::Output), 1)?;
        let messages = failing_calls(alloc, failing == Some(Failing::Message), 1)?;
        Ok(Streams {
            input: MemorySource::new(alloc, Bytes::of(alloc, input)?, takes),
            out: MemorySink::new(alloc, outputs),
            err: MemorySink::new(alloc, messages),
            clock: MemoryClock::new(DAY, days),
        })
    }
}

// This call, where it fails.
fn failing_calls(alloc: Global, fails: bool, call: u64) -> Result<Vec<u64>, AllocError> {
    let mut calls = Vec::new(alloc);
    if fails {
        calls.push(call)?;
    }
    Ok(calls)
}

/// Runs a command on these streams.
pub fn run<F: Folder>(
    alloc: Global,
    folder: &mut F,
    command: &[u8],
    streams: &mut Streams,
) -> Result<Outcome, AllocError> {
    let words = words_of(alloc, command)?;
    Ok(run_suite(
        alloc,
        words.as_slice(),
        folder,
        &mut streams.input,
        &mut streams.out,
        &mut streams.err,
        &mut streams.clock,
    ))
}

/// What a command tells on these streams: its status, a blank, and what it prints on both.
pub(crate) fn told(
    alloc: Global,
    folder: &mut MemoryFolder,
    command: &[u8],
    streams: &mut Streams,
) -> Result<Bytes, AllocError> {
    let status = status_of(alloc, folder, command, streams)?;
    let mut told = Bytes::new(alloc);
    push_decimal(&mut told, u64::from(status))?;
    told.push(b" ")?;
    told.push(streams.out.held().as_slice())?;
    told.push(streams.err.held().as_slice())?;
    Ok(told)
}

// The status of a command on these streams.
fn status_of(
    alloc: Global,
    folder: &mut MemoryFolder,
    command: &[u8],
    streams: &mut Streams,
) -> Result<u8, AllocError> {
    Ok(run(alloc, folder, command, streams)?.status)
}

/// What stands at the name, and empty where nothing does.
pub fn text_at(folder: &MemoryFolder, name: Name) -> &[u8] {
    folder.file(name).map_or(b"", |bytes| bytes.as_slice())
}

/// The words of a command, cut at blanks. What stands between two `'` is one word.
pub fn words_of(alloc: Global, command: &[u8]) -> Result<Vec<Word>, AllocError> {
    let mut words = Vec::new(alloc);
    let mut is_quoted = false;
    for part in command.split(|byte| *byte == b'\'') {
        if is_quoted {
            words.push(Word::of(alloc, part)?)?;
        } else {
            push_words(alloc, &mut words, part)?;
        }
        is_quoted = !is_quoted;
    }
    Ok(words)
}

// Pushes each word of this part of a command.
fn push_words(alloc: Global, words: &mut Vec<Word>, part: &[u8]) -> Result<(), AllocError> {
    for word in part.split(|byte| *byte == b' ') {
        if !word.is_empty() {
            words.push(Word::of(alloc, word)?)?;
        }
    }
    Ok(())
}

/// Each line of the tables, behind the name of its table and a blank.
pub(crate) fn tables(alloc: Global, folder: &MemoryFolder) -> Result<Bytes, AllocError> {
    let mut tables = Bytes::new(alloc);
    for table in &Tab::all() {
        for line in text_at(folder, Name::Table(*table)).split(|byte| *byte == b'\n') {
            if !line.is_empty() {
                tables.push(table.name().as_bytes())?;
                tables.push(b" ")?;
                tables.push(line)?;
                tables.push(b"\n")?;
            }
        }
    }
    Ok(tables)
}

/// Pushes a line for each line of the tables that went, `-passwd LINE`, and that came.
pub(crate) fn push_changes(
    text: &mut Bytes,
    before: &Bytes,
    after: &Bytes,
) -> Result<(), AllocError> {
    push_lines_beside(text, b"-", before, after)?;
    push_lines_beside(text, b"+", after, before)
}

// Pushes, behind a sign, each line that isn't among the others.
fn push_lines_beside(
    done: &mut Bytes,
    sign: &[u8],
    lines: &Bytes,
    others: &Bytes,
) -> Result<(), AllocError> {
    for line in lines.as_slice().split(|byte| *byte == b'\n') {
        if !is_among(line, others) {
            done.push(sign)?;
            done.push(line)?;
            done.push(b"\n")?;
        }
    }
    Ok(())
}

// Whether it is one of the lines.
fn is_among(line: &[u8], lines: &Bytes) -> bool {
    lines
        .as_slice()
        .split(|byte| *byte == b'\n')
        .any(|other| other == line)
}
