//! The program `accounts`: the suite on the folder, the streams and the clock of the system.
//!
//! What is decided is decided below, in `suite_core` and for a rehearsal in `rehearsal`, and what is
//! asked of the system is asked in `real_folder`. Where the system refused something, the line of the
//! fault ends with the reason.
#![tactic(auto)]

mod help;
mod input;
mod open_line;
mod words;

use acct_outside::{Sink, SinkFault};
use acct_text::{Bytes, Word};
use help::{VERSION, plan, text_of, text_of_suite};
use input::named_file;
use open_line::OpenLine;
use real_folder::{RealClock, RealFolder, RealSink, RealSource, SystemError};
use rehearsal::rehearse;
use std::alloc::{AllocError, Global};
use std::fs::File;
use std::io::{ErrorKind, Read, Write};
use std::process;
use std::process::ExitCode;
use std::rt::{Clock, Env, Files};
use suite_core::{Cause, run_suite};
use words::{Request, request_of, teller, words_of};

/// The status where main itself found no memory.
const NO_MEMORY: u8 = 100;

/// The status where a text couldn't be written.
const OUTPUT_FAULT: u8 = 102;

/// The status of words that no tool reads.
const SYNTAX: u8 = 2;

fn main(rt: HostRuntime) -> ExitCode {
    let mut out = RealSink::new(rt.alloc(), rt.stdout(), "standard output");
    let mut err = OpenLine::new(RealSink::new(rt.alloc(), rt.stderr(), "standard error"));
    let status = match words_of(&rt) {
        Ok(words) => {
            let process = process::id(rt.process());
            answer(&rt, process, &words, &mut out, &mut err).unwrap_or(NO_MEMORY)
        }
        Err(e) if e.kind() == ErrorKind::OutOfMemory => NO_MEMORY,
        Err(_) => tell(&mut err, "accounts: word is not UTF-8\n", SYNTAX),
    };
    // The line of a fault whose reason isn't known, or couldn't be told, is open yet.
    ExitCode::from(status_after(err.close(), status))
}

// Answers the words after the program's name, as the process with the number, and gives the status.
fn answer<
    R: Files<File = File> + Input + Clock + Env + AllocGlobal + Clone + Drop,
    O: Write + Drop,
    E: Sink + Drop,
>(
    rt: &R,
    process: u32,
    words: &[Word],
    out: &mut RealSink<O>,
    err: &mut OpenLine<E>,
) -> Result<u8, AllocError> {
    match request_of(words) {
        Request::Help => Ok(tell(out, text_of_suite(), 0)),
        Request::ToolHelp(tool) => Ok(tell(out, text_of(tool), 0)),
        Request::PlanHelp => Ok(tell(out, plan::TEXT, 0)),
        Request::Version => Ok(tell(out, VERSION, 0)),
        Request::Rehearsal => Ok(run_rehearsal(rt.alloc(), words, out, err)),
        Request::Suite => match named_file(rt.alloc(), words)? {
            Some(file) => run_on_file(rt, process, words, &file, out, err),
            None => {
                let input = RealSource::new(rt.alloc(), rt.reader());
                run(rt, process, words, input, out, err)
            }
        },
    }
}

// Writes a text whole, and gives the status; or that of an output fault, where it couldn't.
fn tell<S: Sink>(sink: &mut S, text: &str, status: u8) -> u8 {
    status_after(sink.put(text.as_bytes()), status)
}

// The status that is due after a text was put, or that of an output fault, where it wasn't.
fn status_after(put: Result<(), SinkFault>, due: u8) -> u8 {
    match put {
        Ok(()) => due,
        Err(_) => OUTPUT_FAULT,
    }
}

// Rehearses, and gives the status. After a fault of the output it says why.
fn run_rehearsal<O: Write + Drop, E: Sink + Drop>(
    alloc: Global,
    words: &[Word],
    out: &mut RealSink<O>,
    err: &mut OpenLine<E>,
) -> u8 {
    let status = rehearse(alloc, words, out, err);
    if status == OUTPUT_FAULT {
        tell_why(alloc, err, words, out.last_error());
    }
    status
}

// Runs a command of the suite on this file as its input, and gives its status.
fn run_on_file<
    R: Files<File = File> + Input + Clock + Env + AllocGlobal + Clone + Drop,
    O: Write + Drop,
    E: Sink + Drop,
>(
    rt: &R,
    process: u32,
    words: &[Word],
    file: &Bytes,
    out: &mut RealSink<O>,
    err: &mut OpenLine<E>,
) -> Result<u8, AllocError> {
    // A word is UTF-8, as it came so.
    let path = str::from_utf8(file.as_slice()).unwrap_or("");
    let input = RealSource::of(rt.alloc(), path, File::open(rt, path));
    run(rt, process, words, input, out, err)
}

// Runs a command of the suite on the real objects, and gives its status. After a fault it says why.
fn run<
    R: Files<File = File> + Input + Clock + Env + AllocGlobal + Clone + Drop,
    I: Read + Drop,
    O: Write + Drop,
    E: Sink + Drop,
>(
    rt: &R,
    process: u32,
    words: &[Word],
    mut input: RealSource<'_, I>,
    out: &mut RealSink<O>,
    err: &mut OpenLine<E>,
) -> Result<u8, AllocError> {
    let alloc = rt.alloc();
    let mut folder = RealFolder::new(rt.clone()?, process);
    let mut clock = RealClock::new(rt.clone()?);
    let outcome = run_suite(alloc, words, &mut folder, &mut input, out, err, &mut clock);
    match &outcome.cause {
        Cause::DiskFault(_) => tell_why(alloc, err, words, folder.last_error()),
        Cause::InputFault => tell_why(alloc, err, words, input.last_error()),
        Cause::OutputFault(_) => tell_why(alloc, err, words, out.last_error()),
        Cause::ClockFault => tell_why(alloc, err, words, clock.last_error()),
        _ => {}
    }
    Ok(outcome.status)
}

// Ends the line of the fault with its reason, where one is known and there is memory for it. Where no
// line is open, as after a fault of the output, the reason has one of its own, in the name of the tool.
// The status stays that of the fault.
fn tell_why<S: Sink + Drop>(
    alloc: Global,
    err: &mut OpenLine<S>,
    words: &[Word],
    error: Option<&SystemError>,
) {
    let Some(error) = error else {
        return;
    };
    let start = if err.is_open() { "" } else { teller(words) };
    if let Ok(reason) = error.text(alloc) {
        if let Ok(end) = format!(in alloc; "{start}: {}\n", reason.as_str()) {
            let _ = err.end_by(end.as_str().as_bytes());
        }
    }
}
