// The call that answers the words of a rehearsal.
//
// What is told is the summary, how the mode is called, or that there is no memory. A stream that fails
// has the last word.
ghost use Rattle.std.specs.Prelude.{◌≡◌, List};
ghost use Rattle.account_model.specs.Options.{Word as Spoken};
ghost use Rattle.acct_outside.specs.Faults.{CountsFailure};
ghost use Rattle.acct_outside.specs.Streams.{Puts, WhereBytesTold};
ghost use Rattle.suite_course.specs.Streams.{streams};
ghost use Rattle.rehearsal.specs.Asked.{AsksFor, IsWithinBounds};
ghost use Rattle.rehearsal.specs.Endings.{Ends, PutsLine, status_after};
ghost use Rattle.rehearsal.specs.Summary.{summary_of};

use crate::asked::{Rehearsal, asked_by};
use crate::summary::summary_of;
use acct_outside::{Sink, SinkFault};
use acct_text::Word;
use std::alloc::Global;

/// The status of words that aren't of the form.
const SYNTAX: u8 = 2;

/// The status where there is no memory.
const NO_MEMORY: u8 = 100;

/// The status where a stream failed.
const OUTPUT_FAULT: u8 = 102;

/// Answers the words of a rehearsal, and gives the status.
///
/// For `rehearse SEED COUNT` it carries out COUNT commands on tables in memory, the names in them from
/// SEED on, and sums up on `out` what they left; the status is 0. Other words have status 2, and `err`
/// gets how the mode is called. Without memory the status is 100. Where a stream fails it is 102, and
/// each stream holds a front of its text more.
pub fn rehearse<O: Sink, E: Sink>(alloc: Global, words: &[Word], out: &mut O, err: &mut E) -> u8
    ensures { Ends words.now (streams (O.moment out.old) (E.moment err.old))
        (streams (O.moment out.new) (E.moment err.new)) result }
{
    match asked_by(words) {
        Some(asked) => rehearse_asked(alloc, asked, out, err),
        None => tell(err, b"rehearse: expected SEED and COUNT\n", SYNTAX),
    }
}

// Carries out the rehearsal, and tells its summary, or that there is no memory.
fn rehearse_asked<O: Sink, E: Sink>(alloc: Global, asked: Rehearsal, out: &mut O, err: &mut E) -> u8
    requires { IsWithinBounds asked }
    ensures { (words : List Spoken) → AsksFor words asked →
        Ends words (streams (O.moment out.old) (E.moment err.old))
        (streams (O.moment out.new) (E.moment err.new)) result }
{
    match put_summary(alloc, asked, out) {
        Ok(()) => 0,
        Err(SinkFault::Failed) => OUTPUT_FAULT,
        Err(SinkFault::Memory) => tell(err, b"rehearse: want of memory\n", NO_MEMORY),
    }
}

// Carries out the rehearsal, and puts its summary. At `Memory` there was none for the rehearsal or for
// the sink.
fn put_summary<O: Sink>(alloc: Global, asked: Rehearsal, out: &mut O) -> Result<(), SinkFault>
    requires { IsWithinBounds asked }
    ensures holds { WhereBytesTold (O.moment out.old).holds (O.moment out.new).holds
        (Puts (summary_of asked) result) }
    ensures faults { CountsFailure SinkFault.Failed (O.moment out.old).faults
        (O.moment out.new).faults result }
{
    match summary_of(alloc, asked) {
        Ok(summary) => out.put(summary.as_slice()),
        Err(_) => Err(SinkFault::Memory),
    }
}

// Puts a line, and gives the status: this one, or that of the fault of the sink.
fn tell<E: Sink>(err: &mut E, line: &[u8], status: u8) -> u8
    ensures { PutsLine line.now status (E.moment err.old) (E.moment err.new) result }
{
    let put = err.put(line);
    status_after(put, status)
}

// The status after a line was put, where this one is due.
fn status_after(put: Result<(), SinkFault>, due: u8) -> u8
    ensures { result ≡ status_after put due }
{
    match put {
        Ok(()) => due,
        Err(SinkFault::Failed) => OUTPUT_FAULT,
        Err(SinkFault::Memory) => NO_MEMORY,
    }
}
