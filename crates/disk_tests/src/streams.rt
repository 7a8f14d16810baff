// The streams of the system, over a text and over room for four bytes.
use crate::texts::{cut, push_answer, push_number, push_text};
use acct_outside::{Sink, Source};
use acct_text::{Bytes, read_decimal};
use real_folder::{RealSink, RealSource};
use std::alloc::{AllocError, Global};
use std::io::Write;

/// Pushes what a source of a text gives for each count of bytes.
pub(crate) fn push_takes(alloc: Global, line: &str, shown: &mut Bytes) -> Result<(), AllocError> {
    let (text, counts) = cut(line);
    let mut source = RealSource::new(alloc, text.as_bytes());
    push_taken(&mut source, counts, shown)
}

fn push_taken<S: Source>(
    source: &mut S,
    counts: &str,
    shown: &mut Bytes,
) -> Result<(), AllocError> {
    for count in counts.split(' ') {
        let count = read_decimal(count.as_bytes(), 4096).unwrap_or(0);
        match source.take(count as usize) {
            Ok(piece) => push_text(shown, b" ", piece.as_slice())?,
            Err(_) => push_answer(shown, "failed")?,
        }
    }
    Ok(())
}

/// Pushes what a sink with room for four bytes answers for each text, and how many it refused.
pub(crate) fn push_puts(alloc: Global, texts: &str, shown: &mut Bytes) -> Result<(), AllocError> {
    let mut room = [0u8; 4];
    let mut sink = RealSink::new(alloc, room.as_mut_slice(), "standard output");
    push_put(alloc, &mut sink, texts, shown)
}

fn push_put<W: Write + Drop>(
    alloc: Global,
    sink: &mut RealSink<W>,
    texts: &str,
    shown: &mut Bytes,
) -> Result<(), AllocError> {
    for text in texts.split(' ') {
        match sink.put(text.as_bytes()) {
            Ok(()) => push_answer(shown, "done")?,
            Err(_) => push_refusal(alloc, sink, shown)?,
        }
    }
    push_number(shown, sink.faults())
}

fn push_refusal<W: Write + Drop>(
    alloc: Global,
    sink: &RealSink<W>,
    shown: &mut Bytes,
) -> Result<(), AllocError> {
    match sink.last_error() {
        Some(error) => push_text(shown, b" failed: ", error.text(alloc)?.as_str().as_bytes()),
        None => push_answer(shown, "failed"),
    }
}
