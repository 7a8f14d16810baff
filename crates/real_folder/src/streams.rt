// The standard streams of the system.
ghost use Rattle.std.specs.Prelude.{◌≡◌};
ghost use Rattle.real_folder.specs.Untold.{untold_sink, untold_source};

use crate::faults::{Faults, SystemError};
use acct_outside::{Sink, SinkFault, Source, SourceFault};
use acct_text::Bytes;
use std::alloc::Global;
use std::io::{ErrorKind, Read, Write};
use std::{io, mem};

/// How many bytes one read asks for at most.
const PIECE: usize = 4096;

/// A source of what a reader gives, as standard input or a file. It doesn't tell what is left.
#[derive(Drop)]
pub struct RealSource<'a, R: Read + Drop> {
    alloc: Global,
    name: &'a str,
    /// The reader, or why it couldn't be opened: the first read fails by that.
    reader: io::Result<R>,
    faults: Faults,
}

impl<'a, R: Read + Drop> RealSource<'a, R> {
    /// Standard input, of which nothing is read yet.
    pub fn new(alloc: Global, reader: R) -> Self {
        RealSource::of(alloc, "standard input", Ok(reader))
    }

    /// A source with the name that its errors tell, of which nothing is read yet.
    pub fn of(alloc: Global, name: &'a str, reader: io::Result<R>) -> Self {
        RealSource {
            alloc,
            name,
            reader,
            faults: Faults::new(),
        }
    }

    /// Why the system refused the last read, and none where it didn't.
    pub fn last_error(&self) -> Option<&SystemError> {
        self.faults.last.as_ref()
    }
}

impl<'a, R: Read + Drop> Source for RealSource<'a, R> {
    ghost moment = { λ source. untold_source source.faults };

    fn take(&mut self, room: usize) -> Result<Bytes, SourceFault> {
        let mut buffer = [0u8; PIECE];
        let most = room.min(PIECE);
        let read = match &mut self.reader {
            Ok(reader) => reader.read(&mut buffer[..most]),
            Err(e) => Err(mem::replace(e, io::Error::from(ErrorKind::NotFound))),
        };
        let count = match read {
            Ok(count) => count,
            Err(e) => {
                let error = SystemError::new(self.alloc, self.name, e);
                self.faults.note(error);
                return Err(SourceFault::Failed);
            }
        };
        self.faults.pass();
        match Bytes::of(self.alloc, &buffer[..count]) {
            Ok(piece) => Ok(piece),
            Err(_) => Err(SourceFault::Memory),
        }
    }

    fn faults(&self) -> u64 {
        self.faults.count
    }
}

/// A sink to a writer, as standard output. It doesn't tell what it holds.
#[derive(Drop)]
pub struct RealSink<W: Write + Drop> {
    alloc: Global,
    writer: W,
    name: &'static str,
    faults: Faults,
}

impl<W: Write + Drop> RealSink<W> {
    /// A sink that was given nothing yet, with the name that its errors tell.
    pub fn new(alloc: Global, writer: W, name: &'static str) -> Self {
        RealSink {
            alloc,
            writer,
            name,
            faults: Faults::new(),
        }
    }

    /// Why the system last refused a write.
    pub fn last_error(&self) -> Option<&SystemError> {
        self.faults.last.as_ref()
    }
}

impl<W: Write + Drop> Sink for RealSink<W> {
    ghost moment = { λ sink. untold_sink sink.faults.count };

    // A writer that takes nothing of what is left fails too.
    fn put(&mut self, piece: &[u8]) -> Result<(), SinkFault> {
        match self.writer.write_all(piece) {
            Ok(()) => Ok(()),
            Err(e) => {
                let error = SystemError::new(self.alloc, self.name, e);
                self.faults.note(error);
                Err(SinkFault::Failed)
            }
        }
    }

    fn faults(&self) -> u64 {
        self.faults.count
    }
}
