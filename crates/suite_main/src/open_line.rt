// The error stream, on which the line of a fault stays open until its reason is known, so that both
// stand in one line (docs/OPERATING.md, "Faults").
ghost use Rattle.std.specs.Prelude.{◌≡◌, ◌++◌, [], ◌∷◌, false, IfSome, OnOk};
ghost use Rattle.acct_text.specs.Bytes.{newline};
ghost use Rattle.acct_outside.specs.Faults.{CountsFailure};
ghost use Rattle.acct_outside.specs.Streams.{Puts, WhereBytesTold};
ghost use Rattle.real_folder.specs.Untold.{untold_sink};
ghost use Rattle.suite_main.specs.OpenLine.{PassesOn};

use acct_outside::{Sink, SinkFault};

/// How the line of a fault ends that the system has a reason for: of the folder, the input or the
/// clock.
const FAULT: &[u8] = b" fault";

/// A sink to another one. Of the line of a fault it keeps the newline, which goes out with the reason,
/// before what comes next, or by `close`. It doesn't tell what it holds.
#[derive(Drop)]
pub(crate) struct OpenLine<S: Sink + Drop> {
    sink: S,
    /// Whether the last line lacks its newline.
    is_open: bool,
}

impl<S: Sink + Drop> OpenLine<S> {
    /// A sink that was given nothing yet.
    pub(crate) fn new(sink: S) -> Self
        ensures { result.is_open ≡ false }
    {
        OpenLine {
            sink,
            is_open: false,
        }
    }

    /// Whether the last line lacks its newline.
    pub(crate) fn is_open(&self) -> bool
        ensures { result ≡ self.now.is_open }
    {
        self.is_open
    }

    /// Puts the end of the line, with its newline. At a fault the line is as open as before.
    pub(crate) fn end_by(&mut self, end: &[u8]) -> Result<(), SinkFault>
        ensures holds { WhereBytesTold (S.moment self.old.sink).holds (S.moment self.new.sink).holds
            (Puts end.now result) }
        ensures ended { OnOk result (self.new.is_open ≡ false) }
        ensures faults { CountsFailure SinkFault.Failed (S.moment self.old.sink).faults
            (S.moment self.new.sink).faults result }
    {
        self.sink.put(end)?;
        self.is_open = false;
        Ok(())
    }

    /// Puts the newline of an open line. At a fault the line is as open as before.
    pub(crate) fn close(&mut self) -> Result<(), SinkFault>
        ensures passes { OnOk result (WhereBytesTold (S.moment self.old.sink).holds
            (S.moment self.new.sink).holds (PassesOn self.old.is_open false [])) }
        ensures closed { OnOk result (self.new.is_open ≡ false) }
        ensures faults { CountsFailure SinkFault.Failed (S.moment self.old.sink).faults
            (S.moment self.new.sink).faults result }
    {
        if self.is_open {
            return self.end_by(b"\n");
        }
        Ok(())
    }
}

impl<S: Sink + Drop> Sink for OpenLine<S> {
    ghost use Rattle.real_folder.specs.Untold.{untold_sink};

    ghost moment = { λ line. untold_sink (S.moment line.sink).faults };

    // A line that came before is closed first. At a fault of that, nothing of the piece went out.
    fn put(&mut self, piece: &[u8]) -> Result<(), SinkFault>
        ensures passes { OnOk result (WhereBytesTold (S.moment self.old.sink).holds
            (S.moment self.new.sink).holds (PassesOn self.old.is_open self.new.is_open piece.now)) }
        ensures faults { CountsFailure SinkFault.Failed (S.moment self.old.sink).faults
            (S.moment self.new.sink).faults result }
    {
        self.close()?;
        match fault_line(piece) {
            Some(line) => {
                self.sink.put(line)?;
                self.is_open = true;
                Ok(())
            }
            None => self.sink.put(piece),
        }
    }

    fn faults(&self) -> u64 {
        self.sink.faults()
    }
}

// The piece without its newline, where it ends the line of a fault.
fn fault_line(piece: &[u8]) -> Option<&[u8]>
    ensures { IfSome result (λ line. piece.now ≡ line.now ++ newline ∷ []) }
{
    match piece.split_last() {
        Some((b'\n', line)) if line.ends_with(FAULT) => Some(line),
        _ => None,
    }
}
