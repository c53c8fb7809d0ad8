//! A stream as an output. Its content can't be observed; it counts its faults.

ghost use Rattle.std.specs.Prelude.{◌≡◌, None, OnOk, is_ok};
ghost use Rattle.std.specs.Io.KnownBytes.{Appends};
ghost use Rattle.px_base.specs.CallRecords.{Asks};
ghost use Rattle.real_outside.specs.Counts.{Counts};
ghost use Rattle.real_outside.specs.StreamCalls.{WritesAll};

use crate::stream::OutputStream;
use crate::system_stream::SystemStream;
use crate::writing::write_all;
use px_base::{FaultCount, Out, OutDown};
use std::io::Write;
use std::marker::Model;

/// An output over a stream, as standard output or standard error.
#[derive(Drop)]
pub struct StdOut<W> {
    output: W,
    faults: FaultCount,
}

impl<W> Model for StdOut<W> {
    ghost use Rattle.real_outside.specs.Streams.{OutState};

    ghost Value = { OutState W };

    ghost view = { λ a. record { output = a.output; faults = a.faults } };
}

impl<W: Write> StdOut<SystemStream<W>> {
    /// An output that shows on this writer.
    pub fn new(output: W) -> StdOut<SystemStream<W>>
        ensures { result ≡ record { output = output; faults = 0 } }
    {
        StdOut::over(SystemStream::new(output))
    }
}

impl<W: OutputStream> StdOut<W> {
    /// An output that shows on this stream.
    pub fn over(output: W) -> StdOut<W>
        ensures { result ≡ record { output = output; faults = 0 } }
    {
        StdOut {
            output,
            faults: FaultCount::new(),
        }
    }

    /// The stream.
    pub fn output(&self) -> &W
        ensures { result.now ≡ self.now.output }
    {
        &self.output
    }
}

impl<W: OutputStream> Out for StdOut<W> {
    ghost shown = { λ _. None };

    ghost faults = { λ a. a.faults };

    /// Writes all of these octets, and flushes the stream after them. It fails if either does.
    fn put(&mut self, bytes: &[u8]) -> Result<(), OutDown>
        ensures faults { Counts self.old.faults self.new.faults result }
        ensures shows { OnOk result (Appends (W.contents self.old.output) (W.contents self.new.output) bytes.now) }
        ensures asks { Asks (W.calls self.old.output) (W.calls self.new.output) (WritesAll bytes.now (is_ok result)) }
    {
        let written = write_all(&mut self.output, bytes);
        self.faults.count_err(written)
    }
}
