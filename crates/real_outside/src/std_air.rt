//! Streams as an air. Their content can't be observed; it counts their faults.

ghost use Rattle.std.specs.Prelude.{◌≡◌, ◌==◌, None, IfOk, IsErr, OnErr, OnOk, if◌then◌else◌, is_ok};
ghost use Rattle.std.specs.Io.KnownBytes.{Appends};
ghost use Rattle.px_base.specs.Polling.{IsPolled, turn_of};
ghost use Rattle.px_base.specs.CallRecords.{Asks};
ghost use Rattle.real_outside.specs.Counts.{CountsFirst};
ghost use Rattle.real_outside.specs.StreamCalls.{HearsOnce, WritesAll};
ghost use Rattle.real_outside.specs.Streams.{HearsFrom};

use crate::std_out::StdOut;
use crate::stream::{InputStream, OutputStream};
use crate::system_error::SystemError;
use crate::system_stream::SystemStream;
use px_base::{Air, AirDown, FaultCount, Out, Polled};
use std::io::{Read, Write};
use std::marker::Model;

/// An air over two streams, as standard input and standard output. It is never quiet, and is closed when the first one
/// ends.
#[derive(Drop)]
pub struct StdAir<R, W> {
    input: R,
    output: StdOut<W>,
    read_faults: FaultCount,
}

impl<R, W> Model for StdAir<R, W> {
    ghost use Rattle.real_outside.specs.Streams.{AirStreams};

    ghost Value = { AirStreams R W };

    ghost view = { λ a. record {
      input = a.input;
      output = a.output.output;
      read_faults = a.read_faults;
      write_faults = a.output.faults;
    } };
}

impl<R: Read, W: Write> StdAir<SystemStream<R>, SystemStream<W>> {
    /// An air that hears what this reader gives, and says to this writer.
    pub fn new(input: R, output: W) -> StdAir<SystemStream<R>, SystemStream<W>>
        ensures { result ≡ record { input = input; output = output; read_faults = 0; write_faults = 0 } }
    {
        StdAir::over(SystemStream::new(input), SystemStream::new(output))
    }
}

impl<R: InputStream, W: OutputStream> StdAir<R, W> {
    /// An air that hears what `input` gives, and says to `output`.
    pub fn over(input: R, output: W) -> StdAir<R, W>
        ensures { result ≡ record { input = input; output = output; read_faults = 0; write_faults = 0 } }
    {
        StdAir {
            input,
            output: StdOut::over(output),
            read_faults: FaultCount::new(),
        }
    }

    /// The stream that it hears.
    pub fn input(&self) -> &R
        ensures { result.now ≡ self.now.input }
    {
        &self.input
    }

    /// The stream that it says to.
    pub fn output(&self) -> &W
        ensures { result.now ≡ self.now.output }
    {
        self.output.output()
    }
}

impl<R: InputStream, W: OutputStream> Air for StdAir<R, W> {
    ghost heard = { λ _. None };

    ghost said = { λ _. None };

    ghost read_faults = { λ a. a.read_faults };

    ghost write_faults = { λ a. a.write_faults };

    /// Hears the next octets of the stream, by one read. It fails if that does, and then takes none.
    fn poll(&mut self, room: &mut [u8; 512]) -> Result<Polled, AirDown>
        ensures count { IfOk result IsPolled }
        ensures faults { CountsFirst self.old.read_faults self.new.read_faults self.old.write_faults
            self.new.write_faults result }
        ensures hears { HearsFrom (R.remaining self.old.input) (R.remaining self.new.input) (turn_of result room.new) }
        ensures output { self.new.output ≡ self.old.output }
        ensures asks { Asks (R.calls self.old.input) (R.calls self.new.input) (HearsOnce (turn_of result room.new)) }
    {
        let polled = hear(&mut self.input, room);
        self.read_faults.count_err(polled)
    }

    /// Writes all of these octets, and flushes the stream after them. It fails if either does.
    fn put(&mut self, bytes: &[u8]) -> Result<(), AirDown>
        ensures faults { CountsFirst self.old.write_faults self.new.write_faults self.old.read_faults
            self.new.read_faults result }
        ensures says { OnOk result (Appends (W.contents self.old.output) (W.contents self.new.output) bytes.now) }
        ensures input { self.new.input ≡ self.old.input }
        ensures asks { Asks (W.calls self.old.output) (W.calls self.new.output) (WritesAll bytes.now (is_ok result)) }
    {
        self.output.put(bytes).map_err(|_| AirDown)
    }
}

/// Reads the stream once.
fn hear<R: InputStream>(input: &mut R, room: &mut [u8; 512]) -> Result<Polled, AirDown>
    ensures count { IfOk result IsPolled }
    ensures hears { HearsFrom (R.remaining input.old) (R.remaining input.new) (turn_of result room.new) }
    ensures asks { Asks (R.calls input.old) (R.calls input.new) (HearsOnce (turn_of result room.new)) }
{
    poll_answer(input.read(room))
}

/// What a poll found, if reading answered so: the end exactly if it gave no octet.
fn poll_answer(read: Result<usize, SystemError>) -> Result<Polled, AirDown>
    ensures ok { IfOk read (λ count. result ≡ Ok (if count == 0 then Polled.End else Polled.Bytes count)) }
    ensures err { OnErr read (IsErr result) }
{
    match read {
        Ok(0) => Ok(Polled::End),
        Ok(count) => Ok(Polled::Bytes(count)),
        Err(_) => Err(AirDown),
    }
}
