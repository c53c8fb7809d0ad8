//! A reader or a writer of the system as a stream. None of its calls can be observed.

ghost use Rattle.std.specs.Prelude.{◌≡◌, None};

use crate::stream::{InputStream, OutputStream};
use crate::system_error::{SystemError, system_answer};
use std::io::{Read, Write};
use std::marker::Model;

/// A reader or a writer, as standard input and standard output, as a stream.
#[derive(Drop)]
pub struct SystemStream<S> {
    stream: S,
}

impl<S> Model for SystemStream<S> {
    ghost Value = { S };

    ghost view = { λ a. a.stream };
}

impl<S> SystemStream<S> {
    /// The stream of this reader or writer.
    pub fn new(stream: S) -> SystemStream<S>
        ensures { result ≡ stream }
    {
        SystemStream { stream }
    }
}

impl<R: Read> InputStream for SystemStream<R> {
    ghost calls = { λ _. None };

    ghost remaining = { λ s. R.remaining s };

    fn read(&mut self, room: &mut [u8]) -> Result<usize, SystemError> {
        system_answer(self.stream.read(room))
    }
}

impl<W: Write> OutputStream for SystemStream<W> {
    ghost calls = { λ _. None };

    ghost contents = { λ s. W.contents s };

    fn write(&mut self, bytes: &[u8]) -> Result<usize, SystemError> {
        system_answer(self.stream.write(bytes))
    }

    fn flush(&mut self) -> Result<(), SystemError> {
        system_answer(self.stream.flush())
    }
}
