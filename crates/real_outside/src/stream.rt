//! What an air and an output over streams call: a stream of octets that come, and one of octets that go.

ghost use Rattle.std.specs.Prelude.{◌≡◌, ◌∷◌, [], List, Option, length, ℕ};
ghost use Rattle.std.specs.Io.KnownBytes.{Keeps, ReadConsumes, WriteAppends};
ghost use Rattle.px_base.specs.Outside.{Grows};
ghost use Rattle.real_outside.specs.Moves.{Moves};
ghost use Rattle.real_outside.specs.StreamCalls.{octets_read};
ghost use Rattle.real_outside.specs.declared.stream.StreamCall.{StreamCall};

use crate::system_error::SystemError;
use px_base::FileBytes;

/// A call that reached a stream, with what it answered.
#[derive(Debug, Drop)]
pub enum StreamCall {
    /// It was asked for at most this number of octets, and gave these.
    Read {
        count: usize,
        answer: Result<FileBytes, SystemError>,
    },
    /// It was given these octets, and took this number of them.
    Write {
        bytes: FileBytes,
        answer: Result<usize, SystemError>,
    },
    /// It was to hold none back of what it had taken.
    Flush {
        answer: Result<(), SystemError>,
    },
}

/// Octets that come, as those of standard input. A read may be short.
///
/// The calls that reached a stream, and the octets that it has left, may be observable. The calls of the form in memory
/// are; those of a real one aren't.
pub trait InputStream {
    /// The calls that reached it so far, if they can be observed.
    ghost calls: { Self → Option (List StreamCall) };

    /// The octets that it has left, if they can be observed.
    ghost remaining: { Self → Option (List ℕ) };

    /// Puts the next octets at the beginning of `room`, and says how many: at most as many as the room has, and none if
    /// the stream has ended.
    fn read(&mut self, room: &mut [u8]) -> Result<usize, SystemError>
        ensures room { length room.new ≡ length room.old }
        ensures moves { Moves (calls self.old) (calls self.new)
            (StreamCall.Read (length room.old) (octets_read result room.new)) (length room.new) result }
        ensures remaining { ReadConsumes (remaining self.old) (remaining self.new) result room.new };
}

/// Octets that go, as those of standard output. A write may be short.
///
/// The calls that reached a stream, and the octets that it took, may be observable. The calls of the form in memory
/// are; those of a real one aren't.
pub trait OutputStream {
    /// The calls that reached it so far, if they can be observed.
    ghost calls: { Self → Option (List StreamCall) };

    /// The octets that it took, if they can be observed.
    ghost contents: { Self → Option (List ℕ) };

    /// Takes the first of these octets, and says how many.
    fn write(&mut self, bytes: &[u8]) -> Result<usize, SystemError>
        ensures moves { Moves (calls self.old) (calls self.new) (StreamCall.Write bytes.now result)
            (length bytes.now) result }
        ensures contents { WriteAppends (contents self.old) (contents self.new) result bytes.now };

    /// Hands on all that was taken.
    fn flush(&mut self) -> Result<(), SystemError>
        ensures calls { Grows (calls self.old) (calls self.new) (StreamCall.Flush result ∷ []) }
        ensures contents { Keeps (contents self.old) (contents self.new) };
}
