//! The connection that an air uses.

ghost use Rattle.std.specs.Prelude.{◌∷◌, [], List, Option, length};
ghost use Rattle.px_base.specs.Outside.{Grows};
ghost use Rattle.real_outside.specs.Moves.{Moves};
ghost use Rattle.real_outside.specs.StreamCalls.{octets_read};
ghost use Rattle.real_outside.specs.declared.tcp.connection.ConnectionCall.{ConnectionCall};

use crate::SystemError;
use px_base::FileBytes;

/// A call that reached a connection, with what it answered.
#[derive(Debug, Drop)]
pub enum ConnectionCall {
    /// It was to be made.
    Connect {
        answer: Result<(), SystemError>,
    },
    /// It was to send what it is given at once.
    NoDelay {
        answer: Result<(), SystemError>,
    },
    /// A read of it was to wait this number of milliseconds at most.
    ReadLimit {
        milliseconds: u64,
        answer: Result<(), SystemError>,
    },
    /// It was asked for at most this number of octets, and gave these.
    Read {
        count: usize,
        answer: Result<FileBytes, SystemError>,
    },
    /// It was given these octets to send, and took this number of them.
    Write {
        bytes: FileBytes,
        answer: Result<usize, SystemError>,
    },
    /// It was to send all that it had taken.
    Flush {
        answer: Result<(), SystemError>,
    },
}

/// A connection to a modem, as TCP gives one: octets both ways, in order. Reading and writing may be short. The calls
/// other than `connect` are of the connection that was made last; if none was, they fail.
///
/// The calls that reached a connection may be observable: those of the form in memory are, those of a real one aren't.
pub trait Connection {
    /// The calls that reached it so far, if they can be observed.
    ghost calls: { Self → Option (List ConnectionCall) };

    /// Makes the connection.
    fn connect(&mut self) -> Result<(), SystemError>
        ensures { Grows (calls self.old) (calls self.new) (ConnectionCall.Connect result ∷ []) };

    /// Has small segments sent at once, and not held back for more octets to go with them.
    fn set_no_delay(&mut self) -> Result<(), SystemError>
        ensures { Grows (calls self.old) (calls self.new) (ConnectionCall.NoDelay result ∷ []) };

    /// Has each read wait this number of milliseconds at most.
    fn set_read_limit(&mut self, milliseconds: u64) -> Result<(), SystemError>
        ensures { Grows (calls self.old) (calls self.new) (ConnectionCall.ReadLimit milliseconds result ∷ []) };

    /// Puts the next octets at the beginning of `room`, and says how many: at most as many as the room has, and none if
    /// the modem has closed the connection. The kinds `WouldBlock`, `TimedOut` and `Interrupted` of an error say that
    /// none came yet.
    fn read(&mut self, room: &mut [u8]) -> Result<usize, SystemError>
        ensures moves { Moves (calls self.old) (calls self.new)
            (ConnectionCall.Read (length room.old) (octets_read result room.new)) (length room.old) result };

    /// Takes the first of these octets to send, and says how many.
    fn write(&mut self, bytes: &[u8]) -> Result<usize, SystemError>
        ensures moves { Moves (calls self.old) (calls self.new) (ConnectionCall.Write bytes.now result)
            (length bytes.now) result };

    /// Sends all that was taken.
    fn flush(&mut self) -> Result<(), SystemError>
        ensures { Grows (calls self.old) (calls self.new) (ConnectionCall.Flush result ∷ []) };
}
