//! The air: what comes from a modem and goes to it.

ghost use Rattle.std.specs.Prelude.{◌≡◌, ℕ, List, Option, IfOk, OnOk, OnErr};
ghost use Rattle.px_base.specs.declared.air.Turn.{Turn};
ghost use Rattle.px_base.specs.Outside.{Gains, GainsPrefix, HasCause};
ghost use Rattle.px_base.specs.Polling.{Hears, IsPolled, turn_of};

use crate::FileBytes;
use thiserror::Error;

/// The most octets that one poll hears.
pub const ROOM: usize = 512;

/// What a poll found.
#[derive(Clone, Copy, Debug, PartialEq, Eq)]
pub enum Polled {
    /// So many octets were heard, 1 to 512: the first ones of the room.
    Bytes(usize),
    /// Nothing came within the air's own limit of time.
    Quiet,
    /// The air is closed.
    End,
}

/// One answer of an air, with the octets that it brought.
#[derive(Debug, Drop)]
pub enum Turn {
    /// Octets were heard.
    Bytes(FileBytes),
    /// Nothing came.
    Quiet,
    /// The poll failed.
    Fail,
    /// The air is closed.
    End,
}

/// A call of an air failed, and its count of faults rose.
#[derive(Clone, Copy, Debug, PartialEq, Eq, Error)]
#[error("the air is down")]
pub struct AirDown;

/// The connection to a modem, in octets both ways.
///
/// An air may tell what was heard and said on it; forms in memory do, real ones don't. It counts its faults,
/// up to 2^64 - 1, and answers `AirDown` only where the count rose in that call.
pub trait Air {
    /// The answers of the polls so far, where they are told.
    ghost heard: { Self → Option (List Turn) };

    /// The octets said so far, where they are told.
    ghost said: { Self → Option (List ℕ) };

    /// How often a poll failed.
    ghost read_faults: { Self → ℕ };

    /// How often saying octets failed.
    ghost write_faults: { Self → ℕ };

    /// Hears what came: the first octets of the room, at most 512.
    fn poll(&mut self, room: &mut [u8; 512]) -> Result<Polled, AirDown>
        ensures count { IfOk result IsPolled }
        ensures heard { Hears (heard self.old) (heard self.new) (turn_of result room.new) }
        ensures said { said self.new ≡ said self.old }
        ensures read_faults { HasCause (read_faults self.old) (read_faults self.new) result }
        ensures write_faults { write_faults self.new ≡ write_faults self.old };

    /// Says all of these octets; after a fault some prefix of them was said.
    fn put(&mut self, bytes: &[u8]) -> Result<(), AirDown>
        ensures ok { OnOk result (Gains (said self.old) (said self.new) bytes.now) }
        ensures err { OnErr result (GainsPrefix (said self.old) (said self.new) bytes.now) }
        ensures heard { heard self.new ≡ heard self.old }
        ensures write_faults { HasCause (write_faults self.old) (write_faults self.new) result }
        ensures read_faults { read_faults self.new ≡ read_faults self.old };
}
