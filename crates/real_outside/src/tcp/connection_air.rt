//! An air over a connection. What it hears and says can't be observed; it counts its faults.

ghost use Rattle.std.specs.Prelude.{◌≡◌, IfOk, is_ok};
ghost use Rattle.px_base.specs.Polling.{IsPolled, turn_of};
ghost use Rattle.px_base.specs.CallRecords.{Asks};
ghost use Rattle.real_outside.specs.Counts.{CountsFirst};
ghost use Rattle.real_outside.specs.Tcp.Connections.{IsShut, Polls, Puts};

use crate::tcp::connection::Connection;
use crate::tcp::steps::{hear, say};
use px_base::{Air, AirDown, FaultCount, Polled};
use std::marker::Model;

/// How far the air over a connection is.
#[derive(Clone, Copy, Debug, PartialEq, Eq)]
pub(crate) enum Stage {
    /// No connection was made yet.
    Unmade,
    /// The connection is there.
    Open,
    /// The modem closed it.
    Ended,
    /// A call of it failed.
    Broken,
}

/// An air over a connection, which it makes at its first call: with no delay of small segments, and with reads that
/// wait 100 milliseconds at most. If no connection can be made, the call fails, and the next one tries again, once;
/// after one was made, no other is. Once the modem has closed it, each further poll answers `End`; octets can still be
/// said, since a modem may close its own side alone. Once a call of it failed, each further call fails, and reaches no
/// connection. Takes no memory.
#[derive(Drop)]
pub struct ConnectionAir<C> {
    connection: C,
    stage: Stage,
    read_faults: FaultCount,
    write_faults: FaultCount,
}

impl<C> Model for ConnectionAir<C> {
    ghost use Rattle.real_outside.specs.Tcp.Connections.{ConnectionAirState};

    ghost Value = { ConnectionAirState C };

    ghost view = { λ a. record {
      connection = a.connection;
      stage = a.stage;
      read_faults = a.read_faults;
      write_faults = a.write_faults;
    } };
}

impl<C: Connection> ConnectionAir<C> {
    /// An air over this connection, which no call has reached yet. Takes no memory.
    pub fn over(connection: C) -> ConnectionAir<C>
        ensures { result ≡ record { connection = connection; stage = Stage.Unmade; read_faults = 0; write_faults = 0 } }
    {
        ConnectionAir {
            connection,
            stage: Stage::Unmade,
            read_faults: FaultCount::new(),
            write_faults: FaultCount::new(),
        }
    }

    /// The connection.
    pub fn connection(&self) -> &C
        ensures { result.now ≡ self.now.connection }
    {
        &self.connection
    }
}

impl<C: Connection> Air for ConnectionAir<C> {
    ghost use Rattle.std.specs.Prelude.{None};

    ghost heard = { λ _. None };

    ghost said = { λ _. None };

    ghost read_faults = { λ a. a.read_faults };

    ghost write_faults = { λ a. a.write_faults };

    /// Reads the connection once, which it makes if there is none yet: `Quiet` if nothing came in 100 milliseconds or a
    /// signal came first, and `End` if the modem has closed it. It fails if the connection can't be made, and if
    /// reading fails otherwise.
    fn poll(&mut self, room: &mut [u8; 512]) -> Result<Polled, AirDown>
        ensures count { IfOk result IsPolled }
        ensures faults { CountsFirst self.old.read_faults self.new.read_faults self.old.write_faults
            self.new.write_faults result }
        ensures asks { Asks (C.calls self.old.connection) (C.calls self.new.connection)
            (Polls self.old.stage (turn_of result room.new) self.new.stage) }
        ensures shut { IsShut self.old.stage → self.new.connection ≡ self.old.connection }
    {
        let polled = hear(&mut self.connection, &mut self.stage, room);
        self.read_faults.count_err(polled)
    }

    /// Writes all of these octets to the connection, which it makes if there is none yet, and flushes it. It fails if
    /// the connection can't be made, and if a write or flushing fails, or a write takes no octet.
    fn put(&mut self, bytes: &[u8]) -> Result<(), AirDown>
        ensures faults { CountsFirst self.old.write_faults self.new.write_faults self.old.read_faults
            self.new.read_faults result }
        ensures asks { Asks (C.calls self.old.connection) (C.calls self.new.connection)
            (Puts self.old.stage bytes.now (is_ok result) self.new.stage) }
        ensures broken { self.old.stage ≡ Stage.Broken → self.new.connection ≡ self.old.connection }
    {
        let said = say(&mut self.connection, &mut self.stage, bytes);
        self.write_faults.count_err(said)
    }
}
