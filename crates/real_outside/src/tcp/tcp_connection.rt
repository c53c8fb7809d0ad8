//! A real TCP connection to a modem, and the air over it.

ghost use Rattle.std.specs.Prelude.{◌≡◌, ◌*◌, None, length, option_copied, IfSome, IsErr, IsOk, IsSome};
ghost use Rattle.std.specs.Duration.{as_nanos};
ghost use Rattle.std.specs.Io.KnownBytes.{Keeps, ReadConsumes, WriteAppends};
ghost use Rattle.std.specs.declared.io.ErrorKind.TheVariants as reason;
ghost use Rattle.real_outside.specs.Moves.{Moves};
ghost use Rattle.real_outside.specs.StreamCalls.{octets_read};
ghost use Rattle.real_outside.specs.Tcp.Connections.{told_of};
ghost use Rattle.real_outside.specs.declared.tcp.connection.ConnectionCall.{ConnectionCall};

use crate::system_error::noted;
use crate::tcp::connection::Connection;
use crate::tcp::connection_air::{ConnectionAir, Stage};
use crate::{SystemError, system_answer};
use std::io::{ErrorKind, Read, Write};
use std::net::{Net, OpenStream, TcpStream};
use std::time::Duration;

/// The air of a modem at a host and port: an air over a TCP connection to it. Takes no memory.
pub type TcpAir<'a, R> = ConnectionAir<TcpConnection<'a, R, TcpStream>>;

impl<'a, R: Net<Stream = TcpStream>> ConnectionAir<TcpConnection<'a, R, TcpStream>> {
    /// The air of the modem at this address, a host and a port with a colon between them, to which no connection is
    /// made yet. Takes no memory.
    pub fn new(net: &'a R, address: &'a str) -> TcpAir<'a, R>
        ensures address { result.connection.address.now ≡ address.now }
        ensures stream { result.connection.stream ≡ None }
        ensures stage { result.stage ≡ Stage.Unmade }
        ensures read_faults { result.read_faults ≡ 0 }
        ensures write_faults { result.write_faults ≡ 0 }
    {
        ConnectionAir::over(TcpConnection::new(net, address))
    }
}

/// A TCP connection to a host and port, which has a stream once it was made. None of its calls can be observed; it
/// keeps why the last one failed that did. Takes no memory.
#[derive(Drop)]
pub struct TcpConnection<'a, R, S> {
    net: &'a R,
    address: &'a str,
    stream: Option<S>,
    last_error: Option<SystemError>,
}

impl<'a, R, S> TcpConnection<'a, R, S> {
    /// A connection to this address, a host and a port with a colon between them, which isn't made yet. Takes no
    /// memory.
    pub fn new(net: &'a R, address: &'a str) -> TcpConnection<'a, R, S>
        ensures address { result.address.now ≡ address.now }
        ensures stream { result.stream ≡ None }
    {
        TcpConnection {
            net,
            address,
            stream: None,
            last_error: None,
        }
    }

    /// The stream, once the connection was made.
    pub fn stream(&self) -> Option<&S>
        ensures { option_copied result ≡ self.now.stream }
    {
        self.stream.as_ref()
    }

    /// Why the last call failed that did, if one did.
    pub fn last_error(&self) -> Option<SystemError>
        ensures { result ≡ self.now.last_error }
    {
        self.last_error
    }
}

impl<'a, R: Net<Stream = S>, S: Read + Write + OpenStream + Drop> Connection
    for TcpConnection<'a, R, S> {
    ghost calls = { λ _. None };

    /// Connects to the first address of the host that answers.
    fn connect(&mut self) -> Result<(), SystemError>
        ensures made { IsOk result → IsSome self.new.stream }
        ensures address { self.new.address ≡ self.old.address }
    {
        let stream = system_answer(TcpStream::connect(self.net, self.address));
        self.stream = Some(noted(&mut self.last_error, stream)?);
        Ok(())
    }

    /// Sets the stream's option.
    fn set_no_delay(&mut self) -> Result<(), SystemError>
        ensures unmade { self.old.stream ≡ None → IsErr result }
    {
        match &self.stream {
            Some(stream) => system_answer(stream.set_nodelay(true)),
            None => Err(not_made()),
        }
    }

    /// Sets the stream's limit of time for reads; one of 0 milliseconds fails.
    fn set_read_limit(&mut self, milliseconds: u64) -> Result<(), SystemError>
        ensures unmade { self.old.stream ≡ None → IsErr result }
    {
        match &self.stream {
            Some(stream) => system_answer(stream.set_read_timeout(time_of(milliseconds))),
            None => Err(not_made()),
        }
    }

    /// Reads the stream once.
    fn read(&mut self, room: &mut [u8]) -> Result<usize, SystemError>
        ensures unmade { self.old.stream ≡ None → IsErr result }
        ensures moves { Moves None None (ConnectionCall.Read (length room.old) (octets_read result room.new))
            (length room.old) result }
        ensures octets { ReadConsumes (told_of S.remaining self.old.stream) (told_of S.remaining self.new.stream)
            result room.new }
    {
        let answer = match &mut self.stream {
            Some(stream) => system_answer(stream.read(room)),
            None => Err(not_made()),
        };
        noted(&mut self.last_error, answer)
    }

    /// Writes to the stream once.
    fn write(&mut self, bytes: &[u8]) -> Result<usize, SystemError>
        ensures unmade { self.old.stream ≡ None → IsErr result }
        ensures moves { Moves None None (ConnectionCall.Write bytes.now result) (length bytes.now) result }
        ensures octets { WriteAppends (told_of S.contents self.old.stream) (told_of S.contents self.new.stream)
            result bytes.now }
    {
        let answer = match &mut self.stream {
            Some(stream) => system_answer(stream.write(bytes)),
            None => Err(not_made()),
        };
        noted(&mut self.last_error, answer)
    }

    /// Flushes the stream, which holds nothing back.
    fn flush(&mut self) -> Result<(), SystemError>
        ensures unmade { self.old.stream ≡ None → IsErr result }
        ensures octets { Keeps (told_of S.contents self.old.stream) (told_of S.contents self.new.stream) }
    {
        match &mut self.stream {
            Some(stream) => system_answer(stream.flush()),
            None => Err(not_made()),
        }
    }
}

/// The error of a call of a connection that isn't made.
fn not_made() -> SystemError
    ensures { result ≡ record { kind = reason.NotConnected; number = None } }
{
    SystemError::from(ErrorKind::NotConnected)
}

/// This number of milliseconds, as a limit of time.
fn time_of(milliseconds: u64) -> Option<Duration>
    ensures some { IsSome result }
    ensures time { IfSome result (λ time. as_nanos time ≡ milliseconds * 1_000_000) }
{
    Some(Duration::from_millis(milliseconds))
}
