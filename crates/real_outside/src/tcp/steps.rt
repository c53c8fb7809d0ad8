//! What an air over a connection asks of it, call by call.

ghost use Rattle.std.specs.Prelude.{◌≡◌, ◌≤◌, ℕ, List, [], length, IfOk, is_ok};
ghost use Rattle.px_base.specs.Polling.{IsPolled, turn_of};
ghost use Rattle.px_base.specs.CallRecords.{Asks};
ghost use Rattle.real_outside.specs.Tcp.Connections.{Connects, HearsAt, IsPollAnswer, IsShut, IsTaken, LimitsReads};
ghost use Rattle.real_outside.specs.Tcp.Connections.{Opens, Polls, Puts, Readies, SaysAt, Sends, SendsAtOnce};
ghost use Rattle.real_outside.specs.Tcp.Connections.{WritesOnce, is_quiet as is_quiet_kind, stage_after_saying};
ghost use Rattle.real_outside.specs.Tcp.Connections.{stage_after_turn};

use crate::SystemError;
use crate::tcp::connection::Connection;
use crate::tcp::connection_air::Stage;
use px_base::{AirDown, Polled};
use std::io::ErrorKind;

/// The longest time that a read waits, in milliseconds.
const READ_LIMIT: u64 = 100;

/// Polls the connection, which it makes if there is none yet.
pub(crate) fn hear<C: Connection>(
    connection: &mut C,
    stage: &mut Stage,
    room: &mut [u8; 512],
) -> Result<Polled, AirDown>
    ensures count { IfOk result IsPolled }
    ensures asks { Asks (C.calls connection.old) (C.calls connection.new)
        (Polls stage.old (turn_of result room.new) stage.new) }
    ensures shut { IsShut stage.old → connection.new ≡ connection.old }
{
    let ready = make_ready(connection, *stage);
    let polled = hear_at(connection, ready, room);
    *stage = after_hearing(ready, polled);
    polled
}

/// Polls the connection of an air at this stage, if there is one and what it answers isn't known.
fn hear_at<C: Connection>(
    connection: &mut C,
    stage: Stage,
    room: &mut [u8; 512],
) -> Result<Polled, AirDown>
    ensures count { IfOk result IsPolled }
    ensures asks { Asks (C.calls connection.old) (C.calls connection.new) (HearsAt stage (turn_of result room.new)) }
    ensures shut { IsShut stage → connection.new ≡ connection.old }
{
    match stage {
        Stage::Unmade | Stage::Broken => Err(AirDown),
        Stage::Open => hear_once(connection, room),
        Stage::Ended => Ok(Polled::End),
    }
}

/// Reads the connection once.
fn hear_once<C: Connection>(connection: &mut C, room: &mut [u8; 512]) -> Result<Polled, AirDown>
    ensures count { IfOk result IsPolled }
    ensures asks { Asks (C.calls connection.old) (C.calls connection.new)
        (HearsAt Stage.Open (turn_of result room.new)) }
{
    poll_answer(connection.read(room))
}

/// What a poll found, if reading answered so: `Quiet` if nothing came in time or a signal came first, and `End` exactly
/// if it gave no octet.
fn poll_answer(read: Result<usize, SystemError>) -> Result<Polled, AirDown>
    ensures { IsPollAnswer read result }
{
    match read {
        Ok(0) => Ok(Polled::End),
        Ok(count) => Ok(Polled::Bytes(count)),
        Err(failed) if is_quiet(failed.kind) => Ok(Polled::Quiet),
        Err(_) => Err(AirDown),
    }
}

/// Whether a read that failed for this reason says that nothing came in time, or that a signal came first.
fn is_quiet(kind: ErrorKind) -> bool
    ensures { result ≡ is_quiet_kind kind }
{
    matches!(
        kind,
        ErrorKind::WouldBlock | ErrorKind::TimedOut | ErrorKind::Interrupted
    )
}

/// How far an air at this stage is after a poll that found this.
fn after_hearing(stage: Stage, polled: Result<Polled, AirDown>) -> Stage
    ensures { (room : List ℕ) → result ≡ stage_after_turn stage (turn_of polled room) }
{
    match (stage, polled) {
        (Stage::Open, Ok(Polled::End)) => Stage::Ended,
        (Stage::Open, Err(AirDown)) => Stage::Broken,
        (stage, _) => stage,
    }
}

/// Says these octets on the connection, which it makes if there is none yet.
pub(crate) fn say<C: Connection>(
    connection: &mut C,
    stage: &mut Stage,
    bytes: &[u8],
) -> Result<(), AirDown>
    ensures asks { Asks (C.calls connection.old) (C.calls connection.new)
        (Puts stage.old bytes.now (is_ok result) stage.new) }
    ensures broken { stage.old ≡ Stage.Broken → connection.new ≡ connection.old }
{
    let ready = make_ready(connection, *stage);
    let said = say_at(connection, ready, bytes);
    *stage = after_saying(ready, said);
    said
}

/// Says these octets on the connection of an air at this stage, if there is one.
fn say_at<C: Connection>(connection: &mut C, stage: Stage, bytes: &[u8]) -> Result<(), AirDown>
    ensures asks { Asks (C.calls connection.old) (C.calls connection.new) (SaysAt stage bytes.now (is_ok result)) }
    ensures broken { stage ≡ Stage.Broken → connection.new ≡ connection.old }
{
    match stage {
        Stage::Unmade | Stage::Broken => Err(AirDown),
        Stage::Open | Stage::Ended => send(connection, bytes),
    }
}

/// How far an air at this stage is after saying octets, if that answered so.
fn after_saying(stage: Stage, said: Result<(), AirDown>) -> Stage
    ensures { result ≡ stage_after_saying stage (is_ok said) }
{
    match (stage, said) {
        (Stage::Open | Stage::Ended, Err(AirDown)) => Stage::Broken,
        (stage, _) => stage,
    }
}

/// Writes octets to the connection, write by write, and flushes it.
fn send<C: Connection>(connection: &mut C, bytes: &[u8]) -> Result<(), AirDown>
    ensures { Asks (C.calls connection.old) (C.calls connection.new) (Sends bytes.now (is_ok result)) }
{
    let mut written = 0;
    while written < bytes.len() {
        written += write_some(connection, &bytes[written..])?;
    }
    flush(connection)
}

/// Writes at least the first one of these octets, and says how many.
fn write_some<C: Connection>(connection: &mut C, bytes: &[u8]) -> Result<usize, AirDown>
    ensures count { IfOk result (λ count. count ≤ length bytes.now) }
    ensures call { Asks (C.calls connection.old) (C.calls connection.new) (WritesOnce bytes.now result) }
{
    taken_answer(connection.write(bytes))
}

/// How many octets were taken, if writing answered so: none is a fault.
fn taken_answer(written: Result<usize, SystemError>) -> Result<usize, AirDown>
    ensures { IsTaken written result }
{
    match written {
        Ok(0) | Err(_) => Err(AirDown),
        Ok(count) => Ok(count),
    }
}

/// Flushes the connection.
fn flush<C: Connection>(connection: &mut C) -> Result<(), AirDown>
    ensures { Asks (C.calls connection.old) (C.calls connection.new) (Sends [] (is_ok result)) }
{
    connection.flush().map_err(|_| AirDown)
}

/// Makes the connection of an air at this stage if it has none yet, and says how far the air is then.
fn make_ready<C: Connection>(connection: &mut C, stage: Stage) -> Stage
    ensures asks { Asks (C.calls connection.old) (C.calls connection.new) (Readies stage result) }
    ensures stays { IsShut stage → connection.new ≡ connection.old }
    ensures same { IsShut stage → result ≡ stage }
{
    match stage {
        Stage::Unmade => open(connection),
        Stage::Open | Stage::Ended | Stage::Broken => stage,
    }
}

/// Makes the connection, once, and has it send at once and wait for a limited time; and says how far its air is then.
fn open<C: Connection>(connection: &mut C) -> Stage
    ensures { Asks (C.calls connection.old) (C.calls connection.new) (Opens result) }
{
    if !connect(connection) {
        return Stage::Unmade;
    }
    if !send_at_once(connection) {
        return Stage::Broken;
    }
    if !limit_reads(connection) {
        return Stage::Broken;
    }
    Stage::Open
}

/// Makes the connection, and says whether it is there.
fn connect<C: Connection>(connection: &mut C) -> bool
    ensures { Asks (C.calls connection.old) (C.calls connection.new) (Connects result) }
{
    connection.connect().is_ok()
}

/// Has the connection send small segments at once, and says whether it does.
fn send_at_once<C: Connection>(connection: &mut C) -> bool
    ensures { Asks (C.calls connection.old) (C.calls connection.new) (SendsAtOnce result) }
{
    connection.set_no_delay().is_ok()
}

/// Has each read of the connection wait for a limited time, and says whether it does.
fn limit_reads<C: Connection>(connection: &mut C) -> bool
    ensures { Asks (C.calls connection.old) (C.calls connection.new) (LimitsReads result) }
{
    connection.set_read_limit(READ_LIMIT).is_ok()
}
