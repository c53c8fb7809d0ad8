//! A connection in memory: a script of answers, and a record of the calls.

ghost use Rattle.std.specs.Prelude.{◌≡◌, ◌≤◌, ◌∷◌, [], length, IfOk};
ghost use Rattle.px_base.specs.Outside.{Grows};
ghost use Rattle.px_base.specs.CallRecords.{no_calls, told};
ghost use Rattle.real_outside.specs.Moves.{Moves};
ghost use Rattle.real_outside.specs.Scripts.{Follows, done_answer, read_answer, write_answer};
ghost use Rattle.real_outside.specs.StreamCalls.{octets_read};

use crate::tcp::connection::{Connection, ConnectionCall};
use crate::{MemoryAnswer, Script, SystemError};
use px_base::{CallRecord, FileBytes, OutOfMemory};
use std::alloc::Global;
use std::marker::Model;

/// A connection in memory, which answers by a script. The calls that reached it can be observed, until one finds no
/// memory to be recorded.
#[derive(Drop)]
pub struct MemoryConnection {
    alloc: Global,
    script: Script,
    made: CallRecord<ConnectionCall>,
}

impl Model for MemoryConnection {
    ghost use Rattle.real_outside.specs.Scripts.{Scripted};
    ghost use Rattle.real_outside.specs.declared.tcp.connection.ConnectionCall.{ConnectionCall};

    ghost Value = { Scripted ConnectionCall };

    ghost view = { λ a. record { coming = a.script; made = a.made } };
}

impl MemoryConnection {
    /// A connection that answers so, call after call. Takes no memory.
    pub fn new(alloc: Global, answers: Vec<MemoryAnswer>) -> MemoryConnection
        ensures { result ≡ record { coming = answers.items; made = no_calls } }
    {
        MemoryConnection {
            alloc,
            script: Script::new(answers),
            made: CallRecord::new(alloc),
        }
    }

    /// The calls so far, with what they answered.
    pub fn made(&self) -> &CallRecord<ConnectionCall>
        ensures { result.now ≡ self.now.made }
    {
        &self.made
    }
}

impl Connection for MemoryConnection {
    ghost calls = { λ c. told c.made };

    /// Answers by the script.
    fn connect(&mut self) -> Result<(), SystemError>
        ensures calls { Grows (told self.old.made) (told self.new.made) (ConnectionCall.Connect result ∷ []) }
        ensures script { Follows self.old.coming self.new.coming done_answer result }
    {
        let answer = self.script.done();
        self.made.add(Ok(ConnectionCall::Connect { answer }));
        answer
    }

    /// Answers by the script.
    fn set_no_delay(&mut self) -> Result<(), SystemError>
        ensures calls { Grows (told self.old.made) (told self.new.made) (ConnectionCall.NoDelay result ∷ []) }
        ensures script { Follows self.old.coming self.new.coming done_answer result }
    {
        let answer = self.script.done();
        self.made.add(Ok(ConnectionCall::NoDelay { answer }));
        answer
    }

    /// Answers by the script.
    fn set_read_limit(&mut self, milliseconds: u64) -> Result<(), SystemError>
        ensures calls { Grows (told self.old.made) (told self.new.made)
            (ConnectionCall.ReadLimit milliseconds result ∷ []) }
        ensures script { Follows self.old.coming self.new.coming done_answer result }
    {
        let answer = self.script.done();
        self.made.add(Ok(ConnectionCall::ReadLimit {
            milliseconds,
            answer,
        }));
        answer
    }

    /// Gives octets by the script.
    fn read(&mut self, room: &mut [u8]) -> Result<usize, SystemError>
        ensures moves { Moves (told self.old.made) (told self.new.made)
            (ConnectionCall.Read (length room.old) (octets_read result room.new)) (length room.old) result }
        ensures script { Follows self.old.coming self.new.coming (read_answer (length room.old))
            (octets_read result room.new) }
    {
        let answer = self.script.give(room);
        self.made.add(read_call(self.alloc, room, answer));
        answer
    }

    /// Takes octets by the script.
    fn write(&mut self, bytes: &[u8]) -> Result<usize, SystemError>
        ensures moves { Moves (told self.old.made) (told self.new.made) (ConnectionCall.Write bytes.now result)
            (length bytes.now) result }
        ensures script { Follows self.old.coming self.new.coming (write_answer (length bytes.now)) result }
    {
        let answer = self.script.take(bytes);
        self.made.add(write_call(self.alloc, bytes, answer));
        answer
    }

    /// Answers by the script.
    fn flush(&mut self) -> Result<(), SystemError>
        ensures calls { Grows (told self.old.made) (told self.new.made) (ConnectionCall.Flush result ∷ []) }
        ensures script { Follows self.old.coming self.new.coming done_answer result }
    {
        let answer = self.script.done();
        self.made.add(Ok(ConnectionCall::Flush { answer }));
        answer
    }
}

/// The record of a read into this room, with the octets that it gave.
fn read_call(
    alloc: Global,
    room: &[u8],
    answer: Result<usize, SystemError>,
) -> Result<ConnectionCall, OutOfMemory>
    requires { IfOk answer (λ count. count ≤ length room.now) }
    ensures { IfOk result (λ call. call ≡ ConnectionCall.Read (length room.now) (octets_read answer room.now)) }
{
    let answer = match answer {
        Ok(count) => Ok(FileBytes::copy_of(alloc, &room[..count])?),
        Err(error) => Err(error),
    };
    Ok(ConnectionCall::Read {
        count: room.len(),
        answer,
    })
}

/// The record of a write of these octets.
fn write_call(
    alloc: Global,
    bytes: &[u8],
    answer: Result<usize, SystemError>,
) -> Result<ConnectionCall, OutOfMemory>
    ensures { IfOk result (λ call. call ≡ ConnectionCall.Write bytes.now answer) }
{
    Ok(ConnectionCall::Write {
        bytes: FileBytes::copy_of(alloc, bytes)?,
        answer,
    })
}
