//! A stream in memory: a script of answers, and a record of the calls.

ghost use Rattle.std.specs.Prelude.{◌≡◌, ◌≤◌, ◌∷◌, [], None, length, IfOk};
ghost use Rattle.px_base.specs.Outside.{Grows};
ghost use Rattle.px_base.specs.CallRecords.{no_calls, told};
ghost use Rattle.real_outside.specs.Moves.{Moves};
ghost use Rattle.real_outside.specs.Scripts.{Follows, done_answer, read_answer, write_answer};
ghost use Rattle.real_outside.specs.StreamCalls.{octets_read};

use crate::script::{MemoryAnswer, Script};
use crate::stream::{InputStream, OutputStream, StreamCall};
use crate::system_error::SystemError;
use px_base::{CallRecord, FileBytes, OutOfMemory};
use std::alloc::Global;
use std::marker::Model;

/// A stream in memory, which answers by a script. The calls that reached it can be observed, until one finds no memory
/// to be recorded.
#[derive(Drop)]
pub struct MemoryStream {
    alloc: Global,
    script: Script,
    made: CallRecord<StreamCall>,
}

impl Model for MemoryStream {
    ghost use Rattle.real_outside.specs.Scripts.{Scripted};
    ghost use Rattle.real_outside.specs.declared.stream.StreamCall.{StreamCall};

    ghost Value = { Scripted StreamCall };

    ghost view = { λ a. record { coming = a.script; made = a.made } };
}

impl MemoryStream {
    /// A stream that answers so, call after call. Takes no memory.
    pub fn new(alloc: Global, answers: Vec<MemoryAnswer>) -> MemoryStream
        ensures { result ≡ record { coming = answers.items; made = no_calls } }
    {
        MemoryStream {
            alloc,
            script: Script::new(answers),
            made: CallRecord::new(alloc),
        }
    }

    /// The calls so far, with what they answered.
    pub fn made(&self) -> &CallRecord<StreamCall>
        ensures { result.now ≡ self.now.made }
    {
        &self.made
    }
}

impl InputStream for MemoryStream {
    ghost calls = { λ s. told s.made };

    ghost remaining = { λ _. None };

    /// Gives octets by the script.
    fn read(&mut self, room: &mut [u8]) -> Result<usize, SystemError>
        ensures room { length room.new ≡ length room.old }
        ensures moves { Moves (told self.old.made) (told self.new.made)
            (StreamCall.Read (length room.old) (octets_read result room.new)) (length room.new) result }
        ensures script { Follows self.old.coming self.new.coming (read_answer (length room.old))
            (octets_read result room.new) }
    {
        let answer = self.script.give(room);
        self.made.add(read_call(self.alloc, room, answer));
        answer
    }
}

impl OutputStream for MemoryStream {
    ghost calls = { λ s. told s.made };

    ghost contents = { λ _. None };

    /// Takes octets by the script.
    fn write(&mut self, bytes: &[u8]) -> Result<usize, SystemError>
        ensures moves { Moves (told self.old.made) (told self.new.made) (StreamCall.Write bytes.now result)
            (length bytes.now) result }
        ensures script { Follows self.old.coming self.new.coming (write_answer (length bytes.now)) result }
    {
        let answer = self.script.take(bytes);
        self.made.add(write_call(self.alloc, bytes, answer));
        answer
    }

    /// Answers by the script.
    fn flush(&mut self) -> Result<(), SystemError>
        ensures calls { Grows (told self.old.made) (told self.new.made) (StreamCall.Flush result ∷ []) }
        ensures script { Follows self.old.coming self.new.coming done_answer result }
    {
        let answer = self.script.done();
        self.made.add(Ok(StreamCall::Flush { answer }));
        answer
    }
}

/// The record of a read into this room, with the octets that it gave.
fn read_call(
    alloc: Global,
    room: &[u8],
    answer: Result<usize, SystemError>,
) -> Result<StreamCall, OutOfMemory>
    requires { IfOk answer (λ count. count ≤ length room.now) }
    ensures { IfOk result (λ call. call ≡ StreamCall.Read (length room.now) (octets_read answer room.now)) }
{
    let answer = match answer {
        Ok(count) => Ok(FileBytes::copy_of(alloc, &room[..count])?),
        Err(error) => Err(error),
    };
    Ok(StreamCall::Read {
        count: room.len(),
        answer,
    })
}

/// The record of a write of these octets.
fn write_call(
    alloc: Global,
    bytes: &[u8],
    answer: Result<usize, SystemError>,
) -> Result<StreamCall, OutOfMemory>
    ensures { IfOk result (λ call. call ≡ StreamCall.Write bytes.now answer) }
{
    Ok(StreamCall::Write {
        bytes: FileBytes::copy_of(alloc, bytes)?,
        answer,
    })
}
