//! The answers of a stream or a connection in memory.

ghost use Rattle.std.specs.Prelude.{◌≡◌, ◌≤◌, drop, take, length, IfOk};
ghost use Rattle.real_outside.specs.Scripts.{Follows, done_answer, next_answer, read_answer, write_answer};
ghost use Rattle.real_outside.specs.StreamCalls.{octets_read};

use crate::system_error::SystemError;
use px_base::FileBytes;
use std::collections::VecDeque;
use std::marker::Model;

/// What a stream or a connection in memory answers to its next call, whichever that is. What doesn't fit the call is
/// ignored: a read gives no octet then, a write takes all, and any other call is done. So are the calls after the last
/// answer.
#[derive(Debug, Drop)]
pub enum MemoryAnswer {
    /// The call fails.
    Fails(SystemError),
    /// A read gives the first of these octets, as many as the room has.
    Gives(FileBytes),
    /// A write takes this number of octets, or all if there are fewer.
    Takes(usize),
    /// The call is done.
    Done,
}

/// Answers to come, one for each call.
#[derive(Drop)]
pub struct Script {
    coming: VecDeque<MemoryAnswer>,
}

impl Model for Script {
    ghost use Rattle.std.specs.Prelude.{List};
    ghost use Rattle.real_outside.specs.declared.script.MemoryAnswer.{MemoryAnswer};

    ghost Value = { List MemoryAnswer };

    ghost view = { λ a. a.coming.items };
}

impl Script {
    /// These answers, in order. Takes no memory.
    pub fn new(answers: Vec<MemoryAnswer>) -> Script
        ensures { result ≡ answers.items }
    {
        Script {
            coming: VecDeque::from_vec(answers),
        }
    }

    /// Takes the next answer.
    fn next(&mut self) -> MemoryAnswer
        ensures answer { result ≡ next_answer self.old }
        ensures coming { self.new ≡ drop 1 self.old }
    {
        self.coming.pop_front().unwrap_or(MemoryAnswer::Done)
    }

    /// Takes the next answer of a call that is done or fails.
    pub fn done(&mut self) -> Result<(), SystemError>
        ensures script { Follows self.old self.new done_answer result }
    {
        match self.next() {
            MemoryAnswer::Fails(error) => Err(error),
            _ => Ok(()),
        }
    }

    /// Takes the next answer of a read into this room.
    pub fn give(&mut self, room: &mut [u8]) -> Result<usize, SystemError>
        ensures count { IfOk result (λ count. count ≤ length room.new) }
        ensures room { length room.new ≡ length room.old }
        ensures script { Follows self.old self.new (read_answer (length room.old))
            (octets_read result room.new) }
    {
        match self.next() {
            MemoryAnswer::Fails(error) => Err(error),
            MemoryAnswer::Gives(octets) => Ok(copy_front(octets.as_slice(), room)),
            _ => Ok(0),
        }
    }

    /// Takes the next answer of a write of these octets.
    pub fn take(&mut self, bytes: &[u8]) -> Result<usize, SystemError>
        ensures count { IfOk result (λ count. count ≤ length bytes.now) }
        ensures script { Follows self.old self.new (write_answer (length bytes.now)) result }
    {
        match self.next() {
            MemoryAnswer::Fails(error) => Err(error),
            MemoryAnswer::Takes(count) => Ok(count.min(bytes.len())),
            _ => Ok(bytes.len()),
        }
    }
}

/// Copies the first of these octets to the beginning of `room`, as many as it has, and says how many.
fn copy_front(octets: &[u8], room: &mut [u8]) -> usize
    ensures count { result ≤ length room.new }
    ensures room { length room.new ≡ length room.old }
    ensures copied { take result room.new ≡ take (length room.old) octets.now }
{
    let count = octets.len().min(room.len());
    room[..count].copy_from_slice(&octets[..count]);
    count
}
