//! A device in memory: octets, and a record of its calls.

ghost use Rattle.std.specs.Prelude.{◌≡◌, ◌≤◌, ◌∷◌, [], not, length, IfOk, OnErr, OnOk};
ghost use Rattle.px_base.specs.CallRecords.{told};
ghost use Rattle.px_base.specs.Counter.{IsListed, counter_after_call};
ghost use Rattle.px_base.specs.Outside.{Grows};
ghost use Rattle.real_outside.specs.Files.{octets_read};
ghost use Rattle.real_outside.specs.Moves.{Moves};
ghost use Rattle.real_outside.specs.Disk.MemoryDevices.{IsDeviceRead, IsDeviceWrite, IsPlain, new_device_state};

use super::device::{Device, DeviceCall, DeviceDown};
use crate::system_error::SystemError;
use disk_model::overwrite;
use px_base::{CallCounter, CallRecord, FileBytes, OutOfMemory};
use std::alloc::Global;
use std::io::ErrorKind;
use std::marker::Model;

/// A device in memory, of which one call reads or writes at most a given number of octets. Its calls are numbered
/// together from 1; one whose number is listed fails. A write that finds no memory fails too. No failed call changes an
/// octet.
#[derive(Drop)]
pub struct MemoryDevice {
    alloc: Global,
    octets: Vec<u8>,
    most: usize,
    made: CallRecord<DeviceCall>,
    counter: CallCounter,
}

impl Model for MemoryDevice {
    ghost use Rattle.real_outside.specs.Disk.MemoryDevices.{MemoryDeviceState, device_state};

    ghost Value = { MemoryDeviceState };

    ghost view = { device_state };
}

impl MemoryDevice {
    /// A device with these octets, of which a call moves at most this number, and whose calls of these numbers fail.
    /// Takes memory.
    pub fn new(
        alloc: Global,
        bytes: &[u8],
        most: usize,
        failing: &[u64],
    ) -> Result<MemoryDevice, OutOfMemory>
        ensures { IfOk result (λ device. device ≡ new_device_state bytes.now most failing.now) }
    {
        Ok(MemoryDevice {
            alloc,
            octets: Vec::from_slice(alloc, bytes)?,
            most,
            made: CallRecord::new(alloc),
            counter: CallCounter::new(alloc, failing)?,
        })
    }

    /// Its octets.
    pub fn bytes(&self) -> &[u8]
        ensures { result.now ≡ self.now.octets }
    {
        self.octets.as_slice()
    }

    /// The calls so far, with what they answered, except those that found no memory to be recorded.
    pub fn calls(&self) -> &[DeviceCall]
        ensures { result.now ≡ self.now.made.calls }
    {
        self.made.calls()
    }

    /// Whether its calls can be observed: each so far found the memory to be recorded.
    pub fn is_told(&self) -> bool
        ensures { result ≡ not self.now.made.untold }
    {
        self.made.is_told()
    }

    /// Whether a write found no memory. While it is false, and no call is listed to fail, none fails.
    pub fn starved(&self) -> bool
        ensures { result ≡ self.now.counter.starved }
    {
        self.counter.starved()
    }

    /// Numbers a call, which fails if it is listed.
    fn count(&mut self) -> Result<(), DeviceDown>
        ensures counter { self.new ≡ record self.old { counter = counter_after_call self.old.counter } }
        ensures ok { OnOk result (IsListed self.old.counter → ⊥) }
        ensures err { OnErr result (IsListed self.old.counter) }
    {
        if self.counter.count() {
            return Err(down(ErrorKind::Other));
        }
        Ok(())
    }

    /// Writes the first of these octets, as many as one call moves.
    fn put(&mut self, at: u64, bytes: &[u8]) -> Result<usize, DeviceDown>
        ensures writes { IsDeviceWrite self.old self.new at bytes.now result }
        ensures made { self.new.made ≡ self.old.made }
    {
        self.count()?;
        let count = self.most.min(bytes.len());
        if overwrite(&mut self.octets, at, &bytes[..count]).is_err() {
            self.counter.starve();
            return Err(down(ErrorKind::OutOfMemory));
        }
        Ok(count)
    }

    /// Puts the next octets at the beginning of `room`, as many as one call moves.
    fn get(&mut self, at: u64, room: &mut [u8]) -> Result<usize, DeviceDown>
        ensures reads { IsDeviceRead self.old self.new at room.new result }
        ensures made { self.new.made ≡ self.old.made }
    {
        self.count()?;
        let there = self.octets.as_slice().get(at as usize..).unwrap_or(&[]);
        let count = self.most.min(room.len()).min(there.len());
        room[..count].copy_from_slice(&there[..count]);
        Ok(count)
    }
}

impl Device for MemoryDevice {
    ghost use Rattle.px_base.specs.CallRecords.{told};

    ghost calls = { λ d. told d.made };

    /// The number of octets; a call that is listed fails.
    fn len(&mut self) -> Result<u64, DeviceDown>
        ensures calls { Grows (told self.old.made) (told self.new.made) (DeviceCall.Len result ∷ []) }
        ensures plain { IsPlain self.old self.new result }
        ensures length { IfOk result (λ n. n ≡ length self.old.octets) }
    {
        let answer = self.count().map(|()| self.octets.len() as u64);
        self.made.add(Ok(DeviceCall::Len { answer }));
        answer
    }

    /// Puts the next octets at the beginning of `room`, as many as one call moves; a call that is listed fails.
    fn read(&mut self, at: u64, room: &mut [u8]) -> Result<usize, DeviceDown>
        ensures moves { Moves (told self.old.made) (told self.new.made)
            (DeviceCall.Read at (length room.old) (octets_read result room.new)) (length room.old) result }
        ensures reads { IsDeviceRead self.old self.new at room.new result }
    {
        let answer = self.get(at, room);
        let made = made_read(self.alloc, at, room, answer);
        self.made.add(made);
        answer
    }

    /// Writes the first of these octets, as many as one call moves, over what is there, and past the end; a gap before
    /// them is zeros. A call that is listed, or finds no memory, fails.
    fn write(&mut self, at: u64, bytes: &[u8]) -> Result<usize, DeviceDown>
        ensures moves { Moves (told self.old.made) (told self.new.made) (DeviceCall.Write at bytes.now result)
            (length bytes.now) result }
        ensures writes { IsDeviceWrite self.old self.new at bytes.now result }
    {
        let answer = self.put(at, bytes);
        let made = FileBytes::copy_of(self.alloc, bytes).map(|bytes| DeviceCall::Write {
            at,
            bytes,
            answer,
        });
        self.made.add(made);
        answer
    }

    /// A call that is listed fails.
    fn sync(&mut self) -> Result<(), DeviceDown>
        ensures calls { Grows (told self.old.made) (told self.new.made) (DeviceCall.Sync result ∷ []) }
        ensures plain { IsPlain self.old self.new result }
    {
        let answer = self.count();
        self.made.add(Ok(DeviceCall::Sync { answer }));
        answer
    }
}

/// A fault of this kind.
fn down(kind: ErrorKind) -> DeviceDown {
    DeviceDown::from(SystemError::from(kind))
}

/// The record of a read into this room, with the octets that it gave.
fn made_read(
    alloc: Global,
    at: u64,
    room: &[u8],
    answer: Result<usize, DeviceDown>,
) -> Result<DeviceCall, OutOfMemory>
    requires { IfOk answer (λ count. count ≤ length room.now) }
    ensures { IfOk result (λ call. call ≡ DeviceCall.Read at (length room.now) (octets_read answer room.now)) }
{
    let answer = match answer {
        Ok(count) => Ok(FileBytes::copy_of(alloc, &room[..count])?),
        Err(down) => Err(down),
    };
    Ok(DeviceCall::Read {
        at,
        count: room.len(),
        answer,
    })
}
