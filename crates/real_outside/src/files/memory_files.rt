//! Files in memory, which record the calls that reach them.

ghost use Rattle.std.specs.Prelude.{◌≡◌, ◌≤◌, ◌∷◌, [], length, IfOk};
ghost use Rattle.px_base.specs.Outside.{Grows};
ghost use Rattle.px_base.specs.CallRecords.{no_calls, told};
ghost use Rattle.real_outside.specs.Files.{file_answer, octets_read, path_answer, refusal};

use super::file_call::{FileCall, Found};
use super::file_system::FileSystem;
use crate::system_error::SystemError;
use px_base::{CallCounter, CallRecord, FileBytes, OutOfMemory};
use std::alloc::Global;
use std::io::{self, ErrorKind};
use std::marker::Model;

/// Files in memory: each holds as many octets as are asked for, all of them 0, and at each path the same is found.
/// Their calls are numbered together from 1; one whose number is listed fails. The calls can be observed until one
/// finds no memory to be recorded.
#[derive(Drop)]
pub struct MemoryFiles {
    alloc: Global,
    limit: u64,
    found: Found,
    opened: u64,
    counter: CallCounter,
    made: CallRecord<FileCall>,
}

impl Model for MemoryFiles {
    ghost use Rattle.px_base.specs.CallRecords.{CallRecordState};
    ghost use Rattle.real_outside.specs.declared.files.file_call.FileCall.{FileCall};

    ghost Value = { CallRecordState FileCall };

    ghost view = { λ a. a.made };
}

impl MemoryFiles {
    /// Files with this limit on their sizes, at whose paths this is found, and whose calls of these numbers fail. Takes
    /// memory.
    pub fn new(
        alloc: Global,
        limit: u64,
        found: Found,
        failing: &[u64],
    ) -> Result<MemoryFiles, OutOfMemory>
        ensures { IfOk result (λ files. files ≡ no_calls) }
    {
        Ok(MemoryFiles {
            alloc,
            limit,
            found,
            opened: 0,
            counter: CallCounter::new(alloc, failing)?,
            made: CallRecord::new(alloc),
        })
    }

    /// The calls that reached it.
    pub fn made(&self) -> &CallRecord<FileCall>
        ensures { result.now ≡ self.now }
    {
        &self.made
    }

    /// Numbers a call, which answers this; one that is listed fails.
    fn answer<T: Drop>(&mut self, value: T) -> Result<T, SystemError>
        ensures value { IfOk result (λ answer. answer ≡ value) }
        ensures made { self.new ≡ self.old }
    {
        if self.counter.count() {
            return Err(SystemError::from(ErrorKind::Other));
        }
        Ok(value)
    }

    /// The octets of a text, as a call is recorded with them.
    fn octets(&self, text: &str) -> Result<FileBytes, OutOfMemory>
        ensures { IfOk result (λ octets. octets ≡ text.now) }
    {
        FileBytes::copy_of(self.alloc, text.as_bytes())
    }
}

impl FileSystem for MemoryFiles {
    type File = u64;

    type Reader = io::Empty;

    ghost use Rattle.px_base.specs.CallRecords.{told};

    ghost calls = { told };

    ghost number = { λ file. file };

    fn limit(&mut self) -> u64 {
        let answer = self.limit;
        self.made.add(Ok(FileCall::Limit { answer }));
        answer
    }

    /// The number of the file is how many were opened before.
    fn open(&mut self, path: &str) -> Result<u64, SystemError> {
        let answer = self.answer(self.opened);
        self.opened = self.opened.saturating_add(1);
        let made = self
            .octets(path)
            .map(|path| FileCall::Open { path, answer });
        self.made.add(made);
        answer
    }

    fn lock(&mut self, file: &u64) -> Result<(), SystemError> {
        let answer = self.answer(());
        self.made.add(Ok(FileCall::Lock {
            file: *file,
            answer,
        }));
        answer
    }

    fn length(&mut self, file: &u64) -> Result<u64, SystemError> {
        let answer = self.answer(u64::MAX);
        self.made.add(Ok(FileCall::Length {
            file: *file,
            answer,
        }));
        answer
    }

    fn read_at(&mut self, file: &u64, at: u64, room: &mut [u8]) -> Result<usize, SystemError> {
        room.fill(0);
        let answer = self.answer(room.len());
        let made = made_read(self.alloc, *file, at, room, answer);
        self.made.add(made);
        answer
    }

    fn write_at(&mut self, file: &u64, at: u64, bytes: &[u8]) -> Result<usize, SystemError> {
        let answer = self.answer(bytes.len());
        let made = FileBytes::copy_of(self.alloc, bytes).map(|bytes| FileCall::Write {
            file: *file,
            at,
            bytes,
            answer,
        });
        self.made.add(made);
        answer
    }

    fn cut(&mut self, file: &u64) -> Result<(), SystemError> {
        let answer = self.answer(());
        self.made.add(Ok(FileCall::Cut {
            file: *file,
            answer,
        }));
        answer
    }

    fn set_mode(&mut self, file: &u64, mode: u32) -> Result<(), SystemError> {
        let answer = self.answer(());
        self.made.add(Ok(FileCall::SetMode {
            file: *file,
            mode,
            answer,
        }));
        answer
    }

    fn sync(&mut self, file: &u64) -> Result<(), SystemError> {
        let answer = self.answer(());
        self.made.add(Ok(FileCall::Sync {
            file: *file,
            answer,
        }));
        answer
    }

    fn sync_folder(&mut self, path: &str) -> Result<(), SystemError> {
        let answer = self.answer(());
        let made = self
            .octets(path)
            .map(|path| FileCall::SyncFolder { path, answer });
        self.made.add(made);
        answer
    }

    fn look(&mut self, path: &str) -> Result<Found, SystemError> {
        let answer = self.answer(self.found);
        let made = self
            .octets(path)
            .map(|path| FileCall::Look { path, answer });
        self.made.add(made);
        answer
    }

    /// It leads to itself.
    fn resolve(&mut self, alloc: Global, path: &str) -> Result<String, SystemError> {
        let answer = text_of(alloc, path);
        let made = made_resolve(self.alloc, path, &answer);
        self.made.add(made);
        answer
    }

    fn rename(&mut self, file: &u64, held: &u64, from: &str, to: &str) -> Result<(), SystemError> {
        let answer = self.answer(());
        let made = made_rename(self.alloc, *file, *held, from, to, answer);
        self.made.add(made);
        answer
    }

    fn remove(&mut self, path: &str) -> Result<(), SystemError> {
        let answer = self.answer(());
        let made = self
            .octets(path)
            .map(|path| FileCall::Remove { path, answer });
        self.made.add(made);
        answer
    }

    fn pour(&mut self, path: &str, bytes: &[u8]) -> Result<(), SystemError> {
        let answer = self.answer(());
        let made = made_pour(self.alloc, path, bytes, answer);
        self.made.add(made);
        answer
    }

    /// It has no octet.
    fn open_to_read(&mut self, path: &str) -> Result<io::Empty, SystemError> {
        let answer = self.answer(());
        let made = self
            .octets(path)
            .map(|path| FileCall::OpenToRead { path, answer });
        self.made.add(made);
        opened_empty(answer)
    }
}

/// A reader of no octet, if opening it answered so.
fn opened_empty(answer: Result<(), SystemError>) -> Result<io::Empty, SystemError>
    ensures { refusal result ≡ answer }
{
    match answer {
        Ok(()) => Ok(io::empty()),
        Err(error) => Err(error),
    }
}

/// A text with these octets.
fn text_of(alloc: Global, text: &str) -> Result<String, SystemError> {
    let mut copy = String::new(alloc);
    match copy.push_str(text) {
        Ok(()) => Ok(copy),
        Err(_) => Err(SystemError::from(ErrorKind::OutOfMemory)),
    }
}

/// The record of a read into this room, with the octets that it gave.
fn made_read(
    alloc: Global,
    file: u64,
    at: u64,
    room: &[u8],
    answer: Result<usize, SystemError>,
) -> Result<FileCall, OutOfMemory>
    requires { IfOk answer (λ count. count ≤ length room.now) }
    ensures { IfOk result (λ call. call ≡ FileCall.Read file at (length room.now) (octets_read answer room.now)) }
{
    let answer = match answer {
        Ok(count) => Ok(FileBytes::copy_of(alloc, &room[..count])?),
        Err(error) => Err(error),
    };
    Ok(FileCall::Read {
        file,
        at,
        count: room.len(),
        answer,
    })
}

/// The record of where a path leads.
fn made_resolve(
    alloc: Global,
    path: &str,
    answer: &Result<String, SystemError>,
) -> Result<FileCall, OutOfMemory>
    ensures { IfOk result (λ call. call ≡ FileCall.Resolve path.now (path_answer answer.now)) }
{
    let path = FileBytes::copy_of(alloc, path.as_bytes())?;
    let answer = match answer {
        Ok(text) => Ok(FileBytes::copy_of(alloc, text.as_str().as_bytes())?),
        Err(error) => Err(*error),
    };
    Ok(FileCall::Resolve { path, answer })
}

/// The record of a change of a name.
fn made_rename(
    alloc: Global,
    file: u64,
    held: u64,
    from: &str,
    to: &str,
    answer: Result<(), SystemError>,
) -> Result<FileCall, OutOfMemory>
    ensures { IfOk result (λ call. call ≡ FileCall.Rename file held from.now to.now answer) }
{
    Ok(FileCall::Rename {
        file,
        held,
        from: FileBytes::copy_of(alloc, from.as_bytes())?,
        to: FileBytes::copy_of(alloc, to.as_bytes())?,
        answer,
    })
}

/// The record of octets that were poured.
fn made_pour(
    alloc: Global,
    path: &str,
    bytes: &[u8],
    answer: Result<(), SystemError>,
) -> Result<FileCall, OutOfMemory>
    ensures { IfOk result (λ call. call ≡ FileCall.Pour path.now bytes.now answer) }
{
    Ok(FileCall::Pour {
        path: FileBytes::copy_of(alloc, path.as_bytes())?,
        bytes: FileBytes::copy_of(alloc, bytes)?,
        answer,
    })
}
