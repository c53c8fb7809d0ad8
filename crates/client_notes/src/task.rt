//! A task, and the files of which octets were got.

ghost use Rattle.std.specs.Prelude.{◌≡◌, ◌+◌, ◌≤◌, length, IfOk, OnOk, OnErr};
ghost use Rattle.client_notes.specs.Applied.{cut_to};
ghost use Rattle.client_notes.specs.Command.{got_file, new_task, with_octets};
ghost use Rattle.client_notes.specs.Limits.{longest_file};
ghost use Rattle.client_notes.specs.Notes.{is_file_of, is_of_file, is_task_for, told_got};
ghost use Rattle.client_notes.specs.declared.progress.Progress.TheVariants as progress;

use crate::limits::LONGEST_FILE;
use crate::{Got, Progress};
use arrayvec::ArrayVec;
use px_base::{Call, FileNumber, OutOfMemory};
use std::alloc::Global;
use std::marker::Model;

/// A task. Contracts see it as a `Task` of the notes.
#[derive(Drop)]
pub(crate) struct StoredTask {
    server: Call,
    caller: Call,
    name: ArrayVec<u8, 64>,
    length: u32,
    digest: [u8; 32],
    number: FileNumber,
    progress: Progress,
}

impl Model for StoredTask {
    ghost use Rattle.client_notes.specs.Notes.{Task};

    ghost Value = { Task };

    ghost view = { λ a. record {
      server = a.server;
      caller = a.caller;
      name = a.name.items;
      length = a.length;
      digest = a.digest;
      number = a.number;
      progress = a.progress;
    } };
}

impl StoredTask {
    /// A task that was just begun. The name has at most 64 octets, the digest 32. Takes no memory.
    pub(crate) fn new(
        server: Call,
        caller: Call,
        name: &[u8],
        file_length: u32,
        digest: &[u8],
    ) -> StoredTask
        requires name { length name.now ≤ 64 }
        requires digest { length digest.now ≡ 32 }
        ensures { result ≡ new_task server caller name.now file_length digest.now }
    {
        let mut octets = [0; 32];
        octets.copy_from_slice(digest);
        let mut kept = ArrayVec::new();
        kept.try_extend_from_slice(name).unwrap();
        StoredTask {
            server,
            caller,
            name: kept,
            length: file_length,
            digest: octets,
            number: FileNumber::new(0),
            progress: Progress::Going,
        }
    }

    /// Whether it is of this server, caller and name.
    pub(crate) fn is_for(&self, server: Call, caller: Call, name: &[u8]) -> bool
        ensures { result ≡ is_task_for server caller name.now self.now }
    {
        self.server == server && self.caller == caller && self.name.as_slice() == name
    }

    /// Whether its file has this length and digest.
    pub(crate) fn is_of_file(&self, file_length: u32, digest: &[u8; 32]) -> bool
        ensures { result ≡ is_of_file file_length digest.now self.now }
    {
        self.length == file_length && self.digest == *digest
    }

    /// The length of its file.
    pub(crate) fn file_length(&self) -> u32
        ensures { result ≡ self.now.length }
    {
        self.length
    }

    /// The digest of its file.
    pub(crate) fn digest(&self) -> [u8; 32]
        ensures { result ≡ self.now.digest }
    {
        self.digest
    }

    /// Its number on the server, or 0.
    pub(crate) fn number(&self) -> FileNumber
        ensures { result ≡ self.now.number }
    {
        self.number
    }

    /// How far it has come.
    pub(crate) fn progress(&self) -> Progress
        ensures { result ≡ self.now.progress }
    {
        self.progress
    }

    /// It has this number on the server.
    pub(crate) fn set_number(&mut self, number: FileNumber)
        ensures { self.new ≡ record self.old { number = number } }
    {
        self.number = number;
    }

    /// It has come so far.
    pub(crate) fn set_progress(&mut self, progress: Progress)
        ensures { self.new ≡ record self.old { progress = progress } }
    {
        self.progress = progress;
    }
}

/// The octets got of a file, at most 4,194,304. Contracts see it as a `GotFile` of the notes.
#[derive(Drop)]
pub(crate) struct StoredGot {
    server: Call,
    number: FileNumber,
    octets: Vec<u8>,
}

impl Model for StoredGot {
    ghost use Rattle.std.specs.Prelude.{length, ◌≤◌};
    ghost use Rattle.client_notes.specs.Notes.{GotFile};
    ghost use Rattle.client_notes.specs.Limits.{longest_file};

    ghost Value = { GotFile };

    ghost view = { λ a. record { server = a.server; number = a.number; octets = a.octets.items } };

    ghost invariant = { λ a. length a.octets.items ≤ longest_file };
}

impl StoredGot {
    /// A file with these octets. Takes memory.
    pub(crate) fn copy_of(
        alloc: Global,
        server: Call,
        number: FileNumber,
        octets: &[u8],
    ) -> Result<StoredGot, OutOfMemory>
        requires { length octets.now ≤ longest_file }
        ensures { IfOk result (λ file. file ≡ got_file server number octets.now) }
    {
        Ok(StoredGot {
            server,
            number,
            octets: Vec::from_slice(alloc, octets)?,
        })
    }

    /// Whether it is the file of this number of this server.
    pub(crate) fn is_of(&self, server: Call, number: FileNumber) -> bool
        ensures { result ≡ is_file_of server number self.now }
    {
        self.server == server && self.number == number
    }

    /// The octets.
    pub(crate) fn octets(&self) -> &[u8]
        ensures octets { result.now ≡ self.now.octets }
        ensures fits { length result.now ≤ longest_file }
    {
        self.octets.as_slice()
    }

    /// What is told of it.
    pub(crate) fn told(&self) -> Got
        ensures { result ≡ told_got self.now }
    {
        Got {
            server: self.server,
            number: self.number,
            length: self.octets.len() as u32,
        }
    }

    /// Puts octets behind the others, or changes nothing where there is no memory. Takes memory.
    pub(crate) fn append(&mut self, octets: &[u8]) -> Result<(), OutOfMemory>
        requires { length self.old.octets + length octets.now ≤ longest_file }
        ensures ok { OnOk result (self.new ≡ with_octets octets.now self.old) }
        ensures err { OnErr result (self.new ≡ self.old) }
    {
        self.octets.extend_from_slice(octets)?;
        Ok(())
    }

    /// Keeps the first octets alone.
    pub(crate) fn cut_to(&mut self, len: usize)
        ensures { self.new ≡ cut_to len self.old }
    {
        self.octets.truncate(len);
    }
}
