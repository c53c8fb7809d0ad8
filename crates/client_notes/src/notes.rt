//! The notes of a client.

ghost use Rattle.std.specs.Prelude.{◌≡◌, ◌⊎◌, ◌+◌, ◌≤◌, ◌<◌, length, true, IsTrue, IsErr, IfOk};
ghost use Rattle.disk_model.specs.Disk.{FillsRoom};
ghost use Rattle.client_notes.specs.Answers.{Noting, StartsBy, answer_of, fresh_task, noted_at, noted_of};
ghost use Rattle.client_notes.specs.Answers.{start_reaches};
ghost use Rattle.client_notes.specs.Command.{acked, forgot, got, is_allowed, numbered, refused};
ghost use Rattle.client_notes.specs.Commands.{command_value};
ghost use Rattle.client_notes.specs.Limits.{longest_file, most_tasks};
ghost use Rattle.client_notes.specs.Notes.{got_file_at, got_of, task_count};
ghost use Rattle.client_notes.specs.OnDisk.{Answers, Does, Untouched};
ghost use Rattle.client_notes.specs.Noting.{takes_none};
ghost use Rattle.client_notes.specs.Records.{IsWritable, notes_magic};
ghost use Rattle.client_notes.specs.Recovery.{AnswersRecovery, IsRecovered};
ghost use Rattle.client_notes.specs.State.{IsRead, StandsOn};
ghost use Rattle.file_journal.specs.Recovery.{RecoversInCalls};
ghost use Rattle.file_journal.specs.declared.layout.Layout.TheVariants as Layout;

use crate::changes::{Brought, Direct};
use crate::command::Command;
use crate::limits::{LONGEST_FILE, MOST_TASKS};
use crate::lists::Lists;
use crate::noted_lists::NotedLists;
use crate::task::StoredTask;
use crate::{Begun, Got, Noted, NotesRefusal, StoreFault, TaskNumber};
use disk_model::Disk;
use file_journal::{JournalFault, Kept};
use px_base::{Call, FileNumber};
use std::alloc::Global;
use std::marker::Model;

/// The block number with which the notes' disk is formatted.
const BLOCKS: u32 = 1;

/// The notes of a client, and where their commands stand on a disk, which they don't hold. Contracts see them as a
/// `NotesState`. All tasks and all got octets are kept in memory.
#[derive(Drop)]
pub struct Notes {
    kept: Kept<NotedLists>,
}

impl Model for Notes {
    ghost use Rattle.std.specs.Prelude.{◌≡◌};
    ghost use Rattle.client_notes.specs.State.{NotesState, IsRead};
    ghost use Rattle.client_notes.specs.declared.noted_lists.Coming.TheVariants as coming;

    ghost Value = { NotesState };

    ghost view = { λ a. record { lists = a.kept.ledger.lists; journal = a.kept.journal } };

    ghost invariant = { λ a. IsRead a.kept.journal × (a.kept.ledger.coming ≡ coming.Nothing) };
}

impl Notes {
    /// Recovers the notes from whatever a crash, a fault or a killed program left on the disk: those that its content
    /// stands for. It syncs before it reads, and makes no other write or sync on formatted notes; six more at most,
    /// where the formatting is to be done. A disk of at most 16 octets is formatted; one whose formatting was
    /// interrupted is formatted to its end. It may be cut at any of its writes and syncs, and is then done again. The
    /// work is that of the records. Takes memory.
    ///
    /// `NotAStore` and `Damaged` leave the content as it was. After `Disk` and `OutOfMemory` the disk is to be
    /// recovered again.
    pub fn recover<D: Disk>(alloc: Global, disk: &mut D) -> Result<Notes, StoreFault>
        ensures recovered { IfOk result (IsRecovered D.Disk disk.old disk.new) }

        // Each refusal has its exact cause; and what a crash at any moment leaves.
        ensures answers { AnswersRecovery D.Disk result disk.old disk.new }
        ensures calls { RecoversInCalls D.Disk notes_magic Layout.Growing 1 disk.old disk.new }
    {
        let kept = Kept::recover(alloc, disk, BLOCKS)?;
        Ok(Notes { kept })
    }

    /// Starts the task of a file of this name, 1 to 64 octets, length and digest, from `me` to `server`, or goes on
    /// with it. The last task of the same server, caller and name decides. A fresh task is noted where there is none,
    /// where it was refused, or where it was acknowledged with another length or digest. Takes memory, before it
    /// touches the disk. The work is that of a walk over the tasks, from the last one on.
    ///
    /// `Changed`: it is unfinished with another length or digest. `Full` comes exactly where a fresh task is wanted and
    /// 65,536 stand. `Failed` and `Disk` are looked at last, and only where a fresh task is to be noted.
    pub fn start<D: Disk>(
        &mut self,
        disk: &mut D,
        server: Call,
        me: Call,
        name: &str,
        file_length: u32,
        digest: [u8; 32],
    ) -> Result<Begun, NotesRefusal>
        requires stands_on { StandsOn D.Disk self.old disk.old }
        requires some { 1 ≤ length name.now }
        requires most { length name.now ≤ 64 }

        // Each answer comes exactly where its cause holds; a fault of the disk only where it counts one.
        ensures answers { StartsBy self.old (answer_of self.old.lists server me name.now file_length digest) result }
        ensures untouched { IsTrue (start_reaches result) ⊎ Untouched self.old self.new disk.old disk.new }

        // The command is on the disk before the answer, and a crash at any moment leaves the notes before it or after
        // it.
        ensures does { IsTrue (start_reaches result) → Does D.Disk (IsErr result) self.old self.new disk.old disk.new
            (fresh_task self.old.lists server me name.now file_length digest) }
        ensures stands_on { StandsOn D.Disk self.new disk.new }
    {
        if let Some(begun) = self
            .lists()
            .answer(server, me, name.as_bytes(), file_length, &digest)?
        {
            return Ok(begun);
        }
        if self.lists().task_count() == MOST_TASKS {
            return Err(NotesRefusal::Full);
        }
        let task = self.begin(disk, server, me, name.as_bytes(), file_length, &digest)?;
        Ok(Begun::Fresh { task })
    }

    /// Notes a fresh task, and gives its number. Takes memory, before it touches the disk.
    fn begin<D: Disk>(
        &mut self,
        disk: &mut D,
        server: Call,
        me: Call,
        name: &[u8],
        file_length: u32,
        digest: &[u8; 32],
    ) -> Result<TaskNumber, NotesRefusal>
        requires stands_on { StandsOn D.Disk self.old disk.old }
        requires few { task_count self.old.lists < most_tasks }
        requires some { 1 ≤ length name.now }
        requires most { length name.now ≤ 64 }
        ensures task { IfOk result (λ task. task ≡ task_count self.old.lists + 1) }
        ensures noting { Noting D.Disk self.old self.new disk.old disk.new
            (fresh_task self.old.lists server me name.now file_length digest.now) result }
    {
        if self.kept.failed() {
            return Err(NotesRefusal::Failed);
        }
        let task = TaskNumber::new(self.lists().task_count() + 1);
        self.kept
            .ledger
            .bring_task(StoredTask::new(server, me, name, file_length, digest))?;
        let start = Command::Start {
            task,
            server,
            caller: me,
            name,
            length: file_length,
            digest,
        };
        // A crash before the record's gate is synced leaves the notes without the task, and its number is given again:
        // the caller hasn't been told of it.
        match self.kept.put(disk, &Brought { command: start }) {
            Ok(()) => Ok(task),
            Err(_) => {
                self.kept.ledger.take_back();
                Err(NotesRefusal::Disk)
            }
        }
    }

    /// Notes the number that the server gave the file of a task, which is unfinished and has none. The number isn't 0.
    /// Takes no memory.
    pub fn numbered<D: Disk>(
        &mut self,
        disk: &mut D,
        task: TaskNumber,
        number: FileNumber,
    ) -> Result<(), JournalFault>
        requires stands_on { StandsOn D.Disk self.old disk.old }
        requires allowed { IsTrue (is_allowed self.old.lists (numbered task number)) }
        ensures { Answers D.Disk self.old self.new disk.old disk.new (numbered task number) result }
    {
        // A crash before the record's gate is synced leaves the task without a number: it is asked for again.
        let command = Command::Numbered { task, number };
        self.note(disk, &Direct { command })
    }

    /// Notes that the server acknowledged the file of a task, which is unfinished and has a number. Takes no memory.
    pub fn acked<D: Disk>(&mut self, disk: &mut D, task: TaskNumber) -> Result<(), JournalFault>
        requires stands_on { StandsOn D.Disk self.old disk.old }
        requires allowed { IsTrue (is_allowed self.old.lists (acked task)) }
        ensures { Answers D.Disk self.old self.new disk.old disk.new (acked task) result }
    {
        // A crash before the record's gate is synced leaves the task unfinished: the server acknowledges the file
        // again.
        let command = Command::Acked { task };
        self.note(disk, &Direct { command })
    }

    /// Notes that the server refused the file of a task, which is unfinished, with this code. Takes no memory.
    pub fn refused<D: Disk>(
        &mut self,
        disk: &mut D,
        task: TaskNumber,
        code: u8,
    ) -> Result<(), JournalFault>
        requires stands_on { StandsOn D.Disk self.old disk.old }
        requires allowed { IsTrue (is_allowed self.old.lists (refused task code)) }
        ensures { Answers D.Disk self.old self.new disk.old disk.new (refused task code) result }
    {
        // A crash before the record's gate is synced leaves the task unfinished: the server refuses the file again.
        let command = Command::Refused { task, code };
        self.note(disk, &Direct { command })
    }

    /// Notes 1 to 512 further octets of the file of this number, which isn't 0, of this server. The file doesn't pass
    /// 4,194,304 octets. Takes memory, before it touches the disk. The work is that of the octets that come, and of
    /// finding the file among the got ones, however many octets are got.
    pub fn got<D: Disk>(
        &mut self,
        disk: &mut D,
        server: Call,
        number: FileNumber,
        bytes: &[u8],
    ) -> Result<(), NotesRefusal>
        requires stands_on { StandsOn D.Disk self.old disk.old }
        requires allowed { IsTrue (is_allowed self.old.lists (got server number bytes.now)) }
        ensures { Noting D.Disk self.old self.new disk.old disk.new (got server number bytes.now) result }
    {
        if self.kept.failed() {
            return Err(NotesRefusal::Failed);
        }
        self.kept.ledger.bring_got(server, number, bytes)?;
        let got = Command::Got {
            server,
            number,
            octets: bytes,
        };
        // A crash before the record's gate is synced leaves the octets not got: they are asked for again.
        match self.kept.put(disk, &Brought { command: got }) {
            Ok(()) => Ok(()),
            Err(_) => {
                self.kept.ledger.take_back();
                Err(NotesRefusal::Disk)
            }
        }
    }

    /// Notes that what was got of the file of this number of this server is given up: no octet of it is got then. Takes
    /// no memory.
    pub fn forgot<D: Disk>(
        &mut self,
        disk: &mut D,
        server: Call,
        number: FileNumber,
    ) -> Result<(), JournalFault>
        requires { StandsOn D.Disk self.old disk.old }
        ensures { Answers D.Disk self.old self.new disk.old disk.new (forgot server number) result }
    {
        // A crash before the record's gate is synced leaves what was got of the file: it is given up again.
        let command = Command::Forgot { server, number };
        self.note(disk, &Direct { command })
    }

    /// Notes a command that takes no memory.
    fn note<D: Disk>(&mut self, disk: &mut D, change: &Direct<'_>) -> Result<(), JournalFault>
        requires stands_on { StandsOn D.Disk self.old disk.old }
        requires allowed { IsTrue (is_allowed self.old.lists (command_value change.now.command)) }
        requires writable { IsWritable (command_value change.now.command) }
        requires direct { takes_none (command_value change.now.command) ≡ true }
        ensures { Answers D.Disk self.old self.new disk.old disk.new (command_value change.now.command) result }
    {
        if self.kept.failed() {
            return Err(JournalFault::Failed);
        }
        self.kept.put(disk, change)?;
        Ok(())
    }

    /// The lists that are noted.
    fn lists(&self) -> &Lists
        ensures { result.now ≡ self.now.lists }
    {
        &self.kept.ledger.lists
    }

    /// How many octets were got of the file of this number of this server. Takes no memory.
    pub fn got_len(&self, server: Call, number: FileNumber) -> u32
        ensures len { result ≡ length (got_of self.now.lists server number) }
        ensures most { result ≤ longest_file }
    {
        self.lists().got(server, number).len() as u32
    }

    /// Fills `room` with octets got of the file of this number of this server, from place `at` on. They are there.
    /// Takes no memory.
    pub fn read_got(&self, server: Call, number: FileNumber, at: u32, room: &mut [u8])
        requires { at + length room.old ≤ length (got_of self.now.lists server number) }
        ensures { FillsRoom (got_of self.now.lists server number) at (length room.old) room.new }
    {
        let at = at as usize;
        room.copy_from_slice(&self.lists().got(server, number)[at..at + room.len()]);
    }

    /// The octets got of the file of this number of this server, as they lie in memory. Takes no memory.
    pub fn got_octets(&self, server: Call, number: FileNumber) -> &[u8]
        ensures octets { result.now ≡ got_of self.now.lists server number }
        ensures most { length result.now ≤ longest_file }
    {
        self.lists().got(server, number)
    }

    /// The got file at this place, counted from 0 in the order in which the first octets of each came; one that was
    /// forgotten is left out, and stands at the end once octets of it come again. `None` exactly past the last. It looks
    /// at no octet. Takes no memory.
    pub fn got_at(&self, place: u64) -> Option<Got>
        ensures { result ≡ got_file_at self.now.lists place }
    {
        self.lists().got_at(place)
    }

    /// How the last task of this server, caller and name stands; `None` exactly where there is no such task. Takes no
    /// memory.
    pub fn noted(&self, server: Call, me: Call, name: &str) -> Option<Noted>
        ensures { result ≡ noted_of self.now.lists server me name.now }
    {
        self.lists().noted(server, me, name.as_bytes())
    }

    /// How many tasks there are. They are numbered from 1 on. Takes no memory.
    pub fn tasks(&self) -> u32
        ensures count { result ≡ task_count self.now.lists }
        ensures most { result ≤ most_tasks }
    {
        self.lists().task_count()
    }

    /// How the task of this number stands; `None` exactly where there is no such task. Takes no memory.
    pub fn noted_task(&self, task: TaskNumber) -> Option<Noted>
        ensures { result ≡ noted_at self.now.lists task }
    {
        self.lists().noted_task(task)
    }

    /// Whether a call answered `Disk`. Takes no memory.
    pub fn failed(&self) -> bool
        ensures { result ≡ self.now.journal.failed }
    {
        self.kept.failed()
    }

    /// The journal was read to its end.
    pub(crate) fn read_law(&self)
        ensures { IsRead self.now.journal }
    {
        let _failed = self.kept.failed();
    }
}
