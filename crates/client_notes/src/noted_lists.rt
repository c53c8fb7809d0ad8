//! The lists of the notes, with what is being noted.

ghost use Rattle.std.specs.Prelude.{◌≡◌, ◌<◌, ◌++◌, ◌∷◌, [], IsTrue, OnErr, OnOk};
ghost use Rattle.client_notes.specs.Command.{after, got, is_allowed};
ghost use Rattle.client_notes.specs.Limits.{most_tasks};
ghost use Rattle.client_notes.specs.Notes.{no_notes, task_count};
ghost use Rattle.client_notes.specs.Noting.{IsBrought, StandsIn, lists_of};
ghost use Rattle.client_notes.specs.declared.noted_lists.Coming.TheVariants as coming;

use crate::command::Command;
use crate::lists::{Behind, Lists};
use crate::task::StoredTask;
use disk_model::Disk;
use file_journal::{ApplyFault, Journal, Layout, Ledger, RecordContent, RecordPlace};
use px_base::{Call, FileNumber, OutOfMemory};
use std::alloc::Global;

/// What stands in the lists in memory, and is not noted yet.
#[derive(Clone, Copy)]
pub(crate) enum Coming {
    /// Nothing.
    Nothing,
    /// The last task.
    Task,
    /// The octets that came last.
    Octets(Behind),
}

/// The lists of the notes, and in memory what is being noted: so there is memory for it before its record is on the
/// disk.
#[derive(Drop)]
pub(crate) struct NotedLists {
    /// The lists, with what is being noted.
    pub lists: Lists,
    /// What that is.
    pub coming: Coming,
}

impl NotedLists {
    /// Nothing is noted. Takes no memory yet.
    pub(crate) fn new(alloc: Global) -> NotedLists
        ensures lists { lists_of result ≡ no_notes }
        ensures nothing { result.coming ≡ coming.Nothing }
    {
        NotedLists {
            lists: Lists::new(alloc),
            coming: Coming::Nothing,
        }
    }

    /// A task comes, or nothing changes where there is no memory. Takes memory.
    pub(crate) fn bring_task(&mut self, task: StoredTask) -> Result<(), OutOfMemory>
        requires few { task_count self.old.lists < most_tasks }
        requires nothing { self.old.coming ≡ coming.Nothing }
        ensures ok { OnOk result (IsBrought self.old self.new
            (record self.old.lists { tasks = self.old.lists.tasks ++ task ∷ [] })) }
        ensures err { OnErr result (self.new ≡ self.old) }
    {
        self.lists.add_task(task)?;
        self.coming = Coming::Task;
        Ok(())
    }

    /// Octets of a file come, or nothing changes where there is no memory. Takes memory.
    pub(crate) fn bring_got(
        &mut self,
        server: Call,
        number: FileNumber,
        octets: &[u8],
    ) -> Result<(), OutOfMemory>
        requires allowed { IsTrue (is_allowed self.old.lists (got server number octets.now)) }
        requires nothing { self.old.coming ≡ coming.Nothing }
        ensures ok { OnOk result (IsBrought self.old self.new (after self.old.lists (got server number octets.now))) }
        ensures err { OnErr result (self.new ≡ self.old) }
    {
        let behind = self.lists.add_got(server, number, octets)?;
        self.coming = Coming::Octets(behind);
        Ok(())
    }

    /// What came and wasn't noted is taken back.
    pub(crate) fn take_back(&mut self)
        requires { StandsIn self.old.coming self.old.lists }
        ensures lists { self.new.lists ≡ lists_of self.old }
        ensures nothing { self.new.coming ≡ coming.Nothing }
    {
        match self.coming {
            Coming::Nothing => {}
            Coming::Task => self.lists.remove_last_task(),
            Coming::Octets(behind) => self.lists.take_back(behind),
        }
        self.coming = Coming::Nothing;
    }
}

impl Ledger for NotedLists {
    ghost use Rattle.client_notes.specs.Command.{NotesCommand};
    ghost use Rattle.client_notes.specs.Notes.{Lists as NotesLists};
    ghost use Rattle.client_notes.specs.NotesLaws.{notes_seen};
    ghost use Rattle.client_notes.specs.Records.{notes_form, notes_steps};
    ghost use Rattle.std.specs.Prelude.{refl};

    ghost State = { NotesLists };

    ghost Kept = { NotesLists };

    ghost Seen = { NotesLists };

    ghost Command = { NotesCommand };

    ghost form = { notes_form };

    ghost steps = { notes_steps };

    ghost seen = { λ held now. now };

    ghost state = { lists_of };

    ghost left = { λ noted place. [] };

    ghost by_records = { λ noted. noted.coming ≡ coming.Nothing };

    fn magic() -> [u8; 8] {
        *b"PXNOTES1"
    }

    fn layout() -> Layout {
        Layout::Growing
    }

    fn fresh(alloc: Global, _blocks: u32) -> Result<NotedLists, OutOfMemory> {
        Ok(NotedLists::new(alloc))
    }

    fn apply<D: Disk>(
        &mut self,
        _journal: &Journal,
        _disk: &mut D,
        kind: u8,
        content: &[u8],
    ) -> Result<bool, ApplyFault> {
        match Command::read(kind, content) {
            Some(command) => Ok(self.lists.apply_command(&command)?),
            None => Ok(false),
        }
    }

    fn next_record(&self, _place: &mut RecordPlace, _content: &mut RecordContent) -> Option<u8> {
        None
    }

    ghost is_seen = { notes_seen };

    ghost all_left = { λ noted is. refl };

    ghost reached = { λ noted nothing. tt };
}
