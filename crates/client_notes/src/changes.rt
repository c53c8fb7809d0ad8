//! The changes of the notes, each of which is one command.

ghost use Rattle.std.specs.Prelude.{◌≡◌, IsTrue, refl, true};
ghost use Rattle.file_journal.specs.Form.{same_form};
ghost use Rattle.client_notes.specs.Command.{NotesCommand, after, is_allowed};
ghost use Rattle.client_notes.specs.Commands.{command_value};
ghost use Rattle.client_notes.specs.Notes.{Lists};
ghost use Rattle.client_notes.specs.NotesLaws.{notes_seen};
ghost use Rattle.client_notes.specs.Noting.{lists_of, takes_none, turn_of};
ghost use Rattle.client_notes.specs.Records.{IsWritable, notes_form, notes_steps};
ghost use Rattle.client_notes.specs.declared.noted_lists.Coming.TheVariants as coming;

use crate::command::Command;
use crate::noted_lists::{Coming, NotedLists};
use file_journal::{BlockPut, Change, RecordContent};

/// A command that takes memory, and what it makes stands in the lists already.
#[derive(Drop)]
pub(crate) struct Brought<'a> {
    pub command: Command<'a>,
}

/// A command that takes no memory, where nothing is coming.
#[derive(Drop)]
pub(crate) struct Direct<'a> {
    pub command: Command<'a>,
}

impl<'a> Change<NotedLists> for Brought<'a> {
    ghost State = { Lists };

    ghost Kept = { Lists };

    ghost Seen = { Lists };

    ghost Command = { NotesCommand };

    ghost form = { notes_form };

    ghost steps = { notes_steps };

    ghost seen = { λ held now. now };

    ghost state = { lists_of };

    ghost turn = { λ change noted. turn_of (lists_of noted) (command_value change.command) };

    ghost may = { λ change noted. (noted.lists ≡ after (lists_of noted) (command_value change.command))
        × IsTrue (is_allowed (lists_of noted) (command_value change.command))
        × IsWritable (command_value change.command) };

    ghost makes = { λ change old new. new.coming ≡ coming.Nothing };

    fn block<'b>(&'b self, _noted: &'b NotedLists) -> Option<BlockPut<'b>> {
        None
    }

    fn write(&self, _noted: &NotedLists, content: &mut RecordContent) -> u8 {
        self.command.write(content)
    }

    fn make(&self, noted: &mut NotedLists) {
        noted.coming = Coming::Nothing;
    }

    ghost is_seen = { notes_seen };

    ghost lets_same = { λ change noted one other same is. is };

    ghost of_ledger = { same_form notes_form (λ held noted. lists_of noted) };

    ghost anew_of_ledger = { λ noted is. refl };
}

impl<'a> Change<NotedLists> for Direct<'a> {
    ghost State = { Lists };

    ghost Kept = { Lists };

    ghost Seen = { Lists };

    ghost Command = { NotesCommand };

    ghost form = { notes_form };

    ghost steps = { notes_steps };

    ghost seen = { λ held now. now };

    ghost state = { lists_of };

    ghost turn = { λ change noted. turn_of (lists_of noted) (command_value change.command) };

    ghost may = { λ change noted. (noted.coming ≡ coming.Nothing)
        × IsTrue (is_allowed noted.lists (command_value change.command))
        × IsWritable (command_value change.command)
        × (takes_none (command_value change.command) ≡ true) };

    ghost makes = { λ change old new. new.coming ≡ coming.Nothing };

    fn block<'b>(&'b self, _noted: &'b NotedLists) -> Option<BlockPut<'b>> {
        None
    }

    fn write(&self, _noted: &NotedLists, content: &mut RecordContent) -> u8 {
        self.command.write(content)
    }

    fn make(&self, noted: &mut NotedLists) {
        match self.command {
            Command::Numbered { task, number } => noted.lists.set_number(task, number),
            Command::Acked { task } => noted.lists.ack(task),
            Command::Refused { task, code } => noted.lists.refuse(task, code),
            Command::Forgot { server, number } => noted.lists.forget(server, number),
            Command::Start { .. } | Command::Got { .. } => unreachable!(),
        }
    }

    ghost is_seen = { notes_seen };

    ghost lets_same = { λ change noted one other same is. is };

    ghost of_ledger = { same_form notes_form (λ held noted. lists_of noted) };

    ghost anew_of_ledger = { λ noted is. refl };
}
