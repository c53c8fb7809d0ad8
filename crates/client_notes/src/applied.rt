//! Commands that were read from a journal's records, applied to the notes.

ghost use Rattle.std.specs.Prelude.{◌≡◌, ◌==◌, ◌+◌, ◌&&◌, nat_le, IsTrue, IfOk, OnErr, OnOk};
ghost use Rattle.client_notes.specs.Applied.{Applied};
ghost use Rattle.client_notes.specs.Command.{after, got, is_allowed, is_going as is_unfinished, is_name, is_numbered, is_unnumbered, passes};
ghost use Rattle.client_notes.specs.Commands.{command_value};
ghost use Rattle.client_notes.specs.Limits.{most_tasks};
ghost use Rattle.client_notes.specs.Notes.{task_count, task_of};
ghost use Rattle.client_notes.specs.Records.{IsWritable};

use crate::command::Command;
use crate::limits::{LONGEST_FILE, LONGEST_NAME, MOST_GOT, MOST_TASKS};
use crate::lists::Lists;
use crate::task::StoredTask;
use crate::{Progress, TaskNumber};
use px_base::{Call, FileNumber, OutOfMemory};

impl Lists {
    /// Applies a command that was read from a record: whether its condition holds. One whose condition doesn't hold
    /// changes nothing, and so does want of memory, which comes only where it holds. Takes memory.
    pub(crate) fn apply_command(&mut self, command: &Command<'_>) -> Result<bool, OutOfMemory>
        requires { IsWritable (command_value command.now) }
        ensures applied { IfOk result (λ done. Applied done self.old self.new (command_value command.now)) }
        ensures memory { OnErr result (IsTrue (is_allowed self.old (command_value command.now))) }
        ensures err { OnErr result (self.new ≡ self.old) }
    {
        if !self.allows(command) {
            return Ok(false);
        }
        self.make(command)?;
        Ok(true)
    }

    /// Does a command whose condition holds, or nothing where there is no memory. Takes memory.
    fn make(&mut self, command: &Command<'_>) -> Result<(), OutOfMemory>
        requires allowed { IsTrue (is_allowed self.old (command_value command.now)) }
        requires writable { IsWritable (command_value command.now) }
        ensures ok { OnOk result (self.new ≡ after self.old (command_value command.now)) }
        ensures err { OnErr result (self.new ≡ self.old) }
    {
        match command {
            Command::Start {
                server,
                caller,
                name,
                length,
                digest,
                ..
            } => self.add_task(StoredTask::new(*server, *caller, name, *length, digest)),
            Command::Numbered { task, number } => {
                self.set_number(*task, *number);
                Ok(())
            }
            Command::Acked { task } => {
                self.ack(*task);
                Ok(())
            }
            Command::Refused { task, code } => {
                self.refuse(*task, *code);
                Ok(())
            }
            Command::Got {
                server,
                number,
                octets,
            } => self.make_got(*server, *number, octets),
            Command::Forgot { server, number } => {
                self.forget(*server, *number);
                Ok(())
            }
        }
    }

    /// Octets of a file are got, or nothing changes where there is no memory. Takes memory.
    fn make_got(
        &mut self,
        server: Call,
        number: FileNumber,
        octets: &[u8],
    ) -> Result<(), OutOfMemory>
        requires { IsTrue (is_allowed self.old (got server number octets.now)) }
        ensures ok { OnOk result (self.new ≡ after self.old (got server number octets.now)) }
        ensures err { OnErr result (self.new ≡ self.old) }
    {
        let _behind = self.add_got(server, number, octets)?;
        Ok(())
    }

    /// Whether the condition of a command holds. Takes no memory.
    pub(crate) fn allows(&self, command: &Command<'_>) -> bool
        ensures { result ≡ is_allowed self.now (command_value command.now) }
    {
        match command {
            Command::Start { task, name, .. } => self.allows_start(*task, name),
            Command::Numbered { task, number } => self.allows_numbered(*task) && number.get() > 0,
            Command::Acked { task } => self.allows_acked(*task),
            Command::Refused { task, .. } => self.allows_refused(*task),
            Command::Got {
                server,
                number,
                octets,
            } => self.allows_got(*server, *number, octets),
            Command::Forgot { .. } => true,
        }
    }

    /// Whether a task of this number and name may be begun.
    fn allows_start(&self, task: TaskNumber, name: &[u8]) -> bool
        ensures { result ≡ (task == task_count self.now + 1) && nat_le task most_tasks && is_name name.now }
    {
        task.get() == self.task_count() + 1
            && task.get() <= MOST_TASKS
            && !name.is_empty()
            && name.len() <= LONGEST_NAME
    }

    /// Whether the task is unfinished and has no number.
    fn allows_numbered(&self, task: TaskNumber) -> bool
        ensures { result ≡ passes is_unnumbered (task_of self.now task) }
    {
        match self.task(task) {
            Some(task) => is_going(task.progress()) && task.number().get() == 0,
            None => false,
        }
    }

    /// Whether the task is unfinished and has a number.
    fn allows_acked(&self, task: TaskNumber) -> bool
        ensures { result ≡ passes is_numbered (task_of self.now task) }
    {
        match self.task(task) {
            Some(task) => is_going(task.progress()) && task.number().get() > 0,
            None => false,
        }
    }

    /// Whether the task is unfinished.
    fn allows_refused(&self, task: TaskNumber) -> bool
        ensures { result ≡ passes (λ t. is_unfinished t.progress) (task_of self.now task) }
    {
        match self.task(task) {
            Some(task) => is_going(task.progress()),
            None => false,
        }
    }

    /// Whether these octets of the file of this number of this server may be got.
    fn allows_got(&self, server: Call, number: FileNumber, octets: &[u8]) -> bool
        ensures { result ≡ is_allowed self.now (got server number octets.now) }
    {
        number.get() > 0
            && !octets.is_empty()
            && octets.len() <= MOST_GOT
            && self.got(server, number).len() + octets.len() <= LONGEST_FILE as usize
    }
}

/// Whether a task that has come so far is unfinished.
fn is_going(progress: Progress) -> bool
    ensures { result ≡ is_unfinished progress }
{
    matches!(progress, Progress::Going)
}
