//! The list of tasks and the list of got files, and what the commands do to them.

ghost use Rattle.std.specs.Prelude.{◌≡◌, ◌-◌, ◌≤◌, ◌<◌, ◌∷◌, ◌++◌, [], find, length, take, IsTrue, IfOk, IfSome, OnOk, OnErr};
ghost use Rattle.std.specs.List.{position};
ghost use Rattle.std.specs.Option.{option_copied};
ghost use Rattle.client_notes.specs.Answers.{answer_by, answer_of, noted_as as noted_as_task, noted_at};
ghost use Rattle.client_notes.specs.Answers.{noted_of};
ghost use Rattle.client_notes.specs.Applied.{IsPlaceOf, taken_back};
ghost use Rattle.client_notes.specs.Command.{acked, after, forgot, got, is_allowed, numbered, refused};
ghost use Rattle.client_notes.specs.Limits.{longest_file, most_tasks};
ghost use Rattle.client_notes.specs.Notes.{got_file_at, got_of, is_file_of, is_of_file, last_task as number_of_last_task, no_notes, place_from_end as place_of_last_task, task_count as count_of_tasks, task_of};

use crate::limits::{LONGEST_FILE, MOST_TASKS};
use crate::task::{StoredGot, StoredTask};
use crate::{Begun, Got, Noted, NotesRefusal, Progress, TaskNumber};
use px_base::{Call, FileNumber, OutOfMemory};
use std::alloc::Global;
use std::marker::Model;

/// The tasks in their order, at most 65,536, and the got files. Contracts see them as the `Lists` of the notes.
#[derive(Drop)]
pub(crate) struct Lists {
    alloc: Global,
    tasks: Vec<StoredTask>,
    got: Vec<StoredGot>,
}

/// What octets that came stand behind: what is left where they are taken back.
#[derive(Clone, Copy)]
pub(crate) enum Behind {
    /// They are a new file, the last one.
    Nothing,
    /// The first octets of the file at this place.
    Octets { place: usize, len: usize },
}

impl Model for Lists {
    ghost use Rattle.std.specs.Prelude.{length, ◌≤◌};
    ghost use Rattle.client_notes.specs.Notes.{Lists};
    ghost use Rattle.client_notes.specs.Limits.{most_tasks};

    ghost Value = { Lists };

    ghost view = { λ a. record { tasks = a.tasks.items; got = a.got.items } };

    ghost invariant = { λ a. length a.tasks.items ≤ most_tasks };
}

impl Lists {
    /// Nothing is noted. Takes no memory yet.
    pub(crate) fn new(alloc: Global) -> Lists
        ensures { result ≡ no_notes }
    {
        Lists {
            alloc,
            tasks: Vec::new(alloc),
            got: Vec::new(alloc),
        }
    }

    /// How many tasks there are.
    pub(crate) fn task_count(&self) -> u32
        ensures count { result ≡ count_of_tasks self.now }
        ensures most { result ≤ most_tasks }
    {
        self.tasks.len() as u32
    }

    /// The task of this number.
    pub(crate) fn task(&self, task: TaskNumber) -> Option<&StoredTask>
        ensures { option_copied result ≡ task_of self.now task }
    {
        if task.get() == 0 {
            return None;
        }
        self.tasks.get(task.get() as usize - 1)
    }

    /// The place of the last task of this server, caller and name, counted from the end.
    fn place_from_end(&self, server: Call, caller: Call, name: &[u8]) -> Option<usize>
        ensures place { result ≡ place_of_last_task self.now server caller name.now }
        ensures within { IfSome result (λ place. place < count_of_tasks self.now) }
    {
        self.tasks
            .iter()
            .rev()
            .position(|task| task.is_for(server, caller, name))
    }

    /// The number of the last task of this server, caller and name.
    fn last_task(&self, server: Call, caller: Call, name: &[u8]) -> Option<TaskNumber>
        ensures { result ≡ number_of_last_task self.now server caller name.now }
    {
        match self.place_from_end(server, caller, name) {
            Some(place) => Some(TaskNumber::new((self.tasks.len() - place) as u32)),
            None => None,
        }
    }

    /// How the last task of this server, caller and name stands.
    pub(crate) fn noted(&self, server: Call, caller: Call, name: &[u8]) -> Option<Noted>
        ensures { result ≡ noted_of self.now server caller name.now }
    {
        let number = self.last_task(server, caller, name)?;
        let task = self.task(number)?;
        Some(noted_as(number, task))
    }

    /// How the task of this number stands.
    pub(crate) fn noted_task(&self, task: TaskNumber) -> Option<Noted>
        ensures { result ≡ noted_at self.now task }
    {
        Some(noted_as(task, self.task(task)?))
    }

    /// What is answered of the last task of this server, caller and name for a file of this length and digest; none
    /// where a fresh task is wanted.
    pub(crate) fn answer(
        &self,
        server: Call,
        caller: Call,
        name: &[u8],
        length: u32,
        digest: &[u8; 32],
    ) -> Result<Option<Begun>, NotesRefusal>
        ensures { result ≡ answer_of self.now server caller name.now length digest.now }
    {
        let Some(number) = self.last_task(server, caller, name) else {
            return Ok(None);
        };
        match self.task(number) {
            Some(task) => answer_of_task(number, task, length, digest),
            None => Ok(None),
        }
    }

    /// Begins a task, or changes nothing where there is no memory. Takes memory.
    pub(crate) fn add_task(&mut self, task: StoredTask) -> Result<(), OutOfMemory>
        requires { count_of_tasks self.old < most_tasks }
        ensures ok { OnOk result (self.new ≡ record self.old { tasks = self.old.tasks ++ task ∷ [] }) }
        ensures err { OnErr result (self.new ≡ self.old) }
    {
        self.tasks.push(task)?;
        Ok(())
    }

    /// The last task is taken back.
    pub(crate) fn remove_last_task(&mut self)
        ensures { self.new ≡ record self.old { tasks = take (count_of_tasks self.old - 1) self.old.tasks } }
    {
        self.tasks.pop();
    }

    /// The task has this number on the server.
    pub(crate) fn set_number(&mut self, task: TaskNumber, number: FileNumber)
        requires { IsTrue (is_allowed self.old (numbered task number)) }
        ensures { self.new ≡ after self.old (numbered task number) }
    {
        self.tasks[task.get() as usize - 1].set_number(number);
    }

    /// The task is acknowledged.
    pub(crate) fn ack(&mut self, task: TaskNumber)
        requires { IsTrue (is_allowed self.old (acked task)) }
        ensures { self.new ≡ after self.old (acked task) }
    {
        self.tasks[task.get() as usize - 1].set_progress(Progress::Acked);
    }

    /// The task is refused.
    pub(crate) fn refuse(&mut self, task: TaskNumber, code: u8)
        requires { IsTrue (is_allowed self.old (refused task code)) }
        ensures { self.new ≡ after self.old (refused task code) }
    {
        self.tasks[task.get() as usize - 1].set_progress(Progress::Refused { code });
    }

    /// The octets got of the file of this number of this server.
    pub(crate) fn got(&self, server: Call, number: FileNumber) -> &[u8]
        ensures octets { result.now ≡ got_of self.now server number }
        ensures fits { length result.now ≤ longest_file }
    {
        match self.got_file(server, number) {
            Some(file) => file.octets(),
            None => &[],
        }
    }

    /// The got file at this place.
    pub(crate) fn got_at(&self, place: u64) -> Option<Got>
        ensures { result ≡ got_file_at self.now place }
    {
        match self.got.get(place as usize) {
            Some(file) => Some(file.told()),
            None => None,
        }
    }

    /// The file of this number of this server.
    fn got_file(&self, server: Call, number: FileNumber) -> Option<&StoredGot>
        ensures { option_copied result ≡ find (is_file_of server number) self.now.got }
    {
        self.got.iter().find(|file| file.is_of(server, number))
    }

    /// The place of the file of this number of this server.
    fn got_place(&self, server: Call, number: FileNumber) -> Option<usize>
        ensures { result ≡ position (is_file_of server number) self.now.got }
    {
        self.got.iter().position(|file| file.is_of(server, number))
    }

    /// Octets of a file are got, or nothing changes where there is no memory: what they stand behind. Takes memory.
    /// The work is that of the octets, and of finding the file.
    pub(crate) fn add_got(
        &mut self,
        server: Call,
        number: FileNumber,
        octets: &[u8],
    ) -> Result<Behind, OutOfMemory>
        requires { IsTrue (is_allowed self.old (got server number octets.now)) }
        ensures got { OnOk result (self.new ≡ after self.old (got server number octets.now)) }
        ensures back { IfOk result (λ behind. taken_back behind self.new.got ≡ self.old.got) }
        ensures place { IfOk result (λ behind. IsPlaceOf behind self.new.got) }
        ensures err { OnErr result (self.new ≡ self.old) }
    {
        match self.got_place(server, number) {
            Some(place) => {
                let len = self.got[place].octets().len();
                self.got[place].append(octets)?;
                Ok(Behind::Octets { place, len })
            }
            None => {
                let file = StoredGot::copy_of(self.alloc, server, number, octets)?;
                self.got.push(file)?;
                Ok(Behind::Nothing)
            }
        }
    }

    /// The octets that came last are taken back.
    pub(crate) fn take_back(&mut self, behind: Behind)
        requires { IsPlaceOf behind self.old.got }
        ensures { self.new ≡ record self.old { got = taken_back behind self.old.got } }
    {
        match behind {
            Behind::Nothing => {
                self.got.pop();
            }
            Behind::Octets { place, len } => self.got[place].cut_to(len),
        }
    }

    /// What was got of the file of this number of this server is given up.
    pub(crate) fn forget(&mut self, server: Call, number: FileNumber)
        ensures { self.new ≡ after self.old (forgot server number) }
    {
        self.got.retain(|file| !file.is_of(server, number));
    }
}

/// How this task stands.
fn noted_as(number: TaskNumber, task: &StoredTask) -> Noted
    ensures { result ≡ noted_as_task number task.now }
{
    match task.progress() {
        Progress::Going => Noted::Going {
            task: number,
            number: task.number(),
        },
        Progress::Acked => Noted::Acked {
            task: number,
            number: task.number(),
        },
        Progress::Refused { code } => Noted::Refused { task: number, code },
    }
}

/// What is answered of this task for a file of this length and digest; none where a fresh task is wanted.
fn answer_of_task(
    number: TaskNumber,
    task: &StoredTask,
    length: u32,
    digest: &[u8; 32],
) -> Result<Option<Begun>, NotesRefusal>
    ensures { result ≡ answer_by number task.now (is_of_file length digest.now task.now) task.now.progress }
{
    let same = task.is_of_file(length, digest);
    match task.progress() {
        Progress::Acked if same => Ok(Some(Begun::Already {
            number: task.number(),
        })),
        Progress::Going if same => Ok(Some(Begun::Going {
            task: number,
            number: task.number(),
        })),
        Progress::Going => Err(NotesRefusal::Changed {
            length: task.file_length(),
            digest: task.digest(),
        }),
        Progress::Acked | Progress::Refused { .. } => Ok(None),
    }
}
