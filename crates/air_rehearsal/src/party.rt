//! A client of the rehearsal.

ghost use Rattle.std.specs.Prelude.{◌≡◌, ◌≤◌, ◌<◌, ◌↔◌, length, IfOk, IfSome, IsTrue, MatchOption, OnOk};
ghost use Rattle.ax25_frames.specs.FrameText.{FrameText, FrameValue};
ghost use Rattle.ax25_frames.specs.Kinds.{FitsControl};
ghost use Rattle.ax25_frames.specs.Values.{value_of};
ghost use Rattle.ax25_link.specs.Window.{IsGoodK};
ghost use Rattle.client_notes.specs.Limits.{longest_file, most_tasks};
ghost use Rattle.client_notes.specs.Notes.{task_count};
ghost use Rattle.disk_model.specs.Cuts.{cuts_by};
ghost use Rattle.ftl0_client.specs.Client.{Client as ClientValue, ticks};
ghost use Rattle.ftl0_client.specs.ClientState.{IsClient, IsFree};
ghost use Rattle.ftl0_client.specs.Outcomes.{outcome_by};
ghost use Rattle.ftl0_client_job.specs.Directory.{new_directory};
ghost use Rattle.ftl0_client_job.specs.Download.{new_download};
ghost use Rattle.ftl0_client_job.specs.declared.work.Work.TheVariants as work;
ghost use Rattle.turn_loop.specs.Events.{IsFor};
ghost use Rattle.air_world.specs.Events.{ClientPart, DeliversToClient, asking, part_with};
ghost use Rattle.air_world.specs.Lawful.{IsFree as IsFreeParty};
ghost use Rattle.air_rehearsal.specs.Lanes.{HasLanes, Lanes};
ghost use Rattle.air_rehearsal.specs.PartCalls.{BeginsPart, HasTaskOf, KeepsButNotes, KeepsOthers, Restarts, SaysAll};
ghost use Rattle.air_rehearsal.specs.PartCalls.{StartsTask, TouchesPart, uploads_then};
ghost use Rattle.air_rehearsal.specs.Breaches.{halt_of, halted};
ghost use Rattle.air_rehearsal.specs.Drawn.{last_acked as last_acked_in};
ghost use Rattle.air_rehearsal.specs.NotedTasks.{number_if_acked, number_if_going};
ghost use Rattle.air_rehearsal.specs.PartyCalls.{BreaksOff, IsLastGoing, IsOpened};
ghost use Rattle.air_rehearsal.specs.Ready.{IsReadyParty, IsTheirs, KeepsParty};
ghost use Rattle.air_rehearsal.specs.TakingPart.{AsksNext, IsSeat, Resumes, Seat};
ghost use Rattle.air_rehearsal.specs.Worlds.{IsSteady};

use crate::asking::sum_of;
use crate::attempt::Attempt;
use crate::cuts::Cut;
use crate::stopped::{Breach, Stopped};
use arrayvec::ArrayVec;
use ax25_frames::{Frame, read_frame};
use client_notes::laws::images_law;
use client_notes::{Begun, MOST_TASKS, Noted, Notes, NotesRefusal, TaskNumber};
use disk_model::{CutDisk, Disk, Halt};
use ftl0_client::{Client, Job, Outcome};
use itoa::Buffer;
use px_base::{Call, FileBytes, FileNumber};
use std::alloc::Global;

/// A client of the server, over the notes of its disk, with what it and the server sent in its newest attempt.
#[derive(Drop)]
pub(crate) struct Party {
    pub me: Call,
    pub server: Call,
    pub k: u8,
    pub client: Client,
    /// Of each task, in their order, which upload it is.
    pub uploads: Vec<u32>,
    pub attempt: Attempt,
    /// The cut that comes in its next event.
    pub cut: Option<Cut>,
}

impl Party {
    /// A client over the notes of this disk, of which nothing was asked. Takes memory.
    pub(crate) fn open<D: Disk>(
        alloc: Global,
        disk: &mut D,
        server: Call,
        me: Call,
        k: u8,
    ) -> Result<Party, Stopped>
        requires { IsGoodK k }
        ensures ready { IfOk result (λ party. IsReadyParty D.Disk party disk.new) }
        ensures opens { IfOk result (λ party. IsOpened D.Disk server me k disk.old disk.new party) }
    {
        match Notes::recover(alloc, disk) {
            Ok(notes) => Ok(Party {
                me,
                server,
                k,
                client: Client::start(notes, me, server, k),
                uploads: Vec::new(alloc),
                attempt: Attempt::new(alloc),
                cut: None,
            }),
            Err(fault) => Err(Stopped::of_notes(fault)),
        }
    }

    /// The client is broken off, and starts again from its notes. Takes memory.
    pub(crate) fn break_off<B: CutDisk>(
        &mut self,
        alloc: Global,
        disk: &mut B,
    ) -> Result<(), Stopped>
        requires { IsReadyParty B.Disk self.old disk.old }
        ensures ready { OnOk result (IsReadyParty B.Disk self.new disk.new) }
        ensures breaks { OnOk result ((seat : Seat) → IsSeat self.old seat
            → IsSteady B.Disk (cuts_by B.restarts B.arming B.plain B.is_starved) disk.old
            → BreaksOff B.Disk (cuts_by B.restarts B.arming B.plain B.is_starved) seat self.old self.new disk.old
            disk.new) }
    {
        images_law(self.client.notes(), disk);
        self.restart(alloc, disk)?;
        if disk.starved() {
            return Err(Stopped::OutOfMemory);
        }
        Ok(())
    }

    /// The client starts again from its notes. Takes memory.
    pub(crate) fn restart<D: Disk>(&mut self, alloc: Global, disk: &mut D) -> Result<(), Stopped>
        requires { IsGoodK self.old.k }
        ensures ready { OnOk result (IsReadyParty D.Disk self.new disk.new) }
        ensures restarts { OnOk result (Restarts D.Disk self.old self.new disk.old disk.new) }
    {
        match Notes::recover(alloc, disk) {
            Ok(notes) => {
                self.client = Client::start(notes, self.me, self.server, self.k);
                Ok(())
            }
            Err(fault) => Err(Stopped::of_notes(fault)),
        }
    }

    /// What became of what was asked last, if anything did.
    pub(crate) fn outcome(&self) -> Option<Outcome>
        ensures { (client : ClientValue) → IsClient self.now.client client → result ≡ outcome_by client.attempt }
    {
        self.client.outcome()
    }

    /// Whether nothing that was asked of it is under way.
    pub(crate) fn is_free(&self) -> bool
        ensures free { IsTrue result ↔ IsFree self.now.client }
        ensures party { (seat : Seat) → IsSeat self.now seat → IsTrue result ↔ IsFreeParty seat.party }
    {
        !self.client.is_under_way()
    }

    /// The last task that is unfinished, if one is, with its number on the server, 0 where it has none.
    pub(crate) fn last_going(&self) -> Option<(TaskNumber, FileNumber)>
        ensures some { IfSome result (λ going. 1 ≤ going.0) }
        ensures last { (seat : Seat) → IsSeat self.now seat → IsLastGoing seat.party.client.lists result }
    {
        let notes = self.client.notes();
        for back in 0..notes.tasks() {
            let task = TaskNumber::new(notes.tasks() - back);
            if let Some(number) = number_if_going(notes.noted_task(task)) {
                return Some((task, number));
            }
        }
        None
    }

    /// The number on the server of the last file that was acknowledged, if one was.
    pub(crate) fn last_acked(&self) -> Option<FileNumber>
        ensures last { (seat : Seat) → IsSeat self.now seat → result ≡ last_acked_in seat.party.client.lists }
        ensures some { (seat : Seat) → IsSeat self.now seat → IfSome result (λ number. 1 ≤ number) }
    {
        let notes = self.client.notes();
        for back in 0..notes.tasks() {
            let task = TaskNumber::new(notes.tasks() - back);
            if let Some(number) = number_if_acked(notes.noted_task(task)) {
                return Some(number);
            }
        }
        None
    }

    /// Whether there is room for one more task.
    pub(crate) fn has_room(&self) -> bool
        ensures { (seat : Seat) → IsSeat self.now seat → IsTrue result ↔
            (task_count seat.party.client.lists < most_tasks) }
    {
        self.client.notes().tasks() < MOST_TASKS
    }

    /// Looks for the task of the upload that was asked last: where it was begun, it is the last task. Takes memory.
    pub(crate) fn note_task(&mut self, upload: u32) -> Result<(), Stopped>
        ensures keeps { KeepsParty self.old self.new }
        ensures notes { OnOk result (self.new.uploads.items
            ≡ uploads_then (task_count self.old.client.notes.lists) upload self.old.uploads.items) }
    {
        if self.client.notes().tasks() as usize > self.uploads.len() {
            self.uploads.push(upload)?;
        }
        Ok(())
    }

    /// The task of the file of an upload is started, and is a fresh one: it is answered. Takes memory.
    pub(crate) fn start<D: Disk>(
        &mut self,
        disk: &mut D,
        upload: u32,
        file: &[u8],
    ) -> Result<TaskNumber, Stopped>
        requires ready { IsReadyParty D.Disk self.old disk.old }
        requires free { IsFree self.old.client }
        requires short { length file.now ≤ longest_file }
        ensures theirs { OnOk result (IsTheirs D.Disk self.new disk.new) }
        ensures keeps { KeepsButNotes self.old self.new }
        ensures task { IfOk result (λ task. HasTaskOf self.new.client task 0 file.now) }
        ensures touches { (seat : Seat) (whole : ClientPart) → IsSeat self.old seat
            → AsksNext seat upload file.now whole
            → TouchesPart D.Disk whole self.new disk.old disk.new (halted result) }
        ensures starts { IfOk result (λ task. (seat : Seat) (whole : ClientPart) → IsSeat self.old seat
            → AsksNext seat upload file.now whole → StartsTask whole task self.new) }
    {
        let mut name = Buffer::new();
        let digest = sum_of(file);
        let length = file.len() as u32;
        match self
            .client
            .start_task(disk, name.format(upload), length, digest)
        {
            Ok(begun) => match begun {
                Begun::Fresh { task } => Ok(task),
                _ => Err(Stopped::Broken(Breach::NoTask)),
            },
            Err(NotesRefusal::Disk) => Err(Stopped::Broken(Breach::ClientDisk)),
            Err(NotesRefusal::OutOfMemory) => Err(Stopped::OutOfMemory),
            Err(_) => Err(Stopped::Broken(Breach::NoTask)),
        }
    }

    /// The client is asked for the upload of a new file. Takes memory.
    pub(crate) fn ask_upload<D: Disk>(
        &mut self,
        alloc: Global,
        disk: &mut D,
        upload: u32,
        file: FileBytes,
    ) -> Result<(), Stopped>
        requires ready { IsReadyParty D.Disk self.old disk.old }
        requires free { IsFree self.old.client }
        requires short { length file ≤ longest_file }
        ensures theirs { OnOk result (IsTheirs D.Disk self.new disk.new) }
        ensures begins { OnOk result ((seat : Seat) (whole : ClientPart) → IsSeat self.old seat
            → AsksNext seat upload file whole → BeginsPart D.Disk whole self.old self.new disk.old disk.new) }
    {
        let task = match self.start(disk, upload, file.as_slice()) {
            Ok(task) => task,
            Err(stopped) => return Err(stopped),
        };
        self.client
            .ask(alloc, Job::upload(task, FileNumber::new(0), file))?;
        self.note_task(upload)
    }

    /// The task of this number, of an upload's file, is looked for by the upload's name, and gone on with. It fails
    /// where the last task of the name isn't unfinished, or is another one, or has another number on the server. The
    /// disk isn't touched, and nothing changes where it doesn't fail.
    pub(crate) fn go_on<D: Disk>(
        &mut self,
        disk: &mut D,
        upload: u32,
        task: TaskNumber,
        number: FileNumber,
        file: &[u8],
    ) -> Result<(), Stopped>
        requires ready { IsReadyParty D.Disk self.old disk.old }
        requires free { IsFree self.old.client }
        requires short { length file.now ≤ longest_file }
        ensures same { OnOk result (self.new ≡ self.old) }
        ensures same_disk { disk.new ≡ disk.old }
        ensures has { OnOk result (HasTaskOf self.new.client task number file.now) }
    {
        let mut buffer = Buffer::new();
        let name = buffer.format(upload);
        let noted = self.client.notes().noted(self.server, self.me, name);
        let Some(noted) = noted else {
            return Err(Stopped::Broken(Breach::NoTask));
        };
        let Noted::Going { .. } = noted else {
            return Err(Stopped::Broken(Breach::NoTask));
        };
        let digest = sum_of(file);
        let length = file.len() as u32;
        let Ok(begun) = self.client.start_task(disk, name, length, digest) else {
            return Err(Stopped::Broken(Breach::NoTask));
        };
        let Begun::Going {
            task: found,
            number: known,
        } = begun
        else {
            return Err(Stopped::Broken(Breach::NoTask));
        };
        if found != task || known != number {
            return Err(Stopped::Broken(Breach::NoTask));
        }
        Ok(())
    }

    /// The client is asked again for the upload of its last unfinished task. Takes memory.
    pub(crate) fn ask_resume<D: Disk>(
        &mut self,
        alloc: Global,
        disk: &mut D,
        task: TaskNumber,
        number: FileNumber,
        file: FileBytes,
    ) -> Result<(), Stopped>
        requires ready { IsReadyParty D.Disk self.old disk.old }
        requires free { IsFree self.old.client }
        requires short { length file ≤ longest_file }
        ensures theirs { OnOk result (IsTheirs D.Disk self.new disk.new) }
        ensures begins { OnOk result ((seat : Seat) (whole : ClientPart) → IsSeat self.old seat
            → Resumes seat task number file whole
            → BeginsPart D.Disk whole self.old self.new disk.old disk.new) }
    {
        if task.get() == 0 {
            return Err(Stopped::Broken(Breach::NoTask));
        }
        let Some(upload) = self.uploads.get((task.get() - 1) as usize) else {
            return Err(Stopped::Broken(Breach::NoTask));
        };
        let upload = *upload;
        self.go_on(disk, upload, task, number, file.as_slice())?;
        self.client.ask(alloc, Job::upload(task, number, file))?;
        Ok(())
    }

    /// The client is asked for the list of the files that the selection of these tokens holds of. Takes memory.
    pub(crate) fn ask_list<D: Disk>(
        &mut self,
        alloc: Global,
        _disk: &mut D,
        tokens: FileBytes,
    ) -> Result<(), Stopped>
        requires ready { IsReadyParty D.Disk self.old _disk.old }
        requires free { IsFree self.old.client }
        requires short { length tokens ≤ 2047 }
        ensures theirs { OnOk result (IsTheirs D.Disk self.new _disk.new) }
        ensures begins { OnOk result ((seat : Seat) (whole : ClientPart) → IsSeat self.old seat
            → whole ≡ asking seat.party (work.Directory (new_directory tokens))
            → BeginsPart D.Disk whole self.old self.new _disk.old _disk.new) }
    {
        self.client.ask(alloc, Job::list(alloc, tokens))?;
        Ok(())
    }

    /// The client is asked for the file of this number. Takes memory.
    pub(crate) fn ask_download<D: Disk>(
        &mut self,
        alloc: Global,
        _disk: &mut D,
        number: FileNumber,
    ) -> Result<(), Stopped>
        requires ready { IsReadyParty D.Disk self.old _disk.old }
        requires free { IsFree self.old.client }
        requires some { 1 ≤ number }
        ensures theirs { OnOk result (IsTheirs D.Disk self.new _disk.new) }
        ensures begins { OnOk result ((seat : Seat) (whole : ClientPart) → IsSeat self.old seat
            → whole ≡ asking seat.party (work.Download (new_download seat.party.client.server number))
            → BeginsPart D.Disk whole self.old self.new _disk.old _disk.new) }
    {
        // What is got of a file is no longer than a file may be.
        let _held = self.client.notes().got_len(self.server, number);
        let job = Job::download(self.server, number);
        self.client.ask(alloc, job)?;
        Ok(())
    }

    /// The client hears the frame at this place of those that the server sent, which is delivered so. Takes memory.
    pub(crate) fn hear<D: Disk>(&mut self, disk: &mut D, place: usize) -> Result<(), Stopped>
        requires { IsReadyParty D.Disk self.old disk.old }
        ensures theirs { OnOk result (IsTheirs D.Disk self.new disk.new) }
        ensures keeps { KeepsOthers self.old self.new }
        ensures touches { (seat : Seat) (whole : ClientPart) → IsSeat self.old seat
            → DeliversToClient seat.party place whole
            → TouchesPart D.Disk whole self.new disk.old disk.new (halted result) }
        ensures begins { OnOk result ((seat : Seat) (whole : ClientPart) → IsSeat self.old seat
            → DeliversToClient seat.party place whole
            → BeginsPart D.Disk whole self.old self.new disk.old disk.new) }
    {
        self.attempt.from_server.deliver(place);
        let Some(octets) = self.attempt.from_server.octets(place) else {
            return Ok(());
        };
        match frame_for(self.me, octets) {
            Some(frame) => match self.client.hear(disk, &frame) {
                Ok(()) => {
                    images_law(self.client.notes(), disk);
                    Ok(())
                }
                Err(halt) => Err(stopped_by(halt)),
            },
            None => Ok(()),
        }
    }

    /// The client counts a tick. Takes no memory.
    pub(crate) fn tick<D: Disk>(&mut self, _disk: &mut D)
        requires { IsReadyParty D.Disk self.old _disk.old }
        ensures theirs { IsTheirs D.Disk self.new _disk.new }
        ensures begins { (seat : Seat) (whole : ClientPart) → IsSeat self.old seat
            → whole ≡ part_with seat.party ticks
            → BeginsPart D.Disk whole self.old self.new _disk.old _disk.new }
    {
        self.client.tick();
    }

    /// The client sends all that it has to send. Takes memory.
    pub(crate) fn say<D: Disk>(&mut self, _disk: &mut D) -> Result<(), Stopped>
        requires { IsTheirs D.Disk self.old _disk.old }
        ensures ready { OnOk result (IsReadyParty D.Disk self.new _disk.new) }
        ensures same { _disk.new ≡ _disk.old }
        ensures keeps { KeepsOthers self.old self.new }
        ensures says { OnOk result ((client : ClientValue) (lanes : Lanes) → IsClient self.old.client client
            → HasLanes self.old.attempt lanes → SaysAll client lanes self.new) }
    {
        let mut out = ArrayVec::new();
        while self.client.next_out(&mut out) {
            self.attempt.send(out.as_slice())?;
        }
        Ok(())
    }
}

/// The frame for this station that has these octets, if one does.
pub(crate) fn frame_for(me: Call, octets: &[u8]) -> Option<Frame<'_>>
    ensures own { IfSome result (λ frame. IsFor me (value_of frame)) }
    ensures numbers { IfSome result (λ frame. FitsControl (value_of frame).kind.control) }
    // Octets that some frame for the station has give that frame.
    ensures only { (frame : FrameValue) → FrameText frame octets.now → IsFor me frame
        → MatchOption result ⊥ (λ read. value_of read ≡ frame) }
{
    match read_frame(octets) {
        Ok(frame) if frame.dest == me && frame.via == 0 => Some(frame),
        _ => None,
    }
}

/// A client halted so over its disk.
fn stopped_by(halt: Halt) -> Stopped
    ensures { halt_of result ≡ halt }
{
    match halt {
        Halt::Disk => Stopped::Broken(Breach::ClientDisk),
        Halt::OutOfMemory => Stopped::OutOfMemory,
    }
}

/// The number on the server of a task that is unfinished; none of any other.
fn number_if_going(noted: Option<Noted>) -> Option<FileNumber>
    ensures { result ≡ number_if_going noted }
{
    let Some(noted) = noted else {
        return None;
    };
    match noted {
        Noted::Going { number, .. } => Some(number),
        _ => None,
    }
}

/// The number on the server of a task that was acknowledged; none of any other.
fn number_if_acked(noted: Option<Noted>) -> Option<FileNumber>
    ensures { result ≡ number_if_acked noted }
{
    let Some(noted) = noted else {
        return None;
    };
    match noted {
        Noted::Acked { number, .. } => Some(number),
        _ => None,
    }
}
