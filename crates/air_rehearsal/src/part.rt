//! The part of a client in an event.

ghost use Rattle.std.specs.Prelude.{◌≡◌, ◌≢◌, ◌↔◌, Err, None, OnOk, IsTrue};
ghost use Rattle.disk_model.specs.Cuts.{cuts_by};
ghost use Rattle.client_notes.specs.Notes.{task_count};
ghost use Rattle.air_world.specs.Events.{ClientPart, ClientTakes};
ghost use Rattle.air_world.specs.Lawful.{IsAllowed};
ghost use Rattle.air_world.specs.Schedule.{Event};
ghost use Rattle.air_rehearsal.specs.Breaches.{halted};
ghost use Rattle.air_rehearsal.specs.PartCalls.{ActsPart, BeCut, BeginsPart, KeepsOthers, TouchesPart};
ghost use Rattle.air_rehearsal.specs.PartCalls.{uploads_by};
ghost use Rattle.air_rehearsal.specs.Ready.{IsReadyParty, IsTheirs, KeepsParty, MayDo};
ghost use Rattle.air_rehearsal.specs.Seats.{asks as asks_in};
ghost use Rattle.air_rehearsal.specs.TakingPart.{IsPart, IsSeat, Seat, TakesPart};
ghost use Rattle.air_rehearsal.specs.Worlds.{IsSteady};

use crate::cuts::Cut;
use crate::party::Party;
use crate::stopped::{Breach, Stopped};
use air_world::laws::sound_law;
use client_notes::laws::{armed_law, images_law};
use client_notes::{LONGEST_FILE, TaskNumber};
use disk_model::{CutDisk, Disk, Halt};
use px_base::{FileBytes, FileNumber};
use std::alloc::Global;

/// The most octets of a selection that is asked.
const MOST_TOKENS: usize = 2_047;

/// What a client does in an event.
#[derive(Drop)]
pub(crate) enum Part {
    /// It is asked to send the file of an upload.
    Upload {
        /// Which upload it is.
        upload: u32,
        /// Its file.
        file: FileBytes,
    },
    /// It is asked to go on with its last unfinished upload.
    Resume {
        /// The task.
        task: TaskNumber,
        /// Its number on the server; 0 where it has none.
        number: FileNumber,
        /// Its file.
        file: FileBytes,
    },
    /// It is asked for the list of the files that a selection holds of.
    List {
        /// The tokens of the selection.
        tokens: FileBytes,
    },
    /// It is asked for a file.
    Download {
        /// The file's number.
        number: FileNumber,
    },
    /// It hears a transmission of the server.
    Hear {
        /// The place of the transmission in the newest attempt.
        place: usize,
    },
    /// It counts a tick.
    Tick,
}

impl Part {
    /// Whether the client is asked for something.
    pub(crate) fn asks(&self) -> bool
        ensures { result ≡ asks_in self.now }
    {
        match self {
            Part::Upload { .. } | Part::Resume { .. } | Part::List { .. } | Part::Download { .. } =>
                true,
            Part::Hear { .. } | Part::Tick => false,
        }
    }
}

impl Party {
    /// Whether the client may do this: it is asked only while nothing is under way.
    pub(crate) fn may_do(&self, part: &Part) -> bool
        ensures { IsTrue result ↔ MayDo self.now part.now }
    {
        match part {
            Part::Upload { file, .. } | Part::Resume { file, .. } => {
                self.is_free() && file.len() <= LONGEST_FILE as usize
            }
            Part::List { tokens } => self.is_free() && tokens.len() <= MOST_TOKENS,
            Part::Download { number } => self.is_free() && number.get() >= 1,
            Part::Hear { .. } | Part::Tick => true,
        }
    }

    /// The client takes part in an event over its disk. A cut that waits comes in it. Takes memory.
    pub(crate) fn take_part<B: CutDisk>(
        &mut self,
        alloc: Global,
        disk: &mut B,
        part: Part,
    ) -> Result<(), Stopped>
        requires ready { IsReadyParty B.Disk self.old disk.old }
        requires may { MayDo self.old part }
        ensures ready { OnOk result (IsReadyParty B.Disk self.new disk.new) }

        // What becomes of the client of whichever world it is, and of the disk.
        ensures takes { OnOk result ((seat : Seat) (event : Event) (whole : ClientPart) → IsSeat self.old seat
            → IsAllowed seat.world event → ClientTakes seat.world event seat.c whole → IsPart seat part whole
            → IsSteady B.Disk (cuts_by B.restarts B.arming B.plain B.is_starved) disk.old
            → TakesPart B.Disk (cuts_by B.restarts B.arming B.plain B.is_starved) whole self.old self.new
            disk.old disk.new) }
    {
        match self.cut {
            Some(cut) => self.be_cut(alloc, disk, part, cut)?,
            None => self.act(alloc, disk, part)?,
        }
        if disk.starved() {
            return Err(Stopped::OutOfMemory);
        }
        Ok(())
    }

    /// The client does this, and sends what it has to send. Takes memory.
    fn act<D: Disk>(&mut self, alloc: Global, disk: &mut D, part: Part) -> Result<(), Stopped>
        requires ready { IsReadyParty D.Disk self.old disk.old }
        requires may { MayDo self.old part }
        ensures ready { OnOk result (IsReadyParty D.Disk self.new disk.new) }
        ensures acts { OnOk result ((seat : Seat) (event : Event) (whole : ClientPart) → IsSeat self.old seat
            → IsAllowed seat.world event → ClientTakes seat.world event seat.c whole → IsPart seat part whole
            → self.old.cut ≡ None → ActsPart D.Disk whole self.old self.new disk.old disk.new) }
    {
        sound_law();
        self.do_part(alloc, disk, part)?;
        self.say(disk)
    }

    /// The client does this. Takes memory.
    fn do_part<D: Disk>(&mut self, alloc: Global, disk: &mut D, part: Part) -> Result<(), Stopped>
        requires ready { IsReadyParty D.Disk self.old disk.old }
        requires may { MayDo self.old part }
        ensures theirs { OnOk result (IsTheirs D.Disk self.new disk.new) }
        ensures begins { OnOk result ((seat : Seat) (whole : ClientPart) → IsSeat self.old seat
            → IsPart seat part whole → BeginsPart D.Disk whole self.old self.new disk.old disk.new) }
    {
        match part {
            Part::Upload { upload, file } => self.ask_upload(alloc, disk, upload, file),
            Part::Resume { task, number, file } => {
                self.ask_resume(alloc, disk, task, number, file)
            }
            Part::List { tokens } => self.ask_list(alloc, disk, tokens),
            Part::Download { number } => self.ask_download(alloc, disk, number),
            Part::Hear { place } => self.hear(disk, place),
            Part::Tick => {
                self.tick(disk);
                Ok(())
            }
        }
    }

    /// Power is cut where the client does this: nothing is sent, and it starts again from its notes. No cut waits then.
    /// Takes memory.
    fn be_cut<B: CutDisk>(
        &mut self,
        alloc: Global,
        disk: &mut B,
        part: Part,
        cut: Cut,
    ) -> Result<(), Stopped>
        requires ready { IsReadyParty B.Disk self.old disk.old }
        requires may { MayDo self.old part }
        ensures ready { OnOk result (IsReadyParty B.Disk self.new disk.new) }
        ensures cut { OnOk result ((seat : Seat) (whole : ClientPart) → IsSeat self.old seat
            → IsPart seat part whole
            → IsSteady B.Disk (cuts_by B.restarts B.arming B.plain B.is_starved) disk.old
            → BeCut B.Disk (cuts_by B.restarts B.arming B.plain B.is_starved) cut.call whole self.new
            disk.old disk.new) }
    {
        armed_law::<B>();
        cut.arm(disk);
        images_law(self.client.notes(), disk);
        let came = self.touch_disk(disk, &part);
        memory_found(came)?;
        cut.strike(disk)?;
        self.restart(alloc, disk)?;
        self.note_part(&part)?;
        self.cut = None;
        Ok(())
    }

    /// Looks for the task of the upload that was asked, if one was. Takes memory.
    fn note_part(&mut self, part: &Part) -> Result<(), Stopped>
        ensures keeps { KeepsParty self.old self.new }
        ensures notes { OnOk result (self.new.uploads.items
            ≡ uploads_by part.now (task_count self.old.client.notes.lists) self.old.uploads.items) }
    {
        match part {
            Part::Upload { upload, .. } => self.note_task(*upload),
            Part::Resume { .. }
            | Part::List { .. }
            | Part::Download { .. }
            | Part::Hear { .. }
            | Part::Tick => Ok(()),
        }
    }

    /// The client does of this what its disk has to do with. Takes memory.
    fn touch_disk<D: Disk>(&mut self, disk: &mut D, part: &Part) -> Result<(), Stopped>
        requires ready { IsReadyParty D.Disk self.old disk.old }
        requires may { MayDo self.old part.now }
        ensures keeps { KeepsOthers self.old self.new }
        ensures touches { (seat : Seat) (whole : ClientPart) → IsSeat self.old seat → IsPart seat part.now whole
            → TouchesPart D.Disk whole self.new disk.old disk.new (halted result) }
    {
        images_law(self.client.notes(), disk);
        match part {
            Part::Upload { upload, file } => match self.start(disk, *upload, file.as_slice()) {
                Ok(_) => Ok(()),
                Err(stopped) => Err(stopped),
            },
            Part::Hear { place } => self.hear(disk, *place),
            Part::Resume { .. } | Part::List { .. } | Part::Download { .. } | Part::Tick => Ok(()),
        }
    }
}

/// What is to be cut may stop by a fault of the disk; whatever else stops it ends the rehearsal.
fn memory_found(came: Result<(), Stopped>) -> Result<(), Stopped>
    ensures { OnOk result (halted came ≢ Err Halt.OutOfMemory) }
{
    match came {
        Ok(()) => Ok(()),
        Err(Stopped::Broken(Breach::ClientDisk)) => Ok(()),
        Err(stopped) => Err(stopped),
    }
}
