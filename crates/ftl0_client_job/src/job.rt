//! The job of a client: what each packet gives, and what is sent next (FTL0 1990).

ghost use Rattle.std.specs.Prelude.{◌≡◌, ◌≤◌, [], false, length, OnOk, Some};
ghost use Rattle.std.specs.Option.{option_map};
ghost use Rattle.ftl0_packets.specs.Values.{item_of};
ghost use Rattle.client_notes.specs.Notes.{Lists};
ghost use Rattle.client_notes.specs.State.{StandsOn};
ghost use Rattle.client_notes.specs.Limits.{longest_file};
ghost use Rattle.ftl0_client_job.specs.declared.work.Work.TheVariants as work;
ghost use Rattle.ftl0_client_job.specs.Directory.{new_directory};
ghost use Rattle.ftl0_client_job.specs.Download.{new_download};
ghost use Rattle.ftl0_client_job.specs.Due.{PutsDue, next_due};
ghost use Rattle.ftl0_client_job.specs.JobState.{MayTake, NotesGoWith};
ghost use Rattle.ftl0_client_job.specs.Row.{at_once};
ghost use Rattle.ftl0_client_job.specs.Table.{listing_of, new_job};
ghost use Rattle.ftl0_client_job.specs.Taking.{TakesPacket, with_notes};
ghost use Rattle.ftl0_client_job.specs.Upload.{new_upload};

use crate::directory::Directory;
use crate::download::Download;
use crate::ending::strange;
use crate::upload::Upload;
use crate::work::Work;
use crate::{Ending, Outcome};
use arrayvec::ArrayVec;
use client_notes::{Notes, TaskNumber};
use disk_model::{Disk, Halt};
use ftl0_packets::{Malformed, Packet};
use px_base::{Call, FileBytes, FileNumber};
use std::alloc::Global;
use std::marker::Model;

/// The octets of the reply to one packet.
pub type Replies = ArrayVec<u8, 2049>;

/// A job of a client, over notes and a disk that it doesn't hold. Contracts see it as a `JobState`. An upload keeps its
/// file in memory, a list its tokens and the octets that came, a download fewer than 512 octets.
#[derive(Drop)]
pub struct Job {
    work: Work,
    ending: Option<Ending>,
}

impl Model for Job {
    ghost use Rattle.ftl0_client_job.specs.Table.{JobState};

    ghost Value = { JobState };

    ghost view = { λ a. record { work = a.work; ending = a.ending } };
}

impl Job {
    /// The upload of a task's file, of at most 4,194,304 octets. The number is the one that the file is known to have on
    /// the server, or 0. Takes no memory.
    pub fn upload(task: TaskNumber, number: FileNumber, file: FileBytes) -> Job
        requires { length file ≤ longest_file }
        ensures { result ≡ new_job (work.Upload (new_upload task number file)) }
    {
        Job {
            work: Work::Upload(Upload::new(task, number, file)),
            ending: None,
        }
    }

    /// The list of the files that the selection of these tokens, at most 2,047 octets, matches. Takes no memory yet.
    pub fn list(alloc: Global, tokens: FileBytes) -> Job
        requires { length tokens ≤ 2047 }
        ensures { result ≡ new_job (work.Directory (new_directory tokens)) }
    {
        Job {
            work: Work::Directory(Directory::new(alloc, tokens)),
            ending: None,
        }
    }

    /// The download of the file of this number, which isn't 0, of this server, after the octets that the notes have.
    /// Takes no memory.
    pub fn download(server: Call, number: FileNumber) -> Job
        requires { 1 ≤ number }
        ensures { result ≡ new_job (work.Download (new_download server number)) }
    {
        Job {
            work: Work::Download(Download::new(server, number)),
            ending: None,
        }
    }

    /// Takes a packet: its row of the client's table. What the row notes is on the disk before its replies are given. A
    /// packet that has no row in the state, or is malformed, is strange; one that comes after the outcome changes
    /// nothing. Takes memory, except for an upload.
    ///
    /// A stop leaves the job as it was, and gives no reply. After `Disk` the commands before the one in which the disk
    /// failed are noted, and that one may be. After `OutOfMemory`, which an upload never meets, the commands before the
    /// one for which there was no memory are noted.
    pub fn take<D: Disk>(
        &mut self,
        disk: &mut D,
        packet: Result<Packet<'_>, Malformed>,
        notes: &mut Notes,
        replies: &mut Replies,
    ) -> Result<(), Halt>
        requires empty { replies.old.items ≡ [] }
        requires may { MayTake D.Disk notes.old disk.old self.old }

        // The answer is the packet's row, and the row's commands are on the disk; or a stop.
        ensures takes { TakesPacket D.Disk (item_of packet.entry)
            (with_notes self.old notes.old disk.old) (with_notes self.new notes.new disk.new) replies.new.items result }

        // What the next packet needs.
        ensures may { OnOk result (MayTake D.Disk notes.new disk.new self.new) }
        ensures stands_on { StandsOn D.Disk notes.new disk.new }
    {
        if self.ending.is_some() {
            return Ok(());
        }
        self.ending = self.work.take_item(disk, packet, notes, replies)?;
        Ok(())
    }

    /// The reply to a packet of this type didn't fit the link: that is strange, whatever the packet's row gave, and
    /// nothing of the reply is sent. What the row noted stays noted. Takes no memory.
    pub fn lose_reply(&mut self, kind: u8)
        ensures { self.new ≡ record self.old { ending = Some (at_once (Outcome.Strange kind)) } }
    {
        self.ending = Some(strange(kind));
    }

    /// Replaces what `out` has by what is due next: DATA of the next 254 octets of the file, the last one shorter, or
    /// DATA_END if none is left. It answers false, and nothing changed, exactly if nothing is due. Takes no memory.
    pub fn fill(&mut self, out: &mut ArrayVec<u8, 256>) -> bool
        ensures puts { PutsDue (next_due self.old) result self.old self.new out.old.items out.new.items }
        ensures notes_are { (lists : Lists) → NotesGoWith lists self.old → NotesGoWith lists self.new }
    {
        if self.ending.is_some() {
            return false;
        }
        self.work.fill(out)
    }

    /// How the job ended, and when its link is hung up; `None` as long as it goes on. Takes no memory.
    pub fn ending(&self) -> Option<Ending>
        ensures { result ≡ self.now.ending }
    {
        self.ending
    }

    /// What became of the job; `None` as long as it goes on. Takes no memory.
    pub fn outcome(&self) -> Option<Outcome>
        ensures { result ≡ option_map (λ ending. ending.outcome) self.now.ending }
    {
        Some(self.ending?.outcome)
    }

    /// The octets of the list that came: short headers of 73 octets, one after another, if the outcome is `Listed`;
    /// none of any other job. Takes no memory.
    pub fn listing(&self) -> &[u8]
        ensures { result.now ≡ listing_of self.now.work }
    {
        self.work.listing()
    }
}
