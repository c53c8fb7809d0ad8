//! What a job does.

ghost use Rattle.std.specs.Prelude.{◌≡◌, []};
ghost use Rattle.ftl0_packets.specs.Values.{item_of, value_of};
ghost use Rattle.ftl0_client_job.specs.Due.{PutsDue, work_due};
ghost use Rattle.ftl0_client_job.specs.JobState.{MayWork};
ghost use Rattle.ftl0_client_job.specs.Table.{item_row, listing_of, packet_row};
ghost use Rattle.ftl0_client_job.specs.Taking.{StopsAt, TakesRow, with_notes};

use crate::directory::Directory;
use crate::download::Download;
use crate::ending::strange;
use crate::upload::Upload;
use crate::{Ending, Replies};
use arrayvec::ArrayVec;
use client_notes::Notes;
use disk_model::{Disk, Halt};
use ftl0_packets::{Malformed, Packet};

/// What a job does.
#[derive(Drop)]
pub(crate) enum Work {
    /// It uploads a file.
    Upload(Upload),
    /// It lists the files that a selection matches.
    Directory(Directory),
    /// It downloads a file.
    Download(Download),
}

impl Work {
    /// Takes a packet, malformed or not: its row, or a stop. A malformed one is strange. Takes memory, except for an
    /// upload.
    pub(crate) fn take_item<D: Disk>(
        &mut self,
        disk: &mut D,
        packet: Result<Packet<'_>, Malformed>,
        notes: &mut Notes,
        replies: &mut Replies,
    ) -> Result<Option<Ending>, Halt>
        requires empty { replies.old.items ≡ [] }
        requires may { MayWork D.Disk notes.old disk.old self.old }
        ensures takes { TakesRow D.Disk (item_row notes.old.lists self.old (item_of packet.entry))
            (with_notes self.old notes.old disk.old) (with_notes self.new notes.new disk.new) replies.new.items result }
        ensures stops { StopsAt self.old result }
    {
        match packet {
            Ok(packet) => self.take(disk, &packet, notes, replies),
            Err(malformed) => Ok(Some(strange(malformed.kind))),
        }
    }

    /// Takes a packet: its row, or a stop.
    fn take<D: Disk>(
        &mut self,
        disk: &mut D,
        packet: &Packet<'_>,
        notes: &mut Notes,
        replies: &mut Replies,
    ) -> Result<Option<Ending>, Halt>
        requires empty { replies.old.items ≡ [] }
        requires may { MayWork D.Disk notes.old disk.old self.old }
        ensures takes { TakesRow D.Disk (packet_row notes.old.lists self.old (value_of packet.now))
            (with_notes self.old notes.old disk.old) (with_notes self.new notes.new disk.new) replies.new.items result }
        ensures stops { StopsAt self.old result }
    {
        match self {
            Work::Upload(at) => at.take(disk, packet, notes, replies),
            Work::Directory(at) => Ok(at.take(packet, replies)?),
            Work::Download(at) => at.take(disk, packet, notes, replies),
        }
    }

    /// Replaces what `out` has by what is due next; false, and nothing changed, exactly if nothing is due.
    pub(crate) fn fill(&mut self, out: &mut ArrayVec<u8, 256>) -> bool
        ensures { PutsDue (work_due self.old) result self.old self.new out.old.items out.new.items }
    {
        match self {
            Work::Upload(at) => at.fill(out),
            Work::Directory(_) | Work::Download(_) => false,
        }
    }

    /// The octets of the list that came.
    pub(crate) fn listing(&self) -> &[u8]
        ensures { result.now ≡ listing_of self.now }
    {
        match self {
            Work::Directory(at) => at.listing(),
            Work::Upload(_) | Work::Download(_) => &[],
        }
    }
}
