//! The journal: recovery, reading, appending.

ghost use Rattle.std.specs.Prelude.{◌≡◌, ◌↔◌, ℕ, ◌+◌, ◌^◌, ◌<◌, ◌≤◌, List, [], ◌∷◌, ◌++◌, length, true, false, IfOk, IfSome, IsErr, IsErrOf, MatchResult, None, OnErr, OnOk, OnSome};
ghost use Rattle.disk_model.specs.Disk.{FillsRoom};
ghost use Rattle.file_journal.specs.Appending.{Appends, LeavesAppending, LeavesBeforeOrAfter, TakesCalls};
ghost use Rattle.file_journal.specs.Blocks.{GoesOnOrFails, HasBlock, LeavesRecords, LeavesWritingBlock};
ghost use Rattle.file_journal.specs.Blocks.{MayWriteBlock, WritesBlock};
ghost use Rattle.file_journal.specs.Bounds.{RecoversInHalves, StaysInHalves};
ghost use Rattle.disk_model.specs.Runs.{IsQuietNow, Leaves, Puts, Reads, Runs, TakesStep};
ghost use Rattle.file_journal.specs.Header.{AreBlocks};
ghost use Rattle.file_journal.specs.Looking.{IsFound};
ghost use Rattle.file_journal.specs.Layout.{block_in, half_end, half_gate, half_size, other_half};
ghost use Rattle.file_journal.specs.Next.{AnswersNext, IsReadable};
ghost use Rattle.file_journal.specs.Position.{HasRoom, MovesOn, StandsOn, end_of, position_at_first, readable, room_in};
ghost use Rattle.file_journal.specs.Records.{IsRecord, record_of, record_text};
ghost use Rattle.file_journal.specs.Recovery.{IsRecovered, IsRecovering, LeavesSinceSync, RecoversInCalls, Refuses};
ghost use Rattle.file_journal.specs.Looking.{SettlesInCalls};

use crate::content::{RecordContent, close_text};
use crate::format::{finish_format, format_new};
use crate::header::read_header;
use crate::layout::{HEADER, Half, block_place};
use crate::record::{RecordRoom, put_record, read_record};
use crate::write::write_synced;
use crate::{Found, JournalFault, Layout, Owed, RecoverFault};
use arrayvec::ArrayVec;
use disk_model::{Disk, DiskFault};
use std::marker::Model;

/// A journal, which holds where it is on its disk, and not the disk. Contracts see it as a `Position`.
#[derive(Debug, Drop)]
pub struct Journal {
    magic: [u8; 8],
    layout: Layout,
    blocks: u32,
    /// The half that the records are in.
    half: Half,
    /// The place of the next gate.
    place: u64,
    /// Whether the next gate was read, and isn't open.
    ended: bool,
    /// Whether a write or a sync failed.
    failed: bool,
}

impl Model for Journal {
    ghost use Rattle.file_journal.specs.Layout.{half_end};
    ghost use Rattle.file_journal.specs.Position.{Position};
    ghost use Rattle.std.specs.Prelude.{◌<◌, ◌≤◌, ◌^◌, IfSome};

    ghost Value = { Position };

    ghost view = { λ a.
        record {
          magic = a.magic;
          layout = a.layout;
          blocks = a.blocks;
          half = a.half;
          place = a.place;
          ended = a.ended;
          failed = a.failed;
        } };

    ghost invariant = { λ a. (a.place < 2 ^ 63) × (1 ≤ a.blocks) × (a.blocks ≤ 65536)
        × IfSome (half_end a.layout a.blocks a.half) (λ end. a.place < end) };
}

impl Journal {
    /// Recovers the journal of this magic and layout from whatever a crash, a fault or a killed program left on the
    /// disk, and stands at its first gate. It syncs before it reads, and makes no other write or sync on a formatted
    /// store; six more at most, where the formatting is to be done. A disk of at most 16 octets is formatted with the
    /// block number `blocks`, 1 to 65,536; one whose formatting was interrupted is formatted to its end. It may be cut
    /// at any of its writes and syncs, and is then done again.
    ///
    /// `NotAStore` and `Damaged` leave the content as it was. After `Disk` the disk is to be recovered again: once the
    /// first sync passed, a crash leaves the records of the content before; where that sync failed nothing is changed, and
    /// a crash may leave whatever it might have left before. No write and no sync follows a call of the disk that failed.
    /// Takes no memory.
    pub fn recover<D: Disk>(
        disk: &mut D,
        magic: [u8; 8],
        blocks: u32,
        layout: Layout,
    ) -> Result<Journal, RecoverFault>
        requires blocks { AreBlocks blocks }
        ensures recovered { IfOk result (IsRecovered D.Disk magic layout blocks disk.old disk.new) }

        // But for a fault of the disk, each refusal comes exactly where the content stands for it, and leaves it so.
        ensures refuses { Refuses magic layout (D.content disk.old) result }
        ensures untouched { OnErr result
            (¬ IsErrOf result RecoverFault.Disk → D.content disk.new ≡ D.content disk.old) }
        ensures runs { Runs D.Disk (IsErrOf result RecoverFault.Disk) disk.old disk.new }

        // A crash since the start leaves what it might have left before, or the same records; since the end of the
        // first sync the same records, but where that sync failed.
        ensures since_start { Leaves D.Disk disk.old disk.new (IsRecovering magic layout blocks) }
        ensures since_sync { LeavesSinceSync D.Disk result disk.old disk.new (IsRecovering magic layout blocks) }

        // In two halves nothing is written behind the store whose block number it has, or gets.
        ensures within { RecoversInHalves D.Disk layout blocks disk.old disk.new }
        ensures calls { RecoversInCalls D.Disk magic layout blocks disk.old disk.new }
    {
        // A crash before this sync leaves any octets where an earlier write wasn't synced, whatever a read gives; after
        // it, what is read. Where it fails, nothing is read, and it isn't tried again.
        disk.sync()?;
        let found = Journal::look(disk, magic, blocks, layout)?;
        let journal = Journal::settle(found, disk, magic, blocks, layout)?;
        Ok(journal)
    }

    /// Looks what a disk holds of a journal of this magic and layout, by reads alone: the journal at its first gate,
    /// and what is owed to the formatting of its store. A disk of at most 16 octets is found as a store that isn't
    /// formatted yet, and gets the block number `blocks`, 1 to 65,536. Where nothing is owed, and the disk is quiet,
    /// the records can be read; a recovery does first what is owed. Takes no memory.
    ///
    /// `NotAStore` and `Damaged` come exactly where the content stands for them; `Disk`: a read failed.
    pub fn look<D: Disk>(
        disk: &mut D,
        magic: [u8; 8],
        blocks: u32,
        layout: Layout,
    ) -> Result<Found, RecoverFault>
        requires blocks { AreBlocks blocks }
        ensures found { IfOk result (IsFound D.Disk magic layout blocks disk.new) }
        ensures refuses { Refuses magic layout (D.content disk.old) result }
        ensures reads { Reads D.Disk (IsErrOf result RecoverFault.Disk) disk.old disk.new }
    {
        let len = disk.len()?;
        if len <= HEADER {
            return Ok(Found {
                journal: Journal::at_first_gate(magic, layout, blocks, Half::First),
                owed: Owed::Formatting,
            });
        }
        let header = read_header(disk, magic)?;
        let gate = layout.first_gate(header.blocks);
        if len < gate + 2 {
            // Behind an interrupted formatting the selector is made even.
            return Ok(Found {
                journal: Journal::at_first_gate(magic, layout, header.blocks, Half::First),
                owed: Owed::Gates(header.selector),
            });
        }
        let half = layout.half(header.selector);
        Ok(Found {
            journal: Journal::at_first_gate(magic, layout, header.blocks, half),
            owed: Owed::Nothing,
        })
    }

    /// Does what a look at a disk found to be owed to the formatting of a store of this magic and layout, on that disk,
    /// which is quiet; a new store gets the block number `blocks`. The journal, of which nothing is read yet. It may be
    /// cut at any of its writes and syncs, and the recovery is then done again.
    fn settle<D: Disk>(
        found: Found,
        disk: &mut D,
        magic: [u8; 8],
        blocks: u32,
        layout: Layout,
    ) -> Result<Journal, DiskFault>
        requires blocks { AreBlocks blocks }
        requires quiet { IsQuietNow D.Disk disk.old }
        requires found { IsFound D.Disk magic layout blocks disk.old found }
        ensures recovered { IfOk result (IsRecovered D.Disk magic layout blocks disk.old disk.new) }
        ensures puts { Puts D.Disk (IsErr result) disk.old disk.new }
        ensures since { Leaves D.Disk disk.old disk.new (IsRecovering magic layout blocks) }
        ensures calls { SettlesInCalls D.Disk found.owed disk.old disk.new }
    {
        let Found { journal, owed } = found;
        match owed {
            Owed::Nothing => Ok(journal),
            Owed::Formatting => {
                format_new(disk, magic, blocks, layout)?;
                Ok(journal)
            }
            Owed::Gates(selector) => {
                let gate = layout.first_gate(journal.blocks);
                finish_format(disk, gate, selector)?;
                Ok(journal)
            }
        }
    }

    /// At the first gate of this half, with nothing read yet.
    fn at_first_gate(magic: [u8; 8], layout: Layout, blocks: u32, half: Half) -> Journal
        requires blocks { AreBlocks blocks }
        ensures { result ≡ position_at_first magic layout blocks half }
    {
        Journal {
            magic,
            layout,
            blocks,
            half,
            place: layout.half_gate(blocks, half),
            ended: false,
            failed: false,
        }
    }

    /// Reads the next record: its kind, with its content in `room`; `None` exactly at the first gate that isn't open.
    /// Only a record replaces what is in `room`. No append, no write of a block and no rewriting failed before. Takes
    /// no memory.
    ///
    /// `Damaged`: the gate isn't there, or it is open, and no whole record with a gate behind it follows, in the half
    /// of the journal's records. It and `Disk` leave the journal as it was. `NotAStore` is not answered.
    pub fn next<D: Disk>(
        &mut self,
        disk: &mut D,
        room: &mut ArrayVec<u8, 600>,
    ) -> Result<Option<u8>, RecoverFault>
        requires stands_on { StandsOn D.Disk self.old disk.old }
        requires healthy { self.old.failed ≡ false }
        ensures stands_on { StandsOn D.Disk self.new disk.new }
        ensures journal { self.new ≡ record self.old { place = self.new.place; ended = self.new.ended } }

        // But for a fault of the disk, it answers exactly what stands at its place.
        ensures next { AnswersNext self.old self.new room.new.items (D.content disk.old) result }
        ensures ended { result ≡ Ok None → self.new ≡ record self.old { ended = true } }
        ensures moves { IfOk result (λ next.
            OnSome next (self.new.place ≡ self.old.place + 4 + length room.new.items)) }
        ensures fits { self.new.place < 2 ^ 63 }
        ensures is_store { (found : List ℕ) → ¬ IsErrOf result (RecoverFault.NotAStore found) }
        ensures err { OnErr result ((self.new ≡ self.old) × (room.new ≡ room.old)) }
        ensures room { result ≡ Ok None → room.new ≡ room.old }
        ensures reads { Reads D.Disk (IsErrOf result RecoverFault.Disk) disk.old disk.new }
    {
        let _ = &self.magic;
        let end = self.readable(disk.len()?);
        let mut found = RecordRoom::new();
        match self.find_next(disk, end, &mut found) {
            Ok(None) => Ok(None),
            Ok(Some(kind)) => {
                room.clear();
                room.try_extend_from_slice(found.content()).unwrap();
                Ok(Some(kind))
            }
            Err(fault) => Err(fault),
        }
    }

    /// Where what it reads of a disk of so many octets ends: where its half ends, or the disk.
    pub(crate) fn readable(&self, len: u64) -> u64
        ensures { result ≡ readable (end_of self.now) len }
    {
        match self.end() {
            Some(end) => len.min(end),
            None => len,
        }
    }

    /// Where the half of its records ends, if it does.
    fn end(&self) -> Option<u64>
        ensures { result ≡ end_of self.now }
    {
        self.layout.half_end(self.blocks, self.half)
    }

    /// How many octets there is room for behind the next gate, up to the end of its half; 2^62 where the records have
    /// no end. Takes no memory.
    pub fn room(&self) -> u64
        ensures { result ≡ room_in self.now.place (end_of self.now) }
    {
        match self.end() {
            Some(end) => end - self.place - 1,
            None => 1 << 62,
        }
    }

    /// Reads the next record of what is read of its disk up to this place, as [`next`](Journal::next) does, whatever
    /// the room holds then where there is none.
    pub(crate) fn find_next<D: Disk>(
        &mut self,
        disk: &mut D,
        end: u64,
        room: &mut RecordRoom,
    ) -> Result<Option<u8>, RecoverFault>
        requires end { IsReadable D.Disk self.old disk.old end }
        requires stands_on { StandsOn D.Disk self.old disk.old }
        requires healthy { self.old.failed ≡ false }
        ensures stands_on { StandsOn D.Disk self.new disk.new }
        ensures journal { self.new ≡ record self.old { place = self.new.place; ended = self.new.ended } }
        ensures next { AnswersNext self.old self.new room.new (D.content disk.old) result }
        ensures ended { result ≡ Ok None → self.new ≡ record self.old { ended = true } }
        ensures moves { IfOk result (λ next.
            OnSome next (self.new.place ≡ self.old.place + 4 + length room.new)) }
        ensures fits { self.new.place + 1 ≤ 2 ^ 63 }
        ensures is_store { (found : List ℕ) → ¬ IsErrOf result (RecoverFault.NotAStore found) }
        ensures err { OnErr result (self.new ≡ self.old) }
        ensures reads { Reads D.Disk (IsErrOf result RecoverFault.Disk) disk.old disk.new }
    {
        match read_record(disk, end, self.place, room)? {
            None => {
                self.ended = true;
                Ok(None)
            }
            Some(kind) => {
                self.place += 4 + room.content().len() as u64;
                Ok(Some(kind))
            }
        }
    }

    /// Puts a record at the end. `next` has to have answered `None`; the content has at most 600 octets, and there is
    /// room for it, with the four octets before it. After `Ok` a crash leaves the records from before and this one,
    /// until then these or the ones from before. It makes two writes and two syncs, and reads nothing. Takes no memory.
    ///
    /// `Disk`: the record may stand or not, and the journal answers `Failed` from then on, where nothing is touched;
    /// a new recovery is needed. No write and no sync follows a call of the disk that failed. A record that would pass
    /// octet 2^63 is such a fault of the disk.
    pub fn append<D: Disk>(
        &mut self,
        disk: &mut D,
        kind: u8,
        content: &[u8],
    ) -> Result<(), JournalFault>
        requires stands_on { StandsOn D.Disk self.old disk.old }
        requires ended { self.old.ended ≡ true }
        requires most { length content.now ≤ 600 }
        requires room { HasRoom self.old (4 + length content.now) }
        ensures stands_on { StandsOn D.Disk self.new disk.new }
        ensures journal { self.new ≡ record self.old { place = self.new.place; failed = self.new.failed } }
        ensures ok { OnOk result (TakesStep D.Disk disk.old disk.new (Appends self.old (record_of kind content.now))) }
        ensures quiet { OnOk result (IsQuietNow D.Disk disk.new) }

        // `Failed` comes exactly after an earlier `Disk`, and touches nothing.
        ensures failed { IsErrOf result JournalFault.Failed ↔ (self.old.failed ≡ true) }
        ensures fails { OnErr result (self.new ≡ record self.old { failed = true }) }
        ensures goes_on { OnOk result (self.new.failed ≡ false) }
        ensures untouched { IsErrOf result JournalFault.Failed → (self.new ≡ self.old) × (disk.new ≡ disk.old) }
        ensures puts { Puts D.Disk (IsErrOf result JournalFault.Disk) disk.old disk.new }

        // A crash at any moment since the start leaves the records from before, with the new one or without; and outside
        // the record and the gates before and behind it, the octets of an image from before.
        ensures any_moment { LeavesBeforeOrAfter D.Disk self.old (record_of kind content.now) disk.old disk.new }
        ensures since { LeavesAppending D.Disk self.old (record_of kind content.now) disk.old disk.new }
        ensures moves { OnOk result (MovesOn (4 + length content.now) self.old self.new) }
        ensures calls { TakesCalls D.Disk 4 disk.old disk.new result }
        ensures within { StaysInHalves D.Disk self.old.layout self.old.blocks disk.old disk.new }
    {
        if self.failed {
            return Err(JournalFault::Failed);
        }
        let mut text = RecordContent::new();
        text.put(content);
        self.put(disk, kind, &mut text)?;
        Ok(())
    }

    /// Puts a record of this content at the end, as [`append`](Journal::append) does, of a journal of which no append
    /// failed before. Takes no memory.
    pub(crate) fn put<D: Disk>(
        &mut self,
        disk: &mut D,
        kind: u8,
        content: &mut RecordContent,
    ) -> Result<(), DiskFault>
        requires stands_on { StandsOn D.Disk self.old disk.old }
        requires healthy { self.old.failed ≡ false }
        requires ended { self.old.ended ≡ true }
        requires room { HasRoom self.old (4 + length content.old) }
        ensures stands_on { StandsOn D.Disk self.new disk.new }
        ensures journal { self.new ≡ record self.old { place = self.new.place; failed = self.new.failed } }
        ensures ok { OnOk result (TakesStep D.Disk disk.old disk.new (Appends self.old (record_of kind content.old))) }
        ensures quiet { OnOk result (IsQuietNow D.Disk disk.new) }
        ensures fails { OnErr result (self.new ≡ record self.old { failed = true }) }
        ensures goes_on { OnOk result (self.new.failed ≡ false) }
        ensures puts { Puts D.Disk (IsErr result) disk.old disk.new }
        ensures any_moment { LeavesBeforeOrAfter D.Disk self.old (record_of kind content.old) disk.old disk.new }
        ensures since { LeavesAppending D.Disk self.old (record_of kind content.old) disk.old disk.new }
        ensures moves { OnOk result (MovesOn (4 + length content.old) self.old self.new) }
        ensures calls { TakesCalls D.Disk 4 disk.old disk.new result }
        ensures within { StaysInHalves D.Disk self.old.layout self.old.blocks disk.old disk.new }
    {
        close_text(&mut content.text, kind, content.len);
        let text = &content.text[1..5 + content.len];
        let octets = &text[3..3 + content.len];
        self.put_text(disk, kind, octets, text)
    }

    /// Puts this text at the end, which is that of a record of this kind and content, with a closed gate.
    fn put_text<D: Disk>(
        &mut self,
        disk: &mut D,
        _kind: u8,
        _content: &[u8],
        text: &[u8],
    ) -> Result<(), DiskFault>
        requires stands_on { StandsOn D.Disk self.old disk.old }
        requires end { (self.old.failed ≡ false) × (self.old.ended ≡ true) }
        requires fits { IsRecord (record_of _kind _content.now) × HasRoom self.old (4 + length _content.now) }
        requires text { text.now ≡ record_text (record_of _kind _content.now) ++ 0 ∷ [] }
        ensures stands_on { StandsOn D.Disk self.new disk.new }
        ensures journal { (self.new ≡ record self.old { place = self.new.place; failed = self.new.failed })
            × TakesCalls D.Disk 4 disk.old disk.new result }
        ensures ok { OnOk result (TakesStep D.Disk disk.old disk.new (Appends self.old (record_of _kind _content.now))) }
        ensures ends { MatchResult result (λ _. IsQuietNow D.Disk disk.new × (self.new.failed ≡ false))
            (λ _. self.new ≡ record self.old { failed = true }) }
        ensures puts { Puts D.Disk (IsErr result) disk.old disk.new }
        ensures any_moment { LeavesBeforeOrAfter D.Disk self.old (record_of _kind _content.now) disk.old disk.new }
        ensures since { LeavesAppending D.Disk self.old (record_of _kind _content.now) disk.old disk.new }
        ensures moves { OnOk result (MovesOn (4 + length _content.now) self.old self.new) }
        ensures within { StaysInHalves D.Disk self.old.layout self.old.blocks disk.old disk.new }
    {
        match put_record(disk, self.place, text) {
            Ok(()) => {
                self.place += text.len() as u64;
                Ok(())
            }
            Err(fault) => {
                self.failed = true;
                Err(fault)
            }
        }
    }

    /// Reads the octets of a block of the store, from octet `at` of it on, into the room. No append, no write of a
    /// block and no rewriting failed before. It reads once, and changes no octet. Takes no memory.
    pub fn read_block<D: Disk>(
        &self,
        disk: &mut D,
        block: u32,
        at: u16,
        room: &mut [u8],
    ) -> Result<(), DiskFault>
        requires stands_on { StandsOn D.Disk self.now disk.old }
        requires healthy { self.now.failed ≡ false }
        requires block { HasBlock self.now block }
        requires within { at + length room.old ≤ 512 }
        ensures stands_on { StandsOn D.Disk self.now disk.new }
        ensures room { OnOk result (IfSome (D.content disk.old) (λ octets.
            FillsRoom (block_in octets block) at (length room.old) room.new)) }
        ensures reads { Reads D.Disk (IsErr result) disk.old disk.new }
    {
        let _ = &self.magic;
        disk.read(block_place(block) + u64::from(at), room)
    }

    /// Writes octets over the front of a block of the store, at most 512. `next` has to have answered `None`. After
    /// `Ok` a crash leaves them; until then any octets in their place, and all others, the records too, as they were.
    /// It makes one write and one sync, and reads nothing. Takes no memory.
    ///
    /// `Disk`: the octets may stand or not, and the journal answers `Failed` from then on, where nothing is touched; a
    /// new recovery is needed. No sync follows a write that failed.
    pub fn write_block<D: Disk>(
        &mut self,
        disk: &mut D,
        block: u32,
        bytes: &[u8],
    ) -> Result<(), JournalFault>
        requires stands_on { StandsOn D.Disk self.old disk.old }
        requires may { MayWriteBlock self.old block (length bytes.now) }
        ensures stands_on { StandsOn D.Disk self.new disk.new }
        ensures journal { self.new ≡ record self.old { failed = self.new.failed } }
        ensures ok { OnOk result (TakesStep D.Disk disk.old disk.new (WritesBlock self.old block bytes.now)) }
        ensures ends { GoesOnOrFails D.Disk self.old self.new disk.new result }

        // `Failed` comes exactly after an earlier `Disk`, and touches nothing.
        ensures failed { IsErrOf result JournalFault.Failed ↔ (self.old.failed ≡ true) }
        ensures untouched { IsErrOf result JournalFault.Failed → (self.new ≡ self.old) × (disk.new ≡ disk.old) }
        ensures puts { Puts D.Disk (IsErrOf result JournalFault.Disk) disk.old disk.new }

        // A crash at any moment since the start leaves the records from before; and outside the octets that are
        // written, those of an image from before.
        ensures any_moment { LeavesRecords D.Disk self.old disk.old disk.new }
        ensures since { LeavesWritingBlock D.Disk self.old block (length bytes.now) disk.old disk.new }
        ensures calls { TakesCalls D.Disk 2 disk.old disk.new result }
        ensures within { StaysInHalves D.Disk self.old.layout self.old.blocks disk.old disk.new }
    {
        if self.failed {
            return Err(JournalFault::Failed);
        }
        self.put_block(disk, block, bytes)?;
        Ok(())
    }

    /// Writes octets over the front of a block, as [`write_block`](Journal::write_block) does, of a journal of which
    /// nothing failed before.
    pub(crate) fn put_block<D: Disk>(
        &mut self,
        disk: &mut D,
        block: u32,
        bytes: &[u8],
    ) -> Result<(), DiskFault>
        requires stands_on { StandsOn D.Disk self.old disk.old }
        requires healthy { self.old.failed ≡ false }
        requires may { MayWriteBlock self.old block (length bytes.now) }
        ensures stands_on { StandsOn D.Disk self.new disk.new }
        ensures journal { self.new ≡ record self.old { failed = self.new.failed } }
        ensures ok { OnOk result (TakesStep D.Disk disk.old disk.new (WritesBlock self.old block bytes.now)) }
        ensures ends { GoesOnOrFails D.Disk self.old self.new disk.new result }
        ensures puts { Puts D.Disk (IsErr result) disk.old disk.new × TakesCalls D.Disk 2 disk.old disk.new result }
        ensures any_moment { LeavesRecords D.Disk self.old disk.old disk.new }
        ensures since { LeavesWritingBlock D.Disk self.old block (length bytes.now) disk.old disk.new }
        ensures within { StaysInHalves D.Disk self.old.layout self.old.blocks disk.old disk.new }
    {
        // A crash before these octets are synced leaves any in their place, which is before the first gate: each record
        // stays as it is.
        let written = write_synced(disk, block_place(block), bytes);
        self.failed = written.is_err();
        written
    }

    /// The half that its records aren't in, and the place of its first gate.
    pub(crate) fn other_half(&self) -> (Half, u64)
        ensures half { result.0 ≡ other_half self.now.half }
        ensures gate { result.1 ≡ half_gate self.now.layout self.now.blocks (other_half self.now.half) }
        ensures fits { result.1 + half_size self.now.blocks < 2 ^ 27 }
    {
        let half = self.half.other();
        (half, self.layout.half_gate(self.blocks, half))
    }

    /// Goes on in this half, behind its records, at this gate.
    pub(crate) fn choose(&mut self, half: Half, place: u64)
        requires place { IfSome (half_end self.old.layout self.old.blocks half) (λ end. place < end) }
        requires far { place < 2 ^ 63 }
        ensures { self.new ≡ record self.old { half = half; place = place } }
    {
        self.half = half;
        self.place = place;
    }

    /// Notes that a write or a sync failed.
    pub(crate) fn fail(&mut self)
        ensures { self.new ≡ record self.old { failed = true } }
    {
        self.failed = true;
    }

    /// The place of the next gate. Takes no memory.
    pub(crate) fn place(&self) -> u64
        ensures { result ≡ self.now.place }
    {
        self.place
    }

    /// The block number of the store, 1 to 65,536. Takes no memory.
    pub fn blocks(&self) -> u32
        ensures value { result ≡ self.now.blocks }
        ensures range { (1 ≤ result) × (result ≤ 65536) }
    {
        self.blocks
    }

    /// Whether an append, a write of a block, or a rewriting answered `Disk`. Takes no memory.
    pub fn failed(&self) -> bool
        ensures { result ≡ self.now.failed }
    {
        self.failed
    }
}
