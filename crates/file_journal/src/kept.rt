//! A state that is kept in a journal.

ghost use Rattle.std.specs.Prelude.{◌≡◌, ◌+◌, ◌<◌, ◌≤◌, ◌∷◌, [], length, false, true, IfOk, IfSome, IsErr, OnErr, OnOk};
ghost use Rattle.file_journal.specs.Appending.{TakesCalls};
ghost use Rattle.disk_model.specs.Disk.{FillsRoom};
ghost use Rattle.disk_model.specs.Runs.{Reads};
ghost use Rattle.file_journal.specs.Form.{record_calls};
ghost use Rattle.file_journal.specs.Header.{AreBlocks};
ghost use Rattle.file_journal.specs.Kept.{Does, MayTurn, StandsAt, kept_at, kept_on};
ghost use Rattle.file_journal.specs.declared.layout.Layout.TheVariants as Layout;
ghost use Rattle.file_journal.specs.Layout.{HasBlocks, HoldSame, block_in, blocks_on};
ghost use Rattle.file_journal.specs.Position.{HasRoom, MovesOn};
ghost use Rattle.file_journal.specs.Putting.{GoesOn, MakesRoom, StaysKept, TurnsInto};
ghost use Rattle.file_journal.specs.Records.{record_of};
ghost use Rattle.file_journal.specs.Recovery.{RecoversInCalls};
ghost use Rattle.file_journal.specs.Restoring.{AnswersRecovery, IsRestored};
ghost use Rattle.file_journal.specs.Rewriting.{WritesAnew};
ghost use Rattle.file_journal.specs.Steps.{HasPut, Knows, WritesTurn, block_calls, kept_by};

use crate::{Change, Journal, Ledger, RecordContent, RecordPlace, Records, StoreFault};
use disk_model::{Disk, DiskFault};
use std::alloc::Global;

/// A ledger, and the journal of the records that made its state, which stands on a disk that it doesn't hold. What the
/// ledger holds beside its state may be changed at any time.
#[derive(Drop)]
pub struct Kept<L> {
    /// The ledger.
    pub ledger: L,
    journal: Journal,
    /// The content of the record that was put last.
    content: RecordContent,
}

impl<L: Ledger> Kept<L> {
    /// Recovers the state from whatever a crash, a fault or a killed program left on the disk: the one that its content
    /// stands for. It syncs before it reads, and makes no other write or sync on a formatted store; six more at most,
    /// where the formatting is to be done. A disk of at most 16 octets is formatted with the block number `blocks`, 1
    /// to 65,536; one whose formatting was interrupted is formatted to its end. It may be cut at any of its writes and
    /// syncs, and is then done again. The work is that of the records. Takes memory.
    ///
    /// `NotAStore` and `Damaged` leave the content as it was. After `Disk` and `OutOfMemory` the disk is to be
    /// recovered again.
    pub fn recover<D: Disk>(alloc: Global, disk: &mut D, blocks: u32) -> Result<Kept<L>, StoreFault>
        requires blocks { AreBlocks blocks }
        ensures restored { IfOk result (λ kept.
            IsRestored D.Disk L.form blocks disk.old (kept_at D.Disk L.seen (kept_by L.steps L.state) kept disk.new)) }
        ensures stands_at { IfOk result (λ kept.
            StandsAt D.Disk L.form L.steps kept.journal (kept_by L.steps L.state kept.ledger) disk.new) }
        ensures by_records { IfOk result (λ kept. L.by_records kept.ledger) }
        ensures answers { AnswersRecovery D.Disk L.form blocks result disk.old disk.new }
        ensures calls { RecoversInCalls D.Disk L.form.magic L.form.layout blocks disk.old disk.new }
    {
        let mut journal = Journal::recover(disk, L::magic(), blocks, L::layout())?;
        let mut ledger = L::fresh(alloc, journal.blocks())?;
        journal.read_into(disk, &mut ledger)?;
        Ok(Kept {
            ledger,
            journal,
            content: RecordContent::new(),
        })
    }

    /// Makes a change of the ledger that may be made. Where the journal has two halves and no room for its record, the
    /// records that make the ledger's state anew are written into the other half first. Then what it puts in a block,
    /// if anything, is written and synced. Then its record is put at the end of the journal and synced, by two writes
    /// and two syncs, before memory changes: after `Ok` a crash leaves the state after it; before, the one before it or
    /// the one after it. No put failed before. Takes no memory.
    ///
    /// An error: the record may stand or not; the ledger is as it was, and has failed from then on. A new recovery is
    /// needed.
    pub fn put<D: Disk, C: Change<L>>(&mut self, disk: &mut D, change: &C) -> Result<(), DiskFault>
        requires stands_at { StandsAt D.Disk C.form C.steps self.old.journal (C.state self.old.ledger) disk.old }
        requires healthy { self.old.journal.failed ≡ false }
        requires may { C.may change.now self.old.ledger }
        requires lets { Knows C.form (D.content disk.old)
            → (C.turn change.now self.old.ledger).lets (blocks_on (D.content disk.old)) }
        ensures stands_at { StandsAt D.Disk C.form C.steps self.new.journal (C.state self.new.ledger) disk.new }
        ensures does { Does D.Disk C.form (IsErr result)
            ((C.turn change.now self.old.ledger).command ∷ [])
            (kept_at D.Disk C.seen C.state self.old disk.old) (kept_at D.Disk C.seen C.state self.new disk.new) }

        // Where its record has no room, room is made first, and all that it does by itself comes behind that.
        ensures room { MakesRoom D.Disk C.form C.steps C.seen (IsErr result) (C.turn change.now self.old.ledger).command
            (kept_on (C.state self.old.ledger) self.old.journal disk.old)
            (kept_on (C.state self.new.ledger) self.new.journal disk.new) }
        ensures goes { GoesOn D.Disk (IsErr result) self.old.journal self.new.journal disk.old disk.new }
        ensures state { OnOk result (C.state self.new.ledger ≡ (C.turn change.now self.old.ledger).next) }
        ensures makes { OnOk result (C.makes change.now self.old.ledger self.new.ledger) }
        ensures err { OnErr result (self.new.ledger ≡ self.old.ledger) }
    {
        let kind = change.write(&self.ledger, &mut self.content);
        let kind = self.make_room(disk, change, kind)?;
        self.put_there(disk, change, kind)
    }

    /// Makes a change as [`put`](Kept::put) does, where the journal has room for its record, which is of this kind and
    /// whose content was written.
    fn put_there<D: Disk, C: Change<L>>(
        &mut self,
        disk: &mut D,
        change: &C,
        kind: u8,
    ) -> Result<(), DiskFault>
        requires may { MayTurn D.Disk C.form C.steps self.old.journal (C.state self.old.ledger) disk.old
            (C.may change.now self.old.ledger) }
        requires lets { Knows C.form (D.content disk.old)
            → (C.turn change.now self.old.ledger).lets (blocks_on (D.content disk.old)) }
        requires writes { WritesTurn C.form C.steps C.seen (C.state self.old.ledger) (C.turn change.now self.old.ledger)
            (record_of kind self.old.content) }
        requires room { HasRoom self.old.journal (4 + length self.old.content) }
        ensures stands_at { StandsAt D.Disk C.form C.steps self.new.journal (C.state self.new.ledger) disk.new }
        ensures does { Does D.Disk C.form (IsErr result)
            ((C.turn change.now self.old.ledger).command ∷ [])
            (kept_at D.Disk C.seen C.state self.old disk.old) (kept_at D.Disk C.seen C.state self.new disk.new) }
        ensures goes { GoesOn D.Disk (IsErr result) self.old.journal self.new.journal disk.old disk.new }
        ensures state { OnOk result (C.state self.new.ledger ≡ (C.turn change.now self.old.ledger).next) }
        ensures makes { OnOk result (C.makes change.now self.old.ledger self.new.ledger) }
        ensures err { OnErr result (self.new.ledger ≡ self.old.ledger) }
    {
        self.put_block(disk, change)?;
        match self.put_record(disk, change, kind) {
            Ok(()) => Ok(()),
            Err(fault) => Err(fault),
        }
    }

    /// Makes room in the journal for the record of a change, of this kind, whose content was written: where there is
    /// none, the records that make the ledger anew are written into the other half. The record's kind, with its content
    /// written.
    fn make_room<D: Disk, C: Change<L>>(
        &mut self,
        disk: &mut D,
        change: &C,
        kind: u8,
    ) -> Result<u8, DiskFault>
        requires may { MayTurn D.Disk C.form C.steps self.old.journal (C.state self.old.ledger) disk.old
            (C.may change.now self.old.ledger) }
        requires writes { WritesTurn C.form C.steps C.seen (C.state self.old.ledger) (C.turn change.now self.old.ledger)
            (record_of kind self.old.content) }
        ensures ledger { self.new.ledger ≡ self.old.ledger }
        ensures stays { StaysKept D.Disk C.form C.steps C.seen (IsErr result)
            (kept_on (C.state self.old.ledger) self.old.journal disk.old)
            (kept_on (C.state self.new.ledger) self.new.journal disk.new) }
        ensures writes { IfOk result (λ kind.
            WritesTurn C.form C.steps C.seen (C.state self.old.ledger) (C.turn change.now self.old.ledger)
            (record_of kind self.new.content)) }
        ensures room { OnOk result (HasRoom self.new.journal (4 + length self.new.content)) }
        ensures untouched { HasRoom self.old.journal (4 + length self.old.content)
            → (self.new ≡ self.old) × (disk.new ≡ disk.old) }
        ensures anew { ¬ HasRoom self.old.journal (4 + length self.old.content)
            → WritesAnew D.Disk (C.steps.anew (C.state self.old.ledger)) self.old.journal self.new.journal
            disk.old disk.new result }
    {
        if self.journal.room() >= 4 + self.content.len() as u64 {
            return Ok(kind);
        }
        self.write_anew::<D, C>(disk)?;
        Ok(change.write(&self.ledger, &mut self.content))
    }

    /// Writes the records that make what the ledger holds anew into the other half of its journal, and goes on there. A
    /// crash leaves those from before, or these. It makes a write for each of them and one more, a sync, a write and a
    /// sync.
    fn write_anew<D: Disk, C: Change<L>>(&mut self, disk: &mut D) -> Result<(), DiskFault>
        requires stands_at { StandsAt D.Disk C.form C.steps self.old.journal (C.state self.old.ledger) disk.old }
        requires healthy { self.old.journal.failed ≡ false }
        requires in_halves { self.old.journal.layout ≡ Layout.Halves }
        ensures ledger { self.new.ledger ≡ self.old.ledger }
        ensures stays { StaysKept D.Disk C.form C.steps C.seen (IsErr result)
            (kept_on (C.state self.old.ledger) self.old.journal disk.old)
            (kept_on (C.state self.new.ledger) self.new.journal disk.new) }
        ensures anew { WritesAnew D.Disk (C.steps.anew (C.state self.old.ledger)) self.old.journal self.new.journal
            disk.old disk.new result }
    {
        let mut records = LedgerRecords {
            ledger: &self.ledger,
            place: RecordPlace { entry: 0, part: 0 },
        };
        self.journal
            .put_records(disk, &mut records, &mut self.content)
    }

    /// Puts what a change puts in a block before its record, if anything.
    fn put_block<D: Disk, C: Change<L>>(
        &mut self,
        disk: &mut D,
        change: &C,
    ) -> Result<(), DiskFault>
        requires may { MayTurn D.Disk C.form C.steps self.old.journal (C.state self.old.ledger) disk.old
            (C.may change.now self.old.ledger) }
        ensures kept { self.new
            ≡ record self.old { journal = record self.old.journal { failed = self.new.journal.failed } } }
        ensures stays { StaysKept D.Disk C.form C.steps C.seen (IsErr result)
            (kept_on (C.state self.old.ledger) self.old.journal disk.old)
            (kept_on (C.state self.new.ledger) self.new.journal disk.new) }
        ensures there { OnOk result (Knows C.form (D.content disk.old)
            → HasPut (C.turn change.now self.old.ledger).puts (blocks_on (D.content disk.new))) }
        ensures calls { TakesCalls D.Disk (block_calls (C.turn change.now self.old.ledger).puts)
            disk.old disk.new result }
    {
        let Some(put) = change.block(&self.ledger) else {
            return Ok(());
        };
        // A crash before this is synced leaves any octets in a block that the state doesn't use: none of them is read.
        match self.journal.put_block(disk, put.block, put.octets) {
            Ok(()) => Ok(()),
            Err(fault) => Err(fault),
        }
    }

    /// Puts the record of a change, of this kind, whose content was written, behind what it puts in a block, and makes
    /// it.
    fn put_record<D: Disk, C: Change<L>>(
        &mut self,
        disk: &mut D,
        change: &C,
        kind: u8,
    ) -> Result<(), DiskFault>
        requires may { MayTurn D.Disk C.form C.steps self.old.journal (C.state self.old.ledger) disk.old
            (C.may change.now self.old.ledger) }
        requires lets { Knows C.form (D.content disk.old)
            → (C.turn change.now self.old.ledger).lets (blocks_on (D.content disk.old)) }
        requires there { Knows C.form (D.content disk.old)
            → HasPut (C.turn change.now self.old.ledger).puts (blocks_on (D.content disk.old)) }
        requires writes { WritesTurn C.form C.steps C.seen (C.state self.old.ledger) (C.turn change.now self.old.ledger)
            (record_of kind self.old.content) }
        requires room { HasRoom self.old.journal (4 + length self.old.content) }
        ensures stands_at { StandsAt D.Disk C.form C.steps self.new.journal (C.state self.new.ledger) disk.new }
        ensures same { HoldSame (C.steps.uses (C.state self.new.ledger))
            (blocks_on (D.content disk.old)) (blocks_on (D.content disk.new)) }
        ensures turns { TurnsInto D.Disk C.form
            (C.seen (blocks_on (D.content disk.old)) (C.state self.old.ledger))
            (C.seen (blocks_on (D.content disk.old)) (C.turn change.now self.old.ledger).next)
            (IsErr result) disk.old disk.new }
        ensures goes { GoesOn D.Disk (IsErr result) self.old.journal self.new.journal disk.old disk.new }
        ensures calls { TakesCalls D.Disk record_calls disk.old disk.new result }
        ensures moves { OnOk result (MovesOn (4 + length self.old.content) self.old.journal self.new.journal) }
        ensures state { OnOk result (C.state self.new.ledger ≡ (C.turn change.now self.old.ledger).next) }
        ensures makes { OnOk result (C.makes change.now self.old.ledger self.new.ledger) }
        ensures err { OnErr result (self.new.ledger ≡ self.old.ledger) }
    {
        // A crash before the record's gate is synced leaves the state before the change, or the one after it: it is
        // told of only after that. A crash behind it leaves the one after it.
        match self.journal.put(disk, kind, &mut self.content) {
            Ok(()) => {
                change.make(&mut self.ledger);
                Ok(())
            }
            Err(fault) => Err(fault),
        }
    }

    /// Reads the octets of a block of the disk, from octet `at` of it on, into the room. No put failed before. It reads
    /// once, and changes no octet. Takes no memory.
    pub fn read_block<D: Disk>(
        &self,
        disk: &mut D,
        block: u32,
        at: u16,
        room: &mut [u8],
    ) -> Result<(), DiskFault>
        requires stands_at { StandsAt D.Disk L.form L.steps self.now.journal
            (kept_by L.steps L.state self.now.ledger) disk.old }
        requires healthy { self.now.journal.failed ≡ false }
        requires has_blocks { HasBlocks L.form.layout }
        requires block { block < L.steps.number (kept_by L.steps L.state self.now.ledger) }
        requires within { at + length room.old ≤ 512 }
        ensures stands_at { StandsAt D.Disk L.form L.steps self.now.journal
            (kept_by L.steps L.state self.now.ledger) disk.new }
        ensures room { OnOk result (IfSome (D.content disk.old) (λ octets.
            FillsRoom (block_in octets block) at (length room.old) room.new)) }
        ensures reads { Reads D.Disk (IsErr result) disk.old disk.new }
    {
        self.journal.read_block(disk, block, at, room)
    }

    /// Whether a put failed: then the state is to be recovered anew. Takes no memory.
    pub fn failed(&self) -> bool
        ensures { result ≡ self.now.journal.failed }
    {
        self.journal.failed()
    }
}

/// The records that make a ledger anew, from a place among them on.
#[derive(Drop)]
struct LedgerRecords<'a, L> {
    ledger: &'a L,
    place: RecordPlace,
}

impl<L: Ledger> Records for LedgerRecords<'_, L> {
    ghost left = { λ records. L.left records.ledger.now records.place };

    fn next(&mut self, content: &mut RecordContent) -> Option<u8> {
        self.ledger.next_record(&mut self.place, content)
    }
}
