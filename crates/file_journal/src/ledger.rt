//! What the records of a journal are applied to.

ghost use Rattle.std.specs.Prelude.{◌≡◌, ◌+◌, ◌^◌, ◌<◌, ◌≤◌, ℕ, List, [], ◌∷◌, length, true, false, Option, None};
ghost use Rattle.std.specs.Prelude.{Some, IsSome, IfSome, IsErr, IsErrOf};
ghost use Rattle.std.specs.Prelude.{IfOk, OnErr, OnOk};
ghost use Rattle.disk_model.specs.Runs.{Reads};
ghost use Rattle.file_journal.specs.Form.{Form};
ghost use Rattle.file_journal.specs.Header.{AreBlocks};
ghost use Rattle.file_journal.specs.Ledger.{AllowsNext, AnswersAll, AppliesNext, AppliesSome, WantsMemory};
ghost use Rattle.file_journal.specs.Layout.{Blocks, HasBlocks, block_in, blocks_on};
ghost use Rattle.file_journal.specs.Next.{IsReadable};
ghost use Rattle.file_journal.specs.Position.{StandsOn, left_to_read};
ghost use Rattle.file_journal.specs.Records.{Record, record_of};
ghost use Rattle.file_journal.specs.declared.layout.Layout.TheVariants as Layout;
ghost use Rattle.file_journal.specs.declared.ledger.RecordPlace.{RecordPlace};
ghost use Rattle.file_journal.specs.Steps.{IsSeenBy, Knows, Steps};

use crate::record::RecordRoom;
use crate::{ApplyFault, Journal, Layout, ReadFault, RecordContent, RecoverFault};
use disk_model::Disk;
use px_base::OutOfMemory;
use std::alloc::Global;

/// A place among the records that make a ledger anew: for which entry a record is, and which of its records it is.
#[derive(Clone, Copy, Debug)]
pub struct RecordPlace {
    /// The number of the entry, from 0 on.
    pub entry: u32,
    /// The number of the record among those of the entry, from 0 on.
    pub part: u32,
}

/// What the records of a journal are applied to, in order: it holds the state that they make, and in memory maybe more.
pub trait Ledger: Drop {
    /// The states that records make.
    ghost State: { Type 0 };

    /// What is kept of such a state once all records are read.
    ghost Kept: { Type 0 };

    /// What that is seen as.
    ghost Seen: { Type 0 };

    /// The commands that change what is seen, each of which is one record.
    ghost Command: { Type 0 };

    /// What octets stand for, and what commands make of it.
    ghost form: { Form Self.Seen Self.Command };

    /// What records make of a state.
    ghost steps: { Steps Self.State Self.Kept };

    /// What is kept of a state is seen as, with what the blocks of the disk hold.
    ghost seen: { Blocks → Self.Kept → Self.Seen };

    /// The state that a ledger holds. Behind changes of what is kept of it the rest isn't what further records would
    /// be read with.
    ghost state: { Self → Self.State };

    /// The records from a place on that make what is kept of the ledger's state anew.
    ghost left: { Self → RecordPlace → List Record };

    /// What a ledger is that records alone made, beside its state.
    ghost by_records: { Self → Type 0 };

    /// The first eight octets of the disk of a journal of such records.
    fn magic() -> [u8; 8]
        ensures { result ≡ form.magic };

    /// Where the parts of such a store stand on its disk.
    fn layout() -> Layout
        ensures { result ≡ form.layout };

    /// The ledger of a store of so many blocks, 1 to 65,536, before the first record. May take memory.
    fn fresh(alloc: Global, blocks: u32) -> Result<Self, OutOfMemory>
        requires blocks { AreBlocks blocks }
        ensures state { IfOk result (λ ledger. state ledger ≡ steps.fresh blocks) }
        ensures by_records { IfOk result by_records };

    /// Applies a record that was read, and answers whether the state allows it; one that it doesn't allow changes
    /// nothing. The content has at most 600 octets. It may read blocks of the disk, by the journal. Takes memory.
    ///
    /// `Disk`: a read of the disk failed. `OutOfMemory`: there was no memory for what the record makes, which the state
    /// allows. After both the ledger is as it was.
    fn apply<D: Disk>(
        &mut self,
        journal: &Journal,
        disk: &mut D,
        kind: u8,
        content: &[u8],
    ) -> Result<bool, ApplyFault>
        requires most { length content.now ≤ 600 }
        requires by_records { by_records self.old }
        requires stands_on { StandsOn D.Disk journal.now disk.old }
        requires healthy { journal.now.failed ≡ false }
        requires layout { journal.now.layout ≡ form.layout }
        requires number { HasBlocks form.layout → journal.now.blocks ≡ steps.number (steps.kept (state self.old)) }
        ensures allowed { result ≡ Ok true → Knows form (D.content disk.old)
            → steps.step (blocks_on (D.content disk.old)) (state self.old) (record_of kind content.now)
            ≡ Some (state self.new) }
        ensures refused { result ≡ Ok false → Knows form (D.content disk.old)
            → steps.step (blocks_on (D.content disk.old)) (state self.old) (record_of kind content.now) ≡ None }
        ensures same { result ≡ Ok false → self.new ≡ self.old }
        ensures memory { IsErrOf result ApplyFault.OutOfMemory → Knows form (D.content disk.old)
            → IsSome (steps.step (blocks_on (D.content disk.old)) (state self.old) (record_of kind content.now)) }
        ensures untouched { IsErr result → self.new ≡ self.old }
        ensures number { OnOk result (steps.number (steps.kept (state self.new))
            ≡ steps.number (steps.kept (state self.old))) }
        ensures by_records { OnOk result (by_records self.new) }
        ensures reads { Reads D.Disk (IsErrOf result ApplyFault.Disk) disk.old disk.new };

    /// Writes the record at this place among those that make what is kept of its state anew, and moves the place to the
    /// next one: its kind, with the content in place of what `content` holds; `None` behind the last one. Takes no
    /// memory.
    fn next_record(&self, place: &mut RecordPlace, content: &mut RecordContent) -> Option<u8>
        ensures some { IfSome result (λ kind.
            left self.now place.old ≡ record_of kind content.new ∷ left self.now place.new) }
        ensures none { result ≡ None → left self.now place.old ≡ [] };

    /// What is seen is what octets stand for.
    ghost is_seen: { IsSeenBy steps seen form };

    /// From the first place on all of those records are left.
    ghost all_left: { (ledger : Self) → form.layout ≡ Layout.Halves
        → left ledger (record { entry = 0; part = 0 }) ≡ steps.anew (steps.kept (state ledger)) };

    /// A ledger that records alone made holds a state that they make.
    ghost reached: { (ledger : Self) → by_records ledger → steps.is_state (state ledger) };
}

/// The fault of a reading, which answers no `NotAStore`.
fn reading_fault(fault: RecoverFault) -> ReadFault
    requires { (found : List ℕ) → fault ≡ RecoverFault.NotAStore found → ⊥ }
    ensures damaged { (at : ℕ) → result ≡ ReadFault.Damaged at → fault ≡ RecoverFault.Damaged at }
    ensures disk { fault ≡ RecoverFault.Disk → result ≡ ReadFault.Disk }
    ensures no_disk { result ≡ ReadFault.Disk → fault ≡ RecoverFault.Disk }
    ensures memory { result ≡ ReadFault.OutOfMemory → ⊥ }
{
    match fault {
        RecoverFault::Damaged { at } => ReadFault::Damaged { at },
        RecoverFault::Disk => ReadFault::Disk,
        RecoverFault::NotAStore { .. } => unreachable!(),
    }
}

impl Journal {
    /// Reads all records that are left, and applies each to the ledger, in order. No append failed before. It reads
    /// each record once, and asks for the disk's length once before. The ledger may take memory.
    ///
    /// `Damaged`: what is left comes to damage at this place: a record that the state before it doesn't allow, or,
    /// where each before it is allowed, a gate that isn't there, or an open one that no whole record with a gate behind
    /// it follows, in the half of the journal's records. `OutOfMemory`: the next record that is left is one that the
    /// ledger's state allows, and there was no memory for what it makes. After an error the ledger has the state after
    /// some of the records, from the first on. The journal stays on its disk, and no octet is changed.
    pub fn read_into<D: Disk, L: Ledger>(
        &mut self,
        disk: &mut D,
        ledger: &mut L,
    ) -> Result<(), ReadFault>
        requires stands_on { StandsOn D.Disk self.old disk.old }
        requires healthy { self.old.failed ≡ false }
        requires by_records { L.by_records ledger.old }
        requires layout { self.old.layout ≡ L.form.layout }
        requires number { HasBlocks L.form.layout
            → self.old.blocks ≡ L.steps.number (L.steps.kept (L.state ledger.old)) }
        ensures stands_on { StandsOn D.Disk self.new disk.new }
        ensures journal { self.new ≡ record self.old { place = self.new.place; ended = self.new.ended } }
        ensures ended { OnOk result (self.new.ended ≡ true) }

        // But for a fault of the disk and want of memory, it answers exactly what the records that are left come to.
        ensures all { AnswersAll L.steps.step self.old (L.state ledger.old) (L.state ledger.new)
            (D.content disk.old) result }
        ensures by_records { OnOk result (L.by_records ledger.new) }
        ensures number { OnOk result (L.steps.number (L.steps.kept (L.state ledger.new))
            ≡ L.steps.number (L.steps.kept (L.state ledger.old))) }
        ensures some { IfSome (D.content disk.old)
            (AppliesSome L.steps.step self.old (L.state ledger.old) (L.state ledger.new)) }
        ensures memory { IsErrOf result ReadFault.OutOfMemory → IfSome (D.content disk.old)
            (WantsMemory L.steps.step self.old (L.state ledger.old) (L.state ledger.new)) }
        ensures reads { Reads D.Disk (IsErrOf result ReadFault.Disk) disk.old disk.new }
    {
        let end = self.readable(disk.len()?);
        let mut room = RecordRoom::new();
        while self.apply_next(disk, end, ledger, &mut room)? {}
        Ok(())
    }

    /// Reads the next record that is left, up to this place, into this room, and applies it: whether there was one.
    fn apply_next<D: Disk, L: Ledger>(
        &mut self,
        disk: &mut D,
        end: u64,
        ledger: &mut L,
        room: &mut RecordRoom,
    ) -> Result<bool, ReadFault>
        requires end { IsReadable D.Disk self.old disk.old end }
        requires stands_on { StandsOn D.Disk self.old disk.old }
        requires healthy { self.old.failed ≡ false }
        requires by_records { L.by_records ledger.old }
        requires layout { self.old.layout ≡ L.form.layout }
        requires number { HasBlocks L.form.layout
            → self.old.blocks ≡ L.steps.number (L.steps.kept (L.state ledger.old)) }
        ensures stands_on { StandsOn D.Disk self.new disk.new }
        ensures journal { self.new ≡ record self.old { place = self.new.place; ended = self.new.ended } }
        ensures ended { result ≡ Ok false → self.new.ended ≡ true }
        ensures moves { result ≡ Ok true → self.old.place < self.new.place }
        ensures fits { self.new.place < 2 ^ 63 }
        ensures next { ¬ IsErrOf result ReadFault.Disk → ¬ IsErrOf result ReadFault.OutOfMemory
            → IfSome (D.content disk.old) (λ octets.
            AppliesNext (L.steps.step (block_in octets)) self.old self.new
            (L.state ledger.old) (L.state ledger.new) octets result) }
        ensures by_records { OnOk result (L.by_records ledger.new) }
        ensures number { OnOk result (L.steps.number (L.steps.kept (L.state ledger.new))
            ≡ L.steps.number (L.steps.kept (L.state ledger.old))) }
        ensures memory { IsErrOf result ReadFault.OutOfMemory → IfSome (D.content disk.old) (λ octets.
            AllowsNext (L.steps.step (block_in octets)) (L.state ledger.old) (left_to_read self.old octets)) }
        ensures same { OnErr result (ledger.new ≡ ledger.old) }
        ensures reads { Reads D.Disk (IsErrOf result ReadFault.Disk) disk.old disk.new }
    {
        let gate = self.place();
        match self.find_next(disk, end, room) {
            Ok(None) => Ok(false),
            Ok(Some(kind)) => {
                if !ledger.apply(self, disk, kind, room.content())? {
                    return Err(ReadFault::Damaged { at: gate });
                }
                Ok(true)
            }
            Err(fault) => Err(reading_fault(fault)),
        }
    }
}
