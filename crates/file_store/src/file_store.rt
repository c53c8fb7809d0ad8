//! The store of files.

ghost use Rattle.std.specs.Prelude.{◌≡◌, ◌↔◌, ℕ, ◌+◌, ◌≤◌, ◌/◌, ◌⊎◌, List, [], ◌∷◌, drop, length, true};
ghost use Rattle.std.specs.Prelude.{false, take, IsTrue, IsErr, IsErrOf, IfOk, IfErr, IfSome, OnOk, OnErr, None, Some};
ghost use Rattle.std.specs.Borrow.{sem};
ghost use Rattle.std.specs.Io.BufRead.{Rests};
ghost use Rattle.std.specs.Option.{option_map};
ghost use Rattle.disk_model.specs.Disk.{FillsRoom};
ghost use Rattle.file_journal.specs.Bounds.{RecoversInHalves};
ghost use Rattle.disk_model.specs.Runs.{Leaves, Reads, Runs, TakesStep};
ghost use Rattle.file_journal.specs.Journal.{HasGoodHeader, IsAfterRecovery, journal_of};
ghost use Rattle.file_journal.specs.Recovery.{RecoversInCalls};
ghost use Rattle.file_store_model.specs.Command.{after, after_all, begin, drop_entry, grow, last_grow, seal};
ghost use Rattle.file_store_model.specs.Command.{unfilled_block, whole_grows};
ghost use Rattle.file_store_model.specs.Faults.{fault_code};
ghost use Rattle.file_store_blocks.specs.PlacedFiles.{ChangesRest, IsOut, KeepsRests, octets_or_none};
ghost use Rattle.file_store_model.specs.Headers.{IsHeaderOf, IsWholeHeader};
ghost use Rattle.file_store_model.specs.Info.{IsCompleteIn, IsNextComplete, info_of};
ghost use Rattle.file_store_model.specs.IsStore.{IsStore};
ghost use Rattle.file_store_model.specs.Kept.{KeepsComplete};
ghost use Rattle.file_store_model.specs.Store.{complete, entry_of, octets_at};
ghost use Rattle.file_store_blocks.specs.Checking.{ChecksFile};
ghost use Rattle.file_store_blocks.specs.Placed.{placed_of};
ghost use Rattle.file_store_blocks.specs.PlacedCommand.{is_partial};
ghost use Rattle.file_store_blocks.specs.TestLaws.{Passes, TakesSeal};
ghost use Rattle.file_store.specs.Answers.{MaySeal, RefusesAppend, RefusesBegin, RefusesResume, RefusesSeal, Resumes};
ghost use Rattle.file_store.specs.Answers.{append_reaches, back_of_append, back_of_seal, begin_reaches};
ghost use Rattle.file_store.specs.Answers.{seal_commands, seal_missed, seal_reaches};
ghost use Rattle.file_store.specs.Ending.{EndsFile, IsSealedAt, LeavesOthers};
ghost use Rattle.file_store.specs.Kept.{KeepsOtherFiles, KeepsOthers, KeepsUploads};
ghost use Rattle.file_store.specs.Laws.{HoldsInEach, IsKeptInEach, IsKeptOn};
ghost use Rattle.file_store.specs.OnDisk.{Does, DoesTo, outlined_all};
ghost use Rattle.file_store.specs.Reads.{MayRead, OnlyReads};
ghost use Rattle.file_store.specs.Recovery.{IsRecovered, LeavesAlikeSinceSync, RefusesRecovery, StandsAlike};
ghost use Rattle.file_store.specs.Sealing.{SealsFile};
ghost use Rattle.file_store.specs.State.{IsKnown, IsRead, IsReady, StandsOn, placed_in, rest_in, store_in};
ghost use Rattle.file_store.specs.State.{store_layout, store_magic, store_on};
ghost use Rattle.file_store.specs.Upload.{FillsBlock, FitsBytes, HasEntry, Holds, IsWholeWaiting, MayResume};
ghost use Rattle.file_store.specs.Upload.{Upload, WaitFew, appended, appending, came, kept_file, new_upload};
ghost use Rattle.file_store.specs.Upload.{octets_come, upload_of, waiting_with, with_bytes};
ghost use Rattle.file_store.specs.Working.{CountsSome, DoesAmongReads, PutsAmongReads};

use crate::change::EntriesChange;
use crate::end::End;
use crate::header::header_buffer;
use crate::put::put_change;
use crate::reading::{check_file, read_file, read_header};
use crate::{
    AppendRefusal, BeginRefusal, HeaderFault, Info, Limits, OpenUpload, Receipt, ResumeRefusal,
    SealRefusal, StoreFault,
};
use disk_model::{Disk, DiskFault};
use file_journal::Kept;
use file_store_blocks::{CheckFault, CheckedHeader, Entries};
use px_base::{Call, FileNumber, Moment};
use std::alloc::Global;
use std::marker::Model;

/// The octets in a block.
const BLOCK: usize = 512;

/// Which files there are, and where their octets and their commands are on a disk, which it doesn't hold. Contracts see
/// it as a `StoreState`.
#[derive(Drop)]
pub struct FileStore {
    kept: Kept<Entries>,
    /// The header that was read last. It has room for the longest one.
    header: Vec<u8>,
}

impl Model for FileStore {
    ghost use Rattle.std.specs.Prelude.{◌≤◌, vec_capacity};
    ghost use Rattle.file_store.specs.State.{IsRead, StoreState, state_from};

    ghost Value = { StoreState };

    ghost view = { λ a. state_from a.kept.ledger.files a.kept.journal };

    ghost invariant = { λ a. IsRead a.kept.journal × (65535 ≤ vec_capacity a.header) };
}

impl FileStore {
    ghost use Rattle.file_store.specs.contracts.file_store.FileStore.{the_row};

    /// Recovers the store from whatever a crash, a fault or a killed program left on the disk: the store that its
    /// content stands for. It syncs before it reads. A disk of at most 16 octets is formatted with the limits' block
    /// number; one whose formatting was interrupted is formatted to its end. It may be cut at any of its writes and
    /// syncs, and is then done again. It reads each record once, and for each sealed file its octets once. Takes
    /// memory, all that the store ever does: 3 octets for each block, some 600 for each of the 1,024 entries that there
    /// may be, and 65,535 for a header.
    ///
    /// `NotAStore` and `Damaged` leave the content as it was. After `Disk` and `OutOfMemory` the disk is to be
    /// recovered again.
    pub fn recover<D: Disk>(
        alloc: Global,
        disk: &mut D,
        limits: Limits,
    ) -> Result<FileStore, StoreFault>
        requires some { 1 ≤ limits.blocks }
        requires most { limits.blocks ≤ 65536 }
        ensures recovered { IfOk result (IsRecovered D.Disk limits.blocks disk.old disk.new) }

        // It changes no octet of a formatted store, and makes a formatted one of any other.
        ensures octets { OnOk result
            (TakesStep D.Disk disk.old disk.new (IsAfterRecovery store_magic store_layout limits.blocks)) }

        // Except for a fault of the disk and being out of memory, each refusal comes exactly when the content stands
        // for it.
        ensures refuses { RefusesRecovery limits.blocks (D.content disk.old) result }
        ensures untouched { (found : List ℕ) → IsErrOf result (StoreFault.NotAStore found)
            → D.content disk.new ≡ D.content disk.old }
        ensures untouched_damage { (at : ℕ) → IsErrOf result (StoreFault.Damaged at)
            → D.content disk.new ≡ D.content disk.old }
        ensures runs { Runs D.Disk (IsErrOf result StoreFault.Disk) disk.old disk.new }

        // `OutOfMemory` comes only if the content is that of a store, or of none yet.
        ensures memory { IsErrOf result StoreFault.OutOfMemory → IfSome (D.content disk.old)
            (λ before. HasGoodHeader (journal_of store_magic store_layout before)) }

        // A crash since the start leaves what it might have left before, or what stands for the same, and a store
        // formatted to its end as it is; since the end of the first sync the latter, unless that sync failed.
        ensures since_start { Leaves D.Disk disk.old disk.new (StandsAlike limits.blocks) }
        ensures since_sync { LeavesAlikeSinceSync D.Disk limits.blocks result disk.old disk.new }

        // Nothing is written past the end of the store whose block number the disk has, or gets.
        ensures within { RecoversInHalves D.Disk store_layout limits.blocks disk.old disk.new }

        // It makes seven writes and syncs at most, and its first sync alone if the store is formatted or refused.
        ensures calls { RecoversInCalls D.Disk store_magic store_layout limits.blocks disk.old disk.new }
    {
        let kept = Kept::recover(alloc, disk, limits.blocks)?;
        // After the recovery, so that a crash finds the disk synced also if there is no memory for it.
        let header = header_buffer(alloc)?;
        Ok(FileStore { kept, header })
    }

    /// Begins a file of `length` octets: an entry of the next number, of which no octet is held. Its upload is out
    /// then.
    ///
    /// The refusals are looked for in the order of `BeginRefusal`. Takes no memory.
    pub fn begin<D: Disk>(
        &mut self,
        disk: &mut D,
        caller: Call,
        length: u32,
        moment: Moment,
    ) -> Result<OpenUpload, BeginRefusal>
        requires { StandsOn D.Disk self.old disk.old }

        // Each refusal comes exactly when its cause holds; a fault of the disk only if it counts one.
        ensures refused { IfErr result (RefusesBegin self.old length) }
        ensures can { IfOk result (λ _. RefusesBegin self.old length BeginRefusal.Disk) }
        ensures untouched { IsTrue (begin_reaches result) ⊎ ((self.new ≡ self.old) × (disk.new ≡ disk.old)) }

        // The command is on the disk before the answer, and a crash at any moment leaves the store before it or after
        // it.
        ensures does { IsTrue (begin_reaches result) → Does D.Disk (IsErr result) self.old self.new disk.old disk.new
            (begin (store_in self.old).next caller length moment ∷ []) }
        ensures upload { IfOk result (λ up. up ≡ new_upload (store_in self.old).next caller length) }
        ensures holds { IfOk result (λ up. Holds self.new up × (rest_in self.new up.number ≡ Some [])) }
        ensures every_image { IfOk result (λ up. HoldsInEach D.Disk up disk.new) }
        ensures fresh { IfOk result (λ up. rest_in self.old up.number ≡ None) }

        ensures stands_on { StandsOn D.Disk self.new disk.new }
        ensures uploads { KeepsUploads self.old self.new }
        ensures rests { KeepsRests self.old.files self.new.files (store_in self.old).next }
        ensures kept { KeepsComplete (store_in self.old) (store_in self.new) }

        // What memory shows of the entries, whether it is known what the files hold or not.
        ensures made { OnOk result (store_in self.new
            ≡ after (store_in self.old) (begin (store_in self.old).next caller length moment)) }
        ensures unmade { IsErr result → store_in self.new ≡ store_in self.old }
    {
        if let Some(bar) = self.kept.ledger.begin_bar(length) {
            return Err(BeginRefusal::from(bar));
        }
        if self.kept.failed() {
            return Err(BeginRefusal::Failed);
        }
        let number = self.kept.ledger.next();
        let begin = EntriesChange::Begin {
            caller,
            length,
            moment,
        };
        // A crash before the record's gate is synced leaves the store without the file, and its number is given again:
        // the caller doesn't know of it yet.
        put_change(&mut self.kept, disk, &begin)?;
        self.kept.ledger.take_out(number);
        Ok(OpenUpload::new(number, caller, length, 0))
    }

    /// Goes on with the upload of this number, caller and length, which isn't out: its entry is under way, and the
    /// upload says how many octets are held of it. The refusals are looked for in the order of `ResumeRefusal`. Takes
    /// no memory.
    pub fn resume(
        &mut self,
        number: FileNumber,
        caller: Call,
        length: u32,
    ) -> Result<OpenUpload, ResumeRefusal>
        requires { MayResume self.old number caller }
        ensures refused { IfErr result (RefusesResume self.old number caller length) }
        ensures resumed { IfOk result (λ up. (entry : _) × Resumes self.old number caller length entry
            × (up ≡ upload_of entry)) }
        ensures holds { IfOk result (λ up. Holds self.new up × (rest_in self.new up.number ≡ Some [])) }
        ensures fresh { IfOk result (λ up. rest_in self.old up.number ≡ None) }
        ensures rest { OnOk result (ChangesRest self.old.files self.new.files number (Some [])) }
        ensures err { OnErr result (self.new ≡ self.old) }
        ensures journal { self.new.journal ≡ self.old.journal }
        ensures uploads { KeepsUploads self.old self.new }
    {
        let Some(info) = self.info(number) else {
            return Err(ResumeRefusal::NoSuch);
        };
        if !is_theirs(&info, caller, length) {
            return Err(ResumeRefusal::Bad);
        }
        if info.complete {
            return Err(ResumeRefusal::Complete);
        }
        if self.kept.failed() {
            return Err(ResumeRefusal::Failed);
        }
        self.kept.ledger.take_out(number);
        Ok(OpenUpload::new(number, caller, length, info.held))
    }

    /// Adds octets to an upload. Each whole 512 of those that wait then become held; the others, fewer than 512, wait
    /// on.
    ///
    /// `TooMuch`, if more octets would come than the file has, is looked at first, then `Failed`. Takes no memory. The
    /// work is that of finding the entry and of the octets that come, however many are held; the disk takes three
    /// writes and three syncs for each 512. If its records fill their half, they are written again into the other one
    /// first.
    pub fn append<D: Disk>(
        &mut self,
        disk: &mut D,
        up: OpenUpload,
        bytes: &[u8],
    ) -> Result<OpenUpload, AppendRefusal>
        requires holds { Holds self.old up }
        requires stands_on { StandsOn D.Disk self.old disk.old }
        ensures refused { IfErr result (RefusesAppend self.old up bytes.entry.now) }
        ensures can { IfOk result (λ _. RefusesAppend self.old up bytes.entry.now AppendRefusal.Disk) }
        ensures untouched { IsTrue (append_reaches result) ⊎ (disk.new ≡ disk.old) }
        ensures back { IfErr result (λ refusal. IfSome (back_of_append refusal) (λ _. self.new ≡ self.old)) }
        ensures spent { IfErr result (λ refusal. back_of_append refusal ≡ None → rest_in self.new up.number ≡ None) }
        ensures failed { IsErrOf result AppendRefusal.Failed
            → ChangesRest self.old.files self.new.files up.number None × (self.new.journal ≡ self.old.journal) }

        // The commands are on the disk before the answer; a crash at any moment leaves the first of them.
        ensures does { IsTrue (append_reaches result) → Does D.Disk (IsErr result) self.old self.new disk.old disk.new
            (appending self.old up bytes.entry.now) }
        ensures upload { IfOk result (λ next. next ≡ appended self.old up bytes.entry.now) }
        ensures rest { OnOk result
            (rest_in self.new up.number ≡ Some (unfilled_block (with_bytes self.old up bytes.entry.now))) }
        ensures holds { IfOk result (λ next. Holds self.new next) }
        ensures every_image { IfOk result (λ next. HoldsInEach D.Disk next disk.new) }

        // What memory shows of the entries, whether it is known what the files hold or not.
        ensures memory { OnOk result (store_in self.new
            ≡ after_all (store_in self.old) (outlined_all (appending self.old up bytes.entry.now))) }

        ensures keeps { KeepsOtherFiles D.Disk self.old self.new disk.new up.number }
    {
        if bytes.len() > self.missing(&up) {
            return Err(AppendRefusal::TooMuch(up));
        }
        if self.kept.failed() {
            self.park(up);
            return Err(AppendRefusal::Failed);
        }
        let number = up.number();
        let blocks = (self.kept.ledger.waiting(number).len() + bytes.len()) / BLOCK;
        match self.hold_blocks(disk, number, bytes, blocks) {
            Ok(()) => Ok(up.moved_on(BLOCK * blocks)),
            Err(DiskFault) => {
                self.kept.ledger.park(up.end());
                Err(AppendRefusal::Disk)
            }
        }
    }

    /// Seals a file of which all octets came: those that wait become held, the file is read, each octet of it once, and
    /// checked by its header (PFH 1990). A file without fault is complete from then on, and kept with its stamp: its
    /// number, its caller and this moment. The entry of one with a fault is dropped, and the answer is the code of its
    /// first fault. Takes no memory.
    ///
    /// `Short`, if fewer octets came than the file has, is looked at first, then `Failed`. `Read`: a read failed, and
    /// the file stays under way.
    pub fn seal<D: Disk>(
        &mut self,
        disk: &mut D,
        up: OpenUpload,
        moment: Moment,
    ) -> Result<Receipt, SealRefusal>
        requires holds { Holds self.old up }
        requires stands_on { StandsOn D.Disk self.old disk.old }
        ensures refused { IfErr result (RefusesSeal D.Disk self.old disk.old up) }
        ensures can { IfOk result (λ _. MaySeal self.old up) }
        ensures untouched { IsTrue (seal_reaches result) ⊎ (disk.new ≡ disk.old) }
        ensures back { IfErr result (λ refusal. IfSome (back_of_seal refusal) (Holds self.new)) }
        ensures short { (back : Upload) → IsErrOf result (SealRefusal.Short back) → self.new ≡ self.old }
        ensures spent { IfErr result (λ refusal. back_of_seal refusal ≡ None → rest_in self.new up.number ≡ None) }
        ensures failed { IsErrOf result SealRefusal.Failed
            → ChangesRest self.old.files self.new.files up.number None × (self.new.journal ≡ self.old.journal) }

        // The commands are on the disk before the answer; a crash at any moment leaves the first of them. Which they
        // are is decided by the octets of the file, if they are known.
        ensures does { IsTrue (seal_reaches result) → IsKnown D.Disk disk.old
            → DoesAmongReads D.Disk (IsErrOf result SealRefusal.Disk) (seal_missed result) self.old self.new
            disk.old disk.new (seal_commands result (store_on D.Disk self.old disk.old) self.old up moment) }
        // The same if they aren't known, by the answer; and in which order the calls of the disk come.
        ensures ends { IsTrue (seal_reaches result)
            → SealsFile D.Disk result self.old self.new disk.old disk.new up moment }
        ensures puts { PutsAmongReads D.Disk (IsErrOf result SealRefusal.Disk) disk.old disk.new }
        ensures misses { CountsSome (D.read_faults disk.old) (D.read_faults disk.new) (seal_missed result) }
        ensures stops { IsErrOf result SealRefusal.Disk → self.new.journal.failed ≡ true }
        ensures goes_on { ¬ IsErrOf result SealRefusal.Disk → self.new.journal.failed ≡ self.old.journal.failed }

        // A file without fault is complete: the octets that came, stamped. In every image it is so.
        ensures good { OnOk result (IsKnown D.Disk disk.old
            → fault_code (octets_come (store_on D.Disk self.old disk.old) self.old up) ≡ None) }
        ensures receipt { IfOk result (λ receipt. receipt ≡ up.number) }
        ensures sealed { OnOk result (IsCompleteIn (store_in self.new) up.number) }
        ensures sealed_at { OnOk result (IsSealedAt (store_in self.new) up.number moment) }
        ensures complete { OnOk result (IsKnown D.Disk disk.old
            → IsKeptOn D.Disk self.old self.new disk.old disk.new up moment) }
        ensures every_image { OnOk result (IsKeptInEach D.Disk up
            (kept_file (store_on D.Disk self.old disk.old) self.old up moment) moment disk.new) }
        ensures ended { OnOk result (rest_in self.new up.number ≡ None) }
        ensures dropped { (code : ℕ) → IsErrOf result (SealRefusal.Header code)
            → entry_of (store_in self.new) up.number ≡ None }
        ensures unread { (back : Upload) → IsErrOf result (SealRefusal.Read back)
            → HoldsInEach D.Disk back disk.new }

        ensures keeps { KeepsOtherFiles D.Disk self.old self.new disk.new up.number }
    {
        if self.missing(&up) > 0 {
            return Err(SealRefusal::Short(up));
        }
        if self.kept.failed() {
            self.park(up);
            return Err(SealRefusal::Failed);
        }
        let number = up.number();
        match self.end_file(disk, number, moment) {
            Ok(End::Sealed) => Ok(Receipt::of(up.end())),
            Ok(End::Dropped { code }) => {
                up.end();
                Err(SealRefusal::Header { code })
            }
            Ok(End::Unread) => Err(SealRefusal::Read(up.whole())),
            Err(DiskFault) => {
                self.kept.ledger.park(up.end());
                Err(SealRefusal::Disk)
            }
        }
    }

    /// Gives an upload up. The octets held stay; those that wait, fewer than 512, are lost. Takes no memory.
    pub fn park(&mut self, up: OpenUpload)
        requires { Holds self.old up }
        ensures rest { ChangesRest self.old.files self.new.files up.number None }
        ensures journal { self.new.journal ≡ self.old.journal }
        ensures uploads { KeepsOthers self.old self.new up.number }
    {
        self.kept.ledger.park(up.end());
    }

    /// Whether the store holds this upload: it is out, and its entry is as the upload says. Takes no memory.
    pub fn holds(&self, up: &OpenUpload) -> bool
        ensures { IsTrue result ↔ Holds self.now up.now }
    {
        self.is_out(up.number()) && self.has_entry(up) && self.waits_few(up)
    }

    /// Whether the upload's entry is under way, and is as the upload says.
    fn has_entry(&self, up: &OpenUpload) -> bool
        ensures { IsTrue result ↔ HasEntry self.now up.now }
    {
        let Some(info) = self.info(up.number()) else {
            return false;
        };
        if info.complete {
            return false;
        }
        if info.held != up.held() {
            return false;
        }
        is_theirs(&info, up.caller(), up.length())
    }

    /// Whether fewer than 512 octets wait of the upload, and no more came than the file has.
    fn waits_few(&self, up: &OpenUpload) -> bool
        ensures { IsTrue result ↔ WaitFew self.now up.now }
    {
        let waiting = self.kept.ledger.waiting(up.number()).len();
        waiting < BLOCK && waiting <= (up.length() - up.held()) as usize
    }

    /// Whether an upload of this number is out. Takes no memory.
    pub fn is_out(&self, number: FileNumber) -> bool
        ensures { IsTrue result ↔ IsOut self.now.files number }
    {
        self.kept.ledger.is_out(number)
    }

    /// What the store reports about the entry of this number, or `None` exactly when there is none. Takes no memory.
    pub fn info(&self, number: FileNumber) -> Option<Info>
        ensures info { result ≡ option_map info_of (entry_of (store_in self.now) number) }
        ensures rules { IsStore (store_in self.now) }
    {
        // Shows contracts that the entries keep their rules.
        self.kept.ledger.next();
        self.kept.ledger.info(number)
    }

    /// The number that the next file gets. Takes no memory.
    pub fn next_number(&self) -> FileNumber
        ensures { result ≡ (store_in self.now).next }
    {
        self.kept.ledger.next()
    }

    /// Whether a call answered `Disk`: then the store is to be recovered again. Takes no memory.
    pub fn failed(&self) -> bool
        ensures { result ≡ self.now.journal.failed }
    {
        self.kept.failed()
    }

    /// The least number above this one of a complete file, or `None` exactly when there is none. Takes no memory.
    pub fn numbers(&self, after: FileNumber) -> Option<FileNumber>
        ensures { IsNextComplete (store_in self.now) after result }
    {
        self.kept.ledger.next_complete(after)
    }

    /// Fills the room with the octets from this place on of a complete file; they have to be there. After the header it
    /// reads these octets, with one read for each block; in the header those before them too. The fault comes only if a
    /// read of the disk failed, and leaves the store and the disk's content as they were, and the room open. Takes no
    /// memory.
    pub fn read_at<D: Disk>(
        &mut self,
        disk: &mut D,
        number: FileNumber,
        offset: u32,
        room: &mut [u8],
    ) -> Result<(), DiskFault>
        requires may { MayRead D.Disk self.old disk.old number }
        requires there { offset + length room.old ≤ length (octets_at (entry_of (store_in self.old) number)) }
        ensures room { OnOk result (IsKnown D.Disk disk.old → FillsRoom
            (octets_at (entry_of (store_on D.Disk self.old disk.old) number)) offset (length room.old) room.new) }

        ensures reads { OnlyReads D.Disk (IsErr result) self.old self.new disk.old disk.new }
    {
        read_file(&self.kept, disk, number, offset, room)
    }

    /// Lends the header of a complete file: its octets up to and with the end item (PFH 1990), which [`header_in`]
    /// reads. The header is read, and never the body. Takes no memory.
    ///
    /// `Disk`: a read of the disk failed. `NoHeader`: what the file's blocks hold is no header any more, which never
    /// comes if it is known what they hold. Both leave the store and the disk's content as they were.
    ///
    /// [`header_in`]: crate::header_in
    pub fn header<D: Disk>(
        &mut self,
        disk: &mut D,
        number: FileNumber,
    ) -> Result<&[u8], HeaderFault>
        requires { MayRead D.Disk self.old disk.old number }
        ensures header { IfOk result (λ octets. IsKnown D.Disk disk.old
            → IsHeaderOf (octets_at (entry_of (store_on D.Disk self.old disk.old) number)) octets.now) }
        ensures whole { IfOk result (λ octets. IsWholeHeader octets.now) }
        ensures inside { IfOk result (λ octets.
            length octets.now ≤ length (octets_at (entry_of (store_in self.old) number))) }
        ensures short { IfOk result (λ octets. length octets.now ≤ 65535) }
        ensures there { IsErrOf result HeaderFault.NoHeader → ¬ IsKnown D.Disk disk.old }

        // It makes no write and no sync: except for the count of failed reads the disk is as it was. So is the store,
        // once the header is given back.
        ensures reads { Reads D.Disk (IsErrOf result HeaderFault.Disk) disk.old disk.new }
        ensures ready { IsReady D.Disk self.old disk.new }
        ensures* store { sem 𝓛 (Rests the_row self.entry (λ new. new ≡ self.old)) }
    {
        read_header(&self.kept, disk, number, &mut self.header)?;
        Ok(&self.header)
    }

    /// Its journal has the store's magic, and was read to its end.
    pub(crate) fn read_law(&self)
        ensures { IsRead self.now.journal }
    {
        let _failed = self.kept.failed();
    }

    /// How many octets of the upload's file are still to come.
    fn missing(&self, up: &OpenUpload) -> usize
        requires { Holds self.now up.now }
        ensures missing { came self.now up.now + result ≡ up.now.length }
    {
        let waiting = self.kept.ledger.waiting(up.number()).len();
        (up.length() - up.held()) as usize - waiting
    }

    /// Octets come of the upload of this number. With those that wait they make `blocks` whole blocks of 512, which
    /// become held, one Grow each; the others wait on.
    fn hold_blocks<D: Disk>(
        &mut self,
        disk: &mut D,
        number: FileNumber,
        bytes: &[u8],
        blocks: usize,
    ) -> Result<(), DiskFault>
        requires ready { IsReady D.Disk self.old disk.old }
        requires fits { FitsBytes self.old number bytes.now }
        requires whole { blocks ≡ length (waiting_with self.old number bytes.now) / 512 }
        ensures does { DoesTo D.Disk (IsErr result) self.old self.new disk.old disk.new
            (whole_grows number (waiting_with self.old number bytes.now)) number }
        ensures rest { OnOk result
            (rest_in self.new number ≡ Some (unfilled_block (waiting_with self.old number bytes.now))) }
    {
        let mut later = bytes;
        for block in 0..blocks {
            later = self.hold_block(disk, number, later)?;
        }
        self.kept.ledger.bring(number, later);
        Ok(())
    }

    /// Octets come of the upload of this number. With those that wait they fill a block, which becomes held, by one
    /// Grow; those after it are given back.
    fn hold_block<'a, D: Disk>(
        &mut self,
        disk: &mut D,
        number: FileNumber,
        bytes: &'a [u8],
    ) -> Result<&'a [u8], DiskFault>
        requires ready { IsReady D.Disk self.old disk.old }
        requires fits { FitsBytes self.old number bytes.now }
        requires there { 512 ≤ length (waiting_with self.old number bytes.now) }
        ensures does { DoesTo D.Disk (IsErr result) self.old self.new disk.old disk.new
            (grow number (take 512 (waiting_with self.old number bytes.now)) ∷ []) number }
        ensures rest { OnOk result (rest_in self.new number ≡ Some []) }
        ensures later { IfOk result (λ later. later.now ≡ drop 512 (waiting_with self.old number bytes.now)) }
        ensures fits { IfOk result (λ later. FitsBytes self.new number later.now) }
    {
        let waiting = self.kept.ledger.waiting(number).len();
        let (lacking, later) = bytes.split_at(BLOCK - waiting);
        self.kept.ledger.bring(number, lacking);
        self.hold(disk, number, BLOCK)?;
        Ok(later)
    }

    /// The octets that wait of the upload of this number, `count` of them, become held, by one Grow.
    fn hold<D: Disk>(
        &mut self,
        disk: &mut D,
        number: FileNumber,
        count: usize,
    ) -> Result<(), DiskFault>
        requires ready { IsReady D.Disk self.old disk.old }
        requires fills { FillsBlock self.old number count }
        ensures does { DoesTo D.Disk (IsErr result) self.old self.new disk.old disk.new
            (grow number (octets_or_none (rest_in self.old number)) ∷ []) number }
        ensures rest { OnOk result (rest_in self.new number ≡ Some []) }
    {
        let block = self.kept.ledger.lowest_free();
        let hold = EntriesChange::Hold {
            number,
            block,
            count,
        };
        // A crash before the record's gate is synced leaves the octets not held: the entry says that they are only
        // after it, and the block that they were put in is used by no file.
        put_change(&mut self.kept, disk, &hold)
    }

    /// Ends the file of this number, of which all octets came: those that wait become held, and it is sealed, or
    /// dropped if it has a fault; or it stays under way and out, if a read failed.
    fn end_file<D: Disk>(
        &mut self,
        disk: &mut D,
        number: FileNumber,
        moment: Moment,
    ) -> Result<End, DiskFault>
        requires ready { IsReady D.Disk self.old disk.old }
        requires whole { IsWholeWaiting self.old number }
        ensures ends { EndsFile D.Disk result self.old self.new disk.old disk.new number moment }
    {
        self.hold_rest(disk, number)?;
        match check_file(&self.kept, disk, number, moment) {
            Ok(header) => {
                self.seal_entry(disk, number, moment, header)?;
                Ok(End::Sealed)
            }
            Err(CheckFault::Header { code }) => {
                self.drop_entry(disk, number)?;
                Ok(End::Dropped { code })
            }
            Err(CheckFault::Disk) => Ok(End::Unread),
        }
    }

    /// The octets that wait of the upload of this number, of whose file all came, become held, by one Grow if there are
    /// any.
    fn hold_rest<D: Disk>(&mut self, disk: &mut D, number: FileNumber) -> Result<(), DiskFault>
        requires ready { IsReady D.Disk self.old disk.old }
        requires whole { IsWholeWaiting self.old number }
        ensures does { DoesTo D.Disk (IsErr result) self.old self.new disk.old disk.new
            (last_grow number (octets_or_none (rest_in self.old number))) number }
        ensures rest { OnOk result (rest_in self.new number ≡ Some []) }
    {
        let waiting = self.kept.ledger.waiting(number).len();
        if waiting == 0 {
            return Ok(());
        }
        self.hold(disk, number, waiting)
    }

    /// Seals the entry of this number, of which all octets are held, which has no fault, and whose header is this one.
    fn seal_entry<D: Disk>(
        &mut self,
        disk: &mut D,
        number: FileNumber,
        moment: Moment,
        header: CheckedHeader,
    ) -> Result<(), DiskFault>
        requires ready { IsReady D.Disk self.old disk.old }
        requires takes { TakesSeal (placed_in self.old) number header.len }
        requires found { ChecksFile (D.content disk.old) (placed_of (placed_in self.old) number) moment header }
        ensures does { Does D.Disk (IsErr result) self.old self.new disk.old disk.new (seal number moment ∷ []) }
        ensures leaves { LeavesOthers D.Disk self.old self.new disk.new number }
        ensures sealed { OnOk result (IsSealedAt (store_in self.new) number moment) }
        ensures rest { rest_in self.new number ≡ None }
    {
        self.kept.ledger.park(number);
        let seal = EntriesChange::Seal {
            number,
            moment,
            header,
        };
        // A crash before the record's gate is synced leaves the file whole and under way: the caller goes on with it
        // and ends it again. No receipt is given before.
        put_change(&mut self.kept, disk, &seal)
    }

    /// Drops the entry of this number, which is under way.
    fn drop_entry<D: Disk>(&mut self, disk: &mut D, number: FileNumber) -> Result<(), DiskFault>
        requires ready { IsReady D.Disk self.old disk.old }
        requires partial { Passes (placed_in self.old) number is_partial }
        ensures does { Does D.Disk (IsErr result) self.old self.new disk.old disk.new (drop_entry number ∷ []) }
        ensures leaves { LeavesOthers D.Disk self.old self.new disk.new number }
        ensures gone { OnOk result (entry_of (store_in self.new) number ≡ None) }
        ensures rest { OnOk result (rest_in self.new number ≡ None) }
    {
        // A crash before the record's gate is synced leaves the file whole and under way; it is found faulty again.
        put_change(&mut self.kept, disk, &EntriesChange::Drop { number })
    }
}

/// Whether an entry about which this is reported is of this caller and this length.
fn is_theirs(info: &Info, caller: Call, length: u32) -> bool
    ensures { IsTrue result ↔ ((info.now.caller ≡ caller) × (info.now.length ≡ length)) }
{
    info.caller == caller && info.length == length
}
