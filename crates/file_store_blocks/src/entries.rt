//! The entries of a store whose octets are in blocks, and what the commands do to them.

ghost use Rattle.std.specs.Prelude.{◌≡◌, ◌↔◌, ℕ, ◌≤◌, [], find, slice_get, false, None, Some, IsSome, IsTrue, IfSome};
ghost use Rattle.std.specs.Prelude.{IfNone};
ghost use Rattle.std.specs.Prelude.{◌+◌, ◌<◌, length, vec_capacity, IfOk, IsErr, IsErrOf, OnOk};
ghost use Rattle.std.specs.Option.{option_copied, option_map};
ghost use Rattle.file_store_blocks.specs.Checking.{ChecksFile, HasFault, IsFaultCode};
ghost use Rattle.file_store_blocks.specs.IsPlaced.{IsPlaced, KeepsSeals};
ghost use Rattle.file_store_blocks.specs.Placed.{new_placed, no_entries, placed_of, with_next};
ghost use Rattle.file_store_blocks.specs.PlacedCommand.{is_free, is_partial, seal_with, with_grown, with_new};
ghost use Rattle.file_store_blocks.specs.PlacedCommand.{with_sealed, without_file};
ghost use Rattle.file_store_blocks.specs.PlacedFiles.{Becomes, ChangesRest, IsLowest, IsNextSealed, IsOut, IsPlace};
ghost use Rattle.file_store_blocks.specs.PlacedFiles.{KeepsReading, read_of, seal_of};
ghost use Rattle.file_store_blocks.specs.Anew.{IsAt};
ghost use Rattle.file_store_blocks.specs.PlacedFiles.{NothingOut, Waits, file_of, is_sealed_file, lacks_octets};
ghost use Rattle.file_store_blocks.specs.PlacedFiles.{octets_or_none, placed_info, rest_of, rest_with};
ghost use Rattle.file_store_blocks.specs.PlacedFiles.{store_of};
ghost use Rattle.file_store_blocks.specs.ReadStore.{IsReadStore, may_have, nothing_read, with_later};
ghost use Rattle.file_store_blocks.specs.Applied.{TakesNext};
ghost use Rattle.file_store_blocks.specs.Sealed.{HasRuns, IsSealedHeader, ReadsSealed, Sealed, octets_given};
ghost use Rattle.file_store_blocks.specs.Seen.{seen};
ghost use Rattle.file_store_blocks.specs.TestLaws.{Grows, Passes, TakesSeal};
ghost use Rattle.file_store_blocks.specs.BlockTable.Table.{Table};
ghost use Rattle.disk_model.specs.Disk.{FillsRoom, IsTold};
ghost use Rattle.file_store_model.specs.Bars.{Bars};
ghost use Rattle.file_store_model.specs.Command.{MayBegin};
ghost use Rattle.disk_model.specs.Runs.{Reads};
ghost use Rattle.file_journal.specs.Layout.{Blocks, blocks_on};

use crate::block_table::BlockTable;
use crate::limits::blocks_of_length;
use crate::stored_file::{SealMark, StoredFile};
use crate::{
    BlockReader, CheckFault, CheckedHeader, FileBlocks, SealedFile, Stamp, check_file, read_header,
    read_stamped,
};
use disk_model::{Disk, DiskFault};
use file_store_model::{BeginBar, Info, LAST_NEXT, LONGEST_FILE, MOST_ENTRIES};
use px_base::{Call, FileNumber, Moment, OutOfMemory};
use std::alloc::Global;
use std::marker::Model;

/// The entries of a store, in rising number, with the memory of all that there may be. Contracts see them as an
/// `EntriesState`.
#[derive(Drop)]
pub struct Entries {
    files: Vec<StoredFile>,
    /// The blocks of each file: the run at its place.
    table: BlockTable,
    /// The number that the next file gets.
    next: u32,
    /// The least number that a further file may have by the records that were read.
    least: u32,
    /// Whether no record was read yet. Changes that aren't read leave it.
    first: bool,
}

impl Model for Entries {
    ghost use Rattle.std.specs.Prelude.{◌≡◌, vec_capacity};
    ghost use Rattle.file_store_blocks.specs.PlacedFiles.{AreKept, EntriesState, files_from, in_runs};
    ghost use Rattle.file_store_model.specs.Limits.{most_entries};

    ghost Value = { EntriesState };

    ghost view = { λ a. record {
      files = files_from (in_runs a.table.runs a.files.items) a.next a.table.limit;
      least = a.least;
      first = a.first;
    } };

    ghost invariant = { λ a. AreKept a.table.runs a.files.items a.next a.table.limit
        × (vec_capacity a.files ≡ most_entries) × (a.table.most ≡ most_entries) };
}

impl Entries {
    /// No entries, of `blocks` blocks. Takes memory, all that the entries ever do: 3 octets for each block, and some
    /// 600 for each of the 1,024 entries that there may be.
    pub fn new(alloc: Global, blocks: u32) -> Result<Entries, OutOfMemory>
        requires some { 1 ≤ blocks }
        requires most { blocks ≤ 65536 }
        ensures store { IfOk result (λ entries. store_of entries.files ≡ no_entries blocks) }
        ensures out { IfOk result (λ entries. NothingOut entries.files) }
        ensures read { IfOk result (λ entries. read_of entries ≡ nothing_read blocks) }
    {
        let table = BlockTable::new(alloc, blocks, MOST_ENTRIES)?;
        Ok(Entries {
            files: Vec::with_capacity(alloc, MOST_ENTRIES)?,
            table,
            next: 1,
            least: 1,
            first: true,
        })
    }

    /// The number that the next file gets. Takes no memory.
    pub fn next(&self) -> FileNumber
        ensures next { result ≡ self.now.files.next }
        ensures rules { IsPlaced (store_of self.now.files) }
        ensures some { 1 ≤ self.now.files.blocks }
        ensures most { self.now.files.blocks ≤ 65536 }
    {
        FileNumber::new(self.next)
    }

    /// Why a file of this length can't be begun; `None` if it may be. Takes no memory.
    pub fn begin_bar(&self, length: u32) -> Option<BeginBar>
        ensures some { (held : Blocks) → IfSome result (λ bar. Bars bar (seen held (store_of self.now.files)) length) }
        ensures none { (held : Blocks) → IfNone result (MayBegin (seen held (store_of self.now.files)) length) }
    {
        self.begin_bar_as(FileNumber::new(self.next), length)
    }

    /// Why a file of this length can't be begun if this were the next number.
    pub(crate) fn begin_bar_as(&self, number: FileNumber, length: u32) -> Option<BeginBar>
        ensures some { (held : Blocks)
            → IfSome result (λ bar. Bars bar (seen held (with_next number (store_of self.now.files))) length) }
        ensures none { (held : Blocks)
            → IfNone result (MayBegin (seen held (with_next number (store_of self.now.files))) length) }
    {
        let count = self.files.len();
        if length > LONGEST_FILE {
            return Some(BeginBar::TooLong);
        }
        if count >= MOST_ENTRIES {
            return Some(BeginBar::TooMany);
        }
        if number.get() == LAST_NEXT {
            return Some(BeginBar::NumbersGone);
        }
        let blocks = blocks_of_length(length);
        let free = self.table.left();
        if blocks > free {
            return Some(BeginBar::NoRoom { blocks, free });
        }
        None
    }

    /// Begins a file, of which no upload is out. Takes no memory.
    pub fn begin(&mut self, caller: Call, length: u32, moment: Moment)
        requires { (held : Blocks) × MayBegin (seen held (store_of self.old.files)) length }
        ensures { let number = self.old.files.next in
            Becomes self.old.files self.new.files
            (with_new (store_of self.old.files) (new_placed number caller length moment)) number None }
    {
        self.begin_as(FileNumber::new(self.next), caller, length, moment);
    }

    /// Begins a file of this number, which no entry has reached, and of which no upload is out.
    pub(crate) fn begin_as(&mut self, number: FileNumber, caller: Call, length: u32, moment: Moment)
        requires rules { IsPlaced (with_next number (store_of self.old.files)) }
        requires may { (held : Blocks) × MayBegin (seen held (with_next number (store_of self.old.files))) length }
        ensures becomes { Becomes self.old.files self.new.files
            (with_later (store_of self.old.files) (new_placed number caller length moment)) number None }
        ensures least { self.new.least ≡ number + 1 }
        ensures first { self.new.first ≡ self.old.first }
    {
        let file = StoredFile::new(number, caller, length, moment);
        self.table.begin(blocks_of_length(length));
        self.files.push_reserved(file);
        self.least = number.get() + 1;
        self.next = self.next.max(self.least);
    }

    /// Whether a file may be begun with this number, by the records that were read.
    pub(crate) fn may_have(&self, number: FileNumber) -> bool
        ensures { result ≡ may_have (read_of self.now) number }
    {
        self.least <= number.get() && number.get() <= self.next
    }

    /// The next number becomes this one, if no record was read yet and a file may have it: whether it did.
    pub(crate) fn take_next(&mut self, number: FileNumber) -> bool
        requires rules { IsReadStore (read_of self.old) }
        ensures next { TakesNext result self.old self.new number }
        ensures rests { (other : ℕ) → rest_of self.new.files other ≡ rest_of self.old.files other }
    {
        if !self.first || number.get() < self.least {
            return false;
        }
        self.next = number.get();
        true
    }

    /// A record was read.
    pub(crate) fn pass_first(&mut self)
        ensures { self.new ≡ record self.old { first = false } }
    {
        self.first = false;
    }

    /// An upload of this entry goes out, of which no octet waits. None was out. Takes no memory.
    pub fn take_out(&mut self, number: FileNumber)
        requires there { IsSome (placed_of (store_of self.old.files) number) }
        requires in_ { rest_of self.old.files number ≡ None }
        ensures { ChangesRest self.old.files self.new.files number (Some []) }
    {
        let place = self.place_of(number).unwrap();
        self.files[place].take_out();
    }

    /// The upload of this entry that is out, if there is one, is given up; the octets that wait are lost. Takes no
    /// memory.
    pub fn park(&mut self, number: FileNumber)
        ensures { ChangesRest self.old.files self.new.files number None }
    {
        if let Some(place) = self.place_of(number) {
            self.files[place].park();
        }
    }

    /// Octets come of the upload of this entry that is out, after those that wait: with these at most 512. Takes no
    /// memory. The work is that of the octets that come, and of finding the entry.
    pub fn bring(&mut self, number: FileNumber, bytes: &[u8])
        requires out { IsOut self.old.files number }
        requires room { length (octets_or_none (rest_of self.old.files number)) + length bytes.now ≤ 512 }
        ensures { ChangesRest self.old.files self.new.files number (rest_with self.old.files number bytes.now) }
    {
        let place = self.place_of(number).unwrap();
        self.files[place].bring(bytes);
    }

    /// Whether there is this block, and no file has it. Takes no memory.
    pub fn is_free(&self, block: u32) -> bool
        ensures { result ≡ is_free (store_of self.now.files) block }
    {
        self.table.is_free(block)
    }

    /// The lowest block that no file has. There is one, since a file lacks octets still. Takes no memory. The search
    /// begins where the last one ended, or at the lowest block that was freed since.
    pub fn lowest_free(&mut self) -> u32
        requires { (number : ℕ) × Passes (store_of self.old.files) number lacks_octets }
        ensures lowest { IsLowest (store_of self.old.files) result }
        ensures same { self.new ≡ self.old }
    {
        self.table.lowest_free()
    }

    /// The octets that wait, all of them, become held, in the lowest block that no file has: a Grow, whose condition
    /// holds. Takes no memory. The work is that of finding the entry, however many octets wait.
    pub fn hold(&mut self, number: FileNumber, block: u32, count: usize)
        requires waits { Waits self.old.files number count }
        requires allowed { Grows (store_of self.old.files) number block count }
        requires lowest { IsLowest (store_of self.old.files) block }
        ensures { Becomes self.old.files self.new.files
            (with_grown (store_of self.old.files) number block count)
            number (Some []) }
    {
        let place = self.place_of(number).unwrap();
        self.files[place].hold(count);
        self.table.take(place, block);
    }

    /// Further octets of a file of which no upload is out are held, in this block: a Grow, whose condition holds. Takes
    /// no memory.
    pub(crate) fn grow(&mut self, number: FileNumber, block: u32, used: u16)
        requires in_ { rest_of self.old.files number ≡ None }
        requires allowed { Grows (store_of self.old.files) number block used }
        ensures becomes { Becomes self.old.files self.new.files
            (with_grown (store_of self.old.files) number block used) number None }
        ensures reading { KeepsReading self.old self.new }
    {
        let place = self.place_of(number).unwrap();
        self.files[place].grow(used);
        self.table.take(place, block);
    }

    /// Seals a file that is under way and whole, and of which no upload is out, whatever its blocks hold: at this
    /// moment, with the sum and the length of its header, which a check of it found. Takes no memory.
    pub fn seal(&mut self, number: FileNumber, moment: Moment, sum: u16, header_len: u16)
        requires takes { TakesSeal (store_of self.old.files) number header_len }
        requires in_ { rest_of self.old.files number ≡ None }
        ensures becomes { Becomes self.old.files self.new.files
            (with_sealed (store_of self.old.files) number (seal_with moment sum header_len)) number None }
        ensures reading { KeepsReading self.old self.new }
    {
        let place = self.place_of(number).unwrap();
        self.files[place].seal(moment, sum, header_len);
    }

    /// Checks a file of which all octets are held by its header: the sum that the header has with the stamp of this
    /// moment, and its length. It reads each octet once, with one read for each block, and changes none. Takes no
    /// memory.
    ///
    /// `Header`: the file breaks a rule of headers, the first with this code. `Disk`: a read failed.
    pub fn check<D: Disk, R: BlockReader<D>>(
        &self,
        reader: &R,
        disk: &mut D,
        number: FileNumber,
        moment: Moment,
    ) -> Result<CheckedHeader, CheckFault>
        requires may_read { R.may_read reader.now disk.old }
        requires blocks { R.block_count reader.now ≡ self.now.files.blocks }
        requires there { IsSome (placed_of (store_of self.now.files) number) }
        ensures may_read { R.may_read reader.now disk.new }
        ensures header { IfOk result
            (ChecksFile (D.content disk.old) (placed_of (store_of self.now.files) number) moment) }
        ensures inside { IfOk result (λ header.
            IfSome (placed_of (store_of self.now.files) number) (λ f. header.len ≤ f.held)) }
        ensures fault { (code : ℕ) → IsErrOf result (CheckFault.Header code)
            → HasFault (D.content disk.old) (placed_of (store_of self.now.files) number) code }
        ensures code { (code : ℕ) → IsErrOf result (CheckFault.Header code) → IsFaultCode code }
        ensures reads { Reads D.Disk (IsErrOf result CheckFault.Disk) disk.old disk.new }
    {
        let place = self.place_of(number).unwrap();
        let info = self.files[place].info();
        let blocks = FileBlocks {
            run: place,
            held: info.held,
        };
        let stamp = Stamp {
            number,
            by: info.caller,
            moment,
        };
        check_file(reader, disk, &self.table, blocks, stamp)
    }

    /// Fills the room with the octets of a sealed file, with its stamp, from octet `offset` on. After the header it
    /// reads the octets that it gives and no others, with one read for each block; in the header those before them too.
    /// It changes none. Takes no memory.
    pub fn read_sealed<D: Disk, R: BlockReader<D>>(
        &self,
        reader: &R,
        disk: &mut D,
        number: FileNumber,
        offset: u32,
        room: &mut [u8],
    ) -> Result<(), DiskFault>
        requires may_read { R.may_read reader.now disk.old }
        requires blocks { R.block_count reader.now ≡ self.now.files.blocks }
        requires there { Sealed (store_of self.now.files) number }
        requires seals { IsTold (D.content disk.old)
            → KeepsSeals (blocks_on (D.content disk.old)) (store_of self.now.files) }
        requires inside { (sealed : Sealed (store_of self.now.files) number)
            → offset + length room.old ≤ sealed.file.held }
        ensures may_read { R.may_read reader.now disk.new }
        ensures room { OnOk result (IsTold (D.content disk.old)
            → (sealed : Sealed (store_of self.now.files) number)
            → FillsRoom (octets_given (blocks_on (D.content disk.old)) sealed) offset (length room.old) room.new) }
        ensures reads { Reads D.Disk (IsErr result) disk.old disk.new }
    {
        let file = self.sealed_file(number);
        read_stamped(reader, disk, &self.table, &file, offset, room)
    }

    /// Puts the header of a sealed file, with its stamp, into `header`, in place of what it holds; it has room for the
    /// longest one. It reads the header's octets once, with one read for each block. Takes no memory.
    ///
    /// After an error `header` holds any octets, or none.
    pub fn read_header<D: Disk, R: BlockReader<D>>(
        &self,
        reader: &R,
        disk: &mut D,
        number: FileNumber,
        header: &mut Vec<u8>,
    ) -> Result<(), DiskFault>
        requires may_read { R.may_read reader.now disk.old }
        requires blocks { R.block_count reader.now ≡ self.now.files.blocks }
        requires there { Sealed (store_of self.now.files) number }
        requires seals { IsTold (D.content disk.old)
            → KeepsSeals (blocks_on (D.content disk.old)) (store_of self.now.files) }
        requires room { 65535 ≤ vec_capacity header.old }
        ensures may_read { R.may_read reader.now disk.new }
        ensures header { OnOk result (IsTold (D.content disk.old)
            → (sealed : Sealed (store_of self.now.files) number)
            → IsSealedHeader (octets_given (blocks_on (D.content disk.old)) sealed) header.new.items) }
        ensures short { length header.new.items ≤ 65535 }
        ensures capacity { vec_capacity header.old ≤ vec_capacity header.new }
        ensures reads { Reads D.Disk (IsErr result) disk.old disk.new }
    {
        let file = self.sealed_file(number);
        read_header(reader, disk, &self.table, &file, header)
    }

    /// Drops a file under way. Takes no memory.
    pub fn drop_entry(&mut self, number: FileNumber)
        requires { Passes (store_of self.old.files) number is_partial }
        ensures becomes { Becomes self.old.files self.new.files
            (without_file (store_of self.old.files) number) number None }
        ensures reading { KeepsReading self.old self.new }
    {
        let place = self.place_of(number).unwrap();
        drop(self.files.remove(place));
        self.table.remove(place);
    }

    /// Whether an upload of this number is out. Takes no memory.
    pub fn is_out(&self, number: FileNumber) -> bool
        ensures { IsTrue result ↔ IsOut self.now.files number }
    {
        match self.place_of(number) {
            Some(place) => self.files[place].is_out(),
            None => false,
        }
    }

    /// The octets that wait of the upload of this number, at most 512; none if none is out. Takes no memory.
    pub fn waiting(&self, number: FileNumber) -> &[u8]
        ensures octets { result.now ≡ octets_or_none (rest_of self.now.files number) }
        ensures most { length result.now ≤ 512 }
    {
        match self.place_of(number) {
            Some(place) => self.files[place].rest(),
            None => &[],
        }
    }

    /// What the store reports about the entry of this number, or `None` exactly when there is none. Takes no memory.
    pub fn info(&self, number: FileNumber) -> Option<Info>
        ensures info { result ≡ option_map placed_info (placed_of (store_of self.now.files) number) }
        ensures rules { IsPlaced (store_of self.now.files) }
    {
        match self.place_of(number) {
            Some(place) => Some(self.files[place].info()),
            None => None,
        }
    }

    /// The least number above this one of a complete file, or `None` exactly when there is none. Takes no memory.
    pub fn next_complete(&self, above: FileNumber) -> Option<FileNumber>
        ensures { IsNextSealed (store_of self.now.files) above result }
    {
        let place = self
            .files
            .partition_point(|file| file.number().get() <= above.get());
        first_complete(&self.files[place..])
    }

    /// What the store reports about the entry at this place, if there is one.
    pub(crate) fn info_at(&self, at: usize) -> Option<Info>
        ensures rules { IsPlaced (store_of self.now.files) }
        ensures info { result ≡ option_map placed_info (slice_get (store_of self.now.files).entries at) }
    {
        if at >= self.files.len() {
            return None;
        }
        Some(self.files[at].info())
    }

    /// How many blocks the file at this place has.
    pub(crate) fn block_count(&self, at: usize) -> usize
        requires { at < length (store_of self.now.files).entries }
        ensures count { IsAt (store_of self.now.files) at (λ f. result ≡ length f.blocks) }
        ensures rules { IsPlaced (store_of self.now.files) }
        ensures most { self.now.files.blocks ≤ 65536 }
    {
        self.table.count(at)
    }

    /// The block at this place of the file at this place.
    pub(crate) fn block_at(&self, at: usize, place: usize) -> u32
        requires there { at < length (store_of self.now.files).entries }
        requires within { IsAt (store_of self.now.files) at (λ f. place < length f.blocks) }
        ensures { IsAt (store_of self.now.files) at (λ f. slice_get f.blocks place ≡ Some result) }
    {
        self.table.block(at, place)
    }

    /// The seal of the file at this place, if there is one.
    pub(crate) fn mark_at(&self, at: usize) -> Option<SealMark>
        requires { at < length (store_of self.now.files).entries }
        ensures { IsAt (store_of self.now.files) at (λ f. seal_of result ≡ f.seal) }
    {
        self.files[at].mark()
    }

    /// The sealed file of this number, as it is read of a table of the runs in which the files are.
    fn sealed_file(&self, number: FileNumber) -> SealedFile
        requires { Sealed (store_of self.now.files) number }
        ensures { (table : Table) → HasRuns table (store_of self.now.files)
            → ReadsSealed table (store_of self.now.files) number result }
    {
        let place = self.place_of(number).unwrap();
        let file = &self.files[place];
        let mark = file.mark().unwrap();
        file.sealed_in(place, mark)
    }

    /// The place of the file of this number, found by halving.
    fn place_of(&self, number: FileNumber) -> Option<usize>
        ensures some { IfSome result (IsPlace self.now.files.files number) }
        ensures none { IfNone result (file_of self.now.files.files number ≡ None) }
    {
        self.files
            .binary_search_by_key(&number.get(), |file| file.number().get())
            .ok()
    }
}

/// The number of the first complete one of these files.
fn first_complete(files: &[StoredFile]) -> Option<FileNumber>
    ensures { result ≡ option_map (λ f. f.entry.number) (find is_sealed_file files.now) }
{
    let file = files.iter().find(|file| file.is_complete())?;
    Some(file.number())
}
