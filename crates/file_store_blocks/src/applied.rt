//! What was read from a journal's records, applied to the entries.

ghost use Rattle.std.specs.Prelude.{◌≡◌, ◌==◌, List, ℕ, Option, is_some, IfOk, IfSome, IsErr, OnErr};
ghost use Rattle.file_store_blocks.specs.Applied.{Applied, AppliesRecord, TellsSeal};
ghost use Rattle.file_store_blocks.specs.Placed.{Placed};
ghost use Rattle.file_store_blocks.specs.PlacedCommand.{begin, can_grow, drop_entry, grow, is_allowed, is_partial};
ghost use Rattle.file_store_blocks.specs.PlacedCommand.{is_whole};
ghost use Rattle.file_store_blocks.specs.PlacedCommand.{passes_at, seal};
ghost use Rattle.file_store_blocks.specs.PlacedCommands.{placed_value, recorded_value};
ghost use Rattle.file_store_blocks.specs.PlacedFiles.{NothingOut, placed_info, read_of, store_of};
ghost use Rattle.file_store_blocks.specs.PlacedRecords.{CanRecord};
ghost use Rattle.file_store_blocks.specs.ReadStore.{IsReadStore};
ghost use Rattle.file_store_blocks.specs.TestLaws.{TakesSeal};
ghost use Rattle.disk_model.specs.Runs.{Reads};
ghost use Rattle.file_journal.specs.Layout.{Blocks};

use crate::recorded::Recorded;
use crate::{BlockReader, CheckFault, CheckedHeader, Entries, PlacedCommand};
use disk_model::{Disk, DiskFault};
use file_store_model::Info;
use px_base::{Call, FileNumber, Moment};

impl Entries {
    /// Applies what a record says: whether the entries allow it, with what the blocks hold. What they don't allow
    /// changes nothing, and so does a read that failed. No upload is out. Takes no memory.
    pub(crate) fn apply_recorded<D: Disk, R: BlockReader<D>>(
        &mut self,
        reader: &R,
        disk: &mut D,
        recorded: Recorded,
    ) -> Result<bool, DiskFault>
        requires may_read { R.may_read reader.now disk.old }
        requires blocks { R.block_count reader.now ≡ self.old.files.blocks }
        requires out { NothingOut self.old.files }
        requires rules { IsReadStore (read_of self.old) }
        requires writable { CanRecord (recorded_value recorded) }
        ensures applied { IfOk result
            (λ done. AppliesRecord (D.content disk.old) done self.old self.new (recorded_value recorded)) }
        ensures untouched { OnErr result (self.new ≡ self.old) }
        ensures out { NothingOut self.new.files }
        ensures reads { Reads D.Disk (IsErr result) disk.old disk.new }
    {
        let done = match recorded {
            Recorded::Next { number } => self.take_next(number),
            Recorded::Change(command) => self.apply_command(reader, disk, command)?,
        };
        if done {
            self.pass_first();
        }
        Ok(done)
    }

    /// Applies a command that was read from a record: whether its condition holds, with what the blocks hold. One whose
    /// condition doesn't hold changes nothing, and so does a read that failed. No upload is out. Takes no memory.
    fn apply_command<D: Disk, R: BlockReader<D>>(
        &mut self,
        reader: &R,
        disk: &mut D,
        command: PlacedCommand,
    ) -> Result<bool, DiskFault>
        requires may_read { R.may_read reader.now disk.old }
        requires blocks { R.block_count reader.now ≡ self.old.files.blocks }
        requires out { NothingOut self.old.files }
        requires rules { IsReadStore (read_of self.old) }
        ensures applied { IfOk result
            (λ done. Applied (D.content disk.old) done self.old self.new (placed_value command)) }
        ensures untouched { OnErr result (self.new ≡ self.old) }
        ensures out { NothingOut self.new.files }
        ensures reads { Reads D.Disk (IsErr result) disk.old disk.new }
    {
        match command {
            PlacedCommand::Begin {
                number,
                caller,
                length,
                moment,
            } => Ok(self.apply_begin(number, caller, length, moment)),
            PlacedCommand::Grow {
                number,
                block,
                used,
            } => Ok(self.apply_grow(number, block, used)),
            PlacedCommand::Seal {
                number,
                moment,
                sum,
            } => self.apply_seal(reader, disk, number, moment, sum),
            PlacedCommand::Drop { number } => Ok(self.apply_drop(number)),
        }
    }

    fn apply_begin(&mut self, number: FileNumber, caller: Call, length: u32, moment: Moment) -> bool
        requires out { NothingOut self.old.files }
        requires rules { IsReadStore (read_of self.old) }
        ensures applied { (content : Option (List ℕ))
            → Applied content result self.old self.new (begin number caller length moment) }
        ensures out { NothingOut self.new.files }
    {
        if !self.may_have(number) {
            return false;
        }
        if self.begin_bar_as(number, length).is_some() {
            return false;
        }
        self.begin_as(number, caller, length, moment);
        true
    }

    fn apply_grow(&mut self, number: FileNumber, block: u32, used: u16) -> bool
        requires out { NothingOut self.old.files }
        requires rules { IsReadStore (read_of self.old) }
        ensures applied { (content : Option (List ℕ))
            → Applied content result self.old self.new (grow number block used) }
        ensures out { NothingOut self.new.files }
    {
        if !self.may_grow(number, block, used) {
            return false;
        }
        self.grow(number, block, used);
        true
    }

    fn apply_seal<D: Disk, R: BlockReader<D>>(
        &mut self,
        reader: &R,
        disk: &mut D,
        number: FileNumber,
        moment: Moment,
        sum: u16,
    ) -> Result<bool, DiskFault>
        requires may_read { R.may_read reader.now disk.old }
        requires blocks { R.block_count reader.now ≡ self.old.files.blocks }
        requires out { NothingOut self.old.files }
        requires rules { IsReadStore (read_of self.old) }
        ensures applied { IfOk result
            (λ done. Applied (D.content disk.old) done self.old self.new (seal number moment sum)) }
        ensures untouched { OnErr result (self.new ≡ self.old) }
        ensures out { NothingOut self.new.files }
        ensures reads { Reads D.Disk (IsErr result) disk.old disk.new }
    {
        let Some(header_len) = self.may_seal(reader, disk, number, moment, sum)? else {
            return Ok(false);
        };
        self.seal(number, moment, sum, header_len);
        Ok(true)
    }

    fn apply_drop(&mut self, number: FileNumber) -> bool
        requires out { NothingOut self.old.files }
        requires rules { IsReadStore (read_of self.old) }
        ensures applied { (content : Option (List ℕ))
            → Applied content result self.old self.new (drop_entry number) }
        ensures out { NothingOut self.new.files }
    {
        if !self.is_under_way(number) {
            return false;
        }
        self.drop_entry(number);
        true
    }

    /// Whether the file of this number may be sealed so, with what the blocks hold: if so, the length of its header.
    fn may_seal<D: Disk, R: BlockReader<D>>(
        &self,
        reader: &R,
        disk: &mut D,
        number: FileNumber,
        moment: Moment,
        sum: u16,
    ) -> Result<Option<u16>, DiskFault>
        requires may_read { R.may_read reader.now disk.old }
        requires blocks { R.block_count reader.now ≡ self.now.files.blocks }
        ensures may { IfOk result (TellsSeal (D.content disk.old) (store_of self.now.files) number moment sum) }
        ensures takes { IfOk result (λ header. IfSome header (TakesSeal (store_of self.now.files) number)) }
        ensures reads { Reads D.Disk (IsErr result) disk.old disk.new }
    {
        if !self.is_whole(number) {
            return Ok(None);
        }
        match self.check(reader, disk, number, moment) {
            Ok(header) => Ok(of_sum(header, sum)),
            Err(CheckFault::Header { .. }) => Ok(None),
            Err(CheckFault::Disk) => Err(DiskFault),
        }
    }

    /// Whether the condition of a Grow holds.
    fn may_grow(&self, number: FileNumber, block: u32, used: u16) -> bool
        ensures { (held : Blocks) → result ≡ is_allowed held (store_of self.now.files) (grow number block used) }
    {
        1 <= used && used <= 512 && self.is_free(block) && self.has_room(number, used)
    }

    /// Whether the file of this number is under way, and has room for this number of further octets in one block.
    fn has_room(&self, number: FileNumber, used: u16) -> bool
        ensures { result ≡ passes_at (store_of self.now.files) number (λ f. can_grow f used) }
    {
        match self.info(number) {
            Some(info) => has_room_for(&info, used),
            None => false,
        }
    }

    /// Whether the file of this number is under way, and all of its octets are held.
    fn is_whole(&self, number: FileNumber) -> bool
        ensures { result ≡ passes_at (store_of self.now.files) number is_whole }
    {
        match self.info(number) {
            Some(info) => !info.complete && info.held == info.length,
            None => false,
        }
    }

    /// Whether there is a file of this number under way.
    fn is_under_way(&self, number: FileNumber) -> bool
        ensures { result ≡ passes_at (store_of self.now.files) number is_partial }
    {
        match self.info(number) {
            Some(info) => !info.complete,
            None => false,
        }
    }
}

/// The length of a header, if it has this sum.
fn of_sum(header: CheckedHeader, sum: u16) -> Option<u16>
    ensures sum { is_some result ≡ (sum == header.sum) }
    ensures len { IfSome result (λ len. len ≡ header.len) }
{
    if header.sum == sum {
        Some(header.len)
    } else {
        None
    }
}

/// Whether a file about which this is reported is under way, and has room for this number of further octets in one
/// block.
fn has_room_for(info: &Info, used: u16) -> bool
    ensures { (file : Placed) → info.now ≡ placed_info file → result ≡ can_grow file used }
{
    let held = u64::from(info.held) + u64::from(used);
    let length = u64::from(info.length);
    !info.complete && held <= length && (used == 512 || held == length)
}
