//! The octets of a file, read from the blocks in which they are.

ghost use Rattle.std.specs.Prelude.{◌≡◌, ◌+◌, ◌%◌, ◌<◌, ◌≤◌, length, IsErr, OnOk};
ghost use Rattle.file_store_blocks.specs.Reading.{StandsIn, octets_on};
ghost use Rattle.disk_model.specs.Disk.{FillsRoom, IsTold};
ghost use Rattle.disk_model.specs.Runs.{Reads};

use crate::BlockReader;
use crate::block_table::BlockTable;
use disk_model::{Disk, DiskFault};

/// The number of octets of a block.
const BLOCK: u32 = 512;

/// Where the octets of a file are: in its run of a table of blocks, from the beginning of each block on.
#[derive(Clone, Copy, Debug, PartialEq, Eq)]
pub struct FileBlocks {
    /// The place of the run in the table.
    pub run: usize,
    /// How many octets are held.
    pub held: u32,
}

/// Fills the room with the octets of a file as they were uploaded, from octet `offset` on. It reads these octets and no
/// others, with one read for each block. Takes no memory.
pub fn read_octets<D: Disk, R: BlockReader<D>>(
    reader: &R,
    disk: &mut D,
    table: &BlockTable,
    file: FileBlocks,
    offset: u32,
    room: &mut [u8],
) -> Result<(), DiskFault>
    requires may_read { R.may_read reader.now disk.old }
    requires stands { StandsIn table.now (R.block_count reader.now) file }
    requires inside { offset + length room.old ≤ file.held }
    ensures may_read { R.may_read reader.now disk.new }
    ensures room { OnOk result (IsTold (D.content disk.old)
        → FillsRoom (octets_on (D.content disk.old) table.now file) offset (length room.old) room.new) }
    ensures reads { Reads D.Disk (IsErr result) disk.old disk.new }
{
    let mut done = 0;
    while done < room.len() {
        let at = offset + done as u32;
        let count = part_len(at, room.len() - done);
        read_part(reader, disk, table, file, at, &mut room[done..done + count])?;
        done += count;
    }
    Ok(())
}

/// How many of `count` octets, from this place of a file on, are in one block.
pub(crate) fn part_len(at: u32, count: usize) -> usize
    requires { 0 < count }
    ensures some { 0 < result }
    ensures most { result ≤ count }
    ensures one { at % 512 + result ≤ 512 }
{
    count.min((BLOCK - at % BLOCK) as usize)
}

/// Fills the room with the octets of a file from this place on, which are in one block.
pub(crate) fn read_part<D: Disk, R: BlockReader<D>>(
    reader: &R,
    disk: &mut D,
    table: &BlockTable,
    file: FileBlocks,
    at: u32,
    room: &mut [u8],
) -> Result<(), DiskFault>
    requires may_read { R.may_read reader.now disk.old }
    requires stands { StandsIn table.now (R.block_count reader.now) file }
    requires some { 0 < length room.old }
    requires inside { at + length room.old ≤ file.held }
    requires one { at % 512 + length room.old ≤ 512 }
    ensures may_read { R.may_read reader.now disk.new }
    ensures room { OnOk result (IsTold (D.content disk.old)
        → FillsRoom (octets_on (D.content disk.old) table.now file) at (length room.old) room.new) }
    ensures reads { Reads D.Disk (IsErr result) disk.old disk.new }
{
    let block = table.block(file.run, (at / BLOCK) as usize);
    reader.read_block(disk, block, (at % BLOCK) as u16, room)
}
