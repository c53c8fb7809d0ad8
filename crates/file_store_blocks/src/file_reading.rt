//! The reading of files that are to be sealed, or are.

ghost use Rattle.std.specs.Prelude.{◌≡◌, ℕ, ◌+◌, ◌≤◌, length, IfOk, IsErr, IsErrOf, OnOk};
ghost use Rattle.file_store_blocks.specs.Checking.{IsFaultCode, IsSealable, stamp_of};
ghost use Rattle.file_store_blocks.specs.Reading.{StandsIn, octets_on};
ghost use Rattle.file_store_blocks.specs.Sealed.{IsSealedFile, sealed_octets};
ghost use Rattle.disk_model.specs.Disk.{FillsRoom, IsTold};
ghost use Rattle.disk_model.specs.Runs.{Reads};
ghost use Rattle.pfh_items.specs.Faults.{fault_code};
ghost use Rattle.px_base.specs.CallSign.{IsCall};

use crate::block_table::BlockTable;
use crate::file_check::{CheckedHeader, FileCheck};
use crate::piece_taker::pass_octets;
use crate::{BlockReader, CheckFault, FileBlocks, SealedFile, Stamp, read_octets};
use disk_model::{Disk, DiskFault};
use pfh_writer::Stamper;
use px_base::Call;

/// Checks a file, all of whose octets are held, by its header: the sum that the header has with this stamp, and its
/// length. It reads each octet once, with one read for each block, into one buffer of 512 octets, and changes none.
/// Takes no memory.
///
/// `Header`: the file breaks a rule of headers, the first with this code. `Disk`: a read failed.
pub fn check_file<D: Disk, R: BlockReader<D>>(
    reader: &R,
    disk: &mut D,
    table: &BlockTable,
    file: FileBlocks,
    stamp: Stamp,
) -> Result<CheckedHeader, CheckFault>
    requires may_read { R.may_read reader.now disk.old }
    requires stands { StandsIn table.now (R.block_count reader.now) file }
    ensures may_read { R.may_read reader.now disk.new }
    ensures header { IfOk result (λ header. IsTold (D.content disk.old)
        → IsSealable (stamp_of stamp) (octets_on (D.content disk.old) table.now file) header.sum header.len) }
    ensures inside { IfOk result (λ header. header.len ≤ file.held) }
    ensures fault { (code : ℕ) → IsErrOf result (CheckFault.Header code) → IsTold (D.content disk.old)
        → fault_code (octets_on (D.content disk.old) table.now file) ≡ Some code }
    ensures code { (code : ℕ) → IsErrOf result (CheckFault.Header code) → IsFaultCode code }
    ensures reads { Reads D.Disk (IsErrOf result CheckFault.Disk) disk.old disk.new }
{
    let mut check = FileCheck::new(stamp.number, stamp.by, stamp.moment);
    pass_octets(reader, disk, table, file, file.held, &mut check)?;
    match check.end() {
        Ok(header) => Ok(header),
        Err(fault) => Err(CheckFault::Header { code: fault.code }),
    }
}

/// Fills the room with the octets of a sealed file, with its stamp, from octet `offset` on. After the header it reads
/// the octets that it gives and no others, with one read for each block; in the header those before them too, into one
/// buffer of 512 octets. It changes none. Takes no memory.
pub fn read_stamped<D: Disk, R: BlockReader<D>>(
    reader: &R,
    disk: &mut D,
    table: &BlockTable,
    file: &SealedFile,
    offset: u32,
    room: &mut [u8],
) -> Result<(), DiskFault>
    requires may_read { R.may_read reader.now disk.old }
    requires stands { StandsIn table.now (R.block_count reader.now) file.now.blocks }
    requires sealed { IsTold (D.content disk.old)
        → IsSealedFile file.now (octets_on (D.content disk.old) table.now file.now.blocks) }
    requires inside { offset + length room.old ≤ file.now.blocks.held }
    ensures may_read { R.may_read reader.now disk.new }
    ensures room { OnOk result (IsTold (D.content disk.old)
        → FillsRoom (sealed_octets (D.content disk.old) table.now file.now) offset (length room.old) room.new) }
    ensures reads { Reads D.Disk (IsErr result) disk.old disk.new }
{
    if offset < u32::from(file.header_len) {
        read_through_header(reader, disk, table, file, offset, room)
    } else {
        read_behind_header(reader, disk, table, file, offset, room)
    }
}

/// The same after the header, whose octets alone the stamp changes.
fn read_behind_header<D: Disk, R: BlockReader<D>>(
    reader: &R,
    disk: &mut D,
    table: &BlockTable,
    file: &SealedFile,
    offset: u32,
    room: &mut [u8],
) -> Result<(), DiskFault>
    requires may_read { R.may_read reader.now disk.old }
    requires stands { StandsIn table.now (R.block_count reader.now) file.now.blocks }
    requires sealed { IsTold (D.content disk.old)
        → IsSealedFile file.now (octets_on (D.content disk.old) table.now file.now.blocks) }
    requires inside { offset + length room.old ≤ file.now.blocks.held }
    requires behind { file.now.header_len ≤ offset }
    ensures may_read { R.may_read reader.now disk.new }
    ensures room { OnOk result (IsTold (D.content disk.old)
        → FillsRoom (sealed_octets (D.content disk.old) table.now file.now) offset (length room.old) room.new) }
    ensures reads { Reads D.Disk (IsErr result) disk.old disk.new }
{
    is_call(file.stamp.by);
    read_octets(reader, disk, table, file.blocks, offset, room)
}

/// The same from any octet on: a stamper has to take those before it.
fn read_through_header<D: Disk, R: BlockReader<D>>(
    reader: &R,
    disk: &mut D,
    table: &BlockTable,
    file: &SealedFile,
    offset: u32,
    room: &mut [u8],
) -> Result<(), DiskFault>
    requires may_read { R.may_read reader.now disk.old }
    requires stands { StandsIn table.now (R.block_count reader.now) file.now.blocks }
    requires sealed { IsTold (D.content disk.old)
        → IsSealedFile file.now (octets_on (D.content disk.old) table.now file.now.blocks) }
    requires inside { offset + length room.old ≤ file.now.blocks.held }
    ensures may_read { R.may_read reader.now disk.new }
    ensures room { OnOk result (IsTold (D.content disk.old)
        → FillsRoom (sealed_octets (D.content disk.old) table.now file.now) offset (length room.old) room.new) }
    ensures reads { Reads D.Disk (IsErr result) disk.old disk.new }
{
    let stamp = file.stamp;
    let mut stamper = Stamper::new(stamp.number, stamp.by, stamp.moment, file.sum);
    pass_octets(reader, disk, table, file.blocks, offset, &mut stamper)?;
    read_octets(reader, disk, table, file.blocks, offset, room)?;
    stamper.feed(room);
    Ok(())
}

/// Shows contracts that a call is one. It does nothing.
pub(crate) fn is_call(_by: Call)
    ensures { IsCall _by }
{}
