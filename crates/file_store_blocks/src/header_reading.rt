//! The reading of the header of a sealed file.

ghost use Rattle.std.specs.Prelude.{◌≡◌, ◌≤◌, length, vec_capacity, IsErr, OnOk};
ghost use Rattle.file_store_blocks.specs.Reading.{StandsIn, octets_on};
ghost use Rattle.file_store_blocks.specs.Sealed.{IsSealedFile, IsSealedHeader, sealed_octets};
ghost use Rattle.disk_model.specs.Disk.{IsTold};
ghost use Rattle.disk_model.specs.Runs.{Reads};

use crate::block_table::BlockTable;
use crate::file_reading::is_call;
use crate::{BlockReader, SealedFile, read_stamped};
use disk_model::{Disk, DiskFault};

/// Puts the header of a sealed file, with its stamp, into `header`, in place of what it holds; it has room for the
/// longest one. It reads the header's octets once, with one read for each block. Takes no memory.
///
/// After an error `header` holds any octets, or none.
pub fn read_header<D: Disk, R: BlockReader<D>>(
    reader: &R,
    disk: &mut D,
    table: &BlockTable,
    file: &SealedFile,
    header: &mut Vec<u8>,
) -> Result<(), DiskFault>
    requires may_read { R.may_read reader.now disk.old }
    requires stands { StandsIn table.now (R.block_count reader.now) file.now.blocks }
    requires sealed { IsTold (D.content disk.old)
        → IsSealedFile file.now (octets_on (D.content disk.old) table.now file.now.blocks) }
    requires inside { file.now.header_len ≤ file.now.blocks.held }
    requires room { 65535 ≤ vec_capacity header.old }
    ensures may_read { R.may_read reader.now disk.new }
    ensures header { OnOk result (IsTold (D.content disk.old)
        → IsSealedHeader (sealed_octets (D.content disk.old) table.now file.now) header.new.items) }
    ensures short { length header.new.items ≤ 65535 }
    ensures capacity { vec_capacity header.old ≤ vec_capacity header.new }
    ensures reads { Reads D.Disk (IsErr result) disk.old disk.new }
{
    header.resize(usize::from(file.header_len), 0).unwrap();
    read_into(reader, disk, table, file, header.as_mut_slice())
}

/// Fills the room, which is as long as the header, with the header of a sealed file, with its stamp.
fn read_into<D: Disk, R: BlockReader<D>>(
    reader: &R,
    disk: &mut D,
    table: &BlockTable,
    file: &SealedFile,
    room: &mut [u8],
) -> Result<(), DiskFault>
    requires may_read { R.may_read reader.now disk.old }
    requires stands { StandsIn table.now (R.block_count reader.now) file.now.blocks }
    requires sealed { IsTold (D.content disk.old)
        → IsSealedFile file.now (octets_on (D.content disk.old) table.now file.now.blocks) }
    requires inside { file.now.header_len ≤ file.now.blocks.held }
    requires room { length room.old ≡ file.now.header_len }
    ensures may_read { R.may_read reader.now disk.new }
    ensures header { OnOk result (IsTold (D.content disk.old)
        → IsSealedHeader (sealed_octets (D.content disk.old) table.now file.now) room.new) }
    ensures reads { Reads D.Disk (IsErr result) disk.old disk.new }
{
    is_call(file.stamp.by);
    read_stamped(reader, disk, table, file, 0, room)
}
