//! What takes the octets of a file in pieces.

ghost use Rattle.std.specs.Prelude.{◌≡◌, ◌≤◌, ℕ, List, ◌++◌, length, IsErr, OnOk};
ghost use Rattle.file_store_blocks.specs.Checking.{HasChecked, HasPassed, StampSetting};
ghost use Rattle.file_store_blocks.specs.Reading.{StandsIn, octets_on};
ghost use Rattle.file_store_blocks.specs.Taking.{HasRoomFor, IsFresh, TookFront};
ghost use Rattle.disk_model.specs.Runs.{Reads};
ghost use Rattle.pfh_items.specs.Stamp.{StampValue};

use crate::block_table::BlockTable;
use crate::file_blocks::{part_len, read_part};
use crate::file_check::FileCheck;
use crate::{BlockReader, FileBlocks};
use disk_model::{Disk, DiskFault};
use pfh_writer::Stamper;

/// What takes the octets of a file in pieces of any lengths, at most 4,194,304 in all.
pub(crate) trait PieceTaker {
    /// What it was made for.
    ghost Setting: { Type 0 };

    /// It was made for this, and took these octets.
    ghost took: { Setting → Self → List ℕ → Type 0 };

    /// Takes the next octets of the file; others may be in their place then. Takes no memory.
    fn take_piece(&mut self, piece: &mut [u8])
        requires { HasRoomFor took self.old (length piece.old) }
        ensures { (setting : Setting) (fed : List ℕ) → took setting self.old fed
            → took setting self.new (fed ++ piece.old) };
}

impl PieceTaker for FileCheck {
    ghost Setting = { StampValue };

    ghost took = { λ stamp check fed. HasChecked stamp check fed };

    fn take_piece(&mut self, piece: &mut [u8]) {
        self.feed(piece);
    }
}

impl PieceTaker for Stamper {
    ghost Setting = { StampSetting };

    ghost took = { λ setting stamper fed. HasPassed setting stamper fed };

    fn take_piece(&mut self, piece: &mut [u8]) {
        self.feed(piece);
    }
}

/// Hands the octets of a file as they were uploaded, from the first on, `until` of them, to a taker that took nothing.
/// It reads these octets and no others, with one read for each block, into one buffer of 512 octets. Takes no memory.
pub(crate) fn pass_octets<D: Disk, R: BlockReader<D>, T: PieceTaker>(
    reader: &R,
    disk: &mut D,
    table: &BlockTable,
    file: FileBlocks,
    until: u32,
    taker: &mut T,
) -> Result<(), DiskFault>
    requires may_read { R.may_read reader.now disk.old }
    requires stands { StandsIn table.now (R.block_count reader.now) file }
    requires until { until ≤ file.held }
    requires fresh { IsFresh T.took taker.old }
    ensures may_read { R.may_read reader.now disk.new }
    ensures took { OnOk result (TookFront T.took (D.content disk.old) (octets_on (D.content disk.old) table.now file)
        until taker.old taker.new) }
    ensures reads { Reads D.Disk (IsErr result) disk.old disk.new }
{
    let mut buffer = [0; 512];
    let mut at: u32 = 0;
    while at < until {
        let count = part_len(at, (until - at) as usize);
        let piece = &mut buffer[..count];
        read_part(reader, disk, table, file, at, piece)?;
        taker.take_piece(piece);
        at += count as u32;
    }
    Ok(())
}
