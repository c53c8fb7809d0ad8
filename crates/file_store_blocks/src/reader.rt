//! What reads the blocks of a store's disk.

ghost use Rattle.std.specs.Prelude.{◌≡◌, ℕ, ◌+◌, ◌<◌, ◌≤◌, length, IsErr, OnOk};
ghost use Rattle.file_store_blocks.specs.Reading.{MayRead, MayReadKept, block_octets};
ghost use Rattle.disk_model.specs.Disk.{FillsRoom, IsTold};
ghost use Rattle.disk_model.specs.Runs.{Reads};
ghost use Rattle.file_journal.specs.Steps.{kept_by};

use disk_model::{Disk, DiskFault};
use file_journal::{Journal, Kept, Ledger};

/// What reads the blocks of a disk of this kind, whoever holds the journal after them.
pub trait BlockReader<D: Disk> {
    /// Its blocks are on this disk, and may be read.
    ghost may_read: { Self → D → Type 0 };

    /// How many blocks there are.
    ghost block_count: { Self → ℕ };

    /// Reads the octets of a block, from octet `at` of it on, into the room. It reads once, and changes no octet.
    /// Takes no memory.
    fn read_block(
        &self,
        disk: &mut D,
        block: u32,
        at: u16,
        room: &mut [u8],
    ) -> Result<(), DiskFault>
        requires may_read { may_read self.now disk.old }
        requires block { block < block_count self.now }
        requires within { at + length room.old ≤ 512 }
        ensures may_read { may_read self.now disk.new }
        ensures room { OnOk result (IsTold (D.content disk.old)
            → FillsRoom (block_octets (D.content disk.old) block) at (length room.old) room.new) }
        ensures reads { Reads D.Disk (IsErr result) disk.old disk.new };
}

impl<D: Disk> BlockReader<D> for Journal {
    ghost may_read = { λ journal disk. MayRead D.Disk journal disk };

    ghost block_count = { λ journal. journal.blocks };

    fn read_block(
        &self,
        disk: &mut D,
        block: u32,
        at: u16,
        room: &mut [u8],
    ) -> Result<(), DiskFault> {
        Journal::read_block(self, disk, block, at, room)
    }
}

impl<D: Disk, L: Ledger> BlockReader<D> for Kept<L> {
    ghost may_read = { λ kept disk.
        MayReadKept D.Disk L.form L.steps kept.journal (kept_by L.steps L.state kept.ledger) disk };

    ghost block_count = { λ kept. L.steps.number (kept_by L.steps L.state kept.ledger) };

    fn read_block(
        &self,
        disk: &mut D,
        block: u32,
        at: u16,
        room: &mut [u8],
    ) -> Result<(), DiskFault> {
        Kept::read_block(self, disk, block, at, room)
    }
}
