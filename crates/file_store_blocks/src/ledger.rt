//! The entries of a store as the state that the records of its journal make.

use crate::Entries;
use crate::recorded::Recorded;
use disk_model::Disk;
use file_journal::{ApplyFault, Journal, Layout, Ledger, RecordContent, RecordPlace};
use px_base::OutOfMemory;
use std::alloc::Global;

impl Ledger for Entries {
    ghost use Rattle.file_store_blocks.specs.Anew.{left_at};
    ghost use Rattle.file_store_blocks.specs.Placed.{PlacedStore};
    ghost use Rattle.file_store_blocks.specs.PlacedFiles.{NothingOut, read_of, store_of};
    ghost use Rattle.file_store_blocks.specs.PlacedForm.{placed_form, placed_steps};
    ghost use Rattle.file_store_blocks.specs.PlacedLaws.{placed_seen};
    ghost use Rattle.file_store_blocks.specs.ReadStore.{IsReadStore, ReadStore};
    ghost use Rattle.file_store_blocks.specs.Seen.{seen};
    ghost use Rattle.file_store_model.specs.Command.{Command as StoreCommand};
    ghost use Rattle.file_store_model.specs.Store.{Store};
    ghost use Rattle.std.specs.Prelude.{refl};

    ghost State = { ReadStore };

    ghost Kept = { PlacedStore };

    ghost Seen = { Store };

    ghost Command = { StoreCommand };

    ghost form = { placed_form };

    ghost steps = { placed_steps };

    ghost seen = { seen };

    ghost state = { read_of };

    ghost left = { λ entries place. left_at (store_of entries.files) place };

    ghost by_records = { λ entries. NothingOut entries.files × IsReadStore (read_of entries) };

    fn magic() -> [u8; 8] {
        *b"PXSTORE1"
    }

    fn layout() -> Layout {
        Layout::Halves
    }

    fn fresh(alloc: Global, blocks: u32) -> Result<Entries, OutOfMemory> {
        Entries::new(alloc, blocks)
    }

    fn apply<D: Disk>(
        &mut self,
        journal: &Journal,
        disk: &mut D,
        kind: u8,
        content: &[u8],
    ) -> Result<bool, ApplyFault> {
        let Some(recorded) = Recorded::read(kind, content) else {
            return Ok(false);
        };
        Ok(self.apply_recorded(journal, disk, recorded)?)
    }

    fn next_record(&self, place: &mut RecordPlace, content: &mut RecordContent) -> Option<u8> {
        self.next_anew(place, content)
    }

    ghost is_seen = { placed_seen };

    ghost all_left = { λ entries is. refl };

    ghost reached = { λ entries made. made.1 };
}
