//! The changes of the entries, each of which is one command.

ghost use Rattle.std.specs.Prelude.{◌≡◌, refl};
ghost use Rattle.file_store_blocks.specs.Placed.{PlacedStore};
ghost use Rattle.file_store_blocks.specs.PlacedCommands.{placed_value};
ghost use Rattle.file_store_blocks.specs.PlacedFiles.{store_of};
ghost use Rattle.file_store_blocks.specs.PlacedLaws.{placed_seen};
ghost use Rattle.file_store_blocks.specs.PlacedForm.{placed_form, placed_steps};
ghost use Rattle.file_store_blocks.specs.PlacedRecords.{IsWritable};
ghost use Rattle.file_store_blocks.specs.ReadStore.{ReadStore};
ghost use Rattle.file_store_blocks.specs.Seen.{seen};
ghost use Rattle.file_store_model.specs.Command.{Command as StoreCommand};
ghost use Rattle.file_store_model.specs.Store.{Store};
ghost use Rattle.file_journal.specs.Form.{same_form};
ghost use Rattle.file_store.specs.ChangeLaws.{lets_same};
ghost use Rattle.file_store.specs.Changes.{MakesOf, MayMake, placed_by, turn_by};

use file_journal::{BlockPut, Change, RecordContent};
use file_store_blocks::{CheckedHeader, Entries, PlacedCommand};
use px_base::{Call, FileNumber, Moment};

/// A change of the entries, which is one command.
#[derive(Clone, Copy)]
pub(crate) enum EntriesChange {
    /// A file is begun, with the next number.
    Begin {
        caller: Call,
        length: u32,
        moment: Moment,
    },
    /// The octets that wait of the upload of this number, `count` of them, 1 to 512, become held, in the lowest block
    /// that no file has.
    Hold {
        number: FileNumber,
        block: u32,
        count: usize,
    },
    /// The file of this number is whole, no upload of it is out, and a check found its header so.
    Seal {
        number: FileNumber,
        moment: Moment,
        header: CheckedHeader,
    },
    /// The file of this number is given up.
    Drop {
        number: FileNumber,
    },
}

impl EntriesChange {
    /// Its command.
    fn command(self, entries: &Entries) -> PlacedCommand
        requires { MayMake self entries.now }
        ensures value { placed_value result ≡ placed_by self entries.now.files }
        ensures writable { IsWritable (placed_value result) }
    {
        match self {
            EntriesChange::Begin {
                caller,
                length,
                moment,
            } => PlacedCommand::Begin {
                number: entries.next(),
                caller,
                length,
                moment,
            },
            EntriesChange::Hold {
                number,
                block,
                count,
            } => PlacedCommand::Grow {
                number,
                block,
                used: count as u16,
            },
            EntriesChange::Seal {
                number,
                moment,
                header,
            } => PlacedCommand::Seal {
                number,
                moment,
                sum: header.sum,
            },
            EntriesChange::Drop { number } => PlacedCommand::Drop { number },
        }
    }
}

impl Change<Entries> for EntriesChange {
    ghost State = { ReadStore };

    ghost Kept = { PlacedStore };

    ghost Seen = { Store };

    ghost Command = { StoreCommand };

    ghost form = { placed_form };

    ghost steps = { placed_steps };

    ghost seen = { seen };

    ghost state = { λ entries. store_of entries.files };

    ghost turn = { λ change entries. turn_by change entries.files };

    ghost may = { MayMake };

    ghost makes = { λ change old new. MakesOf change old.files new.files };

    fn block<'a>(&'a self, entries: &'a Entries) -> Option<BlockPut<'a>> {
        match *self {
            EntriesChange::Hold {
                number,
                block,
                count: _,
            } => Some(BlockPut {
                block,
                octets: entries.waiting(number),
            }),
            EntriesChange::Begin { .. } | EntriesChange::Seal { .. } | EntriesChange::Drop { .. } =>
                { None }
        }
    }

    fn write(&self, entries: &Entries, content: &mut RecordContent) -> u8 {
        self.command(entries).write(content)
    }

    fn make(&self, entries: &mut Entries) {
        match *self {
            EntriesChange::Begin {
                caller,
                length,
                moment,
            } => entries.begin(caller, length, moment),
            EntriesChange::Hold {
                number,
                block,
                count,
            } => entries.hold(number, block, count),
            EntriesChange::Seal {
                number,
                moment,
                header,
            } => entries.seal(number, moment, header.sum, header.len),
            EntriesChange::Drop { number } => entries.drop_entry(number),
        }
    }

    ghost is_seen = { placed_seen };

    ghost lets_same = { λ change entries one other same. lets_same change entries.files one other same };

    ghost of_ledger = { same_form placed_form (λ held entries. seen held (store_of entries.files)) };

    ghost anew_of_ledger = { λ entries is. refl };
}
