//! What the records of a store's journal say.

ghost use Rattle.std.specs.Prelude.{◌≡◌, IfSome};
ghost use Rattle.std.specs.Option.{option_map};
ghost use Rattle.file_store_blocks.specs.PlacedCommands.{recorded_value};
ghost use Rattle.file_store_blocks.specs.PlacedRecords.{CanRecord, recorded_in};
ghost use Rattle.file_journal.specs.Records.{record_of};

use crate::PlacedCommand;
use crate::reading::read_next;
use px_base::FileNumber;

/// The kind of a record that says which number is next.
const NEXT: u8 = 5;

/// What a record says.
#[derive(Clone, Copy, Debug)]
pub(crate) enum Recorded {
    /// Which number the next file gets, whatever numbers come before it.
    Next {
        /// The number.
        number: FileNumber,
    },
    /// A command.
    Change(PlacedCommand),
}

impl Recorded {
    /// What a record of this kind and content says; `None` exactly when the content hasn't the kind's length, its call
    /// is none, or there is no such kind.
    pub(crate) fn read(kind: u8, content: &[u8]) -> Option<Recorded>
        ensures recorded { option_map recorded_value result ≡ recorded_in (record_of kind content.now) }
        ensures writable { IfSome result (λ recorded. CanRecord (recorded_value recorded)) }
    {
        if kind == NEXT {
            return read_next(content);
        }
        match PlacedCommand::read(kind, content) {
            Some(command) => Some(Recorded::Change(command)),
            None => None,
        }
    }
}
