//! The commands of a store of placed files as records of its journal.

ghost use Rattle.std.specs.Prelude.{◌≡◌, IfSome};
ghost use Rattle.std.specs.Option.{option_map};
ghost use Rattle.file_journal.specs.Records.{record_of};
ghost use Rattle.file_store_blocks.specs.PlacedCommands.{placed_value};
ghost use Rattle.file_store_blocks.specs.PlacedRecords.{IsWritable, placed_in, record_of_placed};

use crate::reading::{read_begin, read_drop, read_grow, read_seal};
use crate::writing::{put_begin, put_drop, put_grow, put_seal};
use file_journal::RecordContent;
use px_base::{Call, FileNumber, Moment};

/// A command that changes which files there are, and in which blocks their octets are.
#[derive(Clone, Copy, Debug)]
pub enum PlacedCommand {
    /// A file is begun.
    Begin {
        /// Its number.
        number: FileNumber,
        /// Whose file it is.
        caller: Call,
        /// Its length in octets.
        length: u32,
        /// The moment.
        moment: Moment,
    },
    /// Further octets of a file are held.
    Grow {
        /// The file's number.
        number: FileNumber,
        /// The block at the beginning of which they are.
        block: u32,
        /// How many they are.
        used: u16,
    },
    /// A file is whole, and is kept with its stamp.
    Seal {
        /// The file's number.
        number: FileNumber,
        /// The moment.
        moment: Moment,
        /// The sum of its header with the stamp.
        sum: u16,
    },
    /// A file is given up.
    Drop {
        /// The file's number.
        number: FileNumber,
    },
}

impl PlacedCommand {
    /// The command that a record of this kind and content is; `None` exactly when the content hasn't the kind's length,
    /// its call is none, or there is no such kind. Takes no memory.
    pub fn read(kind: u8, content: &[u8]) -> Option<PlacedCommand>
        ensures command { option_map placed_value result ≡ placed_in (record_of kind content.now) }
        ensures writable { IfSome result (λ command. IsWritable (placed_value command)) }
    {
        match kind {
            1 => read_begin(content),
            2 => read_grow(content),
            3 => read_seal(content),
            4 => read_drop(content),
            _ => None,
        }
    }

    /// Writes the command's content in place of what `content` holds, and gives the kind of its record. Takes no
    /// memory.
    pub fn write(&self, content: &mut RecordContent) -> u8
        requires { IsWritable (placed_value self.now) }
        ensures { record_of result content.new ≡ record_of_placed (placed_value self.now) }
    {
        match self {
            PlacedCommand::Begin {
                number,
                caller,
                length,
                moment,
            } => put_begin(content, *number, caller, *length, *moment),
            PlacedCommand::Grow {
                number,
                block,
                used,
            } => put_grow(content, *number, *block, *used),
            PlacedCommand::Seal {
                number,
                moment,
                sum,
            } => put_seal(content, *number, *moment, *sum),
            PlacedCommand::Drop { number } => put_drop(content, *number),
        }
    }
}
