//! The records that rebuild the entries.

ghost use Rattle.std.specs.Prelude.{◌≡◌, ◌+◌, ◌*◌, ◌^◌, ◌<◌, [], ◌∷◌, ◌-◌, min, None, IfSome};
ghost use Rattle.std.specs.Option.{option_map};
ghost use Rattle.file_store_blocks.specs.Anew.{command_in, left_at};
ghost use Rattle.file_store_blocks.specs.PlacedCommand.{begin, grow};
ghost use Rattle.file_store_blocks.specs.PlacedCommands.{placed_value};
ghost use Rattle.file_store_blocks.specs.PlacedFiles.{store_of};
ghost use Rattle.file_store_blocks.specs.PlacedRecords.{IsWritable};
ghost use Rattle.file_journal.specs.Records.{record_of};

use crate::writing::put_next;
use crate::{Entries, PlacedCommand};
use file_journal::{RecordContent, RecordPlace};
use file_store_model::Info;

/// The number of octets of a block.
const BLOCK: u32 = 512;

impl Entries {
    /// Writes the record at this place among those that rebuild the entries, and moves the place on: its kind, with the
    /// content in place of what `content` holds; `None` after the last one. Entry 0 is which number is next, and each
    /// other one is a file. Takes no memory.
    pub(crate) fn next_anew(
        &self,
        place: &mut RecordPlace,
        content: &mut RecordContent,
    ) -> Option<u8>
        ensures some { IfSome result (λ kind.
            left_at (store_of self.now.files) place.old
            ≡ record_of kind content.new ∷ left_at (store_of self.now.files) place.new) }
        ensures none { result ≡ None → left_at (store_of self.now.files) place.old ≡ [] }
    {
        if place.entry == 0 {
            place.entry = 1;
            place.part = 0;
            return Some(put_next(content, self.next()));
        }
        let at = place.entry as usize - 1;
        if let Some(command) = self.command_at(at, place.part) {
            place.part += 1;
            return Some(command.write(content));
        }
        // All records of that file were written. Each file has a first one.
        let Some(command) = self.command_at(at + 1, 0) else {
            return None;
        };
        place.entry += 1;
        place.part = 1;
        Some(command.write(content))
    }

    /// The command of this number among those that rebuild the file at this place, if there is one.
    fn command_at(&self, at: usize, part: u32) -> Option<PlacedCommand>
        ensures command { option_map placed_value result ≡ command_in (store_of self.now.files) at part }
        ensures writable { IfSome result (λ command. IsWritable (placed_value command)) }
        ensures small { IfSome result (λ _. (at < 1024) × (part < 2 ^ 17)) }
    {
        let Some(info) = self.info_at(at) else {
            return None;
        };
        if part == 0 {
            return Some(begin_of(info));
        }
        let place = part as usize - 1;
        let count = self.block_count(at);
        if place < count {
            let block = self.block_at(at, place);
            return Some(grow_of(info, block, place));
        }
        if place > count {
            return None;
        }
        let Some(mark) = self.mark_at(at) else {
            return None;
        };
        Some(PlacedCommand::Seal {
            number: info.number,
            moment: mark.moment,
            sum: mark.sum,
        })
    }
}

/// The Begin of a file about which this is reported.
fn begin_of(info: Info) -> PlacedCommand
    ensures command { placed_value result ≡ begin info.number info.caller info.length info.begun }
    ensures writable { IsWritable (placed_value result) }
{
    PlacedCommand::Begin {
        number: info.number,
        caller: info.caller,
        length: info.length,
        moment: info.begun,
    }
}

/// The Grow of a file about which this is reported, for its block at this place.
fn grow_of(info: Info, block: u32, place: usize) -> PlacedCommand
    requires { 512 * place < info.held }
    ensures command { placed_value result ≡ grow info.number block (min 512 (info.held - 512 * place)) }
    ensures writable { IsWritable (placed_value result) }
{
    let left = info.held - BLOCK * place as u32;
    PlacedCommand::Grow {
        number: info.number,
        block,
        used: left.min(BLOCK) as u16,
    }
}
