//! The commands that contents of records are.

ghost use Rattle.std.specs.Prelude.{◌≡◌, IfSome};
ghost use Rattle.std.specs.Option.{option_map};
ghost use Rattle.file_store_blocks.specs.PlacedCommands.{placed_value, recorded_value};
ghost use Rattle.file_store_blocks.specs.PlacedRecords.{CanRecord, IsWritable, begin_in, drop_in, grow_in, next_in};
ghost use Rattle.file_store_blocks.specs.PlacedRecords.{seal_in};

use crate::command::PlacedCommand;
use crate::recorded::Recorded;
use px_base::{FileNumber, Moment, le16, le32, read_call};

/// The Begin that a content is.
pub(crate) fn read_begin(content: &[u8]) -> Option<PlacedCommand>
    ensures command { option_map placed_value result ≡ begin_in content.now }
    ensures writable { IfSome result (λ command. IsWritable (placed_value command)) }
{
    if content.len() != 19 {
        return None;
    }
    let caller = read_call(&content[4..11])?;
    Some(PlacedCommand::Begin {
        number: FileNumber::new(le32(content, 0)),
        caller,
        length: le32(content, 11),
        moment: Moment::new(le32(content, 15)),
    })
}

/// The Grow that a content is.
pub(crate) fn read_grow(content: &[u8]) -> Option<PlacedCommand>
    ensures command { option_map placed_value result ≡ grow_in content.now }
    ensures writable { IfSome result (λ command. IsWritable (placed_value command)) }
{
    if content.len() != 10 {
        return None;
    }
    Some(PlacedCommand::Grow {
        number: FileNumber::new(le32(content, 0)),
        block: le32(content, 4),
        used: le16(content, 8),
    })
}

/// The Seal that a content is.
pub(crate) fn read_seal(content: &[u8]) -> Option<PlacedCommand>
    ensures command { option_map placed_value result ≡ seal_in content.now }
    ensures writable { IfSome result (λ command. IsWritable (placed_value command)) }
{
    if content.len() != 10 {
        return None;
    }
    Some(PlacedCommand::Seal {
        number: FileNumber::new(le32(content, 0)),
        moment: Moment::new(le32(content, 4)),
        sum: le16(content, 8),
    })
}

/// The Drop that a content is.
pub(crate) fn read_drop(content: &[u8]) -> Option<PlacedCommand>
    ensures command { option_map placed_value result ≡ drop_in content.now }
    ensures writable { IfSome result (λ command. IsWritable (placed_value command)) }
{
    if content.len() != 4 {
        return None;
    }
    Some(PlacedCommand::Drop {
        number: FileNumber::new(le32(content, 0)),
    })
}

/// The next number that a content says.
pub(crate) fn read_next(content: &[u8]) -> Option<Recorded>
    ensures recorded { option_map recorded_value result ≡ next_in content.now }
    ensures writable { IfSome result (λ recorded. CanRecord (recorded_value recorded)) }
{
    if content.len() != 4 {
        return None;
    }
    Some(Recorded::Next {
        number: FileNumber::new(le32(content, 0)),
    })
}
