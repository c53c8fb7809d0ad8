//! The commands that contents of records are.

ghost use Rattle.std.specs.Prelude.{◌≡◌};
ghost use Rattle.client_notes.specs.Commands.{IsReadAs};
ghost use Rattle.client_notes.specs.Records.{acked_in, forgot_in, got_in, is_start_len as has_start_len, numbered_in, refused_in, start_in};

use crate::TaskNumber;
use crate::command::Command;
use px_base::{FileNumber, le32, read_call};

/// Whether a content has the length of a Start, with a name of 1 to 64 octets.
fn is_start_len(content: &[u8]) -> bool
    ensures { result ≡ has_start_len content.now }
{
    content.len() > 55 && content[54] <= 64 && content.len() == 55 + content[54] as usize
}

/// The Start that a content is.
pub(crate) fn read_start(content: &[u8]) -> Option<Command<'_>>
    ensures { IsReadAs result (start_in content.now) }
{
    if !is_start_len(content) {
        return None;
    }
    let server = read_call(&content[4..11])?;
    let caller = read_call(&content[11..18])?;
    Some(Command::Start {
        task: TaskNumber::new(le32(content, 0)),
        server,
        caller,
        name: &content[55..],
        length: le32(content, 18),
        digest: &content[22..54],
    })
}

/// The Numbered that a content is.
pub(crate) fn read_numbered(content: &[u8]) -> Option<Command<'_>>
    ensures { IsReadAs result (numbered_in content.now) }
{
    if content.len() != 8 {
        return None;
    }
    Some(Command::Numbered {
        task: TaskNumber::new(le32(content, 0)),
        number: FileNumber::new(le32(content, 4)),
    })
}

/// The Acked that a content is.
pub(crate) fn read_acked(content: &[u8]) -> Option<Command<'_>>
    ensures { IsReadAs result (acked_in content.now) }
{
    if content.len() != 4 {
        return None;
    }
    Some(Command::Acked {
        task: TaskNumber::new(le32(content, 0)),
    })
}

/// The Refused that a content is.
pub(crate) fn read_refused(content: &[u8]) -> Option<Command<'_>>
    ensures { IsReadAs result (refused_in content.now) }
{
    if content.len() != 5 {
        return None;
    }
    Some(Command::Refused {
        task: TaskNumber::new(le32(content, 0)),
        code: content[4],
    })
}

/// The Got that a content is.
pub(crate) fn read_got(content: &[u8]) -> Option<Command<'_>>
    ensures { IsReadAs result (got_in content.now) }
{
    if content.len() <= 11 || content.len() > 523 {
        return None;
    }
    let server = read_call(&content[..7])?;
    Some(Command::Got {
        server,
        number: FileNumber::new(le32(content, 7)),
        octets: &content[11..],
    })
}

/// The Forgot that a content is.
pub(crate) fn read_forgot(content: &[u8]) -> Option<Command<'_>>
    ensures { IsReadAs result (forgot_in content.now) }
{
    if content.len() != 11 {
        return None;
    }
    let server = read_call(&content[..7])?;
    Some(Command::Forgot {
        server,
        number: FileNumber::new(le32(content, 7)),
    })
}
