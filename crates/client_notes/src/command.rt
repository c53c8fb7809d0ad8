//! The commands of notes as records of their journal.

ghost use Rattle.std.specs.Prelude.{◌≡◌};
ghost use Rattle.file_journal.specs.Records.{record_of};
ghost use Rattle.client_notes.specs.Commands.{IsReadAs, command_value};
ghost use Rattle.client_notes.specs.Records.{IsWritable, command_of, record_of_command};

use crate::TaskNumber;
use crate::reading::{read_acked, read_forgot, read_got, read_numbered, read_refused, read_start};
use crate::writing::{put_acked, put_forgot, put_got, put_numbered, put_refused, put_start};
use file_journal::RecordContent;
use px_base::{Call, FileNumber};

/// A command that changes notes.
#[derive(Clone, Copy)]
pub(crate) enum Command<'a> {
    /// A task is begun.
    Start {
        task: TaskNumber,
        server: Call,
        caller: Call,
        /// 1 to 64 octets.
        name: &'a [u8],
        length: u32,
        /// 32 octets.
        digest: &'a [u8],
    },
    /// The task's file has this number on the server.
    Numbered {
        task: TaskNumber,
        number: FileNumber,
    },
    /// The task's file was acknowledged.
    Acked {
        task: TaskNumber,
    },
    /// The task's file was refused.
    Refused {
        task: TaskNumber,
        code: u8,
    },
    /// Octets of a file were got.
    Got {
        server: Call,
        number: FileNumber,
        /// 1 to 512 octets.
        octets: &'a [u8],
    },
    /// What was got of a file is given up.
    Forgot {
        server: Call,
        number: FileNumber,
    },
}

impl<'a> Command<'a> {
    /// The command that a record of this kind and content is; `None` exactly where the content hasn't the kind's
    /// length, a call in it is none, or there is no such kind. Takes no memory.
    pub(crate) fn read(kind: u8, content: &'a [u8]) -> Option<Command<'a>>
        ensures { IsReadAs result (command_of (record_of kind content.now)) }
    {
        match kind {
            1 => read_start(content),
            2 => read_numbered(content),
            3 => read_acked(content),
            4 => read_refused(content),
            5 => read_got(content),
            6 => read_forgot(content),
            _ => None,
        }
    }

    /// Writes the command's content in place of what `content` holds, and gives the kind of its record. Takes no
    /// memory.
    pub(crate) fn write(&self, content: &mut RecordContent) -> u8
        requires { IsWritable (command_value self.now) }
        ensures { record_of result content.new ≡ record_of_command (command_value self.now) }
    {
        match self {
            Command::Start {
                task,
                server,
                caller,
                name,
                length,
                digest,
            } => put_start(content, *task, server, caller, name, *length, digest),
            Command::Numbered { task, number } => put_numbered(content, *task, *number),
            Command::Acked { task } => put_acked(content, *task),
            Command::Refused { task, code } => put_refused(content, *task, *code),
            Command::Got {
                server,
                number,
                octets,
            } => put_got(content, server, *number, octets),
            Command::Forgot { server, number } => put_forgot(content, server, *number),
        }
    }
}
