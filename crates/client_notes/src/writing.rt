//! The contents of the records of commands. Each call gives the kind of the record.

ghost use Rattle.std.specs.Prelude.{◌≡◌, ◌+◌, ◌≤◌, ◌++◌, length};
ghost use Rattle.px_base.specs.Numbers.{le32_octets};
ghost use Rattle.px_base.specs.CallOctets.{call_octets as octets_of_call};
ghost use Rattle.file_journal.specs.Records.{record_of};
ghost use Rattle.client_notes.specs.Command.{acked, forgot, got, numbered, refused, start};
ghost use Rattle.client_notes.specs.Records.{record_of_command};

use crate::TaskNumber;
use byteorder::{ByteOrder, LittleEndian};
use file_journal::RecordContent;
use px_base::{Call, FileNumber, write_call};

/// The content of a Start, with a name of at most 64 octets and a digest of 32.
pub(crate) fn put_start(
    content: &mut RecordContent,
    task: TaskNumber,
    server: &Call,
    caller: &Call,
    name: &[u8],
    file_length: u32,
    digest: &[u8],
) -> u8
    requires name { length name.now ≤ 64 }
    requires digest { length digest.now ≡ 32 }
    ensures { record_of result content.new
        ≡ record_of_command (start task server.now caller.now name.now file_length digest.now) }
{
    content.clear();
    put_number(content, task.get());
    put_call(content, server);
    put_call(content, caller);
    put_number(content, file_length);
    content.put(digest);
    content.put(&[name.len() as u8]);
    content.put(name);
    1
}

/// The content of a Numbered.
pub(crate) fn put_numbered(content: &mut RecordContent, task: TaskNumber, number: FileNumber) -> u8
    ensures { record_of result content.new ≡ record_of_command (numbered task number) }
{
    content.clear();
    put_number(content, task.get());
    put_number(content, number.get());
    2
}

/// The content of an Acked.
pub(crate) fn put_acked(content: &mut RecordContent, task: TaskNumber) -> u8
    ensures { record_of result content.new ≡ record_of_command (acked task) }
{
    content.clear();
    put_number(content, task.get());
    3
}

/// The content of a Refused.
pub(crate) fn put_refused(content: &mut RecordContent, task: TaskNumber, code: u8) -> u8
    ensures { record_of result content.new ≡ record_of_command (refused task code) }
{
    content.clear();
    put_number(content, task.get());
    content.put(&[code]);
    4
}

/// The content of a Got of at most 512 octets.
pub(crate) fn put_got(
    content: &mut RecordContent,
    server: &Call,
    number: FileNumber,
    octets: &[u8],
) -> u8
    requires { length octets.now ≤ 512 }
    ensures { record_of result content.new ≡ record_of_command (got server.now number octets.now) }
{
    content.clear();
    put_call(content, server);
    put_number(content, number.get());
    content.put(octets);
    5
}

/// The content of a Forgot.
pub(crate) fn put_forgot(content: &mut RecordContent, server: &Call, number: FileNumber) -> u8
    ensures { record_of result content.new ≡ record_of_command (forgot server.now number) }
{
    content.clear();
    put_call(content, server);
    put_number(content, number.get());
    6
}

/// Puts the four octets of a number at the end.
fn put_number(content: &mut RecordContent, number: u32)
    requires { length content.old + 4 ≤ 600 }
    ensures octets { content.new ≡ content.old ++ le32_octets number }
    ensures len { length content.new ≡ length content.old + 4 }
{
    let mut octets = [0; 4];
    LittleEndian::write_u32(&mut octets, number);
    content.put(&octets);
}

/// Puts the seven octets of a call at the end.
fn put_call(content: &mut RecordContent, call: &Call)
    requires { length content.old + 7 ≤ 600 }
    ensures octets { content.new ≡ content.old ++ octets_of_call call.now }
    ensures len { length content.new ≡ length content.old + 7 }
{
    content.put(&write_call(call));
}
