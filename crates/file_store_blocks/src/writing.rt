//! The contents of the records of commands. Each call gives the kind of the record.

ghost use Rattle.std.specs.Prelude.{◌≡◌, ◌+◌, ◌≤◌, ◌++◌, length};
ghost use Rattle.file_journal.specs.Records.{record_of};
ghost use Rattle.file_store_blocks.specs.PlacedCommand.{begin, drop_entry, grow, seal};
ghost use Rattle.file_store_blocks.specs.PlacedRecords.{record_of_placed, record_of_recorded};
ghost use Rattle.file_store_blocks.specs.ReadStore.{next_is};
ghost use Rattle.px_base.specs.Numbers.{le16_octets, le32_octets};

use byteorder::{ByteOrder, LittleEndian};
use file_journal::RecordContent;
use px_base::{Call, FileNumber, Moment, write_call};

/// The content of a Begin.
pub(crate) fn put_begin(
    content: &mut RecordContent,
    number: FileNumber,
    caller: &Call,
    length: u32,
    moment: Moment,
) -> u8
    ensures { record_of result content.new ≡ record_of_placed (begin number caller.now length moment) }
{
    content.clear();
    put_number(content, number.get());
    content.put(&write_call(caller));
    put_number(content, length);
    put_number(content, moment.get());
    1
}

/// The content of a Grow.
pub(crate) fn put_grow(content: &mut RecordContent, number: FileNumber, block: u32, used: u16) -> u8
    ensures { record_of result content.new ≡ record_of_placed (grow number block used) }
{
    put_numbers(content, number.get(), block, used);
    2
}

/// The content of a Seal.
pub(crate) fn put_seal(
    content: &mut RecordContent,
    number: FileNumber,
    moment: Moment,
    sum: u16,
) -> u8
    ensures { record_of result content.new ≡ record_of_placed (seal number moment sum) }
{
    put_numbers(content, number.get(), moment.get(), sum);
    3
}

/// The content of a Drop.
pub(crate) fn put_drop(content: &mut RecordContent, number: FileNumber) -> u8
    ensures { record_of result content.new ≡ record_of_placed (drop_entry number) }
{
    content.clear();
    put_number(content, number.get());
    4
}

/// The content of a Next.
pub(crate) fn put_next(content: &mut RecordContent, number: FileNumber) -> u8
    ensures { record_of result content.new ≡ record_of_recorded (next_is number) }
{
    content.clear();
    put_number(content, number.get());
    5
}

/// Two numbers of four octets and one of two, in place of what the content holds.
fn put_numbers(content: &mut RecordContent, first: u32, second: u32, third: u16)
    ensures { content.new ≡ le32_octets first ++ le32_octets second ++ le16_octets third }
{
    content.clear();
    put_number(content, first);
    put_number(content, second);
    let mut octets = [0; 2];
    LittleEndian::write_u16(&mut octets, third);
    content.put(&octets);
}

/// Puts the four octets of a number at the end.
fn put_number(content: &mut RecordContent, number: u32)
    requires { length content.old + 4 ≤ 600 }
    ensures octets { content.new ≡ content.old ++ le32_octets number }
    ensures len { length content.new ≡ length content.old + 4 }
{
    let mut octets = [0; 4];
    LittleEndian::write_u32(&mut octets, number);
    content.put(&octets);
}
