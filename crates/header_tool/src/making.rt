//! The making of a file.

ghost use Rattle.std.specs.Prelude.{◌≡◌, ◌≤◌, [], length, true, None, option_copied, IfOk, OnOk, IsOkUnless, MatchOption};
ghost use Rattle.header_tool.specs.Made.{IsMade, IsRefused, fits_if_given, fits_item, made_builder, make_refusal, make_value, padded as padded_text, spec_refusal};
ghost use Rattle.header_tool.specs.Made.{Takes, no_call, no_moment, nought, title_items, with_item, with_message, with_more};

use crate::{MakeRefusal, MakeSpec};
use pfh_items::{
    AX25_DOWNLOADER, AX25_UPLOADER, DESTINATION, DOWNLOAD_COUNT, DOWNLOAD_TIME, EXPIRE_TIME,
    PRIORITY, SOURCE, TITLE, UPLOAD_TIME,
};
use pfh_writer::{FinishRefusal, HeaderBuilder, PutRefusal};
use px_base::{FileBytes, OutOfMemory};
use std::alloc::Global;

/// Makes a file of a body and of what its header is to say: the mandatory items in ascending order, with file_number and
/// seu_flag 0 and both times the same; with a destination also source, ax25_uploader (blanks), upload_time (0),
/// download_count (0), destination, ax25_downloader (blanks), download_time (0), expire_time (0) and priority (0); then the
/// title, where there is one. Lengths and checksums are the file's. Takes memory.
///
/// Refused as [`MakeSpec::refusal`] says, else exactly where the file would be longer than 4,194,304 octets:
/// [`MakeRefusal::TooLong`], where no want of memory comes first.
pub fn make(alloc: Global, spec: &MakeSpec<'_>, body: &[u8]) -> Result<FileBytes, MakeRefusal>
    ensures file { IfOk result (IsMade (make_value spec.now) body.now) }
    ensures refused { MatchOption (make_refusal (make_value spec.now) body.now)
        (IsOkUnless result MakeRefusal.OutOfMemory) (IsRefused result) }
{
    if let Some(refusal) = spec.refusal() {
        return Err(refusal);
    }
    let builder = builder_of(alloc, spec)?;
    match builder.finish(body) {
        Ok(file) => Ok(file),
        Err(FinishRefusal::TooLong { len }) => Err(MakeRefusal::TooLong { len }),
        Err(FinishRefusal::OutOfMemory) => Err(MakeRefusal::OutOfMemory),
    }
}

/// The builder of the header that says this.
fn builder_of(alloc: Global, spec: &MakeSpec<'_>) -> Result<HeaderBuilder, OutOfMemory>
    requires { spec_refusal (make_value spec.now) ≡ None }
    ensures { IfOk result (λ builder. builder ≡ made_builder (make_value spec.now)) }
{
    let name = padded(spec.name.as_bytes());
    let ext = padded(spec.ext.as_bytes());
    let mut builder = HeaderBuilder::new(
        alloc,
        name,
        ext,
        spec.time,
        spec.time,
        0,
        spec.file_type,
    )?;
    put_message(&mut builder, spec.source, spec.destination)?;
    put_title(&mut builder, spec.title)?;
    Ok(builder)
}

/// Puts the items of a message as the first ones, if it has a destination.
fn put_message(
    builder: &mut HeaderBuilder,
    source: &str,
    destination: Option<&str>,
) -> Result<(), OutOfMemory>
    requires none { builder.old.others ≡ [] }
    requires source { fits_item source.now ≡ true }
    requires destination { fits_if_given (option_copied destination) ≡ true }
    ensures { OnOk result (builder.new ≡ with_message builder.old source.now (option_copied destination.entry)) }
{
    let Some(destination) = destination else {
        return Ok(());
    };
    put(builder, SOURCE, source.as_bytes())?;
    put_no_call(builder, AX25_UPLOADER)?;
    put_no_moment(builder, UPLOAD_TIME)?;
    put_nought(builder, DOWNLOAD_COUNT)?;
    put(builder, DESTINATION, destination.as_bytes())?;
    put_no_call(builder, AX25_DOWNLOADER)?;
    put_no_moment(builder, DOWNLOAD_TIME)?;
    put_no_moment(builder, EXPIRE_TIME)?;
    put_nought(builder, PRIORITY)
}

/// Puts the title after the other items, if there is one.
fn put_title(builder: &mut HeaderBuilder, title: Option<&str>) -> Result<(), OutOfMemory>
    requires { fits_if_given (option_copied title) ≡ true }
    ensures { OnOk result (builder.new ≡ with_more builder.old (title_items (option_copied title.entry))) }
{
    let Some(title) = title else {
        return Ok(());
    };
    put(builder, TITLE, title.as_bytes())
}

/// Puts a call that isn't known yet, of blanks.
fn put_no_call(builder: &mut HeaderBuilder, id: u16) -> Result<(), OutOfMemory>
    requires { Takes builder.old id no_call }
    ensures { OnOk result (builder.new ≡ with_item builder.old id no_call) }
{
    put(builder, id, &[b' '; 6])
}

/// Puts a moment that isn't known yet, or none: 0.
fn put_no_moment(builder: &mut HeaderBuilder, id: u16) -> Result<(), OutOfMemory>
    requires { Takes builder.old id no_moment }
    ensures { OnOk result (builder.new ≡ with_item builder.old id no_moment) }
{
    put(builder, id, &[0; 4])
}

/// Puts a count, or a priority, that is 0.
fn put_nought(builder: &mut HeaderBuilder, id: u16) -> Result<(), OutOfMemory>
    requires { Takes builder.old id nought }
    ensures { OnOk result (builder.new ≡ with_item builder.old id nought) }
{
    put(builder, id, &[0])
}

/// Puts an item that the builder takes.
fn put(builder: &mut HeaderBuilder, id: u16, bytes: &[u8]) -> Result<(), OutOfMemory>
    requires { Takes builder.old id bytes.now }
    ensures { OnOk result (builder.new ≡ with_item builder.old id bytes.now) }
{
    match builder.put(id, bytes) {
        Ok(()) => Ok(()),
        Err(PutRefusal::OutOfMemory) => Err(OutOfMemory),
        Err(_) => unreachable!(),
    }
}

/// These octets, padded with blanks to the length of a name or an extension.
fn padded<const N: usize>(text: &[u8]) -> [u8; N]
    requires { length text.now ≤ N }
    ensures { result ≡ padded_text N text.now }
{
    let mut octets = [b' '; N];
    octets[..text.len()].copy_from_slice(text);
    octets
}
