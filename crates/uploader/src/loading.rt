//! The file that is sent.

ghost use Rattle.std.specs.Prelude.{◌≡◌, IfOk};
ghost use Rattle.uploader.specs.Loading.{HasShelfCause, IsSendable, LoadsBy, sent_of};

use crate::SendStop;
use pfh_reader::check;
use px_base::{FileBytes, Shelf, ShelfRefusal};
use std::alloc::Global;

/// The most octets of a file that is sent.
const MOST_OCTETS: usize = 4_194_304;

/// The file that the shelf has under this name, where it has at most 4,194,304 octets and keeps the rules of file
/// headers (PFH 1990). Takes memory for it.
pub(crate) fn load_file<S: Shelf>(
    alloc: Global,
    shelf: &mut S,
    name: &str,
) -> Result<FileBytes, SendStop>
    ensures loads { LoadsBy (S.held shelf.old) name.now result }
    ensures sendable { IfOk result IsSendable }
    ensures held { S.held shelf.new ≡ S.held shelf.old }
    ensures cause { HasShelfCause (S.faults shelf.old) (S.faults shelf.new) result }
{
    file_of(shelf.load(alloc, name, MOST_OCTETS))
}

/// The file that was loaded, where it keeps the rules of file headers, or the stop of its first fault; where none was
/// loaded, the stop of the shelf's refusal: want of memory exactly where it is that.
fn file_of(loaded: Result<FileBytes, ShelfRefusal>) -> Result<FileBytes, SendStop>
    ensures { result ≡ sent_of loaded }
{
    let file = loaded?;
    match check(file.as_slice()) {
        Ok(_header) => Ok(file),
        Err(fault) => Err(SendStop::BadFile { code: fault.code }),
    }
}
