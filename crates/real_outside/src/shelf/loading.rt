//! What a shelf over a folder loads of a file.

ghost use Rattle.std.specs.Prelude.{◌≡◌, ◌≢◌, IfErr, IfOk, IsErr, OnErr};
ghost use Rattle.px_base.specs.Shelves.{AnswersOfAll, IsWithin};
ghost use Rattle.px_base.specs.declared.shelf.ShelfRefusal.TheVariants as refused;
ghost use Rattle.real_outside.specs.Files.{refusal};
ghost use Rattle.real_outside.specs.Shelf.Folder.{IsReadingAnswer, OpensToLoad, RefusesOpening, RefusesReading};

use crate::system_error::SystemError;
use px_base::{FileBytes, ShelfRefusal};
use std::alloc::Global;
use std::io::{self, ErrorKind, Read};

/// What a load answers, if opening the file answered so.
pub(crate) fn load_opened<F: Read + Drop>(
    opened: Result<F, SystemError>,
    alloc: Global,
    most: usize,
) -> Result<FileBytes, ShelfRefusal>
    ensures most { IsWithin most result }
    ensures answer { IfOk opened (λ file. AnswersOfAll (F.remaining file) most result) }
    ensures opens { OpensToLoad (refusal opened) result }
{
    match opened {
        Ok(file) => read_whole(file, alloc, most),
        Err(error) => Err(opening_refusal(error.kind)),
    }
}

/// Why there is no content, if a file can't be opened for this reason.
fn opening_refusal(kind: ErrorKind) -> ShelfRefusal
    ensures { RefusesOpening kind result }
{
    match kind {
        ErrorKind::NotFound => ShelfRefusal::NoSuch,
        _ => reading_refusal(kind),
    }
}

/// Why there is no content, if a file can't be read for this reason.
fn reading_refusal(kind: ErrorKind) -> ShelfRefusal
    ensures { RefusesReading kind result }
{
    match kind {
        ErrorKind::OutOfMemory => ShelfRefusal::OutOfMemory,
        _ => ShelfRefusal::Fault,
    }
}

/// All that this reader has left, at most `most` octets. It reads at most one more.
fn read_whole<R: Read + Drop>(
    reader: R,
    alloc: Global,
    most: usize,
) -> Result<FileBytes, ShelfRefusal>
    ensures most { IsWithin most result }
    ensures answer { AnswersOfAll (R.remaining reader) most result }
    ensures there { result ≢ Err refused.NoSuch }
{
    let mut octets = Vec::new(alloc);
    let read = reader
        .take((most as u64).saturating_add(1))
        .read_to_end(&mut octets);
    reading_answer(read, octets, most)
}

/// What a load answers, if reading at most one octet more than `most` answered so, and gave these.
fn reading_answer(
    read: io::Result<usize>,
    octets: Vec<u8>,
    most: usize,
) -> Result<FileBytes, ShelfRefusal>
    ensures reading { IsReadingAnswer read octets.items most result }
    ensures there { result ≢ Err refused.NoSuch }
{
    match read {
        Ok(_) if octets.as_slice().len() > most => Err(ShelfRefusal::TooLong),
        Ok(_) => Ok(FileBytes::from_vec(octets)),
        Err(error) => Err(reading_refusal(error.kind())),
    }
}
