//! What the client got beside what the server's store holds.

ghost use Rattle.std.specs.Prelude.{◌≡◌, Some, false, true};
ghost use Rattle.std.specs.Option.{option_map};
ghost use Rattle.file_store_model.specs.Info.{info_of};
ghost use Rattle.file_store_model.specs.Store.{entry_of};
ghost use Rattle.file_store.specs.State.{IsReady, store_in};

use crate::air::exchange::Got;
use crate::air::server_side::LIMITS;
use anyhow::{Context, Result, bail, ensure};
use disk_model::Disk;
use file_store::{FileStore, Info};
use px_base::{FileNumber, le32};
use row_words::text_of;
use std::alloc::Global;

/// How many octets a short header has, and where its file_number and its file_size stand (PFH 1990).
const SHORT_LEN: usize = 73;

const NUMBER_AT: usize = 5;

const SIZE_AT: usize = 29;

/// How many octets of a file without further items the header has.
const HEADER_LEN: usize = 73;

/// Compares what the client got with what the store of this disk holds, and the body with the one that was sent. Gives
/// what is printed of it.
pub fn compare<D: Disk>(alloc: Global, disk: &mut D, file: &[u8], got: &Got) -> Result<String> {
    let mut store = FileStore::recover(alloc, disk, LIMITS)?;
    let listed = compare_list(&store, got.listing.as_slice())?;
    let octets = stored(alloc, &mut store, disk, got.number)?;
    compare_octets(octets.as_slice(), file, got)?;
    let (number, fetched) = (got.number.get(), octets.len());
    text_of(
        alloc,
        format_args!("acked {number} listed {listed} fetched {fetched}"),
    )
}

/// Compares the octets of the store's file with those that the client got, and the body with the one that was sent.
fn compare_octets(octets: &[u8], file: &[u8], got: &Got) -> Result<()> {
    ensure!(
        octets == got.octets.as_slice(),
        "the file differs from the store's"
    );
    ensure!(
        body_of(octets) == body_of(file),
        "the body differs from the one sent"
    );
    Ok(())
}

/// Compares number and size of each file of the list with the complete files of the store, and says how many there are.
fn compare_list(store: &FileStore, listing: &[u8]) -> Result<usize> {
    let mut headers = listing.chunks(SHORT_LEN);
    let mut count: usize = 0;
    for number in 1..store.next_number().get() {
        if let Some(size) = size_of(store, FileNumber::new(number)) {
            let header = headers.next().context("a file isn't listed")?;
            ensure!(says(header, number, size), "file {number} is listed wrong");
            count = count.saturating_add(1);
        }
    }
    ensure!(headers.next().is_none(), "more is listed than is stored");
    Ok(count)
}

/// The size of the file of this number, if it is complete.
fn size_of(store: &FileStore, number: FileNumber) -> Option<u32> {
    let info = store.info(number)?;
    info.complete.then_some(info.length)
}

/// Whether a short header has this number and this size.
fn says(header: &[u8], number: u32, size: u32) -> bool {
    header.len() == SHORT_LEN && le32(header, NUMBER_AT) == number && le32(header, SIZE_AT) == size
}

/// The body of a file.
fn body_of(file: &[u8]) -> &[u8] {
    file.get(HEADER_LEN..).unwrap_or(&[])
}

/// The octets of the file of this number.
fn stored<D: Disk>(
    alloc: Global,
    store: &mut FileStore,
    disk: &mut D,
    number: FileNumber,
) -> Result<Vec<u8>>
    requires { IsReady D.Disk store.old disk.old }
{
    match store.info(number) {
        Some(info) if info.complete => octets_of(alloc, store, disk, number, info),
        _ => bail!("the file isn't complete"),
    }
}

/// The octets of the complete file of this number.
fn octets_of<D: Disk>(
    alloc: Global,
    store: &mut FileStore,
    disk: &mut D,
    number: FileNumber,
    info: Info,
) -> Result<Vec<u8>>
    requires ready { IsReady D.Disk store.old disk.old }
    requires there { option_map info_of (entry_of (store_in store.old) number) ≡ Some info }
    requires complete { info.complete ≡ true }
{
    let mut octets = Vec::new(alloc);
    octets.resize(info.held as usize, 0)?;
    store.read_at(disk, number, 0, octets.as_mut_slice())?;
    Ok(octets)
}
