//! What the octets of a disk stand for.

ghost use Rattle.std.specs.Prelude.{◌≡◌, Some, false, true};
ghost use Rattle.std.specs.Option.{option_map};
ghost use Rattle.file_store_model.specs.Info.{info_of};
ghost use Rattle.file_store_model.specs.Store.{entry_of};
ghost use Rattle.file_store.specs.Reads.{StaysReady};
ghost use Rattle.file_store.specs.State.{IsReady, store_in};

use anyhow::Result;
use disk_model::{Disk, MemoryDisk};
use file_store::{FileStore, Info, Limits, StoreFault};
use pfh_items::sum16;
use px_base::FileNumber;
use row_words::text_of;
use std::alloc::Global;

/// How many blocks of 512 octets a store has, where its octets don't say.
const BLOCKS: u32 = 64;

/// What octets stand for as a store of files, as a recovery of a disk with them finds it.
pub fn standing_text(alloc: Global, octets: &[u8]) -> Result<String> {
    let mut disk = MemoryDisk::new(alloc, octets, &[])?;
    match FileStore::recover(alloc, &mut disk, Limits { blocks: BLOCKS }) {
        Ok(mut store) => store_text(alloc, &mut store, &mut disk),
        Err(StoreFault::NotAStore { .. }) => text_of(alloc, "no store"),
        Err(StoreFault::Damaged { at }) => text_of(alloc, format_args!("damaged {at}")),
        Err(fault) => Err(fault.into()),
    }
}

/// What a store holds: the number that the next file gets, and each entry.
fn store_text<D: Disk>(alloc: Global, store: &mut FileStore, disk: &mut D) -> Result<String>
    requires { IsReady D.Disk store.old disk.old }
{
    let next = store.next_number().get();
    let mut text = text_of(alloc, format_args!("next {next}"))?;
    for number in 1..next {
        let entry = entry_text(alloc, store, disk, FileNumber::new(number))?;
        text.push_str(entry.as_str())?;
    }
    Ok(text)
}

/// What a store says of the entry of this number, after a blank; nothing where there is none.
fn entry_text<D: Disk>(
    alloc: Global,
    store: &mut FileStore,
    disk: &mut D,
    number: FileNumber,
) -> Result<String>
    requires ready { IsReady D.Disk store.old disk.old }
    ensures { StaysReady D.Disk store.old store.new disk.new }
{
    match store.info(number) {
        None => Ok(String::new(alloc)),
        Some(info) => info_text(alloc, store, disk, number, info),
    }
}

/// What is said of an entry of this number.
fn info_text<D: Disk>(
    alloc: Global,
    store: &mut FileStore,
    disk: &mut D,
    number: FileNumber,
    info: Info,
) -> Result<String>
    requires ready { IsReady D.Disk store.old disk.old }
    requires there { option_map info_of (entry_of (store_in store.old) number) ≡ Some info }
    ensures { StaysReady D.Disk store.old store.new disk.new }
{
    let caller = info.caller.text();
    let call = caller.as_str();
    let (shown, length) = (number.get(), info.length);
    if info.complete {
        let sum = sum_of(alloc, store, disk, number, info)?;
        return text_of(
            alloc,
            format_args!(" {shown}:{call}:{length}:complete {sum:04x}"),
        );
    }
    let held = info.held;
    text_of(alloc, format_args!(" {shown}:{call}:{length}:held {held}"))
}

/// The sum of the octets of a complete entry of this number.
fn sum_of<D: Disk>(
    alloc: Global,
    store: &mut FileStore,
    disk: &mut D,
    number: FileNumber,
    info: Info,
) -> Result<u16>
    requires ready { IsReady D.Disk store.old disk.old }
    requires there { option_map info_of (entry_of (store_in store.old) number) ≡ Some info }
    requires complete { info.complete ≡ true }
    ensures { StaysReady D.Disk store.old store.new disk.new }
{
    let mut octets = Vec::new(alloc);
    octets.resize(info.held as usize, 0)?;
    store.read_at(disk, number, 0, octets.as_mut_slice())?;
    Ok(sum16(octets.as_slice()))
}
