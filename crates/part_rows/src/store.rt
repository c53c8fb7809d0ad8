//! Rows of a store over a disk in memory. A row has the length of a file and octets. In a new store of 8 blocks
//! NOCALL begins the file at the moment 5, the octets are brought, and the file is ended at the moment 6.
//!
//! Printed is how it ended: why the file wasn't begun; `TooMuch`; or, with what the upload reports before the end,
//! `Sealed` and the receipt's number, `Short`, `Header` and the code of a fault, or `Read` if a read of the disk
//! failed. After ` | ` comes what a store that is recovered from the disk says of the file, or `none`.

ghost use Rattle.file_store.specs.State.{StandsOn};
ghost use Rattle.file_store.specs.Upload.{Holds};

use anyhow::Result;
use disk_model::{Disk, MemoryDisk};
use file_store::{AppendRefusal, BeginRefusal, FileStore, Info, Limits, OpenUpload, SealRefusal};
use px_base::{Call, FileNumber, Moment};
use row_words::{Player, read_octets, text_of, two_parts};
use std::alloc::Global;

/// What a store may take.
const LIMITS: Limits = Limits { blocks: 8 };

/// Plays rows of stores, each on its own.
#[derive(Drop)]
pub struct StoreRows;

impl Player for StoreRows {
    fn play(&mut self, alloc: Global, row: &str) -> Result<String> {
        let (length, octets) = two_parts(row, ' ')?;
        let length = length.parse::<u32>()?;
        let octets = read_octets(alloc, octets)?;
        let mut disk = MemoryDisk::new(alloc, &[], &[])?;
        let ended = uploaded(alloc, &mut disk, length, octets.as_slice())?;
        let standing = standing(alloc, &mut disk)?;
        text_of(alloc, format_args!("{ended:?} | {standing}"))
    }
}

/// Uploads octets of a file with this length to the store of this disk.
fn uploaded<D: Disk>(alloc: Global, disk: &mut D, length: u32, octets: &[u8]) -> Result<Ended> {
    let caller = Call::read("NOCALL")?;
    let mut store = FileStore::recover(alloc, disk, LIMITS)?;
    Ok(upload(&mut store, disk, caller, length, octets))
}

/// What the store of this disk says of the first file.
fn standing<D: Disk>(alloc: Global, disk: &mut D) -> Result<String> {
    let store = FileStore::recover(alloc, disk, LIMITS)?;
    standing_text(alloc, store.info(FileNumber::new(1)))
}

/// What a store says of a file.
fn standing_text(alloc: Global, info: Option<Info>) -> Result<String> {
    let Some(info) = info else {
        return text_of(alloc, "none");
    };
    let (held, length, begun) = (info.held, info.length, info.begun.get());
    let end = if info.complete {
        "complete"
    } else {
        "under way"
    };
    text_of(
        alloc,
        format_args!("{held} of {length}, {end}, begun {begun}"),
    )
}

/// What an upload reports, and the store of it.
#[derive(Clone, Copy, Debug)]
struct Told {
    number: u32,
    length: u32,
    held: u32,
    is_out: bool,
    is_held: bool,
}

/// How an upload ended.
#[derive(Clone, Copy, Debug)]
enum Ended {
    NotBegun(BeginRefusal),
    TooMuch,
    Sealed(Told, u32),
    Short(Told),
    Header(Told, u8),
    Read(Told),
    Failed,
}

/// Begins a file, brings these octets, and ends it.
fn upload<D: Disk>(
    store: &mut FileStore,
    disk: &mut D,
    caller: Call,
    file_length: u32,
    octets: &[u8],
) -> Ended
    requires { StandsOn D.Disk store.old disk.old }
{
    let up = match store.begin(disk, caller, file_length, Moment::new(5)) {
        Ok(up) => up,
        Err(refusal) => return Ended::NotBegun(refusal),
    };
    match store.append(disk, up, octets) {
        Ok(up) => end(store, disk, up),
        Err(AppendRefusal::TooMuch(up)) => {
            store.park(up);
            Ended::TooMuch
        }
        Err(AppendRefusal::Failed | AppendRefusal::Disk) => Ended::Failed,
    }
}

/// Ends the file of an upload.
fn end<D: Disk>(store: &mut FileStore, disk: &mut D, up: OpenUpload) -> Ended
    requires holds { Holds store.old up }
    requires stands_on { StandsOn D.Disk store.old disk.old }
{
    let told = told_of(store, &up);
    match store.seal(disk, up, Moment::new(6)) {
        Ok(receipt) => {
            let number = receipt.number().get();
            receipt.spend();
            Ended::Sealed(told, number)
        }
        Err(SealRefusal::Short(up)) => {
            store.park(up);
            Ended::Short(told)
        }
        Err(SealRefusal::Header { code }) => Ended::Header(told, code),
        Err(SealRefusal::Read(up)) => {
            store.park(up);
            Ended::Read(told)
        }
        Err(SealRefusal::Failed | SealRefusal::Disk) => Ended::Failed,
    }
}

/// What an upload reports, and the store of it.
fn told_of(store: &FileStore, up: &OpenUpload) -> Told {
    Told {
        number: up.number().get(),
        length: up.length(),
        held: up.held(),
        is_out: store.is_out(up.number()),
        is_held: store.holds(up),
    }
}
