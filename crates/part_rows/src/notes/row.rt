//! One row: a disk, and what is done with the notes on it.

use crate::notes::calls::play_calls;
use crate::notes::stop;
use anyhow::{Result, bail};
use disk_model::{FuseDisk, MemoryDisk};
use row_words::{hex_text, read_octets, text_of, three_parts, two_parts};
use std::alloc::Global;

/// Plays a row, and gives what is printed for it. Takes memory.
pub fn play(alloc: Global, row: &str) -> Result<String> {
    let (kind, rest) = two_parts(row, ' ')?;
    match kind {
        "play" => play_whole(alloc, rest),
        "show" => play_and_show(alloc, rest),
        "fail" => play_failing(alloc, rest),
        "stop" => stop::play(alloc, rest),
        _ => bail!("no kind of row"),
    }
}

/// Makes calls on the notes of a disk.
fn play_whole(alloc: Global, row: &str) -> Result<String> {
    let (octets, calls) = two_parts(row, '|')?;
    play_calls(alloc, &mut disk_of(alloc, octets)?, calls)
}

/// Makes calls on the notes of a disk, and shows their answers and then the disk's octets.
fn play_and_show(alloc: Global, row: &str) -> Result<String> {
    let (octets, calls) = two_parts(row, '|')?;
    let mut disk = disk_of(alloc, octets)?;
    let answers = play_calls(alloc, &mut disk, calls)?;
    let octets = hex_text(alloc, disk.bytes())?;
    text_of(alloc, format_args!("{answers} | {octets}"))
}

/// Makes calls on the notes of a disk of which this number of calls pass.
fn play_failing(alloc: Global, row: &str) -> Result<String> {
    let (count, octets, calls) = three_parts(row, '|')?;
    let count = count.trim().parse::<u64>()?;
    let disk = disk_of(alloc, octets)?;
    play_calls(alloc, &mut FuseDisk::new(disk, count), calls)
}

/// A disk with the octets that a row writes.
fn disk_of(alloc: Global, octets: &str) -> Result<MemoryDisk> {
    let octets = read_octets(alloc, octets)?;
    Ok(MemoryDisk::new(alloc, octets.as_slice(), &[])?)
}
