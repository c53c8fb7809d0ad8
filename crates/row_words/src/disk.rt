//! The disk of a row.

use crate::{read_numbers, read_octets};
use anyhow::{Context, Result};
use disk_model::{Disk, FuseDisk, MemoryDisk};
use std::alloc::Global;

/// What is done over the disk of a row.
pub trait OverDisk {
    /// What is reported of it.
    type Told;

    /// Does it over this disk. Takes memory.
    fn over<D: Disk>(&mut self, alloc: Global, disk: &mut D) -> Result<Self::Told>;
}

/// The octets of a row's disk: those that are written; or after `=` what a read gives of the disk of the row right
/// before, or what a crash leaves of it, as a number picks it. Takes memory.
pub fn octets_before(alloc: Global, text: &str, before: Option<MemoryDisk>) -> Result<Vec<u8>> {
    let Some(pick) = text.strip_prefix('=') else {
        return read_octets(alloc, text);
    };
    let before = before.context("no row before this one")?;
    let left = left_by(before, pick)?;
    Ok(Vec::from_slice(alloc, left.bytes())?)
}

/// The disk as it is; or what a crash leaves of it, if a number picks it.
fn left_by(disk: MemoryDisk, pick: &str) -> Result<MemoryDisk> {
    if pick.is_empty() {
        return Ok(disk);
    }
    Ok(disk.crash(pick.parse::<u64>()?)?)
}

/// Does something over a disk with these octets, and gives what is reported of it, and the disk. The numbers of the
/// disk's calls that fail are given, or after `!` how many calls of `write_at` and `sync` pass before each fails. Takes
/// memory.
pub fn disk_after<T: OverDisk>(
    alloc: Global,
    done: &mut T,
    octets: &[u8],
    failing: &str,
) -> Result<(T::Told, MemoryDisk)> {
    match failing.strip_prefix('!') {
        Some(calls) => over_fuse(alloc, done, octets, calls.parse::<u64>()?),
        None => over_memory(alloc, done, octets, failing),
    }
}

/// Does something over a disk of which this number of calls of `write_at` and `sync` pass.
fn over_fuse<T: OverDisk>(
    alloc: Global,
    done: &mut T,
    octets: &[u8],
    calls: u64,
) -> Result<(T::Told, MemoryDisk)> {
    let mut disk = FuseDisk::new(MemoryDisk::new(alloc, octets, &[])?, calls);
    let told = done.over(alloc, &mut disk)?;
    Ok((told, disk.into_disk()))
}

/// Does something over a disk of which the calls with these numbers fail.
fn over_memory<T: OverDisk>(
    alloc: Global,
    done: &mut T,
    octets: &[u8],
    failing: &str,
) -> Result<(T::Told, MemoryDisk)> {
    let failing = read_numbers(alloc, failing)?;
    let mut disk = MemoryDisk::new(alloc, octets, failing.as_slice())?;
    let told = done.over(alloc, &mut disk)?;
    Ok((told, disk))
}
