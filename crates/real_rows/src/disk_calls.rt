//! The calls of a disk over a device.
//!
//! A call is `len`; `read AT COUNT`; `write AT OCTETS`; or `sync`. What it answers is the length, the octets that were
//! read, `ok`, or that the disk failed.

use crate::texts::{answer_text, octets_text};
use anyhow::{Result, bail};
use disk_model::{Disk, DiskFault};
use real_outside::{Device, DeviceDisk};
use row_words::{read_octets, text_of, written};
use std::alloc::Global;

/// Makes a call of these words, and gives what it answers. Takes memory.
pub fn make_call<V: Device>(
    alloc: Global,
    disk: &mut DeviceDisk<V>,
    words: &[&str],
) -> Result<String> {
    match words {
        ["len"] => len_text(alloc, disk.len()),
        ["read", at, count] => read(alloc, disk, at.parse::<u64>()?, count.parse::<usize>()?),
        ["write", at, octets] => {
            let octets = read_octets(alloc, written(octets))?;
            answer_text(alloc, disk.write_at(at.parse::<u64>()?, octets.as_slice()))
        }
        ["sync"] => answer_text(alloc, disk.sync()),
        _ => bail!("no call of a disk"),
    }
}

/// A length, or that the disk failed.
fn len_text(alloc: Global, len: Result<u64, DiskFault>) -> Result<String> {
    match len {
        Ok(len) => text_of(alloc, len),
        Err(fault) => text_of(alloc, fault),
    }
}

/// Reads this number of octets from this place on.
fn read<V: Device>(
    alloc: Global,
    disk: &mut DeviceDisk<V>,
    at: u64,
    count: usize,
) -> Result<String> {
    let mut room = Vec::new(alloc);
    room.resize(count, 0)?;
    match disk.read(at, room.as_mut_slice()) {
        Ok(()) => octets_text(alloc, room.as_slice()),
        Err(fault) => text_of(alloc, fault),
    }
}
