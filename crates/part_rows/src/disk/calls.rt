//! The calls of a row, on its disk.

use crate::parts::Parts;
use anyhow::{Result, bail, ensure};
use disk_model::{Disk, DiskFault};
use row_words::{OverDisk, hex_text, kind_and_rest, read_octets, two_parts};
use std::alloc::Global;

/// The calls of a row, separated by `;`.
#[derive(Drop)]
pub struct Calls<'a> {
    /// Their text.
    pub text: &'a str,
}

impl OverDisk for Calls<'_> {
    type Told = String;

    fn over<D: Disk>(&mut self, alloc: Global, disk: &mut D) -> Result<String> {
        let mut answers = Parts::new(alloc);
        for call in self.text.split(';') {
            make_call(alloc, disk, call.trim(), &mut answers)?;
        }
        Ok(answers.end())
    }
}

/// Makes a call, and puts what it answers.
pub fn make_call<D: Disk>(
    alloc: Global,
    disk: &mut D,
    call: &str,
    answers: &mut Parts,
) -> Result<()> {
    let (name, words) = kind_and_rest(call);
    match name {
        "len" => put_len(disk.len(), answers),
        "read" => read(alloc, disk, words, answers),
        "write" => write(alloc, disk, words, answers),
        "sync" => put_done(disk.sync(), answers),
        _ => bail!("no call of a disk"),
    }
}

/// `read AT COUNT`
fn read<D: Disk>(alloc: Global, disk: &mut D, words: &str, answers: &mut Parts) -> Result<()> {
    let (at, count) = two_parts(words, ' ')?;
    let (at, count) = (at.parse::<u64>()?, count.parse::<u64>()?);
    let mut room = Vec::new(alloc);
    let read = match disk.len() {
        Ok(len) => {
            ensure!(at <= len && count <= len - at, "octets that aren't there");
            room.resize(count as usize, 0)?;
            disk.read(at, room.as_mut_slice())
        }
        Err(DiskFault) => Err(DiskFault),
    };
    match read {
        Ok(()) => answers.put(hex_text(alloc, room.as_slice())?.as_str()),
        Err(DiskFault) => answers.put("failed"),
    }
}

/// `write AT OCTETS`
fn write<D: Disk>(alloc: Global, disk: &mut D, words: &str, answers: &mut Parts) -> Result<()> {
    let (at, octets) = two_parts(words, ' ')?;
    let at = at.parse::<u64>()?;
    let octets = read_octets(alloc, octets)?;
    put_done(disk.write_at(at, octets.as_slice()), answers)
}

/// Puts a length.
fn put_len(answer: Result<u64, DiskFault>, answers: &mut Parts) -> Result<()> {
    match answer {
        Ok(len) => answers.show(len),
        Err(DiskFault) => answers.put("failed"),
    }
}

/// Puts an answer.
fn put_done(answer: Result<(), DiskFault>, answers: &mut Parts) -> Result<()> {
    answers.put(match answer {
        Ok(()) => "ok",
        Err(DiskFault) => "failed",
    })
}
