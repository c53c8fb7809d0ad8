//! Rows of a disk in memory. A row has, separated by `|`, the disk's octets, its failing calls, the calls that are
//! made, separated by `;`, and the picks of crashes, separated by blanks.
//!
//! The calls are `len`; `read AT COUNT`, which asks for the length first; `write AT OCTETS`; and `sync`. What each
//! answers is printed, separated by `;`: the length, the octets read, `ok`, or `failed`. After it come the disk's
//! octets then, with `starved` if a call found no memory, and what a crash leaves of it by each pick; all separated by
//! ` | `.

pub mod calls;

use crate::disk::calls::Calls;
use anyhow::Result;
use disk_model::MemoryDisk;
use row_words::{Player, disk_after, four_parts, hex_text, read_octets};
use std::alloc::Global;

/// Plays rows of disks, each on its own.
#[derive(Drop)]
pub struct DiskRows;

impl Player for DiskRows {
    fn play(&mut self, alloc: Global, row: &str) -> Result<String> {
        let (octets, failing, calls, picks) = four_parts(row, '|')?;
        let octets = read_octets(alloc, octets)?;
        let made = Made {
            octets: octets.as_slice(),
            failing: failing.trim(),
            calls,
        };
        made.text(alloc, picks)
    }
}

/// Calls that are made on a disk.
#[derive(Clone, Copy)]
struct Made<'a> {
    /// The disk's octets at first.
    octets: &'a [u8],
    /// Which of its calls fail.
    failing: &'a str,
    /// The calls.
    calls: &'a str,
}

impl Made<'_> {
    /// What is printed for them.
    fn text(&self, alloc: Global, picks: &str) -> Result<String> {
        let (mut text, disk) = self.disk(alloc)?;
        push_end(alloc, &mut text, disk.bytes(), disk.starved())?;
        for pick in picks.split_whitespace() {
            self.push_left(alloc, &mut text, pick.parse::<u64>()?)?;
        }
        Ok(text)
    }

    /// Appends what a crash leaves, as a number picks it, to the text.
    fn push_left(&self, alloc: Global, text: &mut String, pick: u64) -> Result<()> {
        let (_answers, disk) = self.disk(alloc)?;
        let left = disk.crash(pick)?;
        push_octets(alloc, text, left.bytes())
    }

    /// What they answer, and the disk then.
    fn disk(&self, alloc: Global) -> Result<(String, MemoryDisk)> {
        disk_after(
            alloc,
            &mut Calls { text: self.calls },
            self.octets,
            self.failing,
        )
    }
}

/// Appends a disk's octets to the text, and `starved` if a call found no memory.
pub fn push_end(alloc: Global, text: &mut String, octets: &[u8], starved: bool) -> Result<()> {
    push_octets(alloc, text, octets)?;
    if starved {
        text.push_str(", starved")?;
    }
    Ok(())
}

/// Appends octets to the text.
pub fn push_octets(alloc: Global, text: &mut String, octets: &[u8]) -> Result<()> {
    let octets = hex_text(alloc, octets)?;
    text.push_str(" | ")?;
    text.push_str(octets.as_str())?;
    Ok(())
}
