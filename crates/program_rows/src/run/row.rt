//! One row: what is run, and what it says.

use crate::memory_outside::MemoryOutside;
use crate::run::standing::standing_text;
use crate::run::words::octet_words;
use anyhow::{Context, Result};
use disk_model::{Disk, MemoryDisk};
use px_base::{MemoryOut, MemoryShelf};
use row_words::{
    OverDisk, Player, disk_after, hex_text, octets_before, push_shown, read_air, read_words,
    text_of, three_parts, two_parts,
};
use std::alloc::Global;

/// Where the octet of a store's header stands that selects one of its halves.
const SELECTOR: usize = 15;

/// How many octets are shown where those at the end of a disk are.
const LAST: usize = 32;

/// Plays rows, each of which may begin on what the row before left on its disk, or on what that one began on.
#[derive(Drop)]
pub struct RunRows {
    before: Option<MemoryDisk>,
    begun: Option<Vec<u8>>,
}

impl RunRows {
    /// Before the first row.
    pub fn new() -> RunRows {
        RunRows {
            before: None,
            begun: None,
        }
    }

    /// The octets of a row's disk.
    fn octets(&mut self, alloc: Global, text: &str) -> Result<Vec<u8>> {
        if text == "==" {
            return self.begun.take().context("no row before this one");
        }
        octets_before(alloc, text, self.before.take())
    }
}

impl Player for RunRows {
    /// Plays a row, and keeps its disk for the next one.
    fn play(&mut self, alloc: Global, row: &str) -> Result<String> {
        let (row, failing) = row
            .rsplit_once(';')
            .context("no failing calls of the disk")?;
        let (row, octets) = row.rsplit_once(';').context("no disk")?;
        let octets = self.octets(alloc, octets)?;
        let (failing, picks) = failing.split_once('|').unwrap_or((failing, ""));
        let failing = failing.trim();
        let (mut shown, disk) = run_text(alloc, row, octets.as_slice(), failing)?;
        self.before = Some(disk);
        for pick in picks.split_whitespace() {
            let left = left_text(alloc, row, octets.as_slice(), failing, pick)?;
            push_shown(alloc, &mut shown, format_args!(" | {pick} {left}"))?;
        }
        self.begun = Some(octets);
        Ok(shown)
    }
}

/// What is printed of the run of a row, and its disk then.
fn run_text(
    alloc: Global,
    row: &str,
    octets: &[u8],
    failing: &str,
) -> Result<(String, MemoryDisk)> {
    let (ended, disk) = disk_after(alloc, &mut Run { row }, octets, failing)?;
    let standing = content_text(alloc, row, disk.bytes())?;
    let shown = text_of(alloc, format_args!("{ended} | {standing}"))?;
    Ok((shown, disk))
}

/// What a crash leaves behind the run of a row, as a number picks it.
fn left_text(alloc: Global, row: &str, octets: &[u8], failing: &str, pick: &str) -> Result<String> {
    let (_ended, disk) = disk_after(alloc, &mut Run { row }, octets, failing)?;
    let left = disk.crash(pick.parse::<u64>()?)?;
    content_text(alloc, row, left.bytes())
}

/// The parts of a row but for those of its disk.
#[derive(Drop)]
struct Run<'a> {
    row: &'a str,
}

impl OverDisk for Run<'_> {
    type Told = String;

    fn over<D: Disk>(&mut self, alloc: Global, disk: &mut D) -> Result<String> {
        play_over(alloc, self.row, disk)
    }
}

/// What the content of the disk of a row stands for, where it has one; or the octets that it is.
fn content_text(alloc: Global, row: &str, octets: &[u8]) -> Result<String> {
    if row.starts_with("none ") {
        return text_of(alloc, "none");
    }
    if row.starts_with("octets ") {
        let words = octet_words(alloc, octets)?;
        let len = octets.len();
        return text_of(alloc, format_args!("{len} octets: {words}"));
    }
    if row.starts_with("length ") {
        return length_text(alloc, octets);
    }
    if row.starts_with("end ") {
        return end_text(alloc, octets);
    }
    standing_text(alloc, octets)
}

/// How long a disk is, the octet of its header that selects a half, and what its content stands for.
fn length_text(alloc: Global, octets: &[u8]) -> Result<String> {
    let len = octets.len();
    let selector = octets.get(SELECTOR).context("no header")?;
    let standing = standing_text(alloc, octets)?;
    text_of(
        alloc,
        format_args!("{len} octets, selector {selector}: {standing}"),
    )
}

/// The octets at the end of a disk, how long it is, the octet that selects a half, and what its content stands for.
fn end_text(alloc: Global, octets: &[u8]) -> Result<String> {
    let start = octets.len().saturating_sub(LAST);
    let end = octet_words(alloc, octets.get(start..).unwrap_or(&[]))?;
    let whole = length_text(alloc, octets)?;
    text_of(alloc, format_args!("{end} at the end of {whole}"))
}

/// Plays a row over a disk, and gives the octets said in hexadecimal, the status's number, and the line that was shown.
fn play_over<D: Disk>(alloc: Global, row: &str, disk: &mut D) -> Result<String> {
    let (words, failing, heard) = three_parts(row, ';')?;
    let words = read_words(alloc, words)?;
    let mut outside = open(alloc, failing, heard)?;
    let number = outside.run(alloc, &words, disk);
    told_text(alloc, number, &outside)
}

/// The outside of a row: the numbers of the air's calls that fail, and the most octets of a poll and the turns, parted
/// by `;`.
fn open(alloc: Global, failing: &str, heard: &str) -> Result<MemoryOutside> {
    let (poll, turns) = two_parts(heard, ';')?;
    let (air, clock) = read_air(alloc, failing, turns, poll.parse::<usize>()?)?;
    let shelf = MemoryShelf::new(alloc, &[])?;
    let out = MemoryOut::new(alloc, &[])?;
    Ok(MemoryOutside {
        air,
        clock,
        shelf,
        out,
    })
}

/// The octets said, the status's number, and the line that was shown.
fn told_text(alloc: Global, number: u8, outside: &MemoryOutside) -> Result<String> {
    let said = hex_text(alloc, outside.air.said())?;
    let shown = outside.line()?;
    text_of(alloc, format_args!("{said};{number};{shown}"))
}
