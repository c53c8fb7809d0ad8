//! Rows of the program's words over a fresh disk in memory: each has the words, the shelf's names with their contents,
//! the numbers of the calls of the shelf and of the output that fail, and the clock's moments, parted by `;`. For each
//! row the status's number, the octets said and the lines shown are printed, and what the shelf then has under the name
//! `kept`, if it has that.

ghost use Rattle.std.specs.Prelude.{◌≤◌, length, IfOk};

use crate::memory_outside::{MemoryOutside, closed_air, open_out};
use anyhow::{Context, Result};
use disk_model::MemoryDisk;
use px_base::{MemoryClock, MemoryShelf, Shelf};
use row_words::{
    Player, four_parts, hex_text, read_numbers, read_words, text_of, two_parts, written,
};
use std::alloc::Global;

/// The name of the content that is shown after a run.
const KEPT: &str = "kept";

/// Plays each row by itself.
#[derive(Drop)]
pub struct CommandRows;

impl Player for CommandRows {
    fn play(&mut self, alloc: Global, row: &str) -> Result<String> {
        play(alloc, row)
    }
}

/// Plays a row over a closed air and a disk without octets, and gives the status's number, the octets said in
/// hexadecimal, the lines that were shown, each ended by `|`, and what the shelf then has under the name `kept`, if it
/// has that, in hexadecimal.
fn play(alloc: Global, row: &str) -> Result<String> {
    let (words, content, failing_shelf, rest) = four_parts(row, ';')?;
    let (failing_out, moments) = two_parts(rest, ';')?;
    let words = read_words(alloc, words)?;
    let shelf = open_shelf(alloc, content, failing_shelf)?;
    let mut outside = open(alloc, shelf, failing_out, moments)?;
    let mut disk = MemoryDisk::new(alloc, &[], &[])?;
    let number = outside.run(alloc, &words, &mut disk);
    told_text(alloc, number, &outside)
}

/// A closed air, this shelf, an output whose calls with these numbers fail, and a clock that gives these moments.
fn open(
    alloc: Global,
    shelf: MemoryShelf,
    failing_out: &str,
    moments: &str,
) -> Result<MemoryOutside> {
    let clock = open_clock(alloc, moments)?;
    let out = open_out(alloc, failing_out)?;
    let air = closed_air(alloc)?;
    Ok(MemoryOutside {
        air,
        clock,
        shelf,
        out,
    })
}

/// The status's number, the octets said, the lines that were shown, and what the shelf has under the name `kept`.
fn told_text(alloc: Global, number: u8, outside: &MemoryOutside) -> Result<String> {
    let said = hex_text(alloc, outside.air.said())?;
    let shown = outside.lines(alloc)?;
    let kept = kept_text(alloc, &outside.shelf)?;
    text_of(alloc, format_args!("{number};{said};{shown}{kept}"))
}

/// What the shelf has under the name `kept`, in hexadecimal after `;`; nothing where it has no such name.
fn kept_text(alloc: Global, shelf: &MemoryShelf) -> Result<String> {
    let Some(file) = shelf.content(KEPT) else {
        return Ok(String::new(alloc));
    };
    let octets = hex_text(alloc, file.as_slice())?;
    text_of(alloc, format_args!(";{octets}"))
}

/// A shelf whose calls with these numbers fail. It has nothing, or names with their contents, parted by `,`; its first
/// calls are a `keep` of each.
fn open_shelf(alloc: Global, text: &str, failing: &str) -> Result<MemoryShelf> {
    let failing = read_numbers(alloc, failing)?;
    let mut shelf = MemoryShelf::new(alloc, failing.as_slice())?;
    keep_all(alloc, &mut shelf, text)?;
    Ok(shelf)
}

/// Keeps these names with their contents.
fn keep_all(alloc: Global, shelf: &mut MemoryShelf, text: &str) -> Result<()> {
    if text.is_empty() {
        return Ok(());
    }
    for named in text.split(',') {
        let (name, content) = two_parts(named, ' ')?;
        let octets = read_content(alloc, content)?;
        shelf.keep(written(name), octets.as_slice())?;
    }
    Ok(())
}

/// A content, which is given in hexadecimal, or as one octet, `*` and how often it stands.
fn read_content(alloc: Global, content: &str) -> Result<Vec<u8>> {
    match content.split_once('*') {
        Some((octet, count)) => repeated(alloc, octet, count.parse::<usize>()?),
        None => Ok(hex::decode(alloc, content)?),
    }
}

/// So many octets, each the one that is given in hexadecimal.
fn repeated(alloc: Global, octet: &str, count: usize) -> Result<Vec<u8>> {
    let octet = hex::decode(alloc, octet)?;
    let octet = octet.first().context("no octet")?;
    let mut octets = Vec::new(alloc);
    octets.resize(count, *octet)?;
    Ok(octets)
}

/// A clock that gives these moments.
fn open_clock(alloc: Global, text: &str) -> Result<MemoryClock> {
    let moments = read_moments(alloc, text)?;
    Ok(MemoryClock::new(alloc, moments.as_slice())?)
}

/// The moments that a clock gives, parted by blanks; 1 where a row has none.
fn read_moments(alloc: Global, text: &str) -> Result<Vec<u32>>
    ensures { IfOk result (λ moments. 1 ≤ length moments.items) }
{
    let mut moments = Vec::new(alloc);
    for number in read_numbers(alloc, text)?.as_slice() {
        moments.push(u32::try_from(*number)?)?;
    }
    if moments.is_empty() {
        moments.push(1)?;
    }
    Ok(moments)
}
