//! A run: its outside, but for the disk, and what is told of it.

use crate::memory_outside::{MemoryOutside, open_out};
use anyhow::{Context, Result};
use disk_model::Disk;
use pacsat_cli::Words;
use px_base::{FileBytes, MemoryShelf, Shelf};
use row_words::{OverDisk, hex_text, read_air, read_numbers, text_of};
use std::alloc::Global;

/// The parts of a row, but for its words, the shelf's content and the disk.
#[derive(Clone, Copy)]
pub struct Outside<'a> {
    /// The numbers of the air's calls that fail.
    pub failing_air: &'a str,
    /// The most octets of a poll.
    pub poll: &'a str,
    /// The turns.
    pub turns: &'a str,
    /// The numbers of the shelf's calls that fail.
    pub failing_shelf: &'a str,
    /// The numbers of the output's calls that fail.
    pub failing_out: &'a str,
}

/// A run over what is in memory.
#[derive(Drop)]
pub struct Run<'a> {
    words: &'a Words,
    outside: MemoryOutside,
}

impl<'a> Run<'a> {
    /// A run of these words, where the shelf has the content under the name, if both are there. Takes memory.
    pub fn open(
        alloc: Global,
        words: &'a Words,
        outside: &Outside<'_>,
        name: Option<&str>,
        content: Option<FileBytes>,
    ) -> Result<Run<'a>> {
        let poll = outside.poll.parse::<usize>()?;
        let shelf = open_shelf(alloc, outside.failing_shelf, name, content)?;
        let out = open_out(alloc, outside.failing_out)?;
        let (air, clock) = read_air(alloc, outside.failing_air, outside.turns, poll)?;
        let outside = MemoryOutside {
            air,
            clock,
            shelf,
            out,
        };
        Ok(Run { words, outside })
    }

    /// The lines that were shown, each ended by `|` in place of its line feed, and how many polls were made.
    pub fn shown_text(&self, alloc: Global) -> Result<String> {
        let shown = self.outside.lines(alloc)?;
        let polls = self.outside.air.heard().len();
        text_of(alloc, format_args!("{shown};{polls}"))
    }

    /// The octets said, in hexadecimal.
    pub fn said_text(&self, alloc: Global) -> Result<String> {
        hex_text(alloc, self.outside.air.said())
    }

    /// What the shelf has under the name, if there is one.
    pub fn kept(&self, alloc: Global, name: Option<&str>) -> Result<Option<FileBytes>> {
        match name.and_then(|name| self.outside.shelf.content(name)) {
            Some(content) => Ok(Some(FileBytes::copy_of(alloc, content.as_slice())?)),
            None => Ok(None),
        }
    }
}

/// A shelf whose calls with these numbers fail, and which has the content under the name; keeping it is its first call.
fn open_shelf(
    alloc: Global,
    failing: &str,
    name: Option<&str>,
    content: Option<FileBytes>,
) -> Result<MemoryShelf> {
    let failing = read_numbers(alloc, failing)?;
    let mut shelf = MemoryShelf::new(alloc, failing.as_slice())?;
    if let Some(content) = content {
        shelf.keep(name.context("no name")?, content.as_slice())?;
    }
    Ok(shelf)
}

impl OverDisk for Run<'_> {
    type Told = u8;

    /// Runs the words over this disk, and gives the status's number.
    fn over<D: Disk>(&mut self, alloc: Global, disk: &mut D) -> Result<u8> {
        Ok(self.outside.run(alloc, self.words, disk))
    }
}
