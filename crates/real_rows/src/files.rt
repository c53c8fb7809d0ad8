//! Rows of real files, each over the folder in which the program runs. A row has steps:
//!
//! - Of the folder: `write NAME OCTETS` sets a file's octets, and `read NAME` gives them, or `nothing` if nothing is
//!   there; `folder NAME` makes a folder, and `link TO NAME` a link; `mode NAME BITS` sets who may read, write and run
//!   a file, and `mode NAME` gives it, both in octal; `rename FROM TO`; `remove NAME` takes a file, a link or an empty
//!   folder away. What changes something answers `ok`.
//! - Of the shelf over it: `keep NAME OCTETS` and `load NAME MOST`.
//! - Of disks over files, up to three, `A`, `B` and `C`: `open A NAME`, which calls nothing yet, and `close A` answer
//!   `ok`; `A` and a call, as in `disk_calls`.
//! - Of streams: `air IN OUT` makes an air that hears one file, and says to another through a buffer that is written
//!   when it is flushed; `poll` and `put OCTETS`, as in `air_calls`. `show NAME OCTETS` puts octets on an output to a
//!   file.

mod disks;
mod folder;
mod streams;

use crate::files::disks::Disks;
use crate::files::folder::{change, content_text, mode_text};
use crate::files::streams::{Streams, show};
use crate::steps::{Steps, make_steps};
use crate::texts::{answer_text, octets_text};
use anyhow::Result;
use px_base::{FileBytes, Shelf, ShelfRefusal};
use real_outside::{FolderShelf, RealFiles};
use row_words::{Player, read_octets, text_of, written};
use std::alloc::Global;
use std::fs::{self, File};
use std::rt::Files;

/// Plays rows of files, each on its own.
#[derive(Drop)]
pub struct FileRows<'a, R> {
    rt: &'a R,
}

impl<'a, R> FileRows<'a, R> {
    /// Rows over the folder of this runtime.
    pub fn new(rt: &'a R) -> FileRows<'a, R> {
        FileRows { rt }
    }
}

impl<R: AllocGlobal + Files<File = File>> Player for FileRows<'_, R> {
    fn play(&mut self, alloc: Global, row: &str) -> Result<String> {
        let mut steps = FileSteps {
            rt: self.rt,
            shelf: FolderShelf::new(self.rt),
            disks: Disks::new(self.rt),
            streams: Streams::new(),
        };
        make_steps(alloc, &mut steps, row)
    }
}

/// What the steps of a row are made on.
#[derive(Drop)]
struct FileSteps<'a, R: Files<File = File>> {
    rt: &'a R,
    shelf: FolderShelf<RealFiles<'a, R>>,
    disks: Disks<'a, R>,
    streams: Streams,
}

impl<'a, R: AllocGlobal + Files<File = File>> Steps<'a> for FileSteps<'a, R> {
    fn make(&mut self, alloc: Global, words: &[&'a str]) -> Result<String> {
        match words {
            ["read", name] => content_text(alloc, fs::read(self.rt, *name)),
            ["mode", name] => mode_text(alloc, &fs::metadata(self.rt, *name)?),
            ["keep", name, octets] => {
                let octets = read_octets(alloc, written(octets))?;
                answer_text(alloc, self.shelf.keep(name, octets.as_slice()))
            }
            ["load", name, most] => {
                load_text(alloc, self.shelf.load(alloc, name, most.parse::<usize>()?))
            }
            ["open" | "close" | "A" | "B" | "C", ..] => self.disks.make(alloc, words),
            ["air" | "poll" | "put", ..] => self.streams.make(alloc, self.rt, words),
            ["show", name, octets] => show(alloc, self.rt, name, octets),
            _ => {
                change(self.rt, words)?;
                text_of(alloc, "ok")
            }
        }
    }
}

/// The octets that were loaded, or why none were.
fn load_text(alloc: Global, loaded: Result<FileBytes, ShelfRefusal>) -> Result<String> {
    match loaded {
        Ok(content) => octets_text(alloc, content.as_slice()),
        Err(refusal) => text_of(alloc, refusal),
    }
}
